use block_reap::LimboRun;
use core_edit::EditHeads;
use core_units::BadTrees;
use fs_model::Trust;

/// What is known of each of the six btrees of a group.
#[derive(Clone, Copy, Debug, PartialEq, Eq)]
pub struct Trusts {
    pub bno: Trust,
    pub cnt: Trust,
    pub rmap: Trust,
    pub refc: Trust,
    pub ino: Trust,
    pub fino: Trust,
}

/// Which units of a group had a verdict good or rebuilt since they were opened last.
#[derive(Clone, Copy, Debug, PartialEq, Eq)]
pub struct Passed {
    pub inode: bool,
    pub rmap: bool,
    pub free: bool,
    pub refc: bool,
}

/// What is kept in memory of a group: its heads, decoded; the trust of its trees; which units passed;
/// the trees that couldn't be read at opening and weren't rebuilt since; and the blocks that wait to be
/// freed (XFS Algorithms and Data Structures, "Allocation Groups").
#[derive(Drop)]
pub struct GroupKept {
    pub heads: EditHeads,
    pub trust: Trusts,
    pub passed: Passed,
    pub bad: BadTrees,
    pub limbo: Vec<LimboRun>,
}
