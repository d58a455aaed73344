use ag_headers::HeadFault;
use defer_chain::StepKind;
use fs_model::{Head, Reason, Unit};
use sblock::Kind;

/// How far a unit of a group is; idle where none is open there
/// (XFS Online Fsck Design, "Metadata Scrubbing" and "Metadata Repair").
#[derive(Clone, Copy, Debug, PartialEq, Eq)]
pub enum Phase {
    Idle,
    Scanning,
    Open,
    Closed,
    Gathered,
    Building,
    Reserved,
    Staged,
    Judged,
}

/// Where a scan of all inodes has come to: at the inode that it holds, or at the end
/// (XFS Online Fsck Design, "Live Inode Scans").
#[derive(Clone, Copy, Debug, PartialEq, Eq)]
pub enum Moved {
    At(u64),
    End,
}

/// Why an event of a writer isn't done: the inode is no file that can be changed, an offset is mapped
/// already or isn't, the fork has no room or another form, space is wanting, a tree of a group is
/// sick, a reference count is at its end, a tree is too large, an inode is held, a group is closing, a
/// fault of the device was counted, memory is wanting, 16 chains are open, there is no such chain, its
/// next step is another one, or the journal is full.
#[derive(Clone, Copy, Debug, PartialEq, Eq)]
pub enum WriteFault {
    NoFile,
    Occupied,
    Hole,
    ForkFull,
    TreeFork,
    NoSpace,
    Sick(u32, Kind),
    CountMax,
    TooLarge,
    Busy(u64),
    Closing(u32),
    Shut(u64),
    Memory,
    Crowded,
    NoChain,
    OtherStep(Option<StepKind>),
    JournalFull,
}

/// Why an event of the scrubber isn't done: an inode is held, so many intents of the group are
/// unfinished, a unit is open, a unit that it needs isn't good, the work was given up, the unit is in
/// another phase, the journal is full, a fault of the device was counted, or memory is wanting.
#[derive(Clone, Copy, Debug, PartialEq, Eq)]
pub enum ScrubFault {
    Busy(u64),
    Draining(u32, u32),
    UnitOpen(u32, Unit),
    Skipped(u32, Unit),
    GaveUp(Reason),
    OtherPhase(Phase),
    JournalFull,
    Shut(u64),
    Memory,
}

/// Why a device isn't opened: the first head that is refused, in the groups' order and of one group in
/// the order AGF, AGI, AGFL; a read failed; or memory is wanting.
#[derive(Clone, Copy, Debug, PartialEq, Eq)]
pub enum OpenRefused {
    Group {
        group: u32,
        head: Head,
        fault: HeadFault,
    },
    Failed,
    Memory,
}

/// What an event of the core answers, of whatever kind it is: a chain; an inode and its chain; a number
/// of blocks; that it is done; the inode at which a scan stands, or that none is left; whether the last
/// piece is done; or why it isn't done, as a writer or the scrubber is told.
#[derive(Clone, Copy, Debug, PartialEq, Eq)]
pub enum Answer {
    Chain(u32),
    Taken(u64, u32),
    Blocks(u32),
    Done,
    At(u64),
    End,
    Part(bool),
    Write(WriteFault),
    Scrub(ScrubFault),
}

/// What the accessors tell after an event: which step the event's chain needs next, and the group of
/// that step; the length of the free list of that group, or else of the event's own group, in blocks;
/// and how far the unit of the event's own group is. Without a chain `next` and `group` are None;
/// without a group `list` is 0 and `phase` is Idle.
#[derive(Clone, Copy, Debug, PartialEq, Eq)]
pub struct Glance {
    pub next: Option<StepKind>,
    pub group: Option<u32>,
    pub list: u32,
    pub phase: Phase,
}
