use crate::record::AnyRec;
use sblock::{BlockFault, Kind};

/// A number in a group's heads that its trees decide
/// (XFS Algorithms and Data Structures, "AG Free Space Block" and "AG Inode Management").
#[derive(Clone, Copy, Debug, PartialEq, Eq)]
pub enum Counter {
    Count,
    Freecount,
    Iblocks,
    Fblocks,
    RmapBlocks,
    Freeblks,
    Longest,
    Btreeblks,
    RefcountBlocks,
}

/// Where an index or a head differs from its derivation: a tree that can't be read, with its
/// first bad block (group-relative), a derived record that the index lacks, an index record that
/// isn't derived, or a counter with another number
/// (XFS Online Fsck Design, "Cross-Referencing Space Metadata").
#[derive(Clone, Copy, Debug, PartialEq, Eq)]
pub enum Fault {
    Block {
        kind: Kind,
        block: u32,
        fault: BlockFault,
    },
    Missing(AnyRec),
    Extra(AnyRec),
    Counter {
        name: Counter,
        found: u32,
        wanted: u32,
    },
}

/// What an edit met that makes a tree sick: a bad block (group-relative), a record that should
/// have been there, one that meets the new one, an owner of a run that no owner should have, a
/// free list that is too short, or a batch of too many blocks.
#[derive(Clone, Copy, Debug, PartialEq, Eq)]
pub enum Cause {
    Block { block: u32, fault: BlockFault },
    Missing,
    Overlap,
    Owner,
    Short { have: u32, need: u32 },
    Large(u64),
}
