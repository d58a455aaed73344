use crate::EditHeads;
use fs_model::{Cause, Unit};

/// Which trees of a group are sick, of those that these edits touch.
#[derive(Clone, Copy)]
pub struct SickTrees {
    pub bno: bool,
    pub cnt: bool,
    pub rmap: bool,
}

/// Where a unit's blocks are reserved and reaped: the group, the unit that is open there, the group's
/// heads as they are kept, and which of its trees are sick.
#[derive(Clone, Copy)]
pub struct EditPlace {
    pub group: u32,
    pub unit: Unit,
    pub heads: EditHeads,
    pub sick: SickTrees,
}

/// Why an index was left as it was, for each of the three; None where it was edited or passed over.
#[derive(Clone, Copy)]
pub struct IndexesLeft {
    pub bno: Option<Cause>,
    pub cnt: Option<Cause>,
    pub rmap: Option<Cause>,
}

/// A block that was the first of the free list, and which indexes were left.
#[derive(Clone, Copy)]
pub struct Reserved {
    pub block: u32,
    pub left: IndexesLeft,
}

/// A spare block is reserved, and these indexes were left; or nothing is changed, since reverse mappings
/// met this and no index would note the block.
#[derive(Clone, Copy)]
pub enum Spare {
    Noted(IndexesLeft),
    Unnoted(Cause),
}

/// A run is reaped, these indexes were left, and another owner had a block of it, so that none was
/// freed; or nothing is changed, since this was met in reverse mappings.
#[derive(Clone, Copy)]
pub enum Reap {
    Done { left: IndexesLeft, is_owned: bool },
    Met(Cause),
}
