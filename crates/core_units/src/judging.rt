// A unit that is compared with its derivation.
use crate::Lists;
use crate::compare::Place;
use fs_model::{Evidence, Unit};
use group_trees::GroupTrees;
use rmap_recs::RmapRec;

/// A unit of a group once all of it was gathered: the group's btrees, what the unit's own must hold,
/// the numbers of the units of inodes that are chunks, and the runs of the forks' owners; where the
/// comparison stands, and how many faults it found so far
/// (XFS Online Fsck Design, "Cross-Referencing Space Metadata").
#[derive(Drop)]
pub struct Judging {
    pub unit: Unit,
    pub trees: GroupTrees,
    pub lists: Lists,
    pub chunks: Vec<u32>,
    pub owners: Vec<RmapRec>,
    pub at: Place,
    pub found: u64,
}

/// What follows from all that was gathered: the evidence for which the unit can't be judged, or the
/// unit with what its btrees must hold
/// (XFS Online Fsck Design, "Cross-Referencing Space Metadata").
#[derive(Drop)]
pub enum Concluded {
    GaveUp(Evidence),
    Judging(Judging),
}
