use crate::claim::Evidence;
use crate::unit::Unit;

/// Why the work on a unit was given up: a reserve of fewer blocks than are needed and no block
/// left to take, contradicting evidence, or so many turns that were lost to writers.
#[derive(Clone, Copy, Debug, PartialEq, Eq)]
pub enum Reason {
    Space { reserve: u32, need: u64 },
    Contradiction(Evidence),
    TurnLimit(u32),
}

/// How the work on a unit ended: without a fault, with so many, rebuilt, not begun, since this
/// unit of this group isn't good, or given up.
#[derive(Clone, Copy, Debug, PartialEq, Eq)]
pub enum Verdict {
    Good,
    Faulty(u64),
    Rebuilt,
    Skipped(u32, Unit),
    GaveUp(Reason),
}
