ghost use Rattle.std.specs.Prelude.{◌≡◌, ℕ, ◌≤◌, IfOk};
ghost use Rattle.run_sets.specs.Runs.{AreMaximal, EndWithin, most, runs_below};
ghost use Rattle.run_sets.specs.Operation.{joined, kept};

use crate::run::Run;
use crate::stretch::{first_stretch, rest_behind};
use std::alloc::{AllocError, Global};

/// What becomes of a block by where it lies.
#[derive(Clone, Copy)]
pub enum Operation {
    /// It is kept if it lies in one of the two sets.
    Union,
    /// It is kept if it lies in the left set alone.
    Difference,
    /// It is kept if it lies in neither set.
    Neither,
}

impl Operation {
    fn keeps(self, left: bool, right: bool) -> bool
        ensures { result ≡ joined self left right }
    {
        match self {
            Operation::Union => left || right,
            Operation::Difference => left && !right,
            Operation::Neither => !(left || right),
        }
    }
}

/// The maximal runs of the blocks below `length` that the operation keeps.
pub fn sweep(
    alloc: Global,
    length: u32,
    operation: Operation,
    left: &[Run],
    right: &[Run],
) -> Result<Vec<Run>, AllocError>
    requires left_maximal { AreMaximal 0 left.now }
    requires left_ends { EndWithin most left.now }
    requires right_maximal { AreMaximal 0 right.now }
    requires right_ends { EndWithin most right.now }
    ensures exact { IfOk result (λ runs. runs.items ≡ runs_below (kept operation left.now right.now) length) }
{
    let mut found = Vec::new(alloc);
    let mut left_rest = left;
    let mut right_rest = right;
    let mut start = 0;
    let mut at = 0;
    while at < length {
        let in_left = first_stretch(left_rest, at);
        let in_right = first_stretch(right_rest, at);
        let next = in_left.end.min(in_right.end).min(length);
        left_rest = rest_behind(left_rest, next);
        right_rest = rest_behind(right_rest, next);
        if !operation.keeps(in_left.inside, in_right.inside) {
            if start < at {
                found.push(Run {
                    start,
                    count: at - start,
                })?;
            }
            start = next;
        }
        at = next;
    }
    if start < length {
        found.push(Run {
            start,
            count: length - start,
        })?;
    }
    Ok(found)
}
