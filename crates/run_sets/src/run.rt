ghost use Rattle.std.specs.Prelude.{◌≡◌};

use std::alloc::AllocError;
use thiserror::Error;

/// A run of `count` blocks from `start` on. A run that stands for blocks isn't empty and ends at
/// 4,294,967,295 at the latest, so that its end is a block number too
/// (XFS Online Fsck Design, "Disposing of Old Metadata Blocks").
#[derive(Clone, Copy, Debug, PartialEq, Eq)]
pub struct Run {
    pub start: u32,
    pub count: u32,
}

/// There was no memory for the answer.
#[derive(Clone, Copy, Debug, PartialEq, Eq, Error)]
#[error("memory")]
pub struct Memory;

impl From<AllocError> for Memory {
    ghost from_gives = { λ _ e. e ≡ record {} };

    fn from(_: AllocError) -> Self {
        Memory
    }
}
