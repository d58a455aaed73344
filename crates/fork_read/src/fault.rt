ghost use Rattle.std.specs.Prelude.{◌≡◌};

use blk_device::DeviceFailed;
use dinode_core::{CoreFault, ForkError, ForkFault, Mapping};
use std::alloc::{AllocError, AllocFailed};
use thiserror::Error;

/// Why a fork isn't answered: it has this fault, the core of its inode has one, the device failed, or
/// there was no memory.
#[derive(Clone, Copy, Debug, PartialEq, Eq, Error)]
pub enum ReadFault {
    #[error("{0}")]
    Fork(ForkFault),
    #[error("{0}")]
    Core(CoreFault),
    #[error("device failed")]
    Failed,
    #[error("memory")]
    Memory,
}

impl From<DeviceFailed> for ReadFault {
    ghost use Rattle.fork_read.specs.declared.fault.ReadFault.TheVariants.{Failed};

    ghost from_gives = { λ _ e. e ≡ Failed };

    fn from(_: DeviceFailed) -> Self {
        ReadFault::Failed
    }
}

impl From<AllocError> for ReadFault {
    ghost use Rattle.fork_read.specs.declared.fault.ReadFault.TheVariants.{Memory};

    ghost from_gives = { λ _ e. e ≡ Memory };

    fn from(_: AllocError) -> Self {
        ReadFault::Memory
    }
}

impl<T: Drop> From<AllocFailed<T>> for ReadFault {
    ghost use Rattle.fork_read.specs.declared.fault.ReadFault.TheVariants.{Memory};

    ghost from_gives = { λ _ e. e ≡ Memory };

    fn from(_e: AllocFailed<T>) -> Self {
        ReadFault::Memory
    }
}

impl From<CoreFault> for ReadFault {
    ghost use Rattle.fork_read.specs.declared.fault.ReadFault.TheVariants.{Core};

    ghost from_gives = { λ fault e. e ≡ Core fault };

    fn from(fault: CoreFault) -> Self {
        ReadFault::Core(fault)
    }
}

// What the inode itself shows is told as the fork's fault.
impl From<ForkError> for ReadFault {
    ghost use Rattle.fork_read.specs.Pieces.{IsRefused};

    ghost from_gives = { λ error e. IsRefused error e };

    fn from(error: ForkError) -> Self {
        match error {
            ForkError::Fault(fault) => ReadFault::Fork(fault),
            ForkError::Memory => ReadFault::Memory,
        }
    }
}

/// Mappings of a fork in their order, at most 512, with the blocks of its btree (file system block
/// numbers) whose first mapping is among these, and the offset of the next mapping where one is left.
/// (XFS Algorithms and Data Structures, "Data Fork".)
#[derive(Drop)]
pub struct ForkPiece {
    pub mappings: Vec<Mapping>,
    pub tree_blocks: Vec<u64>,
    pub next: Option<u64>,
}
