ghost use Rattle.std.specs.Prelude.{◌≡◌};

use blk_device::DeviceFailed;
use std::alloc::{AllocError, AllocFailed};
use thiserror::Error;

/// Why a pass over inodes ended before the last of them: the device failed, or there was no memory
/// (XFS Online Fsck Design, "Inode Scans").
#[derive(Clone, Copy, Debug, PartialEq, Eq, Error)]
pub enum PassStop {
    #[error("device failed")]
    Failed,
    #[error("memory")]
    Memory,
}

impl From<DeviceFailed> for PassStop {
    ghost use Rattle.inode_pass.specs.declared.stop.PassStop.TheVariants.{Failed};

    ghost from_gives = { λ _ e. e ≡ Failed };

    fn from(_: DeviceFailed) -> Self {
        PassStop::Failed
    }
}

impl From<AllocError> for PassStop {
    ghost use Rattle.inode_pass.specs.declared.stop.PassStop.TheVariants.{Memory};

    ghost from_gives = { λ _ e. e ≡ Memory };

    fn from(_: AllocError) -> Self {
        PassStop::Memory
    }
}

impl<T: Drop> From<AllocFailed<T>> for PassStop {
    ghost use Rattle.inode_pass.specs.declared.stop.PassStop.TheVariants.{Memory};

    ghost from_gives = { λ _ e. e ≡ Memory };

    fn from(_e: AllocFailed<T>) -> Self {
        PassStop::Memory
    }
}
