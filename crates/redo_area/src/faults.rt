ghost use Rattle.std.specs.Prelude.{◌≡◌};

use blk_device::DeviceFailed;
use thiserror::Error;

/// Why a batch isn't prepared: it has that many blocks, more than the redo region has room for,
/// or the device failed.
#[derive(Clone, Copy, Debug, PartialEq, Eq, Error)]
pub enum BatchFault {
    #[error("{0} blocks in a batch")]
    TooMany(u64),
    #[error("device failed")]
    Failed,
}

impl From<DeviceFailed> for BatchFault {
    ghost use Rattle.redo_area.specs.declared.faults.BatchFault.TheVariants.{Failed};

    ghost from_gives = { λ _ e. e ≡ Failed };

    fn from(_: DeviceFailed) -> Self {
        BatchFault::Failed
    }
}

/// Why a redo region isn't recovered. Short: it has fewer than 162 blocks. Where a batch waits,
/// Count: it hasn't 1 to 160 blocks; Size: it is for an image of another size; Place: its block
/// numbers don't rise, or one isn't below the image's size. Failed: the device failed.
#[derive(Clone, Copy, Debug, PartialEq, Eq, Error)]
pub enum RedoFault {
    #[error("redo region too short")]
    Short,
    #[error("count of a waiting batch")]
    Count,
    #[error("image size of a waiting batch")]
    Size,
    #[error("place of a waiting block")]
    Place,
    #[error("device failed")]
    Failed,
}

impl From<DeviceFailed> for RedoFault {
    ghost use Rattle.redo_area.specs.declared.faults.RedoFault.TheVariants.{Failed};

    ghost from_gives = { λ _ e. e ≡ Failed };

    fn from(_: DeviceFailed) -> Self {
        RedoFault::Failed
    }
}
