ghost use Rattle.std.specs.Prelude.{◌≡◌};

use blk_device::DeviceFailed;
use thiserror::Error;

/// Why a transaction doesn't go on: with one block more it would have that many, and a batch has
/// at most 160; or the device failed.
#[derive(Clone, Copy, Debug, PartialEq, Eq, Error)]
pub enum TxnFault {
    #[error("{0} blocks in a transaction")]
    TooMany(u64),
    #[error("device failed")]
    Failed,
}

impl From<DeviceFailed> for TxnFault {
    ghost use Rattle.meta_txn.specs.declared.fault.TxnFault.TheVariants.{Failed};

    ghost from_gives = { λ _ e. e ≡ Failed };

    fn from(_: DeviceFailed) -> Self {
        TxnFault::Failed
    }
}
