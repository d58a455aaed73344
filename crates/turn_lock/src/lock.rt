// The lock, and how it fails.
ghost use Rattle.std.specs.Prelude.{◌≡◌};

use crate::recorded::Recorded;
use crate::rule::LockTable;
use atomic_table::Refused;
use std::alloc::{AllocError, Global};
use thiserror::Error;

/// Why a lock can't be made or closed. The value is gone then.
#[derive(Clone, Copy, Debug, PartialEq, Eq, Error)]
pub enum LockFault {
    /// There was no memory.
    #[error("memory")]
    Memory,
}

/// A lock of fair turns: who draws the next ticket has the next turn.
pub struct TurnLock<T: Recorded> {
    pub(crate) table: LockTable<T>,
    pub ghost words: { table.shared.table_id.words ≡ 3 },
    pub ghost slots: { table.shared.table_id.slots ≡ 1 },
}

impl From<AllocError> for LockFault {
    fn from(_: AllocError) -> Self {
        LockFault::Memory
    }
}

impl<T: Drop> From<Refused<T, Global>> for LockFault {
    fn from(_: Refused<T, Global>) -> Self {
        LockFault::Memory
    }
}
