ghost use Rattle.std.specs.Prelude.{◌≡◌};

use std::alloc::AllocFailed;
use thiserror::Error;

/// Why a list isn't edited: it lacks the record that is to be taken out, or one with the key of the
/// record that is to be changed; it has one that can't be beside the new record; or there was no
/// memory.
#[derive(Clone, Copy, Debug, PartialEq, Eq, Error)]
pub enum ListFault {
    #[error("missing")]
    Missing,
    #[error("overlap")]
    Overlap,
    #[error("memory")]
    Memory,
}

impl<T: Drop> From<AllocFailed<T>> for ListFault {
    ghost use Rattle.list_edit.specs.declared.fault.ListFault.TheVariants.{Memory};

    ghost from_gives = { λ _ e. e ≡ Memory };

    fn from(_e: AllocFailed<T>) -> Self {
        ListFault::Memory
    }
}
