ghost use Rattle.std.specs.Prelude.{◌≡◌};

use edit_terms::EditFault;
use list_edit::ListFault;
use std::alloc::AllocError;
use tree_blocks::WalkFault;

// Why a tree isn't edited in place: the device failed, or for any other reason, and then it is
// written anew.
#[derive(Clone, Copy)]
pub(crate) enum Stop {
    Failed,
    Unfit,
}

impl From<AllocError> for Stop {
    ghost use Rattle.edit_place.specs.declared.stop.Stop.TheVariants.{Unfit};

    ghost from_gives = { λ _ e. e ≡ Unfit };

    fn from(_: AllocError) -> Self {
        Stop::Unfit
    }
}

impl From<ListFault> for Stop {
    ghost use Rattle.edit_place.specs.declared.stop.Stop.TheVariants.{Unfit};

    ghost from_gives = { λ _ e. e ≡ Unfit };

    fn from(_: ListFault) -> Self {
        Stop::Unfit
    }
}

impl From<WalkFault> for Stop {
    ghost use Rattle.edit_place.specs.Stops.{of_walk};

    ghost from_gives = { λ fault e. e ≡ of_walk fault };

    fn from(fault: WalkFault) -> Self {
        match fault {
            WalkFault::Failed => Stop::Failed,
            WalkFault::Bad { .. } | WalkFault::Memory => Stop::Unfit,
        }
    }
}

impl From<EditFault> for Stop {
    ghost use Rattle.edit_place.specs.Stops.{of_edit};

    ghost from_gives = { λ fault e. e ≡ of_edit fault };

    fn from(fault: EditFault) -> Self {
        match fault {
            EditFault::Failed => Stop::Failed,
            _ => Stop::Unfit,
        }
    }
}
