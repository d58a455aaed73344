ghost use Rattle.std.specs.Prelude.{◌≡◌};

use ag_headers::HeadFault;
use fs_model::Head;
use inode_pass::PassStop;
use std::alloc::{AllocError, AllocFailed};

/// Why a check ends before its last unit: a head of a group is refused, the journal is full, the
/// device failed, or there was no memory
/// (XFS Online Fsck Design, "Metadata Scrubbing").
#[derive(Clone, Copy, Debug, PartialEq, Eq)]
pub enum Halt {
    Head {
        group: u32,
        head: Head,
        fault: HeadFault,
    },
    Full,
    Failed,
    Memory,
}

impl From<AllocError> for Halt {
    ghost use Rattle.space_check.specs.declared.halt.Halt.TheVariants.{Memory};

    ghost from_gives = { λ _ e. e ≡ Memory };

    fn from(_: AllocError) -> Self {
        Halt::Memory
    }
}

impl<T: Drop> From<AllocFailed<T>> for Halt {
    ghost use Rattle.space_check.specs.declared.halt.Halt.TheVariants.{Memory};

    ghost from_gives = { λ _ e. e ≡ Memory };

    fn from(_e: AllocFailed<T>) -> Self {
        Halt::Memory
    }
}

impl From<blk_cache::Memory> for Halt {
    ghost use Rattle.space_check.specs.declared.halt.Halt.TheVariants.{Memory};

    ghost from_gives = { λ _ e. e ≡ Memory };

    fn from(_: blk_cache::Memory) -> Self {
        Halt::Memory
    }
}

// What a pass over inodes that stopped is to a check.
impl From<PassStop> for Halt {
    ghost use Rattle.inode_pass.specs.Stops.{is_failed as is_failed_pass};
    ghost use Rattle.space_check.specs.Progress.{IsOutside, is_failed};

    ghost from_gives = { λ stop e. (is_failed e ≡ is_failed_pass stop) × IsOutside e };

    fn from(stop: PassStop) -> Self {
        match stop {
            PassStop::Failed => Halt::Failed,
            PassStop::Memory => Halt::Memory,
        }
    }
}
