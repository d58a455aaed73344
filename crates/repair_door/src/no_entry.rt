ghost use Rattle.std.specs.Prelude.{◌≡◌};
ghost use Rattle.repair_door.specs.Doors.{halt_entry, redo_entry};

use ag_headers::HeadFault;
use blk_device::DeviceFailed;
use fs_model::Head;
use geom::ImageFault;
use redo_area::RedoFault;
use space_check::Halt;

/// Why an image isn't repaired: the redo file is too short, or the change that waits in it is refused
/// for its count of blocks, the size of its image or a block's place; the first test of the superblock
/// that fails; the first head that is refused; a read or write failed; or memory is wanting (XFS Online Fsck Design, "Metadata Repair").
#[derive(Clone, Copy, Debug, PartialEq, Eq)]
pub enum NoEntry {
    Short,
    Count,
    Size,
    Place,
    Image(ImageFault),
    Head {
        group: u32,
        head: Head,
        fault: HeadFault,
    },
    Failed,
    Memory,
}

impl From<RedoFault> for NoEntry {
    ghost from_gives = { λ fault e. e ≡ redo_entry fault };

    fn from(fault: RedoFault) -> Self {
        match fault {
            RedoFault::Short => NoEntry::Short,
            RedoFault::Count => NoEntry::Count,
            RedoFault::Size => NoEntry::Size,
            RedoFault::Place => NoEntry::Place,
            RedoFault::Failed => NoEntry::Failed,
        }
    }
}

impl From<DeviceFailed> for NoEntry {
    ghost use Rattle.repair_door.specs.declared.no_entry.NoEntry.TheVariants.{Failed};

    ghost from_gives = { λ _ e. e ≡ Failed };

    fn from(_: DeviceFailed) -> Self {
        NoEntry::Failed
    }
}

impl From<Halt> for NoEntry {
    ghost from_gives = { λ halt e. e ≡ halt_entry halt };

    fn from(halt: Halt) -> Self {
        match halt {
            Halt::Head { group, head, fault } => NoEntry::Head { group, head, fault },
            Halt::Failed => NoEntry::Failed,
            // Heads have no journal that could be full.
            Halt::Full | Halt::Memory => NoEntry::Memory,
        }
    }
}
