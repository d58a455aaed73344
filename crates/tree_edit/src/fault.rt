ghost use Rattle.std.specs.Prelude.{◌≡◌};

use blk_cache::Memory;
use list_edit::ListFault;
use meta_txn::TxnFault;
use sblock::BlockFault;
use std::alloc::AllocError;
use thiserror::Error;
use tree_blocks::WalkFault;

/// Why a tree isn't edited: a block of it, group-relative, has this fault; it lacks the record; it has
/// one that can't be beside the new record; the free list has so many blocks and the edit needs so
/// many; the transaction would have so many blocks, and a batch has at most 160; the device failed; or
/// there was no memory.
#[derive(Clone, Copy, Debug, PartialEq, Eq, Error)]
pub enum EditFault {
    #[error("block {block}: {fault}")]
    Bad { block: u32, fault: BlockFault },
    #[error("missing")]
    Missing,
    #[error("overlap")]
    Overlap,
    #[error("short: {have} of {need} blocks")]
    Short { have: u32, need: u32 },
    #[error("{0} blocks in a transaction")]
    TooLarge(u64),
    #[error("device failed")]
    Failed,
    #[error("memory")]
    Memory,
}

impl From<AllocError> for EditFault {
    ghost use Rattle.tree_edit.specs.declared.fault.EditFault.TheVariants.{Memory};

    ghost from_gives = { λ _ e. e ≡ Memory };

    fn from(_: AllocError) -> Self {
        EditFault::Memory
    }
}

impl From<Memory> for EditFault {
    ghost use Rattle.tree_edit.specs.declared.fault.EditFault.TheVariants.{Memory};

    ghost from_gives = { λ _ e. e ≡ Memory };

    fn from(_: Memory) -> Self {
        EditFault::Memory
    }
}

// A walk's fault is told as the same one.
impl From<WalkFault> for EditFault {
    ghost use Rattle.tree_edit.specs.Reads.{met_as};

    ghost from_gives = { λ fault e. e ≡ met_as fault };

    fn from(fault: WalkFault) -> Self {
        match fault {
            WalkFault::Bad { block, fault } => EditFault::Bad { block, fault },
            WalkFault::Failed => EditFault::Failed,
            WalkFault::Memory => EditFault::Memory,
        }
    }
}

// So is the fault of a list of records.
impl From<ListFault> for EditFault {
    ghost use Rattle.tree_edit.specs.Plans.{listed_as};

    ghost from_gives = { λ fault e. e ≡ listed_as fault };

    fn from(fault: ListFault) -> Self {
        match fault {
            ListFault::Missing => EditFault::Missing,
            ListFault::Overlap => EditFault::Overlap,
            ListFault::Memory => EditFault::Memory,
        }
    }
}

// And a transaction's.
impl From<TxnFault> for EditFault {
    ghost use Rattle.tree_edit.specs.Faults.{joined_as};

    ghost from_gives = { λ fault e. e ≡ joined_as fault };

    fn from(fault: TxnFault) -> Self {
        match fault {
            TxnFault::TooMany(count) => EditFault::TooLarge(count),
            TxnFault::Failed => EditFault::Failed,
        }
    }
}
