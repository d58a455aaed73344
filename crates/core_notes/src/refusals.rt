ghost use Rattle.std.specs.Prelude.{◌≡◌};
ghost use Rattle.core_notes.specs.Noted.{code_of, count_of, counts as counts_of, gives_inode as gives_inode_of, offset_of, refused_of, to_offset_of};

use crate::note::Asker;
use core_calls::{Ask, WriteFault, event_of};
use fs_model::Refused;

/// The place of a refusal in the order of all.
pub(crate) fn code(fault: WriteFault) -> u32
    ensures { result ≡ code_of fault }
{
    match fault {
        WriteFault::NoFile => 1,
        WriteFault::Occupied => 2,
        WriteFault::Hole => 3,
        WriteFault::ForkFull => 4,
        WriteFault::TreeFork => 5,
        WriteFault::NoSpace => 6,
        WriteFault::Sick(_, _) => 7,
        WriteFault::CountMax => 8,
        WriteFault::TooLarge => 9,
        WriteFault::Busy(_) => 10,
        WriteFault::Closing(_) => 11,
        WriteFault::Shut(_) => 12,
        WriteFault::Memory => 13,
        WriteFault::Crowded => 14,
        WriteFault::NoChain => 15,
        WriteFault::OtherStep(_) => 16,
        WriteFault::JournalFull => 17,
    }
}

// Whether an inode is given back.
fn gives_inode(ask: Ask) -> bool
    ensures { result ≡ gives_inode_of ask }
{
    matches!(ask, Ask::GiveInode { .. })
}

/// Whether a refusal is noted: not one after which a writer tries the same again.
pub(crate) fn counts(ask: Ask, fault: WriteFault) -> bool
    ensures { result ≡ counts_of ask fault }
{
    match fault {
        WriteFault::Busy(_) => false,
        WriteFault::Closing(_) => false,
        WriteFault::Crowded => false,
        WriteFault::Occupied => !gives_inode(ask),
        _ => true,
    }
}

// The offset in a fork that an event was asked for, the second one, and the number of blocks.
#[derive(Clone, Copy)]
struct Numbers {
    offset: u64,
    to_offset: u64,
    count: u64,
}

fn numbers_in(ask: Ask) -> Numbers
    ensures offset { result.offset ≡ offset_of ask }
    ensures to_offset { result.to_offset ≡ to_offset_of ask }
    ensures count { result.count ≡ count_of ask }
{
    match ask {
        Ask::MapFirst { offset, count, .. } => one_range(offset, count),
        Ask::UnmapFirst { offset, count, .. } => one_range(offset, count),
        Ask::ConvertFirst { offset, count, .. } => one_range(offset, count),
        Ask::ShareFirst {
            offset,
            to_offset,
            count,
            ..
        } => Numbers {
            offset,
            to_offset,
            count: u64::from(count),
        },
        _ => one_range(0, 0),
    }
}

fn one_range(offset: u64, count: u32) -> Numbers
    ensures offset { result.offset ≡ offset }
    ensures to_offset { result.to_offset ≡ 0 }
    ensures count { result.count ≡ count }
{
    Numbers {
        offset,
        to_offset: 0,
        count: u64::from(count),
    }
}

/// What a refused event was asked: its inodes and its own numbers.
pub(crate) fn refused(ask: Ask, who: Asker) -> Refused
    ensures { result ≡ refused_of ask who }
{
    let asked = numbers_in(ask);
    Refused {
        event: event_of(ask),
        first: who.first,
        second: who.second,
        offset: asked.offset,
        to_offset: asked.to_offset,
        count: asked.count,
    }
}
