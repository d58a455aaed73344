// Edits and commits of a unit's group over a desk.
ghost use Rattle.std.specs.Prelude.{◌≡◌, ◌<◌, IfErr, OnOk};
ghost use Rattle.core_build.specs.Pieces.{BookStays, IfMemory};
ghost use Rattle.core_parts.specs.Common.Asks.{Answers, IsUsable};
ghost use Rattle.core_parts.specs.Common.Entries.{IsHalt};
ghost use Rattle.core_edit.specs.Open.{is_device};
ghost use Rattle.core_parts.specs.Keeps.{IsAsked, failed_by};
ghost use Rattle.core_edit.specs.Opened.{IsOpen};

use blk_device::Device;
use byte_fields::Steps;
use core_calls::ScrubFault;
use core_edit::{
    EditPlace, IndexesLeft, Reserved, Spare, Stop, commit, reserve_listed, reserve_spare,
};
use core_parts::Desk;
use core_parts::common::stop_by;
use std::alloc::Global;
use std::sync::ledger::Ledger;

// Whether the device failed. An index that is left is told by the edit itself, so a stop for it doesn't
// come; it would be taken as a lack of memory.
fn is_failed(stop: &Stop) -> bool
    ensures { result ≡ is_device stop.now }
{
    match stop {
        Stop::Failed => true,
        Stop::Memory => false,
        Stop::Left { kind: _, cause: _ } => false,
    }
}

// Takes the free list's first block, up to the commit.
fn ask_listed<D: Device, L: Ledger>(
    alloc: Global,
    desk: &mut Desk<D>,
    place: &EditPlace,
    steps: &mut Steps<L>,
) -> Result<Option<Reserved>, Stop>
    requires usable { IsUsable D.Device desk.old }
    requires group { place.now.group < desk.old.store.geo.agcount }
    ensures asked { IsAsked D.Device (failed_by is_device result) desk.old desk.new }
    ensures opened { OnOk result (IsOpen D.Device place.now.group desk.new.store) }
{
    reserve_listed(alloc, &mut desk.store, place, steps)
}

// Takes a spare block, up to the commit.
fn ask_spare<D: Device, L: Ledger>(
    alloc: Global,
    desk: &mut Desk<D>,
    place: &EditPlace,
    block: u32,
    steps: &mut Steps<L>,
) -> Result<Spare, Stop>
    requires usable { IsUsable D.Device desk.old }
    requires group { place.now.group < desk.old.store.geo.agcount }
    ensures asked { IsAsked D.Device (failed_by is_device result) desk.old desk.new }
    ensures opened { OnOk result (IsOpen D.Device place.now.group desk.new.store) }
{
    reserve_spare(alloc, &mut desk.store, place, block, steps)
}

// Makes the commit.
fn ask_commit<D: Device, L: Ledger>(
    desk: &mut Desk<D>,
    g: u32,
    steps: &mut Steps<L>,
) -> Result<(), Stop>
    requires usable { IsUsable D.Device desk.old }
    requires group { g < desk.old.store.geo.agcount }
    requires opened { IsOpen D.Device g desk.old.store }
    ensures asked { IsAsked D.Device (failed_by is_device result) desk.old desk.new }
{
    commit(&mut desk.store, g, steps)
}

// Which indexes were left; nothing is reserved where the list's first block isn't the chosen one.
fn left_for(reserved: Option<Reserved>, block: u32) -> Result<IndexesLeft, ScrubFault>
    ensures { IfMemory result }
{
    match reserved {
        Some(reserved) => {
            // Always: the list has nothing before its first block.
            if reserved.block == block {
                Ok(reserved.left)
            } else {
                Err(ScrubFault::Memory)
            }
        }
        None => Err(ScrubFault::Memory),
    }
}

/// Takes the free list's first block, which is this one, up to the commit. Which indexes are left is
/// answered (XFS Online Fsck Design, "Reserving New B+Tree Blocks").
pub(crate) fn edit_listed<D: Device, L: Ledger>(
    alloc: Global,
    desk: &mut Desk<D>,
    place: &EditPlace,
    block: u32,
    steps: &mut Steps<L>,
) -> Result<IndexesLeft, ScrubFault>
    requires usable { IsUsable D.Device desk.old }
    requires group { place.now.group < desk.old.store.geo.agcount }
    ensures answers { Answers D.Device desk.old desk.new result }
    ensures book { OnOk result (BookStays desk.old desk.new) }
    ensures opened { OnOk result (IsOpen D.Device place.now.group desk.new.store) }
    ensures items { desk.new.book.journal.items ≡ desk.old.book.journal.items }
    ensures halts { IfErr result IsHalt }
{
    match ask_listed(alloc, desk, place, steps) {
        Ok(reserved) => left_for(reserved, block),
        Err(stop) => Err(stop_by(desk, is_failed(&stop))),
    }
}

/// Takes a spare block, up to the commit, or changes nothing where no index would note it
/// (XFS Online Fsck Design, "Reserving New B+Tree Blocks").
pub(crate) fn edit_spare<D: Device, L: Ledger>(
    alloc: Global,
    desk: &mut Desk<D>,
    place: &EditPlace,
    block: u32,
    steps: &mut Steps<L>,
) -> Result<Spare, ScrubFault>
    requires usable { IsUsable D.Device desk.old }
    requires group { place.now.group < desk.old.store.geo.agcount }
    ensures answers { Answers D.Device desk.old desk.new result }
    ensures book { OnOk result (BookStays desk.old desk.new) }
    ensures opened { OnOk result (IsOpen D.Device place.now.group desk.new.store) }
    ensures items { desk.new.book.journal.items ≡ desk.old.book.journal.items }
    ensures halts { IfErr result IsHalt }
{
    match ask_spare(alloc, desk, place, block, steps) {
        Ok(spare) => Ok(spare),
        Err(stop) => Err(stop_by(desk, is_failed(&stop))),
    }
}

/// Commits what was edited. Shut alone is answered, where the device failed
/// (XFS Online Fsck Design, "Reserving New B+Tree Blocks").
pub(crate) fn commit_edit<D: Device, L: Ledger>(
    desk: &mut Desk<D>,
    g: u32,
    steps: &mut Steps<L>,
) -> Result<(), ScrubFault>
    requires usable { IsUsable D.Device desk.old }
    requires group { g < desk.old.store.geo.agcount }
    requires opened { IsOpen D.Device g desk.old.store }
    ensures answers { Answers D.Device desk.old desk.new result }
    ensures book { OnOk result (BookStays desk.old desk.new) }
    ensures items { desk.new.book.journal.items ≡ desk.old.book.journal.items }
    ensures halts { IfErr result IsHalt }
{
    match ask_commit(desk, g, steps) {
        Ok(()) => Ok(()),
        Err(stop) => Err(stop_by(desk, is_failed(&stop))),
    }
}
