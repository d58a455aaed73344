// The core of an inode in the open edit of a group.
ghost use Rattle.std.specs.Prelude.{◌≡◌, OnOk};
ghost use Rattle.core_parts.specs.Common.Asks.{IsUsable};
ghost use Rattle.core_parts.specs.Keeps.{IsAsked};
ghost use Rattle.core_chains.specs.Write.Writes.{WriteAnswers};
ghost use Rattle.file_cores.specs.Looks.{failed_in};
ghost use Rattle.geom.specs.Places.{HasInode};
ghost use Rattle.core_edit.specs.Opened.{IsOpen};

use crate::first::PlacedCore;
use blk_device::Device;
use byte_fields::Steps;
use core_calls::WriteFault;
use core_chains::chains::file_fault;
use core_parts::Desk;
use file_cores::{FileStop, put_file};
use std::sync::ledger::Ledger;

// Puts a core over that of its inode, as an edit of the group.
#[tactic(auto, using(crate::proofs::first::WriteLemmas::put_asked, core_chains::proofs::chains::FindLemmas::usable_room))]
fn call_put<D: Device, L: Ledger>(
    desk: &mut Desk<D>,
    g: u32,
    placed: &PlacedCore,
    steps: &mut Steps<L>,
) -> Result<(), FileStop>
    requires usable { IsUsable D.Device desk.old }
    requires place { HasInode desk.old.store.geo placed.now.place }
    requires opened { IsOpen D.Device g desk.old.store }
    ensures asked { IsAsked D.Device (failed_in result) desk.old desk.new }
    ensures opened { OnOk result (IsOpen D.Device g desk.new.store) }
{
    match put_file(
        &mut desk.store.dev,
        &mut desk.store.cache,
        &mut desk.store.edit.txn,
        &desk.store.geo,
        placed.place,
        &placed.core,
        steps,
    ) {
        Ok(()) => {
            desk.store.edit.mark();
            Ok(())
        }
        Err(stop) => Err(stop),
    }
}

/// Puts a core over that of its inode, as an edit of the group whose edit is open
/// (XFS Algorithms and Data Structures, "On-disk Inode").
#[tactic(auto, using(core_chains::proofs::write::CallLemmas::asked_answers, core_chains::proofs::write::CallLemmas::stopped_answers, core_parts::proofs::common::AskLemmas::asked_stopped))]
pub(crate) fn edit_core<D: Device, L: Ledger>(
    desk: &mut Desk<D>,
    g: u32,
    placed: &PlacedCore,
    steps: &mut Steps<L>,
) -> Result<(), WriteFault>
    requires usable { IsUsable D.Device desk.old }
    requires place { HasInode desk.old.store.geo placed.now.place }
    requires opened { IsOpen D.Device g desk.old.store }
    ensures answers { WriteAnswers D.Device desk.old desk.new result }
    ensures book { OnOk result (desk.new.book ≡ desk.old.book) }
    ensures items { desk.new.book.journal.items ≡ desk.old.book.journal.items }
    ensures geometry { desk.new.store.geo ≡ desk.old.store.geo }
    ensures opened { OnOk result (IsOpen D.Device g desk.new.store) }
{
    match call_put(desk, g, placed, steps) {
        Ok(()) => Ok(()),
        Err(stop) => Err(file_fault(desk, stop)),
    }
}
