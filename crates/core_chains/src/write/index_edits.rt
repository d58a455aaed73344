ghost use Rattle.std.specs.Prelude.{◌≡◌, ◌<◌, OnOk};
ghost use Rattle.core_parts.specs.Common.Asks.{IsUsable};
ghost use Rattle.core_chains.specs.Write.Writes.{WriteAnswers};
ghost use Rattle.core_edit.specs.Opened.{IsOpen};

use crate::write::calls::{call_give, call_inos, call_refc, call_rmap, call_take, is_failed};
use crate::write::indexes::{ChunkEdit, InoTree, RmapEdit};
use crate::write::stops::writer_stop;
use blk_device::Device;
use byte_fields::Steps;
use core_calls::WriteFault;
use core_edit::{SpaceKinds, SpaceLeft};
use core_parts::Desk;
use fs_model::Cause;
use span_recs::SpanRec;
use std::alloc::Global;
use std::sync::ledger::Ledger;

/// Edits reverse mappings of the group whose edit is open. None: it is done. A cause: they were left for it,
/// and all is as before. A run that can't stand in the group is answered with Memory
/// (XFS Algorithms and Data Structures, "Reverse-Mapping B+tree").
#[tactic(auto, using(crate::proofs::write::CallLemmas::asked_answers, crate::proofs::write::CallLemmas::stopped_answers))]
pub fn edit_rmap<D: Device, L: Ledger>(
    alloc: Global,
    desk: &mut Desk<D>,
    g: u32,
    edit: &RmapEdit,
    steps: &mut Steps<L>,
) -> Result<Option<Cause>, WriteFault>
    requires usable { IsUsable D.Device desk.old }
    requires group { g < desk.old.store.geo.agcount }
    requires opened { IsOpen D.Device g desk.old.store }
    ensures answers { WriteAnswers D.Device desk.old desk.new result }
    ensures book { OnOk result (desk.new.book ≡ desk.old.book) }
    ensures items { desk.new.book.journal.items ≡ desk.old.book.journal.items }
    ensures geometry { desk.new.store.geo ≡ desk.old.store.geo }
    ensures opened { OnOk result (IsOpen D.Device g desk.new.store) }
{
    match call_rmap(alloc, desk, g, edit, steps) {
        Ok(left) => Ok(left),
        Err(stop) => Err(writer_stop(desk, is_failed(&stop))),
    }
}

/// Raises or lowers the reference count of a stretch that has one count, in the group whose edit is open.
/// None: it is done. A cause: reference counts were left for it, and all is as before. A run that can't
/// stand in the group is answered with Memory
/// (XFS Algorithms and Data Structures, "Reference Count B+tree").
#[tactic(auto, using(crate::proofs::write::CallLemmas::asked_answers, crate::proofs::write::CallLemmas::stopped_answers))]
pub fn edit_refc<D: Device, L: Ledger>(
    alloc: Global,
    desk: &mut Desk<D>,
    g: u32,
    run: &SpanRec,
    more: bool,
    steps: &mut Steps<L>,
) -> Result<Option<Cause>, WriteFault>
    requires usable { IsUsable D.Device desk.old }
    requires group { g < desk.old.store.geo.agcount }
    requires opened { IsOpen D.Device g desk.old.store }
    ensures answers { WriteAnswers D.Device desk.old desk.new result }
    ensures book { OnOk result (desk.new.book ≡ desk.old.book) }
    ensures items { desk.new.book.journal.items ≡ desk.old.book.journal.items }
    ensures geometry { desk.new.store.geo ≡ desk.old.store.geo }
    ensures opened { OnOk result (IsOpen D.Device g desk.new.store) }
{
    match call_refc(alloc, desk, g, run, more, steps) {
        Ok(left) => Ok(left),
        Err(stop) => Err(writer_stop(desk, is_failed(&stop))),
    }
}

/// Takes a run out of those indexes of free space that are asked for, in the group whose edit is open. Why
/// one of them was left is told for each. A run that can't stand in the group is answered with Memory
/// (XFS Algorithms and Data Structures, "AG Free Space B+trees").
#[tactic(auto, using(crate::proofs::write::CallLemmas::asked_answers, crate::proofs::write::CallLemmas::stopped_answers))]
pub fn take_space<D: Device, L: Ledger>(
    alloc: Global,
    desk: &mut Desk<D>,
    g: u32,
    kinds: SpaceKinds,
    run: &SpanRec,
    steps: &mut Steps<L>,
) -> Result<SpaceLeft, WriteFault>
    requires usable { IsUsable D.Device desk.old }
    requires group { g < desk.old.store.geo.agcount }
    requires opened { IsOpen D.Device g desk.old.store }
    ensures answers { WriteAnswers D.Device desk.old desk.new result }
    ensures book { OnOk result (desk.new.book ≡ desk.old.book) }
    ensures items { desk.new.book.journal.items ≡ desk.old.book.journal.items }
    ensures geometry { desk.new.store.geo ≡ desk.old.store.geo }
    ensures opened { OnOk result (IsOpen D.Device g desk.new.store) }
{
    match call_take(alloc, desk, g, kinds, run, steps) {
        Ok(left) => Ok(left),
        Err(stop) => Err(writer_stop(desk, is_failed(&stop))),
    }
}

/// Gives a run to those indexes of free space that are asked for, in the group whose edit is open. Why one
/// of them was left is told for each. A run that can't stand in the group is answered with Memory
/// (XFS Algorithms and Data Structures, "AG Free Space B+trees").
#[tactic(auto, using(crate::proofs::write::CallLemmas::asked_answers, crate::proofs::write::CallLemmas::stopped_answers))]
pub fn give_space<D: Device, L: Ledger>(
    alloc: Global,
    desk: &mut Desk<D>,
    g: u32,
    kinds: SpaceKinds,
    run: &SpanRec,
    steps: &mut Steps<L>,
) -> Result<SpaceLeft, WriteFault>
    requires usable { IsUsable D.Device desk.old }
    requires group { g < desk.old.store.geo.agcount }
    requires opened { IsOpen D.Device g desk.old.store }
    ensures answers { WriteAnswers D.Device desk.old desk.new result }
    ensures book { OnOk result (desk.new.book ≡ desk.old.book) }
    ensures items { desk.new.book.journal.items ≡ desk.old.book.journal.items }
    ensures geometry { desk.new.store.geo ≡ desk.old.store.geo }
    ensures opened { OnOk result (IsOpen D.Device g desk.new.store) }
{
    match call_give(alloc, desk, g, kinds, run, steps) {
        Ok(left) => Ok(left),
        Err(stop) => Err(writer_stop(desk, is_failed(&stop))),
    }
}

/// Edits one of the inode btrees of the group whose edit is open. None: it is done. A cause: the tree was
/// left for it, and all is as before. A record that can't stand in the group is answered with Memory
/// (XFS Algorithms and Data Structures, "Inode B+trees").
#[tactic(auto, using(crate::proofs::write::CallLemmas::asked_answers, crate::proofs::write::CallLemmas::stopped_answers))]
pub fn edit_inos<D: Device, L: Ledger>(
    alloc: Global,
    desk: &mut Desk<D>,
    g: u32,
    tree: InoTree,
    edit: &ChunkEdit,
    steps: &mut Steps<L>,
) -> Result<Option<Cause>, WriteFault>
    requires usable { IsUsable D.Device desk.old }
    requires group { g < desk.old.store.geo.agcount }
    requires opened { IsOpen D.Device g desk.old.store }
    ensures answers { WriteAnswers D.Device desk.old desk.new result }
    ensures book { OnOk result (desk.new.book ≡ desk.old.book) }
    ensures items { desk.new.book.journal.items ≡ desk.old.book.journal.items }
    ensures geometry { desk.new.store.geo ≡ desk.old.store.geo }
    ensures opened { OnOk result (IsOpen D.Device g desk.new.store) }
{
    match call_inos(alloc, desk, g, tree, edit, steps) {
        Ok(left) => Ok(left),
        Err(stop) => Err(writer_stop(desk, is_failed(&stop))),
    }
}
