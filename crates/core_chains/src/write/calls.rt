// The calls on the device that these events make: each alone, over the desk.
ghost use Rattle.std.specs.Prelude.{◌≡◌, ◌<◌, OnOk};
ghost use Rattle.core_parts.specs.Common.Asks.{IsUsable};
ghost use Rattle.core_edit.specs.Open.{LiesBelow, is_device};
ghost use Rattle.core_parts.specs.Keeps.{IsAsked, failed_by};
ghost use Rattle.core_edit.specs.Opened.{IsOpen};

use crate::write::indexes::{
    ChunkEdit, InoTree, RmapEdit, begin_at, give_at, inos_at, refc_at, rmap_at, take_at,
};
use blk_device::Device;
use byte_fields::Steps;
use core_edit::{EditHeads, SpaceKinds, SpaceLeft, Stop, commit};
use core_parts::Desk;
use fs_model::Cause;
use span_recs::SpanRec;
use std::alloc::Global;
use std::sync::ledger::Ledger;

/// Whether the device stopped a call.
pub(crate) fn is_failed(stop: &Stop) -> bool
    ensures { result ≡ is_device stop.now }
{
    matches!(stop, Stop::Failed)
}

/// Begins an edit of a group.
#[tactic(auto, using(core_switch::proofs::CallLemmas::edits_asked, core_switch::proofs::CallLemmas::usable_ready))]
pub(crate) fn call_begin<D: Device, L: Ledger>(
    desk: &mut Desk<D>,
    heads: &EditHeads,
    g: u32,
    inode: Option<u64>,
    steps: &mut Steps<L>,
) -> Result<(), Stop>
    requires usable { IsUsable D.Device desk.old }
    requires group { g < desk.old.store.geo.agcount }
    requires inode { LiesBelow desk.old.store.geo.dblocks inode }
    ensures asked { IsAsked D.Device (failed_by is_device result) desk.old desk.new }
    ensures opened { OnOk result (IsOpen D.Device g desk.new.store) }
{
    begin_at(&mut desk.store, heads, g, inode, steps)
}

/// Writes what was edited.
#[tactic(auto, using(core_switch::proofs::CallLemmas::commit_asked, core_switch::proofs::CallLemmas::usable_ready))]
pub(crate) fn call_commit<D: Device, L: Ledger>(
    desk: &mut Desk<D>,
    g: u32,
    steps: &mut Steps<L>,
) -> Result<(), Stop>
    requires usable { IsUsable D.Device desk.old }
    requires group { g < desk.old.store.geo.agcount }
    requires opened { IsOpen D.Device g desk.old.store }
    ensures asked { IsAsked D.Device (failed_by is_device result) desk.old desk.new }
{
    commit(&mut desk.store, g, steps)
}

/// Edits reverse mappings.
#[tactic(auto, using(core_switch::proofs::CallLemmas::edits_asked, core_switch::proofs::CallLemmas::usable_ready))]
pub(crate) fn call_rmap<D: Device, L: Ledger>(
    alloc: Global,
    desk: &mut Desk<D>,
    g: u32,
    edit: &RmapEdit,
    steps: &mut Steps<L>,
) -> Result<Option<Cause>, Stop>
    requires usable { IsUsable D.Device desk.old }
    requires group { g < desk.old.store.geo.agcount }
    requires opened { IsOpen D.Device g desk.old.store }
    ensures asked { IsAsked D.Device (failed_by is_device result) desk.old desk.new }
    ensures opened { IsOpen D.Device g desk.new.store }
{
    rmap_at(alloc, &mut desk.store, g, edit, steps)
}

/// Raises or lowers a count.
#[tactic(auto, using(core_switch::proofs::CallLemmas::edits_asked, core_switch::proofs::CallLemmas::usable_ready))]
pub(crate) fn call_refc<D: Device, L: Ledger>(
    alloc: Global,
    desk: &mut Desk<D>,
    g: u32,
    run: &SpanRec,
    more: bool,
    steps: &mut Steps<L>,
) -> Result<Option<Cause>, Stop>
    requires usable { IsUsable D.Device desk.old }
    requires group { g < desk.old.store.geo.agcount }
    requires opened { IsOpen D.Device g desk.old.store }
    ensures asked { IsAsked D.Device (failed_by is_device result) desk.old desk.new }
    ensures opened { IsOpen D.Device g desk.new.store }
{
    refc_at(alloc, &mut desk.store, g, run, more, steps)
}

/// Takes a run out of free space.
#[tactic(auto, using(core_switch::proofs::CallLemmas::edits_asked, core_switch::proofs::CallLemmas::usable_ready))]
pub(crate) fn call_take<D: Device, L: Ledger>(
    alloc: Global,
    desk: &mut Desk<D>,
    g: u32,
    kinds: SpaceKinds,
    run: &SpanRec,
    steps: &mut Steps<L>,
) -> Result<SpaceLeft, Stop>
    requires usable { IsUsable D.Device desk.old }
    requires group { g < desk.old.store.geo.agcount }
    requires opened { IsOpen D.Device g desk.old.store }
    ensures asked { IsAsked D.Device (failed_by is_device result) desk.old desk.new }
    ensures opened { IsOpen D.Device g desk.new.store }
{
    take_at(alloc, &mut desk.store, g, kinds, run, steps)
}

/// Gives a run to free space.
#[tactic(auto, using(core_switch::proofs::CallLemmas::edits_asked, core_switch::proofs::CallLemmas::usable_ready))]
pub(crate) fn call_give<D: Device, L: Ledger>(
    alloc: Global,
    desk: &mut Desk<D>,
    g: u32,
    kinds: SpaceKinds,
    run: &SpanRec,
    steps: &mut Steps<L>,
) -> Result<SpaceLeft, Stop>
    requires usable { IsUsable D.Device desk.old }
    requires group { g < desk.old.store.geo.agcount }
    requires opened { IsOpen D.Device g desk.old.store }
    ensures asked { IsAsked D.Device (failed_by is_device result) desk.old desk.new }
    ensures opened { IsOpen D.Device g desk.new.store }
{
    give_at(alloc, &mut desk.store, g, kinds, run, steps)
}

/// Edits an inode btree.
#[tactic(auto, using(core_switch::proofs::CallLemmas::edits_asked, core_switch::proofs::CallLemmas::usable_ready))]
pub(crate) fn call_inos<D: Device, L: Ledger>(
    alloc: Global,
    desk: &mut Desk<D>,
    g: u32,
    tree: InoTree,
    edit: &ChunkEdit,
    steps: &mut Steps<L>,
) -> Result<Option<Cause>, Stop>
    requires usable { IsUsable D.Device desk.old }
    requires group { g < desk.old.store.geo.agcount }
    requires opened { IsOpen D.Device g desk.old.store }
    ensures asked { IsAsked D.Device (failed_by is_device result) desk.old desk.new }
    ensures opened { IsOpen D.Device g desk.new.store }
{
    inos_at(alloc, &mut desk.store, g, tree, edit, steps)
}
