// What is looked up in a group's btrees before a step changes anything.
ghost use Rattle.std.specs.Prelude.{◌≡◌, ◌<◌, OnOk};
ghost use Rattle.core_parts.specs.Common.Asks.{IsStopped, IsUsable};
ghost use Rattle.core_parts.specs.Keeps.{IsAsked, failed_by};
ghost use Rattle.core_chains.specs.Write.Writes.{WriteAnswers};
ghost use Rattle.sblock.specs.declared.kind.Kind.TheVariants.{Refc, Rmap};
ghost use Rattle.tree_blocks.specs.Reading.{is_failed};

use crate::write::writer_stop;
use blk_device::Device;
use byte_fields::Steps;
use core_calls::WriteFault;
use core_edit::EditHeads;
use core_parts::Desk;
use fs_model::Cause;
use rmap_recs::{RmapKind, RmapRec};
use run_sets::Run;
use sblock::Kind;
use span_recs::{RefcKey, RefcKind, RefcRec};
use std::sync::ledger::Ledger;
use tree_blocks::{TreeAt, WalkFault};
use tree_cover::covering;

/// Whether a run has an owner, or what was met while that was asked.
#[derive(Clone, Copy)]
pub(crate) enum Owner {
    Nobody,
    Somebody,
    Met(Cause),
}

/// The record of reference counts that was found, or what was met.
#[derive(Clone, Copy)]
pub(crate) enum Counter {
    Found(Option<RefcRec>),
    Met(Cause),
}

// Reverse mappings, as the kept heads name them.
fn rmap_tree(heads: &EditHeads, g: u32) -> TreeAt
    ensures kind { result.kind ≡ Rmap }
    ensures group { result.group ≡ g }
{
    TreeAt {
        kind: Kind::Rmap,
        group: g,
        root: heads.agf.rmap_root,
        levels: heads.agf.rmap_level,
        lsn: heads.agf.lsn,
    }
}

// Reference counts.
fn refc_tree(heads: &EditHeads, g: u32) -> TreeAt
    ensures kind { result.kind ≡ Refc }
    ensures group { result.group ≡ g }
{
    TreeAt {
        kind: Kind::Refc,
        group: g,
        root: heads.agf.refcount_root,
        levels: heads.agf.refcount_level,
        lsn: heads.agf.lsn,
    }
}

// The first record of reverse mappings that has a block of the run.
#[tactic(auto, using(crate::proofs::steps::ReadLemmas::read_asked))]
fn ask_owner<D: Device, L: Ledger>(
    desk: &mut Desk<D>,
    tree: &TreeAt,
    run: Run,
    steps: &mut Steps<L>,
) -> Result<Option<RmapRec>, WalkFault>
    requires usable { IsUsable D.Device desk.old }
    requires kind { tree.now.kind ≡ Rmap }
    requires group { tree.now.group < desk.old.store.geo.agcount }
    ensures asked { IsAsked D.Device (failed_by is_failed result) desk.old desk.new }
{
    covering::<RmapKind, D, L>(
        &mut desk.store.dev,
        &mut desk.store.cache,
        &desk.store.geo,
        tree,
        run,
        None,
        steps,
    )
}

// The first record of reference counts that has a block of the run, of those above a key.
#[tactic(auto, using(crate::proofs::steps::ReadLemmas::read_asked))]
fn ask_counter<D: Device, L: Ledger>(
    desk: &mut Desk<D>,
    tree: &TreeAt,
    run: Run,
    after: Option<RefcKey>,
    steps: &mut Steps<L>,
) -> Result<Option<RefcRec>, WalkFault>
    requires usable { IsUsable D.Device desk.old }
    requires kind { tree.now.kind ≡ Refc }
    requires group { tree.now.group < desk.old.store.geo.agcount }
    ensures asked { IsAsked D.Device (failed_by is_failed result) desk.old desk.new }
{
    covering::<RefcKind, D, L>(
        &mut desk.store.dev,
        &mut desk.store.cache,
        &desk.store.geo,
        tree,
        run,
        after,
        steps,
    )
}

// What stopped a search: a bad block is a cause of a mark.
fn met_at<D: Device>(desk: &mut Desk<D>, fault: WalkFault) -> Result<Cause, WriteFault>
    requires stopped { IsStopped D.Device (is_failed fault) desk.old }
    ensures answers { WriteAnswers D.Device desk.old desk.new result }
    ensures book { OnOk result (desk.new.book ≡ desk.old.book) }
    ensures items { desk.new.book.journal.items ≡ desk.old.book.journal.items }
{
    match fault {
        WalkFault::Bad { block, fault } => Ok(Cause::Block { block, fault }),
        WalkFault::Failed => Err(writer_stop(desk, true)),
        WalkFault::Memory => Err(writer_stop(desk, false)),
    }
}

fn owner_of(found: Option<RmapRec>) -> Owner {
    match found {
        Some(_) => Owner::Somebody,
        None => Owner::Nobody,
    }
}

// Where the search for an owner was stopped.
fn owner_met<D: Device>(desk: &mut Desk<D>, fault: WalkFault) -> Result<Owner, WriteFault>
    requires stopped { IsStopped D.Device (is_failed fault) desk.old }
    ensures answers { WriteAnswers D.Device desk.old desk.new result }
    ensures book { OnOk result (desk.new.book ≡ desk.old.book) }
    ensures items { desk.new.book.journal.items ≡ desk.old.book.journal.items }
{
    match met_at(desk, fault) {
        Ok(cause) => Ok(Owner::Met(cause)),
        Err(stop) => Err(stop),
    }
}

/// Whether a record of reverse mappings has a block of the run, by the tree that the kept heads name
/// (XFS Online Fsck Design, "Eventual Consistency").
#[tactic(auto, using(crate::proofs::write::CallLemmas::asked_answers, crate::proofs::write::CallLemmas::stopped_answers))]
pub(crate) fn owner_over<D: Device, L: Ledger>(
    desk: &mut Desk<D>,
    heads: &EditHeads,
    g: u32,
    run: Run,
    steps: &mut Steps<L>,
) -> Result<Owner, WriteFault>
    requires usable { IsUsable D.Device desk.old }
    requires group { g < desk.old.store.geo.agcount }
    ensures answers { WriteAnswers D.Device desk.old desk.new result }
    ensures book { OnOk result (desk.new.book ≡ desk.old.book) }
    ensures items { desk.new.book.journal.items ≡ desk.old.book.journal.items }
{
    let tree = rmap_tree(heads, g);
    match ask_owner(desk, &tree, run, steps) {
        Ok(found) => Ok(owner_of(found)),
        Err(fault) => owner_met(desk, fault),
    }
}

// Where the search for a counter was stopped.
fn counter_met<D: Device>(desk: &mut Desk<D>, fault: WalkFault) -> Result<Counter, WriteFault>
    requires stopped { IsStopped D.Device (is_failed fault) desk.old }
    ensures answers { WriteAnswers D.Device desk.old desk.new result }
    ensures book { OnOk result (desk.new.book ≡ desk.old.book) }
    ensures items { desk.new.book.journal.items ≡ desk.old.book.journal.items }
{
    match met_at(desk, fault) {
        Ok(cause) => Ok(Counter::Met(cause)),
        Err(stop) => Err(stop),
    }
}

/// The first record of reference counts that has a block of the run, of those above a key, by the tree
/// that the kept heads name (XFS Algorithms and Data Structures, "Reference Count B+tree").
#[tactic(auto, using(crate::proofs::write::CallLemmas::asked_answers, crate::proofs::write::CallLemmas::stopped_answers))]
pub(crate) fn counter_over<D: Device, L: Ledger>(
    desk: &mut Desk<D>,
    heads: &EditHeads,
    g: u32,
    run: Run,
    after: Option<RefcKey>,
    steps: &mut Steps<L>,
) -> Result<Counter, WriteFault>
    requires usable { IsUsable D.Device desk.old }
    requires group { g < desk.old.store.geo.agcount }
    ensures answers { WriteAnswers D.Device desk.old desk.new result }
    ensures book { OnOk result (desk.new.book ≡ desk.old.book) }
    ensures items { desk.new.book.journal.items ≡ desk.old.book.journal.items }
{
    let tree = refc_tree(heads, g);
    match ask_counter(desk, &tree, run, after, steps) {
        Ok(found) => Ok(Counter::Found(found)),
        Err(fault) => counter_met(desk, fault),
    }
}
