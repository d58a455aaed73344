// Records of a group's btrees, looked for on the device.
ghost use Rattle.std.specs.Prelude.{◌≡◌, ◌<◌, OnOk};
ghost use Rattle.core_parts.specs.Common.Asks.{IsUsable};
ghost use Rattle.core_parts.specs.Keeps.{IsAsked, failed_by};
ghost use Rattle.core_chains.specs.Write.Writes.{WriteAnswers};
ghost use Rattle.sblock.specs.declared.kind.Kind.TheVariants.{Cnt, Rmap};
ghost use Rattle.tree_blocks.specs.Reading.{is_failed as is_walk_failed};

use crate::first::met_by;
use blk_device::Device;
use byte_fields::Steps;
use core_calls::WriteFault;
use core_parts::{Desk, GroupKept};
use fs_model::Cause;
use rmap_recs::{RmapKind, RmapRec};
use run_sets::Run;
use sblock::Kind;
use span_recs::{CntKind, SpanRec};
use std::alloc::Global;
use std::sync::ledger::Ledger;
use tree_blocks::{TreeAt, WalkFault};
use tree_walk::{covering, last, next_leaf};

/// Free space of a group by count, as the kept heads name it.
pub(crate) fn cnt_tree(kept: &GroupKept, g: u32) -> TreeAt
    ensures kind { result.kind ≡ Cnt }
    ensures group { result.group ≡ g }
{
    TreeAt {
        kind: Kind::Cnt,
        group: g,
        root: kept.heads.agf.cnt_root,
        levels: kept.heads.agf.cnt_level,
        lsn: kept.heads.agf.lsn,
    }
}

/// And its reverse mappings.
pub(crate) fn rmap_tree(kept: &GroupKept, g: u32) -> TreeAt
    ensures kind { result.kind ≡ Rmap }
    ensures group { result.group ≡ g }
{
    TreeAt {
        kind: Kind::Rmap,
        group: g,
        root: kept.heads.agf.rmap_root,
        levels: kept.heads.agf.rmap_level,
        lsn: kept.heads.agf.lsn,
    }
}

#[tactic(auto, using(crate::proofs::first::SeekLemmas::read_asked, core_chains::proofs::chains::FindLemmas::usable_room))]
fn call_leaf<D: Device, L: Ledger>(
    alloc: Global,
    desk: &mut Desk<D>,
    tree: &TreeAt,
    after: SpanRec,
    steps: &mut Steps<L>,
) -> Result<Vec<SpanRec>, WalkFault>
    requires usable { IsUsable D.Device desk.old }
    requires kind { tree.now.kind ≡ Cnt }
    requires group { tree.now.group < desk.old.store.geo.agcount }
    ensures asked { IsAsked D.Device (failed_by is_walk_failed result) desk.old desk.new }
{
    next_leaf::<CntKind, D, L>(
        alloc,
        &mut desk.store.dev,
        &mut desk.store.cache,
        &desk.store.geo,
        tree,
        Some(after),
        steps,
    )
}

#[tactic(auto, using(crate::proofs::first::SeekLemmas::read_asked, core_chains::proofs::chains::FindLemmas::usable_room))]
fn call_last<D: Device, L: Ledger>(
    desk: &mut Desk<D>,
    tree: &TreeAt,
    steps: &mut Steps<L>,
) -> Result<Option<SpanRec>, WalkFault>
    requires usable { IsUsable D.Device desk.old }
    requires kind { tree.now.kind ≡ Cnt }
    requires group { tree.now.group < desk.old.store.geo.agcount }
    ensures asked { IsAsked D.Device (failed_by is_walk_failed result) desk.old desk.new }
{
    last::<CntKind, D, L>(
        &mut desk.store.dev,
        &mut desk.store.cache,
        &desk.store.geo,
        tree,
        steps,
    )
}

#[tactic(auto, using(crate::proofs::first::SeekLemmas::read_asked, core_chains::proofs::chains::FindLemmas::usable_room))]
fn call_owner<D: Device, L: Ledger>(
    desk: &mut Desk<D>,
    tree: &TreeAt,
    run: Run,
    steps: &mut Steps<L>,
) -> Result<Option<RmapRec>, WalkFault>
    requires usable { IsUsable D.Device desk.old }
    requires kind { tree.now.kind ≡ Rmap }
    requires group { tree.now.group < desk.old.store.geo.agcount }
    ensures asked { IsAsked D.Device (failed_by is_walk_failed result) desk.old desk.new }
{
    covering::<RmapKind, D, L>(
        &mut desk.store.dev,
        &mut desk.store.cache,
        &desk.store.geo,
        tree,
        run,
        None,
        steps,
    )
}

/// The records by count of the first leaf that has one behind this key, or the cause for which that btree is
/// to be marked.
#[tactic(auto, using(core_chains::proofs::write::CallLemmas::asked_answers, core_parts::proofs::common::AskLemmas::asked_stopped, crate::proofs::first::SeekLemmas::asked_on))]
pub(crate) fn records_behind<D: Device, L: Ledger>(
    alloc: Global,
    desk: &mut Desk<D>,
    tree: &TreeAt,
    after: SpanRec,
    steps: &mut Steps<L>,
) -> Result<Result<Vec<SpanRec>, Cause>, WriteFault>
    requires usable { IsUsable D.Device desk.old }
    requires kind { tree.now.kind ≡ Cnt }
    requires group { tree.now.group < desk.old.store.geo.agcount }
    ensures answers { WriteAnswers D.Device desk.old desk.new result }
    ensures book { OnOk result (desk.new.book ≡ desk.old.book) }
    ensures items { desk.new.book.journal.items ≡ desk.old.book.journal.items }
    ensures geometry { desk.new.store.geo ≡ desk.old.store.geo }
{
    let fault = match call_leaf(alloc, desk, tree, after, steps) {
        Ok(recs) => return Ok(Ok(recs)),
        Err(fault) => fault,
    };
    match met_by(desk, fault) {
        Ok(cause) => Ok(Err(cause)),
        Err(stop) => Err(stop),
    }
}

/// The last record by count, or the cause for which that btree is to be marked.
#[tactic(auto, using(core_chains::proofs::write::CallLemmas::asked_answers, core_parts::proofs::common::AskLemmas::asked_stopped, crate::proofs::first::SeekLemmas::asked_on))]
pub(crate) fn last_record<D: Device, L: Ledger>(
    desk: &mut Desk<D>,
    tree: &TreeAt,
    steps: &mut Steps<L>,
) -> Result<Result<Option<SpanRec>, Cause>, WriteFault>
    requires usable { IsUsable D.Device desk.old }
    requires kind { tree.now.kind ≡ Cnt }
    requires group { tree.now.group < desk.old.store.geo.agcount }
    ensures answers { WriteAnswers D.Device desk.old desk.new result }
    ensures book { OnOk result (desk.new.book ≡ desk.old.book) }
    ensures items { desk.new.book.journal.items ≡ desk.old.book.journal.items }
    ensures geometry { desk.new.store.geo ≡ desk.old.store.geo }
{
    let fault = match call_last(desk, tree, steps) {
        Ok(rec) => return Ok(Ok(rec)),
        Err(fault) => fault,
    };
    match met_by(desk, fault) {
        Ok(cause) => Ok(Err(cause)),
        Err(stop) => Err(stop),
    }
}

/// Whether a block of the run has an owner, or the cause for which reverse mappings are to be marked.
#[tactic(auto, using(core_chains::proofs::write::CallLemmas::asked_answers, core_parts::proofs::common::AskLemmas::asked_stopped, crate::proofs::first::SeekLemmas::asked_on))]
pub(crate) fn is_owned<D: Device, L: Ledger>(
    desk: &mut Desk<D>,
    tree: &TreeAt,
    run: Run,
    steps: &mut Steps<L>,
) -> Result<Result<bool, Cause>, WriteFault>
    requires usable { IsUsable D.Device desk.old }
    requires kind { tree.now.kind ≡ Rmap }
    requires group { tree.now.group < desk.old.store.geo.agcount }
    ensures answers { WriteAnswers D.Device desk.old desk.new result }
    ensures book { OnOk result (desk.new.book ≡ desk.old.book) }
    ensures items { desk.new.book.journal.items ≡ desk.old.book.journal.items }
    ensures geometry { desk.new.store.geo ≡ desk.old.store.geo }
{
    let fault = match call_owner(desk, tree, run, steps) {
        Ok(found) => return Ok(Ok(found.is_some())),
        Err(fault) => fault,
    };
    match met_by(desk, fault) {
        Ok(cause) => Ok(Err(cause)),
        Err(stop) => Err(stop),
    }
}
