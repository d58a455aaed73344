// Records of reference counts, looked for on the device.
ghost use Rattle.std.specs.Prelude.{◌≡◌, ◌<◌, OnOk};
ghost use Rattle.core_parts.specs.Common.Asks.{IsUsable};
ghost use Rattle.core_parts.specs.Keeps.{IsAsked, failed_by};
ghost use Rattle.core_chains.specs.Write.Writes.{WriteAnswers};
ghost use Rattle.sblock.specs.declared.kind.Kind.TheVariants.{Refc};
ghost use Rattle.tree_blocks.specs.Reading.{is_failed as is_walk_failed};

use crate::first::met_by;
use blk_device::Device;
use byte_fields::Steps;
use core_calls::WriteFault;
use core_parts::{Desk, GroupKept};
use fs_model::Cause;
use run_sets::Run;
use sblock::Kind;
use span_recs::{RefcKey, RefcKind, RefcRec};
use std::sync::ledger::Ledger;
use tree_blocks::{TreeAt, WalkFault};
use tree_walk::covering;

/// Reference counts of a group, as the kept heads name them.
pub(crate) fn refc_tree(kept: &GroupKept, g: u32) -> TreeAt
    ensures kind { result.kind ≡ Refc }
    ensures group { result.group ≡ g }
{
    TreeAt {
        kind: Kind::Refc,
        group: g,
        root: kept.heads.agf.refcount_root,
        levels: kept.heads.agf.refcount_level,
        lsn: kept.heads.agf.lsn,
    }
}

#[tactic(auto, using(crate::proofs::first::SeekLemmas::read_asked, core_chains::proofs::chains::FindLemmas::usable_room))]
fn call_count<D: Device, L: Ledger>(
    desk: &mut Desk<D>,
    tree: &TreeAt,
    run: Run,
    after: Option<RefcKey>,
    steps: &mut Steps<L>,
) -> Result<Option<RefcRec>, WalkFault>
    requires usable { IsUsable D.Device desk.old }
    requires kind { tree.now.kind ≡ Refc }
    requires group { tree.now.group < desk.old.store.geo.agcount }
    ensures asked { IsAsked D.Device (failed_by is_walk_failed result) desk.old desk.new }
{
    covering::<RefcKind, D, L>(
        &mut desk.store.dev,
        &mut desk.store.cache,
        &desk.store.geo,
        tree,
        run,
        after,
        steps,
    )
}

/// The first record of reference counts over the run, behind a key, or the cause for which these are to be
/// marked.
#[tactic(auto, using(core_chains::proofs::write::CallLemmas::asked_answers, core_parts::proofs::common::AskLemmas::asked_stopped, crate::proofs::first::SeekLemmas::asked_on))]
pub(crate) fn next_count<D: Device, L: Ledger>(
    desk: &mut Desk<D>,
    tree: &TreeAt,
    run: Run,
    after: Option<RefcKey>,
    steps: &mut Steps<L>,
) -> Result<Result<Option<RefcRec>, Cause>, WriteFault>
    requires usable { IsUsable D.Device desk.old }
    requires kind { tree.now.kind ≡ Refc }
    requires group { tree.now.group < desk.old.store.geo.agcount }
    ensures answers { WriteAnswers D.Device desk.old desk.new result }
    ensures book { OnOk result (desk.new.book ≡ desk.old.book) }
    ensures items { desk.new.book.journal.items ≡ desk.old.book.journal.items }
    ensures geometry { desk.new.store.geo ≡ desk.old.store.geo }
{
    let fault = match call_count(desk, tree, run, after, steps) {
        Ok(rec) => return Ok(Ok(rec)),
        Err(fault) => fault,
    };
    match met_by(desk, fault) {
        Ok(cause) => Ok(Err(cause)),
        Err(stop) => Err(stop),
    }
}
