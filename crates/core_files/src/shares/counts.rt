// Whether a reference count over a piece is near its end.
ghost use Rattle.std.specs.Prelude.{◌≡◌, ◌<◌, OnOk};
ghost use Rattle.core_parts.specs.Common.Asks.{IsUsable};
ghost use Rattle.core_chains.specs.Write.Writes.{WriteAnswers};
ghost use Rattle.sblock.specs.declared.kind.Kind.TheVariants.{Refc};

use crate::shares::seeks::next_count;
use blk_device::Device;
use byte_fields::Steps;
use core_calls::WriteFault;
use core_parts::Desk;
use fs_model::Cause;
use run_sets::Run;
use span_recs::{RefcKey, RefcRec};
use std::sync::ledger::Ledger;
use tree_blocks::TreeAt;

// A count from here on is left as it is, so that all chains together never raise one past its end.
const MOST_OWNERS: u32 = 4_294_967_200;

// The key behind which the next record is looked for.
fn key_of(rec: &RefcRec) -> RefcKey {
    RefcKey { start: rec.start }
}

/// Whether one of the records over the run, behind a key, has such a count; so many are looked at. Or the
/// cause for which reference counts are to be marked.
#[tactic(auto, using(core_chains::proofs::write::PartLemmas::answers_self, core_chains::proofs::write::PartLemmas::answers_on))]
pub(crate) fn is_count_most<D: Device, L: Ledger>(
    desk: &mut Desk<D>,
    tree: &TreeAt,
    run: Run,
    after: Option<RefcKey>,
    left: u32,
    steps: &mut Steps<L>,
) -> Result<Result<bool, Cause>, WriteFault>
    requires usable { IsUsable D.Device desk.old }
    requires kind { tree.now.kind ≡ Refc }
    requires group { tree.now.group < desk.old.store.geo.agcount }
    ensures answers { WriteAnswers D.Device desk.old desk.new result }
    ensures book { OnOk result (desk.new.book ≡ desk.old.book) }
    ensures items { desk.new.book.journal.items ≡ desk.old.book.journal.items }
    ensures geometry { desk.new.store.geo ≡ desk.old.store.geo }
{
    let found = match next_count(desk, tree, run, after, steps)? {
        Ok(found) => found,
        Err(cause) => return Ok(Err(cause)),
    };
    let Some(rec) = found else {
        return Ok(Ok(false));
    };
    if rec.refcount >= MOST_OWNERS {
        return Ok(Ok(true));
    }
    // Never: a run has no more records than blocks.
    if left == 0 {
        return Err(WriteFault::Memory);
    }
    is_count_most(desk, tree, run, Some(key_of(&rec)), left - 1, steps)
}
