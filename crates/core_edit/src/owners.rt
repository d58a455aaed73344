// Whether a run has another owner, by the records of reverse mappings that have a block of it.
ghost use Rattle.std.specs.Prelude.{◌≡◌, ◌<◌, IfOk};
ghost use Rattle.blk_device.specs.Causes.{HasCause};
ghost use Rattle.tree_blocks.specs.Reading.{is_failed};
ghost use Rattle.core_edit.specs.Open.{is_device};
ghost use Rattle.sblock.specs.declared.kind.Kind.TheVariants.{Rmap};
ghost use Rattle.core_edit.specs.Ready.{IsReady};
ghost use Rattle.core_edit.specs.Opened.{EditsStore};
ghost use Rattle.core_edit.specs.Owned.{IsAloneIn, IsFirstIn, Shows, ShowsIn, WhereAlone, rmap_in};

use crate::place::EditPlace;
use crate::{Stop, Store};
use blk_device::Device;
use block_reap::LimboRun;
use byte_fields::Steps;
use fs_model::Cause;
use rmap_recs::{Key, RmapKind, RmapRec};
use run_sets::Run;
use sblock::{Kind, RecKind};
use std::sync::ledger::Ledger;
use tree_blocks::{TreeAt, WalkFault};
use tree_walk::covering;

/// Who has blocks of a run: its owner alone, or another one too; or what was met while that was asked.
#[derive(Clone, Copy)]
pub(crate) enum Owners {
    Alone,
    Other,
    Met(Cause),
}

// What the next record over a run shows.
#[derive(Clone, Copy)]
enum Over {
    Known(Owners),
    GoesOn(Key),
}

// Reverse mappings, as the kept heads name them.
fn rmap_tree(place: &EditPlace) -> TreeAt
    ensures kind { result.kind ≡ Rmap }
    ensures group { result.group ≡ place.now.group }
    ensures is { result ≡ rmap_in place.now }
{
    TreeAt {
        kind: Kind::Rmap,
        group: place.group,
        root: place.heads.agf.rmap_root,
        levels: place.heads.agf.rmap_level,
        lsn: place.heads.agf.lsn,
    }
}

// What a record over a run, or the lack of one, shows.
fn told_by(found: Option<RmapRec>, run: &LimboRun) -> Over
    ensures { Shows run.now result found }
{
    match found {
        None => Over::Known(Owners::Alone),
        Some(rec) => {
            if rec.owner == run.owner {
                Over::GoesOn(RmapKind::key_of(&rec))
            } else {
                Over::Known(Owners::Other)
            }
        }
    }
}

// The first record over a run, of those above a key.
fn record_over<D: Device, L: Ledger>(
    store: &mut Store<D>,
    place: &EditPlace,
    run: &LimboRun,
    after: Option<Key>,
    steps: &mut Steps<L>,
) -> Result<Option<RmapRec>, WalkFault>
    requires ready { IsReady D.Device store.old }
    requires group { place.now.group < store.old.geo.agcount }
    ensures edits { EditsStore D.Device store.old store.new steps.old steps.new }
    ensures edit { store.new.edit ≡ store.old.edit }
    ensures cause { HasCause is_failed (D.faults store.old.dev) (D.faults store.new.dev) result }
    ensures first { IfOk result (IsFirstIn D.Device store.old place.now run.now after) }
{
    let tree = rmap_tree(place);
    let asked = Run {
        start: run.start,
        count: run.count,
    };
    covering::<RmapKind, D, L>(
        &mut store.dev,
        &mut store.cache,
        &store.geo,
        &tree,
        asked,
        after,
        steps,
    )
}

// What the first record over a run shows, of those above a key.
fn next_over<D: Device, L: Ledger>(
    store: &mut Store<D>,
    place: &EditPlace,
    run: &LimboRun,
    after: Option<Key>,
    steps: &mut Steps<L>,
) -> Result<Over, Stop>
    requires ready { IsReady D.Device store.old }
    requires group { place.now.group < store.old.geo.agcount }
    ensures edits { EditsStore D.Device store.old store.new steps.old steps.new }
    ensures edit { store.new.edit ≡ store.old.edit }
    ensures cause { HasCause is_device (D.faults store.old.dev) (D.faults store.new.dev) result }
    ensures over { IfOk result (ShowsIn D.Device store.old place.now run.now after) }
{
    match record_over(store, place, run, after, steps) {
        Ok(found) => Ok(told_by(found, run)),
        Err(fault) => match fault {
            WalkFault::Bad { block, fault } => {
                Ok(Over::Known(Owners::Met(Cause::Block { block, fault })))
            }
            WalkFault::Failed => Err(Stop::Failed),
            WalkFault::Memory => Err(Stop::Memory),
        },
    }
}

/// Who has blocks of a run, by the tree of reverse mappings that the kept heads name: its owner alone,
/// where no record of another one has a block of it. A bad block that is met is told as the cause; the
/// edit that is open isn't looked at.
pub(crate) fn owners_over<D: Device, L: Ledger>(
    store: &mut Store<D>,
    place: &EditPlace,
    run: &LimboRun,
    steps: &mut Steps<L>,
) -> Result<Owners, Stop>
    requires ready { IsReady D.Device store.old }
    requires group { place.now.group < store.old.geo.agcount }
    ensures edits { EditsStore D.Device store.old store.new steps.old steps.new }
    ensures edit { store.new.edit ≡ store.old.edit }
    ensures cause { HasCause is_device (D.faults store.old.dev) (D.faults store.new.dev) result }
    ensures alone { IfOk result (WhereAlone (IsAloneIn D.Device store.old place.now run.now)) }
{
    let mut after = None;
    for _ in 0..u64::MAX {
        match next_over(store, place, run, after, steps)? {
            Over::Known(owners) => return Ok(owners),
            Over::GoesOn(key) => after = Some(key),
        }
    }
    // Not reached: the keys rise. Nothing is freed then.
    Ok(Owners::Other)
}
