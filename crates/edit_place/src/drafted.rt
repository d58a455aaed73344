// An edit of a tree in memory, read through a transaction, with room for its blocks.
ghost use Rattle.std.specs.Prelude.{◌≡◌, ◌+◌, ◌*◌, ◌^◌, ◌<◌, ◌≤◌, true, IfOk};
ghost use Rattle.ag_headers.specs.Ring.{entries};
ghost use Rattle.blk_cache.specs.Cache.{AgreesTold};
ghost use Rattle.blk_device.specs.Causes.{HasCause};
ghost use Rattle.blk_device.specs.Reading.{OnlyRead};
ghost use Rattle.blk_device.specs.declared.device.Region.TheVariants.{Image};
ghost use Rattle.join_blocks.specs.Joins.{placed_in, LieBelow};
ghost use Rattle.edit_place.specs.Checked.{Checks, IsWithin};
ghost use Rattle.edit_place.specs.Placed.{HaveRoom};
ghost use Rattle.edit_place.specs.Stops.{is_failed};

use crate::checked::checked;
use crate::stop::Stop;
use ag_headers::Agfl;
use blk_cache::BlkCache;
use blk_device::Device;
use byte_fields::{Block, Steps};
use join_blocks::count_with;
use meta_txn::Txn;
use over_blocks::Draft;
use place_plan::Ask;
use redo_area::MAX_BATCH;
use sblock::RecKind;
use std::alloc::{AllocError, Global};
use std::sync::ledger::Ledger;
use tree_blocks::TreeAt;
use txn_blocks::Edited;

// The numbers of these blocks.
fn numbers_of(alloc: Global, placed: &[(u32, Block)]) -> Result<Vec<u32>, AllocError>
    ensures { IfOk result (λ numbers. numbers.items ≡ placed_in placed.now) }
{
    placed.iter().map(|e| e.0).collect(alloc)
}

// Whether the transaction has room for these blocks, which are counted from the group's block 0.
fn has_room(
    alloc: Global,
    txn: &Txn,
    first: u64,
    placed: &[(u32, Block)],
) -> Result<bool, AllocError>
    requires fits { LieBelow (2 ^ 64) first (placed_in placed.now) }
    ensures { IfOk result (λ yes. yes ≡ true → HaveRoom txn.now first placed.now) }
{
    let numbers = numbers_of(alloc, placed)?;
    let count = count_with(alloc, txn, first, &numbers)?;
    Ok(count <= MAX_BATCH as u64)
}

// The draft of the edit, read through the transaction, to which nothing is joined.
fn through<K: RecKind, D: Device, L: Ledger>(
    alloc: Global,
    dev: &mut D,
    cache: &mut BlkCache,
    txn: &mut Txn,
    ask: &Ask<K::Rec>,
    tree: &TreeAt,
    list: &Agfl,
    known: bool,
    steps: &mut Steps<L>,
) -> Result<Draft, Stop>
    requires room { ask.now.site.first + ask.now.site.bounds.length ≤ D.blocks dev.old Image }
    requires fits { 8 * (ask.now.site.first + ask.now.site.bounds.length) < 2 ^ 64 }
    requires agreed { AgreesTold cache.old (D.content dev.old) }
    ensures checked { IfOk result (
        Checks K.form ask.now known tree.now txn.old (D.content dev.old) list.now) }
    ensures within { IfOk result (IsWithin ask.now.site.bounds.length (entries list.now)) }
    ensures txn { txn.new ≡ txn.old }
    ensures reading { OnlyRead D.Device dev.old dev.new steps.old steps.new }
    ensures cause { HasCause is_failed (D.faults dev.old) (D.faults dev.new) result }
    ensures agrees { AgreesTold cache.new (D.content dev.new) }
{
    let mut blocks = Edited {
        dev,
        cache,
        txn,
        site: ask.site,
        steps,
    };
    checked::<K, Edited<D, L>>(alloc, &mut blocks, ask, tree, list, known)
}

// The draft of the edit, for whose blocks the transaction has room; nothing is changed.
pub(crate) fn drafted<K: RecKind, D: Device, L: Ledger>(
    alloc: Global,
    dev: &mut D,
    cache: &mut BlkCache,
    txn: &mut Txn,
    ask: &Ask<K::Rec>,
    tree: &TreeAt,
    list: &Agfl,
    known: bool,
    steps: &mut Steps<L>,
) -> Result<Draft, Stop>
    requires room { ask.now.site.first + ask.now.site.bounds.length ≤ D.blocks dev.old Image }
    requires fits { 8 * (ask.now.site.first + ask.now.site.bounds.length) < 2 ^ 64 }
    requires agreed { AgreesTold cache.old (D.content dev.old) }
    ensures checked { IfOk result (
        Checks K.form ask.now known tree.now txn.old (D.content dev.old) list.now) }
    ensures within { IfOk result (IsWithin ask.now.site.bounds.length (entries list.now)) }
    ensures few { IfOk result (λ draft.
        HaveRoom txn.old ask.now.site.first draft.placed.items) }
    ensures txn { txn.new ≡ txn.old }
    ensures reading { OnlyRead D.Device dev.old dev.new steps.old steps.new }
    ensures cause { HasCause is_failed (D.faults dev.old) (D.faults dev.new) result }
    ensures agrees { AgreesTold cache.new (D.content dev.new) }
{
    let draft = through::<K, D, L>(alloc, dev, cache, txn, ask, tree, list, known, steps)?;
    if !has_room(alloc, txn, ask.site.first, &draft.placed)? {
        return Err(Stop::Unfit);
    }
    Ok(draft)
}
