// An edit of a tree in place: the blocks on its way alone are written.
ghost use Rattle.std.specs.Prelude.{◌≡◌, ◌+◌, ◌*◌, ◌^◌, ◌<◌, ◌≤◌, true, false, length};
ghost use Rattle.std.specs.Prelude.{OnOk, OnErr, IfOk, IfErr};
ghost use Rattle.ag_headers.specs.Ring.{entries};
ghost use Rattle.blk_cache.specs.Cache.{AgreesTold};
ghost use Rattle.blk_device.specs.Causes.{HasCause};
ghost use Rattle.blk_device.specs.Reading.{OnlyRead};
ghost use Rattle.blk_device.specs.declared.device.Region.TheVariants.{Image};
ghost use Rattle.edit_blocks.specs.Choice.{for_limbo, HasRoomFor};
ghost use Rattle.join_blocks.specs.Joins.{placed_in, LieBelow};
ghost use Rattle.meta_txn.specs.Joined.{AreBelow};
ghost use Rattle.tree_edit.specs.Faults.{is_devices};
ghost use Rattle.tree_edit.specs.Stays.{StaySame};
ghost use Rattle.edit_place.specs.Calls.{ChangesIf, Settles};
ghost use Rattle.edit_place.specs.Placed.{HaveRoom, Places, StayAll, StayBut, untaken};

use crate::drafted::drafted;
use crate::stop::Stop;
use ag_headers::Agfl;
use blk_cache::BlkCache;
use blk_device::Device;
use byte_fields::Steps;
use edit_blocks::{give_back, make_room, take_from};
use join_blocks::join_put;
use meta_txn::Txn;
use over_blocks::Draft;
use place_plan::Ask;
use sblock::RecKind;
use std::alloc::Global;
use std::sync::ledger::Ledger;
use tree_blocks::TreeAt;
use tree_edit::EditFault;

// Joins a draft's blocks, for which there is room, and settles the list, limbo and the tree.
fn put<D: Device, L: Ledger>(
    dev: &mut D,
    cache: &mut BlkCache,
    txn: &mut Txn,
    first: u64,
    tree: &mut TreeAt,
    list: &mut Agfl,
    limbo: &mut Vec<u32>,
    draft: &Draft,
    steps: &mut Steps<L>,
) -> Result<(), EditFault>
    requires inside { LieBelow (D.blocks dev.old Image) first (placed_in draft.now.placed.items) }
    requires fits { LieBelow (2 ^ 64) first (placed_in draft.now.placed.items) }
    requires few { HaveRoom txn.old first draft.now.placed.items }
    requires enough { draft.now.taken ≤ length (entries list.old) }
    requires room { HasRoomFor limbo.old (
        for_limbo (untaken draft.now list.old) draft.now.freed.items) }
    requires agreed { AgreesTold cache.old (D.content dev.old) }
    ensures placed { OnOk result (
        Places first draft.now tree.old txn.old list.old limbo.old
        tree.new txn.new list.new limbo.new) }
    ensures kept { OnErr result (StayBut tree.old list.old limbo.old tree.new list.new limbo.new) }
    ensures failed { IfErr result (λ fault. fault ≡ EditFault.Failed) }
    ensures same { StaySame tree.old txn.old list.old tree.new txn.new list.new }
    ensures reading { OnlyRead D.Device dev.old dev.new steps.old steps.new }
    ensures cause { HasCause is_devices (D.faults dev.old) (D.faults dev.new) result }
    ensures agrees { AgreesTold cache.new (D.content dev.new) }
{
    join_put(dev, cache, txn, first, &draft.placed, steps)?;
    take_from(list, draft.taken);
    give_back(list, limbo, &draft.freed);
    tree.root = draft.root;
    tree.levels = draft.levels;
    Ok(())
}

// Edits the tree of a group that lies here in place; false where that isn't done, and then nothing
// is changed. Where the tree is known to be readable, its way alone may be read.
pub(crate) fn in_place<K: RecKind, D: Device, L: Ledger>(
    alloc: Global,
    dev: &mut D,
    cache: &mut BlkCache,
    txn: &mut Txn,
    tree: &mut TreeAt,
    list: &mut Agfl,
    limbo: &mut Vec<u32>,
    ask: &Ask<K::Rec>,
    known: bool,
    steps: &mut Steps<L>,
) -> Result<bool, EditFault>
    requires room { ask.now.site.first + ask.now.site.bounds.length ≤ D.blocks dev.old Image }
    requires fits { 8 * (ask.now.site.first + ask.now.site.bounds.length) < 2 ^ 64 }
    requires agreed { AgreesTold cache.old (D.content dev.old) }
    ensures edited { IfOk result (λ is. is ≡ true →
        ChangesIf K.form ask.now.site ask.now.how ask.now.rec (D.content dev.old)
        tree.old txn.old list.old limbo.old known tree.new txn.new list.new limbo.new) }
    ensures settled { IfOk result (λ is. is ≡ true →
        Settles tree.old txn.old list.old limbo.old tree.new txn.new list.new limbo.new) }
    ensures below { IfOk result (λ is. is ≡ true →
        AreBelow (D.blocks dev.old Image) txn.old.blocks →
        AreBelow (D.blocks dev.old Image) txn.new.blocks) }
    ensures unchanged { IfOk result (λ is. is ≡ false →
        StayAll tree.old txn.old list.old limbo.old tree.new txn.new list.new limbo.new) }
    ensures kept { OnErr result (StayBut tree.old list.old limbo.old tree.new list.new limbo.new) }
    ensures failed { IfErr result (λ fault. fault ≡ EditFault.Failed) }
    ensures same { StaySame tree.old txn.old list.old tree.new txn.new list.new }
    ensures reading { OnlyRead D.Device dev.old dev.new steps.old steps.new }
    ensures cause { HasCause is_devices (D.faults dev.old) (D.faults dev.new) result }
    ensures agrees { AgreesTold cache.new (D.content dev.new) }
{
    // A tree of one leaf is written anew, and one of more levels than a tree has is refused there.
    if tree.levels < 2 || tree.levels > 9 {
        return Ok(false);
    }
    let draft = match drafted::<K, D, L>(alloc, dev, cache, txn, ask, tree, list, known, steps) {
        Ok(draft) => draft,
        Err(Stop::Failed) => return Err(EditFault::Failed),
        Err(Stop::Unfit) => return Ok(false),
    };
    // Room before anything is joined, so that nothing behind the joining can be refused for memory.
    if make_room(list, draft.taken, limbo, &draft.freed).is_err() {
        return Ok(false);
    }
    let first = ask.site.first;
    put(dev, cache, txn, first, tree, list, limbo, &draft, steps)?;
    Ok(true)
}
