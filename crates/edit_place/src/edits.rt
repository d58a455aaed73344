// An edit of a tree.
ghost use Rattle.std.specs.Prelude.{◌≡◌, ◌+◌, ◌<◌, ◌≤◌, true, OnOk, IfErr};
ghost use Rattle.blk_cache.specs.Cache.{AgreesTold};
ghost use Rattle.blk_device.specs.Causes.{HasCause};
ghost use Rattle.blk_device.specs.declared.device.Region.TheVariants.{Image};
ghost use Rattle.geom.specs.Places.{layout};
ghost use Rattle.list_edit.specs.Laws.{IsPut};
ghost use Rattle.meta_txn.specs.Joined.{AreBelow};
ghost use Rattle.tree_defs.specs.Sites.{site_of};
ghost use Rattle.tree_edit.specs.Calls.{Refuses};
ghost use Rattle.tree_edit.specs.Device.{IsLeft};
ghost use Rattle.tree_edit.specs.Faults.{is_devices};
ghost use Rattle.tree_edit.specs.Stays.{IsAsBefore, StaySame};
ghost use Rattle.edit_place.specs.Calls.{Changes, ChangesReadable, Settles};

use crate::anew::anew;
use crate::place::in_place;
use ag_headers::Agfl;
use blk_cache::BlkCache;
use blk_device::Device;
use byte_fields::Steps;
use geom::Geometry;
use list_edit::Edit;
use meta_txn::Txn;
use place_plan::Ask;
use sblock::RecKind;
use std::alloc::Global;
use std::sync::ledger::Ledger;
use tree_blocks::TreeAt;
use tree_defs::Site;
use tree_edit::EditFault;

/// Edits a tree, as one change of the transaction. Refused, in this order, with a first bad block,
/// Missing, Overlap, Short of free blocks, TooLarge above 160 blocks; for memory; Failed where the
/// device failed. After a refusal the tree, list and limbo are as they were, and so is what is
/// joined, but after Failed (XFS Algorithms and Data Structures, "Short Format B+trees").
pub fn edit<K: RecKind, D: Device, L: Ledger>(
    alloc: Global,
    dev: &mut D,
    cache: &mut BlkCache,
    geo: &Geometry,
    txn: &mut Txn,
    tree: &mut TreeAt,
    list: &mut Agfl,
    limbo: &mut Vec<u32>,
    how: Edit,
    rec: K::Rec,
    steps: &mut Steps<L>,
) -> Result<(), EditFault>
    requires kind { tree.old.kind ≡ K.form.kind }
    requires group { tree.old.group < geo.now.agcount }
    requires room { geo.now.dblocks ≤ D.blocks dev.old Image }
    requires given { IsPut how →
        (K.form.is_in_range (site_of (layout geo.now) tree.old.group).bounds rec ≡ true)
        × (K.form.is_supported rec ≡ true) }
    requires agreed { AgreesTold cache.old (D.content dev.old) }
    ensures edited { OnOk result (
        Changes K.form (site_of (layout geo.now) tree.old.group) how rec (D.content dev.old)
        tree.old txn.old list.old limbo.old tree.new txn.new list.new limbo.new) }
    ensures refused { IfErr result (
        Refuses K.form (site_of (layout geo.now) tree.old.group) how rec (D.content dev.old)
        tree.old txn.old list.old limbo.old) }
    ensures kept { IfErr result (
        IsAsBefore tree.old txn.old list.old limbo.old tree.new txn.new list.new limbo.new) }
    ensures below { AreBelow (D.blocks dev.old Image) txn.old.blocks →
        OnOk result (AreBelow (D.blocks dev.old Image) txn.new.blocks) }
    ensures same { StaySame tree.old txn.old list.old tree.new txn.new list.new }
    ensures left { IsLeft D.Device dev.old dev.new steps.old steps.new }
    ensures cause { HasCause is_devices (D.faults dev.old) (D.faults dev.new) result }
    ensures agrees { AgreesTold cache.new (D.content dev.new) }
{
    let site = Site::of_group(geo, tree.group);
    let ask = Ask { site, how, rec };
    let done = in_place::<K, D, L>(
        alloc, dev, cache, txn, tree, list, limbo, &ask, false, steps,
    )?;
    if done {
        return Ok(());
    }
    anew::<K, D, L>(
        alloc, dev, cache, geo, txn, tree, list, limbo, how, rec, steps,
    )
}

/// Edits a tree that is readable, as `edit` does, and reads the blocks on the edit's way alone
/// where these tell enough: where no block is taken or freed, and the record's key alone can bar
/// it. Of a tree that isn't readable nothing is said but what is settled by any edit
/// (XFS Algorithms and Data Structures, "Short Format B+trees").
pub fn edit_along<K: RecKind, D: Device, L: Ledger>(
    alloc: Global,
    dev: &mut D,
    cache: &mut BlkCache,
    geo: &Geometry,
    txn: &mut Txn,
    tree: &mut TreeAt,
    list: &mut Agfl,
    limbo: &mut Vec<u32>,
    how: Edit,
    rec: K::Rec,
    steps: &mut Steps<L>,
) -> Result<(), EditFault>
    requires kind { tree.old.kind ≡ K.form.kind }
    requires group { tree.old.group < geo.now.agcount }
    requires room { geo.now.dblocks ≤ D.blocks dev.old Image }
    requires given { IsPut how →
        (K.form.is_in_range (site_of (layout geo.now) tree.old.group).bounds rec ≡ true)
        × (K.form.is_supported rec ≡ true) }
    requires agreed { AgreesTold cache.old (D.content dev.old) }
    ensures edited { OnOk result (
        ChangesReadable K.form (site_of (layout geo.now) tree.old.group) how rec
        (D.content dev.old) tree.old txn.old list.old limbo.old
        tree.new txn.new list.new limbo.new) }
    ensures settled { OnOk result (
        Settles tree.old txn.old list.old limbo.old tree.new txn.new list.new limbo.new) }
    ensures refused { IfErr result (
        Refuses K.form (site_of (layout geo.now) tree.old.group) how rec (D.content dev.old)
        tree.old txn.old list.old limbo.old) }
    ensures kept { IfErr result (
        IsAsBefore tree.old txn.old list.old limbo.old tree.new txn.new list.new limbo.new) }
    ensures below { AreBelow (D.blocks dev.old Image) txn.old.blocks →
        OnOk result (AreBelow (D.blocks dev.old Image) txn.new.blocks) }
    ensures same { StaySame tree.old txn.old list.old tree.new txn.new list.new }
    ensures left { IsLeft D.Device dev.old dev.new steps.old steps.new }
    ensures cause { HasCause is_devices (D.faults dev.old) (D.faults dev.new) result }
    ensures agrees { AgreesTold cache.new (D.content dev.new) }
{
    let site = Site::of_group(geo, tree.group);
    let ask = Ask { site, how, rec };
    let done = in_place::<K, D, L>(alloc, dev, cache, txn, tree, list, limbo, &ask, true, steps)?;
    if done {
        return Ok(());
    }
    anew::<K, D, L>(
        alloc, dev, cache, geo, txn, tree, list, limbo, how, rec, steps,
    )
}
