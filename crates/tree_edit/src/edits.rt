// The three edits of a tree.
ghost use Rattle.std.specs.Prelude.{◌≡◌, ◌<◌, ◌≤◌, true, OnOk, OnErr, IfErr};
ghost use Rattle.std.specs.Vec.{vec_capacity};
ghost use Rattle.blk_cache.specs.Cache.{AgreesTold};
ghost use Rattle.blk_device.specs.Causes.{HasCause};
ghost use Rattle.blk_device.specs.declared.device.Region.TheVariants.{Image};
ghost use Rattle.geom.specs.Places.{layout};
ghost use Rattle.meta_txn.specs.Joined.{AreBelow};
ghost use Rattle.tree_defs.specs.Sites.{site_of};
ghost use Rattle.tree_edit.specs.Device.{IsLeft};
ghost use Rattle.tree_edit.specs.Calls.{Inserts, Removes, Changes, CountsInsert, CountsRemove, CountsChange, Stops};
ghost use Rattle.tree_edit.specs.Calls.{RefusesInsert, RefusesRemove, RefusesChange, StoppedInsert, StoppedRemove, StoppedChange};
ghost use Rattle.tree_edit.specs.Stays.{IsAsBefore, StaySame};
ghost use Rattle.tree_edit.specs.Faults.{is_devices};

use crate::fault::EditFault;
use crate::rewrite::rewrite;
use ag_headers::Agfl;
use blk_cache::BlkCache;
use blk_device::Device;
use byte_fields::Steps;
use geom::Geometry;
use list_edit::Edit;
use meta_txn::Txn;
use sblock::RecKind;
use std::alloc::Global;
use std::sync::ledger::Ledger;
use tree_blocks::TreeAt;
use tree_defs::Site;

/// Puts a record into a tree, as one change of the transaction. Refused, in this order, with the first
/// bad block of the tree, Overlap where a record of it can't be beside the new one, Short where the free
/// list has fewer blocks than the edit needs, TooLarge where the transaction would have more than 160;
/// Failed only where the device failed; want of memory before anything is joined. After a refusal the
/// tree, the list, limbo and the mark are as they were, and so is what is joined, but after Failed:
/// then blocks of the tree and the list's first ones may be joined
/// (XFS Algorithms and Data Structures, "Short Format B+trees").
pub fn insert<K: RecKind, D: Device, L: Ledger>(
    alloc: Global,
    dev: &mut D,
    cache: &mut BlkCache,
    geo: &Geometry,
    txn: &mut Txn,
    tree: &mut TreeAt,
    list: &mut Agfl,
    limbo: &mut Vec<u32>,
    rec: K::Rec,
    steps: &mut Steps<L>,
) -> Result<(), EditFault>
    requires kind { tree.old.kind ≡ K.form.kind }
    requires group { tree.old.group < geo.now.agcount }
    requires room { geo.now.dblocks ≤ D.blocks dev.old Image }
    requires inside { K.form.is_in_range (site_of (layout geo.now) tree.old.group).bounds rec ≡ true }
    requires supported { K.form.is_supported rec ≡ true }
    requires agreed { AgreesTold cache.old (D.content dev.old) }
    ensures edited { OnOk result (Inserts K.form geo.now rec (D.content dev.old) tree.old txn.old list.old limbo.old tree.new txn.new list.new limbo.new) }
    ensures counted { OnOk result (CountsInsert K.form geo.now rec (D.content dev.old) tree.old txn.old txn.new steps.old steps.new) }
    ensures ticks { IfErr result (StoppedInsert K.form geo.now rec (D.content dev.old) tree.old txn.old steps.old steps.new) }
    ensures refused { IfErr result (RefusesInsert K.form geo.now rec (D.content dev.old) tree.old txn.old list.old limbo.old) }
    ensures kept { IfErr result (IsAsBefore tree.old txn.old list.old limbo.old tree.new txn.new list.new limbo.new) }
    ensures capacity { vec_capacity limbo.old ≤ vec_capacity limbo.new }
    ensures stops { OnErr result (Stops K.form geo.now (D.content dev.old) tree.old txn.old list.old txn.new) }
    ensures below { AreBelow (D.blocks dev.old Image) txn.old.blocks → OnOk result (AreBelow (D.blocks dev.old Image) txn.new.blocks) }
    ensures same { StaySame tree.old txn.old list.old tree.new txn.new list.new }
    ensures left { IsLeft D.Device dev.old dev.new steps.old steps.new }
    ensures cause { HasCause is_devices (D.faults dev.old) (D.faults dev.new) result }
    ensures agrees { AgreesTold cache.new (D.content dev.new) }
{
    let site = Site::of_group(geo, tree.group);
    let how = Edit::Insert;
    rewrite::<K, D, L>(
        alloc, dev, cache, txn, &site, tree, list, limbo, how, &rec, steps,
    )
}

/// Takes the record that is this one out of a tree; Missing where it isn't there. Else as [`insert`].
pub fn remove<K: RecKind, D: Device, L: Ledger>(
    alloc: Global,
    dev: &mut D,
    cache: &mut BlkCache,
    geo: &Geometry,
    txn: &mut Txn,
    tree: &mut TreeAt,
    list: &mut Agfl,
    limbo: &mut Vec<u32>,
    rec: K::Rec,
    steps: &mut Steps<L>,
) -> Result<(), EditFault>
    requires kind { tree.old.kind ≡ K.form.kind }
    requires group { tree.old.group < geo.now.agcount }
    requires room { geo.now.dblocks ≤ D.blocks dev.old Image }
    requires agreed { AgreesTold cache.old (D.content dev.old) }
    ensures edited { OnOk result (Removes K.form geo.now rec (D.content dev.old) tree.old txn.old list.old limbo.old tree.new txn.new list.new limbo.new) }
    ensures counted { OnOk result (CountsRemove K.form geo.now rec (D.content dev.old) tree.old txn.old txn.new steps.old steps.new) }
    ensures ticks { IfErr result (StoppedRemove K.form geo.now rec (D.content dev.old) tree.old txn.old steps.old steps.new) }
    ensures refused { IfErr result (RefusesRemove K.form geo.now rec (D.content dev.old) tree.old txn.old list.old limbo.old) }
    ensures kept { IfErr result (IsAsBefore tree.old txn.old list.old limbo.old tree.new txn.new list.new limbo.new) }
    ensures capacity { vec_capacity limbo.old ≤ vec_capacity limbo.new }
    ensures stops { OnErr result (Stops K.form geo.now (D.content dev.old) tree.old txn.old list.old txn.new) }
    ensures below { AreBelow (D.blocks dev.old Image) txn.old.blocks → OnOk result (AreBelow (D.blocks dev.old Image) txn.new.blocks) }
    ensures same { StaySame tree.old txn.old list.old tree.new txn.new list.new }
    ensures left { IsLeft D.Device dev.old dev.new steps.old steps.new }
    ensures cause { HasCause is_devices (D.faults dev.old) (D.faults dev.new) result }
    ensures agrees { AgreesTold cache.new (D.content dev.new) }
{
    let site = Site::of_group(geo, tree.group);
    let how = Edit::Remove;
    rewrite::<K, D, L>(
        alloc, dev, cache, txn, &site, tree, list, limbo, how, &rec, steps,
    )
}

/// Puts the record in the place of the one with an equal key; Missing where there is none, and Overlap
/// where another record can't be beside it. Else as [`insert`].
pub fn change<K: RecKind, D: Device, L: Ledger>(
    alloc: Global,
    dev: &mut D,
    cache: &mut BlkCache,
    geo: &Geometry,
    txn: &mut Txn,
    tree: &mut TreeAt,
    list: &mut Agfl,
    limbo: &mut Vec<u32>,
    rec: K::Rec,
    steps: &mut Steps<L>,
) -> Result<(), EditFault>
    requires kind { tree.old.kind ≡ K.form.kind }
    requires group { tree.old.group < geo.now.agcount }
    requires room { geo.now.dblocks ≤ D.blocks dev.old Image }
    requires inside { K.form.is_in_range (site_of (layout geo.now) tree.old.group).bounds rec ≡ true }
    requires supported { K.form.is_supported rec ≡ true }
    requires agreed { AgreesTold cache.old (D.content dev.old) }
    ensures edited { OnOk result (Changes K.form geo.now rec (D.content dev.old) tree.old txn.old list.old limbo.old tree.new txn.new list.new limbo.new) }
    ensures counted { OnOk result (CountsChange K.form geo.now rec (D.content dev.old) tree.old txn.old txn.new steps.old steps.new) }
    ensures ticks { IfErr result (StoppedChange K.form geo.now rec (D.content dev.old) tree.old txn.old steps.old steps.new) }
    ensures refused { IfErr result (RefusesChange K.form geo.now rec (D.content dev.old) tree.old txn.old list.old limbo.old) }
    ensures kept { IfErr result (IsAsBefore tree.old txn.old list.old limbo.old tree.new txn.new list.new limbo.new) }
    ensures capacity { vec_capacity limbo.old ≤ vec_capacity limbo.new }
    ensures stops { OnErr result (Stops K.form geo.now (D.content dev.old) tree.old txn.old list.old txn.new) }
    ensures below { AreBelow (D.blocks dev.old Image) txn.old.blocks → OnOk result (AreBelow (D.blocks dev.old Image) txn.new.blocks) }
    ensures same { StaySame tree.old txn.old list.old tree.new txn.new list.new }
    ensures left { IsLeft D.Device dev.old dev.new steps.old steps.new }
    ensures cause { HasCause is_devices (D.faults dev.old) (D.faults dev.new) result }
    ensures agrees { AgreesTold cache.new (D.content dev.new) }
{
    let site = Site::of_group(geo, tree.group);
    let how = Edit::Change;
    rewrite::<K, D, L>(
        alloc, dev, cache, txn, &site, tree, list, limbo, how, &rec, steps,
    )
}
