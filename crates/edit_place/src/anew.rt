// A tree that is written anew.
ghost use Rattle.std.specs.Prelude.{◌≡◌, ◌+◌, ◌<◌, ◌≤◌, true, OnOk, IfErr};
ghost use Rattle.blk_cache.specs.Cache.{AgreesTold};
ghost use Rattle.blk_device.specs.Causes.{HasCause};
ghost use Rattle.blk_device.specs.declared.device.Region.TheVariants.{Image};
ghost use Rattle.geom.specs.Places.{layout};
ghost use Rattle.list_edit.specs.Laws.{IsPut};
ghost use Rattle.meta_txn.specs.Joined.{AreBelow};
ghost use Rattle.tree_defs.specs.Sites.{site_of};
ghost use Rattle.tree_edit.specs.Calls.{Refuses};
ghost use Rattle.tree_edit.specs.Device.{IsLeft};
ghost use Rattle.tree_edit.specs.Faults.{is_devices};
ghost use Rattle.tree_edit.specs.Stays.{IsAsBefore, StaySame};
ghost use Rattle.edit_place.specs.Calls.{Changes};

use ag_headers::Agfl;
use blk_cache::BlkCache;
use blk_device::Device;
use byte_fields::Steps;
use geom::Geometry;
use list_edit::Edit;
use meta_txn::Txn;
use sblock::RecKind;
use std::alloc::Global;
use std::sync::ledger::Ledger;
use tree_blocks::TreeAt;
use tree_edit::{EditFault, change, insert, remove};

// Edits a tree, all of whose blocks are written.
pub(crate) fn anew<K: RecKind, D: Device, L: Ledger>(
    alloc: Global,
    dev: &mut D,
    cache: &mut BlkCache,
    geo: &Geometry,
    txn: &mut Txn,
    tree: &mut TreeAt,
    list: &mut Agfl,
    limbo: &mut Vec<u32>,
    how: Edit,
    rec: K::Rec,
    steps: &mut Steps<L>,
) -> Result<(), EditFault>
    requires kind { tree.old.kind ≡ K.form.kind }
    requires group { tree.old.group < geo.now.agcount }
    requires room { geo.now.dblocks ≤ D.blocks dev.old Image }
    requires given { IsPut how →
        (K.form.is_in_range (site_of (layout geo.now) tree.old.group).bounds rec ≡ true)
        × (K.form.is_supported rec ≡ true) }
    requires agreed { AgreesTold cache.old (D.content dev.old) }
    ensures edited { OnOk result (
        Changes K.form (site_of (layout geo.now) tree.old.group) how rec (D.content dev.old)
        tree.old txn.old list.old limbo.old tree.new txn.new list.new limbo.new) }
    ensures refused { IfErr result (
        Refuses K.form (site_of (layout geo.now) tree.old.group) how rec (D.content dev.old)
        tree.old txn.old list.old limbo.old) }
    ensures kept { IfErr result (
        IsAsBefore tree.old txn.old list.old limbo.old tree.new txn.new list.new limbo.new) }
    ensures below { AreBelow (D.blocks dev.old Image) txn.old.blocks →
        OnOk result (AreBelow (D.blocks dev.old Image) txn.new.blocks) }
    ensures same { StaySame tree.old txn.old list.old tree.new txn.new list.new }
    ensures left { IsLeft D.Device dev.old dev.new steps.old steps.new }
    ensures cause { HasCause is_devices (D.faults dev.old) (D.faults dev.new) result }
    ensures agrees { AgreesTold cache.new (D.content dev.new) }
{
    match how {
        Edit::Insert => insert::<K, D, L>(
            alloc, dev, cache, geo, txn, tree, list, limbo, rec, steps,
        ),
        Edit::Remove => remove::<K, D, L>(
            alloc, dev, cache, geo, txn, tree, list, limbo, rec, steps,
        ),
        Edit::Change => change::<K, D, L>(
            alloc, dev, cache, geo, txn, tree, list, limbo, rec, steps,
        ),
    }
}
