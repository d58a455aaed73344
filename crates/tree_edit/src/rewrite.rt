// An edit of a tree, which is written anew.
ghost use Rattle.std.specs.Prelude.{◌≡◌, ◌+◌, ◌*◌, ◌^◌, ◌<◌, ◌≤◌, true, OnOk, OnErr, IfErr};
ghost use Rattle.std.specs.Vec.{vec_capacity};
ghost use Rattle.ag_headers.specs.Ring.{entries};
ghost use Rattle.blk_cache.specs.Cache.{AgreesTold};
ghost use Rattle.blk_device.specs.Causes.{HasCause};
ghost use Rattle.blk_device.specs.declared.device.Region.TheVariants.{Image};
ghost use Rattle.list_edit.specs.Laws.{IsPut};
ghost use Rattle.meta_txn.specs.Joined.{AreBelow};
ghost use Rattle.sblock.specs.Headers.{no_block};
ghost use Rattle.tree_edit.specs.Device.{IsLeft};
ghost use Rattle.tree_edit.specs.Calls.{Edits, Refuses, Counts, Stopped, StopsAt};
ghost use Rattle.tree_edit.specs.Stays.{IsAsBefore, StaySame};
ghost use Rattle.tree_edit.specs.Faults.{is_devices};

use crate::fault::EditFault;
use crate::join::join_tree;
use crate::prepare::prepare;
use crate::settle::settle;
use ag_headers::Agfl;
use blk_cache::BlkCache;
use blk_device::Device;
use byte_fields::Steps;
use edit_blocks::make_room;
use list_edit::Edit;
use meta_txn::Txn;
use sblock::RecKind;
use std::alloc::Global;
use std::sync::ledger::Ledger;
use tree_blocks::TreeAt;
use tree_defs::Site;

// Edits the tree of a group that lies here.
pub(crate) fn rewrite<K: RecKind, D: Device, L: Ledger>(
    alloc: Global,
    dev: &mut D,
    cache: &mut BlkCache,
    txn: &mut Txn,
    site: &Site,
    tree: &mut TreeAt,
    list: &mut Agfl,
    limbo: &mut Vec<u32>,
    how: Edit,
    rec: &K::Rec,
    steps: &mut Steps<L>,
) -> Result<(), EditFault>
    requires room { site.now.first + site.now.bounds.length ≤ D.blocks dev.old Image }
    requires fits { 8 * (site.now.first + site.now.bounds.length) < 2 ^ 64 }
    requires short { site.now.bounds.length ≤ no_block }
    requires given { IsPut how → (K.form.is_in_range site.now.bounds rec.now ≡ true) × (K.form.is_supported rec.now ≡ true) }
    requires agreed { AgreesTold cache.old (D.content dev.old) }
    ensures edit { OnOk result (Edits K.form site.now how rec.now (D.content dev.old) tree.old txn.old list.old limbo.old tree.new txn.new list.new limbo.new) }
    ensures counted { OnOk result (Counts K.form site.now how rec.now (D.content dev.old) tree.old txn.old txn.new steps.old steps.new) }
    ensures refused { IfErr result (Refuses K.form site.now how rec.now (D.content dev.old) tree.old txn.old list.old limbo.old) }
    ensures ticks { IfErr result (Stopped K.form site.now how rec.now (D.content dev.old) tree.old txn.old steps.old steps.new) }
    ensures kept { IfErr result (IsAsBefore tree.old txn.old list.old limbo.old tree.new txn.new list.new limbo.new) }
    ensures stops { OnErr result (StopsAt K.form site.now (D.content dev.old) tree.old txn.old list.old txn.new) }
    ensures below { AreBelow (D.blocks dev.old Image) txn.old.blocks → OnOk result (AreBelow (D.blocks dev.old Image) txn.new.blocks) }
    ensures same { StaySame tree.old txn.old list.old tree.new txn.new list.new }
    ensures capacity { vec_capacity limbo.old ≤ vec_capacity limbo.new }
    ensures left { IsLeft D.Device dev.old dev.new steps.old steps.new }
    ensures cause { HasCause is_devices (D.faults dev.old) (D.faults dev.new) result }
    ensures agrees { AgreesTold cache.new (D.content dev.new) }
{
    let made = prepare::<K, D, L>(alloc, dev, cache, txn, site, tree, list, how, rec, steps)?;
    // Room before anything is joined, so that nothing behind the joining can be refused for memory.
    make_room(list, made.need, limbo, &made.left)?;
    join_tree(
        alloc,
        dev,
        cache,
        txn,
        site.first,
        &made.placed,
        &made.left,
        &made.touched,
        steps,
    )?;
    settle(list, limbo, made.need, &made.left);
    tree.root = made.root;
    tree.levels = made.levels;
    Ok(())
}
