// An edit of a tree, up to where something is changed.
ghost use Rattle.std.specs.Prelude.{◌≡◌, ◌+◌, ◌*◌, ◌^◌, ◌<◌, ◌≤◌, true, [], IfOk, IfErr};
ghost use Rattle.blk_cache.specs.Cache.{AgreesTold};
ghost use Rattle.blk_device.specs.Causes.{HasCause};
ghost use Rattle.blk_device.specs.declared.device.Region.TheVariants.{Image};
ghost use Rattle.list_edit.specs.Laws.{IsPut};
ghost use Rattle.tree_edit.specs.Device.{IsLeft};
ghost use Rattle.tree_edit.specs.Faults.{is_devices};
ghost use Rattle.tree_edit.specs.Prepared.{held, RefusesPrepared};
ghost use Rattle.tree_edit.specs.Calls.{Prepares, Stopped};

use crate::fault::EditFault;
use crate::make::{Made, make};
use crate::plan::plan_records;
use crate::read::walked;
use ag_headers::Agfl;
use blk_cache::BlkCache;
use blk_device::Device;
use byte_fields::Steps;
use list_edit::Edit;
use meta_txn::Txn;
use sblock::RecKind;
use std::alloc::Global;
use std::sync::ledger::Ledger;
use tree_blocks::TreeAt;
use tree_defs::Site;

// Reads the tree, edits its records and makes the blocks of the edited tree; nothing is changed.
pub(crate) fn prepare<K: RecKind, D: Device, L: Ledger>(
    alloc: Global,
    dev: &mut D,
    cache: &mut BlkCache,
    txn: &mut Txn,
    site: &Site,
    tree: &TreeAt,
    list: &Agfl,
    how: Edit,
    rec: &K::Rec,
    steps: &mut Steps<L>,
) -> Result<Made, EditFault>
    requires room { site.now.first + site.now.bounds.length ≤ D.blocks dev.old Image }
    requires fits { 8 * (site.now.first + site.now.bounds.length) < 2 ^ 64 }
    requires given { IsPut how → (K.form.is_in_range site.now.bounds rec.now ≡ true) × (K.form.is_supported rec.now ≡ true) }
    requires agreed { AgreesTold cache.old (D.content dev.old) }
    ensures prepared { IfOk result (Prepares K.form site.now how rec.now (D.content dev.old) tree.now txn.old list.now steps.old steps.new) }
    ensures refused { IfErr result (RefusesPrepared K.form site.now how rec.now (D.content dev.old) (held tree.now txn.old list.now [])) }
    ensures ticks { IfErr result (Stopped K.form site.now how rec.now (D.content dev.old) tree.now txn.old steps.old steps.new) }
    ensures txn { txn.new ≡ txn.old }
    ensures left { IsLeft D.Device dev.old dev.new steps.old steps.new }
    ensures cause { HasCause is_devices (D.faults dev.old) (D.faults dev.new) result }
    ensures agrees { AgreesTold cache.new (D.content dev.new) }
{
    let read = walked::<K, D, L>(alloc, dev, cache, txn, site, tree, steps)?;
    let mut recs = read.recs;
    let before = read.blocks;
    plan_records::<K>(&mut recs, how, rec)?;
    make::<K, L>(alloc, &recs, &before, site, tree, list, steps)
}
