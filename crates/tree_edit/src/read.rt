// A tree's records and blocks as a transaction has them.
ghost use Rattle.std.specs.Prelude.{◌≡◌, ◌+◌, ◌*◌, ◌^◌, ◌<◌, ◌≤◌, length, IfOk, IfErr};
ghost use Rattle.blk_cache.specs.Cache.{AgreesTold};
ghost use Rattle.blk_device.specs.Causes.{HasCause};
ghost use Rattle.blk_device.specs.Reading.{OnlyRead};
ghost use Rattle.blk_device.specs.declared.device.Region.TheVariants.{Image};
ghost use Rattle.tree_defs.specs.Tree.{read_tree};
ghost use Rattle.tree_walk.specs.Trails.{AreSound, LieInside};
ghost use Rattle.txn_blocks.specs.Through.{OfEdited};
ghost use Rattle.tree_edit.specs.Faults.{is_devices};
ghost use Rattle.tree_edit.specs.Reads.{ReadsAs, IsOfWalk, StopsTree};

use crate::fault::EditFault;
use blk_cache::BlkCache;
use blk_device::Device;
use byte_fields::Steps;
use meta_txn::Txn;
use sblock::RecKind;
use std::alloc::Global;
use std::sync::ledger::Ledger;
use tree_blocks::{TreeAt, TreeRead};
use tree_defs::Site;
use txn_blocks::{Edited, walk_edited};

// The records and blocks of the tree, or its first fault; nothing is joined.
pub(crate) fn walked<K: RecKind, D: Device, L: Ledger>(
    alloc: Global,
    dev: &mut D,
    cache: &mut BlkCache,
    txn: &mut Txn,
    site: &Site,
    tree: &TreeAt,
    steps: &mut Steps<L>,
) -> Result<TreeRead<K::Rec>, EditFault>
    requires room { site.now.first + site.now.bounds.length ≤ D.blocks dev.old Image }
    requires fits { 8 * (site.now.first + site.now.bounds.length) < 2 ^ 64 }
    requires agreed { AgreesTold cache.old (D.content dev.old) }
    ensures read { OfEdited site.now txn.old (D.content dev.old) (λ m. ReadsAs (read_tree K.form site.now m tree.now.root tree.now.levels) result) }
    ensures sound { IfOk result (λ read. AreSound K.form site.now.bounds read.recs.items) }
    ensures lie { IfOk result (λ read. LieInside site.now.bounds.length read.blocks.items) }
    ensures kind { IfErr result IsOfWalk }
    ensures txn { txn.new ≡ txn.old }
    ensures stops { OfEdited site.now txn.old (D.content dev.old) (λ m. StopsTree K.form site.now m tree.now steps.old.reads steps.new.reads result) }
    ensures each { IfOk result (λ read. steps.new.reads ≡ steps.old.reads + length read.blocks.items) }
    ensures reading { OnlyRead D.Device dev.old dev.new steps.old steps.new }
    ensures cause { HasCause is_devices (D.faults dev.old) (D.faults dev.new) result }
    ensures agrees { AgreesTold cache.new (D.content dev.new) }
{
    let mut blocks = Edited {
        dev,
        cache,
        txn,
        site: *site,
        steps,
    };
    Ok(walk_edited::<K, D, L>(alloc, &mut blocks, tree)?)
}
