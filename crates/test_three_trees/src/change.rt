// Three trees of a group, changed in a transaction.
ghost use Rattle.std.specs.Prelude.{◌≡◌, ◌<◌, ◌≤◌, true, OnOk, IfErr};
ghost use Rattle.blk_cache.specs.Cache.{AgreesTold};
ghost use Rattle.blk_device.specs.declared.device.Region.TheVariants.{Image};
ghost use Rattle.geom.specs.Places.{layout};
ghost use Rattle.meta_txn.specs.Joined.{AreBelow};
ghost use Rattle.rmap_recs.specs.Rmap.{rmap_form};
ghost use Rattle.sblock.specs.declared.kind.Kind.TheVariants.{Bno, Cnt, Rmap};
ghost use Rattle.tree_defs.specs.Sites.{site_of};
ghost use Rattle.tree_edit.specs.Device.{IsLeft};
ghost use Rattle.test_three_trees.specs.Given.{ChangesIn};

use ag_headers::Agfl;
use blk_cache::BlkCache;
use blk_device::Device;
use byte_fields::Steps;
use geom::Geometry;
use meta_txn::Txn;
use rmap_recs::{RmapKind, RmapRec};
use span_recs::{BnoKind, CntKind, SpanRec};
use std::alloc::Global;
use std::sync::ledger::Ledger;
use tree_blocks::TreeAt;
use tree_edit::{EditFault, insert, remove};

/// Takes a run out of both trees of free space, and puts in who owns it now, all in one transaction;
/// refused as the first of the three edits that is refused.
pub(crate) fn change_trees<D: Device, L: Ledger>(
    alloc: Global,
    dev: &mut D,
    cache: &mut BlkCache,
    geo: &Geometry,
    txn: &mut Txn,
    bno: &mut TreeAt,
    cnt: &mut TreeAt,
    rmap: &mut TreeAt,
    list: &mut Agfl,
    limbo: &mut Vec<u32>,
    run: SpanRec,
    owned: RmapRec,
    steps: &mut Steps<L>,
) -> Result<(), EditFault>
    requires kinds { (bno.old.kind ≡ Bno) × (cnt.old.kind ≡ Cnt) × (rmap.old.kind ≡ Rmap) }
    requires group { bno.old.group < geo.now.agcount }
    requires groups { (cnt.old.group ≡ bno.old.group) × (rmap.old.group ≡ bno.old.group) }
    requires room { geo.now.dblocks ≤ D.blocks dev.old Image }
    requires inside { rmap_form.is_in_range (site_of (layout geo.now) bno.old.group).bounds owned ≡ true }
    requires agreed { AgreesTold cache.old (D.content dev.old) }
    ensures changed { OnOk result (ChangesIn geo.now run owned (D.content dev.old) bno.old cnt.old rmap.old txn.old list.old txn.new) }
    ensures below { AreBelow (D.blocks dev.old Image) txn.old.blocks → OnOk result (AreBelow (D.blocks dev.old Image) txn.new.blocks) }
    ensures left { IsLeft D.Device dev.old dev.new steps.old steps.new }
    ensures agrees { AgreesTold cache.new (D.content dev.new) }
{
    remove::<BnoKind, D, L>(alloc, dev, cache, geo, txn, bno, list, limbo, run, steps)?;
    remove::<CntKind, D, L>(alloc, dev, cache, geo, txn, cnt, list, limbo, run, steps)?;
    insert::<RmapKind, D, L>(alloc, dev, cache, geo, txn, rmap, list, limbo, owned, steps)
}
