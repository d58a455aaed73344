// The change of three trees, written as one.
ghost use Rattle.std.specs.Prelude.{◌≡◌, ◌<◌, ◌≤◌, true};
ghost use Rattle.ag_headers.specs.Ring.{entries};
ghost use Rattle.blk_cache.specs.Cache.{AgreesTold};
ghost use Rattle.blk_device.specs.declared.device.Region.TheVariants.{Image, Redo};
ghost use Rattle.geom.specs.Places.{layout};
ghost use Rattle.redo_area.specs.declared.TheConstants.{REDO_BLOCKS};
ghost use Rattle.rmap_recs.specs.Rmap.{rmap_form};
ghost use Rattle.sblock.specs.declared.kind.Kind.TheVariants.{Bno, Cnt, Rmap};
ghost use Rattle.tree_defs.specs.Sites.{site_of};
ghost use Rattle.test_three_trees.specs.Given.{IsGiven};

use crate::change::change_trees;
use ag_headers::Agfl;
use blk_cache::BlkCache;
use blk_device::Device;
use byte_fields::Steps;
use geom::Geometry;
use meta_txn::Txn;
use rmap_recs::RmapRec;
use span_recs::SpanRec;
use std::alloc::Global;
use std::sync::ledger::Ledger;
use tree_blocks::TreeAt;
use tree_edit::EditFault;

/// Gives a free run of a group to an owner, and writes that. A crash at any moment leaves the image
/// before, or the changed one, where no batch waited and all writes were synced; and whichever it is,
/// each tree of the group whose blocks are none of the three trees' and of the free list's is read as
/// before.
pub fn give_run<D: Device, L: Ledger>(
    alloc: Global,
    dev: &mut D,
    cache: &mut BlkCache,
    geo: &Geometry,
    bno: &mut TreeAt,
    cnt: &mut TreeAt,
    rmap: &mut TreeAt,
    list: &mut Agfl,
    limbo: &mut Vec<u32>,
    run: SpanRec,
    owned: RmapRec,
    steps: &mut Steps<L>,
) -> Result<(), EditFault>
    requires kinds { (bno.old.kind ≡ Bno) × (cnt.old.kind ≡ Cnt) × (rmap.old.kind ≡ Rmap) }
    requires group { bno.old.group < geo.now.agcount }
    requires groups { (cnt.old.group ≡ bno.old.group) × (rmap.old.group ≡ bno.old.group) }
    requires room { geo.now.dblocks ≤ D.blocks dev.old Image }
    requires redo { REDO_BLOCKS ≤ D.blocks dev.old Redo }
    requires inside { rmap_form.is_in_range (site_of (layout geo.now) bno.old.group).bounds owned ≡ true }
    requires agreed { AgreesTold cache.old (D.content dev.old) }
    ensures given { IsGiven D.Device dev.old dev.new (site_of (layout geo.now) bno.old.group) bno.old cnt.old rmap.old (entries list.old) result }
{
    let mut txn = Txn::new(alloc)?;
    change_trees(
        alloc, dev, cache, geo, &mut txn, bno, cnt, rmap, list, limbo, run, owned, steps,
    )?;
    Ok(txn.commit(dev, cache, steps)?)
}
