// A whole event in small, by public calls alone: what the contracts give together.
ghost use Rattle.std.specs.Prelude.{◌≡◌, ◌<◌, ◌≤◌, true, OnOk};
ghost use Rattle.blk_cache.specs.Cache.{AgreesTold};
ghost use Rattle.blk_device.specs.declared.device.Region.TheVariants.{Image, Redo};
ghost use Rattle.geom.specs.Places.{layout};
ghost use Rattle.redo_area.specs.declared.TheConstants.{REDO_BLOCKS};
ghost use Rattle.rmap_recs.specs.Rmap.{is_rec_in_range};
ghost use Rattle.tree_defs.specs.Sites.{site_of};
ghost use Rattle.core_edit.specs.Given.{IsGiven, LeavesEither};

use crate::heads::EditHeads;
use crate::open::OpenEdit;
use crate::stop::Stop;
use blk_cache::BlkCache;
use blk_device::Device;
use byte_fields::Steps;
use geom::Geometry;
use rmap_recs::RmapRec;
use std::alloc::Global;
use std::sync::ledger::Ledger;

/// Gives a run of a group its owner, and writes that: the part of a step of reverse mappings that
/// touches the device. A crash at any moment leaves the image before, or the one after it.
pub fn give_owner<D: Device, L: Ledger>(
    alloc: Global,
    dev: &mut D,
    cache: &mut BlkCache,
    geo: &Geometry,
    edit: &mut OpenEdit,
    g: u32,
    heads: &EditHeads,
    run: &RmapRec,
    steps: &mut Steps<L>,
) -> Result<(), Stop>
    requires group { g < geo.now.agcount }
    requires room { geo.now.dblocks ≤ D.blocks dev.old Image }
    requires redo { REDO_BLOCKS ≤ D.blocks dev.old Redo }
    requires run { is_rec_in_range (site_of (layout geo.now) g).bounds run.now ≡ true }
    requires agreed { AgreesTold cache.old (D.content dev.old) }
    ensures given { OnOk result (IsGiven (layout geo.now) (D.content dev.old) (D.content dev.new) g heads.now run.now edit.new.heads) }
    ensures crash { LeavesEither D.Device dev.old dev.new }
    ensures agrees { OnOk result (AgreesTold cache.new (D.content dev.new)) }
{
    edit.open(dev, cache, geo, g, heads, None, steps)?;
    edit.rmap_add(alloc, dev, cache, geo, run, steps)?;
    edit.close(dev, cache, geo, steps)
}
