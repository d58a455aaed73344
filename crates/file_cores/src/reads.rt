// Blocks of inodes, read through the cache.
ghost use Rattle.std.specs.Prelude.{◌<◌, ◌≤◌};
ghost use Rattle.blk_cache.specs.Cache.{AgreesTold};
ghost use Rattle.blk_device.specs.declared.device.Region.TheVariants.{Image};
ghost use Rattle.file_cores.specs.Looks.{Looks, failed_in};
ghost use Rattle.geom.specs.Places.{HasBlock};

use crate::stop::FileStop;
use blk_cache::BlkCache;
use blk_device::Device;
use byte_fields::{Block, Steps};
use geom::Geometry;
use std::sync::ledger::Ledger;

/// Reads block `b` of group `g` into one that is lent.
#[tactic(auto, using(crate::proofs::LookLemmas::got_looks, crate::proofs::LookLemmas::inside_image))]
pub(crate) fn load<D: Device, L: Ledger>(
    dev: &mut D,
    cache: &mut BlkCache,
    geo: &Geometry,
    place: (u32, u32),
    into: &mut Block,
    steps: &mut Steps<L>,
) -> Result<(), FileStop>
    requires place { HasBlock geo.now place.0 place.1 }
    requires room { geo.now.dblocks ≤ D.blocks dev.old Image }
    requires agreed { AgreesTold cache.old (D.content dev.old) }
    ensures looks { Looks D.Device (failed_in result) dev.old dev.new cache.new }
{
    let at = geo.device_block(place.0, place.1);
    steps.block_read();
    match cache.get(dev, at, into) {
        Ok(()) => Ok(()),
        Err(_) => Err(FileStop::Failed),
    }
}
