ghost use Rattle.std.specs.Prelude.{◌≡◌, ◌+◌, ◌*◌, ◌/◌, ◌%◌, ◌<◌, ◌≤◌, is_some, true, Some, None, IfOk, IfErr, take, drop};
ghost use Rattle.blk_cache.specs.Cache.{AgreesTold};
ghost use Rattle.blk_device.specs.Causes.{HasCause};
ghost use Rattle.blk_device.specs.Contents.{Contents};
ghost use Rattle.blk_device.specs.Reading.{OnlyRead};
ghost use Rattle.blk_device.specs.declared.device.Region.TheVariants.{Image};
ghost use Rattle.geom.specs.Layout.{split_of};
ghost use Rattle.geom.specs.Places.{layout};
ghost use Rattle.fork_read.specs.Answers.{is_failed};
ghost use Rattle.fork_read.specs.Pieces.{inode_bytes, slot_bytes, CachesAt, CachesInode, DecodesCore, IsCore};

use crate::fault::ReadFault;
use blk_cache::BlkCache;
use blk_device::Device;
use byte_fields::{Block, Steps};
use dinode_core::{Core3, CoreFault, decode_core};
use geom::Geometry;
use std::sync::ledger::Ledger;

// The core in the inode's slot of its block.
fn core_in(block: &Block, ino: u64, geo: &Geometry) -> Result<Core3, CoreFault>
    ensures { DecodesCore (slot_bytes block.now.bytes (ino % 8)) ino geo.now.uuid result }
{
    let slot = (ino % 8) as usize;
    let (_, rest) = block.bytes.split_at(512 * slot);
    let (own, _) = rest.split_at(512);
    decode_core(own, ino, &geo.uuid)
}

// Reads the block of an inode, through the cache.
fn load<D: Device, L: Ledger>(
    dev: &mut D,
    cache: &mut BlkCache,
    at: u64,
    steps: &mut Steps<L>,
) -> Result<Block, ReadFault>
    requires inside { at < D.blocks dev.old Image }
    requires agreed { AgreesTold cache.old (D.content dev.old) }
    ensures told { IfOk result (λ block. (c : Contents) → D.content dev.old ≡ Some c → block.bytes ≡ c Image at) }
    ensures failed { IfErr result (λ fault. fault ≡ ReadFault.Failed) }
    ensures reading { OnlyRead D.Device dev.old dev.new steps.old steps.new }
    ensures cause { HasCause is_failed (D.faults dev.old) (D.faults dev.new) result }
    ensures agrees { AgreesTold cache.new (D.content dev.new) }
    ensures cached { CachesAt at cache.old cache.new }
    ensures one { steps.new.reads ≡ steps.old.reads + 1 }
{
    let mut block = Block::zeroed();
    steps.block_read();
    cache.get(dev, at, &mut block)?;
    Ok(block)
}

/// Reads the core of an inode, through the cache.
pub fn load_core<D: Device, L: Ledger>(
    dev: &mut D,
    cache: &mut BlkCache,
    geo: &Geometry,
    ino: u64,
    steps: &mut Steps<L>,
) -> Result<Core3, ReadFault>
    requires place { is_some (split_of (layout geo.now) (ino / 8)) ≡ true }
    requires room { geo.now.dblocks ≤ D.blocks dev.old Image }
    requires agreed { AgreesTold cache.old (D.content dev.old) }
    ensures core { (c : Contents) → D.content dev.old ≡ Some c → IsCore (inode_bytes (layout geo.now) (c Image) ino) ino geo.now.uuid result }
    ensures reading { OnlyRead D.Device dev.old dev.new steps.old steps.new }
    ensures cause { HasCause is_failed (D.faults dev.old) (D.faults dev.new) result }
    ensures agrees { AgreesTold cache.new (D.content dev.new) }
    ensures cached { CachesInode (layout geo.now) ino cache.old cache.new }
    ensures one { steps.new.reads ≡ steps.old.reads + 1 }
{
    let Some(place) = geo.split_fs_block(ino / 8) else {
        unreachable!()
    };
    let at = geo.device_block(place.0, place.1);
    let block = load(dev, cache, at, steps)?;
    Ok(core_in(&block, ino, geo)?)
}
