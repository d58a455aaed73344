ghost use Rattle.std.specs.Prelude.{◌≡◌, ◌/◌, ◌<◌, ◌≤◌, length};
ghost use Rattle.blk_device.specs.Causes.{HasCause};
ghost use Rattle.blk_device.specs.Reading.{OnlyRead};
ghost use Rattle.blk_device.specs.declared.device.Region.TheVariants.{Image};
ghost use Rattle.fork_pass.specs.Counted.{block_most};
ghost use Rattle.fork_pass.specs.Passed.{block_inodes};
ghost use Rattle.fork_pass.specs.Told.{CountsMost, PassesChunk};
ghost use Rattle.geom.specs.Layout.{group_len_of, inode_at};
ghost use Rattle.geom.specs.Places.{HasBlock, layout};
ghost use Rattle.inode_pass.specs.Stops.{is_failed};

use crate::inode::see_slot;
use blk_device::Device;
use byte_fields::{Block, Steps};
use fs_model::Evidence;
use geom::{Geometry, InodePlace};
use inode_pass::{PassStop, read_block};
use std::alloc::Global;
use std::sync::ledger::Ledger;
use unit_plan::ClaimSet;

/// The inodes of a block (XFS Algorithms and Data Structures, "On-disk Inode").
pub const BLOCK_INODES: u32 = 8;

// The number of the inode in a slot of a group's block.
fn number_of(geo: &Geometry, g: u32, b: u32, slot: u32) -> u64
    requires block { HasBlock geo.now g b }
    requires slot { slot < 8 }
    ensures { result ≡ inode_at (layout geo.now) g b slot }
{
    geo.inode_number(InodePlace {
        group: g,
        block: b,
        slot: slot as u8,
    })
}

/// Passes the eight inodes of a group's block, which is read once, into a block that is lent: what their
/// forks claim is put into the sets of the groups, up to the first fork that can't be read
/// (XFS Algorithms and Data Structures, "On-disk Inode").
pub fn pass_block<D: Device, L: Ledger>(
    alloc: Global,
    dev: &mut D,
    geo: &Geometry,
    g: u32,
    b: u32,
    block: &mut Block,
    sets: &mut [ClaimSet],
    steps: &mut Steps<L>,
) -> Result<Option<Evidence>, PassStop>
    requires group { g < geo.now.agcount }
    requires block { b < group_len_of (layout geo.now) g }
    requires room { geo.now.dblocks ≤ D.blocks dev.old Image }
    requires groups { length sets.old ≡ geo.now.agcount }
    ensures exact { PassesChunk (layout geo.now) (D.content dev.old) g (b / 8) (block_inodes (layout geo.now) g b) sets.old result sets.new }
    ensures groups { length sets.new ≡ length sets.old }
    ensures each { CountsMost (D.content dev.old) (λ c. block_most (layout geo.now) (c Image) g b) steps.old.reads steps.new.reads }
    ensures reading { OnlyRead D.Device dev.old dev.new steps.old steps.new }
    ensures cause { HasCause is_failed (D.faults dev.old) (D.faults dev.new) result }
{
    let at = geo.device_block(g, b);
    read_block(dev, at, block, steps)?;
    for slot in 0..BLOCK_INODES {
        let ino = number_of(geo, g, b, slot);
        match see_slot(alloc, dev, geo, block, ino, slot, sets, steps)? {
            None => {}
            Some(found) => return Ok(Some(found)),
        }
    }
    Ok(None)
}
