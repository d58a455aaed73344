ghost use Rattle.std.specs.Prelude.{◌≡◌, ◌+◌, ◌*◌, ◌<◌, ◌≤◌, length, Some, IfOk};
ghost use Rattle.blk_device.specs.Causes.{HasCause};
ghost use Rattle.blk_device.specs.Contents.{Contents};
ghost use Rattle.blk_device.specs.Reading.{OnlyRead};
ghost use Rattle.blk_device.specs.declared.device.Region.TheVariants.{Image};
ghost use Rattle.byte_fields.specs.Fields.{field};
ghost use Rattle.dinode_core.specs.Core.{core_of};
ghost use Rattle.fork_pass.specs.Counted.{fork_most, inode_most, slot_most};
ghost use Rattle.fork_pass.specs.Read.{IsInodeRead, IsRestRead};
ghost use Rattle.fork_pass.specs.Told.{CountsMost, SeesAllocated, SeesSlot};
ghost use Rattle.fs_state.specs.Inodes.{slot_in};
ghost use Rattle.geom.specs.Places.{layout};
ghost use Rattle.inode_pass.specs.Stops.{is_failed};

use crate::fork::{ForkRead, see_fork};
use crate::pieces::put_blocks;
use blk_device::Device;
use byte_fields::{Block, Steps, get_u16};
use dinode_core::{Core3, Fork, ForkFault, read_core};
use fs_model::Evidence;
use geom::Geometry;
use inode_pass::PassStop;
use std::alloc::Global;
use std::sync::ledger::Ledger;
use unit_plan::ClaimSet;

// The mode that the inode in a slot of its block states.
fn mode_in(block: &Block, slot: u32) -> u16
    requires { slot < 8 }
    ensures { result ≡ field 2 (slot_in block.now.bytes slot) 2 }
{
    let (_, rest) = block.bytes.split_at(512 * slot as usize);
    let (own, _) = rest.split_at(512);
    get_u16(own, 2)
}

// What the fields of the inode in a slot of its block say.
fn core_at(block: &Block, slot: u32) -> Core3
    requires { slot < 8 }
    ensures { result ≡ core_of (slot_in block.now.bytes slot) }
{
    let (_, rest) = block.bytes.split_at(512 * slot as usize);
    let (own, _) = rest.split_at(512);
    read_core(own)
}

// Reads the attribute fork of a core, and puts what it claims and these blocks of the data fork's
// btree; or says its first fault.
fn see_rest<D: Device, L: Ledger>(
    alloc: Global,
    dev: &mut D,
    geo: &Geometry,
    core: &Core3,
    blocks: &[u64],
    sets: &mut [ClaimSet],
    steps: &mut Steps<L>,
) -> Result<Option<ForkFault>, PassStop>
    requires room { geo.now.dblocks ≤ D.blocks dev.old Image }
    requires groups { length sets.old ≡ geo.now.agcount }
    ensures exact { IfOk result (λ found. (c : Contents) → D.content dev.old ≡ Some c → IsRestRead (layout geo.now) (c Image) core.now blocks.now sets.old sets.new found) }
    ensures groups { length sets.new ≡ length sets.old }
    ensures each { CountsMost (D.content dev.old) (λ c. fork_most (layout geo.now) (c Image) core.now Fork.Attr) steps.old.reads steps.new.reads }
    ensures reading { OnlyRead D.Device dev.old dev.new steps.old steps.new }
    ensures cause { HasCause is_failed (D.faults dev.old) (D.faults dev.new) result }
{
    let attr = see_fork(alloc, dev, geo, core, Fork::Attr, sets, steps)?;
    let own = match attr {
        ForkRead::Blocks(own) => own,
        ForkRead::Bad(fault) => return Ok(Some(fault)),
    };
    put_blocks(sets, geo, Fork::Data, core.ino, blocks)?;
    put_blocks(sets, geo, Fork::Attr, core.ino, own.as_slice())?;
    Ok(None)
}

// Reads both forks of a core, and puts what they claim; or says the first fault, the data fork's
// before the other's.
fn see_inode<D: Device, L: Ledger>(
    alloc: Global,
    dev: &mut D,
    geo: &Geometry,
    core: &Core3,
    sets: &mut [ClaimSet],
    steps: &mut Steps<L>,
) -> Result<Option<ForkFault>, PassStop>
    requires room { geo.now.dblocks ≤ D.blocks dev.old Image }
    requires groups { length sets.old ≡ geo.now.agcount }
    ensures exact { IfOk result (λ found. (c : Contents) → D.content dev.old ≡ Some c → IsInodeRead (layout geo.now) (c Image) core.now sets.old sets.new found) }
    ensures groups { length sets.new ≡ length sets.old }
    ensures each { CountsMost (D.content dev.old) (λ c. inode_most (layout geo.now) (c Image) core.now) steps.old.reads steps.new.reads }
    ensures reading { OnlyRead D.Device dev.old dev.new steps.old steps.new }
    ensures cause { HasCause is_failed (D.faults dev.old) (D.faults dev.new) result }
{
    let data = see_fork(alloc, dev, geo, core, Fork::Data, sets, steps)?;
    match data {
        ForkRead::Bad(fault) => Ok(Some(fault)),
        ForkRead::Blocks(blocks) => {
            see_rest(alloc, dev, geo, core, blocks.as_slice(), sets, steps)
        }
    }
}

// Reads both forks of the inode of this number, whose core verifies.
fn see_allocated<D: Device, L: Ledger>(
    alloc: Global,
    dev: &mut D,
    geo: &Geometry,
    core: &Core3,
    ino: u64,
    sets: &mut [ClaimSet],
    steps: &mut Steps<L>,
) -> Result<Option<Evidence>, PassStop>
    requires room { geo.now.dblocks ≤ D.blocks dev.old Image }
    requires groups { length sets.old ≡ geo.now.agcount }
    ensures exact { SeesAllocated (layout geo.now) (D.content dev.old) core.now ino sets.old result sets.new }
    ensures groups { length sets.new ≡ length sets.old }
    ensures each { CountsMost (D.content dev.old) (λ c. inode_most (layout geo.now) (c Image) core.now) steps.old.reads steps.new.reads }
    ensures reading { OnlyRead D.Device dev.old dev.new steps.old steps.new }
    ensures cause { HasCause is_failed (D.faults dev.old) (D.faults dev.new) result }
{
    let found = see_inode(alloc, dev, geo, core, sets, steps)?;
    match found {
        None => Ok(None),
        Some(fault) => Ok(Some(Evidence::BadFork { ino, fault })),
    }
}

/// Reads both forks of the inode in a slot of its block, whose core verifies, and puts what they claim
/// into the sets of the groups; or says why they can't be read. A free inode, whose mode is 0, has no
/// forks (XFS Algorithms and Data Structures, "On-disk Inode").
pub fn see_slot<D: Device, L: Ledger>(
    alloc: Global,
    dev: &mut D,
    geo: &Geometry,
    block: &Block,
    ino: u64,
    slot: u32,
    sets: &mut [ClaimSet],
    steps: &mut Steps<L>,
) -> Result<Option<Evidence>, PassStop>
    requires slot { slot < 8 }
    requires room { geo.now.dblocks ≤ D.blocks dev.old Image }
    requires groups { length sets.old ≡ geo.now.agcount }
    ensures exact { SeesSlot (layout geo.now) (D.content dev.old) (slot_in block.now.bytes slot) ino sets.old result sets.new }
    ensures groups { length sets.new ≡ length sets.old }
    ensures each { CountsMost (D.content dev.old) (λ c. slot_most (layout geo.now) (c Image) (slot_in block.now.bytes slot)) steps.old.reads steps.new.reads }
    ensures reading { OnlyRead D.Device dev.old dev.new steps.old steps.new }
    ensures cause { HasCause is_failed (D.faults dev.old) (D.faults dev.new) result }
{
    if mode_in(block, slot) == 0 {
        return Ok(None);
    }
    // The pass over the cores tested it, and what an inode claims is told of one that verifies alone.
    let core = core_at(block, slot);
    see_allocated(alloc, dev, geo, &core, ino, sets, steps)
}
