ghost use Rattle.std.specs.Prelude.{◌≡◌};

use super::{
    NONE, ONE, geometry, inodes, leaf, piece_at, put_pair, spoiled, three_leaves, tree_block,
};
use crate::same::same;
use blk_cache::BlkCache;
use blk_device::{Device, MemDevice, Region};
use byte_fields::{Block, Steps, put_sum, sum_at};
use dinode_core::{CoreFault, Fork, ForkFault};
use fork_read::{ReadFault, first_fault};
use std::alloc::{AllocError, Global};
use std::collections::BTreeMap;
use std::marker::Brand;
use std::sync::ledger::{Blank, Ledger};
use std::test::Fail;

// The leaves of a wide btree.
const LEAVES: u16 = 36;

fn counted<L: Ledger>(
    alloc: Global,
    device: MemDevice,
    ino: u64,
    blank: Blank,
) -> Result<Option<ForkFault>, ReadFault>
    requires name { blank.name ≡ L.name }
    requires parts { blank.parts ≡ L.parts }
    requires three { blank.parts ≡ 3 }
{
    let geo = geometry();
    let mut device = device;
    if device.size(Region::Image) < geo.dblocks || geo.split_fs_block(ino / 8).is_none() {
        return Err(ReadFault::Failed);
    }
    let Ok(mut cache) = BlkCache::new(alloc, 8) else {
        return Err(ReadFault::Memory);
    };
    let mut steps = Steps::<L>::new(blank);
    first_fault(
        alloc,
        &mut device,
        &mut cache,
        &geo,
        ino,
        Fork::Data,
        &mut steps,
    )
}

// The first fault of the data fork of an inode, for a caller that counts no steps.
fn first_of(alloc: Global, device: MemDevice, ino: u64) -> Result<Option<ForkFault>, ReadFault> {
    let blank = Blank::new(3);
    counted::<Brand>(alloc, device, ino, blank)
}

// The first offset of a leaf: the last leaf begins before the others.
fn first_offset(i: u16) -> u16 {
    if i == 35 { 1 } else { i.wrapping_mul(200) }
}

// A leaf of a wide btree, with 100 mappings, or with so many others where it is the bad one; its sixth
// mapping has no block where it is the spoiled one.
fn wide_leaf(i: u16, bad: u16, spoilt: u16) -> Block {
    let left = if i == 0 { NONE } else { 149 + u64::from(i) };
    let right = if i == 35 { NONE } else { 151 + u64::from(i) };
    let count = if i == bad { 0 } else { 100 };
    let first = first_offset(i);
    let sound = leaf(count, left, right, 150 + u32::from(i), first);
    if i == spoilt {
        return spoiled(sound, 5, 512 * (u64::from(first) + 10), ONE - 1);
    }
    sound
}

// The node above all leaves, in block 42.
fn wide_node() -> Block {
    let mut block = tree_block(1, LEAVES, NONE, NONE, 42);
    for i in 0..18u16 {
        let even = i.wrapping_mul(2);
        let at = 72 + 16 * usize::from(i);
        let low = u64::from(first_offset(even));
        let high = u64::from(first_offset(even.wrapping_add(1)));
        put_pair(&mut block, at, low, high);
        put_pair(
            &mut block,
            2008 + at,
            150 + u64::from(even),
            151 + u64::from(even),
        );
    }
    mended(block)
}

fn mended(block: Block) -> Block {
    let mut block = block;
    let sum = sum_at(&block.bytes, 64);
    put_sum(&mut block.bytes, 64, sum);
    block
}

fn wide(alloc: Global, bad: u16, spoilt: u16) -> Result<MemDevice, AllocError> {
    let mut blocks = BTreeMap::new(alloc);
    blocks.insert(24, inodes(Fork::Data, 2, 1, [(0, 42), (0, 0), (0, 0)]))?;
    blocks.insert(42, wide_node())?;
    for i in 0..LEAVES {
        blocks.insert(150 + u64::from(i), wide_leaf(i, bad, spoilt))?;
    }
    MemDevice::with_image(alloc, 320, 1, blocks, Vec::new(alloc))
}

#[test]
fn a_stuck_forks_first_fault_lies_behind(rt: HostRuntime) -> Result<(), Fail> {
    let alloc = rt.alloc();
    // No piece can begin behind the third leaf, since the last leaf's key is left. 28 sound leaves behind
    // it don't show the first fault: a bad leaf, a mapping without a block, and where all leaves are
    // sound the last one's first mapping, behind which the offsets fall.
    for (bad, spoilt, fault) in [
        (33, 99, ForkFault::Block),
        (33, 32, ForkFault::Range),
        (99, 34, ForkFault::Range),
        (99, 99, ForkFault::Order),
    ] {
        let piece = piece_at(alloc, wide(alloc, bad, spoilt)?, Fork::Data, 0).err();
        same(&rt, piece, Some(ReadFault::Fork(ForkFault::Order)));
        let found = first_of(alloc, wide(alloc, bad, spoilt)?, 195);
        same(&rt, found, Ok(Some(fault)));
    }
    Ok(())
}

#[test]
fn good_forks_have_no_first_fault(rt: HostRuntime) -> Result<(), Fail> {
    let alloc = rt.alloc();
    let found = first_of(alloc, three_leaves(alloc, Fork::Data, ONE)?, 195);
    same(&rt, found, Ok(None));
    // The second leaf's last mapping passes the third leaf's first offset.
    let found = first_of(alloc, three_leaves(alloc, Fork::Data, ONE + 2)?, 195);
    same(&rt, found, Ok(Some(ForkFault::Overlap)));
    // The slot before has no inode.
    let found = first_of(alloc, three_leaves(alloc, Fork::Data, ONE)?, 194);
    same(&rt, found, Err(ReadFault::Core(CoreFault::Magic)));
    Ok(())
}
