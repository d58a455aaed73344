// Pieces of forks whose btrees are laid out by hand.
ghost use Rattle.std.specs.Prelude.{◌≡◌, ◌≤◌};

use super::same::{same, same_in_row};
use blk_cache::BlkCache;
use blk_device::{Device, MemDevice, Region};
use byte_fields::{Block, Steps, put_sum, put_u16, put_u32, put_u64, sum_at};
use dinode_core::{Fork, ForkFault};
use fork_read::{ForkPiece, ReadFault, fork_piece};
use geom::Geometry;
use std::alloc::{AllocError, Global};
use std::collections::BTreeMap;
use std::marker::Brand;
use std::sync::ledger::{Blank, Ledger};
use std::test::Fail;

mod first;

// No sibling.
const NONE: u64 = 0xffff_ffff_ffff_ffff;

// The bytes 1 to 16, as two numbers.
const UUID: (u64, u64) = (0x0102_0304_0506_0708, 0x090a_0b0c_0d0e_0f10);

// One block from block 100 on.
const ONE: u64 = (100 << 21) + 1;

/// Two groups, of 256 blocks and of 64, so that a file system block is the block of that number.
pub fn geometry() -> Geometry
    ensures groups { result.agcount ≡ 2 }
    ensures group { result.agblocks ≡ 256 }
    ensures blocks { result.dblocks ≡ 320 }
{
    Geometry {
        agblocks: 256,
        agcount: 2,
        dblocks: 320,
        agblklog: 8,
        uuid: [1, 2, 3, 4, 5, 6, 7, 8, 9, 10, 11, 12, 13, 14, 15, 16],
        log: None,
        kept: [0; 6],
        inobtcount: false,
    }
}

fn mend(block: &mut Block) {
    let sum = sum_at(&block.bytes, 64);
    put_sum(&mut block.bytes, 64, sum);
}

// A block of the btree of inode 195: its level, the count of its records, its siblings and its place.
fn tree_block(level: u16, count: u16, left: u64, right: u64, at: u32) -> Block {
    let mut block = Block::zeroed();
    let bytes = &mut block.bytes;
    put_u32(bytes, 0, 0x424d_4133);
    put_u16(bytes, 4, level);
    put_u16(bytes, 6, count);
    put_u64(bytes, 8, left);
    put_u64(bytes, 16, right);
    put_u64(bytes, 24, 8 * u64::from(at));
    put_u64(bytes, 40, UUID.0);
    put_u64(bytes, 48, UUID.1);
    put_u64(bytes, 56, 195);
    block
}

// Writes two words into a block.
fn put_pair(block: &mut Block, at: usize, high: u64, low: u64) {
    if at <= 4080 {
        put_u64(&mut block.bytes, at, high);
        put_u64(&mut block.bytes, at + 8, low);
    }
}

// A leaf with so many mappings of one block: offsets from this one on, every second one.
fn leaf(count: u16, left: u64, right: u64, at: u32, first: u16) -> Block {
    let mut block = tree_block(0, count, left, right, at);
    for i in 0..count {
        let offset = u64::from(first) + 2 * u64::from(i);
        put_pair(&mut block, 72 + 16 * usize::from(i), 512 * offset, ONE);
    }
    mend(&mut block);
    block
}

// A leaf of which one mapping is another.
fn spoiled(leaf: Block, i: u8, high: u64, low: u64) -> Block {
    let mut block = leaf;
    put_pair(&mut block, 72 + 16 * usize::from(i), high, low);
    mend(&mut block);
    block
}

// A node with two subtrees, without siblings.
fn node(level: u16, count: u16, at: u32, first: (u64, u64), second: (u64, u64)) -> Block {
    let mut block = tree_block(level, count, NONE, NONE, at);
    put_pair(&mut block, 72, first.0, second.0);
    put_pair(&mut block, 72 + 8 * 251, first.1, second.1);
    mend(&mut block);
    block
}

// Where a btree's root and its pointers stand in the inode.
fn root_places(fork: Fork) -> (usize, usize)
    ensures root { result.0 ≤ 368 }
    ensures pointers { result.1 ≤ 436 }
{
    match fork {
        Fork::Data => (176, 340),
        Fork::Attr => (368, 436),
    }
}

// The inode 195 up to its forks.
fn inode_head(fork: Fork) -> [u8; 512] {
    let mut bytes = [0; 512];
    put_u32(&mut bytes, 0, 0x494e_81a4);
    match fork {
        Fork::Data => put_u16(&mut bytes, 4, 0x0303),
        Fork::Attr => {
            put_u16(&mut bytes, 4, 0x0302);
            put_u32(&mut bytes, 80, 0x000d_1803);
        }
    }
    put_u64(&mut bytes, 152, 195);
    put_u64(&mut bytes, 160, UUID.0);
    put_u64(&mut bytes, 168, UUID.1);
    bytes
}

// Block 24, whose slot 3 has inode 195 with a root of this level, of so many keys, of which three are
// here beside the blocks that they lead to.
fn inodes(fork: Fork, level: u16, keys: u16, entries: [(u64, u64); 3]) -> Block {
    let mut block = Block::zeroed();
    let mut bytes = inode_head(fork);
    let (root, pointers) = root_places(fork);
    put_u16(&mut bytes, root, level);
    put_u16(&mut bytes, root + 2, keys);
    put_u64(&mut bytes, root + 4, entries[0].0);
    put_u64(&mut bytes, root + 12, entries[1].0);
    put_u64(&mut bytes, root + 20, entries[2].0);
    put_u64(&mut bytes, pointers, entries[0].1);
    put_u64(&mut bytes, pointers + 8, entries[1].1);
    put_u64(&mut bytes, pointers + 16, entries[2].1);
    let sum = sum_at(&bytes, 100);
    put_sum(&mut bytes, 100, sum);
    block.bytes[1536..2048].copy_from_slice(&bytes);
    block
}

// A device with that block, and with blocks of the btree: 40 to 42, and block 5 of group 1.
fn device_of(
    alloc: Global,
    inodes: Block,
    first: Block,
    second: Block,
    third: Block,
) -> Result<MemDevice, AllocError> {
    let mut blocks = BTreeMap::new(alloc);
    blocks.insert(24, inodes)?;
    blocks.insert(40, first)?;
    blocks.insert(41, second)?;
    blocks.insert(42, third)?;
    blocks.insert(261, leaf(12, NONE, NONE, 261, 0))?;
    MemDevice::with_image(alloc, 320, 1, blocks, Vec::new(alloc))
}

fn counted<L: Ledger>(
    alloc: Global,
    device: MemDevice,
    fork: Fork,
    from: u64,
    blank: Blank,
) -> Result<ForkPiece, ReadFault>
    requires name { blank.name ≡ L.name }
    requires parts { blank.parts ≡ L.parts }
    requires three { blank.parts ≡ 3 }
{
    let geo = geometry();
    let mut device = device;
    if device.size(Region::Image) < geo.dblocks || geo.split_fs_block(24).is_none() {
        return Err(ReadFault::Failed);
    }
    let Ok(mut cache) = BlkCache::new(alloc, 8) else {
        return Err(ReadFault::Memory);
    };
    let mut steps = Steps::<L>::new(blank);
    fork_piece(
        alloc,
        &mut device,
        &mut cache,
        &geo,
        195,
        fork,
        from,
        &mut steps,
    )
}

// The piece of a fork of inode 195, for a caller that counts no steps.
fn piece_at(
    alloc: Global,
    device: MemDevice,
    fork: Fork,
    from: u64,
) -> Result<ForkPiece, ReadFault> {
    let blank = Blank::new(3);
    counted::<Brand>(alloc, device, fork, from, blank)
}

// A btree of three leaves: two full ones, the second's last mapping with this low word, and one with a
// mapping alone.
fn three_leaves(alloc: Global, fork: Fork, low: u64) -> Result<MemDevice, AllocError> {
    let full = leaf(251, 40, 42, 41, 502);
    device_of(
        alloc,
        inodes(fork, 1, 3, [(0, 40), (502, 41), (1004, 42)]),
        leaf(251, NONE, 41, 40, 0),
        spoiled(full, 250, 512 * 1002, low),
        leaf(1, 41, NONE, 42, 1004),
    )
}

#[test]
fn pieces_go_through_three_leaves(rt: HostRuntime) -> Result<(), Fail> {
    let alloc = rt.alloc();
    for fork in [Fork::Data, Fork::Attr] {
        // From where, how many mappings come, how many blocks, and what is left: at the beginning, in
        // and behind a mapping, at a leaf's last one and behind it, at a leaf's first one, and behind
        // all.
        for (from, count, blocks, next) in [
            (0, 502, 2, Some(1004)),
            (1, 501, 1, Some(1004)),
            (2, 501, 1, Some(1004)),
            (500, 253, 2, None),
            (501, 252, 2, None),
            (502, 252, 2, None),
            (1002, 2, 1, None),
            (1004, 1, 1, None),
            (1005, 0, 0, None),
        ] {
            let piece = piece_at(alloc, three_leaves(alloc, fork, ONE)?, fork, from)?;
            same_in_row(&rt, from, piece.mappings.len(), count);
            same_in_row(&rt, from, piece.tree_blocks.len(), blocks);
            same_in_row(&rt, from, piece.next, next);
        }
    }
    Ok(())
}

#[test]
fn a_full_leafs_last_mapping_overlaps(rt: HostRuntime) -> Result<(), Fail> {
    let alloc = rt.alloc();
    // Its last mapping passes the first offset of the leaf behind it.
    for from in [0, 2, 500, 501, 502, 1002, 1004] {
        let device = three_leaves(alloc, Fork::Data, ONE + 2)?;
        let found = piece_at(alloc, device, Fork::Data, from).err();
        same_in_row(&rt, from, found, Some(ReadFault::Fork(ForkFault::Overlap)));
    }
    Ok(())
}

// A root of two subtrees: at offset 0 from block 40 on, and at offset 30 from the other block on.
fn two_leaves(
    alloc: Global,
    inodes: Block,
    first: Block,
    second: (u16, u64, u16),
) -> Result<MemDevice, AllocError> {
    device_of(
        alloc,
        inodes,
        first,
        leaf(second.0, 40, second.1, 41, second.2),
        Block::zeroed(),
    )
}

#[test]
fn bad_blocks_have_their_faults(rt: HostRuntime) -> Result<(), Fail> {
    let alloc = rt.alloc();
    for fork in [Fork::Data, Fork::Attr] {
        // The root's level, keys and second pointer; the first leaf's count and left sibling; the second
        // leaf's count, right sibling and first offset; the offset that is read from.
        for (root, first, second, from, fault) in [
            // Pointers to block 0 of both groups, to one behind the image, to the block before, and to
            // the leaf of another place in the other group.
            ((1, 2, 0), (12, NONE), (1, NONE, 30), 30, ForkFault::Block),
            ((1, 2, 256), (12, NONE), (1, NONE, 30), 30, ForkFault::Block),
            ((1, 2, 400), (12, NONE), (1, NONE, 30), 30, ForkFault::Block),
            ((1, 2, 40), (12, NONE), (1, NONE, 30), 30, ForkFault::Block),
            ((1, 2, 261), (12, NONE), (1, NONE, 30), 30, ForkFault::Block),
            // Levels that don't fall, a wrong left sibling, and a right sibling at the end.
            ((2, 2, 41), (12, NONE), (1, NONE, 30), 0, ForkFault::Block),
            ((1, 2, 41), (12, 7), (1, NONE, 30), 0, ForkFault::Block),
            ((1, 2, 41), (12, NONE), (1, 42, 30), 30, ForkFault::Block),
            // Another key than that beside the pointer; a leaf without a mapping; more than fit.
            ((1, 2, 41), (12, NONE), (1, NONE, 29), 30, ForkFault::Block),
            ((1, 2, 41), (12, NONE), (0, NONE, 30), 30, ForkFault::Block),
            ((1, 2, 41), (252, NONE), (1, NONE, 30), 0, ForkFault::Block),
            // A root with more keys than fit; a root of level 0, and one above 9.
            ((1, 21, 41), (12, NONE), (1, NONE, 30), 0, ForkFault::Count),
            ((0, 2, 41), (12, NONE), (1, NONE, 30), 0, ForkFault::Format),
            ((10, 2, 41), (12, NONE), (1, NONE, 30), 0, ForkFault::Format),
        ] {
            let device = two_leaves(
                alloc,
                inodes(fork, root.0, root.1, [(0, 40), (30, root.2), (0, 0)]),
                leaf(first.0, first.1, 41, 40, 0),
                second,
            )?;
            let found = piece_at(alloc, device, fork, from).err();
            same(&rt, found, Some(ReadFault::Fork(fault)));
        }
    }
    Ok(())
}

#[test]
fn bad_mappings_have_their_faults(rt: HostRuntime) -> Result<(), Fail> {
    let alloc = rt.alloc();
    for fork in [Fork::Data, Fork::Attr] {
        // Which mapping of the first leaf is another, its two words, the second leaf's count, the fault.
        for (i, high, low, count, fault) in [
            // The offset of the one before it; in a mapping behind it; count 0; its group's end.
            (3, 512 * 4, ONE, 1, ForkFault::Order),
            (3, 512 * 6, ONE + 2, 1, ForkFault::Overlap),
            (3, 512 * 6, ONE - 1, 1, ForkFault::Range),
            (3, 512 * 6, (255 << 21) + 2, 1, ForkFault::Range),
            (3, 512 * 6, (400 << 21) + 1, 1, ForkFault::Range),
            // The leaf's last one, before the next leaf's first.
            (11, 512 * 30, ONE, 1, ForkFault::Order),
            (11, 512 * 22, ONE + 8, 1, ForkFault::Overlap),
            // Before a bad block it is judged as the last, and found before it.
            (11, 512 * 22, ONE + 8, 0, ForkFault::Block),
            (11, 512 * 22, ONE - 1, 0, ForkFault::Range),
            (3, 512 * 6, ONE + 2, 0, ForkFault::Overlap),
            // Of two bad ones the first: the one after it isn't in order, and it has no block.
            (3, 512 * 8, ONE - 1, 1, ForkFault::Order),
        ] {
            let device = two_leaves(
                alloc,
                inodes(fork, 1, 2, [(0, 40), (30, 41), (0, 0)]),
                spoiled(leaf(12, NONE, 41, 40, 0), i, high, low),
                (count, NONE, 30),
            )?;
            let found = piece_at(alloc, device, fork, 0).err();
            same(&rt, found, Some(ReadFault::Fork(fault)));
        }
    }
    Ok(())
}

fn has_unwritten(piece: &ForkPiece) -> bool {
    piece.mappings.iter().any(|m| m.unwritten)
}

#[test]
fn unwritten_mappings_are_for_data(rt: HostRuntime) -> Result<(), Fail> {
    let alloc = rt.alloc();
    for (fork, fault) in [
        (Fork::Data, None),
        (Fork::Attr, Some(ReadFault::Fork(ForkFault::Range))),
    ] {
        let device = two_leaves(
            alloc,
            inodes(fork, 1, 2, [(0, 40), (30, 41), (0, 0)]),
            spoiled(leaf(12, NONE, 41, 40, 0), 3, (1 << 63) + 512 * 6, ONE),
            (1, NONE, 30),
        )?;
        match piece_at(alloc, device, fork, 0) {
            Ok(piece) => {
                same(&rt, fault, None);
                same(&rt, has_unwritten(&piece), true);
            }
            Err(found) => same(&rt, Some(found), fault),
        }
    }
    Ok(())
}

// A btree of this many levels below the root, with one leaf, and its root's first pointer.
fn chain(alloc: Global, fork: Fork, levels: u16, to: u64) -> Result<MemDevice, AllocError> {
    device_of(
        alloc,
        inodes(fork, levels, 1, [(0, to), (0, 0), (0, 0)]),
        leaf(12, NONE, NONE, 40, 0),
        node(1, 1, 41, (0, 40), (0, 0)),
        node(2, 1, 42, (0, 41), (0, 0)),
    )
}

#[test]
fn btrees_have_one_to_three_levels(rt: HostRuntime) -> Result<(), Fail> {
    let alloc = rt.alloc();
    for fork in [Fork::Data, Fork::Attr] {
        // Levels, the first pointer, the blocks in the order of the walk; the last one's leaf lies in the
        // other group.
        for (levels, to, count, last) in [
            (1, 40, 1, 40),
            (2, 41, 2, 40),
            (3, 42, 3, 40),
            (1, 261, 1, 261),
        ] {
            let piece = piece_at(alloc, chain(alloc, fork, levels, to)?, fork, 0)?;
            same(&rt, piece.mappings.len(), 12);
            same(&rt, piece.tree_blocks.len(), count);
            same(&rt, piece.tree_blocks.last().copied(), Some(last));
            same(&rt, piece.tree_blocks.first().copied(), Some(to));
            same(&rt, piece.next, None);
        }
    }
    Ok(())
}

#[test]
fn cycles_are_bad_blocks(rt: HostRuntime) -> Result<(), Fail> {
    let alloc = rt.alloc();
    // Where the first entry of a node of level 2 leads: to itself, to the node of level 1 that leads
    // back, and to the leaf, past a level; and its second one, to the same subtree again.
    for (count, first, second, below) in [
        (1, (0, 42), (0, 0), (0, 40)),
        (1, (0, 41), (0, 0), (0, 42)),
        (1, (0, 41), (0, 0), (0, 41)),
        (1, (0, 40), (0, 0), (0, 40)),
        (2, (0, 41), (0, 41), (0, 40)),
    ] {
        let device = device_of(
            alloc,
            inodes(Fork::Data, 3, 1, [(0, 42), (0, 0), (0, 0)]),
            leaf(12, NONE, NONE, 40, 0),
            node(1, 1, 41, below, (0, 0)),
            node(2, count, 42, first, second),
        )?;
        let found = piece_at(alloc, device, Fork::Data, 0).err();
        same(&rt, found, Some(ReadFault::Fork(ForkFault::Block)));
    }
    Ok(())
}

// How many mappings and blocks the pieces of a fork have in sum.
fn sums_of(alloc: Global, fork: Fork) -> Result<(usize, usize), Fail> {
    let mut from = 0;
    let mut mappings: usize = 0;
    let mut blocks: usize = 0;
    for _ in 0..4 {
        let piece = piece_at(alloc, three_leaves(alloc, fork, ONE)?, fork, from)?;
        mappings = mappings.saturating_add(piece.mappings.len());
        blocks = blocks.saturating_add(piece.tree_blocks.len());
        match piece.next {
            Some(next) => from = next,
            None => return Ok((mappings, blocks)),
        }
    }
    Ok((0, 0))
}

#[test]
fn pieces_are_in_sum_the_fork(rt: HostRuntime) -> Result<(), Fail> {
    let alloc = rt.alloc();
    same(&rt, sums_of(alloc, Fork::Data)?, (503, 3));
    same(&rt, sums_of(alloc, Fork::Attr)?, (503, 3));
    Ok(())
}

#[test]
fn keys_that_fall_are_found_behind(rt: HostRuntime) -> Result<(), Fail> {
    let alloc = rt.alloc();
    // Two full leaves, and a third one that begins before the second: no piece can begin between.
    for (count, fault) in [(1, ForkFault::Order), (0, ForkFault::Block)] {
        let device = device_of(
            alloc,
            inodes(Fork::Data, 1, 3, [(0, 40), (700, 41), (502, 42)]),
            leaf(251, NONE, 41, 40, 0),
            leaf(251, 40, 42, 41, 700),
            leaf(count, 41, NONE, 42, 502),
        )?;
        let found = piece_at(alloc, device, Fork::Data, 0).err();
        same(&rt, found, Some(ReadFault::Fork(fault)));
    }
    Ok(())
}
