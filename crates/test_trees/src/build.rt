// Blocks of trees of each kind, with records of one block, or chunks, in rising order.
ghost use Rattle.std.specs.Prelude.{◌≡◌};

use blk_device::MemDevice;
use byte_fields::{Block, put_sum, put_u16, put_u32, put_u64, sum_at};
use sblock::Kind;
use std::alloc::{AllocError, Global};
use std::collections::BTreeMap;

/// What a sibling is where there is none.
pub const NONE: u32 = 0xffff_ffff;

/// The bytes 1 to 16.
pub const UUID: [u8; 16] = [1, 2, 3, 4, 5, 6, 7, 8, 9, 10, 11, 12, 13, 14, 15, 16];

/// The blocks of the group, which is the only one.
pub const LENGTH: u32 = 1_048_576;

/// A kind, its magic number, and the least numbers of its leaves and nodes beside others.
#[derive(Clone, Copy)]
pub struct Shape {
    pub kind: Kind,
    pub magic: u32,
    pub leaf: u16,
    pub node: u16,
}

/// Free space by start.
pub const BNO: Shape = Shape {
    kind: Kind::Bno,
    magic: 0x4142_3342,
    leaf: 252,
    node: 168,
};

/// Free space by count.
pub const CNT: Shape = Shape {
    kind: Kind::Cnt,
    magic: 0x4142_3343,
    leaf: 252,
    node: 168,
};

/// Reverse mappings.
pub const RMAP: Shape = Shape {
    kind: Kind::Rmap,
    magic: 0x524d_4233,
    leaf: 84,
    node: 45,
};

/// Reference counts.
pub const REFC: Shape = Shape {
    kind: Kind::Refc,
    magic: 0x5233_4643,
    leaf: 168,
    node: 252,
};

/// Chunks of inodes.
pub const INO: Shape = Shape {
    kind: Kind::Ino,
    magic: 0x4941_4233,
    leaf: 126,
    node: 252,
};

/// Chunks with free inodes.
pub const FINO: Shape = Shape {
    kind: Kind::Fino,
    magic: 0x4649_4233,
    leaf: 126,
    node: 252,
};

/// The blocks of a tree by their places.
pub type Blocks = BTreeMap<u64, Block>;

/// Writes a word at this place.
pub fn put_word(block: &mut Block, at: usize, word: u32) {
    if at <= 4092 {
        put_u32(&mut block.bytes, at, word);
    }
}

/// Writes words from this place on.
pub fn put_words(block: &mut Block, at: usize, words: &[u32]) {
    let mut place = at;
    for word in words {
        put_word(block, place, *word);
        place = place.saturating_add(4);
    }
}

/// Writes the checksum.
pub fn put_block_sum(block: &mut Block) {
    let sum = sum_at(&block.bytes, 52);
    put_sum(&mut block.bytes, 52, sum);
}

/// The header of a block, and no more.
pub fn header_of(magic: u32, at: u32, level: u16, count: u16, siblings: [u32; 2]) -> Block {
    let mut block = Block::zeroed();
    let bytes = &mut block.bytes;
    put_u32(bytes, 0, magic);
    put_u16(bytes, 4, level);
    put_u16(bytes, 6, count);
    put_u32(bytes, 8, siblings[0]);
    put_u32(bytes, 12, siblings[1]);
    put_u64(bytes, 16, 8 * u64::from(at));
    put_u64(bytes, 32, 0x0102_0304_0506_0708);
    put_u64(bytes, 40, 0x090a_0b0c_0d0e_0f10);
    block
}

// Where record number `r` begins: blocks 2, 4 and so on, or inodes 64, 128 and so on.
fn start_of(kind: Kind, r: u32) -> u32 {
    match kind {
        Kind::Ino | Kind::Fino => r.wrapping_add(1).wrapping_mul(64),
        _ => r.wrapping_add(1).wrapping_mul(2),
    }
}

fn put_record(block: &mut Block, kind: Kind, i: u16, r: u32) {
    let n = usize::from(i);
    let start = start_of(kind, r);
    match kind {
        Kind::Bno | Kind::Cnt => put_words(block, 56 + 8 * n, &[start, 1]),
        Kind::Rmap => {
            let words = [start, 1, 0xffff_ffff, 0xffff_fffb, 0, 0];
            put_words(block, 56 + 24 * n, &words);
        }
        Kind::Refc => put_words(block, 56 + 12 * n, &[start, 1, 2]),
        Kind::Ino | Kind::Fino => {
            let words = [start, 0x0000_403d, 0xffff_ffff, 0xffff_fff8];
            put_words(block, 56 + 16 * n, &words);
        }
    }
}

// Entry `i`: the keys of records `low` to `high`, and the block below.
fn put_entry(block: &mut Block, kind: Kind, i: u16, low: u32, high: u32, child: u32) {
    let n = usize::from(i);
    let start = start_of(kind, low);
    let last = start_of(kind, high);
    match kind {
        Kind::Bno | Kind::Cnt => {
            put_words(block, 56 + 8 * n, &[start, 1]);
            put_word(block, 2744 + 4 * n, child);
        }
        Kind::Rmap => {
            let owner = 0xffff_fffb;
            let words = [start, NONE, owner, 0, 0, last, NONE, owner, 0, 0];
            put_words(block, 56 + 40 * n, &words);
            put_word(block, 3696 + 4 * n, child);
        }
        _ => {
            put_word(block, 56 + 4 * n, start);
            put_word(block, 2076 + 4 * n, child);
        }
    }
}

/// The leaf at this place, with `count` records from number `first` on.
pub fn leaf_at(shape: &Shape, at: u32, first: u32, count: u16, siblings: [u32; 2]) -> Block {
    let mut block = header_of(shape.magic, at, 0, count, siblings);
    for i in 0..count {
        put_record(&mut block, shape.kind, i, first.wrapping_add(u32::from(i)));
    }
    put_block_sum(&mut block);
    block
}

/// What the entries of a node are: `count` blocks from `child` on, each over `each` records, the
/// first over those from number `first` on.
#[derive(Clone, Copy)]
pub struct Entries {
    pub child: u32,
    pub count: u16,
    pub each: u32,
    pub first: u32,
}

/// The node at this place, on this level.
pub fn node_at(shape: &Shape, at: u32, level: u16, entries: &Entries, siblings: [u32; 2]) -> Block {
    let mut block = header_of(shape.magic, at, level, entries.count, siblings);
    for i in 0..entries.count {
        let number = u32::from(i);
        let low = entries
            .first
            .wrapping_add(number.wrapping_mul(entries.each));
        let high = low.wrapping_add(entries.each).wrapping_sub(1);
        let child = entries.child.wrapping_add(number);
        put_entry(&mut block, shape.kind, i, low, high, child);
    }
    put_block_sum(&mut block);
    block
}

// The siblings of number `i` of `n` blocks, which is at this place.
fn siblings_of(i: u16, n: u16, at: u32) -> [u32; 2] {
    let left = if i == 0 { NONE } else { at.wrapping_sub(1) };
    let right = if u32::from(i) + 1 == u32::from(n) {
        NONE
    } else {
        at.wrapping_add(1)
    };
    [left, right]
}

// So many leaves from this place on, each with the least number of records.
fn put_leaves(blocks: &mut Blocks, shape: &Shape, from: u32, n: u16) -> Result<(), AllocError> {
    for i in 0..n {
        let at = from.wrapping_add(u32::from(i));
        let first = u32::from(i) * u32::from(shape.leaf);
        let leaf = leaf_at(shape, at, first, shape.leaf, siblings_of(i, n, at));
        blocks.insert(u64::from(at), leaf)?;
    }
    Ok(())
}

/// A root leaf at block 1, with three records.
pub fn one_level(alloc: Global, shape: &Shape) -> Result<Blocks, AllocError> {
    let mut blocks = BTreeMap::new(alloc);
    blocks.insert(1, leaf_at(shape, 1, 0, 3, [NONE, NONE]))?;
    Ok(blocks)
}

/// A root at block 1 over `n` leaves from block 40 on.
pub fn two_levels(alloc: Global, shape: &Shape, n: u16) -> Result<Blocks, AllocError> {
    let mut blocks = BTreeMap::new(alloc);
    put_leaves(&mut blocks, shape, 40, n)?;
    let entries = Entries {
        child: 40,
        count: n,
        each: u32::from(shape.leaf),
        first: 0,
    };
    blocks.insert(1, node_at(shape, 1, 1, &entries, [NONE, NONE]))?;
    Ok(blocks)
}

/// A root at block 1 over nodes at blocks 2 and 3, each with the least number of leaves; these lie
/// from block 100 on.
pub fn three_levels(alloc: Global, shape: &Shape) -> Result<Blocks, AllocError> {
    let mut blocks = BTreeMap::new(alloc);
    let each = u32::from(shape.leaf);
    let half = u32::from(shape.node);
    put_leaves(&mut blocks, shape, 100, shape.node.wrapping_mul(2))?;
    let low = Entries {
        child: 100,
        count: shape.node,
        each,
        first: 0,
    };
    let high = Entries {
        child: 100 + half,
        first: half * each,
        ..low
    };
    let top = Entries {
        child: 2,
        count: 2,
        each: half * each,
        first: 0,
    };
    blocks.insert(1, node_at(shape, 1, 2, &top, [NONE, NONE]))?;
    blocks.insert(2, node_at(shape, 2, 1, &low, [NONE, 3]))?;
    blocks.insert(3, node_at(shape, 3, 1, &high, [2, NONE]))?;
    Ok(blocks)
}

/// The device with these blocks.
pub fn device_of(alloc: Global, blocks: Blocks) -> Result<MemDevice, AllocError> {
    MemDevice::with_image(alloc, u64::from(LENGTH), 1, blocks, Vec::new(alloc))
}
