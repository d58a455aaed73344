//! Blocks of the space btrees of a test image.
use crate::heads::{NONE, UUID_HIGH, UUID_LOW, put_word};
use byte_fields::{Block, put_sum, put_u16, put_u32, put_u64, sum_at};
use rmap_recs::RmapRec;
use span_recs::{RefcRec, SpanRec};

/// A block of a group that begins at block `first` of the device.
#[derive(Clone, Copy)]
pub struct Place {
    pub group: u32,
    pub first: u64,
    pub block: u32,
}

/// A block of group 0.
pub fn at(block: u32) -> Place {
    Place {
        group: 0,
        first: 0,
        block,
    }
}

/// Free blocks (XFS Algorithms and Data Structures, "AG Free Space B+trees").
pub fn run(start: u32, count: u32) -> SpanRec {
    SpanRec { start, count }
}

/// Blocks that files share (XFS Algorithms and Data Structures, "Reference Count B+tree").
pub fn shared(start: u32, count: u32, refcount: u32) -> RefcRec {
    RefcRec {
        start,
        count,
        refcount,
    }
}

/// Blocks of an owner that isn't an inode, by its number below zero: 3 for the heads, 5 for the
/// group's space btrees and free list, 6 for its inode btrees, 7 for inodes, 8 for its refcount
/// btree.
pub fn owned(start: u32, count: u32, code: u64) -> RmapRec {
    RmapRec {
        start,
        count,
        owner: 0u64.wrapping_sub(code),
        word: 0,
    }
}

/// Blocks of an inode's data, from the file offset `word` on.
pub fn mapped(start: u32, count: u32, inode: u64, word: u64) -> RmapRec {
    RmapRec {
        start,
        count,
        owner: inode,
        word,
    }
}

// The header of a block with so many entries and these siblings.
fn header(magic: u32, place: Place, level: u16, entries: usize, left: u32, right: u32) -> Block {
    let mut block = Block::zeroed();
    let bytes = &mut block.bytes;
    put_u32(bytes, 0, magic);
    put_u16(bytes, 4, level);
    put_u16(bytes, 6, entries.min(505) as u16);
    put_u32(bytes, 8, left);
    put_u32(bytes, 12, right);
    let at = place.first.wrapping_add(u64::from(place.block));
    put_u64(bytes, 16, at.wrapping_mul(8));
    put_u64(bytes, 32, UUID_HIGH);
    put_u64(bytes, 40, UUID_LOW);
    put_u32(bytes, 48, place.group);
    block
}

/// The block with the checksum of a btree block stored.
pub fn mended(mut block: Block) -> Block {
    let sum = sum_at(&block.bytes, 52);
    put_sum(&mut block.bytes, 52, sum);
    block
}

// Writes a run of free blocks, where a leaf has room for it.
fn put_run(block: &mut Block, i: usize, record: &SpanRec) {
    if i < 505 {
        put_u32(&mut block.bytes, 56 + 8 * i, record.start);
        put_u32(&mut block.bytes, 60 + 8 * i, record.count);
    }
}

fn with_runs(mut block: Block, records: &[SpanRec]) -> Block {
    for (i, record) in records.iter().enumerate() {
        put_run(&mut block, i, record);
    }
    mended(block)
}

/// A leaf of free space by start between these siblings, with these records, of which it has room
/// for 505.
pub fn bno_part(place: Place, records: &[SpanRec], left: u32, right: u32) -> Block {
    let block = header(0x4142_3342, place, 0, records.len(), left, right);
    with_runs(block, records)
}

/// A root leaf of free space by start.
pub fn bno_leaf(place: Place, records: &[SpanRec]) -> Block {
    bno_part(place, records, NONE, NONE)
}

/// A root of free space by start over two leaves, each with its first record and its place.
pub fn bno_root(place: Place, parts: &[(SpanRec, u32); 2]) -> Block {
    let mut block = header(0x4142_3342, place, 1, 2, NONE, NONE);
    for (i, (first, child)) in parts.iter().enumerate() {
        put_run(&mut block, i, first);
        put_word(&mut block, 2744 + 4 * i, *child);
    }
    mended(block)
}

/// A root leaf of free space by count, as `bno_leaf`.
pub fn cnt_leaf(place: Place, records: &[SpanRec]) -> Block {
    let block = header(0x4142_3343, place, 0, records.len(), NONE, NONE);
    with_runs(block, records)
}

// Writes a shared run, where a leaf has room for it.
fn put_shared(block: &mut Block, i: usize, record: &RefcRec) {
    if i < 336 {
        put_u32(&mut block.bytes, 56 + 12 * i, record.start);
        put_u32(&mut block.bytes, 60 + 12 * i, record.count);
        put_u32(&mut block.bytes, 64 + 12 * i, record.refcount);
    }
}

/// A root leaf of reference counts, with these records, of which it has room for 336.
pub fn refc_leaf(place: Place, records: &[RefcRec]) -> Block {
    let mut block = header(0x5233_4643, place, 0, records.len(), NONE, NONE);
    for (i, record) in records.iter().enumerate() {
        put_shared(&mut block, i, record);
    }
    mended(block)
}

// Writes a reverse mapping, where a leaf has room for it.
fn put_mapping(block: &mut Block, i: usize, record: &RmapRec) {
    if i < 168 {
        put_u32(&mut block.bytes, 56 + 24 * i, record.start);
        put_u32(&mut block.bytes, 60 + 24 * i, record.count);
        put_u64(&mut block.bytes, 64 + 24 * i, record.owner);
        put_u64(&mut block.bytes, 72 + 24 * i, record.word);
    }
}

/// A leaf of reverse mappings between these siblings, with these records, of which it has room
/// for 168.
pub fn rmap_part(place: Place, records: &[RmapRec], left: u32, right: u32) -> Block {
    let mut block = header(0x524d_4233, place, 0, records.len(), left, right);
    for (i, record) in records.iter().enumerate() {
        put_mapping(&mut block, i, record);
    }
    mended(block)
}

/// A root leaf of reverse mappings.
pub fn rmap_leaf(place: Place, records: &[RmapRec]) -> Block {
    rmap_part(place, records, NONE, NONE)
}

// Writes a key of a reverse mapping.
fn put_key(block: &mut Block, place: usize, key: &RmapRec) {
    if place <= 4076 {
        put_u32(&mut block.bytes, place, key.start);
        put_u64(&mut block.bytes, place + 4, key.owner);
        put_u64(&mut block.bytes, place + 12, key.word);
    }
}

/// A root of reverse mappings over two leaves, each with the keys of its first and of its last
/// block and its own place.
pub fn rmap_root(place: Place, parts: &[(RmapRec, RmapRec, u32); 2]) -> Block {
    let mut block = header(0x524d_4233, place, 1, 2, NONE, NONE);
    for (i, (low, high, child)) in parts.iter().enumerate() {
        put_key(&mut block, 56 + 40 * i, low);
        put_key(&mut block, 76 + 40 * i, high);
        put_word(&mut block, 3696 + 4 * i, *child);
    }
    mended(block)
}
