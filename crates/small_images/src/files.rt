//! The chunk of a test image, and a file in it: inode 195, in slot 3 of block 24.
use crate::heads::{NONE, UUID, UUID_HIGH, UUID_LOW, altered};
use crate::trees::mended;
use byte_fields::{Block, put_sum, put_u16, put_u32, put_u64, sum_at};
use dinode_core::{Core3, encode_core};
use fresh_image::fresh_block;
use rmap_recs::RmapRec;

/// So many blocks from one on, which are written data at this offset of a file.
#[derive(Clone, Copy)]
pub struct Stretch {
    pub offset: u64,
    pub block: u64,
    pub count: u64,
}

/// Written blocks of a file (XFS Algorithms and Data Structures, "Data Fork").
pub fn written(offset: u64, block: u64, count: u64) -> Stretch {
    Stretch {
        offset,
        block,
        count,
    }
}

// The two words of a packed mapping: offset and block each end in the word behind them.
fn packed(stretch: &Stretch) -> (u64, u64) {
    let first = stretch.offset.wrapping_mul(512);
    let second = stretch.block.wrapping_mul(0x0020_0000);
    (first, second.wrapping_add(stretch.count))
}

// Writes a mapping, where an inode has room for it.
fn put_stretch(area: &mut [u8; 336], i: usize, stretch: &Stretch) {
    if i < 21 {
        let (first, second) = packed(stretch);
        put_u64(area, 16 * i, first);
        put_u64(area, 16 * i + 8, second);
    }
}

// A core of a file with so many mappings, which are kept in this format, and no attributes.
fn core(format: u8, nextents: u32, literal: [u8; 336]) -> Core3 {
    Core3 {
        mode: 0x81a4,
        format,
        uid: 0,
        nlink: 1,
        big_nextents: 0,
        nblocks: 1,
        nextents,
        anextents: 0,
        forkoff: 0,
        aformat: 2,
        flags: 0,
        next_unlinked: NONE,
        changecount: 0,
        lsn: 0,
        flags2: 0,
        ino: 195,
        uuid: UUID,
        literal,
    }
}

/// The core of a file with these mappings, of which an inode has room for 21.
pub fn file_core(stretches: &[Stretch]) -> Core3 {
    let mut literal = [0; 336];
    for (i, stretch) in stretches.iter().enumerate() {
        put_stretch(&mut literal, i, stretch);
    }
    core(2, stretches.len().min(21) as u32, literal)
}

/// The core of a file with so many mappings in a btree: a root over one leaf, which has them from
/// offset 0 on.
pub fn tree_core(nextents: u32, leaf: u64) -> Core3 {
    let mut literal = [0; 336];
    put_u16(&mut literal, 0, 1);
    put_u16(&mut literal, 2, 1);
    put_u64(&mut literal, 164, leaf);
    core(3, nextents, literal)
}

/// Block 24 with this core in the place of inode 195.
pub fn chunk_with(core: &Core3) -> Block {
    let mut block = fresh_block(1, 256, 24);
    let mut bytes = [0; 512];
    encode_core(core, &mut bytes);
    block.bytes[1536..2048].copy_from_slice(&bytes);
    block
}

/// The leaf of one of the two inode btrees once inode 195 is allocated, which has one free inode less.
pub fn with_file(leaf: Block) -> Block {
    mended(altered(altered(leaf, 60, 0x0000_403c), 68, 0xffff_fff0))
}

// Writes the mapping of one block, where a leaf of a fork's btree has room for it.
fn put_piece(block: &mut Block, i: usize, piece: &RmapRec) {
    if i < 251 {
        let (first, second) = packed(&written(piece.word, u64::from(piece.start), 1));
        put_u64(&mut block.bytes, 72 + 16 * i, first);
        put_u64(&mut block.bytes, 80 + 16 * i, second);
    }
}

// The header of the only leaf of the btree of inode 195, at this block of group 0, with so many mappings.
fn fork_header(at: u64, mappings: usize) -> Block {
    let mut block = Block::zeroed();
    let bytes = &mut block.bytes;
    put_u32(bytes, 0, 0x424d_4133);
    put_u16(bytes, 6, mappings.min(251) as u16);
    put_u64(bytes, 8, u64::MAX);
    put_u64(bytes, 16, u64::MAX);
    put_u64(bytes, 24, at.wrapping_mul(8));
    put_u64(bytes, 40, UUID_HIGH);
    put_u64(bytes, 48, UUID_LOW);
    put_u64(bytes, 56, 195);
    block
}

// The block with the checksum of a fork's block stored.
fn with_sum(mut block: Block) -> Block {
    let sum = sum_at(&block.bytes, 64);
    put_sum(&mut block.bytes, 64, sum);
    block
}

/// The only leaf of the btree of inode 195, at this block of group 0, with the blocks of these reverse
/// mappings, of which it has room for 251.
pub fn fork_leaf(at: u64, pieces: &[RmapRec]) -> Block {
    let mut block = fork_header(at, pieces.len());
    for (i, piece) in pieces.iter().enumerate() {
        put_piece(&mut block, i, piece);
    }
    with_sum(block)
}
