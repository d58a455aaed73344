//! Block 0 of each group of a test image: superblock, AGF, AGI and AGFL.
use byte_fields::{Block, put_sum, put_u16, put_u32, put_u64, sum_at};

/// The image's UUID, and its two halves.
pub(crate) const UUID: [u8; 16] = [1, 2, 3, 4, 5, 6, 7, 8, 9, 10, 11, 12, 13, 14, 15, 16];

pub(crate) const UUID_HIGH: u64 = 0x0102_0304_0506_0708;

pub(crate) const UUID_LOW: u64 = 0x090a_0b0c_0d0e_0f10;

/// No block, and no inode (XFS Algorithms and Data Structures, "AG Inode Management").
pub const NONE: u32 = 0xffff_ffff;

/// A group of an image of `groups` groups of `len` blocks each, at most 2^`agblklog`, with the
/// free blocks and the longest free run that its AGF counts.
#[derive(Clone, Copy)]
pub struct Group {
    pub groups: u32,
    pub group: u32,
    pub len: u32,
    pub agblklog: u8,
    pub freeblks: u32,
    pub longest: u32,
}

/// Puts a number into the four bytes at offset `at`, where they lie in the block.
pub(crate) fn put_word(block: &mut Block, at: usize, value: u32) {
    if at <= 4092 {
        put_u32(&mut block.bytes, at, value);
    }
}

fn put_superblock(block: &mut Block, of: &Group) {
    let sb = &mut block.bytes;
    put_u32(sb, 0, 0x5846_5342);
    put_u32(sb, 4, 4096);
    put_u64(sb, 8, u64::from(of.groups).wrapping_mul(u64::from(of.len)));
    put_u64(sb, 32, UUID_HIGH);
    put_u64(sb, 40, UUID_LOW);
    put_u64(sb, 56, 192);
    put_u64(sb, 64, 193);
    put_u64(sb, 72, 194);
    put_u32(sb, 84, of.len);
    put_u32(sb, 88, of.groups);
}

fn put_sizes(block: &mut Block, agblklog: u8) {
    let sb = &mut block.bytes;
    put_u16(sb, 100, 5);
    put_u16(sb, 102, 512);
    put_u16(sb, 104, 512);
    put_u16(sb, 106, 8);
    sb[120] = 12;
    sb[123] = 3;
    sb[124] = agblklog;
    put_u32(sb, 180, 8);
    put_u32(sb, 212, 15);
    put_u32(sb, 216, 3);
}

fn put_agf(block: &mut Block, of: &Group) {
    let agf = &mut block.bytes;
    put_u32(agf, 512, 0x5841_4746);
    put_u32(agf, 516, 1);
    put_u32(agf, 520, of.group);
    put_u32(agf, 524, of.len);
    put_u32(agf, 528, 1);
    put_u32(agf, 532, 2);
    put_u32(agf, 536, 5);
    put_u32(agf, 540, 1);
    put_u32(agf, 544, 1);
    put_u32(agf, 548, 1);
}

fn put_counters(block: &mut Block, of: &Group) {
    let agf = &mut block.bytes;
    put_u32(agf, 556, 11);
    put_u32(agf, 560, 12);
    put_u32(agf, 564, of.freeblks);
    put_u32(agf, 568, of.longest);
    put_u64(agf, 576, UUID_HIGH);
    put_u64(agf, 584, UUID_LOW);
    put_u32(agf, 592, 1);
    put_u32(agf, 596, 1);
    put_u32(agf, 600, 6);
    put_u32(agf, 604, 1);
}

// Group 0 has 64 inodes from 192 on, of which three are allocated.
fn put_agi(block: &mut Block, of: &Group) {
    let (count, freecount, newino) = if of.group == 0 {
        (64, 61, 192)
    } else {
        (0, 0, NONE)
    };
    let agi = &mut block.bytes;
    put_u32(agi, 1024, 0x5841_4749);
    put_u32(agi, 1028, 1);
    put_u32(agi, 1032, of.group);
    put_u32(agi, 1036, of.len);
    put_u32(agi, 1040, count);
    put_u32(agi, 1044, 3);
    put_u32(agi, 1048, 1);
    put_u32(agi, 1052, freecount);
    put_u32(agi, 1056, newino);
    put_u32(agi, 1060, NONE);
    for i in 0..64usize {
        put_word(block, 1064 + 4 * i, NONE);
    }
}

fn put_free_inodes(block: &mut Block) {
    let agi = &mut block.bytes;
    put_u64(agi, 1320, UUID_HIGH);
    put_u64(agi, 1328, UUID_LOW);
    put_u32(agi, 1352, 4);
    put_u32(agi, 1356, 1);
    put_u32(agi, 1360, 1);
    put_u32(agi, 1364, 1);
}

// The list is the blocks 7 to 18, at the places 0 to 11.
fn put_agfl(block: &mut Block, group: u32) {
    let agfl = &mut block.bytes;
    put_u32(agfl, 1536, 0x5841_464c);
    put_u32(agfl, 1540, group);
    put_u64(agfl, 1544, UUID_HIGH);
    put_u64(agfl, 1552, UUID_LOW);
    for i in 0..12u32 {
        put_word(block, 1572 + 4 * (i as usize), 7 + i);
    }
}

/// The block with the checksums of its four sectors stored.
pub fn mended_heads(mut block: Block) -> Block {
    let superblock = sum_at(&block.bytes[..512], 224);
    put_sum(&mut block.bytes, 224, superblock);
    let agf = sum_at(&block.bytes[512..1024], 216);
    put_sum(&mut block.bytes, 728, agf);
    let agi = sum_at(&block.bytes[1024..1536], 312);
    put_sum(&mut block.bytes, 1336, agi);
    let agfl = sum_at(&block.bytes[1536..2048], 32);
    put_sum(&mut block.bytes, 1568, agfl);
    block
}

/// The block with another number in the four bytes at offset `at`. No checksum is stored.
pub fn altered(mut block: Block, at: usize, value: u32) -> Block {
    put_word(&mut block, at, value);
    block
}

/// Block 0 of a group whose six trees have one leaf each, at the blocks 1 to 6.
pub fn heads_of(of: &Group) -> Block {
    let mut block = Block::zeroed();
    put_superblock(&mut block, of);
    put_sizes(&mut block, of.agblklog);
    put_agf(&mut block, of);
    put_counters(&mut block, of);
    put_agi(&mut block, of);
    put_free_inodes(&mut block);
    put_agfl(&mut block, of.group);
    mended_heads(block)
}
