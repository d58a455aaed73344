// Images with empty files, and what reverse mappings say of a file.
use byte_fields::{Block, get_u32, get_u64};
use dinode_core::{Core3, encode_core};
use fresh_image::fresh_block;
use image_hosts::{MemHost, MemImage};
use small_images::{altered, file_core, heads_of, mended, mended_heads, small_group, small_with};
use std::alloc::{AllocError, Global};

// Block 24 with empty regular files in the places of inodes 195 and 196.
fn chunk() -> Block {
    let mut block = fresh_block(1, 256, 24);
    let first = Core3 {
        nblocks: 0,
        ..file_core(&[])
    };
    let mut bytes = [0; 512];
    encode_core(&first, &mut bytes);
    block.bytes[1536..2048].copy_from_slice(&bytes);
    let second = Core3 {
        ino: 196,
        nblocks: 0,
        ..file_core(&[])
    };
    encode_core(&second, &mut bytes);
    block.bytes[2048..2560].copy_from_slice(&bytes);
    block
}

// A leaf of one of the two inode btrees, with these two inodes taken.
fn leaf(number: u8) -> Block {
    let block = fresh_block(1, 256, u64::from(number));
    mended(altered(altered(block, 60, 0x0000_403b), 68, 0xffff_ffe0))
}

/// The small image with the empty regular files 195 and 196.
pub(crate) fn with_two_files(alloc: Global) -> Result<MemImage, AllocError> {
    let heads = mended_heads(altered(heads_of(&small_group()), 1052, 59));
    small_with(
        alloc,
        &[(0, heads), (3, leaf(3)), (4, leaf(4)), (24, chunk())],
    )
}

// A block of the image `a.img`; zeros where it holds none.
fn block_of(host: &MemHost, number: u64) -> Block {
    let Some(image) = host.images.get("a.img") else {
        return Block::zeroed();
    };
    match image.blocks.get(&number) {
        Some(block) => *block,
        None => Block::zeroed(),
    }
}

// The number in the eight bytes at this place, or 0 where they don't lie in the block.
fn long_in(block: &Block, at: usize) -> u64 {
    if at <= 4088 {
        return get_u64(&block.bytes, at);
    }
    0
}

// The mapping at this place of a leaf: its first block, how many there are, and its word.
fn mapping_at(leaf: &Block, at: usize) -> (u64, u64, u64) {
    let run = long_in(leaf, at);
    let word = long_in(leaf, at.saturating_add(16));
    (run >> 32, run % (1 << 32), word)
}

/// The reverse mappings of an inode in group 0, whose btree is one leaf.
pub(crate) fn mappings_of(
    alloc: Global,
    host: &MemHost,
    inode: u64,
) -> Result<Vec<(u64, u64, u64)>, AllocError> {
    let heads = block_of(host, 0);
    let leaf = block_of(host, u64::from(get_u32(&heads.bytes, 536)));
    let count = get_u32(&leaf.bytes, 4) as usize;
    let mut found = Vec::new(alloc);
    for i in 0..168usize {
        let at = i.saturating_mul(24).saturating_add(56);
        if i < count && long_in(&leaf, at.saturating_add(8)) == inode {
            found.push(mapping_at(&leaf, at))?;
        }
    }
    Ok(found)
}
