//! Images for tests. Heads, space btrees and reverse mappings are built here from outside; the inode
//! btrees and the chunk are those of a new image.
use crate::files::{chunk_with, file_core, with_file, written};
use crate::heads::{Group, altered, heads_of, mended_heads};
use crate::trees::{
    Place, at, bno_leaf, cnt_leaf, mapped, owned, refc_leaf, rmap_leaf, run, shared,
};
use byte_fields::Block;
use fresh_image::fresh_block;
use image_hosts::MemImage;
use rmap_recs::RmapRec;
use span_recs::{RefcRec, SpanRec};
use std::alloc::{AllocError, Global};
use std::collections::BTreeMap;

/// The one group of the small image: 256 blocks, of which (19, 5) and (32, 224) are free.
pub fn small_group() -> Group {
    Group {
        groups: 1,
        group: 0,
        len: 256,
        agblklog: 8,
        freeblks: 229,
        longest: 224,
    }
}

/// Block 0 of the small image.
pub fn small_heads() -> Block {
    heads_of(&small_group())
}

/// The reverse mappings of the small image.
pub fn small_owned() -> [RmapRec; 7] {
    [
        owned(0, 1, 3),
        owned(1, 2, 5),
        owned(3, 2, 6),
        owned(5, 1, 5),
        owned(6, 1, 8),
        owned(7, 12, 5),
        owned(24, 8, 7),
    ]
}

/// An image of so many blocks, which are these by their numbers, and zeros for the rest.
pub fn bare_image(
    alloc: Global,
    size: u64,
    blocks: &[(u64, Block)],
) -> Result<MemImage, AllocError> {
    let mut map = BTreeMap::new(alloc);
    for (number, block) in blocks {
        map.insert(*number, *block)?;
    }
    Ok(MemImage {
        size,
        blocks: map,
        failing: Vec::new(alloc),
    })
}

/// An image of so many blocks, whose first group has the inode btrees and the chunk of a new one. These
/// blocks are those of the rest that aren't zeros, or are others.
pub fn image_of(alloc: Global, size: u64, blocks: &[(u64, Block)]) -> Result<MemImage, AllocError> {
    let mut image = bare_image(
        alloc,
        size,
        &[(3, fresh_block(1, 256, 3)), (4, fresh_block(1, 256, 4))],
    )?;
    for number in 24..32 {
        image.blocks.insert(number, fresh_block(1, 256, number))?;
    }
    for (number, block) in blocks {
        image.blocks.insert(*number, *block)?;
    }
    Ok(image)
}

/// The small image, of which these blocks are others.
pub fn small_with(alloc: Global, blocks: &[(u64, Block)]) -> Result<MemImage, AllocError> {
    let free = [run(19, 5), run(32, 224)];
    let mut image = image_of(
        alloc,
        256,
        &[
            (0, small_heads()),
            (1, bno_leaf(at(1), &free)),
            (2, cnt_leaf(at(2), &free)),
            (5, rmap_leaf(at(5), &small_owned())),
            (6, refc_leaf(at(6), &[])),
        ],
    )?;
    for (number, block) in blocks {
        image.blocks.insert(*number, *block)?;
    }
    Ok(image)
}

/// The small image.
pub fn small_image(alloc: Global) -> Result<MemImage, AllocError> {
    small_with(alloc, &[])
}

/// Two groups of 64 blocks. Free are (19, 5) and (32, 32) of the first, and (19, 45) of the second,
/// which has no inodes. These blocks are others.
pub fn two_groups_with(alloc: Global, blocks: &[(u64, Block)]) -> Result<MemImage, AllocError> {
    let free = [run(19, 5), run(32, 32)];
    let second = |block| Place {
        group: 1,
        first: 64,
        block,
    };
    let mut image = image_of(
        alloc,
        128,
        &[
            (0, heads_of(&first_of_two())),
            (1, bno_leaf(at(1), &free)),
            (2, cnt_leaf(at(2), &free)),
            (5, rmap_leaf(at(5), &small_owned())),
            (6, refc_leaf(at(6), &[])),
            (64, heads_of(&second_of_two())),
            (65, bno_leaf(second(1), &[run(19, 45)])),
            (66, cnt_leaf(second(2), &[run(19, 45)])),
            (67, fresh_block(2, 64, 67)),
            (68, fresh_block(2, 64, 68)),
            (69, rmap_leaf(second(5), &small_owned()[..6])),
            (70, refc_leaf(second(6), &[])),
        ],
    )?;
    for (number, block) in blocks {
        image.blocks.insert(*number, *block)?;
    }
    Ok(image)
}

/// The first of the two groups.
pub fn first_of_two() -> Group {
    Group {
        groups: 2,
        group: 0,
        len: 64,
        agblklog: 6,
        freeblks: 37,
        longest: 32,
    }
}

/// The second of the two groups.
pub fn second_of_two() -> Group {
    Group {
        group: 1,
        freeblks: 45,
        longest: 45,
        ..first_of_two()
    }
}

/// The free space of the image of a file, by start.
pub fn file_free() -> [SpanRec; 5] {
    [run(19, 5), run(32, 8), run(41, 9), run(52, 8), run(61, 195)]
}

/// The shared blocks of the image of a file.
pub fn file_shared() -> [RefcRec; 3] {
    [shared(40, 1, 2), shared(50, 2, 2), shared(60, 1, 3)]
}

// The mappings of inode 195: block 40 and the blocks 50 and 51 at two offsets each, and block 60
// at three.
const FILE_RUNS: [(u32, u32, u64); 7] = [
    (40, 1, 0),
    (40, 1, 5),
    (50, 2, 10),
    (50, 2, 20),
    (60, 1, 30),
    (60, 1, 40),
    (60, 1, 50),
];

// All reverse mappings, with those.
fn file_owned(alloc: Global) -> Result<Vec<RmapRec>, AllocError> {
    let mut mappings = small_owned().to_vec(alloc)?;
    for (start, count, offset) in FILE_RUNS.iter() {
        mappings.push(mapped(*start, *count, 195, *offset))?;
    }
    Ok(mappings)
}

// Block 24, with the inode.
fn file_chunk(alloc: Global) -> Result<Block, AllocError> {
    let mut stretches = Vec::new(alloc);
    for (start, count, offset) in FILE_RUNS.iter() {
        stretches.push(written(*offset, u64::from(*start), u64::from(*count)))?;
    }
    Ok(chunk_with(&file_core(stretches.as_slice())))
}

/// Block 0 of a group in which inode 195 is allocated.
pub fn file_heads(of: &Group) -> Block {
    mended_heads(altered(heads_of(of), 1052, 60))
}

/// The image of a file: the small image with an inode that maps four blocks, all of them shared.
/// These blocks are others.
pub fn file_with(alloc: Global, blocks: &[(u64, Block)]) -> Result<MemImage, AllocError> {
    let group = Group {
        freeblks: 225,
        longest: 195,
        ..small_group()
    };
    let sizes = [run(19, 5), run(32, 8), run(52, 8), run(41, 9), run(61, 195)];
    let mappings = file_owned(alloc)?;
    let mut image = small_with(
        alloc,
        &[
            (0, file_heads(&group)),
            (1, bno_leaf(at(1), &file_free())),
            (2, cnt_leaf(at(2), &sizes)),
            (3, with_file(fresh_block(1, 256, 3))),
            (4, with_file(fresh_block(1, 256, 4))),
            (5, rmap_leaf(at(5), mappings.as_slice())),
            (6, refc_leaf(at(6), &file_shared())),
            (24, file_chunk(alloc)?),
        ],
    )?;
    for (number, block) in blocks {
        image.blocks.insert(*number, *block)?;
    }
    Ok(image)
}
