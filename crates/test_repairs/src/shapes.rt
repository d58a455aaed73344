//! A repair whose new tree grows while its blocks are reserved.
use crate::runs::{MEMORY, REPAIR, expect_good, expect_run, host_of, run, word_of};
use crate::same::same;
use byte_fields::Block;
use fresh_image::fresh_block;
use fs_model::{Entry, Unit};
use image_hosts::MemImage;
use rmap_recs::RmapRec;
use small_images::{
    ALL_GOOD, Group, altered, at, bno_leaf, chunk_with, cnt_leaf, fork_leaf, heads_of, mapped,
    mended_heads, owned, rmap_leaf, run as free_run, small_group, small_with, tree_core, with_file,
};
use std::alloc::{AllocError, Global};
use std::process::Abort;

// The bit that marks a block of a fork's btree in a reverse mapping.
const FORK_TREE: u64 = 0x4000_0000_0000_0000;

// So many blocks of inode 195 from a block on, none of which goes on in its file: each has every second offset,
// from this one on.
fn put_pieces(
    pieces: &mut Vec<RmapRec>,
    from: u32,
    count: u32,
    offset: u64,
) -> Result<(), AllocError> {
    for i in 0..count {
        let word = offset.wrapping_add(u64::from(i).wrapping_mul(2));
        pieces.push(mapped(from.wrapping_add(i), 1, 195, word))?;
    }
    Ok(())
}

// The 160 mappings of the file: the blocks 16 to 23 and 35 to 186.
fn pieces(alloc: Global) -> Result<Vec<RmapRec>, AllocError> {
    let mut pieces = Vec::new(alloc);
    put_pieces(&mut pieces, 16, 8, 0)?;
    put_pieces(&mut pieces, 35, 152, 16)?;
    Ok(pieces)
}

// The reverse mappings before those of the file's data: a free list of eight blocks, and a block of the
// file's btree.
fn owned_first() -> [RmapRec; 7] {
    [
        owned(0, 1, 3),
        owned(1, 2, 5),
        owned(3, 2, 6),
        owned(5, 1, 5),
        owned(6, 1, 8),
        owned(7, 8, 5),
        mapped(15, 1, 195, FORK_TREE),
    ]
}

// All 168 reverse mappings, in order.
fn owners(alloc: Global) -> Result<Vec<RmapRec>, AllocError> {
    let mut owners = owned_first().to_vec(alloc)?;
    put_pieces(&mut owners, 16, 8, 0)?;
    owners.push(owned(24, 8, 7))?;
    put_pieces(&mut owners, 35, 152, 16)?;
    Ok(owners)
}

// The heads: a free list of eight blocks, and free space of three and of 69 blocks.
fn grown_heads() -> Block {
    let group = Group {
        freeblks: 72,
        longest: 69,
        ..small_group()
    };
    let heads = altered(altered(heads_of(&group), 556, 7), 560, 8);
    mended_heads(altered(heads, 1052, 60))
}

// The image, whose reverse mappings are this leaf.
fn grown_with(alloc: Global, leaf: Block) -> Result<MemImage, AllocError> {
    let free = [free_run(32, 3), free_run(187, 69)];
    let pieces = pieces(alloc)?;
    small_with(
        alloc,
        &[
            (0, grown_heads()),
            (1, bno_leaf(at(1), &free)),
            (2, cnt_leaf(at(2), &free)),
            (3, with_file(fresh_block(1, 256, 3))),
            (4, with_file(fresh_block(1, 256, 4))),
            (5, leaf),
            (15, fork_leaf(15, pieces.as_slice())),
            (24, chunk_with(&tree_core(160, 15))),
        ],
    )
}

// The image, sound or with another byte in its full leaf of reverse mappings.
fn grown_image(alloc: Global, is_sound: bool) -> Result<MemImage, AllocError> {
    let owners = owners(alloc)?;
    let leaf = rmap_leaf(at(5), owners.as_slice());
    if is_sound {
        return grown_with(alloc, leaf);
    }
    grown_with(alloc, altered(leaf, 68, 0xffff_feff))
}

#[test]
fn a_full_leaf_of_reverse_mappings_is_sound(rt: HostRuntime) {
    let alloc = rt.alloc();
    same(&rt, owners(alloc).expect(&rt, MEMORY).len(), 168);
    let mut host = host_of(&rt, alloc, grown_image(alloc, true));
    expect_good(&rt, alloc, &mut host);
    expect_run(&rt, alloc, &mut host, &REPAIR, (0, ALL_GOOD));
}

// The blocks that were reserved for reverse mappings, and the root that came with the switch.
fn reserved_of(alloc: Global, journal: &[Entry]) -> Result<Vec<(u32, bool)>, AllocError> {
    let mut blocks = Vec::new(alloc);
    for entry in journal {
        match *entry {
            Entry::Reserved {
                unit: Unit::Rmap,
                block,
                spare,
                ..
            } => blocks.push((block, spare))?,
            Entry::Switched {
                unit: Unit::Rmap,
                root,
                ..
            } => blocks.push((root, false))?,
            _ => {}
        }
    }
    Ok(blocks)
}

#[test]
fn the_first_block_of_the_reserve_makes_the_tree_grow(rt: HostRuntime) {
    let alloc = rt.alloc();
    let mut host = host_of(&rt, alloc, grown_image(alloc, false));
    let end = run(&rt, alloc, &mut host, &REPAIR);
    same(&rt, end.status, 0);
    let blocks = reserved_of(alloc, end.journal.as_slice()).expect(&rt, MEMORY);
    let wanted = [(32, true), (33, true), (34, true), (34, false)];
    same(&rt, blocks.as_slice(), &wanted[..]);
    expect_good(&rt, alloc, &mut host);
}

// Whether the roots were switched, and nothing was reaped yet.
fn is_switched(journal: &[Entry]) -> bool {
    let mut switched = false;
    for entry in journal {
        match *entry {
            Entry::Switched { .. } => switched = true,
            Entry::Reaped(_) => return false,
            _ => {}
        }
    }
    switched
}

// Repairs the image with a device whose call of this number fails. Where that comes between switch and
// reaping, answers how many records both leaves have, and the root.
fn leaves_at(rt: &impl Abort, alloc: Global, call: u64) -> Option<[u32; 3]> {
    let mut image = grown_image(alloc, false).expect(rt, MEMORY);
    image.failing.push(call).expect(rt, MEMORY);
    let mut host = host_of(rt, alloc, Ok(image));
    let end = run(rt, alloc, &mut host, &REPAIR);
    if end.status != 5 || !is_switched(end.journal.as_slice()) {
        return None;
    }
    Some([
        word_of(&host, 32, 4),
        word_of(&host, 33, 4),
        word_of(&host, 0, 536),
    ])
}

// The first of these calls at whose failure the switch is done and nothing reaped.
fn leaves_found(rt: &impl Abort, alloc: Global) -> Option<[u32; 3]> {
    for call in 0..1000 {
        let found = leaves_at(rt, alloc, call);
        if found.is_some() {
            return found;
        }
    }
    None
}

#[test]
fn the_leaves_of_the_grown_tree_are_even(rt: HostRuntime) {
    let found = leaves_found(&rt, rt.alloc());
    same(&rt, found, Some([85, 84, 34]));
}
