//! Damaged images, and images with a file, that repairs begin with; and repairs of those with a file.
use crate::runs::{MEMORY, REPAIR, expect_good, expect_run, expect_same, host_of};
use byte_fields::Block;
use fresh_image::fresh_block;
use image_hosts::{MemHost, MemImage};
use rmap_recs::RmapRec;
use small_images::{
    Group, altered, at, bno_leaf, chunk_with, cnt_leaf, file_core, file_heads, file_with, heads_of,
    mapped, mended, mended_heads, rmap_leaf, small_group, small_heads, small_owned, small_with,
    with_file, written,
};
use std::alloc::{AllocError, Global};
use std::process::Abort;

/// A leaf without its records.
pub(crate) fn emptied(leaf: Block) -> Block {
    mended(altered(leaf, 4, 0))
}

/// The small image with this number at a byte of its heads.
pub(crate) fn small_damaged(alloc: Global, at: usize, value: u32) -> Result<MemImage, AllocError> {
    let heads = mended_heads(altered(small_heads(), at, value));
    small_with(alloc, &[(0, heads)])
}

/// The small image without one of its reverse mappings.
pub(crate) fn owned_but(alloc: Global, dropped: usize) -> Result<MemImage, AllocError> {
    let mut mappings = Vec::new(alloc);
    for (i, mapping) in small_owned().iter().enumerate() {
        if i != dropped {
            mappings.push(*mapping)?;
        }
    }
    small_with(alloc, &[(5, rmap_leaf(at(5), mappings.as_slice()))])
}

// The heads of the small image once inode 195 is allocated, with this free space and an empty free list.
fn bare_heads() -> Block {
    let group = Group {
        freeblks: 0,
        longest: 0,
        ..small_group()
    };
    let heads = altered(altered(heads_of(&group), 552, 1), 556, 0);
    mended_heads(altered(altered(heads, 560, 0), 1052, 60))
}

// The reverse mappings of a file that has all blocks which nothing else has.
fn full_owned() -> [RmapRec; 8] {
    let [heads, space, inodes, mappings, counts, _, chunk] = small_owned();
    let first = mapped(7, 17, 195, 0);
    let second = mapped(32, 224, 195, 17);
    [heads, space, inodes, mappings, counts, first, chunk, second]
}

// This chunk, which has a file, and both inode btrees that list it.
fn with_chunk(chunk: Block) -> [(u64, Block); 3] {
    [
        (3, with_file(fresh_block(1, 256, 3))),
        (4, with_file(fresh_block(1, 256, 4))),
        (24, chunk),
    ]
}

/// An image without a free block, whose free space by start can't be read.
pub(crate) fn full_image(alloc: Global) -> Result<MemImage, AllocError> {
    let core = file_core(&[written(0, 7, 17), written(17, 32, 224)]);
    let [ino, fino, chunk] = with_chunk(chunk_with(&core));
    small_with(
        alloc,
        &[
            (0, bare_heads()),
            (1, altered(bno_leaf(at(1), &[]), 68, 0x100)),
            (2, cnt_leaf(at(2), &[])),
            (5, rmap_leaf(at(5), &full_owned())),
            ino,
            fino,
            chunk,
        ],
    )
}

/// The small image with a file that maps block 0 too.
pub(crate) fn overlapping(alloc: Global) -> Result<MemImage, AllocError> {
    let core = file_core(&[written(0, 0, 1)]);
    let [ino, fino, chunk] = with_chunk(chunk_with(&core));
    small_with(alloc, &[(0, file_heads(&small_group())), ino, fino, chunk])
}

#[test]
fn a_group_without_a_free_block_keeps_its_trees(rt: HostRuntime) {
    let report =
        "0 inode good\n0 rmap good\n0 bno block 1 checksum\n0 free gaveup space 0 2\n0 refc good\n";
    let mut host = host_of(&rt, rt.alloc(), full_image(rt.alloc()));
    expect_run(&rt, rt.alloc(), &mut host, &REPAIR, (6, report));
    let before = full_image(rt.alloc()).expect(&rt, MEMORY);
    expect_same(&rt, &host, &before, (0, 256));
}

#[test]
fn owners_that_contradict_each_other_leave_the_image_as_it_was(rt: HostRuntime) {
    let report = "0 inode good\n0 rmap gaveup overlap 0 heads data 195\n0 free skipped 0 rmap\n\
            0 refc skipped 0 rmap\n";
    let mut host = host_of(&rt, rt.alloc(), overlapping(rt.alloc()));
    expect_run(&rt, rt.alloc(), &mut host, &REPAIR, (6, report));
    let before = overlapping(rt.alloc()).expect(&rt, MEMORY);
    expect_same(&rt, &host, &before, (0, 256));
}

// The image of a file without the only record of its inode btree, of the other one, or of both.
fn unlisted(alloc: Global, row: usize) -> Result<MemImage, AllocError> {
    let listed = with_file(fresh_block(1, 256, 3));
    let free = with_file(fresh_block(1, 256, 4));
    match row {
        0 => file_with(alloc, &[(3, emptied(listed))]),
        1 => file_with(alloc, &[(4, emptied(free))]),
        _ => file_with(alloc, &[(3, emptied(listed)), (4, emptied(free))]),
    }
}

// What a repair reports of it.
fn unlisted_report(row: usize) -> &'static str {
    match row {
        0 => "0 ino missing 192 0 64 60 fffffffffffffff0\n0 inode rebuilt\n0 rmap good\n\
                0 free good\n0 refc good\n",
        1 => "0 fino missing 192 0 64 60 fffffffffffffff0\n0 inode rebuilt\n0 rmap good\n\
                0 free good\n0 refc good\n",
        _ => {
            "0 ino missing 192 0 64 60 fffffffffffffff0\n\
            0 fino missing 192 0 64 60 fffffffffffffff0\n\
            0 inode rebuilt\n0 rmap good\n0 free good\n0 refc good\n"
        }
    }
}

// Repairs a row's image, and asserts that its inodes and its shared blocks are as they were, and that a check finds
// all good, so that the reverse mappings have those of the file.
fn expect_kept(rt: &impl Abort, alloc: Global, row: usize) {
    let mut host = host_of(rt, alloc, unlisted(alloc, row));
    expect_run(rt, alloc, &mut host, &REPAIR, (0, unlisted_report(row)));
    expect_good(rt, alloc, &mut host);
    let before = unlisted(alloc, row).expect(rt, MEMORY);
    same_files(rt, &host, &before);
}

// Asserts that the chunk and the reference counts are those of this image.
fn same_files(rt: &impl Abort, host: &MemHost, before: &MemImage) {
    expect_same(rt, host, before, (6, 7));
    expect_same(rt, host, before, (24, 32));
}

#[test]
fn a_file_whose_chunk_isn_t_listed_keeps_its_mappings(rt: HostRuntime) {
    for row in 0..3 {
        expect_kept(&rt, rt.alloc(), row);
    }
}
