//! Repairs that are refused: for the redo file, the superblock, or a head.
use crate::files::small_damaged;
use crate::runs::{MEMORY, REPAIR, expect_run, expect_same, host_beside, host_of};
use byte_fields::{Block, put_u32, put_u64};
use image_hosts::{MemHost, MemImage};
use small_images::{
    ALL_GOOD, altered, at, bno_leaf, first_of_two, heads_of, mended_heads, run, second_of_two,
    small_image, small_with, two_groups_with,
};
use std::alloc::{AllocError, Global};
use std::process::Abort;

// A block with this in its first byte.
fn gate(first: u8) -> Block {
    let mut block = Block::zeroed();
    block.bytes[0] = first;
    block
}

// The table of a change of an image of so many blocks, which has so many blocks, these two first.
fn table(image: u64, count: u32, first: u64, second: u64) -> Block {
    let mut block = Block::zeroed();
    put_u64(&mut block.bytes, 0, image);
    put_u32(&mut block.bytes, 8, count);
    put_u64(&mut block.bytes, 16, first);
    put_u64(&mut block.bytes, 24, second);
    block
}

// A host with this image beside a redo file of so many blocks, with this gate and this table.
fn host_waiting(rt: &impl Abort, alloc: Global, size: u64, first: u8, waiting: Block) -> MemHost {
    let image = small_image(alloc).expect(rt, MEMORY);
    host_beside(alloc, image, size, &[(0, gate(first)), (1, waiting)]).expect(rt, MEMORY)
}

// Asserts how a repair beside such a redo file ends, and that the image is as it was.
fn expect_beside(rt: &impl Abort, alloc: Global, redo: (u64, u8, Block), wanted: (u8, &str)) {
    let mut host = host_waiting(rt, alloc, redo.0, redo.1, redo.2);
    expect_run(rt, alloc, &mut host, &REPAIR, wanted);
    let before = small_image(alloc).expect(rt, MEMORY);
    expect_same(rt, &host, &before, (0, 256));
}

#[test]
fn a_redo_file_is_refused_by_length_count_size_and_place(rt: HostRuntime) {
    let rows = [
        (0, 0, table(256, 1, 7, 0), (4, "redo short\n")),
        (161, 1, table(256, 1, 7, 0), (4, "redo short\n")),
        (162, 1, table(256, 0, 7, 0), (4, "redo count\n")),
        (162, 1, table(256, 161, 7, 8), (4, "redo count\n")),
        (162, 1, table(255, 0, 7, 8), (4, "redo count\n")),
        (162, 1, table(255, 1, 7, 0), (4, "redo size\n")),
        (162, 1, table(257, 1, 256, 0), (4, "redo size\n")),
        (162, 1, table(256, 1, 256, 0), (4, "redo place\n")),
        (162, 1, table(256, 2, 7, 7), (4, "redo place\n")),
        (162, 1, table(256, 2, 8, 7), (4, "redo place\n")),
        (162, 0, table(255, 0, 9, 9), (0, ALL_GOOD)),
        (162, 2, table(255, 0, 9, 9), (0, ALL_GOOD)),
        (200, 0, table(255, 0, 9, 9), (0, ALL_GOOD)),
    ];
    for (size, first, waiting, wanted) in &rows {
        expect_beside(&rt, rt.alloc(), (*size, *first, *waiting), *wanted);
    }
}

// Free space by start, as it should be and with another byte.
fn free_leaf() -> Block {
    bno_leaf(at(1), &[run(19, 5), run(32, 224)])
}

// A host with a damaged image, beside a redo file in which a change waits that mends it.
fn host_mended(alloc: Global) -> Result<MemHost, AllocError> {
    let image = small_with(alloc, &[(1, altered(free_leaf(), 68, 0x1e0))])?;
    let redo = [(0, gate(1)), (1, table(256, 1, 1, 0)), (2, free_leaf())];
    host_beside(alloc, image, 162, &redo)
}

#[test]
fn a_change_that_waits_is_finished_first(rt: HostRuntime) {
    let mut host = host_mended(rt.alloc()).expect(&rt, MEMORY);
    expect_run(&rt, rt.alloc(), &mut host, &REPAIR, (0, ALL_GOOD));
    let before = small_image(rt.alloc()).expect(&rt, MEMORY);
    expect_same(&rt, &host, &before, (0, 256));
    // The gate was closed.
    let words = ["check", "a.img", "--redo", "b"];
    expect_run(&rt, rt.alloc(), &mut host, &words, (0, ALL_GOOD));
}

// Asserts that a repair of the small image with this number at a byte of its heads is refused, and leaves it
// as it was.
fn expect_refused(rt: &impl Abort, alloc: Global, at: usize, value: u32, line: &str) {
    let mut host = host_of(rt, alloc, small_damaged(alloc, at, value));
    expect_run(rt, alloc, &mut host, &REPAIR, (4, line));
    let before = small_damaged(alloc, at, value).expect(rt, MEMORY);
    expect_same(rt, &host, &before, (0, 256));
}

#[test]
fn superblock_and_heads_are_tested_first(rt: HostRuntime) {
    let rows = [
        (0, 0x5846_5344, "image magic\n"),
        (100, 0x0004_0200, "image version\n"),
        (4, 512, "image sizes\n"),
        (216, 0x0000_0103, "image feature 40\n"),
        (212, 0x0000_000d, "image feature 1\n"),
        (20, 1, "image realtime\n"),
        (88, 2, "image counts\n"),
        (512, 0x5841_4749, "group 0 agf magic\n"),
        (524, 255, "group 0 agf length\n"),
        (1028, 2, "group 0 agi version\n"),
        (1332, 0x0d0e_0f11, "group 0 agi uuid\n"),
        (1540, 1, "group 0 agfl seqno\n"),
        (1584, 9, "group 0 agfl freelist 3\n"),
    ];
    for (at, value, line) in rows {
        expect_refused(&rt, rt.alloc(), at, value, line);
    }
}

// Two groups, of which the second has a bad head.
fn two_groups(alloc: Global) -> Result<MemImage, AllocError> {
    let bad = mended_heads(altered(heads_of(&second_of_two()), 1028, 2));
    two_groups_with(alloc, &[(0, heads_of(&first_of_two())), (64, bad)])
}

// Asserts how a repair of such an image ends, beside a redo file of so many blocks.
fn expect_order(rt: &impl Abort, alloc: Global, size: u64, line: &str) {
    let image = two_groups(alloc).expect(rt, MEMORY);
    let mut host = host_beside(alloc, image, size, &[]).expect(rt, MEMORY);
    expect_run(rt, alloc, &mut host, &REPAIR, (4, line));
}

#[test]
fn the_redo_file_is_asked_before_heads(rt: HostRuntime) {
    let rows = [
        (0, "redo short\n"),
        (161, "redo short\n"),
        (162, "group 1 agi version\n"),
    ];
    for (size, line) in rows {
        expect_order(&rt, rt.alloc(), size, line);
    }
}

// Asserts that an image whose file has so few blocks is refused.
fn expect_too_short(rt: &impl Abort, alloc: Global, size: u64) {
    let mut image = small_image(alloc).expect(rt, MEMORY);
    image.size = size;
    let mut host = host_beside(alloc, image, 162, &[]).expect(rt, MEMORY);
    expect_run(rt, alloc, &mut host, &REPAIR, (4, "image deviceshort\n"));
}

#[test]
fn an_image_that_is_cut_is_refused(rt: HostRuntime) {
    for size in [0, 10, 255] {
        expect_too_short(&rt, rt.alloc(), size);
    }
}

#[test]
fn an_image_that_is_not_there_is_a_fault_of_the_host(rt: HostRuntime) {
    let mut host = host_of(&rt, rt.alloc(), small_image(rt.alloc()));
    let words = ["repair", "b.img", "--redo", "b"];
    expect_run(&rt, rt.alloc(), &mut host, &words, (5, "host failed\n"));
    let before = small_image(rt.alloc()).expect(&rt, MEMORY);
    expect_same(&rt, &host, &before, (0, 256));
}
