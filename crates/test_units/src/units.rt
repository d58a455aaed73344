//! Inodes and reverse mappings that are faulty, and units that are given up.
use crate::runs::expect_check;
use byte_fields::Block;
use fresh_image::fresh_block;
use image_hosts::MemImage;
use rmap_recs::RmapRec;
use small_images::{
    SKIPPED, Stretch, altered, at, chunk_with, file_core, file_heads, first_of_two, heads_of,
    mapped, mended, mended_heads, owned, rmap_leaf, second_of_two, small_group, small_heads,
    small_owned, small_with, two_groups_with, with_file, written,
};
use std::alloc::{AllocError, Global};
use std::process::Abort;

// What follows inodes that aren't good.
const NO_INODES: &str = "0 rmap skipped 0 inode\n0 free skipped 0 rmap\n0 refc skipped 0 rmap\n";

#[test]
fn reverse_mappings_are_compared(rt: HostRuntime) {
    let alloc = rt.alloc();
    let [a, b, c, d, e, list, chunk] = small_owned();
    let rows: [(&[RmapRec], &str); 7] = [
        (
            &[a, b, c, d, e, list],
            "missing 24 8 inodes 0 -\n0 rmap faulty 1",
        ),
        (
            &[a, b, c, d, owned(6, 1, 5), list, chunk],
            "missing 6 1 refc 0 -\n0 rmap extra 6 1 ag 0 -\n0 rmap faulty 2",
        ),
        (
            &[a, b, c, d, e, list, owned(24, 9, 7)],
            "missing 24 8 inodes 0 -\n0 rmap extra 24 9 inodes 0 -\n0 rmap faulty 2",
        ),
        // A free inode has no blocks: of its data, of its attributes, and of its btree.
        (
            &[a, b, c, d, e, list, chunk, mapped(40, 1, 195, 3)],
            "extra 40 1 195 3 -\n0 rmap faulty 1",
        ),
        (
            &[
                a,
                b,
                c,
                d,
                e,
                list,
                chunk,
                mapped(40, 1, 195, 3 + (1 << 63)),
            ],
            "extra 40 1 195 3 a\n0 rmap faulty 1",
        ),
        (
            &[a, b, c, d, e, list, chunk, mapped(40, 1, 195, 1 << 62)],
            "extra 40 1 195 0 t\n0 rmap faulty 1",
        ),
        (
            &[],
            "missing 0 1 fs 0 -\n0 rmap missing 1 2 ag 0 -\n0 rmap missing 3 2 inobt 0 -\n\
            0 rmap missing 5 1 ag 0 -\n0 rmap missing 6 1 refc 0 -\n0 rmap missing 7 12 ag 0 -\n\
            0 rmap missing 24 8 inodes 0 -\n0 rmap faulty 7",
        ),
    ];
    for (mappings, shown) in &rows {
        let image = small_with(alloc, &[(5, rmap_leaf(at(5), *mappings))]);
        let report = ["0 inode good\n0 rmap ", shown, "\n", SKIPPED];
        expect_check(&rt, alloc, image, 1, &report);
    }
    let heads = mended_heads(altered(small_heads(), 592, 7));
    let image = small_with(alloc, &[(0, heads)]);
    let report = [
        "0 inode good\n0 rmap counter rmap_blocks 7 1\n0 rmap faulty 1\n",
        SKIPPED,
    ];
    expect_check(&rt, alloc, image, 1, &report);
}

// The small image with inode 195 as a file with these mappings.
fn file_image(alloc: Global, stretches: &[Stretch]) -> Result<MemImage, AllocError> {
    small_with(
        alloc,
        &[
            (0, file_heads(&small_group())),
            (3, with_file(fresh_block(1, 256, 3))),
            (4, with_file(fresh_block(1, 256, 4))),
            (24, chunk_with(&file_core(stretches))),
        ],
    )
}

#[test]
fn what_an_inode_maps_is_derived(rt: HostRuntime) {
    let alloc = rt.alloc();
    // Two mappings that go on one another are one run; written data may be shared.
    let rows: [(&[Stretch], &str); 3] = [
        (
            &[written(7, 40, 1)],
            "missing 40 1 195 7 -\n0 rmap faulty 1",
        ),
        (
            &[written(0, 40, 2), written(2, 42, 3)],
            "missing 40 5 195 0 -\n0 rmap faulty 1",
        ),
        (
            &[written(0, 40, 2), written(9, 41, 1)],
            "missing 40 2 195 0 -\n0 rmap missing 41 1 195 9 -\n0 rmap faulty 2",
        ),
    ];
    for (stretches, shown) in &rows {
        let image = file_image(alloc, *stretches);
        let report = ["0 inode good\n0 rmap ", shown, "\n", SKIPPED];
        expect_check(&rt, alloc, image, 1, &report);
    }
}

#[test]
fn inodes_are_compared(rt: HostRuntime) {
    let alloc = rt.alloc();
    let rows = [
        (1040, 63, "count 63 64"),
        (1052, 60, "freecount 60 61"),
        (1360, 2, "iblocks 2 1"),
        (1364, 0, "fblocks 0 1"),
    ];
    for (place, value, shown) in &rows {
        let heads = mended_heads(altered(small_heads(), *place, *value));
        let image = small_with(alloc, &[(0, heads)]);
        let report = ["0 inode counter ", shown, "\n0 inode faulty 1\n", NO_INODES];
        expect_check(&rt, alloc, image, 1, &report);
    }
    let mask = mended(altered(fresh_block(1, 256, 3), 68, 0xffff_fff4));
    let report = [
        "0 ino missing 192 0 64 61 fffffffffffffff8\n0 ino extra 192 0 64 61 fffffffffffffff4\n\
        0 inode faulty 2\n",
        NO_INODES,
    ];
    expect_check(&rt, alloc, small_with(alloc, &[(3, mask)]), 1, &report);
    // An inode that is allocated, where both btrees and the head say that it is free.
    let allocated = chunk_with(&file_core(&[]));
    let report = [
        "0 ino missing 192 0 64 60 fffffffffffffff0\n0 ino extra 192 0 64 61 fffffffffffffff8\n\
        0 fino missing 192 0 64 60 fffffffffffffff0\n0 fino extra 192 0 64 61 fffffffffffffff8\n\
        0 inode counter freecount 61 60\n0 inode faulty 5\n",
        NO_INODES,
    ];
    expect_check(
        &rt,
        alloc,
        small_with(alloc, &[(24, allocated)]),
        1,
        &report,
    );
}

// The block with one bit of this byte turned. Its checksum stays.
fn turned(mut block: Block, at: usize) -> Block {
    if at < 4096 {
        block.bytes[at] ^= 1;
    }
    block
}

// Asserts that a check of the small image with these blocks gives its inodes up for this.
fn expect_inodes_given_up(rt: &impl Abort, alloc: Global, blocks: &[(u64, Block)], evidence: &str) {
    let report = ["0 inode gaveup ", evidence, "\n", NO_INODES];
    expect_check(rt, alloc, small_with(alloc, blocks), 6, &report);
}

#[test]
fn inodes_are_given_up_for_each_evidence(rt: HostRuntime) {
    let alloc = rt.alloc();
    let broken = turned(fresh_block(1, 256, 24), 600);
    expect_inodes_given_up(&rt, alloc, &[(24, broken)], "badchunk 24 checksum");
    let last = turned(fresh_block(1, 256, 31), 4095);
    expect_inodes_given_up(&rt, alloc, &[(31, last)], "badchunk 31 checksum");
    // The chunk is listed by neither of two btrees that can't be read.
    let unread = [
        (3, turned(fresh_block(1, 256, 3), 70)),
        (5, turned(rmap_leaf(at(5), &small_owned()), 70)),
    ];
    expect_inodes_given_up(&rt, alloc, &unread, "badtree rmap 5");
    // A record with a hole isn't supported yet.
    let hole = mended(altered(fresh_block(1, 256, 3), 60, 0x0001_403d));
    expect_inodes_given_up(&rt, alloc, &[(3, hole)], "later ino 3");
    let hole = mended(altered(fresh_block(1, 256, 4), 60, 0x0001_403d));
    expect_inodes_given_up(&rt, alloc, &[(4, hole)], "later fino 4");
    // The root of the reverse mappings and a block of the chunk stand in the free list, too.
    let list = mended_heads(altered(small_heads(), 1572, 5));
    expect_inodes_given_up(&rt, alloc, &[(0, list)], "overlap 5 list tree-rmap");
    let list = mended_heads(altered(small_heads(), 1572, 31));
    expect_inodes_given_up(&rt, alloc, &[(0, list)], "overlap 31 list chunk");
}

#[test]
fn reverse_mappings_are_given_up_for_a_fork(rt: HostRuntime) {
    let alloc = rt.alloc();
    let rows: [(&[Stretch], &str); 6] = [
        (&[written(0, 0, 1)], "overlap 0 heads data 195"),
        (&[written(0, 18, 2)], "overlap 18 list data 195"),
        (
            &[written(0, 40, 1), written(1, 31, 1)],
            "overlap 31 chunk data 195",
        ),
        // A mapping that passes the group's end, one that begins before the last, and one in its offsets.
        (&[written(0, 255, 2)], "badfork 195 range"),
        (&[written(9, 40, 1), written(8, 41, 1)], "badfork 195 order"),
        (
            &[written(8, 40, 2), written(9, 42, 1)],
            "badfork 195 overlap",
        ),
    ];
    for (stretches, evidence) in &rows {
        let image = file_image(alloc, *stretches);
        let report = ["0 inode good\n0 rmap gaveup ", evidence, "\n", SKIPPED];
        expect_check(&rt, alloc, image, 6, &report);
    }
}

// What a check shows of the space of two groups whose reverse mappings aren't good.
const NO_SPACE: &str = "0 free skipped 0 rmap\n0 refc skipped 0 rmap\n\
    1 free skipped 1 rmap\n1 refc skipped 1 rmap\n";

#[test]
fn a_unit_keeps_others_from_being_judged(rt: HostRuntime) {
    let alloc = rt.alloc();
    let count = mended_heads(altered(heads_of(&second_of_two()), 1040, 5));
    let image = two_groups_with(alloc, &[(64, count)]);
    let report = [
        "0 inode good\n1 inode counter count 5 0\n1 inode faulty 1\n\
        0 rmap skipped 1 inode\n1 rmap skipped 1 inode\n",
        NO_SPACE,
    ];
    expect_check(&rt, alloc, image, 1, &report);
    // The first of two that don't pass; one of them is given up.
    let broken = turned(fresh_block(1, 256, 24), 600);
    let image = two_groups_with(alloc, &[(24, broken), (64, count)]);
    let report = [
        "0 inode gaveup badchunk 24 checksum\n1 inode counter count 5 0\n1 inode faulty 1\n\
        0 rmap skipped 0 inode\n1 rmap skipped 0 inode\n",
        NO_SPACE,
    ];
    expect_check(&rt, alloc, image, 6, &report);
    // A bad fork may have blocks of every group.
    let blocks = [
        (0, file_heads(&first_of_two())),
        (3, with_file(fresh_block(1, 256, 3))),
        (4, with_file(fresh_block(1, 256, 4))),
        (24, chunk_with(&file_core(&[written(0, 63, 2)]))),
    ];
    let image = two_groups_with(alloc, &blocks);
    let report = [
        "0 inode good\n1 inode good\n0 rmap gaveup badfork 195 range\n\
        1 rmap gaveup badfork 195 range\n",
        NO_SPACE,
    ];
    expect_check(&rt, alloc, image, 6, &report);
}

#[test]
fn a_file_may_have_blocks_of_another_group(rt: HostRuntime) {
    let alloc = rt.alloc();
    // Block 30 of group 1 has the number 64 + 30.
    let blocks = [
        (0, file_heads(&first_of_two())),
        (3, with_file(fresh_block(1, 256, 3))),
        (4, with_file(fresh_block(1, 256, 4))),
        (24, chunk_with(&file_core(&[written(4, 94, 2)]))),
    ];
    let image = two_groups_with(alloc, &blocks);
    let report = "0 inode good\n1 inode good\n0 rmap good\n1 rmap missing 30 2 195 4 -\n\
        1 rmap faulty 1\n0 free good\n0 refc good\n1 free skipped 1 rmap\n1 refc skipped 1 rmap\n";
    expect_check(&rt, alloc, image, 1, &[report]);
}
