//! Trees that can't be read, and trees of several levels.
use crate::runs::expect_check;
use byte_fields::Block;
use fresh_image::fresh_block;
use image_hosts::MemImage;
use rmap_recs::RmapRec;
use small_images::{
    ALL_GOOD, Group, NONE, SKIPPED, SOUND, altered, at, bno_leaf, chunk_with, cnt_leaf, file_heads,
    fork_leaf, image_of, mapped, mended, mended_heads, owned, refc_leaf, rmap_leaf, rmap_part,
    rmap_root, run, small_heads, small_owned, small_with, tree_core, two_groups_with, with_file,
};
use span_recs::SpanRec;
use std::alloc::{AllocError, Global};

fn small_bno() -> Block {
    bno_leaf(at(1), &[run(19, 5), run(32, 224)])
}

#[test]
fn each_fault_of_a_leaf_is_named(rt: HostRuntime) {
    let alloc = rt.alloc();
    let rows = [
        (4, 0x0001_0002, "level"),
        // 506 records are claimed.
        (4, 0x0000_01fa, "count"),
        (8, 2, "sibling"),
        (12, 2, "sibling"),
        // The second record begins with the first, and then before it.
        (64, 19, "order"),
        (56, 33, "order"),
        // A start of 0, a count of 0, and ends beyond the group and beyond all numbers.
        (56, 0, "range"),
        (60, 0, "range"),
        (68, 225, "range"),
        (68, 0xffff_ffff, "range"),
    ];
    for (place, value, name) in &rows {
        let leaf = mended(altered(small_bno(), *place, *value));
        let report = [
            SOUND,
            "0 bno block 1 ",
            name,
            "\n0 free faulty 1\n0 refc good\n",
        ];
        expect_check(&rt, alloc, small_with(alloc, &[(1, leaf)]), 1, &report);
    }
}

#[test]
fn a_block_that_says_that_it_is_another_has_no_owner(rt: HostRuntime) {
    let alloc = rt.alloc();
    // Its magic number, its place, its group or its uuid is that of another, so the tree doesn't claim
    // it, and block 2 alone is derived.
    let report = "0 inode good\n0 rmap extra 1 2 ag 0 -\n0 rmap missing 2 1 ag 0 -\n\
        0 rmap faulty 2\n0 free skipped 0 rmap\n0 refc skipped 0 rmap\n";
    for (place, value) in [(0, 0x4142_3343), (20, 16), (48, 1), (44, 0x0d0e_0f11)] {
        let leaf = mended(altered(small_bno(), place, value));
        expect_check(&rt, alloc, small_with(alloc, &[(1, leaf)]), 1, &[report]);
    }
    // With the reverse mappings that go with it the block's fault is shown, and block 1 is free.
    let rows = [
        (0, 0x4142_3343, "magic"),
        (20, 16, "place"),
        (48, 1, "owner"),
        (44, 0x0d0e_0f11, "uuid"),
    ];
    let [a, _, c, d, e, list, chunk] = small_owned();
    let mappings = rmap_leaf(at(5), &[a, owned(2, 1, 5), c, d, e, list, chunk]);
    let counter = "0 free counter freeblks 229 230\n0 free faulty 3\n";
    for (place, value, name) in &rows {
        let leaf = mended(altered(small_bno(), *place, *value));
        let image = small_with(alloc, &[(1, leaf), (5, mappings)]);
        let report = [
            SOUND,
            "0 bno block 1 ",
            name,
            "\n0 cnt missing 1 1\n",
            counter,
            "0 refc good\n",
        ];
        expect_check(&rt, alloc, image, 1, &report);
    }
}

#[test]
fn a_changed_byte_is_a_wrong_checksum(rt: HostRuntime) {
    let alloc = rt.alloc();
    let free = [run(19, 5), run(32, 224)];
    let inodes = "0 rmap skipped 0 inode\n0 free skipped 0 rmap\n0 refc skipped 0 rmap\n";
    let mappings = "0 inode good\n0 rmap block 5 checksum\n0 rmap faulty 1\n";
    let rows = [
        (
            1,
            small_bno(),
            SOUND,
            "0 bno block 1 checksum\n0 free faulty 1\n0 refc good\n",
        ),
        (
            2,
            cnt_leaf(at(2), &free),
            SOUND,
            "0 cnt block 2 checksum\n0 free faulty 1\n0 refc good\n",
        ),
        (
            3,
            fresh_block(1, 256, 3),
            "0 ino block 3 checksum\n0 inode faulty 1\n",
            inodes,
        ),
        (
            4,
            fresh_block(1, 256, 4),
            "0 fino block 4 checksum\n0 inode faulty 1\n",
            inodes,
        ),
        (5, rmap_leaf(at(5), &small_owned()), mappings, SKIPPED),
        (
            6,
            refc_leaf(at(6), &[]),
            SOUND,
            "0 free good\n0 refc block 6 checksum\n0 refc faulty 1\n",
        ),
    ];
    for (number, block, first, last) in &rows {
        let mut block = *block;
        block.bytes[70] ^= 1;
        let image = small_with(alloc, &[(*number, block)]);
        let report = [*first, *last];
        expect_check(&rt, alloc, image, 1, &report);
    }
}

#[test]
fn counters_of_blocks_need_their_trees(rt: HostRuntime) {
    let alloc = rt.alloc();
    // Five blocks of trees and nine of reference counts are counted, and 228 free ones.
    let heads = altered(altered(small_heads(), 572, 5), 596, 9);
    let heads = mended_heads(altered(heads, 564, 228));
    let unsummed = altered(refc_leaf(at(6), &[]), 68, 1);
    let blocks = [
        (0, heads),
        (2, altered(cnt_leaf(at(2), &[]), 68, 1)),
        (6, unsummed),
    ];
    let report = "0 inode good\n0 rmap good\n0 cnt block 2 checksum\n\
        0 free counter freeblks 228 229\n0 free faulty 2\n\
        0 refc block 6 checksum\n0 refc faulty 1\n";
    expect_check(&rt, alloc, small_with(alloc, &blocks), 1, &[report]);
}

#[test]
fn each_fault_of_the_reverse_mappings_skips_both_units(rt: HostRuntime) {
    let alloc = rt.alloc();
    let rows = [
        (0, 0x4142_3342, "magic"),
        (4, 0x0001_0007, "level"),
        // 169 records are claimed.
        (4, 0x0000_00a9, "count"),
        (8, 6, "sibling"),
        (12, 6, "sibling"),
        (20, 48, "place"),
        (48, 1, "owner"),
        (44, 0x0d0e_0f11, "uuid"),
        // The second record begins with the first, whose owner is the greater number.
        (80, 0, "order"),
        // A count of 0, and an end beyond the group.
        (204, 0, "range"),
        (204, 233, "range"),
        // Owners below zero that stand for none, for an unknown one and for nothing.
        (68, 0xffff_ffff, "range"),
        (68, 0xffff_fffe, "range"),
        (68, 0xffff_fff6, "range"),
        // An offset of an owner that isn't an inode.
        (220, 1, "range"),
    ];
    for (place, value, name) in &rows {
        let leaf = mended(altered(rmap_leaf(at(5), &small_owned()), *place, *value));
        let image = small_with(alloc, &[(5, leaf)]);
        let report = [
            "0 inode good\n0 rmap block 5 ",
            name,
            "\n0 rmap faulty 1\n",
            SKIPPED,
        ];
        expect_check(&rt, alloc, image, 1, &report);
    }
    let unsummed = altered(rmap_leaf(at(5), &small_owned()), 68, 0xffff_00fd);
    let report = "0 inode good\n1 inode good\n0 rmap block 5 checksum\n0 rmap faulty 1\n\
        1 rmap good\n0 free skipped 0 rmap\n0 refc skipped 0 rmap\n1 free good\n1 refc good\n";
    let image = two_groups_with(alloc, &[(5, unsummed)]);
    expect_check(&rt, alloc, image, 1, &[report]);
}

#[test]
fn a_root_that_isn_t_there_has_no_owner(rt: HostRuntime) {
    let alloc = rt.alloc();
    // What is derived for the blocks 1 and 2 without the root in one of them, and without block 6.
    let no_bno = "0 rmap extra 1 2 ag 0 -\n0 rmap missing 2 1 ag 0 -\n0 rmap faulty 2\n";
    let no_cnt = "0 rmap missing 1 1 ag 0 -\n0 rmap extra 1 2 ag 0 -\n0 rmap faulty 2\n";
    let no_refc = "0 rmap extra 6 1 refc 0 -\n0 rmap faulty 1\n";
    let rows = [
        (528, 0, no_bno),
        (528, 256, no_bno),
        (532, 0, no_cnt),
        (532, 256, no_cnt),
        (600, 0, no_refc),
        (600, 256, no_refc),
        (536, 0, "0 rmap block 0 range\n0 rmap faulty 1\n"),
        (536, 256, "0 rmap block 256 range\n0 rmap faulty 1\n"),
    ];
    for (place, value, shown) in &rows {
        let heads = mended_heads(altered(small_heads(), *place, *value));
        let image = small_with(alloc, &[(0, heads)]);
        let report = ["0 inode good\n", shown, SKIPPED];
        expect_check(&rt, alloc, image, 1, &report);
    }
}

#[test]
fn roots_that_no_tree_has_are_shown_where_no_block_has_another_owner(rt: HostRuntime) {
    let alloc = rt.alloc();
    // The reverse mappings are those without the root's block, which is free then: block 1 or 2 of both
    // space btrees, or block 6.
    let [a, b, c, d, e, list, chunk] = small_owned();
    let no_bno = rmap_leaf(at(5), &[a, owned(2, 1, 5), c, d, e, list, chunk]);
    let no_cnt = rmap_leaf(at(5), &[a, owned(1, 1, 5), c, d, e, list, chunk]);
    let no_refc = rmap_leaf(at(5), &[a, b, c, d, list, chunk]);
    let counter = "0 free counter freeblks 229 230\n0 free faulty 3\n";
    let rows = [
        (
            528,
            0,
            no_bno,
            "0 bno block 0 range\n0 cnt missing 1 1\n",
            "0 refc good\n",
        ),
        (
            528,
            256,
            no_bno,
            "0 bno block 256 range\n0 cnt missing 1 1\n",
            "0 refc good\n",
        ),
        (
            532,
            256,
            no_cnt,
            "0 bno missing 2 1\n0 cnt block 256 range\n",
            "0 refc good\n",
        ),
        (
            600,
            0,
            no_refc,
            "0 bno missing 6 1\n0 cnt missing 6 1\n",
            "0 refc block 0 range\n0 refc faulty 1\n",
        ),
    ];
    for (place, value, mappings, free, counts) in &rows {
        let heads = mended_heads(altered(small_heads(), *place, *value));
        let image = small_with(alloc, &[(0, heads), (5, *mappings)]);
        let report = [SOUND, free, counter, counts];
        expect_check(&rt, alloc, image, 1, &report);
    }
}

#[test]
fn levels_that_no_tree_has(rt: HostRuntime) {
    let alloc = rt.alloc();
    let rows = [
        (
            540,
            2,
            SOUND,
            "0 bno block 1 level\n0 free faulty 1\n0 refc good\n",
        ),
        (
            544,
            0,
            SOUND,
            "0 cnt block 2 level\n0 free faulty 1\n0 refc good\n",
        ),
        (
            604,
            10,
            SOUND,
            "0 free good\n0 refc block 6 level\n0 refc faulty 1\n",
        ),
        (
            548,
            2,
            "0 inode good\n0 rmap block 5 level\n0 rmap faulty 1\n",
            SKIPPED,
        ),
    ];
    for (place, value, first, last) in &rows {
        let heads = mended_heads(altered(small_heads(), *place, *value));
        let image = small_with(alloc, &[(0, heads)]);
        let report = [*first, *last];
        expect_check(&rt, alloc, image, 1, &report);
    }
}

// Block 40 and each second one after it are data of an inode: 40, 42 to 360.
fn pieces(alloc: Global, from: u32, to: u32) -> Result<Vec<RmapRec>, AllocError> {
    let mut mappings = Vec::new(alloc);
    for i in from..to {
        let block = i.wrapping_mul(2).wrapping_add(40);
        mappings.push(mapped(block, 1, 195, u64::from(i)))?;
    }
    Ok(mappings)
}

// What is free beside them, by count: 41, 43 to 359, and then three longer runs.
fn gaps(alloc: Global) -> Result<Vec<SpanRec>, AllocError> {
    let mut free = Vec::new(alloc);
    for i in 0..160u32 {
        free.push(run(2 * i + 41, 1))?;
    }
    Ok(free)
}

// The 85 records of the left leaf of the reverse mappings. The leaves are the blocks 19 and 20, of
// which the right one has 84, and block 21 has the leaf of the file's btree.
fn low_mappings(alloc: Global) -> Result<Vec<RmapRec>, AllocError> {
    let mut low = small_owned()[..5].to_vec(alloc)?;
    low.push(owned(7, 14, 5))?;
    low.push(mapped(21, 1, 195, 0x4000_0000_0000_0000))?;
    low.push(owned(24, 8, 7))?;
    let first = pieces(alloc, 0, 77)?;
    for mapping in first.as_slice() {
        low.push(*mapping)?;
    }
    Ok(low)
}

// What is free, by start.
fn free_by_start(alloc: Global) -> Result<Vec<SpanRec>, AllocError> {
    let single = gaps(alloc)?;
    let mut free = Vec::new(alloc);
    free.push(run(22, 2))?;
    free.push(run(32, 8))?;
    for gap in single.as_slice() {
        free.push(*gap)?;
    }
    free.push(run(361, 151))?;
    Ok(free)
}

// What is free, by count.
fn free_by_count(alloc: Global) -> Result<Vec<SpanRec>, AllocError> {
    let mut sizes = gaps(alloc)?;
    sizes.push(run(22, 2))?;
    sizes.push(run(32, 8))?;
    sizes.push(run(361, 151))?;
    Ok(sizes)
}

// The heads: two levels of the reverse mappings, two blocks beside the roots, and three of the reverse
// mappings.
fn two_level_heads() -> Block {
    let group = Group {
        groups: 1,
        group: 0,
        len: 512,
        agblklog: 9,
        freeblks: 321,
        longest: 151,
    };
    let heads = altered(altered(file_heads(&group), 548, 2), 572, 2);
    mended_heads(altered(heads, 592, 3))
}

// The keys of the root of the reverse mappings, and its two leaves.
fn two_keys() -> [(RmapRec, RmapRec, u32); 2] {
    [
        (owned(0, 1, 3), mapped(192, 1, 195, 76), 19),
        (mapped(194, 1, 195, 77), mapped(360, 1, 195, 160), 20),
    ]
}

// An image whose reverse mappings have two levels.
fn two_levels(alloc: Global) -> Result<MemImage, AllocError> {
    let free = free_by_start(alloc)?;
    let sizes = free_by_count(alloc)?;
    let low = low_mappings(alloc)?;
    let high = pieces(alloc, 77, 161)?;
    let all = pieces(alloc, 0, 161)?;
    let blocks = [
        (0, two_level_heads()),
        (1, bno_leaf(at(1), free.as_slice())),
        (2, cnt_leaf(at(2), sizes.as_slice())),
        (3, with_file(fresh_block(1, 256, 3))),
        (4, with_file(fresh_block(1, 256, 4))),
        (5, rmap_root(at(5), &two_keys())),
        (6, refc_leaf(at(6), &[])),
        (19, rmap_part(at(19), low.as_slice(), NONE, 20)),
        (20, rmap_part(at(20), high.as_slice(), 19, NONE)),
        (21, fork_leaf(21, all.as_slice())),
        (24, chunk_with(&tree_core(161, 21))),
    ];
    image_of(alloc, 512, &blocks)
}

// The same with another block in the place of one.
fn two_levels_with(alloc: Global, number: u64, block: Block) -> Result<MemImage, AllocError> {
    let mut image = two_levels(alloc)?;
    image.blocks.insert(number, block)?;
    Ok(image)
}

#[test]
fn reverse_mappings_may_have_two_levels(rt: HostRuntime) {
    let alloc = rt.alloc();
    expect_check(&rt, alloc, two_levels(alloc), 0, &[ALL_GOOD]);
    // A key of the root that isn't its leaf's, and a leaf that isn't there.
    let [low, high] = two_keys();
    let wrong = [low, (high.0, mapped(360, 1, 195, 161), 20)];
    let image = two_levels_with(alloc, 5, rmap_root(at(5), &wrong));
    let report = [
        "0 inode good\n0 rmap block 5 key\n0 rmap faulty 1\n",
        SKIPPED,
    ];
    expect_check(&rt, alloc, image, 1, &report);
    let image = two_levels_with(alloc, 20, Block::zeroed());
    let report = [
        "0 inode good\n0 rmap block 20 magic\n0 rmap faulty 1\n",
        SKIPPED,
    ];
    expect_check(&rt, alloc, image, 1, &report);
}
