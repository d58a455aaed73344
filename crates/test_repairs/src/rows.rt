//! Damages of the small image, what a repair reports of each, and what the image holds then.
use crate::files::{emptied, owned_but, small_damaged};
use crate::runs::{REPAIR, expect_good, expect_run, expect_words, host_of};
use fresh_image::fresh_block;
use image_hosts::{MemHost, MemImage};
use small_images::{
    ALL_GOOD, altered, at, bno_leaf, cnt_leaf, refc_leaf, rmap_leaf, run, shared, small_heads,
    small_owned, small_with,
};
use std::alloc::{AllocError, Global};
use std::process::Abort;

// Repairs the image, and asserts the report and some numbers that it holds then; then a check finds all good,
// and a second repair too.
fn expect_repaired(
    rt: &impl Abort,
    alloc: Global,
    image: Result<MemImage, AllocError>,
    report: &str,
    words: &[(u64, usize, u32)],
) {
    let mut host = host_of(rt, alloc, image);
    expect_run(rt, alloc, &mut host, &REPAIR, (0, report));
    expect_words(rt, &host, words);
    expect_settled(rt, alloc, &mut host, words);
}

// Asserts that a check finds all good, and that a second repair does and changes none of these numbers.
fn expect_settled(rt: &impl Abort, alloc: Global, host: &mut MemHost, words: &[(u64, usize, u32)]) {
    expect_good(rt, alloc, host);
    expect_run(rt, alloc, host, &REPAIR, (0, ALL_GOOD));
    expect_words(rt, host, words);
}

// Free space by start, one byte of which was changed.
const FREE: &str =
    "0 inode good\n0 rmap good\n0 bno block 1 checksum\n0 free rebuilt\n0 refc good\n";

// The roots of bno and cnt, the free list, the counters; then the leaf of each, and of the reverse mappings.
const FREE_WORDS: [(u64, usize, u32); 29] = [
    (0, 528, 7),
    (0, 532, 8),
    (0, 536, 5),
    (0, 540, 1),
    (0, 544, 1),
    (0, 552, 2),
    (0, 556, 11),
    (0, 560, 10),
    (0, 564, 231),
    (0, 568, 224),
    (0, 572, 0),
    (0, 1580, 9),
    (0, 1616, 18),
    (7, 4, 3),
    (7, 56, 1),
    (7, 60, 2),
    (7, 64, 19),
    (7, 68, 5),
    (7, 72, 32),
    (7, 76, 224),
    (8, 4, 3),
    (8, 56, 1),
    (8, 60, 2),
    (8, 64, 19),
    (8, 72, 32),
    (5, 4, 6),
    (5, 80, 3),
    (5, 84, 2),
    (5, 104, 5),
];

#[test]
fn free_space_is_rebuilt_from_reverse_mappings(rt: HostRuntime) {
    let alloc = rt.alloc();
    let leaf = bno_leaf(at(1), &[run(19, 5), run(32, 224)]);
    let image = small_with(alloc, &[(1, altered(leaf, 68, 0x1e0))]);
    expect_repaired(&rt, alloc, image, FREE, &FREE_WORDS);
}

// The mapping of the chunk of inodes was dropped.
const MAPPINGS: &str =
    "0 inode good\n0 rmap missing 24 8 inodes 0 -\n0 rmap rebuilt\n0 free good\n0 refc good\n";

const MAPPING_WORDS: [(u64, usize, u32); 17] = [
    (0, 536, 7),
    (0, 548, 1),
    (0, 552, 1),
    (0, 560, 11),
    (0, 564, 230),
    (0, 592, 1),
    (1, 4, 3),
    (1, 56, 5),
    (1, 60, 1),
    (1, 64, 19),
    (1, 72, 32),
    (7, 4, 6),
    (7, 56, 0),
    (7, 80, 1),
    (7, 104, 3),
    (7, 128, 6),
    (7, 176, 24),
];

#[test]
fn reverse_mappings_are_rebuilt_from_all_owners(rt: HostRuntime) {
    let alloc = rt.alloc();
    let leaf = rmap_leaf(at(5), &small_owned()[..6]);
    let image = small_with(alloc, &[(5, leaf)]);
    expect_repaired(&rt, alloc, image, MAPPINGS, &MAPPING_WORDS);
}

// The one record of the inode btree was dropped.
const INODES: &str = "0 ino missing 192 0 64 61 fffffffffffffff8\n0 inode rebuilt\n0 rmap good\n\
    0 free good\n0 refc good\n";

const INODE_WORDS: [(u64, usize, u32); 22] = [
    (0, 1040, 64),
    (0, 1044, 7),
    (0, 1048, 1),
    (0, 1052, 61),
    (0, 1352, 8),
    (0, 1356, 1),
    (0, 1360, 1),
    (0, 552, 2),
    (0, 560, 10),
    (0, 564, 231),
    (1, 4, 3),
    (1, 56, 3),
    (1, 60, 2),
    (1, 64, 19),
    (7, 4, 1),
    (7, 56, 192),
    (7, 64, 0xffff_ffff),
    (7, 68, 0xffff_fff8),
    (8, 4, 1),
    (8, 56, 192),
    (5, 4, 7),
    (5, 152, 7),
];

#[test]
fn inode_btrees_are_rebuilt_from_inodes(rt: HostRuntime) {
    let alloc = rt.alloc();
    let image = small_with(alloc, &[(3, emptied(fresh_block(1, 256, 3)))]);
    expect_repaired(&rt, alloc, image, INODES, &INODE_WORDS);
}

// What a repair of the small image reports of these damages, which are told by a number.
fn report_of(row: usize) -> &'static str {
    match row {
        0 => ALL_GOOD,
        1 => "0 fino missing 192 0 64 61 fffffffffffffff8\n0 inode rebuilt\n0 rmap good\n\
                0 free good\n0 refc good\n",
        2 => "0 inode good\n0 rmap good\n0 free good\n0 refc extra 32 1 2\n0 refc rebuilt\n",
        3 => "0 inode good\n0 rmap good\n0 free counter freeblks 9 229\n0 free rebuilt\n\
                0 refc good\n",
        4 => "0 inode counter count 7 64\n0 inode rebuilt\n0 rmap good\n0 free good\n0 refc good\n",
        5 => "0 inode good\n0 rmap counter rmap_blocks 25 1\n0 rmap rebuilt\n0 free good\n\
                0 refc good\n",
        6 => "0 inode good\n0 rmap good\n0 free good\n0 refc counter refcount_blocks 2 1\n\
                0 refc rebuilt\n",
        7 => "0 inode good\n0 rmap missing 3 2 inobt 0 -\n0 rmap rebuilt\n0 free good\n\
                0 refc good\n",
        _ => "0 inode good\n0 rmap good\n0 cnt extra 32 223\n0 cnt missing 32 224\n\
                0 free rebuilt\n0 refc good\n",
    }
}

// The damaged image of each of these rows.
fn image_of_row(alloc: Global, row: usize) -> Result<MemImage, AllocError> {
    match row {
        0 => small_with(alloc, &[]),
        1 => small_with(alloc, &[(4, emptied(fresh_block(1, 256, 4)))]),
        2 => small_with(alloc, &[(6, refc_leaf(at(6), &[shared(32, 1, 2)]))]),
        3 => small_damaged(alloc, 564, 9),
        4 => small_damaged(alloc, 1040, 7),
        5 => small_damaged(alloc, 592, 25),
        6 => small_damaged(alloc, 596, 2),
        7 => owned_but(alloc, 2),
        _ => small_with(alloc, &[(2, cnt_leaf(at(2), &[run(19, 5), run(32, 223)]))]),
    }
}

// Repairs a row's image, and asserts the report; then a check finds all good.
fn expect_row(rt: &impl Abort, alloc: Global, row: usize) {
    let mut host = host_of(rt, alloc, image_of_row(alloc, row));
    expect_run(rt, alloc, &mut host, &REPAIR, (0, report_of(row)));
    expect_settled(rt, alloc, &mut host, &[]);
}

#[test]
fn each_kind_of_fault_is_repaired(rt: HostRuntime) {
    for row in 0..9 {
        expect_row(&rt, rt.alloc(), row);
    }
}

#[test]
fn each_tree_is_made_anew_where_that_is_asked_for(rt: HostRuntime) {
    let alloc = rt.alloc();
    let mut host = host_of(&rt, alloc, small_with(alloc, &[(0, small_heads())]));
    let words = ["repair", "a.img", "--redo", "b", "--rebuild"];
    let report = "0 inode rebuilt\n0 rmap rebuilt\n0 free rebuilt\n0 refc rebuilt\n";
    expect_run(&rt, alloc, &mut host, &words, (0, report));
    expect_settled(&rt, alloc, &mut host, &[]);
}
