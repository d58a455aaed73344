//! Records and counters that differ from what the reverse mappings give.
use super::same::same;
use crate::runs::{checked, expect_check, report_of};
use fresh_image::fresh_block;
use image_hosts::MemImage;
use small_images::{
    ALL_GOOD, Group, NONE, SOUND, altered, at, bno_leaf, bno_part, bno_root, chunk_with, cnt_leaf,
    file_core, file_free, file_heads, file_shared, file_with, heads_of, image_of, mapped,
    mended_heads, owned, refc_leaf, rmap_leaf, run, shared, small_group, small_heads, small_owned,
    small_with, two_groups_with, with_file, written,
};
use span_recs::{RefcRec, SpanRec};
use std::alloc::{AllocError, Global};
use std::process::Abort;

#[test]
fn sound_groups_are_good(rt: HostRuntime) {
    let alloc = rt.alloc();
    expect_check(&rt, alloc, small_with(alloc, &[]), 0, &[ALL_GOOD]);
    expect_check(&rt, alloc, file_with(alloc, &[]), 0, &[ALL_GOOD]);
    let report = "0 inode good\n1 inode good\n0 rmap good\n1 rmap good\n\
        0 free good\n0 refc good\n1 free good\n1 refc good\n";
    expect_check(&rt, alloc, two_groups_with(alloc, &[]), 0, &[report]);
}

#[test]
fn free_space_by_start_is_compared(rt: HostRuntime) {
    let alloc = rt.alloc();
    let [a, b, c, d, e] = file_free();
    let rows: [(&[SpanRec], &str); 9] = [
        (&[b, c, d, e], "missing 19 5\n0 free faulty 1"),
        (&[a, b, d, e], "missing 41 9\n0 free faulty 1"),
        (&[a, b, c, d], "missing 61 195\n0 free faulty 1"),
        (&[run(1, 1), a, b, c, d, e], "extra 1 1\n0 free faulty 1"),
        (&[a, b, c, run(45, 1), d, e], "extra 45 1\n0 free faulty 1"),
        (
            &[a, b, c, d, e, run(100, 1)],
            "extra 100 1\n0 free faulty 1",
        ),
        (
            &[run(19, 4), b, c, d, e],
            "missing 19 5\n0 bno extra 19 4\n0 free faulty 2",
        ),
        (
            &[a, b, run(42, 8), d, e],
            "missing 41 9\n0 bno extra 42 8\n0 free faulty 2",
        ),
        (
            &[a, b, c, d, run(60, 196)],
            "extra 60 196\n0 bno missing 61 195\n0 free faulty 2",
        ),
    ];
    for (records, shown) in &rows {
        let image = file_with(alloc, &[(1, bno_leaf(at(1), *records))]);
        let report = [SOUND, "0 bno ", shown, "\n0 refc good\n"];
        expect_check(&rt, alloc, image, 1, &report);
    }
    let short = bno_leaf(at(1), &[run(19, 5), run(32, 223)]);
    let report = "0 inode good\n0 rmap good\n0 bno missing 32 224\n0 bno extra 32 223\n\
        0 free faulty 2\n0 refc good\n";
    expect_check(&rt, alloc, small_with(alloc, &[(1, short)]), 1, &[report]);
}

#[test]
fn free_space_by_count_is_compared(rt: HostRuntime) {
    let alloc = rt.alloc();
    let [a, b, d, c, e] = file_free();
    let rows: [(&[SpanRec], &str); 9] = [
        (&[b, c, d, e], "missing 19 5\n0 free faulty 1"),
        (&[a, b, d, e], "missing 52 8\n0 free faulty 1"),
        (&[a, b, c, d], "missing 61 195\n0 free faulty 1"),
        (&[run(60, 1), a, b, c, d, e], "extra 60 1\n0 free faulty 1"),
        (&[a, b, run(40, 8), c, d, e], "extra 40 8\n0 free faulty 1"),
        (
            &[a, b, c, d, e, run(60, 196)],
            "extra 60 196\n0 free faulty 1",
        ),
        // A shorter run comes first, and at the same count the lower start.
        (
            &[run(19, 4), b, c, d, e],
            "extra 19 4\n0 cnt missing 19 5\n0 free faulty 2",
        ),
        (
            &[a, b, run(53, 8), d, e],
            "missing 52 8\n0 cnt extra 53 8\n0 free faulty 2",
        ),
        (
            &[a, b, c, d, run(61, 194)],
            "extra 61 194\n0 cnt missing 61 195\n0 free faulty 2",
        ),
    ];
    for (records, shown) in &rows {
        let image = file_with(alloc, &[(2, cnt_leaf(at(2), *records))]);
        let report = [SOUND, "0 cnt ", shown, "\n0 refc good\n"];
        expect_check(&rt, alloc, image, 1, &report);
    }
}

#[test]
fn reference_counts_are_compared(rt: HostRuntime) {
    let alloc = rt.alloc();
    let [a, b, c] = file_shared();
    let rows: [(&[RefcRec], &str); 9] = [
        (&[b, c], "missing 40 1 2\n0 refc faulty 1"),
        (&[a, c], "missing 50 2 2\n0 refc faulty 1"),
        (&[a, b], "missing 60 1 3\n0 refc faulty 1"),
        (
            &[shared(32, 1, 2), a, b, c],
            "extra 32 1 2\n0 refc faulty 1",
        ),
        (
            &[a, shared(45, 1, 2), b, c],
            "extra 45 1 2\n0 refc faulty 1",
        ),
        (
            &[a, b, c, shared(255, 1, 9)],
            "extra 255 1 9\n0 refc faulty 1",
        ),
        (
            &[shared(40, 1, 3), b, c],
            "missing 40 1 2\n0 refc extra 40 1 3\n0 refc faulty 2",
        ),
        (
            &[a, shared(49, 3, 2), c],
            "extra 49 3 2\n0 refc missing 50 2 2\n0 refc faulty 2",
        ),
        (
            &[a, b, shared(60, 1, 2)],
            "missing 60 1 3\n0 refc extra 60 1 2\n0 refc faulty 2",
        ),
    ];
    for (records, shown) in &rows {
        let image = file_with(alloc, &[(6, refc_leaf(at(6), *records))]);
        let report = [SOUND, "0 free good\n0 refc ", shown, "\n"];
        expect_check(&rt, alloc, image, 1, &report);
    }
    let image = small_with(alloc, &[(6, refc_leaf(at(6), &[shared(32, 1, 2)]))]);
    let report = "0 inode good\n0 rmap good\n0 free good\n0 refc extra 32 1 2\n0 refc faulty 1\n";
    expect_check(&rt, alloc, image, 1, &[report]);
}

#[test]
fn a_run_in_two_records_is_not_that_run(rt: HostRuntime) {
    let alloc = rt.alloc();
    let halves = bno_leaf(at(1), &[run(19, 5), run(32, 100), run(132, 124)]);
    let report = "0 inode good\n0 rmap good\n0 bno missing 32 224\n0 bno extra 32 100\n\
        0 bno extra 132 124\n0 free faulty 3\n0 refc good\n";
    expect_check(&rt, alloc, small_with(alloc, &[(1, halves)]), 1, &[report]);
    let [a, _, c] = file_shared();
    let halves = refc_leaf(at(6), &[a, shared(50, 1, 2), shared(51, 1, 2), c]);
    let report = "0 inode good\n0 rmap good\n0 free good\n0 refc missing 50 2 2\n\
        0 refc extra 50 1 2\n0 refc extra 51 1 2\n0 refc faulty 3\n";
    expect_check(&rt, alloc, file_with(alloc, &[(6, halves)]), 1, &[report]);
    let [a, b, c, d, e, list, _] = small_owned();
    let (low, high) = (owned(24, 4, 7), owned(28, 4, 7));
    let halves = rmap_leaf(at(5), &[a, b, c, d, e, list, low, high]);
    let report = "0 inode good\n0 rmap missing 24 8 inodes 0 -\n0 rmap extra 24 4 inodes 0 -\n\
        0 rmap extra 28 4 inodes 0 -\n0 rmap faulty 3\n0 free skipped 0 rmap\n\
        0 refc skipped 0 rmap\n";
    expect_check(&rt, alloc, small_with(alloc, &[(5, halves)]), 1, &[report]);
}

#[test]
fn counters_are_compared(rt: HostRuntime) {
    let alloc = rt.alloc();
    let rows = [
        (564, 228, "0 free counter freeblks 228 229\n"),
        (564, 230, "0 free counter freeblks 230 229\n"),
        (568, 223, "0 free counter longest 223 224\n"),
        (568, 225, "0 free counter longest 225 224\n"),
        (572, 1, "0 free counter btreeblks 1 0\n"),
    ];
    for (at, value, shown) in &rows {
        let heads = mended_heads(altered(small_heads(), *at, *value));
        let report = [SOUND, shown, "0 free faulty 1\n0 refc good\n"];
        let image = small_with(alloc, &[(0, heads)]);
        expect_check(&rt, alloc, image, 1, &report);
    }
    for (value, shown) in [(0, "0 1\n"), (2, "2 1\n")] {
        let heads = mended_heads(altered(small_heads(), 596, value));
        let counted = "0 free good\n0 refc counter refcount_blocks ";
        let report = [SOUND, counted, shown, "0 refc faulty 1\n"];
        let image = small_with(alloc, &[(0, heads)]);
        expect_check(&rt, alloc, image, 1, &report);
    }
}

#[test]
fn counters_come_after_the_records_of_their_unit(rt: HostRuntime) {
    let alloc = rt.alloc();
    let group = Group {
        freeblks: 9,
        longest: 8,
        ..small_group()
    };
    let heads = altered(altered(heads_of(&group), 572, 6), 596, 5);
    let blocks = [
        (0, mended_heads(heads)),
        (1, bno_leaf(at(1), &[run(19, 5)])),
        (2, cnt_leaf(at(2), &[run(32, 224)])),
        (6, refc_leaf(at(6), &[shared(32, 1, 2)])),
    ];
    let report = "0 inode good\n0 rmap good\n0 bno missing 32 224\n0 cnt missing 19 5\n\
        0 free counter freeblks 9 229\n0 free counter longest 8 224\n\
        0 free counter btreeblks 6 0\n0 free faulty 5\n\
        0 refc extra 32 1 2\n0 refc counter refcount_blocks 5 1\n0 refc faulty 2\n";
    expect_check(&rt, alloc, small_with(alloc, &blocks), 1, &[report]);
}

#[test]
fn a_group_without_free_blocks_is_good(rt: HostRuntime) {
    let alloc = rt.alloc();
    // A file has all that would be free.
    let group = Group {
        freeblks: 0,
        longest: 0,
        ..small_group()
    };
    let file = file_core(&[written(0, 19, 5), written(5, 32, 224)]);
    let [a, b, c, d, e, list, chunk] = small_owned();
    let (low, high) = (mapped(19, 5, 195, 0), mapped(32, 224, 195, 5));
    let blocks = [
        (0, file_heads(&group)),
        (1, bno_leaf(at(1), &[])),
        (2, cnt_leaf(at(2), &[])),
        (3, with_file(fresh_block(1, 256, 3))),
        (4, with_file(fresh_block(1, 256, 4))),
        (
            5,
            rmap_leaf(at(5), &[a, b, c, d, e, list, low, chunk, high]),
        ),
        (24, chunk_with(&file)),
    ];
    expect_check(&rt, alloc, small_with(alloc, &blocks), 0, &[ALL_GOOD]);
}

// Runs of one block each: of every second block from block 2 on those of these numbers.
fn scattered(alloc: Global, from: u32, to: u32) -> Result<Vec<SpanRec>, AllocError> {
    let mut runs = Vec::new(alloc);
    for i in from..to {
        runs.push(run(i.wrapping_mul(2).wrapping_add(2), 1))?;
    }
    Ok(runs)
}

// A group of 2048 blocks whose free runs by both trees are 505 of these, up to block 1010.
fn full_leaves(alloc: Global) -> Result<MemImage, AllocError> {
    let group = Group {
        len: 2048,
        agblklog: 11,
        freeblks: 2021,
        longest: 2016,
        ..small_group()
    };
    let runs = scattered(alloc, 0, 505)?;
    let blocks = [
        (0, heads_of(&group)),
        (1, bno_leaf(at(1), runs.as_slice())),
        (2, cnt_leaf(at(2), runs.as_slice())),
        (5, rmap_leaf(at(5), &small_owned())),
        (6, refc_leaf(at(6), &[])),
    ];
    image_of(alloc, 2048, &blocks)
}

// Asserts that a report begins and ends with these lines, and has those between.
fn expect_lines(rt: &impl Abort, report: &str, first: &str, between: &[&str], last: &str) {
    assert!(rt; report.starts_with(first));
    for lines in between {
        assert!(rt; report.contains(*lines));
    }
    assert!(rt; report.ends_with(last));
}

#[test]
fn leaves_of_free_space_may_be_full(rt: HostRuntime) {
    let (end, host) = checked(&rt, rt.alloc(), full_leaves(rt.alloc()));
    // Each tree lacks both free runs, and none of its 505 runs is derived. By count the derived ones
    // come last.
    let first = "0 inode good\n0 rmap good\n0 bno extra 2 1\n0 bno extra 4 1\n";
    let list = "0 bno extra 18 1\n0 bno missing 19 5\n0 bno extra 20 1\n";
    let rest = "0 bno extra 30 1\n0 bno missing 32 2016\n0 bno extra 32 1\n";
    let middle = "0 bno extra 1010 1\n0 cnt extra 2 1\n0 cnt extra 4 1\n";
    let last = "0 cnt extra 1010 1\n0 cnt missing 19 5\n0 cnt missing 32 2016\n\
        0 free faulty 1014\n0 refc good\n";
    let report = report_of(&rt, &host);
    expect_lines(&rt, report, first, &[list, rest, middle], last);
    same(&rt, end.status, 1);
    same(&rt, end.starts, [0, 1018, 1018]);
}

// The image with full leaves and with reverse mappings in one too: 168 blocks of the group's own, block
// 1 and each second one after it up to 335.
fn full_mappings(alloc: Global) -> Result<MemImage, AllocError> {
    let mut mappings = Vec::new(alloc);
    for i in 0..168u32 {
        mappings.push(owned(2 * i + 1, 1, 5))?;
    }
    let mut image = full_leaves(alloc)?;
    let leaf = rmap_leaf(at(5), mappings.as_slice());
    image.blocks.insert(5, leaf)?;
    Ok(image)
}

#[test]
fn a_leaf_of_reverse_mappings_may_be_full(rt: HostRuntime) {
    // One of these mappings is derived, and six are that it lacks.
    let (end, host) = checked(&rt, rt.alloc(), full_mappings(rt.alloc()));
    let first = "0 inode good\n0 rmap missing 0 1 fs 0 -\n0 rmap missing 1 2 ag 0 -\n\
        0 rmap extra 1 1 ag 0 -\n0 rmap missing 3 2 inobt 0 -\n0 rmap extra 3 1 ag 0 -\n\
        0 rmap missing 6 1 refc 0 -\n0 rmap missing 7 12 ag 0 -\n0 rmap extra 7 1 ag 0 -\n\
        0 rmap extra 9 1 ag 0 -\n";
    let chunk = "0 rmap extra 23 1 ag 0 -\n0 rmap missing 24 8 inodes 0 -\n";
    let last = "0 rmap extra 335 1 ag 0 -\n0 rmap faulty 173\n0 free skipped 0 rmap\n\
        0 refc skipped 0 rmap\n";
    expect_lines(&rt, report_of(&rt, &host), first, &[chunk], last);
    same(&rt, end.status, 1);
    same(&rt, end.starts, [0, 177, 177]);
}

// The scattered runs in two leaves, the blocks 19 and 20, below a root: two blocks beside it, where
// the head counts five. By count free space is right.
fn two_leaves(alloc: Global) -> Result<MemImage, AllocError> {
    let low = scattered(alloc, 0, 253)?;
    let high = scattered(alloc, 253, 505)?;
    let group = Group {
        len: 2048,
        agblklog: 11,
        freeblks: 2019,
        longest: 2016,
        ..small_group()
    };
    let heads = altered(altered(heads_of(&group), 540, 2), 572, 5);
    let [a, b, c, d, e, _, chunk] = small_owned();
    let mappings = [a, b, c, d, e, owned(7, 14, 5), chunk];
    let blocks = [
        (0, mended_heads(heads)),
        (1, bno_root(at(1), &[(run(2, 1), 19), (run(508, 1), 20)])),
        (2, cnt_leaf(at(2), &[run(21, 3), run(32, 2016)])),
        (5, rmap_leaf(at(5), &mappings)),
        (6, refc_leaf(at(6), &[])),
        (19, bno_part(at(19), low.as_slice(), NONE, 20)),
        (20, bno_part(at(20), high.as_slice(), 19, NONE)),
    ];
    image_of(alloc, 2048, &blocks)
}

#[test]
fn blocks_are_counted_where_the_trees_can_be_read(rt: HostRuntime) {
    let (end, host) = checked(&rt, rt.alloc(), two_leaves(rt.alloc()));
    let first = "0 inode good\n0 rmap good\n0 bno extra 2 1\n";
    let list = "0 bno extra 20 1\n0 bno missing 21 3\n0 bno extra 22 1\n";
    let last = "0 bno extra 1010 1\n0 free counter btreeblks 5 2\n0 free faulty 508\n0 refc good\n";
    expect_lines(&rt, report_of(&rt, &host), first, &[list], last);
    same(&rt, end.starts, [0, 512, 512]);
}
