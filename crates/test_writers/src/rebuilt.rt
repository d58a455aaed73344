// Rebuilds of the small image, at the switch and after it.
use super::asks::{at_end, checked, judged, reopened, start, switched, three_scanned};
use super::lists::{Act, expect_leaves, expect_words, play};
use fresh_image::fresh_block;
use fs_model::Unit;
use fs_state::Plan;
use image_hosts::MemImage;
use small_images::{
    altered, at, bno_leaf, cnt_leaf, mended, owned, rmap_leaf, run, small_owned, small_with,
};
use std::alloc::{AllocError, Global};

const FITS: &str = "memory is there";

// Reverse mappings are judged by a scan of the three inodes.
fn mappings(plan: Plan) -> [Act; 11] {
    let [first, second, third, fourth, fifth, sixth] = three_scanned();
    let [closed, gathered, compared] = judged();
    [
        start(Unit::Rmap, plan),
        first,
        second,
        third,
        fourth,
        fifth,
        sixth,
        at_end(),
        closed,
        gathered,
        compared,
    ]
}

// Free space by start, one byte of which was changed.
fn with_bad_space(alloc: Global) -> Result<MemImage, AllocError> {
    let leaf = bno_leaf(at(1), &[run(19, 5), run(32, 224)]);
    small_with(alloc, &[(1, altered(leaf, 68, 0x1e0))])
}

#[test]
fn free_space_at_the_switch_and_after_it(rt: HostRuntime) {
    let lists = [
        &checked(Unit::Inode)[..],
        &mappings(Plan::Check)[..],
        &reopened()[..],
        &[start(Unit::Free, Plan::Repair)][..],
        &judged()[..],
        &switched()[..],
        &reopened()[..],
    ];
    let image = with_bad_space(rt.alloc()).expect(&rt, FITS);
    let found = play(&rt, rt.alloc(), image, &lists[..6]);
    let free = [run(19, 5), run(32, 224)];
    expect_leaves(
        &rt,
        &found,
        &[
            (7, bno_leaf(at(7), &free)),
            (8, cnt_leaf(at(8), &free)),
            (5, rmap_leaf(at(5), &small_owned())),
        ],
    );
    expect_words(&rt, &found, &[(0, 528, 7), (0, 532, 8), (0, 564, 229)]);
    let image = with_bad_space(rt.alloc()).expect(&rt, FITS);
    let found = play(&rt, rt.alloc(), image, &lists);
    let free = [run(1, 2), run(19, 5), run(32, 224)];
    let [heads, _, inodes, mappings, counts, list, chunk] = small_owned();
    let owners = [heads, inodes, mappings, counts, list, chunk];
    expect_leaves(
        &rt,
        &found,
        &[
            (7, bno_leaf(at(7), &free)),
            (8, cnt_leaf(at(8), &free)),
            (5, rmap_leaf(at(5), &owners)),
        ],
    );
    expect_words(&rt, &found, &[(0, 564, 231), (0, 560, 10)]);
}

// The reverse mapping of the chunk of inodes was dropped.
fn with_unowned_chunk(alloc: Global) -> Result<MemImage, AllocError> {
    small_with(alloc, &[(5, rmap_leaf(at(5), &small_owned()[..6]))])
}

#[test]
fn reverse_mappings_at_the_switch_and_after_it(rt: HostRuntime) {
    let lists = [
        &checked(Unit::Inode)[..],
        &mappings(Plan::Repair)[..],
        &switched()[..],
        &reopened()[..],
    ];
    let image = with_unowned_chunk(rt.alloc()).expect(&rt, FITS);
    let found = play(&rt, rt.alloc(), image, &lists[..3]);
    let free = [run(19, 5), run(32, 224)];
    expect_leaves(
        &rt,
        &found,
        &[
            (1, bno_leaf(at(1), &free)),
            (7, rmap_leaf(at(7), &small_owned())),
        ],
    );
    expect_words(&rt, &found, &[(0, 536, 7)]);
    let image = with_unowned_chunk(rt.alloc()).expect(&rt, FITS);
    let found = play(&rt, rt.alloc(), image, &lists);
    let free = [run(5, 1), run(19, 5), run(32, 224)];
    let [heads, space, inodes, _, counts, list, chunk] = small_owned();
    let owners = [heads, space, inodes, counts, list, chunk];
    expect_leaves(
        &rt,
        &found,
        &[(1, bno_leaf(at(1), &free)), (7, rmap_leaf(at(7), &owners))],
    );
}

// The inode btree has no record.
fn with_unlisted_chunk(alloc: Global) -> Result<MemImage, AllocError> {
    let leaf = mended(altered(fresh_block(1, 256, 3), 4, 0));
    small_with(alloc, &[(3, leaf)])
}

#[test]
fn inode_btrees_after_the_switch_and_their_old_blocks(rt: HostRuntime) {
    let lists = [
        &[start(Unit::Inode, Plan::Repair)][..],
        &judged()[..],
        &switched()[..],
        &reopened()[..],
        &mappings(Plan::Repair)[..],
        &reopened()[..],
    ];
    let image = with_unlisted_chunk(rt.alloc()).expect(&rt, FITS);
    let found = play(&rt, rt.alloc(), image, &lists[..4]);
    let free = [run(19, 5), run(32, 224)];
    let [heads, space, inodes, rmap, counts, _, chunk] = small_owned();
    let (trees, list) = (owned(7, 2, 6), owned(9, 10, 5));
    let owners = [heads, space, inodes, rmap, counts, trees, list, chunk];
    expect_leaves(
        &rt,
        &found,
        &[
            (1, bno_leaf(at(1), &free)),
            (5, rmap_leaf(at(5), &owners)),
            (7, fresh_block(1, 256, 3)),
            (8, fresh_block(1, 256, 4)),
        ],
    );
    expect_words(&rt, &found, &[(0, 1044, 7), (0, 1352, 8)]);
    // Their old blocks wait for the unit of reverse mappings.
    let image = with_unlisted_chunk(rt.alloc()).expect(&rt, FITS);
    let found = play(&rt, rt.alloc(), image, &lists);
    let free = [run(3, 2), run(19, 5), run(32, 224)];
    let owners = [heads, space, rmap, counts, trees, list, chunk];
    expect_leaves(
        &rt,
        &found,
        &[(1, bno_leaf(at(1), &free)), (5, rmap_leaf(at(5), &owners))],
    );
}
