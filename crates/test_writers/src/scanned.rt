// Writers beside a scan of all inodes.
use super::asks::{
    advance, at_end, begin, checked, close, judged, map, refused, reopened, rmap_step, scan, start,
    switched, take, three_scanned,
};
use super::lists::{Act, Played, expect_heard, expect_leaves, expect_words, play};
use super::same::same;
use super::worlds::two_files;
use core_calls::{Answer, Ask, ScrubFault, WriteFault};
use fresh_image::fresh_block;
use fs_model::{Entry, Unit, Verdict};
use fs_state::Plan;
use image_hosts::MemImage;
use rmap_recs::{FORK_TREE, RmapRec, UNWRITTEN};
use small_images::{
    Group, at, bno_leaf, chunk_with, cnt_leaf, file_heads, fork_leaf, mapped, owned, rmap_leaf,
    run, small_group, small_image, small_owned, small_with, tree_core, with_file,
};
use std::alloc::{AllocError, Global};
use std::process::Abort;

const FITS: &str = "memory is there";

// The scan comes to the inode, and reads all of it.
fn scanned(ino: u64) -> [Act; 2] {
    [advance(ino), scan()]
}

// The unit of reverse mappings is opened, after one of inodes that is good.
fn opened(plan: Plan) -> [Act; 7] {
    let [started, closed, gathered, compared, reaped, reopened] = checked(Unit::Inode);
    let mappings = start(Unit::Rmap, plan);
    [
        started, closed, gathered, compared, reaped, reopened, mappings,
    ]
}

// What these lists leave of the image with two files.
fn on_two_files(rt: &impl Abort, alloc: Global, lists: &[&[Act]]) -> Played {
    let image = two_files(rt, alloc);
    play(rt, alloc, image, lists)
}

#[test]
fn a_scan_begins_at_the_lowest_inode(rt: HostRuntime) {
    let image = small_image(rt.alloc()).expect(&rt, FITS);
    let lists = [&opened(Plan::Check)[..], &[advance(192)][..]];
    let found = play(&rt, rt.alloc(), image, &lists);
    expect_heard(&rt, &found, &[]);
}

#[test]
fn a_scan_ends_after_the_highest_inode(rt: HostRuntime) {
    let image = small_image(rt.alloc()).expect(&rt, FITS);
    let lists = [
        &opened(Plan::Check)[..],
        &three_scanned()[..],
        &[at_end(), close()][..],
    ];
    let found = play(&rt, rt.alloc(), image, &lists);
    expect_heard(&rt, &found, &[]);
}

#[test]
fn a_scan_waits_for_an_inode_that_a_chain_holds(rt: HostRuntime) {
    let image = small_image(rt.alloc()).expect(&rt, FITS);
    let growing = [
        Act::Once(take(), Answer::Taken(195, 0)),
        Act::Once(map(0, 6), Answer::Blocks(6)),
    ];
    let [
        started,
        closed,
        gathered,
        compared,
        reaped,
        reopened,
        mappings,
    ] = opened(Plan::Check);
    let before = [started, closed, gathered, compared, reaped, reopened];
    let busy = Act::Once(
        Ask::Advance { group: 0 },
        Answer::Scrub(ScrubFault::Busy(195)),
    );
    let lists = [
        &before[..],
        &growing[..],
        &[mappings][..],
        &three_scanned()[..],
        &[busy, busy][..],
    ];
    let found = play(&rt, rt.alloc(), image, &lists);
    expect_heard(&rt, &found, &[]);
}

// The first four blocks of an inode, as they come to a file that grows.
fn first_four(ino: u64) -> RmapRec {
    mapped(19, 4, ino, UNWRITTEN)
}

#[test]
fn a_gate_isnt_closed_while_an_intent_is_unfinished(rt: HostRuntime) {
    let growing = [
        at_end(),
        Act::Once(begin(195, None), Answer::Chain(0)),
        Act::Once(map(0, 4), Answer::Blocks(4)),
        Act::Once(
            Ask::Close { group: 0 },
            Answer::Scrub(ScrubFault::Draining(0, 1)),
        ),
    ];
    let lists = [
        &opened(Plan::Check)[..],
        &three_scanned()[..],
        &scanned(195)[..],
        &scanned(196)[..],
        &growing[..],
        &[rmap_step()][..],
        &judged()[..],
        &reopened()[..],
    ];
    let found = on_two_files(&rt, rt.alloc(), &lists[..5]);
    expect_heard(&rt, &found, &[]);
    // Once the step is done, the gate closes.
    let found = on_two_files(&rt, rt.alloc(), &lists[..6]);
    expect_heard(&rt, &found, &[(19, 4, 195, UNWRITTEN)]);
    let found = on_two_files(&rt, rt.alloc(), &lists);
    expect_good(&rt, &found);
}

// The last entry is the verdict that reverse mappings are good.
fn expect_good(rt: &impl Abort, found: &Played) {
    let good = Entry::Verdict {
        group: 0,
        unit: Unit::Rmap,
        verdict: Verdict::Good,
    };
    same(rt, found.journal.last().copied(), Some(good));
}

// The reverse mappings of the small image with a file's first four blocks, once their own btree is in
// block 7 and its old block is free.
fn rebuilt_with(file: RmapRec) -> [RmapRec; 7] {
    let [first, space, inodes, _, counts, list, chunk] = small_owned();
    [first, space, inodes, counts, list, file, chunk]
}

// Asserts that reverse mappings were rebuilt into block 7, with the file's four blocks once.
fn expect_rebuilt(rt: &impl Abort, found: &Played, ino: u64) {
    let owners = rebuilt_with(first_four(ino));
    let free = [run(5, 1), run(23, 1), run(32, 224)];
    expect_leaves(
        rt,
        found,
        &[
            (1, bno_leaf(at(1), &free)),
            (2, cnt_leaf(at(2), &free)),
            (7, rmap_leaf(at(7), &owners)),
        ],
    );
    expect_words(rt, found, &[(0, 536, 7), (0, 564, 226)]);
}

// The rest of a rebuild, from the end of the scan on.
fn rest() -> [Act; 9] {
    let [closed, gathered, compared] = judged();
    let [reserved, staged, switched] = switched();
    let [reaped, opened] = reopened();
    [
        at_end(),
        closed,
        gathered,
        compared,
        reserved,
        staged,
        switched,
        reaped,
        opened,
    ]
}

#[test]
fn blocks_mapped_before_the_cursor_comes_are_rebuilt_once(rt: HostRuntime) {
    let growing = [
        Act::Once(begin(196, None), Answer::Chain(0)),
        Act::Once(map(0, 4), Answer::Blocks(4)),
        Act::Once(
            Ask::Advance { group: 0 },
            Answer::Scrub(ScrubFault::Busy(196)),
        ),
        rmap_step(),
        Act::Once(Ask::End { chain: 0 }, Answer::Done),
    ];
    let lists = [
        &opened(Plan::Rebuild)[..],
        &three_scanned()[..],
        &scanned(195)[..],
        &growing[..],
        &scanned(196)[..],
        &rest()[..],
    ];
    // The scan hasn't come to the inode.
    let found = on_two_files(&rt, rt.alloc(), &lists[..4]);
    expect_heard(&rt, &found, &[]);
    let found = on_two_files(&rt, rt.alloc(), &lists[..5]);
    expect_heard(&rt, &found, &[(19, 4, 196, UNWRITTEN)]);
    let found = on_two_files(&rt, rt.alloc(), &lists);
    expect_rebuilt(&rt, &found, 196);
}

#[test]
fn blocks_mapped_behind_the_cursor_are_rebuilt_once(rt: HostRuntime) {
    let growing = [
        Act::Once(begin(195, None), Answer::Chain(0)),
        Act::Once(map(0, 4), Answer::Blocks(4)),
        rmap_step(),
        Act::Once(Ask::End { chain: 0 }, Answer::Done),
    ];
    let lists = [
        &opened(Plan::Rebuild)[..],
        &three_scanned()[..],
        &scanned(195)[..],
        &scanned(196)[..],
        &growing[..],
        &rest()[..],
    ];
    let found = on_two_files(&rt, rt.alloc(), &lists);
    expect_rebuilt(&rt, &found, 195);
}

#[test]
fn an_inode_that_is_taken_behind_the_cursor_is_heard_of(rt: HostRuntime) {
    let given = [
        Act::Once(begin(195, None), Answer::Chain(0)),
        Act::Once(Ask::GiveInode { chain: 0 }, Answer::Done),
    ];
    let inodes = Ask::Start {
        group: 0,
        unit: Unit::Inode,
        plan: Plan::Check,
        turns: 9,
    };
    let growing = [
        Act::Once(take(), Answer::Taken(195, 0)),
        Act::Once(inodes, Answer::Scrub(ScrubFault::UnitOpen(0, Unit::Rmap))),
        Act::Once(map(0, 4), Answer::Blocks(4)),
    ];
    let lists = [
        &given[..],
        &opened(Plan::Check)[..],
        &three_scanned()[..],
        &scanned(196)[..],
        &growing[..],
        &[rmap_step()][..],
    ];
    let found = on_two_files(&rt, rt.alloc(), &lists[..5]);
    expect_heard(&rt, &found, &[]);
    let found = on_two_files(&rt, rt.alloc(), &lists);
    expect_heard(&rt, &found, &[(19, 4, 195, UNWRITTEN)]);
}

// The pieces of a file of 60 mappings, of one block each.
fn pieces(alloc: Global) -> Result<Vec<RmapRec>, AllocError> {
    let mut pieces = Vec::new(alloc);
    for i in 0..60u32 {
        let offset = u64::from(i).saturating_mul(2);
        pieces.push(mapped(i.saturating_add(40), 1, 195, offset))?;
    }
    Ok(pieces)
}

// The small image with such a file, whose mappings are in the one leaf of a btree, block 39.
fn tree_image(alloc: Global) -> Result<MemImage, AllocError> {
    let pieces = pieces(alloc)?;
    let mut owners = small_owned().to_vec(alloc)?;
    owners.push(mapped(39, 1, 195, FORK_TREE))?;
    for piece in &pieces {
        owners.push(*piece)?;
    }
    let group = Group {
        freeblks: 168,
        longest: 156,
        ..small_group()
    };
    let free = [run(19, 5), run(32, 7), run(100, 156)];
    small_with(
        alloc,
        &[
            (0, file_heads(&group)),
            (1, bno_leaf(at(1), &free)),
            (2, cnt_leaf(at(2), &free)),
            (3, with_file(fresh_block(1, 256, 3))),
            (4, with_file(fresh_block(1, 256, 4))),
            (5, rmap_leaf(at(5), owners.as_slice())),
            (39, fork_leaf(39, pieces.as_slice())),
            (24, chunk_with(&tree_core(60, 39))),
        ],
    )
}

#[test]
fn a_scan_reads_each_block_of_a_fork_once(rt: HostRuntime) {
    let image = tree_image(rt.alloc()).expect(&rt, FITS);
    let [closed, gathered, compared] = judged();
    let lists = [
        &opened(Plan::Check)[..],
        &three_scanned()[..],
        &scanned(195)[..],
        &[at_end(), closed, gathered, compared][..],
    ];
    let found = play(&rt, rt.alloc(), image, &lists);
    expect_good(&rt, &found);
    same(&rt, found.reads.get(39).copied(), Some(1));
}
