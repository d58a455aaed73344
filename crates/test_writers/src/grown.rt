// Files that grow, on a new image.
use super::asks::{begin, map, refused, rmap_step, take};
use super::lists::{Act, expect_journal, expect_leaves, expect_words, play};
use core_calls::{Answer, Ask, WriteFault};
use fs_model::{Cause, Entry, Piece};
use image_hosts::MemImage;
use rmap_recs::UNWRITTEN;
use sblock::Kind;
use small_images::{
    at, bno_leaf, cnt_leaf, mapped, owned, rmap_leaf, run, small_image, small_owned, small_with,
};
use std::alloc::{AllocError, Global};

const FITS: &str = "memory is there";

// The lowest free inode was taken, in a chunk that was there.
fn taken() -> Entry {
    Entry::Taken {
        writer: 1,
        ino: 195,
        uid: 7,
        chunk: None,
    }
}

// Blocks of inode 195 were mapped.
fn grown(offset: u64, block: u32, count: u32) -> Entry {
    Entry::Mapped(Piece {
        writer: 1,
        chain: 0,
        ino: 195,
        offset,
        group: 0,
        block,
        count,
    })
}

#[test]
fn a_new_file_grows_by_the_first_run_that_is_long_enough(rt: HostRuntime) {
    let image = small_image(rt.alloc()).expect(&rt, FITS);
    let acts = [
        Act::Once(take(), Answer::Taken(195, 0)),
        Act::Once(map(0, 6), Answer::Blocks(6)),
        rmap_step(),
        Act::Once(map(6, 1), Answer::Blocks(1)),
    ];
    let found = play(&rt, rt.alloc(), image, &[&acts[..]]);
    let followed = Entry::RmapDone {
        chain: 0,
        ino: 195,
        group: 0,
        block: 32,
        count: 6,
    };
    let journal = [taken(), grown(0, 32, 6), followed, grown(6, 19, 1)];
    expect_journal(&rt, &found, &journal);
    let free = [run(20, 4), run(38, 218)];
    let [first, space, inodes, mappings, counts, list, chunk] = small_owned();
    let file = mapped(32, 6, 195, UNWRITTEN);
    let owners = [first, space, inodes, mappings, counts, list, chunk, file];
    expect_leaves(
        &rt,
        &found,
        &[
            (1, bno_leaf(at(1), &free)),
            (2, cnt_leaf(at(2), &free)),
            (5, rmap_leaf(at(5), &owners)),
        ],
    );
}

#[test]
fn a_taken_inode_is_held(rt: HostRuntime) {
    let image = small_image(rt.alloc()).expect(&rt, FITS);
    let other = Ask::Begin {
        writer: 2,
        first: 195,
        second: None,
    };
    let acts = [
        Act::Once(take(), Answer::Taken(195, 0)),
        Act::Once(other, refused(WriteFault::Busy(195))),
    ];
    let found = play(&rt, rt.alloc(), image, &[&acts[..]]);
    expect_journal(&rt, &found, &[taken()]);
}

#[test]
fn a_kept_inode_and_one_that_isnt_listed_are_no_files(rt: HostRuntime) {
    let image = small_image(rt.alloc()).expect(&rt, FITS);
    let acts = [
        Act::Once(begin(192, None), refused(WriteFault::NoFile)),
        Act::Once(begin(300, None), refused(WriteFault::NoFile)),
    ];
    let found = play(&rt, rt.alloc(), image, &[&acts[..]]);
    expect_journal(&rt, &found, &[]);
}

// A new image whose reverse mappings give the free blocks 19 to 23 to inodes.
fn owned_space(alloc: Global) -> Result<MemImage, AllocError> {
    let [first, space, inodes, mappings, counts, list, chunk] = small_owned();
    let other = owned(19, 5, 7);
    let owners = [first, space, inodes, mappings, counts, list, other, chunk];
    small_with(alloc, &[(5, rmap_leaf(at(5), &owners))])
}

fn marked(kind: Kind) -> Entry {
    Entry::Marked {
        group: 0,
        kind,
        cause: Cause::Owner,
    }
}

#[test]
fn free_blocks_with_an_owner_are_given_to_no_file(rt: HostRuntime) {
    let image = owned_space(rt.alloc()).expect(&rt, FITS);
    let acts = [
        Act::Once(take(), Answer::Taken(195, 0)),
        Act::Once(map(0, 3), refused(WriteFault::Sick(0, Kind::Bno))),
    ];
    let found = play(&rt, rt.alloc(), image, &[&acts[..]]);
    expect_journal(
        &rt,
        &found,
        &[taken(), marked(Kind::Bno), marked(Kind::Cnt)],
    );
    let free = [run(19, 5), run(32, 224)];
    expect_leaves(
        &rt,
        &found,
        &[(1, bno_leaf(at(1), &free)), (2, cnt_leaf(at(2), &free))],
    );
    // The file has no blocks and no mappings.
    expect_words(&rt, &found, &[(24, 1604, 0), (24, 1612, 0)]);
}
