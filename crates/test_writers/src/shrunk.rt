// Files that shrink, share and are made written.
use super::asks::{begin, convert, free_step, ref_step, refused, rmap_step, share, unmap};
use super::lists::{
    Act, Played, expect_journal, expect_leaves, expect_untouched, expect_words, play,
};
use byte_fields::get_u32;
use core_calls::{Answer, Ask, WriteFault};
use fresh_image::fresh_block;
use fs_model::{Cause, Entry, Piece};
use image_hosts::MemImage;
use rmap_recs::{RmapRec, UNWRITTEN};
use sblock::Kind;
use small_images::{
    Group, Stretch, at, bno_leaf, chunk_with, cnt_leaf, file_core, file_heads, mapped, owned,
    refc_leaf, rmap_leaf, run, shared, small_group, small_owned, small_with, with_file, written,
};
use span_recs::RefcRec;
use std::alloc::{AllocError, Global};
use std::process::Abort;

const FITS: &str = "memory is there";

// Inode 195 with these mappings and no other owner of blocks: the image where one run, whose length is
// this, isn't free.
fn file_image(
    alloc: Global,
    stretches: &[Stretch],
    count: u32,
    owners: &[RmapRec],
    counts: &[RefcRec],
) -> Result<MemImage, AllocError> {
    let rest = run(40u32.saturating_add(count), 216u32.saturating_sub(count));
    let free = [run(19, 5), run(32, 8), rest];
    let group = Group {
        freeblks: 229u32.saturating_sub(count),
        longest: rest.count,
        ..small_group()
    };
    let mut all = small_owned().to_vec(alloc)?;
    for owner in owners {
        all.push(*owner)?;
    }
    small_with(
        alloc,
        &[
            (0, file_heads(&group)),
            (1, bno_leaf(at(1), &free)),
            (2, cnt_leaf(at(2), &free)),
            (3, with_file(fresh_block(1, 256, 3))),
            (4, with_file(fresh_block(1, 256, 4))),
            (5, rmap_leaf(at(5), all.as_slice())),
            (6, refc_leaf(at(6), counts)),
            (24, chunk_with(&file_core(stretches))),
        ],
    )
}

// Inode 195 maps block 40 at the offsets 0 and 5; the block is counted so often.
fn twice_mapped(alloc: Global, refcount: u32) -> Result<MemImage, AllocError> {
    let owners = [mapped(40, 1, 195, 0), mapped(40, 1, 195, 5)];
    let stretches = [written(0, 40, 1), written(5, 40, 1)];
    file_image(alloc, &stretches, 1, &owners, &[shared(40, 1, refcount)])
}

// Block 40 was unmapped at an offset.
fn unmapped(offset: u64) -> Entry {
    Entry::Unmapped(Piece {
        writer: 1,
        chain: 0,
        ino: 195,
        offset,
        group: 0,
        block: 40,
        count: 1,
    })
}

// Its reverse mapping has followed.
fn owner_gone() -> Entry {
    Entry::RmapDone {
        chain: 0,
        ino: 195,
        group: 0,
        block: 40,
        count: 1,
    }
}

// Its reference count has followed.
fn count_fell() -> Entry {
    Entry::RefDone {
        chain: 0,
        group: 0,
        block: 40,
        count: 1,
        more: false,
    }
}

// It was freed, or kept.
fn freed(kept: bool) -> Entry {
    Entry::Freed {
        chain: 0,
        group: 0,
        block: 40,
        count: 1,
        kept,
    }
}

// The second of two mappings of a block goes; then nothing is owed.
fn second_goes() -> [Act; 5] {
    let none = refused(WriteFault::OtherStep(None));
    [
        Act::Once(begin(195, None), Answer::Chain(0)),
        Act::Once(unmap(5, 1), Answer::Blocks(1)),
        rmap_step(),
        ref_step(),
        Act::Once(Ask::FreeStep { chain: 0 }, none),
    ]
}

// The first one goes too.
fn first_goes() -> [Act; 4] {
    [
        Act::Once(unmap(0, 1), Answer::Blocks(1)),
        rmap_step(),
        ref_step(),
        free_step(),
    ]
}

#[test]
fn one_of_two_mappings_of_a_block_goes(rt: HostRuntime) {
    let image = twice_mapped(rt.alloc(), 2).expect(&rt, FITS);
    let found = play(&rt, rt.alloc(), image, &[&second_goes()[..]]);
    expect_journal(&rt, &found, &[unmapped(5), owner_gone(), count_fell()]);
    let [first, space, inodes, mappings, counts, list, chunk] = small_owned();
    let file = mapped(40, 1, 195, 0);
    let owners = [first, space, inodes, mappings, counts, list, chunk, file];
    // The block is still used.
    let free = [run(19, 5), run(32, 8), run(41, 215)];
    expect_leaves(
        &rt,
        &found,
        &[
            (1, bno_leaf(at(1), &free)),
            (2, cnt_leaf(at(2), &free)),
            (5, rmap_leaf(at(5), &owners)),
            (6, refc_leaf(at(6), &[])),
        ],
    );
}

#[test]
fn the_last_mapping_of_a_block_frees_it(rt: HostRuntime) {
    let image = twice_mapped(rt.alloc(), 2).expect(&rt, FITS);
    let lists = [&second_goes()[..], &first_goes()[..]];
    let found = play(&rt, rt.alloc(), image, &lists);
    let journal = [
        unmapped(5),
        owner_gone(),
        count_fell(),
        unmapped(0),
        owner_gone(),
        count_fell(),
        freed(false),
    ];
    expect_journal(&rt, &found, &journal);
    let free = [run(19, 5), run(32, 224)];
    expect_leaves(
        &rt,
        &found,
        &[
            (1, bno_leaf(at(1), &free)),
            (2, cnt_leaf(at(2), &free)),
            (5, rmap_leaf(at(5), &small_owned())),
            (6, refc_leaf(at(6), &[])),
        ],
    );
    expect_words(&rt, &found, &[(0, 564, 229), (0, 568, 224)]);
}

#[test]
fn a_count_at_its_end_cant_rise(rt: HostRuntime) {
    let image = twice_mapped(rt.alloc(), 4_294_967_200).expect(&rt, FITS);
    let before = twice_mapped(rt.alloc(), 4_294_967_200).expect(&rt, FITS);
    let acts = [
        Act::Once(begin(195, None), Answer::Chain(0)),
        Act::Once(share(0, 9, 1), refused(WriteFault::CountMax)),
        Act::Once(Ask::End { chain: 0 }, Answer::Done),
    ];
    let found = play(&rt, rt.alloc(), image, &[&acts[..]]);
    expect_journal(&rt, &found, &[]);
    expect_untouched(&rt, &found, &before);
}

// The same file, where block 40 has the owner of heads too.
fn thrice_owned(alloc: Global) -> Result<MemImage, AllocError> {
    let owners = [
        mapped(40, 1, 195, 0),
        mapped(40, 1, 195, 5),
        owned(40, 1, 3),
    ];
    let stretches = [written(0, 40, 1), written(5, 40, 1)];
    file_image(alloc, &stretches, 1, &owners, &[shared(40, 1, 2)])
}

#[test]
fn a_block_with_another_owner_isnt_freed(rt: HostRuntime) {
    let image = thrice_owned(rt.alloc()).expect(&rt, FITS);
    let lists = [&second_goes()[..], &first_goes()[..]];
    let found = play(&rt, rt.alloc(), image, &lists);
    let marked = Entry::Marked {
        group: 0,
        kind: Kind::Refc,
        cause: Cause::Owner,
    };
    let journal = [
        unmapped(5),
        owner_gone(),
        count_fell(),
        unmapped(0),
        owner_gone(),
        count_fell(),
        freed(true),
        marked,
    ];
    expect_journal(&rt, &found, &journal);
    let free = [run(19, 5), run(32, 8), run(41, 215)];
    let [first, space, inodes, mappings, counts, list, chunk] = small_owned();
    let other = owned(40, 1, 3);
    let owners = [first, space, inodes, mappings, counts, list, chunk, other];
    expect_leaves(
        &rt,
        &found,
        &[
            (1, bno_leaf(at(1), &free)),
            (2, cnt_leaf(at(2), &free)),
            (5, rmap_leaf(at(5), &owners)),
        ],
    );
}

// Unwritten blocks of a file.
fn not_written(offset: u64, block: u64, count: u64) -> Stretch {
    written((1u64 << 54).saturating_add(offset), block, count)
}

// The numbers of a file's first two mappings in block 24, as an inode with these has them.
fn expect_mappings(rt: &impl Abort, found: &Played, stretches: &[Stretch]) {
    let wanted = chunk_with(&file_core(stretches));
    for i in 0..8usize {
        let at = i.saturating_mul(4).saturating_add(1712);
        if at <= 4092 {
            expect_words(rt, found, &[(24, at, get_u32(&wanted.bytes, at))]);
        }
    }
    // So many mappings there are.
    expect_words(rt, found, &[(24, 1612, 2)]);
}

#[test]
fn one_of_two_unwritten_blocks_is_made_written(rt: HostRuntime) {
    let owners = [mapped(40, 2, 195, UNWRITTEN)];
    let stretches = [not_written(0, 40, 2)];
    let image = file_image(rt.alloc(), &stretches, 2, &owners, &[]).expect(&rt, FITS);
    let acts = [
        Act::Once(begin(195, None), Answer::Chain(0)),
        Act::Once(convert(1, 5), Answer::Blocks(1)),
    ];
    let found = play(&rt, rt.alloc(), image, &[&acts[..]]);
    let converted = Entry::Converted(Piece {
        writer: 1,
        chain: 0,
        ino: 195,
        offset: 1,
        group: 0,
        block: 41,
        count: 1,
    });
    expect_journal(&rt, &found, &[converted]);
    expect_mappings(&rt, &found, &[not_written(0, 40, 1), written(1, 41, 1)]);
}
