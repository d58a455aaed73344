// The bytes of loaded blocks.
use super::same::same_in_row;
use crate::read_back::loaded_kind;
use crate::trees::{large_group, last_group, tree_in};
use byte_fields::{Block, get_u32};
use ino_recs::{InoKind, InoRec};
use rmap_recs::{RmapKind, RmapRec};
use sblock::Kind;
use std::alloc::{AllocError, Global};
use std::process::Abort;
use std::test::Fail;

// The word at this place.
fn word_at(block: &Block, at: usize) -> u32 {
    if at > 4092 {
        return 0;
    }
    get_u32(&block.bytes, at)
}

// The word at this place of the block with this number.
fn word_in(placed: &[(u32, Block)], number: usize, at: usize) -> u32 {
    match placed.get(number) {
        Some((_, block)) => word_at(block, at),
        None => 0,
    }
}

// Compares the words of a block from this place on.
fn expect_words(rt: &impl Abort, placed: &[(u32, Block)], number: usize, at: usize, words: &[u32]) {
    let mut at = at;
    for word in words {
        same_in_row(rt, (number, at), word_in(placed, number, at), *word);
        at = at.saturating_add(4);
    }
}

const fn mapping(start: u32, count: u32, owner: u64, word: u64) -> RmapRec {
    RmapRec {
        start,
        count,
        owner,
        word,
    }
}

#[test]
fn records_are_written_as_the_format_has_them(rt: HostRuntime) -> Result<(), Fail> {
    let alloc = rt.alloc();
    let site = large_group();
    let list = [
        mapping(7, 12, 0xffff_ffff_ffff_fffb, 0),
        mapping(40, 1, 195, 5),
    ];
    let leaf = tree_in::<RmapKind>(alloc, &list, &site, &[9])?;
    let words = [
        7,
        12,
        0xffff_ffff,
        0xffff_fffb,
        0,
        0,
        40,
        1,
        0,
        195,
        0,
        5,
        0,
    ];
    expect_words(&rt, &leaf, 0, 56, &words);
    let chunk = InoRec {
        startino: 192,
        holemask: 0,
        count: 64,
        freecount: 61,
        free: 0xffff_ffff_ffff_fff8,
    };
    let leaf = tree_in::<InoKind>(alloc, &[chunk], &site, &[9])?;
    let words = [0xc0, 0x0000_403d, 0xffff_ffff, 0xffff_fff8, 0];
    expect_words(&rt, &leaf, 0, 56, &words);
    Ok(())
}

// A list whose first record ends behind all others: its end is the greatest key of the first leaf.
fn list_below_its_first(alloc: Global) -> Result<Vec<RmapRec>, AllocError> {
    let mut list = Vec::new(alloc);
    list.push(mapping(7, 17, 195, 0))?;
    for owner in 200..368 {
        list.push(mapping(8, 1, owner, 0))?;
    }
    Ok(list)
}

#[test]
fn headers_keys_and_pointers_stand_in_their_places(rt: HostRuntime) -> Result<(), Fail> {
    let alloc = rt.alloc();
    let list = list_below_its_first(alloc)?;
    let placed = tree_in::<RmapKind>(alloc, &list, &last_group(), &[100, 101, 102])?;
    // Magic, level and count, siblings, place, log sequence number, UUID, group.
    let none = 0xffff_ffff;
    let heads = [
        [0x524d_4233, 85, none, 101, 0, 308_000],
        [0x524d_4233, 84, 100, none, 0, 308_008],
        [0x524d_4233, 0x0001_0002, none, none, 0, 308_016],
    ];
    let rest = [
        0x1112_1314,
        0x1516_1718,
        0x0102_0304,
        0x0506_0708,
        0x090a_0b0c,
        0x0d0e_0f10,
        2,
    ];
    for (number, head) in heads.iter().enumerate() {
        expect_words(&rt, &placed, number, 0, head);
        expect_words(&rt, &placed, number, 24, &rest);
    }
    // The low and the high key of both leaves, and behind the room of 91 keys the pointers.
    let keys = [
        7, 0, 195, 0, 0, 0x17, 0, 0xc3, 0, 0x10, 8, 0, 284, 0, 0, 8, 0, 367, 0, 0, 0,
    ];
    expect_words(&rt, &placed, 2, 56, &keys);
    expect_words(&rt, &placed, 2, 3696, &[100, 101]);
    Ok(())
}

#[test]
fn records_and_children_are_spread_evenly(rt: HostRuntime) -> Result<(), Fail> {
    let alloc = rt.alloc();
    // Level and count of three blocks by their numbers: leaves, also the last one with the least
    // number, and nodes, of which the last has the least number where there are 337 leaves.
    let rows = [
        (Kind::Bno, 506, [(0, 253), (1, 253), (2, 0x0001_0002)]),
        (Kind::Cnt, 506, [(0, 253), (1, 253), (2, 0x0001_0002)]),
        (Kind::Rmap, 169, [(0, 85), (1, 84), (2, 0x0001_0002)]),
        (Kind::Refc, 337, [(0, 169), (1, 168), (2, 0x0001_0002)]),
        (Kind::Ino, 253, [(0, 127), (1, 126), (2, 0x0001_0002)]),
        (Kind::Fino, 253, [(0, 127), (1, 126), (2, 0x0001_0002)]),
        (Kind::Bno, 169_681, [(169, 504), (170, 503), (336, 503)]),
        (
            Kind::Bno,
            169_681,
            [(337, 0x0001_00a9), (338, 0x0001_00a8), (339, 0x0002_0002)],
        ),
        (Kind::Rmap, 15_289, [(16, 167), (17, 166), (91, 166)]),
        (
            Kind::Rmap,
            15_289,
            [(92, 0x0001_002e), (93, 0x0001_002e), (94, 0x0002_0002)],
        ),
        (
            Kind::Fino,
            127_261,
            [(506, 0x0001_00fd), (507, 0x0001_00fd), (508, 0x0002_0002)],
        ),
    ];
    for (kind, n, words) in rows {
        let placed = loaded_kind(alloc, kind, n)?;
        for (number, word) in words {
            same_in_row(&rt, (kind, n, number), word_in(&placed, number, 4), word);
        }
    }
    Ok(())
}
