use super::same::{same, same_in_row};
use rmap_recs::{Key, Owner, RmapKind, RmapRec, Tuple, runs};
use sblock::{Bounds, Kind, RecKind};
use std::alloc::{AllocError, Global};
use std::test::Fail;

const AG: u64 = 0xffff_ffff_ffff_fffb;

const ATTRIBUTE: u64 = 1 << 63;

const FORK_TREE: u64 = 1 << 62;

const UNWRITTEN: u64 = 1 << 61;

const OFFSETS: u64 = 1 << 54;

fn rec_of(start: u32, count: u32, owner: u64, word: u64) -> RmapRec {
    RmapRec {
        start,
        count,
        owner,
        word,
    }
}

fn shown(alloc: Global, owner: Owner) -> Result<String, AllocError> {
    format!(in alloc; "{owner}")
}

#[test]
fn owners_have_their_numbers_and_words(rt: HostRuntime) -> Result<(), Fail> {
    let alloc = rt.alloc();
    let table = [
        (Owner::Fs, 0xffff_ffff_ffff_fffd, "fs"),
        (Owner::Log, 0xffff_ffff_ffff_fffc, "log"),
        (Owner::Ag, 0xffff_ffff_ffff_fffb, "ag"),
        (Owner::Inobt, 0xffff_ffff_ffff_fffa, "inobt"),
        (Owner::Inodes, 0xffff_ffff_ffff_fff9, "inodes"),
        (Owner::Refc, 0xffff_ffff_ffff_fff8, "refc"),
        (Owner::Cow, 0xffff_ffff_ffff_fff7, "cow"),
        (Owner::Inode(195), 195, "195"),
    ];
    for (owner, number, word) in table {
        same(&rt, owner.number(), number);
        same(&rt, Owner::from_number(number), Some(owner));
        same(&rt, shown(alloc, owner)?.as_str(), word);
    }
    let nobody = [
        Owner::from_number(u64::MAX),
        Owner::from_number(u64::MAX - 1),
    ];
    same(&rt, nobody, [None, None]);
    Ok(())
}

#[test]
fn a_record_is_written_as_24_bytes(rt: HostRuntime) {
    let mut area = [255u8; 4040];
    RmapKind::put_record(&mut area, 1, &rec_of(40, 1, 195, 5));
    let bytes = [
        0, 0, 0, 0x28, 0, 0, 0, 1, 0, 0, 0, 0, 0, 0, 0, 0xc3, 0, 0, 0, 0, 0, 0, 0, 5,
    ];
    same(&rt, &area[24..48], &bytes[..]);
    same(&rt, [area[23], area[48]], [255, 255]);
    same(&rt, RmapKind::record_at(&area, 1), rec_of(40, 1, 195, 5));
}

#[test]
fn an_entry_is_the_low_and_the_high_key(rt: HostRuntime) {
    let mut area = [255u8; 4040];
    let rec = RmapRec {
        start: 7,
        count: 17,
        owner: 195,
        word: 0x2000_0000_0000_0000,
    };
    same(&rt, RmapKind::kind(), Kind::Rmap);
    RmapKind::put_keys(
        &mut area,
        2,
        &RmapKind::key_of(&rec),
        &RmapKind::high_key_of(&rec),
    );
    let low = [
        0, 0, 0, 7, 0, 0, 0, 0, 0, 0, 0, 0xc3, 0, 0, 0, 0, 0, 0, 0, 0,
    ];
    let high = [
        0, 0, 0, 0x17, 0, 0, 0, 0, 0, 0, 0, 0xc3, 0, 0, 0, 0, 0, 0, 0, 0x10,
    ];
    same(&rt, &area[80..100], &low[..]);
    same(&rt, &area[100..120], &high[..]);
    same(&rt, [area[79], area[120]], [255, 255]);
}

// The numbers of a key: its start, its owner and its word.
fn key_of((start, owner, word): (u32, u64, u64)) -> Key {
    RmapKind::key_of(&rec_of(start, 1, owner, word))
}

#[test]
fn keys_are_ordered_by_start_owner_and_word(rt: HostRuntime) {
    for (first, second, is_before) in [
        ((5, 9, 9), (6, 0, 0), true),
        ((5, 8, 9), (5, 9, 0), true),
        ((5, 9, 7), (5, 9, 8), true),
        ((5, 9, UNWRITTEN + 7), (5, 9, 8), true),
        ((5, 9, 7), (5, 9, UNWRITTEN + 7), false),
        ((5, 9, 8), (5, 9, UNWRITTEN + 7), false),
        ((5, 9, 8), (5, 9, ATTRIBUTE), true),
    ] {
        let found = RmapKind::is_before(&key_of(first), &key_of(second));
        same_in_row(&rt, (first, second), found, is_before);
    }
}

#[test]
fn owner_and_word_fit_together(rt: HostRuntime) {
    let bounds = Bounds {
        length: 1000,
        agblocks: 1000,
        agcount: 4,
        last: 500,
        agblklog: 10,
    };
    for (start, count, owner, word, is_right) in [
        (0, 1000, AG, 0, true),
        (0, 1001, AG, 0, false),
        (5, 0, AG, 0, false),
        (5, 1, AG, 1, false),
        (5, 1, u64::MAX - 1, 0, false),
        (5, 1, u64::MAX, 0, false),
        (5, 1, 28_575, 7, true),
        (5, 1, 28_576, 7, false),
        (5, 1, 32_768, 7, false),
        (5, 1, 195, UNWRITTEN + 3, true),
        (5, 1, 195, ATTRIBUTE + 3, true),
        (5, 1, 195, ATTRIBUTE + UNWRITTEN, false),
        (5, 1, 195, FORK_TREE + ATTRIBUTE, true),
        (5, 1, 195, FORK_TREE + 1, false),
        (5, 1, 195, FORK_TREE + UNWRITTEN, false),
        (5, 1, 195, 1 << 55, false),
        (5, 2, 195, OFFSETS - 2, true),
        (5, 2, 195, OFFSETS - 1, false),
    ] {
        let rec = rec_of(start, count, owner, word);
        same_in_row(&rt, rec, RmapKind::is_in_range(&rec, &bounds), is_right);
    }
}

// Whether two records, each a start, a count, an owner and a word, can be joined.
fn can_join(first: (u32, u32, u64, u64), second: (u32, u32, u64, u64)) -> bool {
    let second = rec_of(second.0, second.1, second.2, second.3);
    rec_of(first.0, first.1, first.2, first.3).can_join(&second)
}

#[test]
fn records_are_joined_where_all_goes_on(rt: HostRuntime) {
    for (first, second, is_one) in [
        ((4, 2, 195, 7), (6, 1, 195, 9), true),
        ((4, 2, 195, 7), (6, 1, 195, 10), false),
        ((4, 2, 195, 7), (7, 1, 195, 9), false),
        ((4, 2, 195, 7), (6, 1, 196, 9), false),
        ((4, 2, 195, 7), (6, 1, 195, UNWRITTEN + 9), false),
        ((4, 1, 195, OFFSETS - 1), (5, 1, 195, OFFSETS), false),
        ((4, 1, 195, FORK_TREE), (5, 1, 195, FORK_TREE), true),
        ((4, 2, AG, 0), (6, 3, AG, 0), true),
    ] {
        same_in_row(&rt, (first, second), can_join(first, second), is_one);
    }
    for (word, wanted) in [
        (5, true),
        (UNWRITTEN + 5, false),
        (ATTRIBUTE + 5, false),
        (FORK_TREE, false),
    ] {
        let rec = rec_of(4, 1, 195, word);
        same_in_row(&rt, rec, rec.is_shareable(), wanted);
    }
    same(&rt, rec_of(4, 1, AG, 0).is_shareable(), false);
}

#[test]
fn runs_end_where_owner_flags_or_offset_change(rt: HostRuntime) -> Result<(), Fail> {
    let tuples = [
        Tuple {
            block: 4,
            owner: 195,
            word: 0,
        },
        Tuple {
            block: 4,
            owner: 196,
            word: 10,
        },
        Tuple {
            block: 5,
            owner: 195,
            word: 1,
        },
        Tuple {
            block: 5,
            owner: 196,
            word: 0x2000_0000_0000_000b,
        },
        Tuple {
            block: 6,
            owner: 195,
            word: 3,
        },
        Tuple {
            block: 6,
            owner: 196,
            word: 0x2000_0000_0000_000c,
        },
        Tuple {
            block: 6,
            owner: 0xffff_ffff_ffff_fffb,
            word: 0,
        },
        Tuple {
            block: 7,
            owner: 196,
            word: 0x4000_0000_0000_0000,
        },
        Tuple {
            block: 7,
            owner: 0xffff_ffff_ffff_fffb,
            word: 0,
        },
        Tuple {
            block: 8,
            owner: 196,
            word: 0x4000_0000_0000_0000,
        },
        Tuple {
            block: 9,
            owner: 0xffff_ffff_ffff_fffb,
            word: 0,
        },
    ];
    let found = runs(rt.alloc(), &tuples)?;
    let wanted = [
        rec_of(4, 2, 195, 0),
        rec_of(4, 1, 196, 10),
        rec_of(5, 2, 196, UNWRITTEN + 11),
        rec_of(6, 1, 195, 3),
        rec_of(6, 2, AG, 0),
        rec_of(7, 2, 196, FORK_TREE),
        rec_of(9, 1, AG, 0),
    ];
    same(&rt, found.as_slice(), &wanted[..]);
    Ok(())
}
