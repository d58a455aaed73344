ghost use Rattle.std.specs.Prelude.{◌≡◌};

use super::same::{same, same_in_row};
use crate::blocks::{altered, block_of, mended};
use crate::counted::Counted;
use byte_fields::Block;
use sblock::{
    BlockFault, Bounds, Header, Kind, RecKind, Span, Want, child_at, count_of, data_area,
    leaf_records, left_of, level_of, owner_of, place_of, put_child, right_of, span_of_records,
    span_of_subtrees, verify,
};
use std::process::Abort;
use std::test::Fail;

const NONE: u32 = 0xffff_ffff;

fn want(level: u8, root: bool) -> Want
    ensures kind { result.kind ≡ Kind.Ino }
    ensures level { result.level ≡ level }
{
    let uuid = [1, 2, 3, 4, 5, 6, 7, 8, 9, 10, 11, 12, 13, 14, 15, 16];
    let bounds = Bounds {
        length: 100,
        agblocks: 100,
        agcount: 3,
        last: 100,
        agblklog: 7,
    };
    Want {
        kind: Kind::Ino,
        level,
        root,
        left: NONE,
        place: 848,
        group: 1,
        bounds,
        uuid,
    }
}

// A block of three records or entries at block 6 of group 1, with these numbers behind its header and
// without a sum.
fn headed(level: u16, words: &[u32]) -> Block {
    let block = block_of(0x4941_4233, level, 3, words);
    // Its place, its log sequence number and its group.
    let block = altered(altered(block, 20, 848), 28, 77);
    altered(block, 48, 1)
}

// The numbers 10, 20 and 30, each in 16 bytes.
fn leaf() -> Block {
    headed(0, &[10, 0, 0, 0, 20, 0, 0, 0, 30])
}

// The keys 10, 20 and 30, and from byte 2,076 on the pointers 40, 50 and 60.
fn node() -> Block {
    let block = altered(headed(1, &[10, 20, 30]), 2076, 40);
    altered(altered(block, 2080, 50), 2084, 60)
}

fn judged(block: &Block, level: u8, root: bool) -> Result<Header, BlockFault> {
    let want = want(level, root);
    verify::<Counted>(block, &want)
}

// The header that `headed` writes.
fn header(level: u8) -> Header {
    Header {
        level,
        numrecs: 3,
        left: NONE,
        right: NONE,
        lsn: 77,
    }
}

#[test]
fn sound_roots_show_their_headers_and_others_a_fault(rt: HostRuntime) {
    same(&rt, judged(&mended(leaf()), 0, true), Ok(header(0)));
    same(&rt, judged(&mended(node()), 1, true), Ok(header(1)));
    let block = altered(altered(node(), 8, 5), 12, 7);
    same(&rt, [level_of(&block), count_of(&block)], [1, 3]);
    same(
        &rt,
        [left_of(&block), right_of(&block), owner_of(&block)],
        [5, 7, 1],
    );
    same(&rt, place_of(&block), 848);
    // A block beside others needs half of the greatest number, and the checksum comes before the order.
    same(
        &rt,
        judged(&mended(leaf()), 0, false),
        Err(BlockFault::Count),
    );
    same(
        &rt,
        judged(&mended(node()), 1, false),
        Err(BlockFault::Count),
    );
    let block = altered(mended(leaf()), 88, 20);
    same(&rt, judged(&block, 0, true), Err(BlockFault::Checksum));
}

#[test]
fn each_test_of_a_block_has_its_fault(rt: HostRuntime) {
    let rows = [
        (0, 0, 0x4142_3342, BlockFault::Magic),
        (0, 4, 0x0001_0003, BlockFault::Level),
        (0, 4, 253, BlockFault::Count),
        (0, 8, 7, BlockFault::Sibling),
        (0, 20, 840, BlockFault::Place),
        (0, 48, 2, BlockFault::Owner),
        (0, 44, 0x0d0e_0f11, BlockFault::Uuid),
        (0, 88, 20, BlockFault::Order),
        (0, 88, 100, BlockFault::Range),
        (0, 88, 0x8000_0000, BlockFault::Later),
        // A node of no pointer, of one too many, and with pointers to block 0 and behind the group.
        (1, 4, 0x0001_0000, BlockFault::Count),
        (1, 4, 0x0001_01fa, BlockFault::Count),
        (1, 64, 20, BlockFault::Order),
        (1, 2084, 0, BlockFault::Range),
        (1, 2084, 100, BlockFault::Range),
        // No block has level 9.
        (9, 4, 0x0009_0003, BlockFault::Level),
    ];
    for (level, at, value, fault) in rows {
        let sound = if level == 1 { node() } else { leaf() };
        let block = mended(altered(sound, at, value));
        same_in_row(&rt, at, judged(&block, level, true), Err(fault));
    }
}

#[test]
fn records_of_a_leaf_come_in_order(rt: HostRuntime) -> Result<(), Fail> {
    let block = mended(leaf());
    let want = want(0, true);
    let header = verify::<Counted>(&block, &want)?;
    let records = leaf_records::<Counted>(rt.alloc(), &block)?;
    same(&rt, header.numrecs, 3);
    same(&rt, records.as_slice(), [10, 20, 30].as_slice());
    Ok(())
}

#[test]
fn keys_stand_for_records_and_for_subtrees(rt: HostRuntime) {
    same(
        &rt,
        span_of_records::<Counted>(&[10, 20, 30]),
        Some(Span { low: 10, high: 30 }),
    );
    same(&rt, span_of_records::<Counted>(&[]), None);
    let below = [Span { low: 10, high: 50 }, Span { low: 20, high: 30 }];
    same(
        &rt,
        span_of_subtrees::<Counted>(&below),
        Some(Span { low: 10, high: 50 }),
    );
}

#[test]
fn entries_of_a_node_are_read_and_written(rt: HostRuntime) {
    let block = node();
    let area = data_area(&block);
    same(&rt, Counted::key_at(area, 2), 30);
    same(&rt, child_at(Kind::Ino, area, 2), 60);
    let mut area = [0; 4040];
    Counted::put_keys(&mut area, 504, &7, &9);
    put_child(Kind::Ino, &mut area, 504, 8);
    same(
        &rt,
        &area[2012..2024],
        [0, 0, 0, 0, 0, 0, 0, 7, 0, 0, 0, 0].as_slice(),
    );
    same(&rt, &area[4032..4040], [0, 0, 0, 0, 0, 0, 0, 8].as_slice());
}

// 4,040 bytes divided by those of a record, or of a key and a pointer; and the half.
fn expect_numbers(rt: &impl Abort, kind: Kind) {
    let leaf = usize::from(kind.leaf_most());
    let node = usize::from(kind.node_most());
    same_in_row(rt, kind, leaf, 4040 / kind.record_width());
    same_in_row(rt, kind, node, 4040 / (kind.key_width() + 4));
    same_in_row(rt, kind, usize::from(kind.leaf_least()), leaf / 2);
    same_in_row(rt, kind, usize::from(kind.node_least()), node / 2);
    same_in_row(rt, kind, kind.has_high_keys(), kind == Kind::Rmap);
}

#[test]
fn numbers_follow_from_the_widths(rt: HostRuntime) {
    for kind in [
        Kind::Bno,
        Kind::Cnt,
        Kind::Rmap,
        Kind::Refc,
        Kind::Ino,
        Kind::Fino,
    ] {
        expect_numbers(&rt, kind);
    }
    same(&rt, Kind::Rmap.magic().to_be_bytes(), *b"RMB3");
}
