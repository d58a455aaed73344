// Trees of free space by start, in a group of 4,096 blocks.
ghost use Rattle.std.specs.Prelude.{◌≡◌};

use super::same::same;
use crate::build::{BNO, NONE, header_of};
use crate::read::tree_at;
use crate::small::{device_of, one_group, summed, with_words};
use blk_cache::BlkCache;
use blk_device::{Device, MemDevice, Region};
use byte_fields::{Block, Steps};
use sblock::{BlockFault, Kind};
use span_recs::{BnoKind, SpanRec};
use std::alloc::{AllocError, Global};
use std::marker::Brand;
use std::process::Abort;
use std::sync::ledger::{Blank, Ledger};
use std::test::Fail;
use tree_walk::{WalkFault, find, last, next_leaf};

// The leaf at this place: 252 free blocks, each with a used one behind it.
fn leaf_of(at: u32, first: u16, left: u32, right: u32) -> Block {
    let mut block = header_of(BNO.magic, at, 0, 252, [left, right]);
    for i in 0..252u16 {
        let start = u32::from(first) + 2 * u32::from(i);
        block = with_words(block, 56 + 8 * i, &[start, 1]);
    }
    summed(block)
}

// The root at block 1 over the leaves at blocks 40 and 41, with the keys 2 and 1,000.
fn root() -> Block {
    let mut block = header_of(BNO.magic, 1, 1, 2, [NONE, NONE]);
    block = with_words(block, 56, &[2, 1, 1000, 1]);
    block = with_words(block, 56 + 336 * 8, &[40, 41]);
    summed(block)
}

// The free blocks 2, 4 to 504, and 1,000, 1,002 to 1,502.
fn two_leaves(alloc: Global) -> Result<MemDevice, AllocError> {
    let low = leaf_of(40, 2, NONE, 41);
    let high = leaf_of(41, 1000, 40, NONE);
    device_of(alloc, [root(), low, high])
}

// The same, but the second leaf says that it is block 42.
fn one_wrong_leaf(alloc: Global) -> Result<MemDevice, AllocError> {
    let low = leaf_of(40, 2, NONE, 41);
    let high = leaf_of(42, 1000, 40, NONE);
    device_of(alloc, [root(), low, high])
}

const fn free(start: u32) -> SpanRec {
    SpanRec { start, count: 1 }
}

// How many records a leaf has left, and the first and the last of them.
type Next = Result<(usize, Option<SpanRec>, Option<SpanRec>), WalkFault>;

const fn next_leaf_of(count: usize, first: u32, last: u32) -> Next {
    Ok((count, Some(free(first)), Some(free(last))))
}

const fn bad(block: u32, fault: BlockFault) -> WalkFault {
    WalkFault::Bad { block, fault }
}

fn found_in<L: Ledger>(
    alloc: Global,
    mut device: MemDevice,
    root: u32,
    levels: u32,
    start: u32,
    blank: Blank,
) -> Result<Option<SpanRec>, WalkFault>
    requires name { blank.name ≡ L.name }
    requires parts { blank.parts ≡ L.parts }
    requires three { blank.parts ≡ 3 }
{
    let geo = one_group();
    let tree = tree_at(Kind::Bno, root, levels);
    if device.size(Region::Image) < 4096 {
        return Err(WalkFault::Failed);
    }
    let Ok(mut cache) = BlkCache::new(alloc, 8) else {
        return Err(WalkFault::Memory);
    };
    let mut steps = Steps::<L>::new(blank);
    find::<BnoKind, MemDevice, L>(
        &mut device,
        &mut cache,
        &geo,
        &tree,
        free(start),
        &mut steps,
    )
}

// What is found at this start, in the tree with this root and so many levels.
fn found(
    alloc: Global,
    device: MemDevice,
    root: u32,
    levels: u32,
    start: u32,
) -> Result<Option<SpanRec>, WalkFault> {
    let blank = Blank::new(3);
    found_in::<Brand>(alloc, device, root, levels, start, blank)
}

fn next_in<L: Ledger>(
    alloc: Global,
    mut device: MemDevice,
    levels: u32,
    after: Option<SpanRec>,
    blank: Blank,
) -> Result<Vec<SpanRec>, WalkFault>
    requires name { blank.name ≡ L.name }
    requires parts { blank.parts ≡ L.parts }
    requires three { blank.parts ≡ 3 }
{
    let geo = one_group();
    let tree = tree_at(Kind::Bno, 1, levels);
    if device.size(Region::Image) < 4096 {
        return Err(WalkFault::Failed);
    }
    let Ok(mut cache) = BlkCache::new(alloc, 8) else {
        return Err(WalkFault::Memory);
    };
    let mut steps = Steps::<L>::new(blank);
    next_leaf::<BnoKind, MemDevice, L>(
        alloc,
        &mut device,
        &mut cache,
        &geo,
        &tree,
        after,
        &mut steps,
    )
}

fn last_in<L: Ledger>(
    alloc: Global,
    mut device: MemDevice,
    root: u32,
    levels: u32,
    blank: Blank,
) -> Result<Option<SpanRec>, WalkFault>
    requires name { blank.name ≡ L.name }
    requires parts { blank.parts ≡ L.parts }
    requires three { blank.parts ≡ 3 }
{
    let geo = one_group();
    let tree = tree_at(Kind::Bno, root, levels);
    if device.size(Region::Image) < 4096 {
        return Err(WalkFault::Failed);
    }
    let Ok(mut cache) = BlkCache::new(alloc, 8) else {
        return Err(WalkFault::Memory);
    };
    let mut steps = Steps::<L>::new(blank);
    last::<BnoKind, MemDevice, L>(&mut device, &mut cache, &geo, &tree, &mut steps)
}

// The last record of the tree with this root and so many levels.
fn last_of(
    alloc: Global,
    device: MemDevice,
    root: u32,
    levels: u32,
) -> Result<Option<SpanRec>, WalkFault> {
    let blank = Blank::new(3);
    last_in::<Brand>(alloc, device, root, levels, blank)
}

// Expects this of the leaf behind each of these records.
fn expect_next(
    rt: &impl Abort,
    alloc: Global,
    rows: &[(Option<SpanRec>, Next)],
) -> Result<(), AllocError> {
    for (after, expected) in rows {
        let answer = next(alloc, two_leaves(alloc)?, 2, *after);
        same(rt, (*after, answer), (*after, *expected));
    }
    Ok(())
}

// How many records come next, and the first and the last of them.
fn next(alloc: Global, device: MemDevice, levels: u32, after: Option<SpanRec>) -> Next {
    let blank = Blank::new(3);
    match next_in::<Brand>(alloc, device, levels, after, blank) {
        Ok(recs) => Ok((recs.len(), recs.first().copied(), recs.last().copied())),
        Err(fault) => Err(fault),
    }
}

#[test]
fn a_record_is_found_by_its_key(rt: HostRuntime) -> Result<(), Fail> {
    let alloc = rt.alloc();
    let present = [2, 4, 250, 504, 1000, 1002, 1502];
    let absent = [1, 3, 505, 999, 1001, 1503, 4095];
    for start in present {
        let answer = found(alloc, two_leaves(alloc)?, 1, 2, start);
        assert_eq!(rt; answer, Ok(Some(free(start))), "at {start}");
    }
    for start in absent {
        let answer = found(alloc, two_leaves(alloc)?, 1, 2, start);
        assert_eq!(rt; answer, Ok(None), "at {start}");
    }
    Ok(())
}

#[test]
fn leaf_after_leaf_gives_all_records(rt: HostRuntime) -> Result<(), Fail> {
    let alloc = rt.alloc();
    let low = next_leaf_of(252, 2, 504);
    let high = next_leaf_of(252, 1000, 1502);
    let none = Ok((0, None, None));
    let rows = [
        (None, low),
        (Some(free(504)), high),
        (Some(free(1502)), none),
        // Keys that no record has, in front of all, between two leaves and behind all.
        (Some(free(1)), low),
        (Some(free(700)), high),
        (Some(free(4000)), none),
        // What is left of each leaf behind one of its records.
        (Some(free(500)), next_leaf_of(2, 502, 504)),
        (Some(free(1498)), next_leaf_of(2, 1500, 1502)),
    ];
    expect_next(&rt, alloc, &rows)?;
    Ok(())
}

#[test]
fn blocks_beside_the_way_are_not_tested(rt: HostRuntime) -> Result<(), Fail> {
    let alloc = rt.alloc();
    let low = next_leaf_of(252, 2, 504);
    let wrong = bad(41, BlockFault::Place);
    same(
        &rt,
        found(alloc, one_wrong_leaf(alloc)?, 1, 2, 4),
        Ok(Some(free(4))),
    );
    same(
        &rt,
        found(alloc, one_wrong_leaf(alloc)?, 1, 2, 1000),
        Err(wrong),
    );
    same(&rt, next(alloc, one_wrong_leaf(alloc)?, 2, None), low);
    same(
        &rt,
        next(alloc, one_wrong_leaf(alloc)?, 2, Some(free(504))),
        Err(wrong),
    );
    Ok(())
}

#[test]
fn an_empty_root_leaf_has_no_records(rt: HostRuntime) -> Result<(), Fail> {
    let alloc = rt.alloc();
    let empty = summed(header_of(BNO.magic, 1, 0, 0, [NONE, NONE]));
    let first = device_of(alloc, [empty, empty, empty])?;
    let second = device_of(alloc, [empty, empty, empty])?;
    same(&rt, found(alloc, first, 1, 1, 2), Ok(None));
    same(&rt, next(alloc, second, 1, None), Ok((0, None, None)));
    Ok(())
}

#[test]
fn a_root_that_no_tree_has_is_told(rt: HostRuntime) -> Result<(), Fail> {
    let alloc = rt.alloc();
    for root in [0, 4096] {
        let answer = found(alloc, two_leaves(alloc)?, root, 2, 4);
        same(&rt, answer, Err(bad(root, BlockFault::Range)));
    }
    for levels in [0, 1, 3, 10] {
        let answer = found(alloc, two_leaves(alloc)?, 1, levels, 4);
        same(&rt, answer, Err(bad(1, BlockFault::Level)));
        let answer = next(alloc, two_leaves(alloc)?, levels, None);
        same(&rt, answer, Err(bad(1, BlockFault::Level)));
    }
    // A block of zeros has no magic.
    let answer = found(alloc, two_leaves(alloc)?, 2, 10, 4);
    same(&rt, answer, Err(bad(2, BlockFault::Magic)));
    Ok(())
}

#[test]
fn the_last_record_is_that_of_the_last_leaf(rt: HostRuntime) -> Result<(), Fail> {
    let alloc = rt.alloc();
    let whole = last_of(alloc, two_leaves(alloc)?, 1, 2);
    same(&rt, whole, Ok(Some(free(1502))));
    let wrong = last_of(alloc, one_wrong_leaf(alloc)?, 1, 2);
    same(&rt, wrong, Err(bad(41, BlockFault::Place)));
    let leaf = last_of(alloc, two_leaves(alloc)?, 0, 2);
    same(&rt, leaf, Err(bad(0, BlockFault::Range)));
    let empty = summed(header_of(BNO.magic, 1, 0, 0, [NONE, NONE]));
    let none = last_of(alloc, device_of(alloc, [empty, empty, empty])?, 1, 1);
    same(&rt, none, Ok(None));
    Ok(())
}
