// Searches for the records that have a block of a run.
ghost use Rattle.std.specs.Prelude.{◌≡◌};

use super::same::same;
use crate::build::{BNO, NONE, REFC, RMAP, header_of};
use crate::read::tree_at;
use crate::small::{device_of, one_group, summed, with_word, with_words};
use blk_cache::BlkCache;
use blk_device::{Device, MemDevice, Region};
use byte_fields::{Block, Steps};
use rmap_recs::{Key, RmapKind, RmapRec};
use run_sets::Run;
use sblock::BlockFault;
use span_recs::{BnoKind, RefcKind, SpanRec};
use std::alloc::{AllocError, Global};
use std::marker::Brand;
use std::process::Abort;
use std::sync::ledger::{Blank, Ledger};
use std::test::Fail;
use tree_cover::Covers;
use tree_walk::{TreeAt, WalkFault, covering};

// The three blocks of a tree, and where its root is said to be.
#[derive(Clone, Copy)]
struct Tree {
    pub root: u32,
    pub top: Block,
    pub low: Block,
    pub high: Block,
}

// The run of these blocks.
fn within(start: u32, count: u32) -> Run {
    Run { start, count }
}

// The block with another place in its header.
fn moved(block: Block) -> Block {
    summed(with_word(block, 20, 8))
}

// Record `n` of the tree of reverse mappings: two begin at each 40th block from block 10 on and
// have 35 blocks, but each 16th has 700. Record n is that of inode 128 + n.
fn mapping(n: u16) -> RmapRec {
    let count = if n % 16 == 0 { 700 } else { 35 };
    RmapRec {
        start: 10 + 40 * (u32::from(n) / 2),
        count,
        owner: 128 + u64::from(n),
        word: 0,
    }
}

// The first or the second leaf of reverse mappings, with 84 of them.
fn rmap_leaf(at: u32, leaf: u8) -> Block {
    let (left, right) = if leaf == 0 { (NONE, 41) } else { (40, NONE) };
    let mut block = header_of(RMAP.magic, at, 0, 84, [left, right]);
    for i in 0..84u16 {
        let n = 84 * u16::from(leaf) + i;
        let rec = mapping(n);
        let words = [rec.start, rec.count, 0, 128 + u32::from(n), 0, 0];
        block = with_words(block, 56 + 24 * i, &words);
    }
    summed(block)
}

// Two leaves of reverse mappings. The greatest high key of the first is that of record 80, which
// ends with block 2309, and of the second that of record 160, which ends with block 3909.
fn rmap_tree() -> Tree {
    let mut top = header_of(RMAP.magic, 1, 1, 2, [NONE, NONE]);
    top = with_words(top, 56, &[10, 0, 128, 0, 0, 2309, 0, 208, 0, 699]);
    top = with_words(top, 96, &[1690, 0, 212, 0, 0, 3909, 0, 288, 0, 699]);
    top = with_words(top, 56 + 91 * 40, &[40, 41]);
    Tree {
        root: 1,
        top: summed(top),
        low: rmap_leaf(40, 0),
        high: rmap_leaf(41, 1),
    }
}

// A leaf of free space: 252 runs of three blocks, with two used ones between.
fn bno_leaf(at: u32, first: u32, left: u32, right: u32) -> Block {
    let mut block = header_of(BNO.magic, at, 0, 252, [left, right]);
    for i in 0..252u16 {
        let start = first % 4096 + 5 * u32::from(i);
        block = with_words(block, 56 + 8 * i, &[start, 3]);
    }
    summed(block)
}

// Two leaves of free space, from block 2 on and from block 2000 on.
fn bno_tree() -> Tree {
    let mut top = header_of(BNO.magic, 1, 1, 2, [NONE, NONE]);
    top = with_words(top, 56, &[2, 3, 2000, 3]);
    top = with_words(top, 56 + 336 * 8, &[40, 41]);
    Tree {
        root: 1,
        top: summed(top),
        low: bno_leaf(40, 2, NONE, 41),
        high: bno_leaf(41, 2000, 40, NONE),
    }
}

// A root leaf of reference counts, whose second record is one of copy-on-write staging.
fn staging_leaf() -> Block {
    let block = header_of(REFC.magic, 1, 0, 2, [NONE, NONE]);
    summed(with_words(block, 56, &[5, 2, 2, 0x8000_0005, 2, 1]))
}

// What the search of the tree finds.
fn searched<K: Covers, L: Ledger>(
    alloc: Global,
    mut device: MemDevice,
    tree: &TreeAt,
    run: Run,
    after: Option<K::Key>,
    blank: Blank,
) -> Result<Option<K::Rec>, WalkFault>
    requires kind { tree.now.kind ≡ K.form.kind }
    requires group { tree.now.group ≡ 0 }
    requires name { blank.name ≡ L.name }
    requires parts { blank.parts ≡ L.parts }
    requires three { blank.parts ≡ 3 }
{
    let geo = one_group();
    if device.size(Region::Image) < 4096 {
        return Err(WalkFault::Failed);
    }
    let Ok(mut cache) = BlkCache::new(alloc, 8) else {
        return Err(WalkFault::Memory);
    };
    let mut steps = Steps::<L>::new(blank);
    covering::<K, MemDevice, L>(&mut device, &mut cache, &geo, tree, run, after, &mut steps)
}

// The same, for a caller that counts no steps.
fn found<K: Covers>(
    alloc: Global,
    tree: &Tree,
    levels: u32,
    run: Run,
    after: Option<K::Key>,
) -> Result<Result<Option<K::Rec>, WalkFault>, AllocError> {
    let device = device_of(alloc, [tree.top, tree.low, tree.high])?;
    let at = tree_at(K::kind(), tree.root, levels);
    let blank = Blank::new(3);
    Ok(searched::<K, Brand>(alloc, device, &at, run, after, blank))
}

const fn bad(block: u32, fault: BlockFault) -> WalkFault {
    WalkFault::Bad { block, fault }
}

// All records of the tree of reverse mappings, in their order.
fn mappings(alloc: Global) -> Result<Vec<RmapRec>, AllocError> {
    let mut recs = Vec::new(alloc);
    for n in 0..168u16 {
        recs.push(mapping(n))?;
    }
    Ok(recs)
}

// The first of these that has a block of the run, of those with greater owners: they rise with
// the records.
fn scanned(recs: &[RmapRec], run: Run, owner: u64) -> Option<RmapRec> {
    for rec in recs {
        let begins = u64::from(rec.start) < u64::from(run.start) + u64::from(run.count);
        let ends = u64::from(rec.start) + u64::from(rec.count) > u64::from(run.start);
        if rec.owner > owner && begins && ends {
            return Some(*rec);
        }
    }
    None
}

// Expects what a scan finds, from each record that is found to the next.
fn expect_walk(
    rt: &impl Abort,
    alloc: Global,
    recs: &[RmapRec],
    run: Run,
) -> Result<(), AllocError> {
    let tree = rmap_tree();
    let mut after = None;
    let mut owner = 0;
    for _ in 0..169u16 {
        let rec = found::<RmapKind>(alloc, &tree, 2, run, after)?;
        let expected = scanned(recs, run, owner);
        same(rt, rec, Ok(expected));
        let Some(rec) = expected else {
            return Ok(());
        };
        owner = rec.owner;
        after = Some(Key {
            start: rec.start,
            owner: rec.owner,
            word: rec.word,
        });
    }
    Ok(())
}

#[test]
fn overlapping_records_are_found_as_by_a_scan(rt: HostRuntime) -> Result<(), Fail> {
    let alloc = rt.alloc();
    let recs = mappings(alloc)?;
    // In front of all, the first block, the last one of a record and the one behind it, where the
    // first leaf's wide record ends, both leaves, the last block, and behind all.
    let rows = [
        (1, 9),
        (10, 1),
        (44, 1),
        (45, 4),
        (1684, 6),
        (2309, 1),
        (2310, 1),
        (1600, 200),
        (3909, 1),
        (3910, 100),
        (1, 4095),
    ];
    for (start, count) in &rows {
        let run = within(*start, *count);
        expect_walk(&rt, alloc, recs.as_slice(), run)?;
    }
    Ok(())
}

#[test]
fn a_fault_is_told_where_the_way_goes_through_it(rt: HostRuntime) -> Result<(), Fail> {
    let alloc = rt.alloc();
    let sound = rmap_tree();
    let tree = Tree {
        low: moved(rmap_leaf(40, 0)),
        ..sound
    };
    let first = found::<RmapKind>(alloc, &tree, 2, within(10, 1), None)?;
    same(&rt, first, Err(bad(40, BlockFault::Place)));
    let last = found::<RmapKind>(alloc, &tree, 2, within(2309, 1), None)?;
    same(&rt, last, Err(bad(40, BlockFault::Place)));
    let behind = found::<RmapKind>(alloc, &tree, 2, within(2310, 1), None)?;
    same(&rt, behind, Ok(Some(mapping(96))));
    let none = found::<RmapKind>(alloc, &tree, 2, within(1, 9), None)?;
    same(&rt, none, Ok(None));
    Ok(())
}

#[test]
fn free_space_is_found_by_its_blocks(rt: HostRuntime) -> Result<(), Fail> {
    let alloc = rt.alloc();
    let tree = bno_tree();
    // In front of all, in the first record, between two, over two; the last record of the first
    // leaf, behind it, and up to the first one of the second leaf; behind all.
    let rows = [
        (0, 2, None),
        (4, 1, Some(2)),
        (5, 2, None),
        (4, 4, Some(2)),
        (6, 2, Some(7)),
        (1259, 9, Some(1257)),
        (1260, 740, None),
        (1260, 741, Some(2000)),
        (3258, 838, None),
    ];
    for (start, count, expected) in &rows {
        let rec = found::<BnoKind>(alloc, &tree, 2, within(*start, *count), None)?;
        same(
            &rt,
            rec,
            Ok(expected.map(|start| SpanRec { start, count: 3 })),
        );
    }
    let after = SpanRec { start: 2, count: 3 };
    let next = found::<BnoKind>(alloc, &tree, 2, within(4, 4), Some(after))?;
    same(&rt, next, Ok(Some(SpanRec { start: 7, count: 3 })));
    Ok(())
}

#[test]
fn roots_and_levels_that_no_tree_has_are_faults(rt: HostRuntime) -> Result<(), Fail> {
    let alloc = rt.alloc();
    let tree = bno_tree();
    for root in [0, 4096] {
        let tree = Tree { root, ..tree };
        let rec = found::<BnoKind>(alloc, &tree, 2, within(4, 1), None)?;
        same(&rt, rec, Err(bad(root, BlockFault::Range)));
    }
    for levels in [0, 1, 3, 10] {
        let rec = found::<BnoKind>(alloc, &tree, levels, within(4, 1), None)?;
        same(&rt, rec, Err(bad(1, BlockFault::Level)));
    }
    Ok(())
}

#[test]
fn staging_records_are_told_as_later(rt: HostRuntime) -> Result<(), Fail> {
    let sound = bno_tree();
    let tree = Tree {
        top: staging_leaf(),
        ..sound
    };
    let rec = found::<RefcKind>(rt.alloc(), &tree, 1, within(5, 1), None)?;
    same(&rt, rec.err(), Some(bad(1, BlockFault::Later)));
    Ok(())
}
