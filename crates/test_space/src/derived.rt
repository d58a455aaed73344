//! What the reverse mappings give: free space by start and by count, reference counts.
ghost use Rattle.std.specs.Prelude.{◌≡◌};

use super::same::same;
use derive_defs::{
    by_count, free_blocks, free_of, longest, mappings_fit, only_by_count, only_free, only_shared,
    shared_of,
};
use rmap_recs::RmapRec;
use span_recs::{RefcRec, SpanRec};
use std::test::Fail;

const OWN_AG: u64 = 0xffff_ffff_ffff_fffb;

const ATTRIBUTE: u64 = 0x8000_0000_0000_0000;

const FORK_TREE: u64 = 0x4000_0000_0000_0000;

const UNWRITTEN: u64 = 0x2000_0000_0000_0000;

fn mapping(start: u32, count: u32, owner: u64, word: u64) -> RmapRec
    ensures begins { result.start ≡ start }
    ensures counts { result.count ≡ count }
{
    RmapRec {
        start,
        count,
        owner,
        word,
    }
}

fn span(start: u32, count: u32) -> SpanRec {
    SpanRec { start, count }
}

fn one_block(start: u32, refcount: u32) -> RefcRec {
    RefcRec {
        start,
        count: 1,
        refcount,
    }
}

#[test]
fn free_space_is_what_the_mappings_leave(rt: HostRuntime) -> Result<(), Fail> {
    let mappings = [
        mapping(0, 1, OWN_AG, 0),
        mapping(3, 4, 195, 0),
        mapping(4, 2, 196, 0),
        mapping(7, 1, OWN_AG, 0),
    ];
    let free = free_of(rt.alloc(), 12, &mappings)?;
    same(&rt, free.as_slice(), [span(1, 2), span(8, 4)].as_slice());
    same(&rt, free_blocks(free.as_slice()), 6);
    Ok(())
}

#[test]
fn equal_counts_are_ordered_by_start(rt: HostRuntime) -> Result<(), Fail> {
    let free = [
        SpanRec { start: 1, count: 3 },
        SpanRec { start: 6, count: 2 },
        SpanRec { start: 9, count: 3 },
        SpanRec {
            start: 14,
            count: 1,
        },
    ];
    let sorted = by_count(rt.alloc(), &free)?;
    same(
        &rt,
        sorted.as_slice(),
        [span(14, 1), span(6, 2), span(1, 3), span(9, 3)].as_slice(),
    );
    same(&rt, longest(sorted.as_slice()), 3);
    same(&rt, longest(&[]), 0);
    Ok(())
}

#[test]
fn written_data_blocks_of_several_files_are_shared(rt: HostRuntime) -> Result<(), Fail> {
    let mappings = [
        mapping(40, 4, 195, 0),
        mapping(40, 4, 195, FORK_TREE),
        mapping(40, 4, 199, ATTRIBUTE),
        mapping(42, 4, 196, 7),
        mapping(42, 4, 200, UNWRITTEN),
        mapping(43, 1, 197, 0),
        mapping(43, 1, OWN_AG, 0),
    ];
    let shared = shared_of(rt.alloc(), &mappings)?;
    same(
        &rt,
        shared.as_slice(),
        [one_block(42, 2), one_block(43, 3)].as_slice(),
    );
    Ok(())
}

#[test]
fn the_laws_hold() {
    mappings_fit();
    only_by_count();
    only_free();
    only_shared();
}
