use super::same::same;
use crate::pieces::piece;
use fs_model::{Claim, Trust, Unit};
use rmap_recs::RmapRec;
use sblock::Kind;
use span_recs::SpanRec;
use std::alloc::Global;
use std::test::Fail;
use unit_plan::{ClaimSet, Memory, SpaceTrust};

// The owner of heads, that of the space btrees and the list, and that of chunks.
const FS: u64 = 0xffff_ffff_ffff_fffd;

const AG: u64 = 0xffff_ffff_ffff_fffb;

const INODES: u64 = 0xffff_ffff_ffff_fff9;

// The free space of a new group of 256 blocks, and its reverse mappings.
const FREE: [SpanRec; 2] = [
    SpanRec {
        start: 19,
        count: 5,
    },
    SpanRec {
        start: 32,
        count: 224,
    },
];

const OWNED: [RmapRec; 4] = [
    RmapRec {
        start: 0,
        count: 1,
        owner: FS,
        word: 0,
    },
    RmapRec {
        start: 1,
        count: 18,
        owner: AG,
        word: 0,
    },
    RmapRec {
        start: 19,
        count: 2,
        owner: 195,
        word: 0,
    },
    RmapRec {
        start: 24,
        count: 8,
        owner: INODES,
        word: 0,
    },
];

// Heads, trees, list and chunk of such a group, a file at blocks 19 and 20, and a block of limbo
// that free space lists.
fn claims(alloc: Global) -> Result<ClaimSet, Memory> {
    let mut set = ClaimSet::new(alloc);
    set.put(piece(Claim::Limbo, 21, 1))?;
    set.put(piece(Claim::Chunk, 24, 8))?;
    set.put(piece(Claim::List, 7, 12))?;
    set.put(piece(Claim::Data(195), 19, 2))?;
    set.put(piece(Claim::Tree(Kind::Bno), 1, 1))?;
    set.put(piece(Claim::Tree(Kind::Rmap), 5, 1))?;
    set.put(piece(Claim::Heads, 0, 1))?;
    set.put(piece(Claim::Attr(195), 22, 1))?;
    Ok(set)
}

fn trust(bno: bool, cnt: bool, rmap: bool) -> SpaceTrust {
    SpaceTrust {
        bno: if bno { Trust::Sick } else { Trust::Unknown },
        cnt: if cnt { Trust::Sick } else { Trust::Good },
        rmap: if rmap { Trust::Sick } else { Trust::Good },
    }
}

// The lowest spare block for each unit, with these btrees sick.
fn spares(alloc: Global, sick: SpaceTrust) -> Result<[Option<u32>; 4], Memory> {
    let mut set = claims(alloc)?;
    Ok([
        set.lowest_spare(Unit::Inode, sick, &FREE, &OWNED),
        set.lowest_spare(Unit::Rmap, sick, &FREE, &OWNED),
        set.lowest_spare(Unit::Free, sick, &FREE, &OWNED),
        set.lowest_spare(Unit::Refc, sick, &FREE, &OWNED),
    ])
}

#[test]
fn each_unit_has_its_spare_block(rt: HostRuntime) {
    let alloc = rt.alloc();
    let rows = [
        (
            trust(false, false, false),
            [Some(22), Some(23), Some(19), Some(22)],
        ),
        (trust(true, false, false), [None, None, Some(19), None]),
        (trust(false, true, false), [None, Some(23), Some(19), None]),
        (trust(false, false, true), [None, Some(23), None, None]),
    ];
    for (sick, wanted) in rows {
        same(&rt, spares(alloc, sick), Ok(wanted));
    }
}

#[test]
fn a_claim_that_covers_all_leaves_none(rt: HostRuntime) -> Result<(), Fail> {
    let alloc = rt.alloc();
    let good = trust(false, false, false);
    let mut set = claims(alloc)?;
    set.put(piece(Claim::Limbo, 19, 4_000_000_000))?;
    same(&rt, set.lowest_spare(Unit::Rmap, good, &FREE, &OWNED), None);
    same(&rt, set.lowest_spare(Unit::Free, good, &[], &[]), None);
    same(
        &rt,
        set.lowest_spare(Unit::Free, good, &FREE, &[]),
        Some(19),
    );
    Ok(())
}
