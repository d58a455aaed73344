// The maximal runs of all owners, whose pieces are handed in in no order.
use super::same::same;
use fs_model::Claim;
use rmap_recs::RmapRec;
use run_sets::Run;
use sblock::Kind;
use std::alloc::{AllocError, Global};
use std::process::Abort;
use std::test::Fail;
use unit_plan::{ClaimSet, Memory, OwnerRuns, Piece};

// The flags of an offset word: unwritten, block of a fork's btree, attribute fork.
const UNWRITTEN: u64 = 1 << 61;

const TREE: u64 = 1 << 62;

const ATTR: u64 = 1 << 63;

// The owners of the space btrees, and of the btree of reference counts.
const AG: u64 = 0xffff_ffff_ffff_fffb;

const REFC: u64 = 0xffff_ffff_ffff_fff8;

const fn rec(start: u32, count: u32, owner: u64, word: u64) -> RmapRec {
    RmapRec {
        start,
        count,
        owner,
        word,
    }
}

// A claim, its first block and its length, its owner and its offset word.
type Row = (Claim, u32, u32, u64, u64);

fn set_of(alloc: Global, pieces: &[Row]) -> Result<ClaimSet, Memory> {
    let mut set = ClaimSet::new(alloc);
    for (claim, start, count, owner, word) in pieces {
        set.put(Piece {
            claim: *claim,
            run: Run {
                start: *start,
                count: *count,
            },
            owner: *owner,
            word: *word,
        })?;
    }
    Ok(set)
}

fn listed(alloc: Global, runs: &OwnerRuns) -> Result<Vec<RmapRec>, AllocError> {
    let mut list = Vec::new(alloc);
    for i in 0..runs.len() {
        list.push(runs.run(i))?;
    }
    Ok(list)
}

// The runs of these pieces, one by one.
fn runs_one_by_one(alloc: Global, pieces: &[Row]) -> Result<Vec<RmapRec>, Memory> {
    let runs = set_of(alloc, pieces)?.into_runs();
    Ok(listed(alloc, &runs)?)
}

fn runs_as_list(alloc: Global, pieces: &[Row]) -> Result<Vec<RmapRec>, Memory> {
    set_of(alloc, pieces)?.into_mappings(alloc)
}

// Ends the test where the pieces have other runs.
fn expect_runs(rt: &impl Abort, alloc: Global, pieces: &[Row], wanted: &[RmapRec]) {
    let runs = runs_one_by_one(alloc, pieces).expect(rt, "memory is there");
    same(rt, runs.as_slice(), wanted);
    let runs = runs_as_list(alloc, pieces).expect(rt, "memory is there");
    same(rt, runs.as_slice(), wanted);
}

#[test]
fn pieces_of_one_owner_join_and_of_two_do_not(rt: HostRuntime) {
    let pieces = [
        (Claim::Tree(Kind::Refc), 4, 1, REFC, 0),
        (Claim::List, 6, 12, AG, 0),
        (Claim::Tree(Kind::Cnt), 2, 1, AG, 0),
        (Claim::Tree(Kind::Rmap), 5, 1, AG, 0),
        (Claim::Tree(Kind::Bno), 1, 1, AG, 0),
        (Claim::Tree(Kind::Rmap), 3, 1, AG, 0),
    ];
    let wanted = [rec(1, 3, AG, 0), rec(4, 1, REFC, 0), rec(5, 13, AG, 0)];
    expect_runs(&rt, rt.alloc(), &pieces, &wanted);
}

#[test]
fn file_data_joins_where_its_offsets_go_on(rt: HostRuntime) {
    // Blocks 40 to 45 hold offsets 8 to 13, block 46 offset 20; another file shares 42 and 43.
    let pieces = [
        (Claim::Data(133), 46, 1, 133, 20),
        (Claim::Data(133), 44, 2, 133, 12),
        (Claim::Data(134), 42, 2, 134, 0),
        (Claim::Data(133), 40, 3, 133, 8),
        (Claim::Data(133), 43, 1, 133, 11),
    ];
    let wanted = [rec(40, 6, 133, 8), rec(42, 2, 134, 0), rec(46, 1, 133, 20)];
    expect_runs(&rt, rt.alloc(), &pieces, &wanted);
}

#[test]
fn flags_keep_pieces_apart(rt: HostRuntime) {
    // Written beside unwritten, data beside attributes, and blocks of both forks' btrees.
    let pieces = [
        (Claim::ForkTree(133), 61, 1, 133, TREE),
        (Claim::ForkTree(133), 62, 1, 133, ATTR + TREE),
        (Claim::Attr(133), 54, 2, 133, ATTR + 4),
        (Claim::Data(133), 52, 2, 133, UNWRITTEN + 2),
        (Claim::ForkTree(133), 60, 1, 133, TREE),
        (Claim::Data(133), 50, 2, 133, 0),
        (Claim::Attr(133), 56, 1, 133, ATTR + 6),
    ];
    let wanted = [
        rec(50, 2, 133, 0),
        rec(52, 2, 133, UNWRITTEN + 2),
        rec(54, 3, 133, ATTR + 4),
        rec(60, 2, 133, TREE),
        rec(62, 1, 133, ATTR + TREE),
    ];
    expect_runs(&rt, rt.alloc(), &pieces, &wanted);
}

#[test]
fn a_long_file_is_one_run_and_nothing_is_none(rt: HostRuntime) -> Result<(), Fail> {
    let alloc = rt.alloc();
    let mut set = ClaimSet::new(alloc);
    for i in 0..1000u32 {
        let place = 999u32.wrapping_sub(i).wrapping_mul(1000);
        set.put(Piece {
            claim: Claim::Data(5),
            run: Run {
                start: place,
                count: 1000,
            },
            owner: 5,
            word: u64::from(place).wrapping_add(77),
        })?;
    }
    let runs = set.into_mappings(alloc)?;
    same(&rt, runs.as_slice(), [rec(0, 1_000_000, 5, 77)].as_slice());
    same(&rt, ClaimSet::new(alloc).into_runs().len(), 0);
    Ok(())
}
