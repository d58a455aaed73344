ghost use Rattle.std.specs.Prelude.{◌≡◌, ◌+◌, ◌≤◌, [], ◌∷◌, ◌++◌, IfOk, OnOk};
ghost use Rattle.unit_plan.specs.Sets.{LieBelow, pieces_of};

use super::same::same;
use fs_model::{Claim, Unit};
use rmap_recs::RmapRec;
use run_sets::Run;
use sblock::Kind;
use span_recs::SpanRec;
use std::alloc::Global;
use std::process::Abort;
use std::test::Fail;
use unit_plan::{ClaimSet, Memory, Piece};

// The owner of the space btrees, and that of the btree of reference counts.
const AG: u64 = 0xffff_ffff_ffff_fffb;

const REFC: u64 = 0xffff_ffff_ffff_fff8;

// Adds a claim on blocks of a group of 32.
fn claim(set: &mut ClaimSet, claim: Claim, start: u32, count: u32) -> Result<(), Memory>
    requires below { LieBelow 32 (pieces_of set.old) }
    requires within { start + count ≤ 32 }
    ensures below { OnOk result (LieBelow 32 (pieces_of set.new)) }
{
    set.put(Piece {
        claim,
        run: Run { start, count },
        owner: AG,
        word: 0,
    })
}

// Heads, three btrees, and a free list.
fn claims(alloc: Global) -> Result<ClaimSet, Memory>
    ensures below { IfOk result (λ set. LieBelow 32 (pieces_of set)) }
{
    let mut set = ClaimSet::new(alloc);
    claim(&mut set, Claim::List, 7, 12)?;
    claim(&mut set, Claim::Tree(Kind::Rmap), 5, 1)?;
    claim(&mut set, Claim::Tree(Kind::Bno), 1, 1)?;
    claim(&mut set, Claim::Tree(Kind::Cnt), 2, 1)?;
    claim(&mut set, Claim::Heads, 0, 1)?;
    Ok(set)
}

// The same with inode btrees of two blocks each.
fn claims_with_inodes(alloc: Global) -> Result<ClaimSet, Memory>
    ensures below { IfOk result (λ set. LieBelow 32 (pieces_of set)) }
{
    let mut set = claims(alloc)?;
    claim(&mut set, Claim::Tree(Kind::Ino), 20, 1)?;
    claim(&mut set, Claim::Tree(Kind::Fino), 4, 1)?;
    claim(&mut set, Claim::Tree(Kind::Ino), 22, 1)?;
    claim(&mut set, Claim::Tree(Kind::Fino), 21, 1)?;
    Ok(set)
}

fn run(start: u32, count: u32) -> Run {
    Run { start, count }
}

// Ends the test where other blocks are lost of the inode btrees that could be read.
fn expect_lost(
    rt: &impl Abort,
    alloc: Global,
    set: &ClaimSet,
    readable: (bool, bool),
    wanted: &[Run],
)
    requires below { LieBelow 32 (pieces_of set.now) }
{
    match set.lost_trees(alloc, 32, readable.0, readable.1) {
        Ok(lost) => same(rt, lost.as_slice(), wanted),
        Err(_) => panic!(rt; "no memory"),
    }
}

#[test]
fn what_nobody_lists_is_lost(rt: HostRuntime) -> Result<(), Fail> {
    let alloc = rt.alloc();
    let set = claims(alloc)?;
    let free = [
        SpanRec {
            start: 19,
            count: 5,
        },
        SpanRec {
            start: 28,
            count: 4,
        },
    ];
    let lost = set.lost_unlisted(alloc, 32, &free)?;
    same(&rt, lost.as_slice(), [run(3, 4), run(24, 4)].as_slice());
    Ok(())
}

#[test]
fn what_nobody_claims_of_an_owner_is_lost(rt: HostRuntime) -> Result<(), Fail> {
    let alloc = rt.alloc();
    let set = claims(alloc)?;
    let owned = [
        RmapRec {
            start: 1,
            count: 18,
            owner: AG,
            word: 0,
        },
        RmapRec {
            start: 24,
            count: 2,
            owner: REFC,
            word: 0,
        },
    ];
    let space = set.lost_unclaimed(alloc, Unit::Free, 32, AG, &owned)?;
    same(&rt, space.as_slice(), [run(1, 4), run(6, 1)].as_slice());
    let counts = set.lost_unclaimed(alloc, Unit::Refc, 32, REFC, &owned)?;
    same(&rt, counts.as_slice(), [run(24, 2)].as_slice());
    Ok(())
}

#[test]
fn the_old_inode_btrees_that_could_be_read_are_lost(rt: HostRuntime) -> Result<(), Fail> {
    let alloc = rt.alloc();
    let set = claims_with_inodes(alloc)?;
    expect_lost(&rt, alloc, &set, (true, true), &[run(4, 1), run(20, 3)]);
    expect_lost(&rt, alloc, &set, (true, false), &[run(20, 1), run(22, 1)]);
    expect_lost(&rt, alloc, &set, (false, true), &[run(4, 1), run(21, 1)]);
    expect_lost(&rt, alloc, &set, (false, false), &[]);
    Ok(())
}
