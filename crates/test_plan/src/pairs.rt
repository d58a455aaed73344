use super::same::same;
use crate::pieces::{overlap, piece, unwritten};
use fs_model::{Claim, Evidence};
use sblock::Kind;
use std::alloc::Global;
use std::process::Abort;
use std::test::Fail;
use unit_plan::{Among, ClaimSet, Memory, Piece};

// A claim of each sort, in the order in which two on one block are shown.
const SORTS: [Claim; 17] = [
    Claim::Heads,
    Claim::Log,
    Claim::List,
    Claim::Tree(Kind::Bno),
    Claim::Tree(Kind::Cnt),
    Claim::Tree(Kind::Rmap),
    Claim::Tree(Kind::Refc),
    Claim::Tree(Kind::Ino),
    Claim::Tree(Kind::Fino),
    Claim::Reserve,
    Claim::Limbo,
    Claim::Chunk,
    Claim::Data(5),
    Claim::Data(6),
    Claim::Attr(5),
    Claim::ForkTree(5),
    Claim::Staging,
];

fn is_data(claim: Claim) -> bool {
    matches!(claim, Claim::Data(_))
}

// The first overlap of the first claim on the first run and of the second one on the second.
fn overlap_of(alloc: Global, first: Piece, second: Piece) -> Result<Option<Evidence>, Memory> {
    let mut set = ClaimSet::new(alloc);
    set.put(second)?;
    set.put(first)?;
    Ok(set.first_overlap(Among::All))
}

fn wanted(block: u32, first: Claim, second: Claim) -> Option<Evidence> {
    if is_data(first) && is_data(second) {
        return None;
    }
    overlap(block, first, second)
}

// Two runs, and the block where claims on them overlap first.
type Crossing = ((u32, u32), (u32, u32), u32);

fn expect_crossing(rt: &impl Abort, alloc: Global, sorts: (Claim, Claim), crossing: Crossing) {
    let (first, second) = sorts;
    let (run, other, block) = crossing;
    let found = overlap_of(
        alloc,
        piece(first, run.0, run.1),
        piece(second, other.0, other.1),
    );
    same(rt, found, Ok(wanted(block, first, second)));
}

// Each pair of sorts, the first on the first run and the second on the second.
fn expect_crossings(rt: &impl Abort, alloc: Global, crossings: [Crossing; 2]) {
    for i in 0..17usize {
        for j in i..17usize {
            expect_crossing(rt, alloc, (SORTS[i], SORTS[j]), crossings[0]);
            expect_crossing(rt, alloc, (SORTS[i], SORTS[j]), crossings[1]);
        }
    }
}

#[test]
fn each_pair_of_sorts_crosses(rt: HostRuntime) {
    expect_crossings(
        &rt,
        rt.alloc(),
        [((8, 3), (10, 4), 10), ((10, 4), (8, 3), 10)],
    );
}

#[test]
fn each_pair_of_sorts_nests_or_is_the_same(rt: HostRuntime) {
    expect_crossings(
        &rt,
        rt.alloc(),
        [((8, 9), (11, 2), 11), ((9, 2), (9, 2), 9)],
    );
}

#[test]
fn each_pair_of_sorts_touches(rt: HostRuntime) {
    let alloc = rt.alloc();
    for first in SORTS {
        for second in SORTS {
            let found = overlap_of(alloc, piece(first, 8, 3), piece(second, 11, 1));
            same(&rt, found, Ok(None));
        }
    }
}

#[test]
fn written_data_of_three_files_is_shared(rt: HostRuntime) -> Result<(), Fail> {
    let alloc = rt.alloc();
    let mut set = ClaimSet::new(alloc);
    for ino in [7, 5, 9] {
        set.put(piece(Claim::Data(ino), 40, 3))?;
    }
    same(&rt, set.first_overlap(Among::All), None);
    set.put(unwritten(8, 42, 1))?;
    let wanted = overlap(42, Claim::Data(5), Claim::Data(7));
    same(&rt, set.first_overlap(Among::All), wanted);
    Ok(())
}
