use super::same::same;
use crate::pieces::{overlap, piece, unwritten};
use fs_model::{Claim, Evidence};
use sblock::Kind;
use std::alloc::{AllocError, Global};
use std::process::Abort;
use unit_plan::{Among, ClaimSet, Memory, Piece};

fn forwards(alloc: Global, pieces: &[Piece], among: Among) -> Result<Option<Evidence>, Memory> {
    let mut set = ClaimSet::new(alloc);
    for piece in pieces {
        set.put(*piece)?;
    }
    Ok(set.first_overlap(among))
}

fn backwards(alloc: Global, pieces: &[Piece], among: Among) -> Result<Option<Evidence>, Memory> {
    let mut set = ClaimSet::new(alloc);
    for piece in pieces.iter().rev() {
        set.put(*piece)?;
    }
    Ok(set.first_overlap(among))
}

fn pieces_of(alloc: Global, rows: &[(Claim, u32, u32)]) -> Result<Vec<Piece>, AllocError> {
    let mut pieces = Vec::new(alloc);
    for (claim, start, count) in rows {
        pieces.push(piece(*claim, *start, *count))?;
    }
    Ok(pieces)
}

// Ends the test where the first overlap is another one, in either order of the pieces.
fn expect_both(rt: &impl Abort, alloc: Global, pieces: &[Piece], wanted: Option<Evidence>) {
    same(rt, forwards(alloc, pieces, Among::All), Ok(wanted));
    same(rt, backwards(alloc, pieces, Among::All), Ok(wanted));
}

// The same for written pieces: their claims, their first blocks and their lengths.
fn expect_rows(
    rt: &impl Abort,
    alloc: Global,
    rows: &[(Claim, u32, u32)],
    wanted: Option<Evidence>,
) {
    match pieces_of(alloc, rows) {
        Ok(pieces) => expect_both(rt, alloc, pieces.as_slice(), wanted),
        Err(_) => panic!(rt; "no memory"),
    }
}

#[test]
fn claims_that_can_stand_together_are_no_overlap(rt: HostRuntime) {
    let alloc = rt.alloc();
    let touching = [
        (Claim::Chunk, 8, 8),
        (Claim::Heads, 0, 1),
        (Claim::List, 1, 7),
    ];
    let shared = [
        (Claim::Data(7), 30, 9),
        (Claim::Data(5), 28, 4),
        (Claim::Data(7), 31, 1),
    ];
    let empty = [(Claim::Log, 3, 0), (Claim::Heads, 0, 9)];
    expect_rows(&rt, alloc, &touching, None);
    expect_rows(&rt, alloc, &shared, None);
    expect_rows(&rt, alloc, &empty, None);
    expect_rows(&rt, alloc, &[], None);
}

// Two claims with their first blocks and lengths, the lowest block that both have, and the order in
// which they are shown.
const TWO_CLAIMS: [([(Claim, u32, u32); 2], u32, Claim, Claim); 5] = [
    (
        [(Claim::Chunk, 8, 8), (Claim::List, 10, 1)],
        10,
        Claim::List,
        Claim::Chunk,
    ),
    (
        [(Claim::Limbo, 7, 5), (Claim::Tree(Kind::Rmap), 5, 4)],
        7,
        Claim::Tree(Kind::Rmap),
        Claim::Limbo,
    ),
    (
        [
            (Claim::ForkTree(2), 4_294_967_294, 1),
            (Claim::ForkTree(1), 4_294_967_290, 5),
        ],
        4_294_967_294,
        Claim::ForkTree(1),
        Claim::ForkTree(2),
    ),
    (
        [
            (Claim::Data(1), 0, 268_435_456),
            (Claim::Limbo, 268_435_455, 1),
        ],
        268_435_455,
        Claim::Limbo,
        Claim::Data(1),
    ),
    (
        [
            (Claim::Tree(Kind::Fino), 70, 1),
            (Claim::Tree(Kind::Bno), 70, 1),
        ],
        70,
        Claim::Tree(Kind::Bno),
        Claim::Tree(Kind::Fino),
    ),
];

// Three claims of which two are shown: the first of the list is neither of them.
fn expect_among_three(rt: &impl Abort, alloc: Global) {
    let three = [
        (Claim::Attr(3), 40, 1),
        (Claim::Data(9), 38, 4),
        (Claim::Data(8), 40, 2),
    ];
    let several = [
        (Claim::Reserve, 50, 1),
        (Claim::Staging, 40, 20),
        (Claim::Limbo, 45, 1),
    ];
    let wanted = overlap(40, Claim::Data(8), Claim::Data(9));
    expect_rows(rt, alloc, &three, wanted);
    let wanted = overlap(45, Claim::Limbo, Claim::Staging);
    expect_rows(rt, alloc, &several, wanted);
}

// Data that isn't written, beside the same and beside written data.
fn expect_unwritten(rt: &impl Abort, alloc: Global) {
    let repeated = [unwritten(5, 20, 3), unwritten(5, 20, 3)];
    let wanted = overlap(20, Claim::Data(5), Claim::Data(5));
    expect_both(rt, alloc, &repeated, wanted);
    let unlike = [piece(Claim::Data(7), 30, 4), unwritten(5, 32, 1)];
    let wanted = overlap(32, Claim::Data(5), Claim::Data(7));
    expect_both(rt, alloc, &unlike, wanted);
}

#[test]
fn the_lowest_block_is_shown_with_its_first_two_claims(rt: HostRuntime) {
    let alloc = rt.alloc();
    for (rows, block, first, second) in TWO_CLAIMS {
        expect_rows(&rt, alloc, &rows, overlap(block, first, second));
    }
    expect_among_three(&rt, alloc);
    expect_unwritten(&rt, alloc);
}

#[test]
fn metadata_is_asked_without_the_forks(rt: HostRuntime) {
    let alloc = rt.alloc();
    let mixed = [
        piece(Claim::Data(1), 5, 9),
        piece(Claim::Chunk, 8, 8),
        piece(Claim::Attr(2), 15, 1),
    ];
    let wanted = overlap(8, Claim::Chunk, Claim::Data(1));
    same(&rt, forwards(alloc, &mixed, Among::All), Ok(wanted));
    same(&rt, forwards(alloc, &mixed, Among::Metadata), Ok(None));
    let metadata = [
        piece(Claim::Data(1), 5, 9),
        piece(Claim::Limbo, 8, 8),
        piece(Claim::Log, 15, 1),
    ];
    let wanted = overlap(15, Claim::Log, Claim::Limbo);
    same(
        &rt,
        backwards(alloc, &metadata, Among::Metadata),
        Ok(wanted),
    );
}
