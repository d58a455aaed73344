use super::same::same;
use crate::pieces::{overlap, piece, unwritten};
use fs_model::{Claim, Evidence};
use std::alloc::{AllocError, Global};
use unit_plan::{Among, ClaimSet, Memory, Piece};

// The next of a row of numbers that look random.
fn next(number: u32) -> u32 {
    number.wrapping_mul(1_664_525).wrapping_add(1_013_904_223)
}

// A piece of up to 3 blocks below 64, by a number.
fn piece_of(number: u32) -> Piece {
    let start = (number >> 8) % 61;
    let count = (number >> 16) % 4;
    let ino = u64::from((number >> 20) % 4);
    match (number >> 24) % 8 {
        0 => piece(Claim::Limbo, start, count),
        1 => unwritten(ino, start, count),
        2 => piece(Claim::Attr(ino), start, count),
        _ => piece(Claim::Data(ino), start, count),
    }
}

// The place of a claim among these sorts, and its inode.
fn place_of(claim: Claim) -> u64 {
    match claim {
        Claim::Data(ino) => 100u64.saturating_add(ino),
        Claim::Attr(ino) => 200u64.saturating_add(ino),
        _ => 0,
    }
}

fn claim_at(place: u64) -> Claim {
    match place / 100 {
        0 => Claim::Limbo,
        1 => Claim::Data(place % 100),
        _ => Claim::Attr(place % 100),
    }
}

// What is known of one block: how many claims are on it, whether one stands beside no other, and
// the places of the first two.
#[derive(Clone, Copy, Drop)]
struct OnBlock {
    claims: u32,
    hard: bool,
    first: u64,
    second: u64,
}

fn with_claim(on: OnBlock, found: &Piece) -> OnBlock {
    let place = place_of(found.claim);
    let hard = on.hard || found.word > 0 || !matches!(found.claim, Claim::Data(_));
    OnBlock {
        claims: on.claims.saturating_add(1),
        hard,
        first: on.first.min(place),
        second: on.second.min(on.first.max(place)),
    }
}

fn has(found: &Piece, block: u32) -> bool {
    found.run.start <= block && block < found.run.start.saturating_add(found.run.count)
}

// The block's line of the table.
fn line(pieces: &[Piece], block: u32) -> OnBlock {
    let mut on = OnBlock {
        claims: 0,
        hard: false,
        first: 1000,
        second: 1000,
    };
    for found in pieces {
        if has(found, block) {
            on = with_claim(on, found);
        }
    }
    on
}

// The first block of the table that shows an overlap.
fn by_blocks(pieces: &[Piece]) -> Option<Evidence> {
    for block in 0..64 {
        let on = line(pieces, block);
        if on.claims > 1 && on.hard {
            return overlap(block, claim_at(on.first), claim_at(on.second));
        }
    }
    None
}

// So many pieces from a number on.
fn pieces_from(alloc: Global, seed: u32, many: u32) -> Result<Vec<Piece>, AllocError> {
    let mut pieces = Vec::new(alloc);
    let mut number = seed;
    for _ in 0..many {
        number = next(number);
        pieces.push(piece_of(number))?;
    }
    Ok(pieces)
}

fn by_set(alloc: Global, pieces: &[Piece]) -> Result<Option<Evidence>, Memory> {
    let mut set = ClaimSet::new(alloc);
    for found in pieces {
        set.put(*found)?;
    }
    Ok(set.first_overlap(Among::All))
}

#[test]
fn claims_at_random_are_as_the_table_of_blocks(rt: HostRuntime) {
    let alloc = rt.alloc();
    for seed in 0..400 {
        let pieces = pieces_from(alloc, seed, 2 + seed % 24).expect(&rt, "memory is there");
        let found = by_set(alloc, pieces.as_slice());
        same(&rt, (seed, found), (seed, Ok(by_blocks(pieces.as_slice()))));
    }
}
