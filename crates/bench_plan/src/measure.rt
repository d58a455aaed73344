// The time of a set of claims for each piece. No two pieces overlap and between them is no gap, so
// that each call goes along all of them.
use fs_model::{Claim, Trust, Unit};
use run_sets::Run;
use span_recs::SpanRec;
use std::alloc::Global;
use std::io;
use std::rt::Clock;
use std::time::Instant;
use unit_plan::{Among, ClaimSet, Memory, Piece, SpaceTrust};

// The blocks of a piece.
const BLOCKS: u32 = 8;

/// In which order pieces are put.
#[derive(Clone, Copy)]
pub(crate) enum Order {
    Scattered,
    Rising,
    Straying,
}

/// Nanoseconds for each piece.
#[derive(Clone, Copy, Drop)]
pub(crate) struct Times {
    pub(crate) put: u128,
    pub(crate) overlap: u128,
    pub(crate) spare: u128,
    pub(crate) runs: u128,
}

fn each_since<R: Clock>(rt: &R, start: &Instant, pieces: u32) -> io::Result<u128> {
    Ok(start.elapsed(rt)?.as_nanos() / u128::from(pieces.max(1)))
}

// The same where each 32nd place comes behind all others.
fn straying_place(i: u32, pieces: u32) -> u32 {
    let rising = pieces - pieces / 32;
    if i < rising {
        return (i / 31).wrapping_mul(32).wrapping_add(i % 31);
    }
    (i - rising).wrapping_mul(32).wrapping_add(31)
}

// Whose place among the blocks piece `i` has.
fn place_at(order: Order, i: u32, pieces: u32) -> u32 {
    match order {
        Order::Scattered => i.wrapping_mul(4093) % pieces.max(1),
        Order::Rising => i,
        Order::Straying => straying_place(i, pieces),
    }
}

fn piece_at(order: Order, i: u32, pieces: u32) -> Piece {
    let place = place_at(order, i, pieces);
    let ino = 128u64.saturating_add(u64::from(i % 1000));
    Piece {
        claim: Claim::Attr(ino),
        run: Run {
            start: place.wrapping_mul(BLOCKS),
            count: BLOCKS,
        },
        owner: ino,
        word: 0,
    }
}

fn filled(alloc: Global, order: Order, pieces: u32) -> Result<ClaimSet, Memory> {
    let mut set = ClaimSet::new(alloc);
    for i in 0..pieces {
        set.put(piece_at(order, i, pieces))?;
    }
    Ok(set)
}

fn lowest_spare(set: &mut ClaimSet) -> Option<u32> {
    let good = SpaceTrust {
        bno: Trust::Good,
        cnt: Trust::Good,
        rmap: Trust::Good,
    };
    let free = [SpanRec {
        start: 0,
        count: 0x1000_0000,
    }];
    set.lowest_spare(Unit::Rmap, good, &free, &[])
}

pub(crate) fn measured<R: Clock>(
    rt: &R,
    alloc: Global,
    order: Order,
    pieces: u32,
) -> io::Result<Times> {
    let start = Instant::now(rt)?;
    let Ok(mut set) = filled(alloc, order, pieces) else {
        return Err(io::Error::new(io::ErrorKind::OutOfMemory, "memory"));
    };
    let put = each_since(rt, &start, pieces)?;
    let start = Instant::now(rt)?;
    let overlap = set.first_overlap(Among::All);
    let asked = each_since(rt, &start, pieces)?;
    let start = Instant::now(rt)?;
    let spare = lowest_spare(&mut set);
    let walked = each_since(rt, &start, pieces)?;
    let start = Instant::now(rt)?;
    let runs = set.into_runs();
    let joined = each_since(rt, &start, pieces)?;
    if overlap.is_some() || spare.is_none() || runs.len() != pieces as usize {
        return Err(io::Error::new(
            io::ErrorKind::InvalidData,
            "a gap, an overlap or a joined run",
        ));
    }
    Ok(Times {
        put,
        overlap: asked,
        spare: walked,
        runs: joined,
    })
}
