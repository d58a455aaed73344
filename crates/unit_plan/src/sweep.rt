ghost use Rattle.std.specs.Prelude.{◌≡◌, ℕ, ◌+◌, ◌&&◌, [], map, max, nat_lt, if◌then◌else◌};
ghost use Rattle.std.specs.List.{filter};
ghost use Rattle.unit_plan.specs.Firsts.{listed, firsts_from};
ghost use Rattle.unit_plan.specs.Sweep.{swept};
ghost use Rattle.unit_plan.specs.Pieces.{has_block as has_block_of, is_hard as is_hard_of, is_looked_at as is_looked_at_of};

use crate::order::{Firsts, with_claim};
use crate::piece::{Among, Piece, has_block, is_hard, is_looked_at};

// Where the last of the pieces ends that were passed, and the last of those that stand beside no
// other.
#[derive(Clone, Copy)]
struct Passed {
    end: u64,
    hard_end: u64,
}

fn reach_of(passed: Passed, hard: bool) -> u64
    ensures { result ≡ (if hard then passed.end else passed.hard_end) }
{
    if hard { passed.end } else { passed.hard_end }
}

fn gone_past(passed: Passed, hard: bool, end: u64) -> Passed
    ensures end { result.end ≡ max passed.end end }
    ensures hard { result.hard_end ≡ (if hard then max passed.hard_end end else passed.hard_end) }
{
    Passed {
        end: passed.end.max(end),
        hard_end: if hard {
            passed.hard_end.max(end)
        } else {
            passed.hard_end
        },
    }
}

fn end_of(piece: &Piece) -> u64
    ensures { result ≡ piece.now.run.start + piece.now.run.count }
{
    u64::from(piece.run.start) + u64::from(piece.run.count)
}

fn has_some(among: Among, piece: &Piece) -> bool
    ensures { result ≡ (is_looked_at_of among piece.now.claim && nat_lt 0 piece.now.run.count) }
{
    is_looked_at(among, &piece.claim) && piece.run.count > 0
}

fn is_met(passed: Passed, piece: &Piece) -> bool
    ensures { result ≡ nat_lt piece.now.run.start (if is_hard_of piece.now then passed.end else passed.hard_end) }
{
    let reach = reach_of(passed, is_hard(piece));
    u64::from(piece.run.start) < reach
}

/// The first of the blocks where a piece begins on which an earlier piece still goes on that it
/// can't stand beside.
pub fn first_met(pieces: &[Piece], among: Among) -> Option<u32>
    ensures { result ≡ swept among 0 0 pieces.now }
{
    let mut passed = Passed {
        end: 0,
        hard_end: 0,
    };
    for piece in pieces {
        if has_some(among, piece) {
            if is_met(passed, piece) {
                return Some(piece.run.start);
            }
            passed = gone_past(passed, is_hard(piece), end_of(piece));
        }
    }
    None
}

/// The first two claims on the block.
pub fn firsts_on(pieces: &[Piece], among: Among, block: u32) -> Firsts
    ensures { listed result ≡ firsts_from [] (map (λ p. p.claim) (filter (has_block_of among block) pieces.now)) }
{
    let mut firsts = Firsts::Nothing;
    for piece in pieces {
        if has_block(among, piece, block) {
            firsts = with_claim(firsts, piece.claim);
        }
    }
    firsts
}
