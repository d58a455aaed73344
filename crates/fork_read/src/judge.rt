ghost use Rattle.std.specs.Prelude.{◌≡◌, ◌<◌, ◌≤◌, map, filter, nat_le, IfOk, IfErr, None};
ghost use Rattle.geom.specs.Places.{layout};
ghost use Rattle.dinode_core.specs.ForkTree.{ends, ends_at};
ghost use Rattle.fork_read.specs.Answers.{IsJudgedFault, IsPiece, judged, next_of, stop_fault};
ghost use Rattle.fork_read.specs.Walk.{last_in, trail_of};

use crate::fault::{ForkPiece, ReadFault};
use crate::seen::{BlockRead, NOBODY, Seen};
use crate::walk::Stop;
use dinode_core::{Fork, ForkFault, Mapping, first_bad};
use geom::Geometry;
use std::alloc::{AllocError, Global};

// Whether the last block of a level has no right sibling.
fn does_end_at(seen: &Seen, level: u8) -> bool
    requires { level < 9 }
    ensures { result ≡ ends_at (last_in seen.now.lasts level) }
{
    let last = seen.lasts[level as usize];
    !last.known || last.right == NOBODY
}

// The same of each level below this one.
#[tactic(auto, using(crate::proofs::JudgeLemmas::no_level, crate::proofs::JudgeLemmas::one_level))]
fn do_end(seen: &Seen, levels: u8) -> bool
    requires { levels ≤ 9 }
    ensures { result ≡ ends levels (trail_of seen.now) }
{
    if levels == 0 {
        return true;
    }
    do_end(seen, levels - 1) && does_end_at(seen, levels - 1)
}

// The fault that a way to end shows by itself.
fn stop_fault_of(seen: &Seen, levels: u8, stop: &Stop) -> Option<ForkFault>
    requires { levels ≤ 9 }
    ensures { result ≡ stop_fault levels stop.now (trail_of seen.now) }
{
    match stop {
        Stop::Bad => Some(ForkFault::Block),
        Stop::Whole => {
            if do_end(seen, levels) {
                None
            } else {
                Some(ForkFault::Block)
            }
        }
        Stop::Left(_) => None,
        Stop::Long(_) | Stop::Fallen => Some(ForkFault::Order),
    }
}

/// The first fault of what was met: a bad mapping comes before a bad block.
pub fn judge(geo: &Geometry, fork: Fork, levels: u8, seen: &Seen, stop: &Stop) -> Option<ForkFault>
    requires { levels ≤ 9 }
    ensures { result ≡ judged (layout geo.now) fork levels stop.now (trail_of seen.now) }
{
    match first_bad(geo, fork, seen.mappings.as_slice()) {
        Some(fault) => Some(fault),
        None => stop_fault_of(seen, levels, stop),
    }
}

fn next_after(stop: &Stop) -> Option<u64>
    ensures { result ≡ next_of stop.now }
{
    match stop {
        Stop::Bad | Stop::Whole | Stop::Long(_) | Stop::Fallen => None,
        Stop::Left(task) => Some(task.key),
    }
}

// The mappings that begin at the offset or behind it.
fn mappings_from(alloc: Global, mappings: &[Mapping], from: u64) -> Result<Vec<Mapping>, AllocError>
    ensures { IfOk result (λ v. v.items ≡ filter (λ m. nat_le from m.offset) mappings.now) }
{
    mappings
        .iter()
        .copied()
        .filter(|m| from <= m.offset)
        .collect(alloc)
}

fn numbers_of(alloc: Global, blocks: &[BlockRead]) -> Result<Vec<u64>, AllocError>
    ensures { IfOk result (λ v. v.items ≡ map (λ b. b.block) blocks.now) }
{
    blocks.iter().map(|b| b.block).collect(alloc)
}

/// The piece with those of these mappings that begin at the offset or behind it.
pub fn piece_of(
    alloc: Global,
    mappings: &[Mapping],
    blocks: &[BlockRead],
    from: u64,
    next: Option<u64>,
) -> Result<ForkPiece, ReadFault>
    ensures piece { IfOk result (λ piece. IsPiece from mappings.now (map (λ b. b.block) blocks.now) next piece) }
    ensures memory { IfErr result (λ error. error ≡ ReadFault.Memory) }
{
    let mappings = mappings_from(alloc, mappings, from)?;
    let tree_blocks = numbers_of(alloc, blocks)?;
    Ok(ForkPiece {
        mappings,
        tree_blocks,
        next,
    })
}

/// The answer of a walk that ended so: the first fault of what was met, or the piece.
pub fn answer(
    alloc: Global,
    geo: &Geometry,
    fork: Fork,
    levels: u8,
    from: u64,
    seen: &Seen,
    stop: &Stop,
) -> Result<ForkPiece, ReadFault>
    requires { levels ≤ 9 }
    ensures good { IfOk result (λ _. judged (layout geo.now) fork levels stop.now (trail_of seen.now) ≡ None) }
    ensures piece { IfOk result (λ piece. IsPiece from seen.now.mappings.items (map (λ b. b.block) seen.now.blocks.items) (next_of stop.now) piece) }
    ensures fault { IfErr result (λ error. IsJudgedFault (judged (layout geo.now) fork levels stop.now (trail_of seen.now)) error) }
{
    if let Some(fault) = judge(geo, fork, levels, seen, stop) {
        return Err(ReadFault::Fork(fault));
    }
    piece_of(
        alloc,
        seen.mappings.as_slice(),
        seen.blocks.as_slice(),
        from,
        next_after(stop),
    )
}
