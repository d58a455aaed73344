// Blocks that nothing has any more once new btrees stand.
ghost use Rattle.std.specs.Prelude.{◌≡◌, ◌++◌, ◌==◌, not, filter, map, IfOk};
ghost use Rattle.derive_defs.specs.Free.{is_free};
ghost use Rattle.derive_defs.specs.Mappings.{EndWithin};
ghost use Rattle.run_sets.specs.Runs.{AreRunsBelow, EndWithin as RunsEnd};
ghost use Rattle.unit_plan.specs.Lost.{is_of as is_of_unit, is_of_old, is_old as is_old_claim, is_read as is_read_claim, is_read_kind as is_kind_read, is_unlisted, is_unclaimed, of_piece, of_run};
ghost use Rattle.unit_plan.specs.Sets.{LieBelow};
ghost use Rattle.unit_plan.specs.Spans.{span_run};

use crate::piece::Piece;
use derive_defs::free_of;
use fs_model::{Claim, Unit};
use rmap_recs::RmapRec;
use run_sets::Run;
use sblock::Kind;
use span_recs::SpanRec;
use std::alloc::{AllocError, Global};

fn is_of(unit: Unit, kind: Kind) -> bool
    ensures { result ≡ is_of_unit unit kind }
{
    match unit {
        Unit::Inode => matches!(kind, Kind::Ino | Kind::Fino),
        Unit::Rmap => matches!(kind, Kind::Rmap),
        Unit::Free => matches!(kind, Kind::Bno | Kind::Cnt),
        Unit::Refc => matches!(kind, Kind::Refc),
    }
}

// Whether the claim is one of the unit's old btrees.
fn is_old(unit: Unit, claim: Claim) -> bool
    ensures { result ≡ is_old_claim unit claim }
{
    match claim {
        Claim::Tree(kind) => is_of(unit, kind),
        _ => false,
    }
}

// The pieces that still claim, as reverse mappings.
fn claims_left(alloc: Global, unit: Unit, pieces: &[Piece]) -> Result<Vec<RmapRec>, AllocError>
    ensures { IfOk result (λ held. held.items ≡ map of_piece (filter (λ p. not (is_old_claim unit p.claim)) pieces.now)) }
{
    pieces
        .iter()
        .filter(|piece| !is_old(unit, piece.claim))
        .map(|piece| RmapRec {
            start: piece.run.start,
            count: piece.run.count,
            owner: piece.owner,
            word: piece.word,
        })
        .collect(alloc)
}

fn is_read_kind(ino: bool, fino: bool, kind: Kind) -> bool
    ensures { result ≡ is_kind_read ino fino kind }
{
    match kind {
        Kind::Ino => ino,
        Kind::Fino => fino,
        _ => false,
    }
}

// Whether the claim is one of the old inode btrees that could be read.
fn is_read(ino: bool, fino: bool, claim: Claim) -> bool
    ensures { result ≡ is_read_claim ino fino claim }
{
    match claim {
        Claim::Tree(kind) => is_read_kind(ino, fino, kind),
        _ => false,
    }
}

// The pieces of the old inode btrees that could be read, as reverse mappings.
fn old_trees(
    alloc: Global,
    ino: bool,
    fino: bool,
    pieces: &[Piece],
) -> Result<Vec<RmapRec>, AllocError>
    ensures { IfOk result (λ held. held.items ≡ map of_piece (filter (λ p. is_read_claim ino fino p.claim) pieces.now)) }
{
    pieces
        .iter()
        .filter(|piece| is_read(ino, fino, piece.claim))
        .map(|piece| RmapRec {
            start: piece.run.start,
            count: piece.run.count,
            owner: piece.owner,
            word: piece.word,
        })
        .collect(alloc)
}

// The reverse mappings of one owner.
fn mappings_of(alloc: Global, owner: u64, mappings: &[RmapRec]) -> Result<Vec<RmapRec>, AllocError>
    ensures { IfOk result (λ owned. owned.items ≡ filter (λ r. r.owner == owner) mappings.now) }
{
    mappings
        .iter()
        .filter(|mapping| mapping.owner == owner)
        .copied()
        .collect(alloc)
}

fn runs_of(alloc: Global, spans: &[SpanRec]) -> Result<Vec<Run>, AllocError>
    ensures { IfOk result (λ runs. runs.items ≡ map span_run spans.now) }
{
    spans
        .iter()
        .map(|span| Run {
            start: span.start,
            count: span.count,
        })
        .collect(alloc)
}

// Adds runs behind the records.
fn put_runs(held: &mut Vec<RmapRec>, runs: &[Run]) -> Result<(), AllocError>
    ensures { IfOk result (λ done. held.new.items ≡ held.old.items ++ map of_run runs.now) }
{
    for run in runs {
        held.push(RmapRec {
            start: run.start,
            count: run.count,
            owner: 0,
            word: 0,
        })?;
    }
    Ok(())
}

// Runs as records of nobody.
fn ownerless(alloc: Global, runs: &[Run]) -> Result<Vec<RmapRec>, AllocError>
    ensures { IfOk result (λ held. held.items ≡ map of_run runs.now) }
{
    let mut held = Vec::new(alloc);
    put_runs(&mut held, runs)?;
    Ok(held)
}

// The maximal runs of the blocks below the length that lie in none of these records.
fn outside(alloc: Global, length: u32, mut held: Vec<RmapRec>) -> Result<Vec<Run>, AllocError>
    requires { EndWithin length held.items }
    ensures { IfOk result (λ runs. AreRunsBelow (is_free held.items) length runs.items) }
{
    held.sort_unstable_by_key(|record| record.start);
    let free = free_of(alloc, length, held.as_slice())?;
    runs_of(alloc, free.as_slice())
}

/// The blocks below the length that neither this free space nor a piece has, the old btree of reverse
/// mappings aside.
pub fn unlisted(
    alloc: Global,
    length: u32,
    pieces: &[Piece],
    free: &[SpanRec],
) -> Result<Vec<Run>, AllocError>
    requires pieces { LieBelow length pieces.now }
    requires free { RunsEnd length (map span_run free.now) }
    ensures { IfOk result (λ runs. AreRunsBelow (is_unlisted free.now pieces.now) length runs.items) }
{
    let listed = runs_of(alloc, free)?;
    let mut held = claims_left(alloc, Unit::Rmap, pieces)?;
    put_runs(&mut held, listed.as_slice())?;
    outside(alloc, length, held)
}

/// The blocks below the length that these reverse mappings give to the owner and that no piece has,
/// the unit's old btrees aside.
pub fn unclaimed(
    alloc: Global,
    unit: Unit,
    length: u32,
    pieces: &[Piece],
    owner: u64,
    mappings: &[RmapRec],
) -> Result<Vec<Run>, AllocError>
    requires pieces { LieBelow length pieces.now }
    requires mappings { EndWithin length mappings.now }
    ensures { IfOk result (λ runs. AreRunsBelow (is_unclaimed unit owner mappings.now pieces.now) length runs.items) }
{
    let others = outside(alloc, length, mappings_of(alloc, owner, mappings)?)?;
    let mut held = claims_left(alloc, unit, pieces)?;
    put_runs(&mut held, others.as_slice())?;
    outside(alloc, length, held)
}

/// The blocks below the length that the old inode btrees have, as far as they could be read.
pub fn of_old(
    alloc: Global,
    length: u32,
    pieces: &[Piece],
    ino: bool,
    fino: bool,
) -> Result<Vec<Run>, AllocError>
    requires { LieBelow length pieces.now }
    ensures { IfOk result (λ runs. AreRunsBelow (is_of_old ino fino pieces.now) length runs.items) }
{
    let others = outside(alloc, length, old_trees(alloc, ino, fino, pieces)?)?;
    let held = ownerless(alloc, others.as_slice())?;
    outside(alloc, length, held)
}
