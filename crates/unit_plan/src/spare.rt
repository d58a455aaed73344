ghost use Rattle.std.specs.Prelude.{◌≡◌, ◌+◌, ◌<◌, ◌^◌, max, drop, length, map, IsSome};
ghost use Rattle.derive_defs.specs.Mappings.{blocks_of};
ghost use Rattle.unit_plan.specs.declared.piece.Among.{Among as GhostAmong};
ghost use Rattle.unit_plan.specs.Spans.{MappingsRise, RunsRise, SpansFit, end_past, looked_run, span_run, stepped};
ghost use Rattle.unit_plan.specs.Spare.{IsLowest, is_free_for, is_outside, is_sick as is_sick_of, may_spare as may_spare_is};

use crate::piece::{Among, Piece, is_looked_at};
use fs_model::{Trust, Unit};
use rmap_recs::RmapRec;
use span_recs::SpanRec;

/// What is known of the three btrees that tell free space and owners. One that can't be read is
/// sick (XFS Online Fsck Design, "Metadata Repair").
#[derive(Clone, Copy, Debug, PartialEq, Eq)]
pub struct SpaceTrust {
    pub bno: Trust,
    pub cnt: Trust,
    pub rmap: Trust,
}

/// How far a walk has come: the first block that isn't passed, and how many spans, mappings and
/// pieces are.
#[derive(Clone, Copy)]
pub struct Place {
    pub from: u64,
    pub span: usize,
    pub mapping: usize,
    pub piece: usize,
}

fn is_sick(trust: Trust) -> bool
    ensures { result ≡ is_sick_of trust }
{
    matches!(trust, Trust::Sick)
}

/// Whether a unit may take spare blocks at all.
pub fn may_spare(unit: Unit, trust: SpaceTrust) -> bool
    ensures { result ≡ may_spare_is unit trust }
{
    match unit {
        Unit::Free => !is_sick(trust.rmap),
        Unit::Rmap => !is_sick(trust.bno),
        _ => !(is_sick(trust.bno) || (is_sick(trust.cnt) || is_sick(trust.rmap))),
    }
}

fn end_of(start: u32, count: u32) -> u64
    ensures { result ≡ start + count }
{
    u64::from(start) + u64::from(count)
}

// Where the reverse mapping at the place ends, if it begins there or before.
fn past_mapping(mappings: &[RmapRec], at: Place) -> Option<u64>
    ensures end { result ≡ end_past at.from (drop at.mapping (map blocks_of mappings.now)) }
    ensures within { IsSome result → at.mapping < length mappings.now }
{
    if at.mapping >= mappings.len() {
        return None;
    }
    let mapping = &mappings[at.mapping];
    if u64::from(mapping.start) > at.from {
        return None;
    }
    Some(at.from.max(end_of(mapping.start, mapping.count)))
}

// Where a piece ends; one that isn't looked at has no blocks.
fn end_of_piece(among: Among, piece: &Piece) -> u64
    ensures { result ≡ (looked_run among piece.now).start + (looked_run among piece.now).count }
{
    if is_looked_at(among, &piece.claim) {
        end_of(piece.run.start, piece.run.count)
    } else {
        u64::from(piece.run.start)
    }
}

// Where the piece at the place ends, if it begins there or before.
fn past_piece(pieces: &[Piece], among: Among, at: Place) -> Option<u64>
    ensures end { result ≡ end_past at.from (drop at.piece (map (looked_run among) pieces.now)) }
    ensures within { IsSome result → at.piece < length pieces.now }
{
    if at.piece >= pieces.len() {
        return None;
    }
    let piece = &pieces[at.piece];
    if u64::from(piece.run.start) > at.from {
        return None;
    }
    Some(at.from.max(end_of_piece(among, piece)))
}

// The place with its block raised to where its free space begins.
fn raised(span: &SpanRec, at: Place) -> Place
    ensures { result ≡ record at { from = max at.from span.now.start } }
{
    Place {
        from: at.from.max(u64::from(span.start)),
        ..at
    }
}

// One step of the walk: the next place, or None where the place's block is the one.
fn step(
    span: &SpanRec,
    mappings: &[RmapRec],
    pieces: &[Piece],
    among: Among,
    at: Place,
) -> Option<Place>
    requires { at.span < 2 ^ 63 }
    ensures { result ≡ stepped (span_run span.now) (map blocks_of mappings.now) (map (looked_run among) pieces.now) at }
{
    if end_of(span.start, span.count) <= at.from {
        return Some(Place {
            span: at.span + 1,
            ..at
        });
    }
    if let Some(from) = past_mapping(mappings, at) {
        return Some(Place {
            from,
            mapping: at.mapping + 1,
            ..at
        });
    }
    if let Some(from) = past_piece(pieces, among, at) {
        return Some(Place {
            from,
            piece: at.piece + 1,
            ..at
        });
    }
    None
}

// The lowest block of the free space that lies in none of the reverse mappings and in none of the
// pieces that are looked at.
fn lowest_outside(
    free: &[SpanRec],
    mappings: &[RmapRec],
    pieces: &[Piece],
    among: Among,
) -> Option<u32>
    requires free { SpansFit free.now }
    requires mappings { MappingsRise mappings.now }
    requires pieces { RunsRise (map (looked_run among) pieces.now) }
    ensures { IsLowest (is_outside among free.now mappings.now pieces.now) result }
{
    let mut at = Place {
        from: 0,
        span: 0,
        mapping: 0,
        piece: 0,
    };
    while at.span < free.len() {
        let span = free[at.span];
        let here = raised(&span, at);
        let Some(next) = step(&span, mappings, pieces, among, here) else {
            return Some(here.from as u32);
        };
        at = next;
    }
    None
}

/// The lowest block that is free for the unit, where the btrees that it rests on can be relied on.
#[tactic(auto, using(crate::proofs::SpanLemmas::for_free))]
pub fn lowest_for(
    unit: Unit,
    free: &[SpanRec],
    mappings: &[RmapRec],
    pieces: &[Piece],
) -> Option<u32>
    requires free { SpansFit free.now }
    requires mappings { MappingsRise mappings.now }
    requires pieces { (among : GhostAmong) → RunsRise (map (looked_run among) pieces.now) }
    ensures { IsLowest (is_free_for unit free.now mappings.now pieces.now) result }
{
    match unit {
        Unit::Free => lowest_outside(free, &[], &[], Among::All),
        Unit::Rmap => lowest_outside(free, &[], pieces, Among::All),
        _ => lowest_outside(free, mappings, pieces, Among::Metadata),
    }
}
