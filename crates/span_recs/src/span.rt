ghost use Rattle.std.specs.Prelude.{◌≡◌, ◌≢◌, ◌<◌, ℕ, length};
ghost use Rattle.span_recs.specs.Spans.{span_at, with_span, is_span_in_range};

use byte_fields::{get_u32, put_u32};
use sblock::Bounds;

/// A run of `count` free blocks from the group-relative block `start` on: the record of both free
/// space btrees, and their key too (XFS Algorithms and Data Structures, "AG Free Space B+trees").
#[derive(Clone, Copy, Debug, PartialEq, Eq)]
pub struct SpanRec {
    pub start: u32,
    pub count: u32,
}

/// Record or key `i`.
#[tactic(auto, unfolding(crate::specs::Spans::start_at, crate::specs::Spans::count_at))]
pub fn read_span(area: &[u8], i: usize) -> SpanRec
    requires whole { length area.now ≡ 4040 }
    requires room { i < 505 }
    ensures { result ≡ span_at area.now i }
{
    SpanRec {
        start: get_u32(area, 8 * i),
        count: get_u32(area, 8 * i + 4),
    }
}

// Writes two numbers, one behind the other.
#[tactic(auto, unfolding(crate::specs::Spans::with_span))]
fn put_pair(area: &mut [u8], i: usize, start: u32, count: u32)
    requires whole { length area.old ≡ 4040 }
    requires room { i < 505 }
    ensures { area.new ≡ with_span area.old i (record { start = start; count = count }) }
{
    put_u32(area, 8 * i, start);
    put_u32(area, 8 * i + 4, count);
}

/// Writes record or key `i`.
#[tactic(auto, using(crate::proofs::SpanLemmas::span_taken, crate::proofs::SpanLemmas::span_others))]
pub fn put_span(area: &mut [u8], i: usize, span: &SpanRec)
    requires whole { length area.old ≡ 4040 }
    requires room { i < 505 }
    ensures written { area.new ≡ with_span area.old i span.now }
    ensures taken { span_at area.new i ≡ span.now }
    ensures others { (j : ℕ) → j ≢ i → span_at area.new j ≡ span_at area.old j }
{
    put_pair(area, i, span.start, span.count);
}

/// Whether the blocks, at least one, lie in the group and behind its block 0.
#[tactic(auto, unfolding(crate::specs::Spans::is_span_in_range))]
pub fn is_in_group(span: &SpanRec, bounds: &Bounds) -> bool
    ensures { result ≡ is_span_in_range bounds.now span.now }
{
    span.start >= 1
        && span.count >= 1
        && u64::from(span.start) + u64::from(span.count) <= u64::from(bounds.length)
}
