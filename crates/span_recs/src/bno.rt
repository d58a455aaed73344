use crate::span::{SpanRec, is_in_group, put_span, read_span};
use sblock::{Bounds, Kind, RecKind};

/// The btree of free space by start: a record comes before another where its start is lower,
/// whatever their counts (XFS Algorithms and Data Structures, "AG Free Space B+trees").
pub struct BnoKind {}

impl RecKind for BnoKind {
    ghost use Rattle.span_recs.specs.Spans.{bno_form};
    ghost use Rattle.span_recs.specs.SpanLaws.{lawful_bno};

    type Rec = SpanRec;

    type Key = SpanRec;

    ghost form = { bno_form };

    ghost lawful = { lawful_bno };

    fn kind() -> Kind {
        Kind::Bno
    }

    fn record_at(area: &[u8], i: usize) -> SpanRec {
        read_span(area, i)
    }

    fn put_record(area: &mut [u8], i: usize, rec: &SpanRec) {
        put_span(area, i, rec);
    }

    fn key_at(area: &[u8], i: usize) -> SpanRec {
        read_span(area, i)
    }

    fn high_key_at(area: &[u8], i: usize) -> SpanRec {
        read_span(area, i)
    }

    #[tactic(auto, using(crate::proofs::SpanLemmas::bno_same, crate::proofs::SpanLemmas::bno_pointers_stay))]
    fn put_keys(area: &mut [u8], i: usize, low: &SpanRec, _high: &SpanRec) {
        put_span(area, i, low);
    }

    fn key_of(rec: &SpanRec) -> SpanRec {
        *rec
    }

    fn high_key_of(rec: &SpanRec) -> SpanRec {
        *rec
    }

    fn is_before(a: &SpanRec, b: &SpanRec) -> bool {
        a.start < b.start
    }

    fn is_in_range(rec: &SpanRec, bounds: &Bounds) -> bool {
        is_in_group(rec, bounds)
    }

    fn is_supported(_rec: &SpanRec) -> bool {
        true
    }

    fn is_written(_rec: &SpanRec) -> bool {
        true
    }

    fn is_same(a: &SpanRec, b: &SpanRec) -> bool {
        a == b
    }

    fn block_of(key: &SpanRec) -> u32 {
        key.start
    }

    fn length_of(rec: &SpanRec) -> u32 {
        rec.count
    }
}
