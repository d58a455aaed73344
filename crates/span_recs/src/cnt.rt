use crate::span::{SpanRec, is_in_group, put_span, read_span};
use sblock::{Bounds, Kind, RecKind};

/// The btree of free space by count: the smaller count comes first, and of equal counts the lower
/// start (XFS Algorithms and Data Structures, "AG Free Space B+trees").
pub struct CntKind {}

impl RecKind for CntKind {
    ghost use Rattle.span_recs.specs.Spans.{cnt_form};
    ghost use Rattle.span_recs.specs.SpanLaws.{lawful_cnt};

    type Rec = SpanRec;

    type Key = SpanRec;

    ghost form = { cnt_form };

    ghost lawful = { lawful_cnt };

    fn kind() -> Kind {
        Kind::Cnt
    }

    fn record_at(area: &[u8], i: usize) -> SpanRec {
        read_span(area, i)
    }

    fn put_record(area: &mut [u8], i: usize, rec: &SpanRec) {
        put_span(area, i, rec);
    }

    fn key_at(area: &[u8], i: usize) -> SpanRec {
        read_span(area, i)
    }

    fn high_key_at(area: &[u8], i: usize) -> SpanRec {
        read_span(area, i)
    }

    #[tactic(auto, using(crate::proofs::SpanLemmas::cnt_same, crate::proofs::SpanLemmas::cnt_pointers_stay))]
    fn put_keys(area: &mut [u8], i: usize, low: &SpanRec, _high: &SpanRec) {
        put_span(area, i, low);
    }

    fn key_of(rec: &SpanRec) -> SpanRec {
        *rec
    }

    fn high_key_of(rec: &SpanRec) -> SpanRec {
        *rec
    }

    #[tactic(auto, unfolding(crate::specs::Spans::is_before_by_count))]
    fn is_before(a: &SpanRec, b: &SpanRec) -> bool {
        if a.count != b.count {
            return a.count < b.count;
        }
        a.start < b.start
    }

    fn is_in_range(rec: &SpanRec, bounds: &Bounds) -> bool {
        is_in_group(rec, bounds)
    }

    fn is_supported(_rec: &SpanRec) -> bool {
        true
    }

    fn is_written(_rec: &SpanRec) -> bool {
        true
    }

    fn is_same(a: &SpanRec, b: &SpanRec) -> bool {
        a == b
    }

    fn block_of(key: &SpanRec) -> u32 {
        key.start
    }

    fn length_of(rec: &SpanRec) -> u32 {
        rec.count
    }
}
