use byte_fields::{get_u32, put_u32};
use sblock::{Bounds, Kind, RecKind};

/// A kind whose records are numbers, each its own key.
pub struct Counted {}

impl RecKind for Counted {
    ghost use Rattle.test_records.specs.Counted.{counted};
    ghost use Rattle.test_records.specs.CountedLaws.{lawful_counted};

    type Rec = u32;

    type Key = u32;

    ghost form = { counted };

    ghost lawful = { lawful_counted };

    fn kind() -> Kind {
        Kind::Ino
    }

    #[tactic(auto, unfolding(crate::specs::Counted::number_at))]
    fn record_at(area: &[u8], i: usize) -> u32 {
        get_u32(area, 16 * i)
    }

    #[tactic(auto, using(crate::proofs::CountedLemmas::number_taken, crate::proofs::CountedLemmas::record_beside), unfolding(crate::specs::Counted::with_number))]
    fn put_record(area: &mut [u8], i: usize, rec: &u32) {
        put_u32(area, 16 * i, *rec);
    }

    #[tactic(auto, unfolding(crate::specs::Counted::number_at))]
    fn key_at(area: &[u8], i: usize) -> u32 {
        get_u32(area, 4 * i)
    }

    #[tactic(auto, unfolding(crate::specs::Counted::number_at))]
    fn high_key_at(area: &[u8], i: usize) -> u32 {
        get_u32(area, 4 * i)
    }

    #[tactic(auto, using(crate::proofs::CountedLemmas::key_taken, crate::proofs::CountedLemmas::key_beside, crate::proofs::CountedLemmas::pointer_stays), unfolding(crate::specs::Counted::with_number))]
    fn put_keys(area: &mut [u8], i: usize, low: &u32, _high: &u32) {
        put_u32(area, 4 * i, *low);
    }

    fn key_of(rec: &u32) -> u32 {
        *rec
    }

    fn high_key_of(rec: &u32) -> u32 {
        *rec
    }

    fn is_before(a: &u32, b: &u32) -> bool {
        a < b
    }

    fn is_in_range(rec: &u32, bounds: &Bounds) -> bool {
        *rec < bounds.length
    }

    fn is_supported(rec: &u32) -> bool {
        *rec < 0x8000_0000
    }

    fn is_written(_rec: &u32) -> bool {
        true
    }

    fn is_same(a: &u32, b: &u32) -> bool {
        a == b
    }

    fn block_of(key: &u32) -> u32 {
        *key
    }

    fn length_of(_rec: &u32) -> u32 {
        1
    }
}
