ghost use Rattle.std.specs.Prelude.{◌≡◌, ◌≢◌, ◌<◌, ℕ, length};
ghost use Rattle.span_recs.specs.Refcounts.{is_shared as is_shared_of, refc_key_at, with_refc_key};

use byte_fields::{get_u32, put_u32};
use sblock::{Bounds, Kind, RecKind};

/// The group-relative blocks `start` to `start + count - 1`, to which `refcount` mappings of files
/// point. Where bit 31 of `start` is set, the record is one of copy-on-write staging
/// (XFS Algorithms and Data Structures, "Reference Count B+tree").
#[derive(Clone, Copy, Debug, PartialEq, Eq)]
pub struct RefcRec {
    pub start: u32,
    pub count: u32,
    pub refcount: u32,
}

/// The whole start field of a record, bit 31 with it
/// (XFS Algorithms and Data Structures, "Reference Count B+tree").
#[derive(Clone, Copy, Debug, PartialEq, Eq)]
pub struct RefcKey {
    pub start: u32,
}

// The bit of a start that marks copy-on-write staging.
const STAGING: u32 = 0x8000_0000;

#[tactic(auto, unfolding(crate::specs::Refcounts::is_shared))]
fn is_shared(rec: &RefcRec) -> bool
    ensures { result ≡ is_shared_of rec.now }
{
    rec.start < STAGING
}

#[tactic(auto, unfolding(crate::specs::Refcounts::with_refc_key))]
fn put_start(area: &mut [u8], i: usize, start: u32)
    requires whole { length area.old ≡ 4040 }
    requires room { i < 505 }
    ensures { area.new ≡ with_refc_key area.old i (record { start = start }) }
{
    put_u32(area, 4 * i, start);
}

#[tactic(auto, using(crate::proofs::RefcountLemmas::refc_key_taken, crate::proofs::RefcountLemmas::refc_key_others))]
fn put_key(area: &mut [u8], i: usize, key: &RefcKey)
    requires whole { length area.old ≡ 4040 }
    requires room { i < 505 }
    ensures written { area.new ≡ with_refc_key area.old i key.now }
    ensures taken { refc_key_at area.new i ≡ key.now }
    ensures others { (j : ℕ) → j ≢ i → refc_key_at area.new j ≡ refc_key_at area.old j }
{
    put_start(area, i, key.start);
}

/// The btree of reference counts, ordered by start. A record of copy-on-write staging is of a
/// form that isn't supported yet; its blocks count from its whole start field on
/// (XFS Algorithms and Data Structures, "Reference Count B+tree").
pub struct RefcKind {}

impl RecKind for RefcKind {
    ghost use Rattle.span_recs.specs.Refcounts.{refc_form};
    ghost use Rattle.span_recs.specs.RefcountLaws.{lawful_refc};

    type Rec = RefcRec;

    type Key = RefcKey;

    ghost form = { refc_form };

    ghost lawful = { lawful_refc };

    fn kind() -> Kind {
        Kind::Refc
    }

    #[tactic(auto, unfolding(crate::specs::Refcounts::start_at, crate::specs::Refcounts::count_at, crate::specs::Refcounts::refcount_at))]
    fn record_at(area: &[u8], i: usize) -> RefcRec {
        RefcRec {
            start: get_u32(area, 12 * i),
            count: get_u32(area, 12 * i + 4),
            refcount: get_u32(area, 12 * i + 8),
        }
    }

    #[tactic(auto, using(crate::proofs::RefcountLemmas::refc_taken, crate::proofs::RefcountLemmas::refc_others), unfolding(crate::specs::Refcounts::with_refc))]
    fn put_record(area: &mut [u8], i: usize, rec: &RefcRec) {
        put_u32(area, 12 * i, rec.start);
        put_u32(area, 12 * i + 4, rec.count);
        put_u32(area, 12 * i + 8, rec.refcount);
    }

    #[tactic(auto, unfolding(crate::specs::Refcounts::key_start_at))]
    fn key_at(area: &[u8], i: usize) -> RefcKey {
        RefcKey {
            start: get_u32(area, 4 * i),
        }
    }

    #[tactic(auto, unfolding(crate::specs::Refcounts::key_start_at))]
    fn high_key_at(area: &[u8], i: usize) -> RefcKey {
        RefcKey {
            start: get_u32(area, 4 * i),
        }
    }

    #[tactic(auto, using(crate::proofs::RefcountLemmas::refc_same, crate::proofs::RefcountLemmas::refc_pointers_stay))]
    fn put_keys(area: &mut [u8], i: usize, low: &RefcKey, _high: &RefcKey) {
        put_key(area, i, low);
    }

    fn key_of(rec: &RefcRec) -> RefcKey {
        RefcKey { start: rec.start }
    }

    fn high_key_of(rec: &RefcRec) -> RefcKey {
        RefcKey { start: rec.start }
    }

    fn is_before(a: &RefcKey, b: &RefcKey) -> bool {
        a.start < b.start
    }

    #[tactic(auto, unfolding(crate::specs::Refcounts::is_refc_in_range))]
    fn is_in_range(rec: &RefcRec, bounds: &Bounds) -> bool {
        rec.start >= 1
            && rec.count >= 1
            && u64::from(rec.start) + u64::from(rec.count) <= u64::from(bounds.length)
            && rec.refcount >= 2
    }

    fn is_supported(rec: &RefcRec) -> bool {
        is_shared(rec)
    }

    fn is_written(_rec: &RefcRec) -> bool {
        true
    }

    fn is_same(a: &RefcRec, b: &RefcRec) -> bool {
        a == b
    }

    fn block_of(key: &RefcKey) -> u32 {
        // Bit 31 stays in: only so does a later key never begin at an earlier block.
        key.start
    }

    fn length_of(rec: &RefcRec) -> u32 {
        rec.count
    }
}
