// Tests of lists that a rebuild begins with and loads: what was derived or read in order passes them.
ghost use Rattle.std.specs.Prelude.{◌≡◌, ◌↔◌, ◌<◌, ◌^◌, true, IsTrue};
ghost use Rattle.run_edits.specs.Edits.{AreSorted, HasRoom};
ghost use Rattle.sblock.specs.Blocks.{IsRising};
ghost use Rattle.sblock.specs.Lists.{IsAhead};
ghost use Rattle.core_units.specs.TreesFit.{CanTake};
ghost use Rattle.core_units.specs.Tested.{ApartWithin, FreeEnds, RoomWithin, SortedOn};

use crate::Lists;
use rmap_recs::{RmapKind, RmapRec};
use sblock::{Bounds, RecKind};
use span_recs::SpanRec;

/// Whether no free space is empty, begins before the end of the one in front of it, or ends behind the
/// limit.
pub(crate) fn lie_apart(limit: u32, spans: &[SpanRec]) -> bool
    ensures { result ≡ true → ApartWithin limit 0 spans.now }
{
    let mut from = 0;
    let mut rest = spans;
    while let Some((span, later)) = rest.split_first() {
        let end = u64::from(span.start) + u64::from(span.count);
        if u64::from(span.start) < from || span.count == 0 || end > u64::from(limit) {
            return false;
        }
        from = end;
        rest = later;
    }
    true
}

// Whether the first of these doesn't come before the record.
fn is_sorted_on(rec: &RmapRec, later: &[RmapRec]) -> bool
    ensures { result ≡ true → SortedOn rec.now later.now }
{
    match later.split_first() {
        None => true,
        Some((next, _)) => !RmapKind::is_before(&RmapKind::key_of(next), &RmapKind::key_of(rec)),
    }
}

/// Whether no reverse mapping comes before one that stands earlier.
pub(crate) fn are_sorted(maps: &[RmapRec]) -> bool
    ensures { result ≡ true → AreSorted maps.now }
{
    let mut rest = maps;
    while let Some((map, later)) = rest.split_first() {
        if !is_sorted_on(map, later) {
            return false;
        }
        rest = later;
    }
    true
}

/// Whether each reverse mapping is in the range of a group's btree.
pub(crate) fn are_ranged(maps: &[RmapRec], bounds: &Bounds) -> bool
    ensures { result ≡ true → RoomWithin bounds.now maps.now }
{
    let mut rest = maps;
    while let Some((map, later)) = rest.split_first() {
        if !RmapKind::is_in_range(map, bounds) {
            return false;
        }
        rest = later;
    }
    true
}

// Whether a record comes before the first of those behind it.
fn is_ahead<K: RecKind>(rec: &K::Rec, later: &[K::Rec]) -> bool
    ensures { IsTrue result ↔ IsAhead (λ r s. K.form.is_before (K.form.key_of r) (K.form.key_of s)) rec.now later.now }
{
    match later.split_first() {
        None => true,
        Some((next, _)) => K::is_before(&K::key_of(rec), &K::key_of(next)),
    }
}

/// Whether each record's key comes before the next one's.
pub(crate) fn is_rising<K: RecKind>(list: &[K::Rec]) -> bool
    ensures { IsTrue result ↔ IsRising K.form list.now }
{
    let mut rest = list;
    while let Some((rec, later)) = rest.split_first() {
        if !is_ahead::<K>(rec, later) {
            return false;
        }
        rest = later;
    }
    true
}

/// Whether a spare block can be taken from the lists, of which free space lies below the length: lists
/// that were derived of a group of this length pass.
#[tactic(auto, using(crate::proofs::TestedLemmas::lie_apart, crate::proofs::TestedLemmas::spans_end, crate::proofs::TestedLemmas::have_room))]
pub(crate) fn can_take(length: u32, bounds: &Bounds, lists: &Lists) -> bool
    requires length { length < 2 ^ 32 }
    requires bounds { bounds.now.length < 2 ^ 32 }
    ensures taken { result ≡ true → CanTake lists.now }
    ensures ends { result ≡ true → FreeEnds length lists.now }
{
    match lists {
        Lists::Rmap { rmap } => {
            if !are_sorted(rmap.as_slice()) {
                return false;
            }
            are_ranged(rmap.as_slice(), bounds)
        }
        Lists::Free { bno, .. } => lie_apart(length, bno.as_slice()),
        Lists::Inode { .. } | Lists::Refc { .. } => true,
    }
}
