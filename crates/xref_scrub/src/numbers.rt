ghost use Rattle.std.specs.Prelude.{◌≡◌, ◌+◌, ◌-◌, ◌≤◌, nat_le, length, drop};
ghost use Rattle.sblock.specs.Blocks.{IsRising};
ghost use Rattle.xref_scrub.specs.Cursors.{IsParted, shown_from};
ghost use Rattle.xref_scrub.specs.Differences.{comes_before, shown_by};

use crate::cursors::{Cursors, does_come_before};
use crate::indexed::Indexed;

// Whether two lists of these lengths have no record with this number.
fn is_past(first: usize, second: usize, number: usize) -> bool
    ensures { result ≡ nat_le (first + second) number }
{
    if number < first {
        return false;
    }
    number - first >= second
}

// How many of the first so many records in the order are derived ones, by halving the range.
fn derived_among<K: Indexed>(index: &[K::Rec], derived: &[K::Rec], number: usize) -> usize
    requires index_rises { IsRising K.form index.now }
    requires derived_rises { IsRising K.form derived.now }
    requires within { number ≤ length derived.now + length index.now }
    ensures among { result ≤ number }
    ensures parted { IsParted (comes_before K.form) derived.now index.now result (number - result) }
{
    let mut low = number.saturating_sub(index.len());
    let mut high = number.min(derived.len());
    'halving: while low < high {
        let middle = low + (high - low) / 2;
        if does_come_before::<K>(&index[number - middle - 1], &derived[middle]) {
            high = middle;
        } else {
            low = middle + 1;
        }
    }
    low
}

/// The cursors in front of the record with this number in the common order, counted from 0; both
/// ends where there is none.
pub fn seek<K: Indexed>(index: &[K::Rec], derived: &[K::Rec], number: u64) -> Cursors
    requires index_rises { IsRising K.form index.now }
    requires derived_rises { IsRising K.form derived.now }
    ensures parted { IsParted (comes_before K.form) derived.now index.now result.derived result.index }
    ensures shown { shown_from K.form K.shown index.now derived.now result.derived result.index ≡ drop number (shown_by K.form K.shown index.now derived.now) }
{
    let place = number as usize;
    if is_past(derived.len(), index.len(), place) {
        return Cursors {
            derived: derived.len(),
            index: index.len(),
        };
    }
    let among = derived_among::<K>(index, derived, place);
    Cursors {
        derived: among,
        index: place - among,
    }
}
