// Where a record stands in a list, and which records of it can't be beside another.
ghost use Rattle.std.specs.Prelude.{◌≡◌, ◌≤◌, ◌<◌, length, not, IsSome, true};
ghost use Rattle.std.specs.List.{list_any};
ghost use Rattle.list_edit.specs.Edits.{comes_before, is_one, has_key, bars, bars_beside};
ghost use Rattle.list_edit.specs.Places.{leading};

use sblock::{RecKind, do_meet};

// Whether the record comes before this one.
#[tactic(auto, unfolding(crate::specs::Edits::comes_before))]
fn does_come_before<K: RecKind>(rec: &K::Rec, other: &K::Rec) -> bool
    ensures { result ≡ comes_before K.form rec.now other.now }
{
    K::is_before(&K::key_of(other), &K::key_of(rec))
}

// Whether the other record has this one's key.
#[tactic(auto, unfolding(crate::specs::Edits::has_key))]
fn does_have_key<K: RecKind>(rec: &K::Rec, other: &K::Rec) -> bool
    ensures { result ≡ has_key K.form rec.now other.now }
{
    let key = K::key_of(rec);
    let found = K::key_of(other);
    !K::is_before(&found, &key) && !K::is_before(&key, &found)
}

// Whether the other record is this one.
#[tactic(auto, unfolding(crate::specs::Edits::is_one))]
fn is_that<K: RecKind>(rec: &K::Rec, other: &K::Rec) -> bool
    ensures { result ≡ is_one K.form rec.now other.now }
{
    K::is_same(other, rec)
}

// Whether the other record can't be beside this one.
#[tactic(auto, unfolding(crate::specs::Edits::bars))]
fn does_bar<K: RecKind>(rec: &K::Rec, other: &K::Rec) -> bool
    ensures { result ≡ bars K.form rec.now other.now }
{
    do_meet::<K>(other, rec) || does_have_key::<K>(rec, other)
}

// Whether the other record, of another key, can't be beside this one.
#[tactic(auto, unfolding(crate::specs::Edits::bars_beside))]
fn does_bar_beside<K: RecKind>(rec: &K::Rec, other: &K::Rec) -> bool
    ensures { result ≡ bars_beside K.form rec.now other.now }
{
    !does_have_key::<K>(rec, other) && do_meet::<K>(other, rec)
}

// How many records come before this one, up to the first that doesn't.
#[tactic(auto, unfolding(crate::specs::Places::leading))]
pub(crate) fn place_for<K: RecKind>(list: &[K::Rec], rec: &K::Rec) -> usize
    ensures within { result ≤ length list.now }
    ensures exact { result ≡ leading (comes_before K.form rec.now) list.now }
{
    let mut rest = list;
    let mut place = 0;
    while let Some((first, later)) = rest.split_first() {
        if !does_come_before::<K>(rec, first) {
            return place;
        }
        place += 1;
        rest = later;
    }
    place
}

// The place of this record, or the length of a list that lacks it.
#[tactic(auto, unfolding(crate::specs::Places::leading))]
pub(crate) fn place_of<K: RecKind>(list: &[K::Rec], rec: &K::Rec) -> usize
    ensures within { result ≤ length list.now }
    ensures exact { result ≡ leading (λ s. not (is_one K.form rec.now s)) list.now }
{
    let mut rest = list;
    let mut place = 0;
    while let Some((first, later)) = rest.split_first() {
        if is_that::<K>(rec, first) {
            return place;
        }
        place += 1;
        rest = later;
    }
    place
}

// The place of the record with this one's key, or the length of a list that lacks it.
#[tactic(auto, unfolding(crate::specs::Places::leading))]
pub(crate) fn place_with<K: RecKind>(list: &[K::Rec], rec: &K::Rec) -> usize
    ensures within { result ≤ length list.now }
    ensures exact { result ≡ leading (λ s. not (has_key K.form rec.now s)) list.now }
{
    let mut rest = list;
    let mut place = 0;
    while let Some((first, later)) = rest.split_first() {
        if does_have_key::<K>(rec, first) {
            return place;
        }
        place += 1;
        rest = later;
    }
    place
}

// Whether a record of the list can't be beside this one.
pub(crate) fn is_barred<K: RecKind>(list: &[K::Rec], rec: &K::Rec) -> bool
    ensures { result ≡ list_any (bars K.form rec.now) list.now }
{
    let mut rest = list;
    while let Some((first, later)) = rest.split_first() {
        if does_bar::<K>(rec, first) {
            return true;
        }
        rest = later;
    }
    false
}

// Whether a record of the list, of another key, can't be beside this one.
pub(crate) fn is_barred_beside<K: RecKind>(list: &[K::Rec], rec: &K::Rec) -> bool
    ensures { result ≡ list_any (bars_beside K.form rec.now) list.now }
{
    let mut rest = list;
    while let Some((first, later)) = rest.split_first() {
        if does_bar_beside::<K>(rec, first) {
            return true;
        }
        rest = later;
    }
    false
}
