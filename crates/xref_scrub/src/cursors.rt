ghost use Rattle.std.specs.Prelude.{◌≡◌, ℕ, ◌+◌, ◌-◌, ◌<◌, ◌≤◌, [], ◌∷◌, true, false, not, length, take, drop};
ghost use Rattle.std.specs.List.{list_any};
ghost use Rattle.sblock.specs.Blocks.{IsRising};
ghost use Rattle.sblock.specs.Lists.{IsAhead, Each};
ghost use Rattle.xref_scrub.specs.Cursors.{IsNotBehind, IsParted, IsShown, is_first_next, shown_from};
ghost use Rattle.xref_scrub.specs.Differences.{comes_before, missing_of, extra_of};

use crate::indexed::Indexed;
use fs_model::Fault;

/// How many records of each list come before a place of their common order.
#[derive(Clone, Copy, Debug, PartialEq, Eq)]
pub struct Cursors {
    pub derived: usize,
    pub index: usize,
}

/// Whether one record's key comes before another's.
pub fn does_come_before<K: Indexed>(a: &K::Rec, b: &K::Rec) -> bool
    ensures { result ≡ comes_before K.form a.now b.now }
{
    K::is_before(&K::key_of(a), &K::key_of(b))
}

// Whether the next record in the order is a derived one.
fn is_derived_next<K: Indexed>(index: &[K::Rec], derived: &[K::Rec], at: Cursors) -> bool
    requires within_derived { at.derived ≤ length derived.now }
    requires within_index { at.index ≤ length index.now }
    requires some { at.derived + at.index < length derived.now + length index.now }
    ensures value { result ≡ is_first_next (comes_before K.form) (drop at.derived derived.now) (drop at.index index.now) }
    ensures derived_left { result ≡ true → at.derived < length derived.now }
    ensures index_left { result ≡ false → at.index < length index.now }
{
    if at.derived == derived.len() {
        return false;
    }
    if at.index == index.len() {
        return true;
    }
    !does_come_before::<K>(&index[at.index], &derived[at.derived])
}

// Whether the index has this derived record, which only the one at its cursor can be.
fn does_index_have<K: Indexed>(index: &[K::Rec], at: usize, rec: &K::Rec) -> bool
    requires rising { IsRising K.form index.now }
    requires within { at ≤ length index.now }
    requires passed { Each (λ q. comes_before K.form q rec.now) (take at index.now) }
    requires left { IsNotBehind (comes_before K.form) rec.now (drop at index.now) }
    ensures { result ≡ list_any (K.form.is_same rec.now) index.now }
{
    if at == index.len() {
        return false;
    }
    K::is_same(rec, &index[at])
}

// Whether this record of the index is derived, which only the last derived one that was passed can
// be.
fn is_derived<K: Indexed>(derived: &[K::Rec], at: usize, rec: &K::Rec) -> bool
    requires rising { IsRising K.form derived.now }
    requires within { at ≤ length derived.now }
    requires passed { Each (λ p. not (comes_before K.form rec.now p)) (take at derived.now) }
    requires left { IsAhead (comes_before K.form) rec.now (drop at derived.now) }
    ensures { result ≡ list_any (K.form.is_same rec.now) derived.now }
{
    if at == 0 {
        return false;
    }
    K::is_same(rec, &derived[at - 1])
}

// What the derived record at the cursor shows.
#[tactic(auto, unfolding(crate::specs::Differences::missing_of))]
fn missing_at<K: Indexed>(index: &[K::Rec], at: usize, rec: &K::Rec) -> Option<Fault>
    requires rising { IsRising K.form index.now }
    requires within { at ≤ length index.now }
    requires passed { Each (λ q. comes_before K.form q rec.now) (take at index.now) }
    requires left { IsNotBehind (comes_before K.form) rec.now (drop at index.now) }
    ensures { result ≡ missing_of K.form K.shown index.now rec.now }
{
    if does_index_have::<K>(index, at, rec) {
        return None;
    }
    Some(Fault::Missing(K::any(rec)))
}

// What the record of the index at the cursor shows.
#[tactic(auto, unfolding(crate::specs::Differences::extra_of))]
fn extra_at<K: Indexed>(derived: &[K::Rec], at: usize, rec: &K::Rec) -> Option<Fault>
    requires rising { IsRising K.form derived.now }
    requires within { at ≤ length derived.now }
    requires passed { Each (λ p. not (comes_before K.form rec.now p)) (take at derived.now) }
    requires left { IsAhead (comes_before K.form) rec.now (drop at derived.now) }
    ensures { result ≡ extra_of K.form K.shown derived.now rec.now }
{
    if is_derived::<K>(derived, at, rec) {
        return None;
    }
    Some(Fault::Extra(K::any(rec)))
}

/// Whether a record is left behind the cursors.
#[tactic(auto, using(crate::proofs::ShowingLemmas::shown_ended))]
pub fn is_some_left<K: Indexed>(index: &[K::Rec], derived: &[K::Rec], at: Cursors) -> bool
    requires { IsParted (comes_before K.form) derived.now index.now at.derived at.index }
    ensures some { result ≡ true → at.derived + at.index < length derived.now + length index.now }
    ensures none { result ≡ false → shown_from K.form K.shown index.now derived.now at.derived at.index ≡ [] }
{
    if at.derived < derived.len() {
        return true;
    }
    at.index < index.len()
}

/// Goes past the next record, and answers what it shows.
pub fn pass<K: Indexed>(index: &[K::Rec], derived: &[K::Rec], at: &mut Cursors) -> Option<Fault>
    requires index_rises { IsRising K.form index.now }
    requires derived_rises { IsRising K.form derived.now }
    requires parted { IsParted (comes_before K.form) derived.now index.now at.old.derived at.old.index }
    requires some { at.old.derived + at.old.index < length derived.now + length index.now }
    ensures parted { IsParted (comes_before K.form) derived.now index.now at.new.derived at.new.index }
    ensures step { at.new.derived + at.new.index ≡ at.old.derived + at.old.index + 1 }
    ensures shown { IsShown K.form K.shown index.now derived.now at.old.derived at.old.index result at.new.derived at.new.index }
{
    if is_derived_next::<K>(index, derived, *at) {
        let fault = missing_at::<K>(index, at.index, &derived[at.derived]);
        at.derived += 1;
        return fault;
    }
    let fault = extra_at::<K>(derived, at.derived, &index[at.index]);
    at.index += 1;
    fault
}
