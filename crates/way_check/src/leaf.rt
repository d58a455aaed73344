// Whether a leaf that was made has the records of the old one with the edit at its place.
ghost use Rattle.std.specs.Prelude.{◌≡◌, ◌+◌, ◌<◌, ◌≤◌, ℕ, true};
ghost use Rattle.list_edit.specs.Edits.{comes_before, has_key, is_one};
ghost use Rattle.sblock.specs.Area.{area_of};
ghost use Rattle.sblock.specs.Blocks.{numrecs, records_of, is_rising};
ghost use Rattle.sblock.specs.Kinds.{leaf_most_of};
ghost use Rattle.sblock.specs.Lists.{items_from};
ghost use Rattle.place_cells.specs.Cells.{item_at};
ghost use Rattle.place_turns.specs.Edits.{IsHere, cut_for, many_after};
ghost use Rattle.way_check.specs.Checks.{HasEdit, IsBack, IsFront, record_in};

use byte_fields::Block;
use list_edit::Edit;
use place_plan::{Ask, place_in};
use sblock::{RecKind, count_of, data_area};

// Whether the other record comes before this one.
#[tactic(auto, unfolding(list_edit::specs::Edits::comes_before))]
fn does_come_before<K: RecKind>(rec: &K::Rec, other: &K::Rec) -> bool
    ensures { result ≡ comes_before K.form rec.now other.now }
{
    K::is_before(&K::key_of(other), &K::key_of(rec))
}

// Whether the other record has this one's key.
#[tactic(auto, unfolding(list_edit::specs::Edits::has_key))]
fn does_have_key<K: RecKind>(rec: &K::Rec, other: &K::Rec) -> bool
    ensures { result ≡ has_key K.form rec.now other.now }
{
    let key = K::key_of(rec);
    let found = K::key_of(other);
    !K::is_before(&found, &key) && !K::is_before(&key, &found)
}

// Whether the other record is this one.
#[tactic(auto, unfolding(list_edit::specs::Edits::is_one))]
fn is_that<K: RecKind>(rec: &K::Rec, other: &K::Rec) -> bool
    ensures { result ≡ is_one K.form rec.now other.now }
{
    K::is_same(other, rec)
}

// Whether the record in front of a place of a leaf comes before this one.
fn is_front<K: RecKind>(block: &Block, at: usize, rec: &K::Rec) -> bool
    requires room { numrecs block.now.bytes ≤ leaf_most_of K.form.kind }
    requires within { at ≤ numrecs block.now.bytes }
    ensures { result ≡ true → IsFront K.form rec.now block.now.bytes at }
{
    if at == 0 {
        return true;
    }
    let other = K::record_at(data_area(block), at - 1);
    does_come_before::<K>(rec, &other)
}

// Whether the record at a place of a leaf doesn't, if there is one.
fn is_back<K: RecKind>(block: &Block, at: usize, rec: &K::Rec) -> bool
    requires room { numrecs block.now.bytes ≤ leaf_most_of K.form.kind }
    ensures { result ≡ true → IsBack K.form rec.now block.now.bytes at }
{
    if at >= usize::from(count_of(block)) {
        return true;
    }
    let other = K::record_at(data_area(block), at);
    !does_come_before::<K>(rec, &other)
}

// Whether a record is put in beside the others.
fn is_insert(how: Edit) -> bool
    ensures { result ≡ true → how ≡ Edit.Insert }
{
    match how {
        Edit::Insert => true,
        Edit::Remove | Edit::Change => false,
    }
}

// Whether the edit can be made at a place of a leaf.
fn is_here<K: RecKind>(block: &Block, at: usize, how: Edit, rec: &K::Rec) -> bool
    requires room { numrecs block.now.bytes ≤ leaf_most_of K.form.kind }
    ensures { result ≡ true → IsHere K.form how rec.now (record_in K.form block.now.bytes) (numrecs block.now.bytes) at }
{
    if at >= usize::from(count_of(block)) {
        return is_insert(how);
    }
    let other = K::record_at(data_area(block), at);
    match how {
        Edit::Insert => !does_have_key::<K>(rec, &other),
        Edit::Remove => is_that::<K>(rec, &other),
        Edit::Change => does_have_key::<K>(rec, &other),
    }
}

// How many records so many are after the edit.
fn many(how: Edit, count: u16) -> usize
    ensures { result ≡ many_after how count }
{
    match how {
        Edit::Insert => usize::from(count) + 1,
        Edit::Remove => usize::from(count).saturating_sub(1),
        Edit::Change => usize::from(count),
    }
}

// Whether the new leaf has so many records.
fn is_many(old: &Block, new: &Block, how: Edit) -> bool
    ensures { result ≡ true → numrecs new.now.bytes ≡ many_after how (numrecs old.now.bytes) }
{
    usize::from(count_of(new)) == many(how, count_of(old))
}

// Record `i` of a leaf once the record is put in.
fn put_at<K: RecKind>(block: &Block, at: usize, rec: &K::Rec, i: usize) -> K::Rec
    requires room { numrecs block.now.bytes ≤ leaf_most_of K.form.kind }
    requires within { at ≤ numrecs block.now.bytes }
    requires inside { i < numrecs block.now.bytes + 1 }
    ensures { result ≡ item_at (record_in K.form block.now.bytes) (cut_for K.form Edit.Insert rec.now at) i }
{
    if i < at {
        return K::record_at(data_area(block), i);
    }
    if i == at {
        return *rec;
    }
    K::record_at(data_area(block), i - 1)
}

// Record `i` of a leaf once the one at this place is taken out.
fn left_at<K: RecKind>(block: &Block, at: usize, rec: &K::Rec, i: usize) -> K::Rec
    requires room { numrecs block.now.bytes ≤ leaf_most_of K.form.kind }
    requires within { at ≤ numrecs block.now.bytes }
    requires inside { i + 1 < numrecs block.now.bytes }
    ensures { result ≡ item_at (record_in K.form block.now.bytes) (cut_for K.form Edit.Remove rec.now at) i }
{
    let _same = rec;
    if i < at {
        return K::record_at(data_area(block), i);
    }
    K::record_at(data_area(block), i + 1)
}

// Record `i` of a leaf once the one at this place is changed.
fn changed_at<K: RecKind>(block: &Block, at: usize, rec: &K::Rec, i: usize) -> K::Rec
    requires room { numrecs block.now.bytes ≤ leaf_most_of K.form.kind }
    requires inside { i < numrecs block.now.bytes }
    ensures { result ≡ item_at (record_in K.form block.now.bytes) (cut_for K.form Edit.Change rec.now at) i }
{
    if i == at {
        return *rec;
    }
    K::record_at(data_area(block), i)
}

// Record `i` of the edited leaf.
fn edited_at<K: RecKind>(block: &Block, at: usize, how: Edit, rec: &K::Rec, i: usize) -> K::Rec
    requires room { numrecs block.now.bytes ≤ leaf_most_of K.form.kind }
    requires within { at ≤ numrecs block.now.bytes }
    requires inside { i < many_after how (numrecs block.now.bytes) }
    ensures { result ≡ item_at (record_in K.form block.now.bytes) (cut_for K.form how rec.now at) i }
{
    match how {
        Edit::Insert => put_at::<K>(block, at, rec, i),
        Edit::Remove => left_at::<K>(block, at, rec, i),
        Edit::Change => changed_at::<K>(block, at, rec, i),
    }
}

// Whether the new leaf has these records.
fn has_records<K: RecKind>(old: &Block, new: &Block, at: usize, how: Edit, rec: &K::Rec) -> bool
    requires room { numrecs old.now.bytes ≤ leaf_most_of K.form.kind }
    requires new_room { numrecs new.now.bytes ≤ leaf_most_of K.form.kind }
    requires within { at ≤ numrecs old.now.bytes }
    requires count { numrecs new.now.bytes ≡ many_after how (numrecs old.now.bytes) }
    ensures { result ≡ true → (k : ℕ) → k < numrecs new.now.bytes → record_in K.form new.now.bytes k ≡ item_at (record_in K.form old.now.bytes) (cut_for K.form how rec.now at) k }
{
    for i in 0..usize::from(count_of(new)) {
        let found = K::record_at(data_area(new), i);
        if !K::is_same(&found, &edited_at::<K>(old, at, how, rec, i)) {
            return false;
        }
    }
    true
}

/// Whether the new leaf has the records of the old one with the edit at its place
/// (XFS Algorithms and Data Structures, "Short Format B+trees").
pub fn is_leaf<K: RecKind>(old: &Block, new: &Block, ask: &Ask<K::Rec>) -> bool
    requires room { numrecs old.now.bytes ≤ leaf_most_of K.form.kind }
    requires rising { is_rising K.form true (area_of old.now.bytes) (numrecs old.now.bytes) ≡ true }
    requires new_room { numrecs new.now.bytes ≤ leaf_most_of K.form.kind }
    ensures { result ≡ true → HasEdit K.form ask.now.how ask.now.rec old.now.bytes new.now.bytes }
{
    let at = place_in::<K>(old, &ask.rec);
    if !is_front::<K>(old, at, &ask.rec) || !is_back::<K>(old, at, &ask.rec) {
        return false;
    }
    if !is_here::<K>(old, at, ask.how, &ask.rec) {
        return false;
    }
    if !is_many(old, new, ask.how) {
        return false;
    }
    has_records::<K>(old, new, at, ask.how, &ask.rec)
}
