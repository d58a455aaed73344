// Whether a node that was made has the old one's entries, with the keys of what was made below it.
ghost use Rattle.std.specs.Prelude.{◌≡◌, ◌<◌, ◌≤◌, ℕ, true, Some};
ghost use Rattle.sblock.specs.Area.{area_of, child_of};
ghost use Rattle.sblock.specs.Blocks.{numrecs};
ghost use Rattle.sblock.specs.Form.{same_key};
ghost use Rattle.sblock.specs.Kinds.{node_most_of};
ghost use Rattle.tree_defs.specs.Tree.{agrees, entry_at};
ghost use Rattle.place_plan.specs.Counts.{most_at};
ghost use Rattle.way_check.specs.Checks.{HasChild, IsCellOver};
ghost use Rattle.way_check.specs.Way.{block_span};

use crate::span::span_of_block;
use byte_fields::Block;
use sblock::{Bounds, RecKind, Span, child_at, count_of, data_area};

// Whether neither key comes before the other.
fn are_equal<K: RecKind>(a: &K::Key, b: &K::Key) -> bool
    ensures { result ≡ same_key K.form a.now b.now }
{
    !K::is_before(a, b) && !K::is_before(b, a)
}

// Whether entry `i` of both nodes leads to one child, with equal keys.
fn is_same_entry<K: RecKind>(old: &Block, new: &Block, i: usize) -> bool
    requires { i < node_most_of K.form.kind }
    ensures child { result ≡ true → child_of K.form.kind (area_of new.now.bytes) i ≡ child_of K.form.kind (area_of old.now.bytes) i }
    ensures low { result ≡ true → same_key K.form (K.form.key_at (area_of new.now.bytes) i) (K.form.key_at (area_of old.now.bytes) i) ≡ true }
    ensures high { result ≡ true → same_key K.form (K.form.high_key_at (area_of new.now.bytes) i) (K.form.high_key_at (area_of old.now.bytes) i) ≡ true }
{
    let (was, is) = (data_area(old), data_area(new));
    if child_at(K::kind(), is, i) != child_at(K::kind(), was, i) {
        return false;
    }
    if !are_equal::<K>(&K::key_at(is, i), &K::key_at(was, i)) {
        return false;
    }
    are_equal::<K>(&K::high_key_at(is, i), &K::high_key_at(was, i))
}

// Whether entry `i` of the new node is the old one's, unless it is at this place.
fn is_cell_over<K: RecKind>(old: &Block, new: &Block, at: usize, i: usize) -> bool
    requires { i < node_most_of K.form.kind }
    ensures { result ≡ true → IsCellOver K.form old.now.bytes new.now.bytes at i }
{
    if i == at {
        return true;
    }
    is_same_entry::<K>(old, new, i)
}

// Whether it is so of all its entries.
fn are_cells_over<K: RecKind>(old: &Block, new: &Block, at: usize) -> bool
    requires { numrecs new.now.bytes ≤ node_most_of K.form.kind }
    ensures { result ≡ true → (k : ℕ) → k < numrecs new.now.bytes → IsCellOver K.form old.now.bytes new.now.bytes at k }
{
    for i in 0..usize::from(count_of(new)) {
        if !is_cell_over::<K>(old, new, at, i) {
            return false;
        }
    }
    true
}

// Whether an entry has these keys, the high one where the kind has it.
fn has_keys<K: RecKind>(block: &Block, at: usize, span: &Span<K::Key>) -> bool
    requires { at < node_most_of K.form.kind }
    ensures { result ≡ agrees K.form (entry_at K.form (area_of block.now.bytes) at) (Some span.now) }
{
    let area = data_area(block);
    are_equal::<K>(&K::key_at(area, at), &span.low)
        && (!K::kind().has_high_keys() || are_equal::<K>(&K::high_key_at(area, at), &span.high))
}

// Whether an entry has the keys of the block below, which is of this level.
fn is_keyed<K: RecKind>(node: &Block, at: usize, below: &Block, level: u8, bounds: &Bounds) -> bool
    requires node { at < node_most_of K.form.kind }
    requires room { numrecs below.now.bytes ≤ most_at K.form.kind level }
    ensures { result ≡ true → agrees K.form (entry_at K.form (area_of node.now.bytes) at) (block_span K.form level below.now.bytes) ≡ true }
{
    match span_of_block::<K>(below, level, bounds) {
        None => false,
        Some(span) => has_keys::<K>(node, at, &span),
    }
}

/// Whether the new node has the old one's entries, but for this one's keys, which are those of the
/// block below, of this level (XFS Algorithms and Data Structures, "Short Format B+trees").
pub fn is_node<K: RecKind>(
    old: &Block,
    new: &Block,
    at: usize,
    below: &Block,
    level: u8,
    bounds: &Bounds,
) -> bool
    requires room { numrecs new.now.bytes ≤ node_most_of K.form.kind }
    requires inside { at < numrecs old.now.bytes }
    requires below { numrecs below.now.bytes ≤ most_at K.form.kind level }
    ensures { result ≡ true → HasChild K.form level old.now.bytes new.now.bytes below.now.bytes at }
{
    if count_of(new) != count_of(old) {
        return false;
    }
    let (was, is) = (data_area(old), data_area(new));
    if child_at(K::kind(), is, at) != child_at(K::kind(), was, at) {
        return false;
    }
    if !are_cells_over::<K>(old, new, at) || !is_keyed::<K>(new, at, below, level, bounds) {
        return false;
    }
    true
}
