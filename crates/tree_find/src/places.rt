ghost use Rattle.std.specs.Prelude.{◌≡◌, ◌≤◌, ◌<◌, true, false, length, if◌then◌else◌, IfOk, IfErr};
ghost use Rattle.sblock.specs.Area.{area_of};
ghost use Rattle.sblock.specs.Blocks.{numrecs, key_in, is_rising, records_of};
ghost use Rattle.sblock.specs.Kinds.{leaf_most_of, node_most_of};
ghost use Rattle.tree_find.specs.Places.{is_reached, place_behind, child_for};
ghost use Rattle.tree_blocks.specs.Meets.{IsMemory};
ghost use Rattle.tree_find.specs.Find.{record_with};
ghost use Rattle.tree_find.specs.Next.{place_above, records_above, start_of};

use byte_fields::Block;
use sblock::{RecKind, child_at, count_of, data_area};
use std::alloc::Global;
use tree_blocks::WalkFault;

// Whether the key of record or entry `i` isn't after this one.
#[tactic(auto, unfolding(crate::specs::Places::is_reached, sblock::specs::Blocks::key_in))]
fn does_reach<K: RecKind>(area: &[u8], leaf: bool, key: &K::Key, i: usize) -> bool
    requires whole { length area.now ≡ 4040 }
    requires room { i < (if leaf then leaf_most_of K.form.kind else node_most_of K.form.kind) }
    ensures { result ≡ is_reached K.form key.now leaf area.now i }
{
    let other = if leaf {
        K::key_of(&K::record_at(area, i))
    } else {
        K::key_at(area, i)
    };
    !K::is_before(key, &other)
}

/// How many of the first `n` records of a leaf, or entries of a node, have a key that isn't after
/// this one; their keys rise (XFS Algorithms and Data Structures, "Short Format B+trees").
pub fn place_of<K: RecKind>(area: &[u8], leaf: bool, n: u16, key: &K::Key) -> usize
    requires whole { length area.now ≡ 4040 }
    requires room { n ≤ (if leaf then leaf_most_of K.form.kind else node_most_of K.form.kind) }
    requires rising { is_rising K.form leaf area.now n ≡ true }
    ensures place { result ≡ place_behind K.form key.now leaf area.now n }
    ensures within { result ≤ n }
{
    let mut low = 0;
    let mut high = n as usize;
    'halving: while low < high {
        let middle = low + (high - low) / 2;
        if does_reach::<K>(area, leaf, key, middle) {
            low = middle + 1;
        } else {
            high = middle;
        }
    }
    low
}

/// The child of a node's last entry whose low key isn't after this key.
pub fn child_of_key<K: RecKind>(block: &Block, key: &K::Key) -> Option<u32>
    requires room { numrecs block.now.bytes ≤ node_most_of K.form.kind }
    requires rising { is_rising K.form false (area_of block.now.bytes) (numrecs block.now.bytes) ≡ true }
    ensures { result ≡ child_for K.form key.now block.now.bytes }
{
    let area = data_area(block);
    let place = place_of::<K>(area, false, count_of(block), key);
    if place == 0 {
        return None;
    }
    Some(child_at(K::kind(), area, place - 1))
}

/// The record of a leaf with an equal key.
pub fn record_of_key<K: RecKind>(block: &Block, key: &K::Key) -> Option<K::Rec>
    requires room { numrecs block.now.bytes ≤ leaf_most_of K.form.kind }
    requires rising { is_rising K.form true (area_of block.now.bytes) (numrecs block.now.bytes) ≡ true }
    ensures { result ≡ record_with K.form key.now (records_of K.form block.now.bytes) }
{
    let area = data_area(block);
    let place = place_of::<K>(area, true, count_of(block), key);
    if place == 0 {
        return None;
    }
    let rec = K::record_at(area, place - 1);
    if K::is_before(&K::key_of(&rec), key) {
        return None;
    }
    Some(rec)
}

/// How many of these keys aren't above this one, none where there is no key.
pub fn place_after<K: RecKind>(area: &[u8], leaf: bool, n: u16, after: &Option<K::Key>) -> usize
    requires whole { length area.now ≡ 4040 }
    requires room { n ≤ (if leaf then leaf_most_of K.form.kind else node_most_of K.form.kind) }
    requires rising { is_rising K.form leaf area.now n ≡ true }
    ensures place { result ≡ place_above K.form after.now leaf area.now n }
    ensures within { result ≤ n }
{
    match after {
        None => 0,
        Some(key) => place_of::<K>(area, leaf, n, key),
    }
}

/// The number of a node's last entry whose low key isn't after the key, or else of its first.
#[tactic(auto, unfolding(crate::specs::Next::start_of))]
pub fn start_for<K: RecKind>(block: &Block, after: &Option<K::Key>) -> usize
    requires room { numrecs block.now.bytes ≤ node_most_of K.form.kind }
    requires rising { is_rising K.form false (area_of block.now.bytes) (numrecs block.now.bytes) ≡ true }
    requires some { 1 ≤ numrecs block.now.bytes }
    ensures start { result ≡ start_of K.form after.now block.now.bytes }
    ensures within { result < numrecs block.now.bytes }
{
    let area = data_area(block);
    place_after::<K>(area, false, count_of(block), after).saturating_sub(1)
}

/// The records of a leaf above a key, or all of them. No memory is the one refusal.
pub fn records_after<K: RecKind>(
    alloc: Global,
    block: &Block,
    after: &Option<K::Key>,
) -> Result<Vec<K::Rec>, WalkFault>
    requires room { numrecs block.now.bytes ≤ leaf_most_of K.form.kind }
    requires rising { is_rising K.form true (area_of block.now.bytes) (numrecs block.now.bytes) ≡ true }
    ensures above { IfOk result (λ recs. recs.items ≡ records_above K.form after.now (records_of K.form block.now.bytes)) }
    ensures memory { IfErr result IsMemory }
{
    let area = data_area(block);
    let n = count_of(block);
    let mut recs = Vec::new(alloc);
    for i in place_after::<K>(area, true, n, after)..n as usize {
        recs.push(K::record_at(area, i))?;
    }
    Ok(recs)
}
