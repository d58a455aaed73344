ghost use Rattle.std.specs.Prelude.{◌≡◌, ◌+◌, ◌-◌, ◌<◌, ◌≤◌, length};
ghost use Rattle.sblock.specs.Kinds.{leaf_most_of};
ghost use Rattle.sblock.specs.Lists.{items_from};
ghost use Rattle.tree_cover.specs.Covers.{ends_behind as ends_behind_of, is_above as is_above_of, meets as meets_of, begins_behind as begins_behind_of, is_looked_at as is_looked_at_of, is_first_met as is_first_met_of, first_met as first_met_of};

use run_sets::Run;
use sblock::RecKind;

/// What is asked for: the first record above a key, if any, that has a block of the run.
#[derive(Clone, Copy)]
pub struct Asked<Key> {
    pub run: Run,
    pub after: Option<Key>,
}

/// Whether a run of some blocks has one behind this block, or the block itself.
#[tactic(auto, unfolding(crate::specs::Covers::ends_behind))]
pub fn ends_behind(run: &Run, block: u32) -> bool
    ensures { result ≡ ends_behind_of run.now block }
{
    run.count > 0 && u64::from(block) < u64::from(run.start) + u64::from(run.count)
}

/// Whether the key comes behind the one that was given, if any.
#[tactic(auto, unfolding(crate::specs::Covers::is_above))]
pub fn is_above<K: RecKind>(after: &Option<K::Key>, key: &K::Key) -> bool
    ensures { result ≡ is_above_of K.form after.now key.now }
{
    match after {
        None => true,
        Some(a) => K::is_before(a, key),
    }
}

// Whether the record has a block of the run.
#[tactic(auto, unfolding(crate::specs::Covers::meets))]
fn meets<K: RecKind>(run: &Run, rec: &K::Rec) -> bool
    ensures { result ≡ meets_of K.form run.now rec.now }
{
    let start = K::block_of(&K::key_of(rec));
    let len = K::length_of(rec);
    ends_behind(run, start) && len > 0 && u64::from(run.start) < u64::from(start) + u64::from(len)
}

// Whether the leaf's records end before number `i`, or that one begins behind the run's first block.
#[tactic(auto, using(crate::proofs::ItemLemmas::no_more_items, crate::proofs::ItemLemmas::more_items), unfolding(crate::specs::Covers::begins_behind))]
fn begins_behind<K: RecKind>(area: &[u8], i: u16, n: u16, run: &Run) -> bool
    requires whole { length area.now ≡ 4040 }
    requires room { n ≤ leaf_most_of K.form.kind }
    requires within { i ≤ n }
    ensures { result ≡ begins_behind_of K.form run.now (items_from (K.form.record_at area.now) (n - i) i) }
{
    if i >= n {
        return true;
    }
    run.start < K::block_of(&K::key_of(&K::record_at(area, i as usize)))
}

// Whether a record is looked at, where those from number `i` on stand behind it.
#[tactic(auto, unfolding(crate::specs::Covers::is_looked_at))]
fn is_looked_at<K: RecKind>(area: &[u8], i: u16, n: u16, run: &Run) -> bool
    requires whole { length area.now ≡ 4040 }
    requires room { n ≤ leaf_most_of K.form.kind }
    requires within { i ≤ n }
    ensures { result ≡ is_looked_at_of K.form run.now (items_from (K.form.record_at area.now) (n - i) i) }
{
    K::kind().has_high_keys() || begins_behind::<K>(area, i, n, run)
}

// Whether record `i` is above the key, meets the run and is looked at.
#[tactic(auto, unfolding(crate::specs::Covers::is_first_met))]
fn is_first_met<K: RecKind>(area: &[u8], i: u16, n: u16, asked: &Asked<K::Key>) -> bool
    requires whole { length area.now ≡ 4040 }
    requires room { n ≤ leaf_most_of K.form.kind }
    requires within { i < n }
    ensures { result ≡ is_first_met_of K.form asked.now.run asked.now.after (K.form.record_at area.now i) (items_from (K.form.record_at area.now) (n - (i + 1)) (i + 1)) }
{
    let rec = K::record_at(area, i as usize);
    is_above::<K>(&asked.after, &K::key_of(&rec))
        && meets::<K>(&asked.run, &rec)
        && is_looked_at::<K>(area, i + 1, n, &asked.run)
}

/// The record of a leaf with `n` of them that is asked for.
#[tactic(auto, using(crate::proofs::ItemLemmas::met_here, crate::proofs::ItemLemmas::met_later, crate::proofs::ItemLemmas::met_nowhere))]
pub fn first_met<K: RecKind>(area: &[u8], n: u16, asked: &Asked<K::Key>) -> Option<K::Rec>
    requires whole { length area.now ≡ 4040 }
    requires room { n ≤ leaf_most_of K.form.kind }
    ensures { result ≡ first_met_of K.form asked.now.run asked.now.after (items_from (K.form.record_at area.now) n 0) }
{
    for i in 0..n {
        if is_first_met::<K>(area, i, n, asked) {
            return Some(K::record_at(area, i as usize));
        }
    }
    None
}
