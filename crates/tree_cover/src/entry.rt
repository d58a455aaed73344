ghost use Rattle.std.specs.Prelude.{◌≡◌, ◌+◌, ◌-◌, ◌<◌, ◌≤◌, true, length, IfSome};
ghost use Rattle.sblock.specs.Kinds.{node_most_of};
ghost use Rattle.sblock.specs.Lists.{items_from};
ghost use Rattle.tree_defs.specs.Tree.{entry_at};
ghost use Rattle.tree_cover.specs.Found.{IsChild};
ghost use Rattle.tree_cover.specs.Covering.{next_begins_behind as next_begins_behind_of, is_next_above as is_next_above_of, may_reach as may_reach_of, may_hold as may_hold_of, first_in, choice_in};

use crate::leaf::{Asked, ends_behind, is_above};
use run_sets::Run;
use sblock::{RecKind, child_at};

// Whether the entries end before number `i`, or that one begins behind the run's first block.
#[tactic(auto, using(crate::proofs::ItemLemmas::no_more_items, crate::proofs::ItemLemmas::more_items), unfolding(crate::specs::Covering::next_begins_behind))]
fn next_begins_behind<K: RecKind>(area: &[u8], i: u16, n: u16, run: &Run) -> bool
    requires whole { length area.now ≡ 4040 }
    requires room { n ≤ node_most_of K.form.kind }
    requires within { i ≤ n }
    ensures { result ≡ next_begins_behind_of K.form run.now (items_from (entry_at K.form area.now) (n - i) i) }
{
    if i >= n {
        return true;
    }
    run.start < K::block_of(&K::key_at(area, i as usize))
}

// Whether the entries end before number `i`, or that one begins above the key.
#[tactic(auto, using(crate::proofs::ItemLemmas::no_more_items, crate::proofs::ItemLemmas::more_items), unfolding(crate::specs::Covering::is_next_above))]
fn is_next_above<K: RecKind>(area: &[u8], i: u16, n: u16, after: &Option<K::Key>) -> bool
    requires whole { length area.now ≡ 4040 }
    requires room { n ≤ node_most_of K.form.kind }
    requires within { i ≤ n }
    ensures { result ≡ is_next_above_of K.form after.now (items_from (entry_at K.form area.now) (n - i) i) }
{
    if i >= n {
        return true;
    }
    is_above::<K>(after, &K::key_at(area, i as usize))
}

// Whether entry `i` may have a record below that ends behind the run's first block, or is the last
// one to begin there or before it.
#[tactic(auto, unfolding(crate::specs::Covering::may_reach))]
fn may_reach<K: RecKind>(area: &[u8], i: u16, n: u16, run: &Run) -> bool
    requires whole { length area.now ≡ 4040 }
    requires room { n ≤ node_most_of K.form.kind }
    requires within { i < n }
    ensures { result ≡ may_reach_of K.form run.now (entry_at K.form area.now i) (items_from (entry_at K.form area.now) (n - (i + 1)) (i + 1)) }
{
    if K::kind().has_high_keys() {
        return run.start <= K::block_of(&K::high_key_at(area, i as usize));
    }
    next_begins_behind::<K>(area, i + 1, n, run)
}

// Whether entry `i` may hold the record that is asked for.
#[tactic(auto, unfolding(crate::specs::Covering::may_hold))]
fn may_hold<K: RecKind>(area: &[u8], i: u16, n: u16, asked: &Asked<K::Key>) -> bool
    requires whole { length area.now ≡ 4040 }
    requires room { n ≤ node_most_of K.form.kind }
    requires within { i < n }
    ensures { result ≡ may_hold_of K.form asked.now.run asked.now.after (entry_at K.form area.now i) (items_from (entry_at K.form area.now) (n - (i + 1)) (i + 1)) }
{
    ends_behind(&asked.run, K::block_of(&K::key_at(area, i as usize)))
        && may_reach::<K>(area, i, n, &asked.run)
        && is_next_above::<K>(area, i + 1, n, &asked.after)
}

/// Two blocks below a node: that of the first entry that may hold the record that is asked for,
/// and that of the next such one.
#[derive(Clone, Copy)]
pub struct Choice {
    pub first: u32,
    pub next: Option<u32>,
}

// The first entry, from number `from` on, that may hold the record; `n` where none may.
#[tactic(auto, using(crate::proofs::ItemLemmas::first_later, crate::proofs::ItemLemmas::choice_later))]
fn first_entry<K: RecKind>(area: &[u8], from: u16, n: u16, asked: &Asked<K::Key>) -> u16
    requires whole { length area.now ≡ 4040 }
    requires room { n ≤ node_most_of K.form.kind }
    requires within { from ≤ n }
    ensures low { from ≤ result }
    ensures within { result ≤ n }
    ensures here { result < n → may_hold_of K.form asked.now.run asked.now.after (entry_at K.form area.now result) (items_from (entry_at K.form area.now) (n - (result + 1)) (result + 1)) ≡ true }
    ensures first { first_in K.form asked.now.run asked.now.after (items_from (entry_at K.form area.now) (n - from) from) ≡ first_in K.form asked.now.run asked.now.after (items_from (entry_at K.form area.now) (n - result) result) }
    ensures choice { choice_in K.form asked.now.run asked.now.after (items_from (entry_at K.form area.now) (n - from) from) ≡ choice_in K.form asked.now.run asked.now.after (items_from (entry_at K.form area.now) (n - result) result) }
{
    for i in from..n {
        if may_hold::<K>(area, i, n, asked) {
            return i;
        }
    }
    n
}

/// The block of the first entry, from number `from` on of a node with `n`, that may hold the record
/// that is asked for.
#[tactic(auto, using(crate::proofs::ItemLemmas::first_here, crate::proofs::ItemLemmas::first_nowhere))]
pub fn first_child<K: RecKind>(area: &[u8], from: u16, n: u16, asked: &Asked<K::Key>) -> Option<u32>
    requires whole { length area.now ≡ 4040 }
    requires room { n ≤ node_most_of K.form.kind }
    requires within { from ≤ n }
    ensures exact { result ≡ first_in K.form asked.now.run asked.now.after (items_from (entry_at K.form area.now) (n - from) from) }
    ensures below { IfSome result (IsChild K.form.kind area.now n) }
{
    let i = first_entry::<K>(area, from, n, asked);
    if i >= n {
        return None;
    }
    Some(child_at(K::kind(), area, i as usize))
}

/// The blocks of the first two entries of a node with `n` of them that may hold the record that is
/// asked for.
#[tactic(auto, using(crate::proofs::ItemLemmas::choice_here, crate::proofs::ItemLemmas::choice_nowhere))]
pub fn choose<K: RecKind>(area: &[u8], n: u16, asked: &Asked<K::Key>) -> Option<Choice>
    requires whole { length area.now ≡ 4040 }
    requires room { n ≤ node_most_of K.form.kind }
    ensures exact { result ≡ choice_in K.form asked.now.run asked.now.after (items_from (entry_at K.form area.now) n 0) }
    ensures below { IfSome result (λ c. IsChild K.form.kind area.now n c.first) }
    ensures next { IfSome result (λ c. IfSome c.next (IsChild K.form.kind area.now n)) }
{
    let i = first_entry::<K>(area, 0, n, asked);
    if i >= n {
        return None;
    }
    let first = child_at(K::kind(), area, i as usize);
    let next = first_child::<K>(area, i + 1, n, asked);
    Some(Choice { first, next })
}
