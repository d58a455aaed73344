ghost use Rattle.std.specs.Prelude.{◌≡◌, ◌+◌, ◌-◌, ◌^◌, ◌<◌, ℕ, true, All, IfOk, IfSome, find};
ghost use Rattle.rmap_recs.specs.declared.tuples.Tuple.{Tuple as GhostTuple};
ghost use Rattle.rmap_recs.specs.Rmap.{has_end};
ghost use Rattle.rmap_recs.specs.Words.{word_goes_on};
ghost use Rattle.rmap_recs.specs.Runs.{AreTuples, HaveNext, AreRuns, goes_on, tuple_key, is_tuple_before, is_same as is_same_of, has, begins_run as begins_run_of, followers as followers_of, run_from as run_from_of, runs_of};

use crate::kind::RmapKind;
use crate::records::{Key, RmapRec};
use crate::words::{OFFSETS, is_fork_data};
use sblock::RecKind;
use std::alloc::{AllocError, Global};
use thiserror::Error;

/// One block of the group that belongs to an owner: a reverse mapping of a single block, with the
/// owner's number and the offset word of a record.
#[derive(Clone, Copy, Debug, PartialEq, Eq)]
pub struct Tuple {
    pub block: u32,
    pub owner: u64,
    pub word: u64,
}

/// There was no memory for the answer.
#[derive(Clone, Copy, Debug, PartialEq, Eq, Error)]
#[error("memory")]
pub struct Memory;

impl From<AllocError> for Memory {
    ghost from_gives = { λ _ e. e ≡ record {} };

    fn from(_: AllocError) -> Self {
        Memory
    }
}

// What a tuple is ordered by.
fn key_of(tuple: &Tuple) -> Key
    ensures { result ≡ tuple_key tuple.now }
{
    Key {
        start: tuple.block,
        owner: tuple.owner,
        word: tuple.word,
    }
}

fn is_before(tuple: &Tuple, other: &Tuple) -> bool
    ensures { result ≡ is_tuple_before tuple.now other.now }
{
    RmapKind::is_before(&key_of(tuple), &key_of(other))
}

fn is_same(tuple: &Tuple, other: &Tuple) -> bool
    ensures { result ≡ is_same_of tuple.now other.now }
{
    tuple.block == other.block && tuple.owner == other.owner && tuple.word == other.word
}

// Whether the tuple is one of these, by a binary search.
fn is_among(tuples: &[Tuple], tuple: &Tuple) -> bool
    requires { AreTuples tuples.now }
    ensures { result ≡ has tuples.now tuple.now }
{
    let place = tuples.partition_point(|other| is_before(other, tuple));
    place < tuples.len() && is_same(tuple, &tuples[place])
}

// The offset word that goes on behind this one.
#[tactic(auto, using(crate::proofs::WordLemmas::next_goes, crate::proofs::WordLemmas::only_next, crate::proofs::WordLemmas::same_goes, crate::proofs::WordLemmas::only_same, crate::proofs::WordLemmas::none_next))]
fn word_behind(owner: u64, word: u64) -> Option<u64>
    ensures behind { IfSome result (λ next. word_goes_on owner word 1 next ≡ true) }
    ensures only { (next : ℕ) → word_goes_on owner word 1 next ≡ true → result ≡ Some next }
{
    if !is_fork_data(owner, word) {
        return Some(word);
    }
    if word % OFFSETS + 1 == OFFSETS {
        return None;
    }
    Some(word + 1)
}

// The offset word that goes on to this one.
#[tactic(auto, using(crate::proofs::WordLemmas::before_goes, crate::proofs::WordLemmas::only_before, crate::proofs::WordLemmas::same_goes, crate::proofs::WordLemmas::only_same_before, crate::proofs::WordLemmas::none_before))]
fn word_before(owner: u64, word: u64) -> Option<u64>
    ensures before { IfSome result (λ earlier. word_goes_on owner earlier 1 word ≡ true) }
    ensures only { (earlier : ℕ) → word_goes_on owner earlier 1 word ≡ true → result ≡ Some earlier }
{
    if !is_fork_data(owner, word) {
        return Some(word);
    }
    if word % OFFSETS == 0 {
        return None;
    }
    Some(word - 1)
}

// The tuple that goes on behind this one, whether it is there or not.
fn tuple_behind(tuple: &Tuple) -> Option<Tuple>
    requires { tuple.now.block < 2 ^ 32 - 1 }
    ensures behind { IfSome result (λ next. goes_on tuple.now next ≡ true) }
    ensures only { (next : GhostTuple) → goes_on tuple.now next ≡ true → result ≡ Some next }
{
    let word = word_behind(tuple.owner, tuple.word)?;
    Some(Tuple {
        block: tuple.block + 1,
        owner: tuple.owner,
        word,
    })
}

// The tuple that goes on to this one, whether it is there or not.
fn tuple_before(tuple: &Tuple) -> Option<Tuple>
    ensures before { IfSome result (λ earlier. goes_on earlier tuple.now ≡ true) }
    ensures only { (earlier : GhostTuple) → goes_on earlier tuple.now ≡ true → result ≡ Some earlier }
{
    let word = word_before(tuple.owner, tuple.word)?;
    if tuple.block == 0 {
        return None;
    }
    Some(Tuple {
        block: tuple.block - 1,
        owner: tuple.owner,
        word,
    })
}

// The one of these tuples that goes on behind this one.
fn follower(tuples: &[Tuple], tuple: &Tuple) -> Option<Tuple>
    requires sorted { AreTuples tuples.now }
    requires blocks { HaveNext tuples.now }
    requires room { tuple.now.block < 2 ^ 32 - 1 }
    ensures value { result ≡ find (goes_on tuple.now) tuples.now }
    ensures next { IfSome result (λ next. (next.block ≡ tuple.now.block + 1) × (next.block < 2 ^ 32 - 1)) }
{
    let behind = tuple_behind(tuple)?;
    if is_among(tuples, &behind) {
        return Some(behind);
    }
    None
}

// Whether none of these tuples goes on to this one.
fn begins_run(tuples: &[Tuple], tuple: &Tuple) -> bool
    requires { AreTuples tuples.now }
    ensures { result ≡ begins_run_of tuples.now tuple.now }
{
    match tuple_before(tuple) {
        Some(before) => !is_among(tuples, &before),
        None => true,
    }
}

// How many of these tuples follow on this one, one on the other.
fn count_followers(tuples: &[Tuple], tuple: &Tuple) -> u32
    requires sorted { AreTuples tuples.now }
    requires blocks { HaveNext tuples.now }
    requires room { tuple.now.block < 2 ^ 32 - 1 }
    ensures count { result ≡ followers_of (2 ^ 32 - tuple.now.block) tuples.now tuple.now }
    ensures end { tuple.now.block + result < 2 ^ 32 - 1 }
{
    let mut last = *tuple;
    let mut count = 0;
    while let Some(next) = follower(tuples, &last) {
        last = next;
        count += 1;
    }
    count
}

// The run that begins with this tuple.
fn run_from(tuples: &[Tuple], tuple: &Tuple) -> RmapRec
    requires sorted { AreTuples tuples.now }
    requires blocks { HaveNext tuples.now }
    requires room { tuple.now.block < 2 ^ 32 - 1 }
    ensures { result ≡ run_from_of tuples.now tuple.now }
{
    RmapRec {
        start: tuple.block,
        count: 1 + count_followers(tuples, tuple),
        owner: tuple.owner,
        word: tuple.word,
    }
}

fn find_runs(alloc: Global, tuples: &[Tuple]) -> Result<Vec<RmapRec>, AllocError>
    requires sorted { AreTuples tuples.now }
    requires blocks { HaveNext tuples.now }
    ensures { IfOk result (λ runs. runs.items ≡ runs_of tuples.now) }
{
    let mut runs = Vec::new(alloc);
    for tuple in tuples {
        if begins_run(tuples, tuple) {
            runs.push(run_from(tuples, tuple))?;
        }
    }
    Ok(runs)
}

/// The maximal runs of these tuples: consecutive blocks with the same owner and flags, and for
/// blocks that a fork maps at consecutive offsets, in the order of reverse mappings. The tuples
/// rise in that order, and none is at the greatest block number. Each run has a high key. It costs two binary searches
/// for each tuple (XFS Online Fsck Design, "Case Study: Rebuilding Reverse Mapping Records").
pub fn runs(alloc: Global, tuples: &[Tuple]) -> Result<Vec<RmapRec>, Memory>
    requires sorted { AreTuples tuples.now }
    requires blocks { HaveNext tuples.now }
    ensures value { IfOk result (λ runs. runs.items ≡ runs_of tuples.now) }
    ensures exact { IfOk result (λ runs. AreRuns tuples.now runs.items) }
    ensures ends { IfOk result (λ runs. All (λ r. has_end r ≡ true) runs.items) }
{
    Ok(find_runs(alloc, tuples)?)
}
