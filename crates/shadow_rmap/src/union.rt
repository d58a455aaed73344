ghost use Rattle.std.specs.Prelude.{◌≡◌, ◌<◌, ◌≤◌, ◌+◌, ◌^◌, All, List, OnErr, OnOk, true, filter, is_ok, not, if◌then◌else◌};
ghost use Rattle.std.specs.Vec.{vec_capacity, vec_len};
ghost use Rattle.rmap_recs.specs.Runs.{AreRuns};
ghost use Rattle.rmap_recs.specs.declared.tuples.Tuple.{Tuple};
ghost use Rattle.run_edits.specs.EditLaws.{AreUntied};
ghost use Rattle.run_edits.specs.Edits.{AreSorted, HasRoom, give_run, holds};
ghost use Rattle.shadow_rmap.specs.Union.{AreLeft, AreUnion, is_along as is_along_of, meets as meets_of, wider as wider_of, widened as widened_of, hull as hull_of, hull_from, apart, add_run, give_front as front_given, give_back as back_given, remove_run};

use rmap_recs::{RmapRec, does_word_go_on};
use run_edits::{back_of, front_of, give};
use std::alloc::AllocError;

// Whether the second begins in the first, with its owner and flags and at the offset that comes there.
fn is_along(first: &RmapRec, later: &RmapRec) -> bool
    requires { first.now.start ≤ later.now.start }
    ensures { result ≡ is_along_of first.now later.now }
{
    u64::from(later.start) < u64::from(first.start) + u64::from(first.count)
        && later.owner == first.owner
        && does_word_go_on(
            first.owner,
            first.word,
            later.start - first.start,
            later.word,
        )
}

// Whether the two have a common tuple.
fn meets(one: &RmapRec, other: &RmapRec) -> bool
    ensures { result ≡ meets_of one.now other.now }
{
    if one.start <= other.start {
        is_along(one, other)
    } else {
        is_along(other, one)
    }
}

// The first record, as far as the later of the two ends.
fn wider(first: &RmapRec, later: &RmapRec) -> RmapRec
    requires starts { first.now.start ≤ later.now.start }
    requires first { first.now.start + first.now.count < 2 ^ 32 }
    requires later { later.now.start + later.now.count < 2 ^ 32 }
    ensures value { result ≡ wider_of first.now later.now }
    ensures end { result.start + result.count < 2 ^ 32 }
{
    let end = later.start + later.count;
    let count = if first.start + first.count < end {
        end - first.start
    } else {
        first.count
    };
    RmapRec {
        start: first.start,
        count,
        owner: first.owner,
        word: first.word,
    }
}

// Two records that have a common tuple, as one.
fn widened(one: &RmapRec, other: &RmapRec) -> RmapRec
    requires one { one.now.start + one.now.count < 2 ^ 32 }
    requires other { other.now.start + other.now.count < 2 ^ 32 }
    ensures value { result ≡ widened_of one.now other.now }
    ensures end { result.start + result.count < 2 ^ 32 }
{
    if one.start <= other.start {
        wider(one, other)
    } else {
        wider(other, one)
    }
}

// The record with all runs of the list that have a tuple of it.
#[tactic(auto, unfolding(crate::specs::Union::hull_from))]
fn hull(list: &[RmapRec], rec: &RmapRec) -> RmapRec
    requires records { All HasRoom list.now }
    requires rec { HasRoom rec.now }
    ensures value { result ≡ hull_of rec.now list.now }
    ensures room { HasRoom result }
    ensures held { holds result rec.now ≡ true }
{
    let mut whole = *rec;
    let mut rest = list;
    while let Some((first, later)) = rest.split_first() {
        if meets(first, rec) {
            whole = widened(&whole, first);
        }
        rest = later;
    }
    whole
}

// Leaves out the runs that have a tuple of the record.
fn leave_apart(list: &mut Vec<RmapRec>, rec: &RmapRec)
    ensures items { list.new.items ≡ apart rec.now list.old.items }
    ensures len { vec_len list.new ≤ vec_len list.old }
    ensures capacity { vec_capacity list.new ≡ vec_capacity list.old }
{
    list.retain(|run| !meets(run, rec));
}

// Gives a run to a list that has room for it.
fn put(list: &mut Vec<RmapRec>, run: &RmapRec)
    requires sorted { AreSorted list.old.items }
    requires records { All HasRoom list.old.items }
    requires run { HasRoom run.now }
    requires room { vec_len list.old < vec_capacity list.old }
    ensures sorted { AreSorted list.new.items }
    ensures records { All HasRoom list.new.items }
    ensures items { list.new.items ≡ give_run run.now list.old.items }
    ensures len { vec_len list.new ≤ vec_len list.old + 1 }
    ensures capacity { vec_capacity list.old ≤ vec_capacity list.new }
{
    let _ = give(list, run);
}

// Gives what of the hull lies before the record.
fn put_front(list: &mut Vec<RmapRec>, whole: &RmapRec, rec: &RmapRec)
    requires sorted { AreSorted list.old.items }
    requires records { All HasRoom list.old.items }
    requires whole { HasRoom whole.now }
    requires rec { HasRoom rec.now }
    requires held { holds whole.now rec.now ≡ true }
    requires room { vec_len list.old < vec_capacity list.old }
    ensures sorted { AreSorted list.new.items }
    ensures records { All HasRoom list.new.items }
    ensures items { list.new.items ≡ front_given whole.now rec.now list.old.items }
    ensures len { vec_len list.new ≤ vec_len list.old + 1 }
    ensures capacity { vec_capacity list.old ≤ vec_capacity list.new }
{
    if whole.start < rec.start {
        put(list, &front_of(whole, rec));
    }
}

// And what lies behind it.
fn put_back(list: &mut Vec<RmapRec>, whole: &RmapRec, rec: &RmapRec)
    requires sorted { AreSorted list.old.items }
    requires records { All HasRoom list.old.items }
    requires whole { HasRoom whole.now }
    requires rec { HasRoom rec.now }
    requires held { holds whole.now rec.now ≡ true }
    requires room { vec_len list.old < vec_capacity list.old }
    ensures sorted { AreSorted list.new.items }
    ensures records { All HasRoom list.new.items }
    ensures items { list.new.items ≡ back_given whole.now rec.now list.old.items }
    ensures capacity { vec_capacity list.old ≤ vec_capacity list.new }
{
    if rec.start + rec.count < whole.start + whole.count {
        put(list, &back_of(whole, rec));
    }
}

/// Puts a record to maximal runs, whatever of it is there; without memory they stay.
pub fn add(list: &mut Vec<RmapRec>, rec: &RmapRec) -> Result<(), AllocError>
    requires sorted { AreSorted list.old.items }
    requires records { All HasRoom list.old.items }
    requires rec { HasRoom rec.now }
    ensures sorted { AreSorted list.new.items }
    ensures records { All HasRoom list.new.items }
    ensures items { list.new.items ≡ (if is_ok result then add_run rec.now list.old.items else list.old.items) }
    ensures len { vec_len list.new ≤ vec_len list.old + 1 }
    ensures capacity { vec_capacity list.old ≤ vec_capacity list.new }
    ensures full { OnErr result (vec_capacity list.old < vec_len list.old + 1) }
    ensures exact { (ts us : List Tuple) → AreUntied us → AreUnion ts us rec.now → AreRuns ts list.old.items → OnOk result (AreRuns us list.new.items) }
{
    let whole = hull(list, rec);
    list.reserve(1)?;
    leave_apart(list, rec);
    put(list, &whole);
    Ok(())
}

/// Takes what is there of a record out of maximal runs; without memory they stay.
pub fn remove(list: &mut Vec<RmapRec>, rec: &RmapRec) -> Result<(), AllocError>
    requires sorted { AreSorted list.old.items }
    requires records { All HasRoom list.old.items }
    requires rec { HasRoom rec.now }
    ensures sorted { AreSorted list.new.items }
    ensures records { All HasRoom list.new.items }
    ensures items { list.new.items ≡ (if is_ok result then remove_run rec.now list.old.items else list.old.items) }
    ensures len { vec_len list.new ≤ vec_len list.old + 1 }
    ensures capacity { vec_capacity list.old ≤ vec_capacity list.new }
    ensures full { OnErr result (vec_capacity list.old < vec_len list.old + 2) }
    ensures exact { (ts us : List Tuple) → AreUntied us → AreLeft ts us rec.now → AreRuns ts list.old.items → OnOk result (AreRuns us list.new.items) }
{
    let whole = hull(list, rec);
    list.reserve(2)?;
    leave_apart(list, rec);
    put_front(list, &whole, rec);
    put_back(list, &whole, rec);
    Ok(())
}
