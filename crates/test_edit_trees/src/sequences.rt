// Many edits in a row of one tree, chosen by a generator, beside a list that says which records stand.
use super::same::same;
use crate::kinds::{Sample, list_of};
use crate::play::{State, has_numbers, state_of, step};
use ino_recs::FinoKind;
use rmap_recs::RmapKind;
use span_recs::BnoKind;
use std::alloc::Global;
use std::test::Fail;
use tree_edit::{Edit, EditFault};

// How many edits are made of each tree; bench/long_edits.sh makes more.
const EDITS: u32 = 120;

// The next number of the generator "ANSI C", as in the C standard's example of `rand`.
fn next(seed: u32) -> u32 {
    seed.wrapping_mul(1_103_515_245).wrapping_add(12_345)
}

// Whether record `n` stands, and the place where it stands or belongs among the rising numbers.
fn place_of(numbers: &[u32], n: u32) -> (bool, usize) {
    match numbers.binary_search(&n) {
        Ok(place) => (true, place),
        Err(place) => (false, place),
    }
}

// Puts the record in or takes it out, in the tree and in the list of numbers; answers whether the
// tree said what the list says.
fn edit_both<K: Sample>(
    alloc: Global,
    state: &mut State,
    numbers: &mut Vec<u32>,
    how: Edit,
    n: u32,
) -> Result<bool, Fail> {
    let (stands, place) = place_of(numbers, n);
    let answer = step::<K>(alloc, state, how, K::nth(n));
    if how == Edit::Insert {
        if stands || place > numbers.len() {
            return Ok(answer == Err(EditFault::Overlap));
        }
        numbers.insert(place, n)?;
        return Ok(answer == Ok(()));
    }
    if !stands || place >= numbers.len() {
        return Ok(answer == Err(EditFault::Missing));
    }
    let _ = numbers.remove(place);
    Ok(answer == Ok(()))
}

// Whether a tree that begins with so many records and records below twice as many follow the list for
// so many edits, and is read as the list each 20th time.
fn does_follow<K: Sample>(alloc: Global, records: u32, seed: u32) -> Result<bool, Fail> {
    let mut numbers = Vec::new(alloc);
    for i in 0..records {
        numbers.push(i.saturating_mul(2))?;
    }
    let mut state = state_of::<K>(alloc, &list_of::<K>(alloc, &numbers)?, 10)?;
    let mut seed = seed;
    for i in 0..EDITS {
        seed = next(seed);
        let n = (seed >> 8) % (records / 2 + 1).saturating_mul(4);
        let how = if seed >> 31 == 0 {
            Edit::Insert
        } else {
            Edit::Remove
        };
        if !edit_both::<K>(alloc, &mut state, &mut numbers, how, n)? {
            return Ok(false);
        }
        if i % 20 == 19 && !has_numbers::<K>(alloc, &mut state, &numbers)? {
            return Ok(false);
        }
    }
    Ok(has_numbers::<K>(alloc, &mut state, &numbers)?)
}

// Leaves hold 505, 168 and 252 records: the trees pass from one leaf to two and back.
#[test]
fn a_long_sequence_follows_a_sorted_list(rt: HostRuntime) -> Result<(), Fail> {
    let alloc = rt.alloc();
    let found = [
        does_follow::<BnoKind>(alloc, 504, 1)?,
        does_follow::<RmapKind>(alloc, 168, 2)?,
        does_follow::<FinoKind>(alloc, 252, 3)?,
    ];
    same(&rt, found, [true; 3]);
    Ok(())
}
