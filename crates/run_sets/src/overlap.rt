ghost use Rattle.std.specs.Prelude.{◌≡◌, ℕ, ◌<◌, ◌≤◌, IfOk, length, slice_index};
ghost use Rattle.std.specs.List.{All};
ghost use Rattle.std.specs.List.Sorted.{IsNonDecreasing};
ghost use Rattle.run_sets.specs.Runs.{IsRun, most};
ghost use Rattle.run_sets.specs.Stretches.{AllRuns, ArePassed, AreStretchesBelow, at_least, begun, counted, ended, open_at, stretches, up_to};

use crate::run::{Memory, Run};
use std::alloc::{AllocError, Global};

// How many numbers are at most some block, and up to which block they are as many.
#[derive(Clone, Copy)]
struct Passed {
    count: usize,
    end: u32,
}

// In how many runs some block lies, up to which block they are as many, and how many have begun
// and ended by then.
#[derive(Clone, Copy)]
struct Level {
    count: u32,
    end: u32,
    begun: usize,
    ended: usize,
}

// How many of the numbers are at most the block, the first `from` of them being so.
fn count_up_to(numbers: &[u32], from: usize, block: u32) -> usize
    requires { ArePassed numbers.now from block }
    ensures passed { ArePassed numbers.now result block }
    ensures later { result < length numbers.now → block < slice_index numbers.now result }
{
    let mut count = from;
    while count < numbers.len() && numbers[count] <= block {
        count += 1;
    }
    count
}

// The same, and up to which block they are as many.
fn passed_at(numbers: &[u32], from: usize, block: u32) -> Passed
    requires sorted { IsNonDecreasing numbers.now }
    requires passed { ArePassed numbers.now from block }
    requires block { block < most }
    ensures on { block < result.end }
    ensures within { result.end ≤ most }
    ensures same { (b : ℕ) → block ≤ b → b < result.end → up_to numbers.now b ≡ result.count }
    ensures passed { ArePassed numbers.now result.count block }
{
    let count = count_up_to(numbers, from, block);
    let end = if count < numbers.len() {
        numbers[count]
    } else {
        u32::MAX
    };
    Passed { count, end }
}

// In how many runs with these starts and ends the block lies. So many of them, at least, have
// begun and ended by then: the search goes on from there.
fn level_at(starts: &[u32], ends: &[u32], begun: usize, ended: usize, block: u32) -> Level
    requires starts { IsNonDecreasing starts.now }
    requires ends { IsNonDecreasing ends.now }
    requires block { block < most }
    requires order { up_to ends.now block ≤ up_to starts.now block }
    requires begun { ArePassed starts.now begun block }
    requires ended { ArePassed ends.now ended block }
    ensures on { block < result.end }
    ensures within { result.end ≤ most }
    ensures same { (b : ℕ) → block ≤ b → b < result.end → open_at starts.now ends.now b ≡ result.count }
    ensures begun { ArePassed starts.now result.begun block }
    ensures ended { ArePassed ends.now result.ended block }
{
    let begun = passed_at(starts, begun, block);
    let ended = passed_at(ends, ended, block);
    Level {
        count: (begun.count - ended.count).min(0xffff_ffff) as u32,
        end: begun.end.min(ended.end),
        begun: begun.count,
        ended: ended.count,
    }
}

// Where the runs begin, in ascending order.
fn sorted_starts(alloc: Global, runs: &[Run]) -> Result<Vec<u32>, AllocError>
    ensures sorted { IfOk result (λ starts. IsNonDecreasing starts.items) }
    ensures exact { IfOk result (λ starts. (b : ℕ) → up_to starts.items b ≡ begun runs.now b) }
{
    let mut starts = Vec::new(alloc);
    for run in runs {
        starts.push(run.start)?;
    }
    starts.sort()?;
    Ok(starts)
}

// Where the runs end, in ascending order.
fn sorted_ends(alloc: Global, runs: &[Run]) -> Result<Vec<u32>, AllocError>
    requires runs { All IsRun runs.now }
    ensures sorted { IfOk result (λ ends. IsNonDecreasing ends.items) }
    ensures exact { IfOk result (λ ends. (b : ℕ) → up_to ends.items b ≡ ended runs.now b) }
{
    let mut ends = Vec::new(alloc);
    for run in runs {
        ends.push(run.start + run.count)?;
    }
    ends.sort()?;
    Ok(ends)
}

// The maximal runs of blocks with equal levels of at least `least`.
fn levels(
    alloc: Global,
    starts: &[u32],
    ends: &[u32],
    least: u32,
) -> Result<Vec<(Run, u32)>, AllocError>
    requires starts { IsNonDecreasing starts.now }
    requires ends { IsNonDecreasing ends.now }
    requires order { (b : ℕ) → up_to ends.now b ≤ up_to starts.now b }
    requires least { 0 < least }
    ensures exact { IfOk result (λ found. found.items ≡ stretches (open_at starts.now ends.now) least most) }
{
    let mut found = Vec::new(alloc);
    let mut start = 0;
    let mut count = 0;
    let mut at = 0;
    let mut begun = 0;
    let mut ended = 0;
    while at < u32::MAX {
        let level = level_at(starts, ends, begun, ended, at);
        begun = level.begun;
        ended = level.ended;
        if level.count != count {
            if count >= least {
                let run = Run {
                    start,
                    count: at - start,
                };
                found.push((run, count))?;
            }
            start = at;
            count = level.count;
        }
        at = level.end;
    }
    if count >= least {
        let run = Run {
            start,
            count: u32::MAX - start,
        };
        found.push((run, count))?;
    }
    Ok(found)
}

/// The maximal runs of blocks that the same number n (at least `least`) of the given runs cover,
/// with n, in the order of their blocks. A number above 4,294,967,295 counts as that one. Beside
/// two sorts it takes one walk along where the runs begin and end
/// (XFS Online Fsck Design, "Case Study: Rebuilding the Space Reference Counts").
pub fn overlaps(alloc: Global, runs: &[Run], least: u32) -> Result<Vec<(Run, u32)>, Memory>
    requires runs { All IsRun runs.now }
    requires least { 0 < least }
    ensures value { IfOk result (λ found. found.items ≡ stretches (counted runs.now) least most) }
    ensures exact { IfOk result (λ found. AreStretchesBelow (at_least least (counted runs.now)) most found.items) }
    ensures runs { IfOk result (λ found. AllRuns found.items) }
{
    let starts = sorted_starts(alloc, runs)?;
    let ends = sorted_ends(alloc, runs)?;
    let found = levels(alloc, starts.as_slice(), ends.as_slice(), least)?;
    Ok(found)
}
