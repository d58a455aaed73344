ghost use Rattle.std.specs.Prelude.{◌≡◌, ℕ, ◌<◌, ◌≤◌, ◌+◌, length, get_or};
ghost use Rattle.run_sets.specs.Rest.{EndFrom, IsRest};
ghost use Rattle.run_sets.specs.Runs.{AreMaximal, EndWithin, holds, most};

use crate::run::Run;

/// Blocks up to an end that lie all in a list of runs, or all outside it.
#[derive(Clone, Copy)]
pub struct Stretch {
    pub inside: bool,
    pub end: u32,
}

// How many of the runs begin at the block or before it.
fn begun(runs: &[Run], block: u32) -> usize
    requires maximal { AreMaximal 0 runs.now }
    ensures within { result ≤ length runs.now }
    ensures begun { (k : ℕ) (d : Run) → k < result → (get_or runs.now k d).start ≤ block }
    ensures later { (k : ℕ) (d : Run) → result ≤ k → k < length runs.now → block < (get_or runs.now k d).start }
{
    let mut low = 0;
    let mut high = runs.len();
    while low < high {
        let middle = low + (high - low) / 2;
        if runs[middle].start <= block {
            low = middle + 1;
        } else {
            high = middle;
        }
    }
    low
}

/// Whether the block lies in one of the runs.
pub fn lies_in(runs: &[Run], block: u32) -> bool
    requires maximal { AreMaximal 0 runs.now }
    ensures { result ≡ holds runs.now block }
{
    let index = begun(runs, block);
    if index == 0 {
        return false;
    }
    let run = runs[index - 1];
    block - run.start < run.count
}

/// The stretch from a block on, where the first of the runs ends behind it.
pub fn first_stretch(runs: &[Run], block: u32) -> Stretch
    requires maximal { AreMaximal 0 runs.now }
    requires ends { EndWithin most runs.now }
    requires ahead { EndFrom (block + 1) runs.now }
    requires block { block < most }
    ensures on { block < result.end }
    ensures within { result.end ≤ most }
    ensures first { EndFrom result.end runs.now }
    ensures same { (b : ℕ) → block ≤ b → b < result.end → holds runs.now b ≡ result.inside }
{
    if runs.is_empty() {
        return Stretch {
            inside: false,
            end: u32::MAX,
        };
    }
    let run = runs[0];
    if block < run.start {
        return Stretch {
            inside: false,
            end: run.start,
        };
    }
    Stretch {
        inside: true,
        end: run.start + run.count,
    }
}

/// The runs that end behind a block, where the first of all ends there or behind it.
pub fn rest_behind(runs: &[Run], block: u32) -> &[Run]
    requires maximal { AreMaximal 0 runs.now }
    requires ends { EndWithin most runs.now }
    requires first { EndFrom block runs.now }
    ensures { IsRest runs.now block result.now }
{
    if runs.is_empty() {
        return runs;
    }
    if block < runs[0].start + runs[0].count {
        return runs;
    }
    &runs[1..]
}
