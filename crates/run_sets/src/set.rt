ghost use Rattle.std.specs.Prelude.{◌≡◌, true};
ghost use Rattle.run_sets.specs.Runs.{are_maximal};

use crate::run::{Memory, Run};
use crate::stretch::lies_in;
use crate::sweep::{Operation, sweep};
use std::alloc::Global;

/// A set of blocks, kept as its maximal runs in their order, so that equal sets have equal runs.
/// Each block is below 4,294,967,295 (XFS Online Fsck Design, "Disposing of Old Metadata Blocks").
#[derive(Drop)]
pub struct RunSet {
    runs: Vec<Run>,
    ghost maximal: { are_maximal 0 runs.items ≡ true },
}

impl RunSet {
    ghost use Rattle.std.specs.Prelude.{ℕ, false, not, All, ◌<◌, ◌&&◌, ◌||◌, IfOk, OnOk, OnErr, nat_lt};
    ghost use Rattle.run_sets.specs.Runs.{is_within, AreMaximal, AreRunsOf, EndWithin, IsRun, most};
    ghost use Rattle.run_sets.specs.Sets.{has, runs_of};
    ghost use Rattle.run_sets.specs.Operation.{kept};

    /// The empty set.
    pub fn new(alloc: Global) -> Result<Self, Memory>
        ensures empty { IfOk result (λ set. (b : ℕ) → has set b ≡ false) }
    {
        Ok(RunSet {
            runs: Vec::new(alloc),
        })
    }

    /// The maximal runs of the set, in their order.
    pub fn runs(&self) -> &[Run]
        ensures value { result.now ≡ runs_of self.now }
        ensures exact { AreRunsOf (has self.now) result.now }
        ensures runs { All IsRun result.now }
    {
        &self.runs
    }

    /// Whether the block lies in the set.
    pub fn contains(&self, block: u32) -> bool
        ensures exact { result ≡ has self.now block }
    {
        lies_in(self.runs(), block)
    }

    // The blocks below `length` that the operation keeps of the set and of other runs.
    fn combined(
        &self,
        alloc: Global,
        length: u32,
        operation: Operation,
        other: &[Run],
    ) -> Result<Self, Memory>
        requires maximal { AreMaximal 0 other.now }
        requires ends { EndWithin most other.now }
        ensures exact { IfOk result (λ set. (b : ℕ) → has set b ≡ (nat_lt b length && kept operation (runs_of self.now) other.now b)) }
    {
        let runs = sweep(alloc, length, operation, self.runs(), other)?;
        Ok(RunSet { runs })
    }

    /// The blocks below `len` that aren't in the set.
    pub fn complement(&self, alloc: Global, len: u32) -> Result<Self, Memory>
        ensures exact { IfOk result (λ set. (b : ℕ) → has set b ≡ (nat_lt b len && not (has self.now b))) }
    {
        self.combined(alloc, len, Operation::Neither, self.runs())
    }

    /// Puts the blocks of a run into the set.
    pub fn add(&mut self, alloc: Global, run: Run) -> Result<(), Memory>
        requires run { IsRun run }
        ensures exact { OnOk result ((b : ℕ) → has self.new b ≡ (has self.old b || is_within b run)) }
        ensures unchanged { OnErr result (self.new ≡ self.old) }
    {
        *self = self.combined(alloc, u32::MAX, Operation::Union, &[run])?;
        Ok(())
    }

    /// Takes the blocks of a run out of the set.
    pub fn remove(&mut self, alloc: Global, run: Run) -> Result<(), Memory>
        requires run { IsRun run }
        ensures exact { OnOk result ((b : ℕ) → has self.new b ≡ (has self.old b && not (is_within b run))) }
        ensures unchanged { OnErr result (self.new ≡ self.old) }
    {
        *self = self.combined(alloc, u32::MAX, Operation::Difference, &[run])?;
        Ok(())
    }

    /// The blocks that are in one of the two sets.
    pub fn union(&self, alloc: Global, other: &RunSet) -> Result<Self, Memory>
        ensures exact { IfOk result (λ set. (b : ℕ) → has set b ≡ (has self.now b || has other.now b)) }
    {
        self.combined(alloc, u32::MAX, Operation::Union, other.runs())
    }

    /// The blocks of the set that aren't in the other.
    pub fn subtract(&self, alloc: Global, other: &RunSet) -> Result<Self, Memory>
        ensures exact { IfOk result (λ set. (b : ℕ) → has set b ≡ (has self.now b && not (has other.now b))) }
    {
        self.combined(alloc, u32::MAX, Operation::Difference, other.runs())
    }
}
