ghost use Rattle.run_sets.specs.Runs.{OneList, OnlyRuns};
ghost use Rattle.run_sets.specs.Stretches.{OneStretchList, OnlyStretches};

/// A law: for each test and length there is one list of runs with a gap between two in which lie
/// exactly the blocks below the length that pass, and no other.
pub fn only_runs()
    ensures { OnlyRuns }
{}

/// A law: two lists of runs with a gap between two in which the same blocks lie are equal, so that
/// equal sets have equal runs.
pub fn one_list()
    ensures { OneList }
{}

/// A law: for each function from blocks to numbers, least number and length there is one list of
/// maximal stretches, runs with a value each, in which exactly the blocks below the length whose
/// number is at least the least one lie, each with its number.
pub fn only_stretches()
    ensures { OnlyStretches }
{}

/// A law: two lists of maximal stretches that stand for one function of the blocks below a length
/// are equal, whatever the values are. A block without a value lies in no stretch.
pub fn one_stretch_list<V>()
    ensures { OneStretchList V }
{}
