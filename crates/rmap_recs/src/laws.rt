ghost use Rattle.rmap_recs.specs.Runs.{OneList};

/// A law: two lists that are the maximal runs of the same tuples are one list.
pub fn one_list()
    ensures { OneList }
{}
