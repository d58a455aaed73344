ghost use Rattle.tree_cover.specs.Answers.{SearchesTrees, LooksAtAll, MeetsByBlock, StagingMeetsNone};

use crate::covers::Covers;

/// Where a tree is readable, the search gives the first of its records, above the key, that meets
/// the run and is looked at: of a kind without high keys, the last record that begins at the run's
/// first block or before it, and those that begin behind that block
/// (XFS Algorithms and Data Structures, "Reverse-Mapping B+tree").
pub fn searches_trees<K: Covers>()
    ensures { SearchesTrees K.form }
{}

/// Where nodes have high keys, or no record has a block of the next one, that is the first of all
/// records above the key that meets the run.
pub fn looks_at_all<K: Covers>()
    ensures { LooksAtAll K.form }
{}

/// A record meets a run exactly where some block is one of both.
pub fn meets_by_block<K: Covers>()
    ensures { MeetsByBlock K.form }
{}

/// No record of copy-on-write staging meets a run that ends at block 2^31 or before it, as each run
/// of a group's blocks does (XFS Algorithms and Data Structures, "Reference Count B+tree").
pub fn staging_meets_none()
    ensures { StagingMeetsNone }
{}
