ghost use Rattle.tree_find.specs.Last.{LastInTrees};
ghost use Rattle.tree_find.specs.Laws.{FindsInTrees, GivesNextInTrees};

use sblock::RecKind;

/// Finding in a readable tree gives the record of that tree with an equal key, and none where
/// there is none (XFS Algorithms and Data Structures, "Short Format B+trees").
pub fn finds_in_trees<K: RecKind>()
    ensures { FindsInTrees K.form }
{}

/// The next leaf's records in a readable tree are the first ones of that tree above the key, and
/// none only where there are none (XFS Algorithms and Data Structures, "Short Format B+trees").
pub fn gives_next_in_trees<K: RecKind>()
    ensures { GivesNextInTrees K.form }
{}

/// The last record of a readable tree is the last that a walk reads, and there is none only where a
/// walk reads none (XFS Algorithms and Data Structures, "Short Format B+trees").
pub fn last_in_trees<K: RecKind>()
    ensures { LastInTrees K.form }
{}
