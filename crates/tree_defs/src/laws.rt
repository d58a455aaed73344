ghost use Rattle.tree_defs.specs.Claims.{ClaimsAreListed};
ghost use Rattle.tree_defs.specs.Frame.{ReadsOwnBlocks, StaysReadable};
ghost use Rattle.tree_defs.specs.Levels.{ReadsTrees};
ghost use Rattle.tree_defs.specs.Sizes.{BlocksDiffer, HasFewLevels};
ghost use Rattle.tree_defs.specs.Walked.{CountsBlocks};

use sblock::RecKind;

/// A walk answers records and blocks exactly where there is a tree of these
/// (XFS Algorithms and Data Structures, "Short Format B+trees").
pub fn reads_trees<K: RecKind>()
    ensures { ReadsTrees K.form }
{}

/// What a walk answers depends on the blocks below the root alone: those that it reads, and no
/// other.
pub fn reads_own_blocks<K: RecKind>()
    ensures { ReadsOwnBlocks K.form }
{}

/// A readable tree is read alike in each image that has the same bytes in the tree's own blocks.
pub fn stays_readable<K: RecKind>()
    ensures { StaysReadable K.form }
{}

/// Of a readable tree a walk reads each block once.
pub fn counts_blocks<K: RecKind>()
    ensures { CountsBlocks K.form }
{}

/// No block stands twice in a readable tree, and it has fewer blocks than its group
/// (XFS Algorithms and Data Structures, "Short Format B+trees").
pub fn blocks_differ<K: RecKind>()
    ensures { BlocksDiffer K.form }
{}

/// A readable tree of a group has at most seven levels, and one of another kind than the reverse
/// mappings at most five: each node but the root is at least half full, and a group of 2^28 blocks
/// has no room for more (XFS Algorithms and Data Structures, "Short Format B+trees").
pub fn has_few_levels<K: RecKind>()
    ensures { HasFewLevels K.form }
{}

/// The blocks that a tree claims, readable or not, are a list that computes: each once, rising.
pub fn claims_are_listed<K: RecKind>()
    ensures { ClaimsAreListed K.form }
{}
