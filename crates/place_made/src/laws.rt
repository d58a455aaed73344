ghost use Rattle.place_made.specs.Made.{MadeTurns};
ghost use Rattle.place_made.specs.Trees.{TreeStays, TreeGrows, TreeShrinks};

use sblock::{Frame, RecKind};
use tree_defs::Site;

/// What an edit made from a block down to its leaf, where no block has too few afterwards, turns each row
/// with this block to the edited records (XFS Algorithms and Data Structures, "Short Format B+trees").
pub fn edits_turn<K: RecKind>(site: &Site, frame: &Frame)
    ensures { MadeTurns K.form site.now frame.now }
{}

/// A tree that stands, edited from its root down: the root stays, a new one stands above its two halves, or
/// its one child is the root from now on; the tree stands with the edited records, and its blocks are those
/// it had and the fresh ones, less those that are freed
/// (XFS Algorithms and Data Structures, "Short Format B+trees").
pub fn trees_done<K: RecKind>(site: &Site, frame: &Frame)
    ensures stays { TreeStays K.form site.now frame.now }
    ensures grows { TreeGrows K.form site.now frame.now }
    ensures shrinks { TreeShrinks K.form site.now frame.now }
{}
