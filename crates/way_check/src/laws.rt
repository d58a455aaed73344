ghost use Rattle.way_check.specs.Checks.{MadeReads};
ghost use Rattle.way_check.specs.Way.{WaysGrow, WaysMake, WaysRead};

use sblock::{Frame, RecKind};
use tree_defs::Site;

/// A tree that is read, edited from its root down to its leaf, where each block on the way was made of
/// its own old bytes and of the keys of the one block below: it is read with the edited records
/// (XFS Algorithms and Data Structures, "Short Format B+trees").
pub fn ways_read<K: RecKind>(site: &Site, frame: &Frame)
    ensures make { WaysMake K.form site.now frame.now }
    ensures read { WaysRead K.form site.now frame.now }
    ensures grow { WaysGrow K.form site.now frame.now }
{}

/// An edit made in memory of a tree that is read, where each block on its way was made of the old one:
/// it is read with the edited list, in the tree's own blocks
/// (XFS Algorithms and Data Structures, "Short Format B+trees").
pub fn made_reads<K: RecKind>()
    ensures { MadeReads K.form }
{}
