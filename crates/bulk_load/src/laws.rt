ghost use Rattle.std.specs.Prelude.{◌≡◌};
ghost use Rattle.bulk_load.specs.Trees.{HoldTheList};
ghost use Rattle.bulk_load.specs.Shapes.{LevelsHoldAll, LevelsAreAll, HoldNotTooMuch, HoldEnough, HasFewLevels};

use sblock::RecKind;

/// A level's blocks hold exactly what is below it, and all levels together are the shape's blocks.
/// No block holds more than it has room for, and of several on a level none holds less than the
/// least number. Fewer than 2^32 blocks, as a group has, are of at most six levels
/// (XFS Algorithms and Data Structures, "Short Format B+trees").
#[tactic(auto, using(crate::proofs::ShapeLemmas::holds_below))]
pub fn shapes_hold_all()
    ensures levels { LevelsHoldAll }
    ensures blocks { LevelsAreAll }
    ensures most { HoldNotTooMuch }
    ensures least { HoldEnough }
    ensures few { HasFewLevels }
{}

/// Where the blocks of a new tree stand in their claimed blocks, whatever the image's other blocks are,
/// the records below the last one, from left to right, are exactly the list
/// (XFS Algorithms and Data Structures, "Short Format B+trees").
pub fn blocks_hold_the_list<K: RecKind>()
    ensures { HoldTheList K.form }
{}
