ghost use Rattle.tree_pieces.specs.Pieces.{GivesPieces, SumsToWalk};

use sblock::RecKind;

/// A piece of a readable tree has the first of its records above the key, and the first of the
/// blocks that no leaf up to the key has met; what is left is left behind the piece's last record
/// (XFS Algorithms and Data Structures, "Short Format B+trees").
pub fn gives_pieces<K: RecKind>()
    ensures { GivesPieces K.form }
{}

/// The pieces of a readable tree, from the first leaf on, are in sum what a walk reads: its records
/// and its blocks, in the same order.
pub fn sums_to_walk<K: RecKind>()
    ensures { SumsToWalk K.form }
{}
