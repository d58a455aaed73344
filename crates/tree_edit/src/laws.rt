ghost use Rattle.tree_edit.specs.Anew.{JoinedIsRead, OthersStay};

use sblock::RecKind;

/// A tree that is written anew and joined is read through the transaction with exactly its records,
/// and has exactly the blocks that were claimed for it; only blocks that it had, and the list's first
/// ones, are changed in the transaction (XFS Algorithms and Data Structures, "Short Format B+trees").
pub fn joined_tree_is_read<K: RecKind>()
    ensures read { JoinedIsRead K.form }
    ensures others { OthersStay K.form }
{}
