ghost use Rattle.list_edit.specs.Laws.{KeepsRising, KeepsEach, CountsRecords};

use sblock::RecKind;

/// A rising list that is edited rises again; what holds of each of its records, and of a record that
/// is put in, holds of each record afterwards; and it has one record more, one less, or as many
/// (XFS Algorithms and Data Structures, "Short Format B+trees").
pub fn edits_keep_lists<K: RecKind>()
    ensures rising { KeepsRising K.form }
    ensures each { KeepsEach K.form }
    ensures counts { CountsRecords K.form }
{}
