ghost use Rattle.core_units.specs.Compared.{PiecesAreFaults};

use xref_scrub::Indexed;

/// A law: what the pieces of a comparison find of a btree, from the first record on, is each difference
/// from what it must hold, or that it can't be read
/// (XFS Online Fsck Design, "Cross-Referencing Space Metadata").
pub fn pieces_are_faults<K: Indexed>()
    ensures { PiecesAreFaults K.form K.shown }
{}
