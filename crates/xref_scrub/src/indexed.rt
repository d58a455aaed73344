ghost use Rattle.std.specs.Prelude.{◌≡◌};
ghost use Rattle.xref_scrub.specs.Shown.{Shown};

use fs_model::AnyRec;
use sblock::RecKind;

/// A kind of index that can be compared with its derivation
/// (XFS Online Fsck Design, "Cross-Referencing Space Metadata").
pub trait Indexed: RecKind {
    /// How a fault shows a record.
    ghost shown: { Shown Self.Rec };

    /// The record as a fault shows it.
    fn any(rec: &Self::Rec) -> AnyRec
        ensures { result ≡ shown rec.now };
}
