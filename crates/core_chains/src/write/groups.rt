ghost use Rattle.std.specs.Prelude.{◌≡◌};
ghost use Rattle.core_parts.specs.Common.Kinds.{is_sick as is_sick_of, trust_in};

use core_parts::GroupKept;
use fs_model::Trust;
use sblock::Kind;

/// Whether a fault of this btree of the group was met, and it wasn't rebuilt since
/// (XFS Online Fsck Design, "Metadata Repair").
pub fn is_sick(kept: &GroupKept, kind: Kind) -> bool
    ensures { result ≡ is_sick_of (trust_in kept.now.trust kind) }
{
    let trust = match kind {
        Kind::Bno => kept.trust.bno,
        Kind::Cnt => kept.trust.cnt,
        Kind::Rmap => kept.trust.rmap,
        Kind::Refc => kept.trust.refc,
        Kind::Ino => kept.trust.ino,
        Kind::Fino => kept.trust.fino,
    };
    matches!(trust, Trust::Sick)
}
