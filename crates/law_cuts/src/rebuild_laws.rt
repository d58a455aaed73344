//! Reverse mappings that tell settled owners do so behind a repair's entries.
ghost use Rattle.law_cuts.specs.Rebuild.Reaped.{ReapedTold};
ghost use Rattle.law_cuts.specs.Rebuild.Reserved.{ListedTold, SpareTold, TurnedTold};
ghost use Rattle.law_cuts.specs.Rebuild.Switched.{InodesSwitchedTold, MadeTold, QuietTold, SpaceSwitchedTold};

/// A law: where reverse mappings tell settled owners, they do behind a block that a repair reserves, from the list for each
/// unit, or a spare one for inodes or reference counts (XFS Online Fsck Design, "Reserving New B+Tree Blocks").
pub fn reserved_stays_told()
    ensures listed { ListedTold }
    ensures turned { TurnedTold }
    ensures spare { SpareTold }
{}

/// A law: and behind a run that is reaped, which is nobody's any more
/// (XFS Online Fsck Design, "Reaping After Repairing Ondisk Metadata").
pub fn reaped_stays_told()
    ensures reaped { ReapedTold }
{}

/// A law: in a quiet group mappings that hold what they should tell settled owners. So they do behind their own switch, and
/// behind the others where they are known (XFS Online Fsck Design, "Case Study: Rebuilding Reverse Mapping Records").
pub fn switched_is_told()
    ensures quiet { QuietTold }
    ensures made { MadeTold }
    ensures space { SpaceSwitchedTold }
    ensures inodes { InodesSwitchedTold }
{}
