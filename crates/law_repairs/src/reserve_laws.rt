//! What a reserved block keeps of its own group, in a rebuild of each unit.
ghost use Rattle.law_repairs.specs.Reserve.Reserving.{ReservedKeepsOwn};

/// A law: a reserved block of no chunk keeps what is known of each unit of its own group, but of the unit that is
/// rebuilt with it, and of free space where reverse mappings are
/// (XFS Online Fsck Design, "Reserving New B+Tree Blocks").
pub fn reserved_keeps()
    ensures { ReservedKeepsOwn }
{}
