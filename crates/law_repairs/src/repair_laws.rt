//! What a repair keeps: from a unit's verdict on, its indexes hold what they should, until they are marked.
ghost use Rattle.law_repairs.specs.Repair.Alike.{AlikeLaw, GoodStays};
ghost use Rattle.law_repairs.specs.Repair.Ends.{EndsWithoutFaults, ForgetsNothing};
ghost use Rattle.law_repairs.specs.Repair.Made.{BesideStays, ChunksStay, InodesKeepMappings, UnitIsMade};
ghost use Rattle.law_repairs.specs.Repair.Moves.{ReleasedKeeps, SpaceKeepsChunks, SwitchedIsGood, SwitchedKeeps};
ghost use Rattle.law_repairs.specs.Repair.Owners.{SpaceKeepsMappings};
ghost use Rattle.law_repairs.specs.Repair.Pieces.{ElsewhereKeeps, ListedKeeps, ReapedKeeps, ReservedKeeps};
ghost use Rattle.law_repairs.specs.Repair.Rows.{Rows};
ghost use Rattle.law_repairs.specs.Repair.Kept.{FaultKeeps, MarkedKeeps, NoneMoves, ReplyKeeps, VerdictKeeps};

/// A law: states that differ in trust alone, in cores outside of chunks and in forks that can't be read have
/// the same claims and derivations, and a unit that is good in one of them is good in the other
/// (XFS Online Fsck Design, "Cross-Referencing Space Metadata").
pub fn alike()
    ensures each { AlikeLaw }
    ensures unit { GoodStays }
{}

/// A law: where all trees and forks can be read and no block is reserved or in limbo, a new session keeps all
/// that is read, so a unit that stands and is trusted has no faults in what it finds
/// (XFS Online Fsck Design, "Eventual Consistency").
pub fn ends()
    ensures keeps { ForgetsNothing }
    ensures faults { EndsWithoutFaults }
{}

/// A law: where no tree is edited no block moves; marks, faults, verdicts and replies keep what is known of
/// each unit, but of one that they mark
/// (XFS Online Fsck Design, "Eventual Consistency").
pub fn kept()
    ensures still { NoneMoves }
    ensures marks { MarkedKeeps }
    ensures faults { FaultKeeps }
    ensures verdicts { VerdictKeeps }
    ensures replies { ReplyKeeps }
{}

/// A law: the switch of a unit keeps what is known of each unit that isn't read off its records, and of all
/// other groups, where the chunks stay; those of free space and of reference counts leave them so
/// (XFS Online Fsck Design, "Writing the New B+Tree").
pub fn switched_beside()
    ensures units { SwitchedKeeps }
    ensures chunks { SpaceKeepsChunks }
{}

/// A law: a unit whose new trees hold what is derived again is good after its switch, counters too
/// (XFS Online Fsck Design, "Writing the New B+Tree").
pub fn switched_is_good()
    ensures { SwitchedIsGood }
{}

/// A law: a switch leaves the chunks, makes its unit good, and keeps what is known beside it; of the owners that
/// go into reverse mappings it is asked that inodes have blocks of chunks alone
/// (XFS Online Fsck Design, "Writing the New B+Tree").
pub fn switched_makes()
    ensures chunks { ChunksStay }
    ensures unit { UnitIsMade }
    ensures beside { BesideStays }
    ensures mappings { InodesKeepMappings }
{}

/// A law: a released reserve keeps what is known of each unit, since its blocks have the same owners in limbo
/// (XFS Online Fsck Design, "Reaping After Repairing Ondisk Metadata").
pub fn released_keeps()
    ensures { ReleasedKeeps }
{}

/// Rows that compute: a file on an old root of free space makes reverse mappings wrong by the switch, and a
/// run of no blocks that loses its owner cuts a record in two.
pub fn worked_rows()
    ensures { Rows }
{}

/// A law: the switches of free space and of reference counts keep what is known of the reverse mappings: the
/// blocks of an old tree wait in limbo with the owner that they had, where nobody else has them
/// (XFS Online Fsck Design, "Reaping After Repairing Ondisk Metadata").
pub fn space_keeps_mappings()
    ensures { SpaceKeepsMappings }
{}

/// A law: a block that is reserved, of no chunk, and a run that is reaped keep all that is known of other groups,
/// and of inodes in their own, where chunks stay and counters are words; a block of the list keeps all where free
/// space or reverse mappings are rebuilt (XFS Online Fsck Design, "Reserving New B+Tree Blocks").
pub fn pieces_keep()
    ensures elsewhere { ElsewhereKeeps }
    ensures reserved { ReservedKeeps }
    ensures reaped { ReapedKeeps }
    ensures listed { ListedKeeps }
{}
