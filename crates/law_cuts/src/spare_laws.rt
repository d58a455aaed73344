//! Whose a spare block was that a rebuild reserves, and which mappings still tell settled owners behind each entry.
ghost use Rattle.law_cuts.specs.Spare.Behind.{
  ChunkTells,
  ConvertedTells,
  FinishedTells,
  GivenTells,
  MappedTells,
  OthersTell,
  RefilledTells,
  SharedTells,
  TakenTells,
  TrimmedTells,
  UnmappedTells,
};
ghost use Rattle.law_cuts.specs.Spare.Cut.{CutTold, ElsewhereTold, SoundOnce, ToldWritten};
ghost use Rattle.law_cuts.specs.Spare.Held.{ChunkHolds, ConvertedHolds, MappedHolds, OthersHold, SharedHolds, UnmappedHolds};
ghost use Rattle.law_cuts.specs.Spare.Spare.{
  SpareAgain,
  SpareDecides,
  SpareElsewhere,
  SpareNoChunk,
  SpareNobodys,
  SpareTells,
  UnnotedNobodys,
  UnnotedOwesNone,
  UnnotedOwns,
  UnnotedTells,
  UnnotedUnclaimed,
};
ghost use Rattle.law_cuts.specs.Spare.Unread.{UnreadKeeps, UnreadMisses};

use law_writers::told_laws::lists_told;

/// A law: a spare block that a rebuild reserves, but of reverse mappings, was nobody's, where these tell settled owners, and
/// those of every group go on telling them (XFS Online Fsck Design, "Reserving New B+Tree Blocks").
pub fn spare_stays_told()
    ensures nobodys { SpareNobodys }
    ensures decided { SpareDecides }
    ensures behind { SpareTells }
{}

/// A law: a spare block of any rebuild is of no chunk, other groups' mappings tell what they told, and what is asked of the
/// group holds again (XFS Online Fsck Design, "Reserving New B+Tree Blocks").
pub fn spare_leaves_others()
    ensures no_chunk { SpareNoChunk }
    ensures elsewhere { SpareElsewhere }
    ensures again { SpareAgain }
{}

/// A law: one that a rebuild of reverse mappings reserves was nobody's too, and mappings tell the settled owners of all
/// blocks but these (XFS Online Fsck Design, "Case Study: Rebuilding Reverse Mapping Records").
pub fn unnoted_spare()
    ensures unclaimed { UnnotedUnclaimed }
    ensures nobodys { UnnotedNobodys }
    ensures owes_none { UnnotedOwesNone }
    ensures owns { UnnotedOwns }
    ensures tells { UnnotedTells }
{}

/// A law: behind first events, steps of chains and what changes trust, mappings that told settled owners tell them,
/// however edited trees are cut, and in all other groups behind each entry
/// (XFS Online Fsck Design, "Eventual Consistency").
pub fn owners_told_behind()
    ensures mapped { MappedTells }
    ensures unmapped { UnmappedTells }
    ensures converted { ConvertedTells }
    ensures shared { SharedTells }
    ensures others { OthersTell }
    ensures finished { FinishedTells }
    ensures cut { CutTold }
    ensures once { SoundOnce }
    ensures written { ToldWritten }
    ensures elsewhere { ElsewhereTold }
{}

/// A law: so they do behind an inode that is taken, of a new chunk too, or given back, and behind a run that fills the free
/// list or leaves it (XFS Algorithms and Data Structures, "Reverse Mapping B+tree").
pub fn lists_told_behind()
    ensures taken { TakenTells }
    ensures given { GivenTells }
    ensures refilled { RefilledTells }
    ensures trimmed { TrimmedTells }
    ensures chunk { ChunkTells }
{
    lists_told();
}

/// A law: behind each entry of a writer each chain still maps a block twice for each count that will rise
/// (XFS Online Fsck Design, "Eventual Consistency").
pub fn holders_stay_behind()
    ensures mapped { MappedHolds }
    ensures unmapped { UnmappedHolds }
    ensures converted { ConvertedHolds }
    ensures shared { SharedHolds }
    ensures others { OthersHold }
    ensures chunk { ChunkHolds }
{}

/// A law: the switch of the inode btrees keeps what is known of reverse mappings where an old one that couldn't be read
/// claims no block; where it claims one, mappings that held what they should don't
/// (XFS Online Fsck Design, "Reaping After Repairing Ondisk Metadata").
pub fn unread_inodes()
    ensures keeps { UnreadKeeps }
    ensures misses { UnreadMisses }
{}
