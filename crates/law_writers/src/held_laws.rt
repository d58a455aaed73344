//! Each entry of a writer whose inodes are held keeps each block's numbers sound, with the claims that the state has.
ghost use Rattle.law_writers.specs.Held.Held.{ChunkHeld, ConvertedHeld, MappedHeld, OthersHeld, SharedHeld, UnmappedHeld};
ghost use Rattle.law_writers.specs.Held.Kept.{
  ChunkKept,
  ConvertedKept,
  FreedKept,
  GivenKept,
  MappedKept,
  RefDoneKept,
  RefilledKept,
  RmapDoneKept,
  SharedKept,
  TakenKept,
  TrimmedKept,
  UnmappedKept,
};

/// A law: behind a first event whose inodes its chain holds, and behind each other entry of a writer, each chain still
/// maps a block twice for each count that will rise (XFS Online Fsck Design, "Eventual Consistency").
pub fn holders_stay()
    ensures mapped { MappedHeld }
    ensures unmapped { UnmappedHeld }
    ensures converted { ConvertedHeld }
    ensures shared { SharedHeld }
    ensures others { OthersHeld }
    ensures chunk { ChunkHeld }
{}

/// A law: first events, runs of the free list, inodes taken, of a new chunk too, or given back, finished steps of
/// reverse mappings and of counts, and freed runs keep each block sound, with the claims that the state has
/// (XFS Online Fsck Design, "Eventual Consistency").
pub fn entries_keep()
    ensures mapped { MappedKept }
    ensures unmapped { UnmappedKept }
    ensures converted { ConvertedKept }
    ensures shared { SharedKept }
    ensures refilled { RefilledKept }
    ensures trimmed { TrimmedKept }
    ensures chunk { ChunkKept }
    ensures taken { TakenKept }
    ensures given { GivenKept }
    ensures mappings { RmapDoneKept }
    ensures counts { RefDoneKept }
    ensures freed { FreedKept }
{}
