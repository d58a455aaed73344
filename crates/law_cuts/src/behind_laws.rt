//! Behind each entry of a writer whose inodes are held, every block that was sound is sound.
ghost use Rattle.law_cuts.specs.Behind.Behind.{
  ChunkBehind,
  ConvertedBehind,
  ElsewhereBehind,
  FreedBehind,
  GivenBehind,
  MappedBehind,
  RefDoneBehind,
  RefilledBehind,
  RmapDoneBehind,
  SharedBehind,
  TakenBehind,
  TrimmedBehind,
  UnmappedBehind,
};

/// A law: behind each entry of a writer whose inodes are held, a block that was sound is sound with the claims that
/// the state has then, in its group and in all others (XFS Online Fsck Design, "Eventual Consistency").
pub fn entries_keep_behind()
    ensures mapped { MappedBehind }
    ensures unmapped { UnmappedBehind }
    ensures converted { ConvertedBehind }
    ensures shared { SharedBehind }
    ensures refilled { RefilledBehind }
    ensures trimmed { TrimmedBehind }
    ensures chunk { ChunkBehind }
    ensures taken { TakenBehind }
    ensures given { GivenBehind }
    ensures mappings { RmapDoneBehind }
    ensures counts { RefDoneBehind }
    ensures freed { FreedBehind }
    ensures elsewhere { ElsewhereBehind }
{}
