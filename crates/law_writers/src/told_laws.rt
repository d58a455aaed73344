//! Reverse mappings that tell settled owners do so behind each entry of a writer.
ghost use Rattle.law_writers.specs.Told.Listed.{ChunkListTold, GivenListTold, RefilledListTold, TakenListTold, TrimmedListTold};
ghost use Rattle.law_writers.specs.Told.Told.{ConvertedTold, FinishedTold, MappedTold, OthersTold, SharedTold, UnmappedTold};

/// A law: where reverse mappings tell settled owners, they do behind first events, since settled forks stay, behind a
/// finished step of theirs, which these follow, and behind other entries
/// (XFS Online Fsck Design, "Eventual Consistency").
pub fn owners_stay_told()
    ensures mapped { MappedTold }
    ensures unmapped { UnmappedTold }
    ensures converted { ConvertedTold }
    ensures shared { SharedTold }
    ensures others { OthersTold }
    ensures finished { FinishedTold }
{}

/// A law: where reverse mappings tell settled owners, they do behind an inode that is taken, of a new chunk too, or given
/// back, and behind a run that fills the free list or leaves it
/// (XFS Algorithms and Data Structures, "Reverse Mapping B+tree").
pub fn lists_told()
    ensures taken { TakenListTold }
    ensures given { GivenListTold }
    ensures refilled { RefilledListTold }
    ensures trimmed { TrimmedListTold }
    ensures chunk { ChunkListTold }
{}
