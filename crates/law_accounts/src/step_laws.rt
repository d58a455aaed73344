//! The account of each block by entries that change inodes, and by runs that are freed.
ghost use Rattle.law_accounts.specs.Step.Steps.{ChunkTakenSound, FreedKeeps, GivenSound, TakenSound};

/// A law: an inode that is taken, of a new chunk or of one that is there, and one that is given back keep each block of
/// their group sound (XFS Online Fsck Design, "Eventual Consistency").
pub fn inodes_keep()
    ensures made { ChunkTakenSound }
    ensures taken { TakenSound }
    ensures given { GivenSound }
{}

/// A law: a run that a chain frees keeps each block sound, where reverse mappings can be asked and its own blocks are sound
/// (XFS Online Fsck Design, "Eventual Consistency").
pub fn freed_keeps()
    ensures { FreedKeeps }
{}
