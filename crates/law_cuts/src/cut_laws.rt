//! What an entry's row decides stays true of the state behind it, however edited trees are cut into blocks.
ghost use Rattle.law_cuts.specs.Cut.Cut.{HeldBehind, SoundBehind};
ghost use Rattle.law_cuts.specs.Cut.Told.{ToldBehind};

/// A law: a block that is sound in the state that an entry's row decides is sound behind the entry, however edited trees
/// are cut into blocks, and chains hold their inodes' mappings as before (XFS Online Fsck Design, "Eventual Consistency").
pub fn blocks_stay_sound()
    ensures sound { SoundBehind }
    ensures held { HeldBehind }
{}

/// A law: where reverse mappings tell settled owners of the state that an entry's row decides, they follow blocks that get
/// another owner, and tell those of the state behind the entry (XFS Online Fsck Design, "Eventual Consistency").
pub fn mappings_stay_told()
    ensures told { ToldBehind }
{}
