ghost use Rattle.plan_laws.specs.Agreed.{LowestAgrees, NeedAgrees, NeedRises, SpareAgrees, TreeNeedAgrees};
ghost use Rattle.fs_model.specs.declared.unit.Unit.TheVariants.{Free, Refc};
ghost use Rattle.plan_laws.specs.Losing.{LostNothing, LostOld, LostUnclaimed, LostUnlisted};
ghost use Rattle.plan_laws.specs.Lying.{AreClaimedOnce, LieApart};

/// A law: the blocks that a plan calls spare for a unit are those that its step may take, and the lowest of
/// them in the group is the block that the step takes
/// (XFS Online Fsck Design, "Reserving New B+Tree Blocks").
pub fn spare_agrees()
    ensures each { SpareAgrees }
    ensures lowest { LowestAgrees }
{}

/// A law: what a plan calls the need of a unit, for as many records as the lists have that its switch
/// would derive, is the number of blocks that the switch takes; so for each kind of btree by itself. It is
/// said of fewer than 2^32 blocks, as a group has
/// (XFS Online Fsck Design, "Reserving New B+Tree Blocks").
pub fn need_agrees()
    ensures tree { TreeNeedAgrees }
    ensures unit { NeedAgrees }
{}

/// A law: a btree of more records needs no fewer blocks, so that what an edit needs, beside the root that
/// is there, is less than what a whole new tree of as many records as it may leave would have
/// (XFS Online Fsck Design, "Reserving New B+Tree Blocks").
pub fn need_rises()
    ensures { NeedRises }
{}

/// A law: where pieces of claims have no overlap, in whatever order they were handed in, the reverse
/// mappings that they stand for, put in order, have no common tuple: they are what the derivation of
/// reverse mappings takes. Of written file data, which may be shared, it is asked that no file maps a
/// block at one offset twice
/// (XFS Online Fsck Design, "Case Study: Rebuilding Reverse Mapping Records").
pub fn pieces_lie_apart()
    ensures { LieApart }
{}

/// A law: where pieces of claims have no overlap, no block is claimed twice for one owner at one offset,
/// as their runs ask it; of written file data it is asked for itself
/// (XFS Online Fsck Design, "Case Study: Rebuilding Reverse Mapping Records").
pub fn pieces_claim_once()
    ensures { AreClaimedOnce }
{}

/// A law: the runs of lost blocks that a set of claims tells are exactly the blocks that a unit's switch
/// puts into limbo, its surplus aside; of reverse mappings none, where free space can't be read
/// (XFS Online Fsck Design, "Reaping After Repairing Ondisk Metadata").
pub fn lost_agrees()
    ensures inodes { LostOld }
    ensures mappings { LostUnlisted }
    ensures nothing { LostNothing }
    ensures free { LostUnclaimed Free }
    ensures counts { LostUnclaimed Refc }
{}
