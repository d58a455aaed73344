ghost use Rattle.claim_laws.specs.Whole.{ForksAreGood, MappingsOfGroup, OverlapOfGroup};

/// A law: where pieces are those of a group's metadata and of all its inodes' forks, in whatever order they
/// were handed in, their first overlap is that of the claims on the group's blocks
/// (XFS Online Fsck Design, "Cross-Referencing Space Metadata").
pub fn overlap_of_group()
    ensures { OverlapOfGroup }
{}

/// A law: where such pieces have no overlap, no block is claimed twice for one owner at one offset, and
/// their maximal runs are what the btree of reverse mappings must hold
/// (XFS Online Fsck Design, "Case Study: Rebuilding Reverse Mapping Records").
pub fn mappings_of_group()
    ensures { MappingsOfGroup }
{}

/// A law: the mappings of each fork of an image that can be read rise, don't overlap and are in range
/// (XFS Algorithms and Data Structures, "Data Fork").
pub fn good_forks()
    ensures { ForksAreGood }
{}
