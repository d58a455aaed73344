//! How many claims on a block there are once a fork changed.
ghost use Rattle.law_writers.specs.Fork.Counted.{ConvertedClaims, MappedClaims, SharedClaims, UnmappedClaims};

/// A law: how many claims a block gains or loses, and how many of these stand alone, where a mapping comes, goes,
/// becomes written or is made a second time, in every group
/// (XFS Algorithms and Data Structures, "Data Fork").
pub fn forks_counted()
    ensures mapped { MappedClaims }
    ensures unmapped { UnmappedClaims }
    ensures converted { ConvertedClaims }
    ensures shared { SharedClaims }
{}
