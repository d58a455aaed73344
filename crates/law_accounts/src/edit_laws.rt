//! What an edit makes of records that are what they should be: reverse mappings, free space in both orders, and
//! reference counts.
ghost use Rattle.law_accounts.specs.Edit.Counts.{SharedGiven, SharedTaken};
ghost use Rattle.law_accounts.specs.Edit.Mappings.{MappingGiven, MappingTaken};
ghost use Rattle.law_accounts.specs.Edit.Space.{CountGiven, CountTaken, FreeGiven, FreeTaken, LastIsLongest, SameFree};

/// A law: a run that gets an owner which none of its blocks has makes of the maximal runs of owners those of
/// the owners with it, and one that loses the owner that all its blocks have those of the owners without
/// (XFS Algorithms and Data Structures, "Reverse Mapping B+tree").
pub fn mappings_follow()
    ensures given { MappingGiven }
    ensures taken { MappingTaken }
{}

/// A law: where free space is what reverse mappings leave, a run that leaves it and gets a mapping, and one that
/// loses its last mapping and joins it, make it what the new mappings leave
/// (XFS Algorithms and Data Structures, "AG Free Space B+trees").
pub fn space_follows()
    ensures taken { FreeTaken }
    ensures given { FreeGiven }
    ensures same { SameFree }
{}

/// A law: free space by count stays the sorted free space by start, and its last record is the longest
/// (XFS Algorithms and Data Structures, "AG Free Space B+trees").
pub fn space_stays_sorted()
    ensures taken { CountTaken }
    ensures given { CountGiven }
    ensures longest { LastIsLongest }
{}

/// A law: a run whose owner is no inode, given to reverse mappings or taken from them, leaves what reference
/// counts should be (XFS Algorithms and Data Structures, "Reference Count B+tree").
pub fn counts_stay()
    ensures given { SharedGiven }
    ensures taken { SharedTaken }
{}
