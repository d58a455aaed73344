//! Free space and reference counts in order at every moment, and what holds of a group where no chain owes it anything:
//! each of its indexes is what is derived, as a list.
ghost use Rattle.law_accounts.specs.Quiet.Ordered.{ChunkOrdered, CountsShown, FreedOrdered, MappedOrdered, RefilledOrdered, TrimmedOrdered};
ghost use Rattle.law_accounts.specs.Quiet.Whole.{QuietIsWhole};

/// A law: each run that leaves free space or joins it leaves both its indexes in order, of maximal runs and of the same
/// records (XFS Algorithms and Data Structures, "AG Free Space B+trees").
pub fn space_stays_ordered()
    ensures mapped { MappedOrdered }
    ensures refilled { RefilledOrdered }
    ensures chunk { ChunkOrdered }
    ensures freed { FreedOrdered }
    ensures trimmed { TrimmedOrdered }
{}

/// A law: a finished step of reference counts leaves as few records as can be, of several owners each
/// (XFS Algorithms and Data Structures, "Reference Count B+tree").
pub fn counts_stay_few()
    ensures { CountsShown }
{}

/// A law: where no chain owes a group anything, and what is kept at every moment holds of it, its six indexes equal what
/// is derived, record by record (XFS Online Fsck Design, "Eventual Consistency").
pub fn quiet_is_whole()
    ensures { QuietIsWhole }
{}
