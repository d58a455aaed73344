//! How the accounts of writers balance: at each block the count of its owners, what reverse mappings and free
//! space say of it, and what chains still owe.
ghost use Rattle.law_accounts.specs.Account.Chained.{ChainsFollow, FewRise, FirstsBegin, PairsFound, RestStays, StretchStays};
ghost use Rattle.law_accounts.specs.Account.Firsts.{ConvertedSound, ConvertedStays, SharedSound, UnmappedSound};
ghost use Rattle.law_accounts.specs.Account.Steps.{GivenCovers, RmapDoneSound, TakenCovers};
ghost use Rattle.law_accounts.specs.Account.Listed.{RefilledSound, TrimmedSound};
ghost use Rattle.law_accounts.specs.Account.Rows.{Rows};
ghost use Rattle.law_accounts.specs.Account.Space.{FreedSound, GivenSpans, MappedSound, TakenSpans};
ghost use Rattle.law_accounts.specs.Account.Guard.{GuardPasses};
ghost use Rattle.law_accounts.specs.Account.Ledger.{EntriesOfABlock, SettledIsDerived};
ghost use Rattle.law_accounts.specs.Account.Stated.{FreedStated, QuietIsDerived, RmapDoneStated};

/// A law: each change of a block's numbers that an entry makes keeps the block sound; and where nothing is
/// pending, it is free exactly where no mapping covers it, and else has as many owners as mappings
/// (XFS Online Fsck Design, "Eventual Consistency").
pub fn block_stays_sound()
    ensures entries { EntriesOfABlock }
    ensures settled { SettledIsDerived }
{}

/// A law: in a chain each mapping of a block that goes has a count that falls; first events begin such chains,
/// and each step leaves one (XFS Online Fsck Design, "Eventual Consistency").
pub fn chain_follows()
    ensures falls { ChainsFollow }
    ensures begun { FirstsBegin }
    ensures rest { RestStays }
    ensures stretch { StretchStays }
{}

/// A law: where each chain holds inodes that map a block twice for each count that will rise, and no inode is
/// held twice, all counts that will rise have their pairs; and they are few
/// (XFS Online Fsck Design, "Eventual Consistency").
pub fn pairs_hold()
    ensures found { PairsFound }
    ensures few { FewRise }
{}

/// A law: unmapping, sharing and conversion keep each block sound
/// (XFS Online Fsck Design, "Eventual Consistency").
pub fn first_keeps()
    ensures unmapped { UnmappedSound }
    ensures shared { SharedSound }
    ensures converted { ConvertedSound }
    ensures written { ConvertedStays }
{}

/// A law: a run that gets an owner covers its blocks once more, and one that loses it once less; so a finished
/// step of reverse mappings keeps each block sound, where the record that it takes out is there
/// (XFS Online Fsck Design, "Eventual Consistency").
pub fn rmap_done_keeps()
    ensures given { GivenCovers }
    ensures taken { TakenCovers }
    ensures step { RmapDoneSound }
{}

/// A law: where runs of free space lie apart, a run that leaves them has its blocks once less, and one that
/// joins them once more (XFS Algorithms and Data Structures, "AG Free Space B+trees").
pub fn space_follows()
    ensures taken { TakenSpans }
    ensures given { GivenSpans }
{}

/// A law: a run that is mapped, and one that is freed and not kept, keep each block sound
/// (XFS Online Fsck Design, "Eventual Consistency").
pub fn runs_keep()
    ensures mapped { MappedSound }
    ensures freed { FreedSound }
{}

/// Rows that compute: entries that may stand, of a chain that doesn't hold the inode, lead to wrong indexes;
/// and a run joins a record that isn't the list's neighbour.
pub fn worked_rows()
    ensures { Rows }
{}

/// A law: a run that fills the free list, and one that leaves it, keep each block sound
/// (XFS Algorithms and Data Structures, "AG Free List").
pub fn list_keeps()
    ensures refilled { RefilledSound }
    ensures trimmed { TrimmedSound }
{}

/// A law: a run that is to be freed, each block of which is sound, has no owner: it isn't kept
/// (XFS Online Fsck Design, "Eventual Consistency").
pub fn guard_passes()
    ensures { GuardPasses }
{}

/// A law: where no chain owes a group anything, what free space, counts and mappings say of a sound block agrees
/// with its claims as the state has them (XFS Online Fsck Design, "Eventual Consistency").
pub fn quiet_agrees()
    ensures { QuietIsDerived }
{}

/// A law: a finished step of reverse mappings, and a run that is freed and not kept, leave all claims of the group
/// where chunks stay, so a block that was sound with those that the state had is so again
/// (XFS Online Fsck Design, "Eventual Consistency").
pub fn claims_stay()
    ensures mappings { RmapDoneStated }
    ensures freed { FreedStated }
{}
