//! How many claims on a block there are once a run filled the free list, left it or became a chunk; and that the records
//! which edits take out are there.
ghost use Rattle.law_writers.specs.Run.Found.{ChunkFound, IntentFound, ListedFound, MappedFound, RefilledFound};
ghost use Rattle.law_writers.specs.Run.Runs.{ChunkClaims, RefilledClaims, TrimmedClaims};

/// A law: how many claims a block gains or loses, and how many of these stand alone, where a run fills the free list,
/// leaves it, or becomes a chunk (XFS Algorithms and Data Structures, "AG Free List", "Inode B+trees").
pub fn runs_counted()
    ensures refilled { RefilledClaims }
    ensures trimmed { TrimmedClaims }
    ensures chunk { ChunkClaims }
{}

/// A law: the record that an edit takes out is there, where the tree is edited: an intent's, that of a run that leaves
/// free space, and that of one that leaves the list (XFS Online Fsck Design, "Eventual Consistency").
pub fn records_found()
    ensures intent { IntentFound }
    ensures listed { ListedFound }
    ensures mapped { MappedFound }
    ensures refilled { RefilledFound }
    ensures chunk { ChunkFound }
{}
