//! What each entry of the journal does to chunks, to settled owners and to what a scan has seen.
ghost use Rattle.law_writers.specs.Change.Forks.{ConvertedKeeps, MappedKeeps, SharedKeeps, UnmappedKeeps};
ghost use Rattle.law_writers.specs.Change.Chunks.{ChunkIsMade, StepKeepsChunks};
ghost use Rattle.law_writers.specs.Change.Settled.{FinishedStepMoves, OtherEntriesKeep, ShadowBySettled, ShadowFollows, ShadowStays};
ghost use Rattle.law_writers.specs.Change.Owners.{OwnersByInode};

/// A law: of an owner that is no inode forks have no block, and of an inode those of its own forks.
pub fn owners_by_inode()
    ensures { OwnersByInode }
{}

/// A law: all entries but those that make a chunk, reserve a block of one, or give or take blocks of inodes
/// leave all chunks as they are.
pub fn step_keeps_chunks()
    ensures { StepKeepsChunks }
{}

/// A law: an entry that is neither a first event nor a finished step of reverse mappings leaves the settled
/// owners of all forks, in every group. One that makes a chunk does where the inode btree can be read.
pub fn other_entries_keep()
    ensures { OtherEntriesKeep }
{}

/// A law: a finished step of reverse mappings changes the settled owners by its intent's, and by no others.
pub fn finished_step_moves()
    ensures { FinishedStepMoves }
{}

/// A law: every other such entry leaves what a scan has seen, also one that makes a chunk.
pub fn shadow_stays()
    ensures { ShadowStays }
{}

/// A law: a finished step gives a scan what it gives of visited inodes, takes what it takes of these, and
/// leaves all else.
pub fn shadow_follows()
    ensures { ShadowFollows }
{}

/// A law: a mapping that is made leaves the settled owners of all forks in every group as they were, where the
/// fork that it changes is one that can be read and the run lies in a group.
pub fn mapped_keeps()
    ensures { MappedKeeps }
{}

/// A law: so does one that is taken away.
pub fn unmapped_keeps()
    ensures { UnmappedKeeps }
{}

/// A law: so does a piece that is mapped a second time.
pub fn shared_keeps()
    ensures { SharedKeeps }
{}

/// A law: so does a piece that becomes written, and one that was written already.
pub fn converted_keeps()
    ensures { ConvertedKeeps }
{}

/// A law: an entry that leaves the settled owners, as a first event does, leaves what a scan has seen.
pub fn shadow_by_settled()
    ensures { ShadowBySettled }
{}

/// A law: an entry that makes a chunk makes one more, that of its eight blocks, and leaves all others.
pub fn chunk_is_made()
    ensures { ChunkIsMade }
{}
