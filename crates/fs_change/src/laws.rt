ghost use Rattle.fs_change.specs.Behind.{GroupsBehind};
ghost use Rattle.fs_change.specs.Laws.{ChangePending, ChangesOneGroup, CursorPasses, DecidedStands, FirstEventKeeps, GiftDone, GiftPending, HoldBegins, HoldEnds, InodesDerivedAgain, KeepsOtherInodes, KeepsOtherTrees, LeadsCompose, MappingsDerivedAgain, OneSet, PieceGives, ReserveCountsAlike, SessionsBegin, SessionsCompose, ShadowGains, ShadowLoses, SpaceDerivedAgain, StepMoves, TakenKeepsChunks, TakingDone, TakingPending};
ghost use Rattle.fs_change.specs.Worked.{Worked};

/// A law: the state that an entry decides is one that the entry allows, where the counters are words:
/// nothing forces a block to move.
pub fn decided_stands()
    ensures { DecidedStands }
{}

/// A law: two runs of entries, one after the other, are one run.
pub fn leads_compose()
    ensures { LeadsCompose }
{}

/// A law: sessions one after the other compose, each beginning with what the one before it left.
pub fn sessions_compose()
    ensures { SessionsCompose }
{}

/// A law: an entry changes its own group and its own chain alone.
pub fn changes_one_group()
    ensures { ChangesOneGroup }
{}

/// A law: two lists of owners with the same members are one set.
pub fn one_set()
    ensures { OneSet }
{}

/// A law: owners that forks gain while they are still to be given leave the settled owners as they were.
pub fn gift_pending()
    ensures { GiftPending }
{}

/// A law: owners that forks lose while they are still to be taken leave the settled owners as they were.
pub fn taking_pending()
    ensures { TakingPending }
{}

/// A law: so do owners that change while both is still to be done.
pub fn change_pending()
    ensures { ChangePending }
{}

/// A law: once owners were given, the settled owners have gained exactly these.
pub fn gift_done()
    ensures { GiftDone }
{}

/// A law: once owners were taken, the settled owners have lost exactly these.
pub fn taking_done()
    ensures { TakingDone }
{}

/// A law: a first event leaves the settled owners of all forks as they were.
pub fn first_event_keeps()
    ensures { FirstEventKeeps }
{}

/// A law: a finished step changes them by its intent's owners, and by no others.
pub fn step_moves()
    ensures { StepMoves }
{}

/// A law: a cursor that passes inodes without owners has seen nothing more.
pub fn cursor_passes()
    ensures { CursorPasses }
{}

/// A law: an inode that a scan takes hold of adds nothing, before a mapping of it was given.
pub fn hold_begins()
    ensures { HoldBegins }
{}

/// A law: a piece that the scan was given adds its mappings' owners, and no others.
pub fn piece_gives()
    ensures { PieceGives }
{}

/// A law: taking a free inode of a chunk leaves the chunks as they are.
pub fn taken_keeps_chunks()
    ensures { TakenKeepsChunks }
{}

/// A law: an inode that was given whole is as good as visited.
pub fn hold_ends()
    ensures { HoldEnds }
{}

/// A law: owners that settled ones gain are the shadow's exactly where the scan has visited their inode.
pub fn shadow_gains()
    ensures { ShadowGains }
{}

/// A law: owners that settled ones lose leave the shadow exactly where the scan has visited their inode.
pub fn shadow_loses()
    ensures { ShadowLoses }
{}

/// A law: an entry leaves the trees that it neither edits nor judges, blocks, records and trust.
pub fn keeps_other_trees()
    ensures { KeepsOtherTrees }
{}

/// A law: an entry leaves the inodes of chunks that it doesn't name, cores and forks.
pub fn keeps_other_inodes()
    ensures { KeepsOtherInodes }
{}

/// A law: what a switch of free space, or of reference counts, puts in is what is derived again from the
/// state that it reaches.
pub fn space_derived_again()
    ensures { SpaceDerivedAgain }
{}

/// A law: what a switch of the inode btrees puts in is derived again from the state that it reaches.
pub fn inodes_derived_again()
    ensures { InodesDerivedAgain }
{}

/// A law: so is what a switch of the reverse mappings puts in, where only chunks have blocks as inodes.
pub fn mappings_derived_again()
    ensures { MappingsDerivedAgain }
{}

/// A law: a block of a reserve counts alike as reserve, as a new tree's and as limbo, so what a switch puts in
/// is what its need was counted for.
pub fn reserve_counts_alike()
    ensures { ReserveCountsAlike }
{}

/// Edits of small lists of records, worked: they pin what the definitions mean where no law does.
pub fn worked_records()
    ensures { Worked }
{}

/// A law: there is always a state with which a new session may begin: the last one less what is forgotten.
pub fn sessions_begin()
    ensures { SessionsBegin }
{}

/// A law: groups behind the last one stay where nothing is written there, so an event of one group leaves
/// every other; and where what an opening found is kept of them, a new session finds the same.
pub fn groups_behind()
    ensures { GroupsBehind }
{}
