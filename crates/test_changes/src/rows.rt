ghost use Rattle.test_changes.specs.Bounds.{ClosedGates, DoTurn, FitsTrees, LimboDue, ListLeft, ListStays, ListTaken, MarksBounded, NoFile, TrimsFront, TrimsLong, TurnsFront, Uncounted};
ghost use Rattle.test_changes.specs.Crashes.{ClaimsKept, CutReserved, CutRun, CutSwitched, EitherRoot, GivenUpSpace, GivenUpWhole};
ghost use Rattle.test_changes.specs.Scans.{BehindCursor, HeldInode};
ghost use Rattle.test_changes.specs.Files.{ConvertedPiece, CutUnmapping, GrowingFile, MappedHalfway, MarkedOnce, OwnerFound, SharedPieceRow, ShrinkingFile};
ghost use Rattle.test_changes.specs.Lists.{ChunkMade, Forgotten, InodeBlocks, LeftAlone, ListMoves, NeedGrows};
ghost use Rattle.test_changes.specs.Meets.{MovesByBlock, RisesTooFar, TrimsBehind, TurnsWhole};
ghost use Rattle.test_changes.specs.Refused.{BehindStays, NotToBeFreed, NotToBeGiven, NotToBeMarked, NotToBeShared, NotToBeSwitched, NotToBeTaken, NothingToDo, OwnedSpace, SayTooMuch};
ghost use Rattle.test_changes.specs.Repairs.{NoBlockLeft, RebuiltFreeSpace, RebuiltInodes, RebuiltMappings, TreeSizes};

/// A file is made, and grows by six blocks and by one.
pub fn growing_file()
    ensures { GrowingFile }
{}

/// A mapping whose owner isn't told yet leaves the settled owners, and what a scan has seen.
pub fn mapped_halfway()
    ensures { MappedHalfway }
{}

/// A block that a file maps twice is unmapped once, and then again, and is free.
pub fn shrinking_file()
    ensures { ShrinkingFile }
{}

/// A run that still has an owner is kept, and reference counts are marked.
pub fn owner_found()
    ensures { OwnerFound }
{}

/// Half of an unwritten mapping is made written.
pub fn converted_piece()
    ensures { ConvertedPiece }
{}

/// A piece is mapped a second time, and counted.
pub fn shared_piece()
    ensures { SharedPieceRow }
{}

/// A crash after an unmapping's fork leaves its reverse mapping extra.
pub fn cut_unmapping()
    ensures { CutUnmapping }
{}

/// Free space is rebuilt in blocks 7 and 8, and its old roots are freed.
pub fn rebuilt_free_space()
    ensures { RebuiltFreeSpace }
{}

/// Reverse mappings are rebuilt in block 7, and the old root is freed.
pub fn rebuilt_mappings()
    ensures { RebuiltMappings }
{}

/// Both inode btrees are rebuilt in blocks 7 and 8, and the old roots are freed.
pub fn rebuilt_inodes()
    ensures { RebuiltInodes }
{}

/// A full group needs two blocks and has none.
pub fn no_block_left()
    ensures { NoBlockLeft }
{}

/// How many blocks a new tree of so many records has.
pub fn tree_sizes()
    ensures { TreeSizes }
{}

/// Entries that change more than they say are no steps.
pub fn say_too_much()
    ensures { SayTooMuch }
{}

/// Entries that do what isn't to be done are no steps.
pub fn nothing_to_do()
    ensures { NothingToDo }
{}

/// What has an owner isn't freed, and nothing that isn't in limbo is reaped.
pub fn not_to_be_freed()
    ensures { NotToBeFreed }
{}

/// Nothing is switched without a reserve, or against evidence, and blocks are taken in their order.
pub fn not_to_be_switched()
    ensures { NotToBeSwitched }
{}

/// A short list takes a run of free space, and a long one gives one back.
pub fn list_moves()
    ensures { ListMoves }
{}

/// A new chunk, where no inode is free.
pub fn chunk_made()
    ensures { ChunkMade }
{}

/// A need that grows with the first block of its reserve.
pub fn need_grows()
    ensures { NeedGrows }
{}

/// A step that leaves reverse mappings as they were, and their mark.
pub fn left_alone()
    ensures { LeftAlone }
{}

/// What a new session finds of limbo, and of a chain that was cut off.
pub fn forgotten_limbo()
    ensures { Forgotten }
{}

/// A run that has an owner isn't taken, though free space lists it.
pub fn not_to_be_taken()
    ensures { NotToBeTaken }
{}

/// A file is mapped while a scan waits for its inode: the rebuilt tree has the mapping once.
pub fn held_inode()
    ensures { HeldInode }
{}

/// An inode is taken and mapped behind a scan's cursor.
pub fn behind_cursor()
    ensures { BehindCursor }
{}

/// A unit that contradicts itself is given up, and nothing is written.
pub fn given_up_whole()
    ensures { GivenUpWhole }
{}

/// A crash in a switch leaves the old root or the new one.
pub fn either_root()
    ensures { EitherRoot }
{}

/// A rebuild that was cut off after its first block is repaired by the next session.
pub fn cut_reserved()
    ensures { CutReserved }
{}

/// So is one that was cut off after its switch; after reaping nothing is left to do.
pub fn cut_switched()
    ensures { CutSwitched }
{}

/// A block whose count is at its limit isn't shared.
pub fn not_to_be_shared()
    ensures { NotToBeShared }
{}

/// An owner of free space is found: both indexes are marked, and nothing else changes.
pub fn owned_space()
    ensures { OwnedSpace }
{}

/// A crash after an unmapping's fork: the next repair frees its run.
pub fn cut_run()
    ensures { CutRun }
{}

/// A rebuild without a block to take is given up.
pub fn given_up_space()
    ensures { GivenUpSpace }
{}

/// The counter of an inode btree's blocks follows where heads keep it.
pub fn inode_blocks()
    ensures { InodeBlocks }
{}

/// A new session keeps what a tree claims that couldn't be read.
pub fn claims_kept()
    ensures { ClaimsKept }
{}

/// No mark names a bad block of a sick tree, or a short list where no block is needed.
pub fn not_to_be_marked()
    ensures { NotToBeMarked }
{}

/// A list isn't filled above 16 blocks, no inode is given back by a sick btree, and no group is named that isn't there.
pub fn not_to_be_given()
    ensures { NotToBeGiven }
{}

/// A step of counts that moves no block leaves reverse mappings unmarked, and no tree is marked twice.
pub fn marked_once()
    ensures { MarkedOnce }
{}

/// A short list isn't trimmed, and the last blocks of a long one stay.
pub fn trims_front()
    ensures { TrimsFront }
{}

/// Limbo gains a block where the list has no room for it, and not while it has.
pub fn limbo_due()
    ensures { LimboDue }
{}

/// Both lists tell which blocks left the front: of a list that stays none, and each of its cores stays.
pub fn list_taken()
    ensures { ListTaken }
{}

/// A list that stays, and has room, sends no block to limbo.
pub fn list_stays()
    ensures { ListStays }
{}

/// An inode btree takes blocks of the list and gives its own back, and each gets another owner.
pub fn do_turn()
    ensures { DoTurn }
{}

/// What a mark by itself may not say.
pub fn marks_bounded()
    ensures { MarksBounded }
{}

/// A mark by itself comes of a trimming only where the list has more than 64 blocks.
pub fn trims_long()
    ensures { TrimsLong }
{}

/// A list that an edit finds too short has at least what the entry's edits can't have taken.
pub fn list_left()
    ensures { ListLeft }
{}

/// Inode btrees turn no more blocks than they may take of the list and put onto it.
pub fn fits_trees()
    ensures { FitsTrees }
{}

/// An inode btree takes the front of the list, and no block behind it.
pub fn turns_front()
    ensures { TurnsFront }
{}

/// Behind closed gates nothing is chosen.
pub fn closed_gates()
    ensures { ClosedGates }
{}

/// A whole step of an image whose heads don't count the blocks of inode btrees.
pub fn uncounted()
    ensures { Uncounted }
{}

/// What no inode btree lists is no file.
pub fn no_file()
    ensures { NoFile }
{}

/// A count that can't rise is left and marked, where records of counts overlap.
pub fn rises_too_far()
    ensures { RisesTooFar }
{}

/// A piece is made written beside a stray record, which it joins: as one edit nothing is met.
pub fn turns_whole()
    ensures { TurnsWhole }
{}

/// A run that is trimmed after another is marked for what both make together.
pub fn trims_behind()
    ensures { TrimsBehind }
{}

/// Blocks that a btree gives to the list change their owner from the highest down.
pub fn moves_by_block()
    ensures { MovesByBlock }
{}

/// A verdict changes no group behind the last one.
pub fn behind_stays()
    ensures { BehindStays }
{}
