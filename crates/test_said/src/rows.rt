ghost use Rattle.test_said.specs.Accepted.{CheckOfHeads, CheckOfInodes, CheckOfMappings, Checks, LeftInLimbo, NoBlockLeft, NothingSaid, RebuiltFreeSpace, RebuiltInodes, RebuiltMappings, RepairsOfNothing};
ghost use Rattle.test_said.specs.Refused.{FalseCauses, FalseCounts, FalseFaults, FalseGoods, NotReady, Unmade};

/// Words that aren't understood: no session, and an empty journal.
pub fn nothing_said()
    ensures { NothingSaid }
{}

/// Checks of a fresh image, of one whose free space record is a block short, of one whose free
/// space root has a wrong checksum, and of one without a free block besides.
pub fn checks()
    ensures { Checks }
{}

/// A check of an image whose chunk has lost its reverse mapping: what is read off mappings is
/// skipped.
pub fn check_of_mappings()
    ensures { CheckOfMappings }
{}

/// A check of an image whose inode record is lost: all that needs inodes is skipped.
pub fn check_of_inodes()
    ensures { CheckOfInodes }
{}

/// A check and a repair of an image with a file on the block of the heads: reverse mappings are
/// given up.
pub fn check_of_heads()
    ensures { CheckOfHeads }
{}

/// A repair of a fresh image finds nothing.
pub fn repairs_of_nothing()
    ensures { RepairsOfNothing }
{}

/// A repair rebuilds free space, and frees the old roots.
pub fn rebuilt_free_space()
    ensures { RebuiltFreeSpace }
{}

/// A repair rebuilds reverse mappings, and frees the old root.
pub fn rebuilt_mappings()
    ensures { RebuiltMappings }
{}

/// A repair rebuilds both inode btrees, whose old roots are freed behind the verdict on reverse
/// mappings.
pub fn rebuilt_inodes()
    ensures { RebuiltInodes }
{}

/// A repair that finds no block to take gives free space up.
pub fn no_block_left()
    ensures { NoBlockLeft }
{}

/// The repair of reverse mappings without its last step: all units stand, but a block that waits
/// to be freed is a fault for the next session.
pub fn left_in_limbo()
    ensures { LeftInLimbo }
{}

/// Units that are given up without a cause: free space for want of blocks where nothing was said
/// of it, where a fault was left to say, where the list has blocks, where other numbers are
/// shown; mappings for claims that don't meet.
pub fn false_causes()
    ensures { FalseCauses }
{}

/// Rebuilt without a switch, and switches and reserved blocks of a check.
pub fn unmade()
    ensures { Unmade }
{}

/// Faults that there aren't: behind the last verdict, one that was said, one out of order.
pub fn false_faults()
    ensures { FalseFaults }
{}

/// Good where a fault is left to say, and where it was said.
pub fn false_goods()
    ensures { FalseGoods }
{}

/// Faulty with another number, and before all was said.
pub fn false_counts()
    ensures { FalseCounts }
{}

/// Units that are judged though a unit that they need doesn't stand.
pub fn not_ready()
    ensures { NotReady }
{}
