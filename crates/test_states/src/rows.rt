ghost use Rattle.test_states.specs.Rows.{BadCore, CutUnmapping, FileOnHeads, FirstEvidence, FreshImage, FullImage, LaterForms, LostInodes, LostMapping, MovedPiece, RebuiltFreeSpace, RebuiltInodes, RebuiltMappings, RefusedSessions, RefusedVerdicts, RootOutside, SharedBlock, ShortFreeSpace, StandingSessions, ThreeClaims, TooManyLevels, TwoGroups, UnreadFork, UnreadFreeSpace, UnreadMappings, WrongLevel, WrongLongest, WrongSibling};

/// A freshly made image is good.
pub fn fresh_image()
    ensures { FreshImage }
{}

/// A free space record that is one block too short: the derived one is missing, the other extra.
pub fn short_free_space()
    ensures { ShortFreeSpace }
{}

/// A counter of a head that is one too small.
pub fn wrong_longest()
    ensures { WrongLongest }
{}

/// A free space btree with a wrong checksum still claims its root; nothing else is wrong.
pub fn unread_free_space()
    ensures { UnreadFreeSpace }
{}

/// Free space after its rebuild, with the old roots freed.
pub fn rebuilt_free_space()
    ensures { RebuiltFreeSpace }
{}

/// A lost reverse mapping of the inode chunk, which the inode btree still lists.
pub fn lost_mapping()
    ensures { LostMapping }
{}

/// Reverse mappings after their rebuild: the old root waits in limbo with its owner.
pub fn rebuilt_mappings()
    ensures { RebuiltMappings }
{}

/// A lost record of the inode btree, whose chunk reverse mappings still list.
pub fn lost_inodes()
    ensures { LostInodes }
{}

/// Both inode btrees after their rebuild: what reverse mappings should say then.
pub fn rebuilt_inodes()
    ensures { RebuiltInodes }
{}

/// A block that one file maps twice has two reverse mappings and a reference count.
pub fn shared_block()
    ensures { SharedBlock }
{}

/// An image without a free block, whose free space btree can't be read.
pub fn full_image()
    ensures { FullImage }
{}

/// A file that maps the block of the heads: its claim and that of the heads overlap.
pub fn file_on_heads()
    ensures { FileOnHeads }
{}

/// A mapping that a crash left in the reverse mappings alone is extra there.
pub fn cut_unmapping()
    ensures { CutUnmapping }
{}

/// A core that doesn't verify in a chunk that both trees list.
pub fn bad_core()
    ensures { BadCore }
{}

/// A root node that points to itself, on a level that its child can't have.
pub fn wrong_level()
    ensures { WrongLevel }
{}

/// A root that lies outside the group claims nothing, so its old block is extra in the reverse mappings.
pub fn root_outside()
    ensures { RootOutside }
{}

/// A reference count btree that is said to have ten levels.
pub fn too_many_levels()
    ensures { TooManyLevels }
{}

/// A root with a right sibling.
pub fn wrong_sibling()
    ensures { WrongSibling }
{}

/// Reverse mappings that can't be read have that one fault.
pub fn unread_mappings()
    ensures { UnreadMappings }
{}

/// A file whose fork leads outside its group.
pub fn unread_fork()
    ensures { UnreadFork }
{}

/// A file whose shared piece was written anew elsewhere.
pub fn moved_piece()
    ensures { MovedPiece }
{}

/// A tree with a record in a form that isn't supported yet stops its own unit, and no other.
pub fn later_forms()
    ensures { LaterForms }
{}

/// Which evidence is shown first: a form that isn't supported before two trees that can't be read, these before a core, a core before claims that overlap.
pub fn first_evidence()
    ensures { FirstEvidence }
{}

/// Two files share a block that a third has in its attribute fork: the first two claims are shown.
pub fn three_claims()
    ensures { ThreeClaims }
{}

/// Two groups with a log, a fork's own btree that reaches both groups, a shared piece and an attribute fork.
pub fn two_groups()
    ensures { TwoGroups }
{}

/// What isn't the verdict of an image: good where there are faults, another count, another order, another
/// reason.
pub fn refused_verdicts()
    ensures { RefusedVerdicts }
{}

/// What isn't a session: units out of order, left out or judged twice, verdicts that the plan rules out,
/// and units that are skipped for another one.
pub fn refused_sessions()
    ensures { RefusedSessions }
{}

/// Sessions that stand: all rebuilt, units that fell after their verdict, as many turns as were given, cut
/// short, never begun.
pub fn standing_sessions()
    ensures { StandingSessions }
{}
