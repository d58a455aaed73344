ghost use Rattle.fs_state.specs.Edits.{EditLaw};
ghost use Rattle.fs_state.specs.Frame.{BadTreesStand, ForksOfInodes, FrameLaw, OpeningLaw, PairsAreASet};
ghost use Rattle.fs_state.specs.Group.{GroupLaw};

/// A law: what an event neither touches nor edits is as it was: free lists, counters, trees, cores,
/// and forks that can be read; and a fork that can't be read still can't.
pub fn frame_law()
    ensures { FrameLaw }
{}

/// A law: an edit of one tree of an event leaves the others that the event edits readable as they were.
pub fn edit_law()
    ensures { EditLaw }
{}

/// A law: what an event of one group doesn't name is as it was, every other group as a whole, and what
/// always holds holds again.
pub fn group_law()
    ensures { GroupLaw }
{}

/// A law: a tree that couldn't be read at opening claims the blocks of that moment and has no record,
/// whatever is written later.
pub fn bad_trees_stand()
    ensures { BadTreesStand }
{}

/// A law: what waits to be freed is a set of blocks with owners: in whatever order they are kept, and
/// how often, the state is the same.
pub fn limbo_is_a_set()
    ensures { PairsAreASet }
{}

/// A law: a core that stands in no chunk has no forks, whatever its bytes say.
pub fn forks_of_inodes()
    ensures { ForksOfInodes }
{}

/// A law: where no block of metadata has two claims at opening, what always holds begins to hold.
pub fn opening_law()
    ensures { OpeningLaw }
{}
