ghost use Rattle.std.specs.Prelude.{◌≡◌, ◌-◌, ℕ, List, length, take};
ghost use Rattle.dinode_core.specs.declared.inode.Core3.{Core3};
ghost use Rattle.fs_change.specs.Marks.{longest_list};
ghost use Rattle.fs_change.specs.Step.{to_trim};
ghost use Rattle.span_recs.specs.declared.refcount.RefcRec.{RefcRec};
ghost use Rattle.rule_laws.specs.Forks.{AddsAlike, ConvertsAlike, OccupiedAlike, PieceAlike, TakesAlike};
ghost use Rattle.rule_laws.specs.Groups.{ChoosesAlike, CountsAlike, QuietAlike};
ghost use Rattle.rule_laws.specs.Inodes.{CoresAlike, FindsLowest, FindsNone, GivesInode, MakesAlike, TakesInode, TurnsAlike};
ghost use Rattle.rule_laws.specs.Limbo.{JoinsAlike, LeavesAlike, LongestAlike, OwnersAlike};
ghost use Rattle.rule_laws.specs.Runs.{ChunkRunsAlike};
ghost use Rattle.rule_laws.specs.Switches.{LastIsGreatest, SumsAlike, SwitchesAlike};

use free_space::{MOST_LISTED, WANTED_LISTED};
use fs_state::limbo_is_a_set;

/// A law: a mapping that the rule adds to a fork's list in order makes the list that a step has, and the
/// rule finds an offset occupied where a step would not find all of the mapping's free
/// (XFS Algorithms and Data Structures, "Data Extents").
pub fn adds_alike()
    ensures added { AddsAlike }
    ensures occupied { OccupiedAlike }
{}

/// A law: a piece that the rule takes out leaves the list that a step has, and the piece that it answers
/// is one that a step may name (XFS Algorithms and Data Structures, "Data Extents").
pub fn takes_alike()
    ensures taken { TakesAlike }
    ensures piece { PieceAlike }
{}

/// A law: a piece that the rule takes out and adds again, as a conversion does, makes the list that a step
/// has (XFS Algorithms and Data Structures, "Data Extents").
pub fn converts_alike()
    ensures { ConvertsAlike }
{}

/// A law: the entries that the rule gives back of a free list are those that a step may trim, of a list
/// with more blocks than one that isn't trimmed (XFS Algorithms and Data Structures, "AG Free List").
pub fn trims_alike()
    ensures given { (list : List ℕ) → take (length list - WANTED_LISTED) list ≡ to_trim list }
    ensures longest { MOST_LISTED ≡ longest_list }
{}

/// A law: the run that the rule chooses of groups is the one that a step takes of the usable ones, and it
/// chooses none where that takes none (XFS Algorithms and Data Structures, "AG Free Space B+trees").
pub fn chooses_alike()
    ensures { ChoosesAlike }
{}

/// A law: of records of free space that lie apart, asked in their order, the first one in which a chunk of
/// inodes fits gives the run that a step takes of the group
/// (XFS Algorithms and Data Structures, "Inode Allocation").
pub fn chunk_runs_alike()
    ensures { ChunkRunsAlike }
{}

/// A law: the stretch of equal counts that the rule tells, and its count, are those of a step
/// (XFS Algorithms and Data Structures, "Reference Count B+tree").
pub fn counts_alike()
    ensures { (rs : List RefcRec) (b n : ℕ) → CountsAlike rs b n }
{}

/// A law: a group is quiet exactly where the drain counts no unfinished intent of it
/// (XFS Online Fsck Design, "Intent Drains").
pub fn quiet_alike()
    ensures { QuietAlike }
{}

/// A law: a run that leaves limbo leaves the limbo of the state, block by block with its owner, and a
/// unit's owner is the same in both
/// (XFS Online Fsck Design, "Reaping After Repairing Ondisk Metadata").
pub fn leaves_alike()
    ensures left { LeavesAlike }
    ensures owner { OwnersAlike }
{}

/// A law: a block that joins limbo with its owner joins the limbo of the state
/// (XFS Online Fsck Design, "Reaping After Repairing Ondisk Metadata").
pub fn joins_alike()
    ensures { JoinsAlike }
{
    limbo_is_a_set();
}

/// A law: the longest run of free space that the heads get at a switch is that of a step
/// (XFS Algorithms and Data Structures, "AG Free Space Block").
pub fn switches_alike()
    ensures { LongestAlike }
{}

/// A law: the totals of free space that the rule tells of the records by count are those of a step: all
/// their blocks, and those of the longest run
/// (XFS Algorithms and Data Structures, "AG Free Space Block").
pub fn totals_alike()
    ensures sums { SumsAlike }
    ensures longest { LastIsGreatest }
{}

/// A law: each counter of the heads that the rule makes is the one of the state that a switch reaches, where
/// the rule is given the blocks of the new trees and the totals of what they hold
/// (XFS Algorithms and Data Structures, "AG Free Space Block", "AG Inode Management").
pub fn counters_alike()
    ensures { SwitchesAlike }
{}

/// A law: the record of a chunk of which the rule takes an inode, or gives one back, is the one that a step
/// has, and the lowest free inode is the same
/// (XFS Algorithms and Data Structures, "Inode B+trees").
pub fn inodes_alike()
    ensures taken { TakesInode }
    ensures given { GivesInode }
    ensures lowest { FindsLowest }
    ensures none { FindsNone }
{}

/// A law: both inode btrees after a step have what the rule tells of the chunk, and a new chunk's record
/// is the rule's (XFS Algorithms and Data Structures, "Inode B+trees", "Inode Allocation").
pub fn chunks_alike()
    ensures turned { TurnsAlike }
    ensures made { MakesAlike }
{}

/// A law: the cores that the rule makes of an inode that is taken, given back, or made with its chunk are
/// those that a step has (XFS Algorithms and Data Structures, "On-disk Inode").
pub fn cores_alike()
    ensures { (core : Core3) (uid ino : ℕ) (uuid : List ℕ) → CoresAlike core uid ino uuid }
{}
