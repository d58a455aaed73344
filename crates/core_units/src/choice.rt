// Which block is reserved next.
ghost use Rattle.std.specs.Prelude.{◌≡◌, IfSome};
ghost use Rattle.std.specs.List.Sorted.{IsPermutation};
ghost use Rattle.core_units.specs.Choices.{IsChoice, is_spare_for};
ghost use Rattle.core_units.specs.TreesFit.{CanSpare, CanSpareBy};
ghost use Rattle.fs_state.specs.State.{recs_of as recs_in};
ghost use Rattle.group_trees.specs.Trees.{reading_of};
ghost use Rattle.unit_plan.specs.Sets.{pieces_of};
ghost use Rattle.unit_plan.specs.Spare.{IsLowest, is_spare};

use crate::Lists;
use fs_model::{Trust, Unit};
use group_trees::{GroupTrees, recs_of};
use unit_plan::{ClaimSet, SpaceTrust};

/// Where the next block of a reserve comes from: the free list's front, or free space; none where
/// neither has one (XFS Online Fsck Design, "Metadata Repair").
#[derive(Clone, Copy, Debug, PartialEq, Eq)]
pub enum Choice {
    Listed(u32),
    Spare(u32),
    NoBlock,
}

// The list keeps so many blocks for other edits, while there is a spare block.
const KEPT_LISTED: usize = 8;

// The lowest spare block by the btrees that were gathered.
fn lowest_listed(
    unit: Unit,
    trust: SpaceTrust,
    trees: &GroupTrees,
    set: &mut ClaimSet,
) -> Option<u32>
    requires { CanSpareBy trees.now }
    ensures exact { IsLowest (is_spare unit trust (recs_in (reading_of trees.now.bno)) (recs_in (reading_of trees.now.rmap)) (pieces_of set.old)) result }
    ensures kept { IsPermutation (pieces_of set.old) (pieces_of set.new) }
{
    let bno = recs_of(&trees.bno);
    let rmap = recs_of(&trees.rmap);
    set.lowest_spare(unit, trust, bno, rmap)
}

// The lowest spare block for the unit.
fn lowest_spare(
    unit: Unit,
    trust: SpaceTrust,
    trees: &GroupTrees,
    lists: &Lists,
    set: &mut ClaimSet,
) -> Option<u32>
    requires { CanSpare trees.now lists.now }
    ensures exact { IsLowest (is_spare_for unit trust trees.now lists.now (pieces_of set.old)) result }
    ensures kept { IsPermutation (pieces_of set.old) (pieces_of set.new) }
{
    match lists {
        Lists::Inode { .. } => lowest_listed(unit, trust, trees, set),
        Lists::Rmap { .. } => lowest_listed(unit, trust, trees, set),
        Lists::Free { bno, .. } => set.lowest_spare(unit, trust, bno.as_slice(), &[]),
        Lists::Refc { .. } => lowest_listed(unit, trust, trees, set),
    }
}

/// The block that is reserved next: the first of the free list while that has more than 8, else the
/// lowest spare one, else the first of the list
/// (XFS Online Fsck Design, "Metadata Repair").
pub fn choose(
    unit: Unit,
    trust: SpaceTrust,
    list: &[u32],
    trees: &GroupTrees,
    lists: &Lists,
    set: &mut ClaimSet,
) -> Choice
    requires { CanSpare trees.now lists.now }
    ensures exact { IsChoice (is_spare_for unit trust trees.now lists.now (pieces_of set.old)) list.now result }
    ensures kept { IsPermutation (pieces_of set.old) (pieces_of set.new) }
{
    if list.len() > KEPT_LISTED {
        return Choice::Listed(list[0]);
    }
    if let Some(block) = lowest_spare(unit, trust, trees, lists, set) {
        return Choice::Spare(block);
    }
    match list.first() {
        Some(block) => Choice::Listed(*block),
        None => Choice::NoBlock,
    }
}
