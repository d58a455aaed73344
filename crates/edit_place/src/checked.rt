// An edit of a tree in memory, and whether it is what it must be.
ghost use Rattle.std.specs.Prelude.{◌≡◌, ◌≤◌, ℕ, List, Ok, IfOk, IfSome, true, length, take};
ghost use Rattle.ag_headers.specs.Ring.{entries};
ghost use Rattle.blk_device.specs.Causes.{HasCause};
ghost use Rattle.list_edit.specs.Edits.{edited};
ghost use Rattle.tree_blocks.specs.Calls.{Reads};
ghost use Rattle.tree_blocks.specs.Reading.{is_failed as is_walks};
ghost use Rattle.tree_blocks.specs.Told.{WhereTold};
ghost use Rattle.tree_walk.specs.Meets.{MeetsTree};
ghost use Rattle.edit_place.specs.Checked.{HasBlocks, IsAlong, IsChecked, IsCheckedIf};
ghost use Rattle.edit_place.specs.Checked.{IsReadable, IsWithin, reads_draft};
ghost use Rattle.edit_place.specs.Stops.{is_failed};

use crate::stop::Stop;
use ag_headers::Agfl;
use draft_check::{all_placed, are_moved, are_same, are_stamped, are_theirs, none_of};
use edit_blocks::choose;
use list_edit::edit_list;
use over_blocks::{Draft, Over};
use place_apply::apply;
use place_plan::Ask;
use sblock::RecKind;
use std::alloc::{AllocError, Global};
use tree_blocks::{Blocks, TreeAt, TreeRead, WalkFault};
use tree_defs::Site;
use tree_walk::walk_site;
use way_check::is_made;

// The records and blocks of a tree that was made in memory, or its first fault.
fn walk_draft<K: RecKind, B: Blocks>(
    alloc: Global,
    blocks: &mut B,
    site: &Site,
    tree: &TreeAt,
    draft: &Draft,
) -> Result<TreeRead<K::Rec>, WalkFault>
    requires here { B.place blocks.old ≡ site.now }
    ensures exact { WhereTold (B.told blocks.old) (λ m.
        MeetsTree (reads_draft K.form site.now draft.now m) result) }
    ensures reading { Reads B.Blocks blocks.old blocks.new }
    ensures cause { HasCause is_walks (B.faults blocks.old) (B.faults blocks.new) result }
{
    let made = TreeAt {
        kind: tree.kind,
        group: tree.group,
        root: draft.root,
        levels: draft.levels,
        lsn: tree.lsn,
    };
    let mut over = Over {
        under: blocks,
        placed: &draft.placed,
    };
    walk_site::<K, Over<B>>(alloc, &mut over, site, &made)
}

// So many of the list's first blocks.
fn first_of(alloc: Global, list: &Agfl, count: u32) -> Result<Vec<u32>, AllocError>
    requires { count ≤ length (entries list.now) }
    ensures { IfOk result (λ first. first.items ≡ take count (entries list.now)) }
{
    choose(alloc, &[], list, count as usize, count)
}

// Whether the draft has the blocks that it may have, where these are the tree's before and
// afterwards, and those that it takes.
fn has_blocks(
    alloc: Global,
    before: &[u32],
    taken: &[u32],
    after: &[u32],
    draft: &Draft,
    lsn: u64,
) -> Result<bool, AllocError>
    ensures { IfOk result (λ yes. yes ≡ true →
        HasBlocks lsn before.now taken.now after.now draft.now) }
{
    let (placed, freed) = (&draft.placed, &draft.freed);
    if !are_theirs(placed, before, taken) || !all_placed(taken, placed) {
        return Ok(false);
    }
    if !none_of(placed, freed) || !are_stamped(placed, lsn) {
        return Ok(false);
    }
    are_moved(alloc, before, taken, after, freed)
}

// The tree edited in memory, if the blocks on the edit's way alone tell that it is the edit of a tree
// that is readable; the blocks are only read.
fn along<K: RecKind, B: Blocks>(
    alloc: Global,
    blocks: &mut B,
    ask: &Ask<K::Rec>,
    tree: &TreeAt,
    list: &Agfl,
) -> Result<Option<Draft>, Stop>
    requires here { B.place blocks.old ≡ ask.now.site }
    ensures along { IfOk result (λ found. IfSome found (
        IsAlong K.form ask.now tree.now (B.told blocks.old) (entries list.now))) }
    ensures reading { Reads B.Blocks blocks.old blocks.new }
    ensures cause { HasCause is_failed (B.faults blocks.old) (B.faults blocks.new) result }
{
    let draft = apply::<K, B>(alloc, blocks, ask, tree, list)?;
    let made = is_made::<K, B>(blocks, ask, tree, &draft)?;
    if !made || !are_stamped(&draft.placed, tree.lsn) {
        return Ok(None);
    }
    Ok(Some(draft))
}

// The tree edited in memory, where that is the edited list in blocks that it may have: the tree is
// read whole, before and afterwards. The blocks are only read.
fn compared<K: RecKind, B: Blocks>(
    alloc: Global,
    blocks: &mut B,
    ask: &Ask<K::Rec>,
    tree: &TreeAt,
    list: &Agfl,
) -> Result<Draft, Stop>
    requires here { B.place blocks.old ≡ ask.now.site }
    ensures checked { IfOk result (
        IsChecked K.form ask.now tree.now (B.told blocks.old) (entries list.now)) }
    ensures within { IfOk result (IsWithin ask.now.site.bounds.length (entries list.now)) }
    ensures reading { Reads B.Blocks blocks.old blocks.new }
    ensures cause { HasCause is_failed (B.faults blocks.old) (B.faults blocks.new) result }
{
    let read = walk_site::<K, B>(alloc, blocks, &ask.site, tree)?;
    let mut recs = read.recs;
    let before = read.blocks;
    edit_list::<K>(&mut recs, ask.how, &ask.rec)?;
    let draft = apply::<K, B>(alloc, blocks, ask, tree, list)?;
    let after = walk_draft::<K, B>(alloc, blocks, &ask.site, tree, &draft)?;
    let taken = first_of(alloc, list, draft.taken)?;
    let same = are_same::<K>(&recs, &after.recs);
    if !same || !has_blocks(alloc, &before, &taken, &after.blocks, &draft, tree.lsn)? {
        return Err(Stop::Unfit);
    }
    Ok(draft)
}

// The same, of a tree that is readable: along the edit's way alone, where that tells enough.
fn looked<K: RecKind, B: Blocks>(
    alloc: Global,
    blocks: &mut B,
    ask: &Ask<K::Rec>,
    tree: &TreeAt,
    list: &Agfl,
) -> Result<Draft, Stop>
    requires here { B.place blocks.old ≡ ask.now.site }
    ensures checked { IfOk result (λ draft.
        IsReadable K.form ask.now tree.now (B.told blocks.old) →
        IsChecked K.form ask.now tree.now (B.told blocks.old) (entries list.now) draft) }
    ensures within { IfOk result (IsWithin ask.now.site.bounds.length (entries list.now)) }
    ensures reading { Reads B.Blocks blocks.old blocks.new }
    ensures cause { HasCause is_failed (B.faults blocks.old) (B.faults blocks.new) result }
{
    let found = along::<K, B>(alloc, blocks, ask, tree, list)?;
    match found {
        Some(draft) => Ok(draft),
        None => compared::<K, B>(alloc, blocks, ask, tree, list),
    }
}

// The tree edited in memory, where it may be known to be readable; the blocks are only read.
pub(crate) fn checked<K: RecKind, B: Blocks>(
    alloc: Global,
    blocks: &mut B,
    ask: &Ask<K::Rec>,
    tree: &TreeAt,
    list: &Agfl,
    known: bool,
) -> Result<Draft, Stop>
    requires here { B.place blocks.old ≡ ask.now.site }
    ensures checked { IfOk result (
        IsCheckedIf K.form ask.now known tree.now (B.told blocks.old) (entries list.now)) }
    ensures within { IfOk result (IsWithin ask.now.site.bounds.length (entries list.now)) }
    ensures reading { Reads B.Blocks blocks.old blocks.new }
    ensures cause { HasCause is_failed (B.faults blocks.old) (B.faults blocks.new) result }
{
    if known {
        return looked::<K, B>(alloc, blocks, ask, tree, list);
    }
    compared::<K, B>(alloc, blocks, ask, tree, list)
}
