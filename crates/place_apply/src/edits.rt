// An edit of a tree, from its root down and back up.
ghost use Rattle.std.specs.Prelude.{◌≡◌, ◌+◌, ◌-◌, ◌*◌, ◌^◌, ◌<◌, ◌≤◌, ℕ, length, IfOk};
ghost use Rattle.ag_headers.specs.Ring.{entries};
ghost use Rattle.blk_device.specs.Causes.{HasCause};
ghost use Rattle.edit_terms.specs.Faults.{is_devices};
ghost use Rattle.sblock.specs.Blocks.{numrecs};
ghost use Rattle.sblock.specs.Kinds.{node_most_of};
ghost use Rattle.tree_blocks.specs.Calls.{Reads};
ghost use Rattle.place_plan.specs.Counts.{LeadsInside};
ghost use Rattle.place_apply.specs.Drafts.{IsDraft, ArePlacedInside};

use crate::draft::{free, take};
use crate::items::Piece;
use crate::leaf::leaf_items;
use crate::look::look;
use crate::node::{Turn, node_items};
use crate::rewrite::{even, put_piece, rewrite};
use crate::task::{NO_BLOCK, Parts, Task};
use ag_headers::Agfl;
use byte_fields::Block;
use edit_terms::EditFault;
use list_edit::Edit;
use over_blocks::Draft;
use place_cells::Stand;
use place_plan::{Ask, Seen, Spot, least, pair_at};
use sblock::{BlockFault, RecKind, count_of};
use std::alloc::Global;
use tree_blocks::{Blocks, TreeAt, top_level};
use tree_defs::Site;
use tree_find::{child_in, start_for};

// The spot of an entry's child; with `alone`, one that may have fewer than a block beside others.
#[tactic(auto, using(place_plan::proofs::SizeLemmas::leads_in))]
fn spot_below<K: RecKind>(seen: &Seen, site: &Site, entry: usize, alone: bool) -> Spot
    requires above { 1 ≤ seen.now.spot.level }
    requires most { numrecs seen.now.block.bytes ≤ node_most_of K.form.kind }
    requires entry { entry < numrecs seen.now.block.bytes }
    requires leads { LeadsInside K.form site.now.bounds.length seen.now.block.bytes }
    ensures inside { result.block < site.now.bounds.length }
    ensures level { result.level ≡ seen.now.spot.level - 1 }
{
    let _length = site.bounds.length;
    let block = child_in::<K>(&seen.block, entry);
    Spot {
        level: seen.spot.level - 1,
        root: alone,
        block,
    }
}

// What stands in the place of an entry's child once it was edited. Where it has too few, it and the
// child beside it are evened.
fn settle<K: RecKind, B: Blocks>(
    blocks: &mut B,
    task: &Task<K::Rec>,
    draft: &mut Draft,
    seen: &Seen,
    made: Turn<K::Key>,
) -> Result<Turn<K::Key>, EditFault>
    requires above { 1 ≤ seen.now.spot.level }
    requires most { numrecs seen.now.block.bytes ≤ node_most_of K.form.kind }
    requires leads { LeadsInside K.form task.now.ask.site.bounds.length seen.now.block.bytes }
    requires entry { made.at + made.gone ≤ numrecs seen.now.block.bytes }
    requires one { made.gone ≡ 1 }
    requires here { B.place blocks.old ≡ task.now.ask.site }
    requires draft { IsDraft task.now draft.old }
    ensures within { IfOk result (λ turn. turn.at + turn.gone ≤ numrecs seen.now.block.bytes) }
    ensures draft { IsDraft task.now draft.new }
    ensures reading { Reads B.Blocks blocks.old blocks.new }
    ensures cause { HasCause is_devices (B.faults blocks.old) (B.faults blocks.new) result }
{
    let least = least::<K>(seen.spot.level - 1);
    if made.parts.first.count >= least || count_of(&seen.block) < 2 {
        return Ok(made);
    }
    let at = pair_at(made.at);
    let first = spot_below::<K>(seen, &task.ask.site, at, true);
    let second = spot_below::<K>(seen, &task.ask.site, at + 1, true);
    let parts = even::<K, B>(blocks, task, draft, first, second)?;
    Ok(Turn { at, gone: 2, parts })
}

// Edits what is below a block of the tree, and the block.
fn apply_below<K: RecKind, B: Blocks>(
    blocks: &mut B,
    task: &Task<K::Rec>,
    draft: &mut Draft,
    spot: Spot,
) -> Result<Parts<K::Key>, EditFault>
    requires inside { spot.block < task.now.ask.site.bounds.length }
    requires here { B.place blocks.old ≡ task.now.ask.site }
    requires draft { IsDraft task.now draft.old }
    ensures draft { IsDraft task.now draft.new }
    ensures reading { Reads B.Blocks blocks.old blocks.new }
    ensures cause { HasCause is_devices (B.faults blocks.old) (B.faults blocks.new) result }
{
    let block = look::<K, B>(blocks, draft, &task.ask.site, spot)?;
    if spot.level == 0 {
        let items = leaf_items::<K>(&block, &task.ask)?;
        return rewrite::<K, B>(blocks, task, draft, spot, &items);
    }
    let seen = Seen { spot, block };
    let at = start_for::<K>(&seen.block, &Some(K::key_of(&task.ask.rec)));
    let below = spot_below::<K>(&seen, &task.ask.site, at, false);
    let parts = apply_below::<K, B>(blocks, task, draft, below)?;
    let made = Turn { at, gone: 1, parts };
    let turn = settle::<K, B>(blocks, task, draft, &seen, made)?;
    let items = node_items::<K>(&seen.block, &turn)?;
    rewrite::<K, B>(blocks, task, draft, spot, &items)
}

// A root of the free list over two blocks of a level. No tree has more than nine levels.
fn grow<K: RecKind>(
    task: &Task<K::Rec>,
    draft: &mut Draft,
    level: u8,
    parts: Parts<K::Key>,
) -> Result<(), EditFault>
    requires place { 8 * (task.now.ask.site.first + task.now.ask.site.bounds.length) < 2 ^ 64 }
    requires draft { IsDraft task.now draft.old }
    ensures draft { IsDraft task.now draft.new }
    ensures quiet { (n : ℕ) → HasCause is_devices n n result }
{
    if level >= 8 {
        return Err(EditFault::Bad {
            block: draft.root,
            fault: BlockFault::Level,
        });
    }
    let (at, gone) = (0, 0);
    let items = node_items::<K>(&Block::zeroed(), &Turn { at, gone, parts })?;
    let root = take(task, draft)?;
    let stand = Stand {
        at: root,
        level: level + 1,
        left: NO_BLOCK,
        right: NO_BLOCK,
    };
    let piece = Piece {
        from: 0,
        count: items.count,
        stand,
    };
    put_piece::<K>(task, draft, &items, piece)?;
    draft.root = root;
    draft.levels = u32::from(level) + 2;
    Ok(())
}

// The one child of the root becomes the root, which is freed.
fn shrink<K: RecKind, B: Blocks>(
    blocks: &mut B,
    task: &Task<K::Rec>,
    draft: &mut Draft,
    spot: Spot,
) -> Result<(), EditFault>
    requires inside { spot.block < task.now.ask.site.bounds.length }
    requires above { 1 ≤ spot.level }
    requires here { B.place blocks.old ≡ task.now.ask.site }
    requires draft { IsDraft task.now draft.old }
    ensures draft { IsDraft task.now draft.new }
    ensures reading { Reads B.Blocks blocks.old blocks.new }
    ensures cause { HasCause is_devices (B.faults blocks.old) (B.faults blocks.new) result }
{
    let block = look::<K, B>(blocks, draft, &task.ask.site, spot)?;
    let child = child_in::<K>(&block, 0);
    free(task, draft, spot.block)?;
    draft.root = child;
    draft.levels = u32::from(spot.level);
    Ok(())
}

// Edits the tree from its root, which grows where it was cut in two, and goes where it has one child
// left.
fn apply_all<K: RecKind, B: Blocks>(
    blocks: &mut B,
    task: &Task<K::Rec>,
    draft: &mut Draft,
    spot: Spot,
) -> Result<(), EditFault>
    requires inside { spot.block < task.now.ask.site.bounds.length }
    requires here { B.place blocks.old ≡ task.now.ask.site }
    requires draft { IsDraft task.now draft.old }
    ensures draft { IsDraft task.now draft.new }
    ensures reading { Reads B.Blocks blocks.old blocks.new }
    ensures cause { HasCause is_devices (B.faults blocks.old) (B.faults blocks.new) result }
{
    let parts = apply_below::<K, B>(blocks, task, draft, spot)?;
    if parts.second.is_some() {
        return grow::<K>(task, draft, spot.level, parts);
    }
    if task.ask.how == Edit::Remove && spot.level > 0 && parts.first.count == 1 {
        return shrink::<K, B>(blocks, task, draft, spot);
    }
    Ok(())
}

/// Edits a tree in memory: makes the blocks on the edit's way as they become, with blocks from the
/// front of the free list. Nothing is promised of their bytes: who uses the draft compares it. Refuses
/// with a bad block that is read, Missing, Short, Failed where the device failed, or for want of memory
/// (XFS Algorithms and Data Structures, "Short Format B+trees").
pub fn apply<K: RecKind, B: Blocks>(
    alloc: Global,
    blocks: &mut B,
    ask: &Ask<K::Rec>,
    tree: &TreeAt,
    list: &Agfl,
) -> Result<Draft, EditFault>
    requires here { B.place blocks.old ≡ ask.now.site }
    ensures taken { IfOk result (λ draft. draft.taken ≤ length (entries list.now)) }
    ensures inside { IfOk result (λ draft. ArePlacedInside ask.now.site.bounds.length draft.placed.items) }
    ensures reading { Reads B.Blocks blocks.old blocks.new }
    ensures cause { HasCause is_devices (B.faults blocks.old) (B.faults blocks.new) result }
{
    let mut draft = Draft {
        root: tree.root,
        levels: tree.levels,
        placed: Vec::new(alloc),
        taken: 0,
        freed: Vec::new(alloc),
    };
    if tree.root == 0 || tree.root >= ask.site.bounds.length {
        return Err(EditFault::Bad {
            block: tree.root,
            fault: BlockFault::Range,
        });
    }
    let task = Task {
        ask: *ask,
        list: *list,
        lsn: tree.lsn,
    };
    let spot = Spot {
        level: top_level(tree.levels),
        root: true,
        block: tree.root,
    };
    apply_all::<K, B>(blocks, &task, &mut draft, spot)?;
    Ok(draft)
}
