// Whether an edit that was made in memory is the edit of its tree, by the blocks on its way alone.
ghost use Rattle.std.specs.Prelude.{◌≡◌, ◌+◌, ◌<◌, ◌≤◌, [], true, false, IfOk, IfSome};
ghost use Rattle.blk_device.specs.Causes.{HasCause};
ghost use Rattle.sblock.specs.Area.{area_of};
ghost use Rattle.sblock.specs.Blocks.{numrecs, is_rising};
ghost use Rattle.sblock.specs.Kinds.{node_most_of};
ghost use Rattle.sblock.specs.Meets.{parts_blocks};
ghost use Rattle.list_edit.specs.declared.edits.Edit.TheVariants.{Remove as IsRemove};
ghost use Rattle.place_turns.specs.Edits.{MayStand};
ghost use Rattle.tree_blocks.specs.Calls.{Reads};
ghost use Rattle.tree_blocks.specs.Reading.{is_failed};
ghost use Rattle.tree_blocks.specs.Told.{WhereTold};
ghost use Rattle.way_check.specs.Checks.{is_placed, IsStep, IsWay, LeadsOn};
ghost use Rattle.way_check.specs.Checks.{IsMade, IsPlain, IsStill};

use crate::leaf::is_leaf;
use crate::node::is_node;
use crate::way::does_pass;
use byte_fields::Block;
use list_edit::Edit;
use over_blocks::Draft;
use place_plan::{Ask, Spot, most};
use sblock::{Kind, RecKind, count_of};
use tree_blocks::{Blocks, TreeAt, WalkFault, open_block};
use tree_find::{child_in, start_for};

// The entry of a node on the record's way, and its child; none where that is no block of the
// group.
fn child_below<K: RecKind>(block: &Block, ask: &Ask<K::Rec>) -> Option<(usize, u32)>
    requires room { numrecs block.now.bytes ≤ node_most_of K.form.kind }
    requires rising { is_rising K.form false (area_of block.now.bytes) (numrecs block.now.bytes) ≡ true }
    requires some { 1 ≤ numrecs block.now.bytes }
    ensures { IfSome result (λ x. LeadsOn K.form ask.now block.now.bytes x.0 x.1) }
{
    let at = start_for::<K>(block, &Some(K::key_of(&ask.rec)));
    let child = child_in::<K>(block, at);
    if child == 0 || child >= ask.site.bounds.length {
        return None;
    }
    Some((at, child))
}

// Whether a block with this number was made.
fn has_block(placed: &[(u32, Block)], block: u32) -> bool
    ensures { result ≡ is_placed block placed.now }
{
    let mut rest = placed;
    while let Some(((first, _), later)) = rest.split_first() {
        if *first == block {
            return true;
        }
        rest = later;
    }
    false
}

// Whether nothing was made.
fn are_none(placed: &[(u32, Block)]) -> bool
    ensures { result ≡ true → placed.now ≡ [] }
{
    placed.is_empty()
}

// The child that the way goes on to, where the new node has the keys of the block that was made
// last of those below it, which are of this level; else none.
fn step_below<K: RecKind>(
    old: &Block,
    new: &Block,
    ask: &Ask<K::Rec>,
    level: u8,
    lower: &[(u32, Block)],
) -> Option<u32>
    requires room { numrecs old.now.bytes ≤ node_most_of K.form.kind }
    requires rising { is_rising K.form false (area_of old.now.bytes) (numrecs old.now.bytes) ≡ true }
    requires some { 1 ≤ numrecs old.now.bytes }
    requires new_room { numrecs new.now.bytes ≤ node_most_of K.form.kind }
    ensures { IfSome result (λ child.
        IsStep K.form ask.now level old.now.bytes new.now.bytes lower.now child) }
{
    let Some((at, child)) = child_below::<K>(old, ask) else {
        return None;
    };
    let Some((top, _)) = lower.split_last() else {
        return None;
    };
    if top.0 != child || count_of(&top.1) > most::<K>(level) {
        return None;
    }
    if !is_node::<K>(old, new, at, &top.1, level, &ask.site.bounds) {
        return None;
    }
    Some(child)
}

// Whether each block on the way from this one down to the leaf was made of the old one, and these
// are all that were made, from the leaf upwards.
fn is_way<K: RecKind, B: Blocks>(
    blocks: &mut B,
    ask: &Ask<K::Rec>,
    spot: Spot,
    placed: &[(u32, Block)],
) -> Result<bool, WalkFault>
    requires inside { spot.block < ask.now.site.bounds.length }
    requires here { B.place blocks.old ≡ ask.now.site }
    ensures way { IfOk result (λ yes. yes ≡ true →
        WhereTold (B.told blocks.old) (λ m. IsWay K.form ask.now placed.now m spot)) }
    ensures reading { Reads B.Blocks blocks.old blocks.new }
    ensures cause { HasCause is_failed (B.faults blocks.old) (B.faults blocks.new) result }
    ensures few { B.count blocks.new ≤ B.count blocks.old + spot.level + 1 }
{
    let Some((last, lower)) = placed.split_last() else {
        return Ok(false);
    };
    let old = open_block::<K, B>(blocks, &ask.site, spot.level, spot.root, spot.block)?;
    if last.0 != spot.block || !does_pass::<K>(&ask.site, spot, &old, &last.1) {
        return Ok(false);
    }
    if spot.level == 0 {
        if !are_none(lower) {
            return Ok(false);
        }
        return Ok(is_leaf::<K>(&old, &last.1, ask));
    }
    if has_block(lower, spot.block) {
        return Ok(false);
    }
    match step_below::<K>(&old, &last.1, ask, spot.level - 1, lower) {
        None => Ok(false),
        Some(block) => {
            let below = Spot {
                level: spot.level - 1,
                root: false,
                block,
            };
            is_way::<K, B>(blocks, ask, below, lower)
        }
    }
}

// Whether no block belongs to two records of a tree of this kind.
fn are_blocks_parted(kind: Kind) -> bool
    ensures { result ≡ parts_blocks kind }
{
    match kind {
        Kind::Bno | Kind::Refc => true,
        Kind::Cnt | Kind::Rmap | Kind::Ino | Kind::Fino => false,
    }
}

// Whether the record is taken out.
fn is_remove(how: Edit) -> bool
    ensures { result ≡ true → how ≡ IsRemove }
{
    match how {
        Edit::Remove => true,
        Edit::Insert | Edit::Change => false,
    }
}

// Whether a record's key alone bars it.
fn is_plain<K: RecKind>(how: Edit) -> bool
    ensures { result ≡ true → IsPlain K.form how }
{
    is_remove(how) || !are_blocks_parted(K::kind())
}

// Whether what is put in is in range, and of a supported form.
fn may_stand<K: RecKind>(ask: &Ask<K::Rec>) -> bool
    ensures { result ≡ true → MayStand K.form ask.now.site ask.now.how ask.now.rec }
{
    is_remove(ask.how) || (K::is_in_range(&ask.rec, &ask.site.bounds) && K::is_supported(&ask.rec))
}

// Whether no block is taken or freed, and the root stays.
fn is_still(tree: &TreeAt, draft: &Draft) -> bool
    ensures { result ≡ true → IsStill tree.now draft.now }
{
    draft.root == tree.root
        && draft.levels == tree.levels
        && draft.taken == 0
        && draft.freed.is_empty()
}

/// Whether an edit that was made in memory is the edit of its tree, in the tree's own blocks, by
/// the blocks on its way alone: at most one block a level is read. False where blocks are taken or
/// freed, and where a record elsewhere may bar the new one
/// (XFS Algorithms and Data Structures, "Short Format B+trees").
pub fn is_made<K: RecKind, B: Blocks>(
    blocks: &mut B,
    ask: &Ask<K::Rec>,
    tree: &TreeAt,
    draft: &Draft,
) -> Result<bool, WalkFault>
    requires here { B.place blocks.old ≡ ask.now.site }
    ensures made { IfOk result (λ yes. yes ≡ true →
        IsMade K.form ask.now tree.now (B.told blocks.old) draft.now) }
    ensures reading { Reads B.Blocks blocks.old blocks.new }
    ensures cause { HasCause is_failed (B.faults blocks.old) (B.faults blocks.new) result }
    ensures few { B.count blocks.new ≤ B.count blocks.old + tree.now.levels }
{
    let size = ask.site.bounds.length;
    if tree.levels == 0 || tree.levels > 9 || tree.root >= size {
        return Ok(false);
    }
    if !is_still(tree, draft) || !is_plain::<K>(ask.how) || !may_stand::<K>(ask) {
        return Ok(false);
    }
    let spot = Spot {
        level: (tree.levels - 1) as u8,
        root: true,
        block: tree.root,
    };
    is_way::<K, B>(blocks, ask, spot, &draft.placed)
}
