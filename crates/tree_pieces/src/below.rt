ghost use Rattle.std.specs.Prelude.{◌≡◌, List, ℕ, ◌+◌, ◌*◌, ◌<◌, ◌≤◌, ◌==◌, ◌++◌, ◌∷◌, [], nat_le, if◌then◌else◌, true, IfOk, IfErr, OnOk, IfSome, IfNone, Some, None};
ghost use Rattle.sblock.specs.Area.{area_of, child_of};
ghost use Rattle.sblock.specs.Blocks.{numrecs, is_rising, records_of};
ghost use Rattle.sblock.specs.Kinds.{leaf_most_of, node_most_of};
ghost use Rattle.tree_blocks.specs.Calls.{Reads};
ghost use Rattle.tree_blocks.specs.Meets.{IsMemory};
ghost use Rattle.blk_device.specs.Causes.{HasCause};
ghost use Rattle.tree_blocks.specs.Reading.{is_failed};
ghost use Rattle.tree_find.specs.Next.{place_above, records_above, AreAbove};
ghost use Rattle.tree_pieces.specs.Meets.{MeetsFirst, MeetsMet};
ghost use Rattle.tree_pieces.specs.Pieces.{first_piece as first_piece_of, piece_behind as piece_behind_of, piece_below, leaf_piece, is_first, met_with};

use byte_fields::Block;
use sblock::{RecKind, count_of, data_area};
use std::alloc::Global;
use tree_blocks::{Blocks, WalkFault, open_block};
use tree_defs::Site;
use tree_find::{child_in, place_after, records_after, start_for};

// The block is met now.
fn meet(met: &mut Vec<u32>, p: u32) -> Result<(), WalkFault>
    ensures done { OnOk result (met.new.items ≡ met.old.items ++ p ∷ []) }
    ensures memory { IfErr result IsMemory }
{
    met.push(p)?;
    Ok(())
}

// The block is met now where none of its keys is at the key or before it.
fn meet_if(met: &mut Vec<u32>, p: u32, place: usize) -> Result<(), WalkFault>
    ensures done { OnOk result (met.new.items ≡ met_with (place == 0) p met.old.items) }
    ensures memory { IfErr result IsMemory }
{
    if place == 0 {
        return meet(met, p);
    }
    Ok(())
}

// The records above the key in the first leaf below a block of this level that isn't the root, and
// all blocks on the way to it.
fn first_piece<K: RecKind, B: Blocks>(
    alloc: Global,
    blocks: &mut B,
    site: &Site,
    level: u8,
    p: u32,
    after: &Option<K::Key>,
    met: &mut Vec<u32>,
) -> Result<Vec<K::Rec>, WalkFault>
    requires inside { p < site.now.bounds.length }
    requires here { B.place blocks.old ≡ site.now }
    ensures exact { (m : ℕ → List ℕ) → B.told blocks.old ≡ Some m → MeetsFirst (first_piece_of K.form site.now m after.now level p met.old.items) result met.new.items }
    ensures sound { IfOk result (λ recs. AreAbove K.form site.now.bounds after.now recs.items) }
    ensures reading { Reads B.Blocks blocks.old blocks.new }
    ensures cause { HasCause is_failed (B.faults blocks.old) (B.faults blocks.new) result }
    ensures few { B.count blocks.new ≤ B.count blocks.old + level + 1 }
{
    let block = open_block::<K, B>(blocks, site, level, false, p)?;
    meet(met, p)?;
    if level == 0 {
        return records_after::<K>(alloc, &block, after);
    }
    let child = child_in::<K>(&block, 0);
    first_piece::<K, B>(alloc, blocks, site, level - 1, child, after, met)
}

// Those of the first leaf below entry `i` of a node, if it has one; its children are of this level.
fn piece_behind<K: RecKind, B: Blocks>(
    alloc: Global,
    blocks: &mut B,
    site: &Site,
    level: u8,
    block: &Block,
    i: usize,
    after: &Option<K::Key>,
    met: &mut Vec<u32>,
) -> Result<Option<Vec<K::Rec>>, WalkFault>
    requires most { numrecs block.now.bytes ≤ node_most_of K.form.kind }
    requires inside { (k : ℕ) → k < numrecs block.now.bytes → child_of K.form.kind (area_of block.now.bytes) k < site.now.bounds.length }
    requires here { B.place blocks.old ≡ site.now }
    ensures exact { (m : ℕ → List ℕ) → B.told blocks.old ≡ Some m → MeetsMet (piece_behind_of K.form site.now m after.now level block.now.bytes i met.old.items) result met.new.items }
    ensures sound { IfOk result (λ found. IfSome found (λ recs. AreAbove K.form site.now.bounds after.now recs.items)) }
    ensures reading { Reads B.Blocks blocks.old blocks.new }
    ensures cause { HasCause is_failed (B.faults blocks.old) (B.faults blocks.new) result }
    ensures few { B.count blocks.new ≤ B.count blocks.old + level + 1 }
    ensures none { IfOk result (λ found. IfNone found (B.count blocks.new ≡ B.count blocks.old)) }
{
    if i >= count_of(block) as usize {
        return Ok(None);
    }
    let child = child_in::<K>(block, i);
    let recs = first_piece::<K, B>(alloc, blocks, site, level, child, after, met)?;
    Ok(Some(recs))
}

// The piece of a leaf: its records above the key, if there are any or the leaf is first met.
fn leaf_records<K: RecKind>(
    alloc: Global,
    block: &Block,
    p: u32,
    after: &Option<K::Key>,
    met: &mut Vec<u32>,
) -> Result<Option<Vec<K::Rec>>, WalkFault>
    requires room { numrecs block.now.bytes ≤ leaf_most_of K.form.kind }
    requires rising { is_rising K.form true (area_of block.now.bytes) (numrecs block.now.bytes) ≡ true }
    ensures above { IfOk result (λ found. IfSome found (λ recs. recs.items ≡ records_above K.form after.now (records_of K.form block.now.bytes))) }
    ensures none { IfOk result (λ found. IfNone found (leaf_piece (is_first K.form after.now true block.now.bytes) (records_above K.form after.now (records_of K.form block.now.bytes)) ≡ None)) }
    ensures some { IfOk result (λ found. IfSome found (λ recs. leaf_piece (is_first K.form after.now true block.now.bytes) (records_above K.form after.now (records_of K.form block.now.bytes)) ≡ Some recs.items)) }
    ensures met { OnOk result (met.new.items ≡ met_with (is_first K.form after.now true block.now.bytes) p met.old.items) }
    ensures memory { IfErr result IsMemory }
{
    let place = place_after::<K>(data_area(block), true, count_of(block), after);
    meet_if(met, p, place)?;
    let recs = records_after::<K>(alloc, block, after)?;
    if place > 0 && recs.is_empty() {
        return Ok(None);
    }
    Ok(Some(recs))
}

/// The records above the key in the first leaf below a block of this level that has some, and with
/// them the blocks on the way that are first met; none where no leaf below it has one.
pub fn piece_node<K: RecKind, B: Blocks>(
    alloc: Global,
    blocks: &mut B,
    site: &Site,
    level: u8,
    root: bool,
    p: u32,
    after: &Option<K::Key>,
    met: &mut Vec<u32>,
) -> Result<Option<Vec<K::Rec>>, WalkFault>
    requires inside { p < site.now.bounds.length }
    requires here { B.place blocks.old ≡ site.now }
    ensures exact { (m : ℕ → List ℕ) → B.told blocks.old ≡ Some m → MeetsMet (piece_below K.form site.now m after.now level root p met.old.items) result met.new.items }
    ensures sound { IfOk result (λ found. IfSome found (λ recs. AreAbove K.form site.now.bounds after.now recs.items)) }
    ensures reading { Reads B.Blocks blocks.old blocks.new }
    ensures cause { HasCause is_failed (B.faults blocks.old) (B.faults blocks.new) result }
    ensures few { B.count blocks.new ≤ B.count blocks.old + (if nat_le level 8 then 2 * level + 1 else 1) }
    ensures none { IfOk result (λ found. IfNone found (B.count blocks.new ≤ B.count blocks.old + level + 1)) }
{
    let block = open_block::<K, B>(blocks, site, level, root, p)?;
    if level == 0 {
        return leaf_records::<K>(alloc, &block, p, after, met);
    }
    let place = place_after::<K>(data_area(&block), false, count_of(&block), after);
    meet_if(met, p, place)?;
    let start = start_for::<K>(&block, after);
    let child = child_in::<K>(&block, start);
    let found = piece_node::<K, B>(alloc, blocks, site, level - 1, false, child, after, met)?;
    match found {
        Some(recs) => Ok(Some(recs)),
        None => piece_behind::<K, B>(
            alloc,
            blocks,
            site,
            level - 1,
            &block,
            start + 1,
            after,
            met,
        ),
    }
}
