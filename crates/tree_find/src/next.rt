ghost use Rattle.std.specs.Prelude.{◌≡◌, List, ℕ, ◌+◌, ◌*◌, ◌<◌, ◌≤◌, nat_le, if◌then◌else◌, true, Ok, IfOk, IfErr, IfSome, IfNone, Some};
ghost use Rattle.sblock.specs.Area.{area_of, child_of};
ghost use Rattle.sblock.specs.Blocks.{numrecs, is_rising, records_of};
ghost use Rattle.sblock.specs.Kinds.{leaf_most_of, node_most_of};
ghost use Rattle.tree_blocks.specs.Meets.{IsMemory};
ghost use Rattle.tree_blocks.specs.Calls.{Reads};
ghost use Rattle.blk_device.specs.Causes.{HasCause};
ghost use Rattle.tree_blocks.specs.Reading.{is_failed};
ghost use Rattle.tree_find.specs.Meets.{MeetsRecords, MeetsFound};
ghost use Rattle.tree_find.specs.Next.{some_of, records_above, first_below, leaf_behind, next_below, AreAbove};

use crate::places::{records_after, start_for};
use byte_fields::Block;
use sblock::{RecKind, child_at, count_of, data_area};
use std::alloc::Global;
use tree_blocks::{Blocks, WalkFault, open_block};
use tree_defs::Site;

/// The child of entry `i` of a node.
pub fn child_in<K: RecKind>(block: &Block, i: usize) -> u32
    requires { i < node_most_of K.form.kind }
    ensures { result ≡ child_of K.form.kind (area_of block.now.bytes) i }
{
    child_at(K::kind(), data_area(block), i)
}

// The records of a leaf above the key, if there are any.
fn found_after<K: RecKind>(
    alloc: Global,
    block: &Block,
    after: &Option<K::Key>,
) -> Result<Option<Vec<K::Rec>>, WalkFault>
    requires room { numrecs block.now.bytes ≤ leaf_most_of K.form.kind }
    requires rising { is_rising K.form true (area_of block.now.bytes) (numrecs block.now.bytes) ≡ true }
    ensures above { MeetsFound (Ok (some_of (records_above K.form after.now (records_of K.form block.now.bytes)))) result }
    ensures memory { IfErr result IsMemory }
{
    let recs = records_after::<K>(alloc, block, after)?;
    if recs.is_empty() {
        return Ok(None);
    }
    Ok(Some(recs))
}

// The records above the key in the first leaf below a block of this level that isn't the root.
fn first_node<K: RecKind, B: Blocks>(
    alloc: Global,
    blocks: &mut B,
    site: &Site,
    level: u8,
    p: u32,
    after: &Option<K::Key>,
) -> Result<Vec<K::Rec>, WalkFault>
    requires inside { p < site.now.bounds.length }
    requires here { B.place blocks.old ≡ site.now }
    ensures exact { (m : ℕ → List ℕ) → B.told blocks.old ≡ Some m → MeetsRecords (first_below K.form site.now m after.now level p) result }
    ensures sound { IfOk result (λ recs. AreAbove K.form site.now.bounds after.now recs.items) }
    ensures reading { Reads B.Blocks blocks.old blocks.new }
    ensures cause { HasCause is_failed (B.faults blocks.old) (B.faults blocks.new) result }
    ensures few { B.count blocks.new ≤ B.count blocks.old + level + 1 }
{
    let block = open_block::<K, B>(blocks, site, level, false, p)?;
    if level == 0 {
        return records_after::<K>(alloc, &block, after);
    }
    let child = child_in::<K>(&block, 0);
    first_node::<K, B>(alloc, blocks, site, level - 1, child, after)
}

// Those of the first leaf below entry `i` of a node, if it has one; its children are of this level.
fn behind<K: RecKind, B: Blocks>(
    alloc: Global,
    blocks: &mut B,
    site: &Site,
    level: u8,
    block: &Block,
    i: usize,
    after: &Option<K::Key>,
) -> Result<Option<Vec<K::Rec>>, WalkFault>
    requires most { numrecs block.now.bytes ≤ node_most_of K.form.kind }
    requires inside { (k : ℕ) → k < numrecs block.now.bytes → child_of K.form.kind (area_of block.now.bytes) k < site.now.bounds.length }
    requires here { B.place blocks.old ≡ site.now }
    ensures exact { (m : ℕ → List ℕ) → B.told blocks.old ≡ Some m → MeetsFound (leaf_behind K.form site.now m after.now level block.now.bytes i) result }
    ensures sound { IfOk result (λ found. IfSome found (λ recs. AreAbove K.form site.now.bounds after.now recs.items)) }
    ensures reading { Reads B.Blocks blocks.old blocks.new }
    ensures cause { HasCause is_failed (B.faults blocks.old) (B.faults blocks.new) result }
    ensures few { B.count blocks.new ≤ B.count blocks.old + level + 1 }
    ensures none { IfOk result (λ found. IfNone found (B.count blocks.new ≡ B.count blocks.old)) }
{
    if i >= count_of(block) as usize {
        return Ok(None);
    }
    let child = child_in::<K>(block, i);
    let recs = first_node::<K, B>(alloc, blocks, site, level, child, after)?;
    Ok(Some(recs))
}

/// The records above the key in the first leaf below a block of this level that has some; none
/// where no leaf below it has one.
pub fn next_node<K: RecKind, B: Blocks>(
    alloc: Global,
    blocks: &mut B,
    site: &Site,
    level: u8,
    root: bool,
    p: u32,
    after: &Option<K::Key>,
) -> Result<Option<Vec<K::Rec>>, WalkFault>
    requires inside { p < site.now.bounds.length }
    requires here { B.place blocks.old ≡ site.now }
    ensures exact { (m : ℕ → List ℕ) → B.told blocks.old ≡ Some m → MeetsFound (next_below K.form site.now m after.now level root p) result }
    ensures sound { IfOk result (λ found. IfSome found (λ recs. AreAbove K.form site.now.bounds after.now recs.items)) }
    ensures reading { Reads B.Blocks blocks.old blocks.new }
    ensures cause { HasCause is_failed (B.faults blocks.old) (B.faults blocks.new) result }
    ensures few { B.count blocks.new ≤ B.count blocks.old + (if nat_le level 8 then 2 * level + 1 else 1) }
    ensures none { IfOk result (λ found. IfNone found (B.count blocks.new ≤ B.count blocks.old + level + 1)) }
{
    let block = open_block::<K, B>(blocks, site, level, root, p)?;
    if level == 0 {
        return found_after::<K>(alloc, &block, after);
    }
    let start = start_for::<K>(&block, after);
    let child = child_in::<K>(&block, start);
    let found = next_node::<K, B>(alloc, blocks, site, level - 1, false, child, after)?;
    match found {
        Some(recs) => Ok(Some(recs)),
        None => behind::<K, B>(alloc, blocks, site, level - 1, &block, start + 1, after),
    }
}
