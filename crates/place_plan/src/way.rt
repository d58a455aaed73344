ghost use Rattle.std.specs.Prelude.{◌≡◌, ◌+◌, ◌-◌, ◌*◌, ◌^◌, ◌<◌, ◌≤◌, ◌==◌, nat_lt, if◌then◌else◌, ℕ, List, None, Some, false, IfOk, OnOk, length};
ghost use Rattle.blk_device.specs.Causes.{HasCause};
ghost use Rattle.edit_terms.specs.Faults.{is_devices};
ghost use Rattle.sblock.specs.Area.{area_of, child_of};
ghost use Rattle.sblock.specs.Blocks.{numrecs, most_of};
ghost use Rattle.sblock.specs.Kinds.{node_most_of};
ghost use Rattle.tree_blocks.specs.Calls.{Reads};
ghost use Rattle.place_plan.specs.Counts.{most_at, touches, LeadsInside};

use crate::ask::{Ask, Below, Seen, Spot};
use crate::beside::touch_right;
use crate::leaf::plan_leaf;
use crate::open::open;
use crate::plan::Plan;
use crate::sizes::{least, most};
use edit_terms::EditFault;
use sblock::{RecKind, count_of};
use tree_blocks::Blocks;
use tree_defs::Site;
use tree_find::{child_in, start_for};

/// The first of the two entries that are looked at where the child of entry `i` has too few: the one
/// before it and it, or it and the next one.
pub fn pair_at(i: usize) -> usize
    ensures at { result ≡ i - 1 }
    ensures within { (n : ℕ) → 1 < n → i < n → result + 1 < n }
{
    i.saturating_sub(1)
}

// The entry beside one of so many, the one before it where there is one.
fn entry_beside(i: usize, n: u16) -> usize
    requires two { 1 < n }
    requires within { i < n }
    ensures { result < n }
{
    if i > 0 {
        return i - 1;
    }
    1
}

// Where the child of an entry of a node is.
#[tactic(auto, using(crate::proofs::SizeLemmas::leads_in))]
fn spot_below<K: RecKind>(seen: &Seen, site: &Site, entry: usize) -> Spot
    requires above { 1 ≤ seen.now.spot.level }
    requires most { numrecs seen.now.block.bytes ≤ node_most_of K.form.kind }
    requires entry { entry < numrecs seen.now.block.bytes }
    requires leads { LeadsInside K.form site.now.bounds.length seen.now.block.bytes }
    ensures inside { result.block < site.now.bounds.length }
    ensures level { result.level ≡ seen.now.spot.level - 1 }
    ensures root { result.root ≡ false }
    ensures child { result.block ≡ child_of K.form.kind (area_of seen.now.block.bytes) entry }
{
    let _length = site.bounds.length;
    let block = child_in::<K>(&seen.block, entry);
    Spot {
        level: seen.spot.level - 1,
        root: false,
        block,
    }
}

// Two neighbours become one: the right sibling of the right one of them is changed.
fn plan_merge<K: RecKind, B: Blocks>(
    blocks: &mut B,
    site: &Site,
    seen: &Seen,
    entry: usize,
    plan: &mut Plan,
) -> Result<(), EditFault>
    requires here { B.place blocks.old ≡ site.now }
    requires above { 1 ≤ seen.now.spot.level }
    requires most { numrecs seen.now.block.bytes ≤ node_most_of K.form.kind }
    requires entry { entry < numrecs seen.now.block.bytes }
    requires leads { LeadsInside K.form site.now.bounds.length seen.now.block.bytes }
    requires room { length plan.old.touched < 48 }
    ensures many { length plan.new.touched ≤ length plan.old.touched + 1 }
    ensures need { plan.new.need ≡ plan.old.need }
    ensures reading { Reads B.Blocks blocks.old blocks.new }
    ensures cause { HasCause is_devices (B.faults blocks.old) (B.faults blocks.new) result }
    ensures few { B.count blocks.new ≤ B.count blocks.old + 2 }
{
    let spot = spot_below::<K>(seen, site, entry);
    let block = open::<K, B>(blocks, site, spot)?;
    touch_right::<K, B>(blocks, site, &Seen { spot, block }, plan)
}

// Child `entry` of a node has too few: it borrows from the child beside it, or becomes one with it.
// Answers how many entries the node has then.
fn plan_pair<K: RecKind, B: Blocks>(
    blocks: &mut B,
    site: &Site,
    seen: &Seen,
    below: Below,
    plan: &mut Plan,
) -> Result<u16, EditFault>
    requires here { B.place blocks.old ≡ site.now }
    requires above { 1 ≤ seen.now.spot.level }
    requires most { numrecs seen.now.block.bytes ≤ node_most_of K.form.kind }
    requires two { 1 < numrecs seen.now.block.bytes }
    requires entry { below.entry < numrecs seen.now.block.bytes }
    requires leads { LeadsInside K.form site.now.bounds.length seen.now.block.bytes }
    requires room { length plan.old.touched + 2 ≤ 48 }
    ensures many { length plan.new.touched ≤ length plan.old.touched + 2 }
    ensures need { plan.new.need ≡ plan.old.need }
    ensures after { IfOk result (λ after. after ≤ numrecs seen.now.block.bytes) }
    ensures reading { Reads B.Blocks blocks.old blocks.new }
    ensures cause { HasCause is_devices (B.faults blocks.old) (B.faults blocks.new) result }
    ensures few { B.count blocks.new ≤ B.count blocks.old + 3 }
{
    let count = count_of(&seen.block);
    let other = entry_beside(below.entry, count);
    let spot = spot_below::<K>(seen, site, other);
    let near = open::<K, B>(blocks, site, spot)?;
    plan.touched.push(spot.block);
    let sum = u32::from(below.has) + u32::from(count_of(&near));
    if sum > u32::from(most::<K>(spot.level)) {
        return Ok(count);
    }
    // The right one of the two is freed.
    let right = below.entry.max(other);
    plan_merge::<K, B>(blocks, site, seen, right, plan)?;
    Ok(count - 1)
}

// How many entries a node has once its child is cut in two, borrows, or becomes one with another.
#[tactic(auto, using(crate::proofs::SizeLemmas::node_small))]
fn plan_node<K: RecKind, B: Blocks>(
    blocks: &mut B,
    site: &Site,
    seen: &Seen,
    below: Below,
    plan: &mut Plan,
) -> Result<u16, EditFault>
    requires here { B.place blocks.old ≡ site.now }
    requires above { 1 ≤ seen.now.spot.level }
    requires most { numrecs seen.now.block.bytes ≤ node_most_of K.form.kind }
    requires entry { below.entry < numrecs seen.now.block.bytes }
    requires leads { LeadsInside K.form site.now.bounds.length seen.now.block.bytes }
    requires room { length plan.old.touched + 2 ≤ 48 }
    ensures many { length plan.new.touched ≤ length plan.old.touched + (if nat_lt (most_at K.form.kind (seen.now.spot.level - 1)) below.has then 0 else 2) }
    ensures need { plan.new.need ≡ plan.old.need }
    ensures after { IfOk result (λ after. after ≤ numrecs seen.now.block.bytes + (if nat_lt (most_at K.form.kind (seen.now.spot.level - 1)) below.has then 1 else 0)) }
    ensures reading { Reads B.Blocks blocks.old blocks.new }
    ensures cause { HasCause is_devices (B.faults blocks.old) (B.faults blocks.new) result }
    ensures few { B.count blocks.new ≤ B.count blocks.old + 3 }
{
    let count = count_of(&seen.block);
    let level = seen.spot.level - 1;
    if below.has > most::<K>(level) {
        return Ok(count + 1);
    }
    if below.has < least::<K>(level) && count > 1 {
        return plan_pair::<K, B>(blocks, site, seen, below, plan);
    }
    Ok(count)
}

// A block that would have too many is cut in two: that takes a block, and the right sibling is changed.
fn plan_full<K: RecKind, B: Blocks>(
    blocks: &mut B,
    site: &Site,
    seen: &Seen,
    after: u16,
    plan: &mut Plan,
) -> Result<(), EditFault>
    requires here { B.place blocks.old ≡ site.now }
    requires room { length plan.old.touched < 48 }
    requires needs { plan.old.need + 1 < 2 ^ 32 }
    ensures many { length plan.new.touched ≤ length plan.old.touched + (if nat_lt (most_at K.form.kind seen.now.spot.level) after then 1 else 0) }
    ensures need { plan.new.need ≡ plan.old.need + (if nat_lt (most_at K.form.kind seen.now.spot.level) after then 1 else 0) }
    ensures reading { Reads B.Blocks blocks.old blocks.new }
    ensures cause { HasCause is_devices (B.faults blocks.old) (B.faults blocks.new) result }
    ensures few { B.count blocks.new ≤ B.count blocks.old + 1 }
{
    if after <= most::<K>(seen.spot.level) {
        return Ok(());
    }
    plan.need += 1;
    touch_right::<K, B>(blocks, site, seen, plan)
}

/// Plans an edit below a block of the tree: answers how many records or entries the block has
/// afterwards, before it is cut in two or becomes one with another. At each level at most three blocks are
/// noted, and at most one of the free list is needed. Refuses with the first bad block that is read,
/// Missing, Overlap, or Failed where the device failed; it takes no memory.
pub fn plan_below<K: RecKind, B: Blocks>(
    blocks: &mut B,
    ask: &Ask<K::Rec>,
    spot: Spot,
    plan: &mut Plan,
) -> Result<u16, EditFault>
    requires inside { spot.block < ask.now.site.bounds.length }
    requires here { B.place blocks.old ≡ ask.now.site }
    requires room { length plan.old.touched + 3 * spot.level + 2 ≤ 48 }
    requires needs { plan.old.need + spot.level + 2 < 2 ^ 32 }
    ensures many { IfOk result (λ after. length plan.new.touched ≤ length plan.old.touched + 3 * spot.level + touches K.form.kind spot.level after) }
    ensures need { OnOk result (plan.new.need ≤ plan.old.need + spot.level + 1) }
    ensures reading { Reads B.Blocks blocks.old blocks.new }
    ensures cause { HasCause is_devices (B.faults blocks.old) (B.faults blocks.new) result }
    ensures few { B.count blocks.new ≤ B.count blocks.old + 5 * spot.level + 3 }
{
    let block = open::<K, B>(blocks, &ask.site, spot)?;
    let seen = Seen { spot, block };
    plan.touched.push(spot.block);
    if spot.level == 0 {
        let held = plan_leaf::<K, B>(blocks, ask, &seen)?;
        plan_full::<K, B>(blocks, &ask.site, &seen, held, plan)?;
        return Ok(held);
    }
    let entry = start_for::<K>(&seen.block, &Some(K::key_of(&ask.rec)));
    let child = spot_below::<K>(&seen, &ask.site, entry);
    let has = plan_below::<K, B>(blocks, ask, child, plan)?;
    let after = plan_node::<K, B>(blocks, &ask.site, &seen, Below { entry, has }, plan)?;
    plan_full::<K, B>(blocks, &ask.site, &seen, after, plan)?;
    Ok(after)
}
