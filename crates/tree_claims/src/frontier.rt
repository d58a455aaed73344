ghost use Rattle.std.specs.Prelude.{◌≡◌, ℕ, ◌+◌, ◌*◌, ◌^◌, ◌<◌, ◌≤◌, ◌==◌, ◌&&◌, ◌||◌, IfOk, IfErr, OnOk, Some};
ghost use Rattle.run_sets.specs.Runs.{is_within, most};
ghost use Rattle.run_sets.specs.Sets.{has, runs_of};
ghost use Rattle.sblock.specs.Blocks.{numrecs};
ghost use Rattle.sblock.specs.Kinds.{node_most_of};
ghost use Rattle.tree_defs.specs.Claims.{Leads, is_named};
ghost use Rattle.tree_blocks.specs.Meets.{IsMemory};
ghost use Rattle.tree_blocks.specs.Calls.{Reads};
ghost use Rattle.blk_device.specs.Causes.{HasCause};
ghost use Rattle.tree_blocks.specs.Reading.{is_failed};
ghost use Rattle.tree_claims.specs.Lists.{lists};
ghost use Rattle.tree_claims.specs.Looks.{blocks_in, FindsNext, Grows, IsChildOf, IsOutside, LieBelow, LooksOn};

use crate::listed::put_block;
use byte_fields::{Block, get_u32, is_uuid_at};
use run_sets::{Run, RunSet};
use sblock::{Kind, RecKind, child_at, count_of, data_area, owner_of, place_of};
use std::alloc::Global;
use tree_blocks::{Blocks, WalkFault, lone_fault_of};
use tree_defs::Site;

// Whether the block says of itself that it is block `p` of the group, of a tree of this kind.
#[tactic(auto, unfolding(tree_defs::specs::Claims::is_named))]
fn does_name<K: RecKind>(block: &Block, site: &Site, p: u32) -> bool
    requires fits { 8 * (site.now.first + p) < 2 ^ 64 }
    ensures { result ≡ is_named K.form.kind site.now p block.now.bytes }
{
    get_u32(&block.bytes, 0) == K::kind().magic()
        && place_of(block) == 8 * (site.first + u64::from(p))
        && owner_of(block) == site.group
        && is_uuid_at(&block.bytes, 32, &site.uuid)
}

// Puts the children of a node behind a list.
fn put_children(kind: Kind, block: &Block, list: &mut Vec<u32>) -> Result<(), WalkFault>
    requires room { numrecs block.now.bytes ≤ node_most_of kind }
    ensures exact { OnOk result (Grows (lists list.old.items) (lists list.new.items) (IsChildOf kind block.now.bytes)) }
    ensures memory { IfErr result IsMemory }
{
    let area = data_area(block);
    for i in 0..count_of(block) {
        put_block(list, child_at(kind, area, i as usize))?;
    }
    Ok(())
}

// Puts the children of block `p` behind a list, where it is a node that passes its tests.
fn lead_on<K: RecKind>(
    block: &Block,
    site: &Site,
    level: u8,
    root: bool,
    p: u32,
    next: &mut Vec<u32>,
) -> Result<(), WalkFault>
    requires fits { 8 * (site.now.first + p) < 2 ^ 64 }
    ensures exact { OnOk result (Grows (lists next.old.items) (lists next.new.items) (Leads K.form site.now level root p block.now.bytes)) }
    ensures lies { LieBelow site.now.bounds.length (lists next.old.items) → OnOk result (LieBelow site.now.bounds.length (lists next.new.items)) }
    ensures memory { IfErr result IsMemory }
{
    if level == 0 {
        return Ok(());
    }
    // Its left sibling isn't asked: blocks are met as a set a level, and not from left to right.
    match lone_fault_of::<K>(block, site, level, root, p) {
        Some(_) => Ok(()),
        None => put_children(K::kind(), block, next),
    }
}

// Puts block `p` behind a list, where it is named.
fn claim<K: RecKind>(
    block: &Block,
    site: &Site,
    p: u32,
    claimed: &mut Vec<u32>,
) -> Result<(), WalkFault>
    requires fits { 8 * (site.now.first + p) < 2 ^ 64 }
    ensures exact { OnOk result ((b : ℕ) → lists claimed.new.items b ≡ (lists claimed.old.items b || ((b == p) && is_named K.form.kind site.now p block.now.bytes))) }
    ensures memory { IfErr result IsMemory }
{
    if does_name::<K>(block, site, p) {
        put_block(claimed, p)
    } else {
        Ok(())
    }
}

// Reads block `p` on this level: it is claimed where it is named, and the children of a node that
// passes are put behind `next`.
fn look_at<K: RecKind, B: Blocks>(
    blocks: &mut B,
    site: &Site,
    level: u8,
    root: bool,
    p: u32,
    claimed: &mut Vec<u32>,
    next: &mut Vec<u32>,
) -> Result<(), WalkFault>
    requires inside { p < site.now.bounds.length }
    requires here { B.place blocks.old ≡ site.now }
    ensures exact { LooksOn K.form site.now (B.told blocks.old) level root (λ b. b == p) claimed.old.items claimed.new.items next.old.items next.new.items result }
    ensures claims_lie { LieBelow site.now.bounds.length (lists claimed.old.items) → OnOk result (LieBelow site.now.bounds.length (lists claimed.new.items)) }
    ensures next_lies { LieBelow site.now.bounds.length (lists next.old.items) → OnOk result (LieBelow site.now.bounds.length (lists next.new.items)) }
    ensures refused { IfErr result IsOutside }
    ensures reading { Reads B.Blocks blocks.old blocks.new }
    ensures cause { HasCause is_failed (B.faults blocks.old) (B.faults blocks.new) result }
    ensures one { B.count blocks.new ≡ B.count blocks.old + 1 }
{
    let block = blocks.load(p)?;
    claim::<K>(&block, site, p, claimed)?;
    lead_on::<K>(&block, site, level, root, p, next)
}

// Reads the blocks of a run on this level.
fn look_along<K: RecKind, B: Blocks>(
    blocks: &mut B,
    site: &Site,
    level: u8,
    root: bool,
    run: &Run,
    claimed: &mut Vec<u32>,
    next: &mut Vec<u32>,
) -> Result<(), WalkFault>
    requires inside { run.now.start + run.now.count ≤ site.now.bounds.length }
    requires short { site.now.bounds.length ≤ most }
    requires here { B.place blocks.old ≡ site.now }
    ensures exact { LooksOn K.form site.now (B.told blocks.old) level root (λ b. is_within b run.now) claimed.old.items claimed.new.items next.old.items next.new.items result }
    ensures claims_lie { LieBelow site.now.bounds.length (lists claimed.old.items) → OnOk result (LieBelow site.now.bounds.length (lists claimed.new.items)) }
    ensures next_lies { LieBelow site.now.bounds.length (lists next.old.items) → OnOk result (LieBelow site.now.bounds.length (lists next.new.items)) }
    ensures refused { IfErr result IsOutside }
    ensures reading { Reads B.Blocks blocks.old blocks.new }
    ensures cause { HasCause is_failed (B.faults blocks.old) (B.faults blocks.new) result }
    ensures most_reads { B.count blocks.new ≤ B.count blocks.old + run.now.count }
    ensures each { OnOk result (B.count blocks.new ≡ B.count blocks.old + run.now.count) }
{
    for p in run.start..run.start + run.count {
        look_at::<K, B>(blocks, site, level, root, p, claimed, next)?;
    }
    Ok(())
}

/// Reads the blocks of one level of a tree, each once: those that are named are put behind the list
/// `claimed`, and the children of the nodes that pass their tests are answered, as often as they are
/// pointed to (group-relative blocks)
/// (XFS Algorithms and Data Structures, "Short Format B+trees").
pub fn look_level<K: RecKind, B: Blocks>(
    alloc: Global,
    blocks: &mut B,
    site: &Site,
    level: u8,
    root: bool,
    reached: &RunSet,
    claimed: &mut Vec<u32>,
) -> Result<Vec<u32>, WalkFault>
    requires inside { LieBelow site.now.bounds.length (has reached.now) }
    requires short { site.now.bounds.length ≤ most }
    requires here { B.place blocks.old ≡ site.now }
    ensures exact { FindsNext K.form site.now (B.told blocks.old) level root (has reached.now) claimed.old.items claimed.new.items result }
    ensures claims_lie { LieBelow site.now.bounds.length (lists claimed.old.items) → OnOk result (LieBelow site.now.bounds.length (lists claimed.new.items)) }
    ensures next_lies { IfOk result (λ next. LieBelow site.now.bounds.length (lists next.items)) }
    ensures refused { IfErr result IsOutside }
    ensures reading { Reads B.Blocks blocks.old blocks.new }
    ensures cause { HasCause is_failed (B.faults blocks.old) (B.faults blocks.new) result }
    ensures few { B.count blocks.new ≤ B.count blocks.old + site.now.bounds.length }
    ensures each { OnOk result (B.count blocks.new ≡ B.count blocks.old + blocks_in (runs_of reached.now)) }
{
    let mut next = Vec::new(alloc);
    let runs = reached.runs();
    for run in runs {
        look_along::<K, B>(blocks, site, level, root, run, claimed, &mut next)?;
    }
    Ok(next)
}
