ghost use Rattle.std.specs.Prelude.{◌≡◌, ℕ, ◌<◌, ◌==◌, ◌||◌, false, IfOk, IfErr, OnOk};
ghost use Rattle.run_sets.specs.Runs.{most};
ghost use Rattle.run_sets.specs.Sets.{has};
ghost use Rattle.tree_blocks.specs.Meets.{IsMemory};
ghost use Rattle.tree_claims.specs.Lists.{lists};
ghost use Rattle.tree_claims.specs.Looks.{LieBelow};

use run_sets::{Run, RunSet};
use std::alloc::Global;
use tree_blocks::WalkFault;

/// Puts one block behind a list of blocks (group-relative). It refuses only where there is no memory.
pub fn put_block(list: &mut Vec<u32>, block: u32) -> Result<(), WalkFault>
    ensures exact { OnOk result ((b : ℕ) → lists list.new.items b ≡ (lists list.old.items b || (b == block))) }
    ensures memory { IfErr result IsMemory }
{
    list.push(block)?;
    Ok(())
}

/// The set of no block.
pub fn empty_set(alloc: Global) -> Result<RunSet, WalkFault>
    ensures empty { IfOk result (λ set. (b : ℕ) → has set b ≡ false) }
    ensures memory { IfErr result IsMemory }
{
    RunSet::new(alloc).map_err(|_| WalkFault::Memory)
}

// Puts one block into a set.
fn add_block(alloc: Global, set: &mut RunSet, block: u32) -> Result<(), WalkFault>
    requires low { block < most }
    ensures exact { OnOk result ((b : ℕ) → has set.new b ≡ (has set.old b || (b == block))) }
    ensures memory { IfErr result IsMemory }
{
    let run = Run {
        start: block,
        count: 1,
    };
    set.add(alloc, run).map_err(|_| WalkFault::Memory)
}

/// The set of one block.
pub fn one_block(alloc: Global, block: u32) -> Result<RunSet, WalkFault>
    requires low { block < most }
    ensures exact { IfOk result (λ set. (b : ℕ) → has set b ≡ (b == block)) }
    ensures memory { IfErr result IsMemory }
{
    let mut set = empty_set(alloc)?;
    add_block(alloc, &mut set, block)?;
    Ok(set)
}

// The blocks that are in one of the two sets.
fn joined(alloc: Global, front: &RunSet, rest: &RunSet) -> Result<RunSet, WalkFault>
    ensures exact { IfOk result (λ set. (b : ℕ) → has set b ≡ (has front.now b || has rest.now b)) }
    ensures memory { IfErr result IsMemory }
{
    front.union(alloc, rest).map_err(|_| WalkFault::Memory)
}

/// The set of the blocks of a list, in whatever order and however often they stand in it: the sets
/// of its two halves, joined, so that the time is near to linear in the list. It refuses only where
/// there is no memory (XFS Online Fsck Design, "Disposing of Old Metadata Blocks").
pub fn set_of(alloc: Global, blocks: &[u32]) -> Result<RunSet, WalkFault>
    requires low { LieBelow most (lists blocks.now) }
    ensures exact { IfOk result (λ set. (b : ℕ) → has set b ≡ lists blocks.now b) }
    ensures memory { IfErr result IsMemory }
{
    if blocks.is_empty() {
        return empty_set(alloc);
    }
    if blocks.len() == 1 {
        return one_block(alloc, blocks[0]);
    }
    let (front, rest) = blocks.split_at(blocks.len() / 2);
    let front = set_of(alloc, front)?;
    let rest = set_of(alloc, rest)?;
    joined(alloc, &front, &rest)
}
