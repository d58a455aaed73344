// What waits to be freed once a unit was switched, or reopened before that.
ghost use Rattle.std.specs.Prelude.{◌≡◌, ◌||◌, ℕ, true, drop, IfOk};
ghost use Rattle.block_reap.specs.Limbo.{IsLimbo, has};
ghost use Rattle.core_units.specs.Rebuilt.{IsReady, IsSteady};
ghost use Rattle.core_units.specs.Released.{BlocksEnd, IsLimboAfter, block_runs, lost_runs, owner_in};
ghost use Rattle.core_units.specs.Tested.{RunsWithin};
ghost use Rattle.run_sets.specs.Runs.{AreMaximal};

use crate::rebuild::Rebuild;
use crate::switched::new_trees;
use block_reap::{LimboRun, merged, put, unit_owner};
use geom::Geometry;
use root_switch::Switch;
use run_sets::Run;
use std::alloc::{AllocError, Global};

/// What is known of a unit whose new blocks are staged: what its switch writes into the heads, the roots
/// of its first and of its second new btree (0 where it has one), and what waits to be freed after the
/// switch (XFS Online Fsck Design, "Writing the New Tree").
#[derive(Drop)]
pub struct Staged {
    pub switch: Switch,
    pub root: u32,
    pub second_root: u32,
    pub limbo: Vec<LimboRun>,
}

// Puts these blocks into limbo, each with this owner, and answers whether there was room for all. A call
// with as much room as blocks finds it: each block lengthens limbo by one at most.
fn put_blocks(limbo: &mut Vec<LimboRun>, blocks: &[u32], owner: u64) -> bool
    requires limbo { IsLimbo limbo.old.items }
    requires blocks { BlocksEnd blocks.now }
    ensures limbo { IsLimbo limbo.new.items }
    ensures exact { result ≡ true → (b o : ℕ) → has limbo.new.items b o ≡ (has limbo.old.items b o || has (block_runs owner blocks.now) b o) }
{
    let mut rest = blocks;
    while let Some((block, later)) = rest.split_first() {
        if limbo.len() >= limbo.capacity() {
            return false;
        }
        put(limbo, *block, owner);
        rest = later;
    }
    true
}

/// Room in limbo for the whole reserve and for so many blocks more, so that `release` never lacks it: to
/// be asked before each block that is taken
/// (XFS Online Fsck Design, "Reaping After Repairing Ondisk Metadata").
pub fn make_room(
    rebuild: &Rebuild,
    limbo: &mut Vec<LimboRun>,
    more: usize,
) -> Result<(), AllocError>
    ensures { limbo.new.items ≡ limbo.old.items }
{
    limbo.reserve(rebuild.building.reserve.len())?;
    limbo.reserve(more)
}

/// Puts the whole reserve into limbo with the unit's owner, where a unit is reopened before its switch,
/// and takes no memory. The answer is false where room lacked: never after `make_room`
/// (XFS Online Fsck Design, "Reaping After Repairing Ondisk Metadata").
pub fn release(rebuild: &Rebuild, limbo: &mut Vec<LimboRun>) -> bool
    requires steady { IsSteady rebuild.now }
    requires limbo { IsLimbo limbo.old.items }
    ensures limbo { IsLimbo limbo.new.items }
    ensures put { result ≡ true → (b o : ℕ) → has limbo.new.items b o ≡ (has limbo.old.items b o || has (block_runs (owner_in rebuild.now) rebuild.now.building.reserve.items) b o) }
{
    let blocks = rebuild.building.reserve.as_slice();
    put_blocks(limbo, blocks, unit_owner(rebuild.building.unit).number())
}

// The lost runs with their owner.
fn lost_limbo(alloc: Global, owner: u64, lost: &[Run]) -> Result<Vec<LimboRun>, AllocError>
    ensures { IfOk result (λ runs. runs.items ≡ lost_runs owner lost.now) }
{
    let mut runs = Vec::new(alloc);
    for run in lost {
        runs.push(LimboRun {
            start: run.start,
            count: run.count,
            owner,
        })?;
    }
    Ok(runs)
}

// Limbo with the lost runs, and with room for so many blocks more.
fn limbo_with(
    alloc: Global,
    limbo: &[LimboRun],
    owner: u64,
    lost: &[Run],
    more: usize,
) -> Result<Vec<LimboRun>, AllocError>
    requires limbo { IsLimbo limbo.now }
    requires lost { AreMaximal 0 lost.now }
    requires within { RunsWithin 268435456 lost.now }
    ensures limbo { IfOk result (λ runs. IsLimbo runs.items) }
    ensures exact { IfOk result (λ runs. (b o : ℕ) → has runs.items b o ≡ (has limbo.now b o || has (lost_runs owner lost.now) b o)) }
{
    let more_runs = lost_limbo(alloc, owner, lost)?;
    match merged(alloc, limbo, more_runs.as_slice()) {
        Ok(mut runs) => {
            runs.reserve(more)?;
            Ok(runs)
        }
        Err(_) => Err(AllocError),
    }
}

// The last blocks of these, at most so many.
fn tail_of(reserve: &[u32], many: usize) -> &[u32]
    ensures { (used : ℕ) × (result.now ≡ drop used reserve.now) }
{
    let used = reserve.len() - many.min(reserve.len());
    &reserve[used..]
}

// The same; each has a number after it where all have.
fn last_of(reserve: &[u32], many: usize) -> &[u32]
    ensures drops { (used : ℕ) × (result.now ≡ drop used reserve.now) }
    ensures ends { BlocksEnd reserve.now → BlocksEnd result.now }
{
    tail_of(reserve, many)
}

// The roots of the new btrees.
fn roots_of(switch: &Switch) -> (u32, u32) {
    match switch {
        Switch::Inode { ino, fino, .. } => (ino.root, fino.root),
        Switch::Rmap { rmap, .. } => (rmap.root, 0),
        Switch::Free { bno, cnt, .. } => (bno.root, cnt.root),
        Switch::Refc { refc } => (refc.root, 0),
    }
}

// What the switch writes, and how many blocks of the reserve are left.
fn switch_of(geo: &Geometry, rebuild: &Rebuild) -> Result<(Switch, usize), AllocError>
    requires { IsReady rebuild.now }
{
    let building = &rebuild.building;
    let reserve = building.reserve.as_slice();
    let counts = geo.inobtcount;
    match new_trees(counts, &rebuild.trees, &building.lists, reserve) {
        Some(made) => Ok(made),
        None => Err(AllocError),
    }
}

/// What the unit's switch writes, and what waits to be freed after it: what does now, the blocks that the
/// switch loses, and what is left of the reserve
/// (XFS Online Fsck Design, "Reaping After Repairing Ondisk Metadata").
pub fn what_switches(
    alloc: Global,
    geo: &Geometry,
    rebuild: &Rebuild,
    limbo: &[LimboRun],
) -> Result<Staged, AllocError>
    requires ready { IsReady rebuild.now }
    requires limbo { IsLimbo limbo.now }
    ensures limbo { IfOk result (λ staged. IsLimbo staged.limbo.items) }
    ensures exact { IfOk result (λ staged. (used : ℕ) × IsLimboAfter rebuild.now used limbo.now staged.limbo.items) }
{
    let building = &rebuild.building;
    let reserve = building.reserve.as_slice();
    let (switch, surplus) = switch_of(geo, rebuild)?;
    let owner = unit_owner(building.unit).number();
    let left = last_of(reserve, surplus);
    let mut after = limbo_with(alloc, limbo, owner, rebuild.lost.as_slice(), left.len())?;
    if !put_blocks(&mut after, left, owner) {
        return Err(AllocError);
    }
    let (root, second_root) = roots_of(&switch);
    Ok(Staged {
        switch,
        root,
        second_root,
        limbo: after,
    })
}
