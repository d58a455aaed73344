// What the btrees of a unit must hold once a switch has let go of the old ones.
ghost use Rattle.std.specs.Prelude.{◌≡◌, ◌^◌, ◌<◌, ◌++◌, All, IfOk, OnOk, map};
ghost use Rattle.core_units.specs.Lasting.{AreListsAfter, LieWithin, is_lost, is_whole_tree, lost_piece, pieces_after};
ghost use Rattle.rmap_recs.specs.Rmap.{rmap_form};
ghost use Rattle.run_sets.specs.Runs.{AreRunsBelow};
ghost use Rattle.sblock.specs.Blocks.{IsRising};
ghost use Rattle.unit_plan.specs.Joined.{AreRunsOf, ClaimOnce};
ghost use Rattle.unit_plan.specs.Sets.{pieces_of};

use crate::{Lists, put_group, put_owners};
use block_reap::{LimboRun, unit_owner};
use fs_model::{Claim, Unit};
use geom::Geometry;
use group_trees::{GroupHeads, GroupTrees, TreeSeen, recs_of};
use rmap_recs::RmapRec;
use run_sets::Run;
use std::alloc::{AllocError, Global};
use unit_plan::{ClaimSet, Memory, Piece};

fn is_whole<R>(seen: &TreeSeen<R>) -> bool
    ensures { result ≡ is_whole_tree seen.now }
{
    match seen {
        TreeSeen::Whole(_) => true,
        TreeSeen::Bad { .. } => false,
    }
}

// Those of a switch of reverse mappings: none where free space by start can't be read.
fn lost_unlisted(
    alloc: Global,
    length: u32,
    trees: &GroupTrees,
    set: &ClaimSet,
) -> Result<Vec<Run>, AllocError>
    requires { LieWithin length trees.now (pieces_of set.now) }
    ensures { IfOk result (λ runs. AreRunsBelow (is_lost Unit.Rmap trees.now (pieces_of set.now)) length runs.items) }
{
    if !is_whole(&trees.bno) {
        return Ok(Vec::new(alloc));
    }
    set.lost_unlisted(alloc, length, recs_of(&trees.bno))
        .map_err(|_| AllocError)
}

/// The blocks that a switch of the unit puts into limbo, besides what is left of the reserve
/// (XFS Online Fsck Design, "Reaping After Repairing Ondisk Metadata").
pub fn lost_blocks(
    alloc: Global,
    length: u32,
    unit: Unit,
    trees: &GroupTrees,
    set: &ClaimSet,
) -> Result<Vec<Run>, AllocError>
    requires { LieWithin length trees.now (pieces_of set.now) }
    ensures { IfOk result (λ runs. AreRunsBelow (is_lost unit trees.now (pieces_of set.now)) length runs.items) }
{
    match unit {
        Unit::Inode => set
            .lost_trees(alloc, length, is_whole(&trees.ino), is_whole(&trees.fino))
            .map_err(|_| AllocError),
        Unit::Rmap => lost_unlisted(alloc, length, trees, set),
        Unit::Free => {
            let owner = unit_owner(Unit::Free).number();
            set.lost_unclaimed(alloc, Unit::Free, length, owner, recs_of(&trees.rmap))
                .map_err(|_| AllocError)
        }
        Unit::Refc => {
            let owner = unit_owner(Unit::Refc).number();
            set.lost_unclaimed(alloc, Unit::Refc, length, owner, recs_of(&trees.rmap))
                .map_err(|_| AllocError)
        }
    }
}

// Puts the lost blocks as the group's.
fn put_lost(set: &mut ClaimSet, owner: u64, lost: &[Run]) -> Result<(), Memory>
    ensures { OnOk result (pieces_of set.new ≡ pieces_of set.old ++ map (lost_piece owner) lost.now) }
{
    for run in lost {
        set.put(Piece {
            claim: Claim::Limbo,
            run: *run,
            owner,
            word: 0,
        })?;
    }
    Ok(())
}

// All claims after a switch of reverse mappings: the old btree's blocks aren't claimed any more, and the
// lost ones wait to be freed.
fn claims_after(
    alloc: Global,
    geo: &Geometry,
    g: u32,
    heads: &GroupHeads,
    trees: &GroupTrees,
    limbo: &[LimboRun],
    owners: &[RmapRec],
    chunks: &[u32],
    lost: &[Run],
) -> Result<ClaimSet, Memory>
    requires { All (λ u. u < 2 ^ 26) chunks.now }
    ensures { IfOk result (λ set. pieces_of set ≡ pieces_after geo.now.log g heads.now.list.items trees.now limbo.now owners.now chunks.now lost.now) }
{
    let mut set = ClaimSet::new(alloc);
    let list = heads.list.as_slice();
    put_group(&mut set, geo.log, g, list, trees, false, limbo, chunks)?;
    put_owners(&mut set, owners)?;
    put_lost(&mut set, unit_owner(Unit::Rmap).number(), lost)?;
    Ok(set)
}

// The reverse mappings that the group must have once its btree of them is switched, as the reserve is now.
fn mappings_after(
    alloc: Global,
    geo: &Geometry,
    g: u32,
    heads: &GroupHeads,
    trees: &GroupTrees,
    limbo: &[LimboRun],
    owners: &[RmapRec],
    chunks: &[u32],
    lost: &[Run],
) -> Result<Vec<RmapRec>, Memory>
    requires { All (λ u. u < 2 ^ 26) chunks.now }
    ensures rising { IfOk result (λ recs. IsRising rmap_form recs.items) }
    ensures exact { ClaimOnce (pieces_after geo.now.log g heads.now.list.items trees.now limbo.now owners.now chunks.now lost.now) → IfOk result (λ recs.
        AreRunsOf (pieces_after geo.now.log g heads.now.list.items trees.now limbo.now owners.now chunks.now lost.now) recs.items) }
{
    let set = claims_after(alloc, geo, g, heads, trees, limbo, owners, chunks, lost)?;
    set.into_mappings(alloc)
}

/// The lists that a switch of the unit would put into its btrees, as the reserve is now: those of other
/// units than reverse mappings don't depend on the old btrees
/// (XFS Online Fsck Design, "Reconstructing Metadata: Bulk Loading").
pub fn after_switch(
    alloc: Global,
    geo: &Geometry,
    g: u32,
    heads: &GroupHeads,
    trees: &GroupTrees,
    lists: Lists,
    limbo: &[LimboRun],
    owners: &[RmapRec],
    chunks: &[u32],
    lost: &[Run],
) -> Result<Lists, AllocError>
    requires { All (λ u. u < 2 ^ 26) chunks.now }
    ensures { IfOk result (AreListsAfter (pieces_after geo.now.log g heads.now.list.items trees.now limbo.now owners.now chunks.now lost.now) lists) }
{
    match lists {
        Lists::Rmap { .. } => {
            match mappings_after(alloc, geo, g, heads, trees, limbo, owners, chunks, lost) {
                Ok(rmap) => Ok(Lists::Rmap { rmap }),
                Err(_) => Err(AllocError),
            }
        }
        others => Ok(others),
    }
}
