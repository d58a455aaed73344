// What follows from all that was gathered.
ghost use Rattle.std.specs.Prelude.{◌≡◌, ℕ, ◌+◌, ◌<◌, ◌≤◌, ◌^◌, ◌++◌, [], All, IfOk, IsTrue, map, true};
ghost use Rattle.core_units.specs.Compared.{AreFew};
ghost use Rattle.core_units.specs.Judging.{AreFewAll, IsEnd, IsFound};
ghost use Rattle.core_units.specs.Orderly.{IsOrderly};
ghost use Rattle.core_units.specs.Claims.{group_pieces, owner_piece};
ghost use Rattle.geom.specs.Places.{layout};
ghost use Rattle.group_trees.specs.Group.{tree_blocks};
ghost use Rattle.group_trees.specs.Trees.{reading_of};
ghost use Rattle.quiet_check.specs.Judged.{AreUnitsOf, cores_in};
ghost use Rattle.unit_plan.specs.Sets.{pieces_of};

use crate::compare::Place;
use crate::derivation::derived;
use crate::evidence::first_evidence;
use crate::gather::Gathered;
use crate::judging::{Concluded, Judging};
use crate::{Lists, put_group, put_owners};
use block_reap::LimboRun;
use fs_model::{Evidence, Unit};
use geom::Geometry;
use group_trees::{GroupHeads, GroupTrees, TreeSeen, recs_of};
use index_derive::UnitCores;
use inode_pass::UnitSeen;
use quiet_check::chunks_of;
use rmap_recs::RmapRec;
use std::alloc::{AllocError, Global};
use unit_plan::{Among, ClaimSet};

// Evidence, or what the unit's btrees must hold, with the units that are chunks.
#[derive(Drop)]
enum Found {
    GaveUp(Evidence),
    Lists { lists: Lists, chunks: Vec<u32> },
}

// What the cores of the units say.
fn cores_of(alloc: Global, seen: &[UnitSeen]) -> Result<Vec<UnitCores>, AllocError>
    ensures { IfOk result (λ cores. cores.items ≡ cores_in seen.now) }
{
    let mut cores = Vec::new(alloc);
    for unit in seen {
        cores.push(unit.cores)?;
    }
    Ok(cores)
}

/// All claims on the blocks of a group, from what was gathered of it
/// (XFS Online Fsck Design, "Cross-Referencing Space Metadata").
pub fn all_claims(
    alloc: Global,
    geo: &Geometry,
    g: u32,
    list: &[u32],
    trees: &GroupTrees,
    limbo: &[LimboRun],
    owners: &[RmapRec],
    chunks: &[u32],
) -> Result<ClaimSet, AllocError>
    requires { All (λ u. u < 2 ^ 26) chunks.now }
    ensures { IfOk result (λ set. pieces_of set ≡ group_pieces geo.now.log g list.now true (tree_blocks trees.now) limbo.now chunks.now ++ map owner_piece owners.now) }
{
    let mut set = ClaimSet::new(alloc);
    if put_group(&mut set, geo.log, g, list, trees, true, limbo, chunks).is_err() {
        return Err(AllocError);
    }
    if put_owners(&mut set, owners).is_err() {
        return Err(AllocError);
    }
    Ok(set)
}

// The lowest block on which two claims contradict each other that count for the unit.
fn overlap_for(unit: Unit, set: &mut ClaimSet) -> Option<Evidence> {
    match unit {
        Unit::Inode => set.first_overlap(Among::Metadata),
        Unit::Rmap => set.first_overlap(Among::All),
        _ => None,
    }
}

// Whether both lists together have fewer records than a number of 64 bits counts.
fn are_few<R>(seen: &TreeSeen<R>, derived: &[R]) -> bool
    ensures { IsTrue result → AreFew derived.now (reading_of seen.now) }
{
    match seen {
        TreeSeen::Whole(read) => read.recs.len().checked_add(derived.len()).is_some(),
        TreeSeen::Bad { .. } => true,
    }
}

// The same of all of a unit's.
fn are_few_all(trees: &GroupTrees, lists: &Lists) -> bool
    ensures { IsTrue result → AreFewAll trees.now lists.now }
{
    match lists {
        Lists::Inode { ino, fino } => {
            are_few(&trees.ino, ino.as_slice()) && are_few(&trees.fino, fino.as_slice())
        }
        Lists::Rmap { rmap } => are_few(&trees.rmap, rmap.as_slice()),
        Lists::Free { bno, cnt } => {
            are_few(&trees.bno, bno.as_slice()) && are_few(&trees.cnt, cnt.as_slice())
        }
        Lists::Refc { refc } => are_few(&trees.refc, refc.as_slice()),
    }
}

// What follows once the btrees and cores by themselves contradict nothing.
fn conclude_claims(
    alloc: Global,
    geo: &Geometry,
    g: u32,
    heads: &GroupHeads,
    unit: Unit,
    gathered: &Gathered,
    limbo: &[LimboRun],
) -> Result<Found, AllocError>
    requires group { g < geo.now.agcount }
    requires orderly { IsOrderly (layout geo.now) g gathered.now }
    requires units { AreUnitsOf (layout geo.now) g gathered.now.trees gathered.now.seen.items }
    ensures { IfOk result (IsFound unit gathered.now.trees) }
{
    let trees = &gathered.trees;
    let seen = gathered.seen.as_slice();
    let owners = gathered.owners.as_slice();
    let chunks = chunks_of(alloc, seen)?;
    let list = heads.list.as_slice();
    let mut set = all_claims(alloc, geo, g, list, trees, limbo, owners, chunks.as_slice())?;
    if let Some(found) = overlap_for(unit, &mut set) {
        return Ok(Found::GaveUp(found));
    }
    let cores = cores_of(alloc, seen)?;
    let mapped = recs_of(&trees.rmap);
    let lists = derived(alloc, geo.group_len(g), unit, mapped, cores.as_slice(), set)?;
    // They always are: no list has 2^60 records.
    if !are_few_all(trees, &lists) {
        return Err(AllocError);
    }
    Ok(Found::Lists { lists, chunks })
}

// The first evidence against the derivation, or what follows without it.
fn find(
    alloc: Global,
    geo: &Geometry,
    g: u32,
    heads: &GroupHeads,
    unit: Unit,
    gathered: &Gathered,
    limbo: &[LimboRun],
) -> Result<Found, AllocError>
    requires group { g < geo.now.agcount }
    requires orderly { IsOrderly (layout geo.now) g gathered.now }
    requires units { AreUnitsOf (layout geo.now) g gathered.now.trees gathered.now.seen.items }
    ensures { IfOk result (IsFound unit gathered.now.trees) }
{
    // What is whole was listed.
    let Some(listed) = &gathered.listed else {
        return Err(AllocError);
    };
    match first_evidence(unit, &gathered.trees, listed, gathered.seen.as_slice()) {
        Some(found) => Ok(Found::GaveUp(found)),
        None => conclude_claims(alloc, geo, g, heads, unit, gathered, limbo),
    }
}

/// What follows from all that was gathered of a unit of group `g`: the first evidence against its
/// derivation, in the order of later forms, btrees, cores and claims, or the unit with what its btrees
/// must hold, before its first comparison. `limbo` waits to be freed. No memory is the one refusal;
/// what was gathered is lost then, and the unit is to be opened again
/// (XFS Online Fsck Design, "Cross-Referencing Space Metadata").
pub fn conclude(
    alloc: Global,
    geo: &Geometry,
    g: u32,
    heads: &GroupHeads,
    unit: Unit,
    gathered: Gathered,
    limbo: &[LimboRun],
) -> Result<Concluded, AllocError>
    requires group { g < geo.now.agcount }
    requires orderly { IsOrderly (layout geo.now) g gathered }
    requires units { AreUnitsOf (layout geo.now) g gathered.trees gathered.seen.items }
    ensures { IfOk result (IsEnd (layout geo.now) g unit) }
{
    let found = find(alloc, geo, g, heads, unit, &gathered, limbo)?;
    match found {
        Found::GaveUp(evidence) => Ok(Concluded::GaveUp(evidence)),
        Found::Lists { lists, chunks } => {
            let Gathered { trees, owners, .. } = gathered;
            Ok(Concluded::Judging(Judging {
                unit,
                trees,
                lists,
                chunks,
                owners,
                at: Place::First(0),
                found: 0,
            }))
        }
    }
}
