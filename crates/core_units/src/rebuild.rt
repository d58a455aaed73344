// A unit of a group that is rebuilt: what was gathered of it, and what is reserved.
ghost use Rattle.std.specs.Prelude.{◌≡◌, ◌<◌, ◌≤◌, ℕ, IfOk, OnErr};
ghost use Rattle.core_units.specs.Judging.{IsJudging};
ghost use Rattle.core_units.specs.Rebuilt.{IsNext, IsRebuilding, IsSpareBelow, IsSteady, KeepsRest};
ghost use Rattle.core_units.specs.Reserved.{IsBuilding, IsTaken, StaysAs};
ghost use Rattle.core_units.specs.TreesFit.{CanSpareBy};
ghost use Rattle.geom.specs.Layout.{Layout};
ghost use Rattle.geom.specs.Places.{layout};

use crate::choice::{Choice, choose};
use crate::claimed::{claims_lie, runs_lie};
use crate::final_lists::{after_switch, lost_blocks};
use crate::needed::need_for;
use crate::orderly::can_take;
use crate::reserve::{Building, begin_building, no_space, take};
use crate::{Judging, Lists, all_claims};
use block_reap::LimboRun;
use fs_model::{Reason, Unit};
use geom::Geometry;
use group_trees::{GroupHeads, GroupTrees};
use rmap_recs::RmapRec;
use run_sets::Run;
use std::alloc::{AllocError, Global};
use tree_defs::Site;
use unit_plan::SpaceTrust;

/// A unit of group `group`, of `length` blocks, that is rebuilt: the group's btrees as they were read,
/// with `btreeblks` of its head then, the units that are chunks, the owners of forks, the blocks that the
/// switch loses, and what is reserved. New blocks get the log sequence number `lsn`
/// (XFS Online Fsck Design, "Reconstructing Metadata: Bulk Loading").
#[derive(Drop)]
pub struct Rebuild {
    pub group: u32,
    pub length: u32,
    pub lsn: u64,
    pub btreeblks: u32,
    pub trees: GroupTrees,
    pub chunks: Vec<u32>,
    pub owners: Vec<RmapRec>,
    pub lost: Vec<Run>,
    pub building: Building,
}

/// What a rebuild needs next: nothing, a block of the free list, one of free space; or it ends, since no
/// block is to be had (XFS Online Fsck Design, "Metadata Repair").
#[derive(Clone, Copy, Debug, PartialEq, Eq)]
pub enum Next {
    Met,
    GaveUp(Reason),
    Listed(u32),
    Spare(u32),
}

/// A unit that was judged, to be rebuilt: all claims, the blocks that its switch loses, and the lists
/// that the switch puts into its btrees. Memory is answered too where a claim reaches out of the group or
/// a derived list isn't in order, which no group that was read and judged shows
/// (XFS Online Fsck Design, "Reconstructing Metadata: Bulk Loading").
pub fn begin_rebuild(
    alloc: Global,
    geo: &Geometry,
    g: u32,
    heads: &GroupHeads,
    judging: Judging,
    limbo: &[LimboRun],
) -> Result<Rebuild, AllocError>
    requires group { g < geo.now.agcount }
    requires judged { IsJudging (layout geo.now) g judging }
    ensures rebuilding { IfOk result (IsRebuilding (layout geo.now) g) }
    ensures unit { IfOk result (λ rebuild. rebuild.building.unit ≡ judging.unit) }
{
    if !claims_lie(geo, g, heads, &judging, limbo) {
        return Err(AllocError);
    }
    let length = geo.group_len(g);
    let bounds = Site::of_group(geo, g).bounds;
    let Judging {
        unit,
        trees,
        lists,
        chunks,
        owners,
        ..
    } = judging;
    let list = heads.list.as_slice();
    let owned = owners.as_slice();
    let units = chunks.as_slice();
    let set = all_claims(alloc, geo, g, list, &trees, limbo, owned, units)?;
    let lost = lost_blocks(alloc, length, unit, &trees, &set)?;
    let lists = after_switch(
        alloc,
        geo,
        g,
        heads,
        &trees,
        lists,
        limbo,
        owned,
        units,
        lost.as_slice(),
    )?;
    if !can_take(length, &bounds, &lists) {
        return Err(AllocError);
    }
    if !runs_lie(length, lost.as_slice()) {
        return Err(AllocError);
    }
    Ok(Rebuild {
        group: g,
        length,
        lsn: heads.agf.lsn,
        btreeblks: heads.agf.btreeblks,
        trees,
        chunks,
        owners,
        lost,
        building: begin_building(alloc, unit, length, lists, set),
    })
}

// What is reserved next.
fn next_of(trust: SpaceTrust, list: &[u32], trees: &GroupTrees, building: &mut Building) -> Next
    requires trees { CanSpareBy trees.now }
    requires built { IsBuilding building.old }
    ensures exact { IsNext trust list.now trees.now building.old result }
    ensures stays { StaysAs building.old building.new }
{
    if need_for(building.unit, &building.lists) <= building.reserve.len() as u64 {
        return Next::Met;
    }
    if building.left == 0 {
        return Next::GaveUp(no_space(building));
    }
    let choice = choose(
        building.unit,
        trust,
        list,
        trees,
        &building.lists,
        &mut building.set,
    );
    match choice {
        Choice::Listed(block) => Next::Listed(block),
        Choice::Spare(block) => Next::Spare(block),
        Choice::NoBlock => Next::GaveUp(no_space(building)),
    }
}

/// Which block is reserved next, if the need isn't met: the first of the free list while that has more
/// than 8, else the lowest spare one, else the first of the list. A spare one lies in the group. Nothing
/// is taken yet (XFS Online Fsck Design, "Metadata Repair").
pub fn choose_next(trust: SpaceTrust, list: &[u32], rebuild: &mut Rebuild) -> Next
    requires steady { IsSteady rebuild.old }
    ensures exact { IsNext trust list.now rebuild.old.trees rebuild.old.building result }
    ensures spare { IsSpareBelow rebuild.old.length result }
    ensures stays { StaysAs rebuild.old.building rebuild.new.building }
    ensures rest { KeepsRest rebuild.old rebuild.new }
    ensures steady { IsSteady rebuild.new }
    ensures rebuilding { (at : Layout) (g : ℕ) → IsRebuilding at g rebuild.old → IsRebuilding at g rebuild.new }
{
    next_of(trust, list, &rebuild.trees, &mut rebuild.building)
}

/// Takes the block that was chosen into the reserve, and answers whether the need is met now. Without
/// memory, or where no block may be taken any more, the reserve stays; a spare block may be claimed then,
/// so that it isn't chosen again (XFS Online Fsck Design, "Metadata Repair").
pub fn take_next(rebuild: &mut Rebuild, block: u32, spare: bool) -> Result<bool, AllocError>
    requires steady { IsSteady rebuild.old }
    requires inside { block < rebuild.old.length }
    ensures taken { IfOk result (λ is_met. IsTaken block spare is_met rebuild.old.building rebuild.new.building) }
    ensures kept { OnErr result (rebuild.new.building.reserve.items ≡ rebuild.old.building.reserve.items) }
    ensures rest { KeepsRest rebuild.old rebuild.new }
    ensures steady { IsSteady rebuild.new }
    ensures rebuilding { (at : Layout) (g : ℕ) → IsRebuilding at g rebuild.old → IsRebuilding at g rebuild.new }
{
    if rebuild.building.left == 0 {
        return Err(AllocError);
    }
    take(&mut rebuild.building, block, spare)
}
