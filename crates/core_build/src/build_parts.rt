// The parts of a reserving piece that ask neither the device nor the journal.
ghost use Rattle.std.specs.Prelude.{◌≡◌, ◌<◌, ◌++◌, ◌∷◌, [], true, IfOk, OnOk};
ghost use Rattle.core_build.specs.Pieces.{IfMemory, IsMet, KeepsBuild, work_by};
ghost use Rattle.core_build.specs.Says.{IsNextBy, space_in};
ghost use Rattle.core_units.specs.Judging.{IsJudging};
ghost use Rattle.core_units.specs.Rebuilt.{IsNext, IsRebuilding, IsSpareBelow, IsSteady};
ghost use Rattle.geom.specs.Places.{layout};

use core_calls::ScrubFault;
use core_edit::EditHeads;
use core_parts::common::space_trust;
use core_parts::{GroupKept, UnitState, Work};
use core_units::{Judging, Next, Rebuild, Staging, begin_rebuild, choose_next, ready, take_next};
use geom::Geometry;
use group_trees::{GroupHeads, free_list};
use std::alloc::Global;

// The heads with the free list as its blocks.
fn listed(alloc: Global, heads: &EditHeads) -> Result<GroupHeads, ScrubFault>
    ensures memory { IfMemory result }
{
    match free_list(alloc, &heads.list) {
        Ok(list) => Ok(GroupHeads {
            agf: heads.agf,
            agi: heads.agi,
            list,
        }),
        Err(_) => Err(ScrubFault::Memory),
    }
}

/// A unit that was judged, to be rebuilt. Without memory what was judged is lost
/// (XFS Online Fsck Design, "Reconstructing Metadata: Bulk Loading").
pub(crate) fn begun(
    alloc: Global,
    geo: &Geometry,
    kept: &GroupKept,
    g: u32,
    judging: Judging,
) -> Result<Rebuild, ScrubFault>
    requires group { g < geo.now.agcount }
    requires judged { IsJudging (layout geo.now) g judging }
    ensures rebuilding { IfOk result (IsRebuilding (layout geo.now) g) }
    ensures unit { IfOk result (λ rebuild. rebuild.building.unit ≡ judging.unit) }
    ensures memory { IfMemory result }
{
    let heads = listed(alloc, &kept.heads)?;
    match begin_rebuild(alloc, geo, g, &heads, judging, kept.limbo.as_slice()) {
        Ok(rebuild) => Ok(rebuild),
        Err(_) => Err(ScrubFault::Memory),
    }
}

// What a rebuild needs next, with this free list.
fn next_in(kept: &GroupKept, list: &[u32], rebuild: &mut Rebuild) -> Next
    requires steady { IsSteady rebuild.old }
    ensures keeps { KeepsBuild rebuild.old rebuild.new }
    ensures spare { IsSpareBelow rebuild.new.length result }
    ensures chosen { IsNext (space_in kept.now.trust) list.now
        rebuild.old.trees rebuild.old.building result }
    ensures reserve { rebuild.new.building.reserve ≡ rebuild.old.building.reserve }
{
    choose_next(space_trust(kept), list, rebuild)
}

/// What a rebuild needs next (XFS Online Fsck Design, "Metadata Repair").
pub(crate) fn next_of(
    alloc: Global,
    kept: &GroupKept,
    rebuild: &mut Rebuild,
) -> Result<Next, ScrubFault>
    requires steady { IsSteady rebuild.old }
    ensures keeps { KeepsBuild rebuild.old rebuild.new }
    ensures spare { IfOk result (IsSpareBelow rebuild.new.length) }
    ensures chosen { IfOk result (IsNextBy kept.now rebuild.old) }
    ensures reserve { OnOk result (rebuild.new.building.reserve ≡ rebuild.old.building.reserve) }
    ensures memory { IfMemory result }
{
    match free_list(alloc, &kept.heads.list) {
        Ok(list) => Ok(next_in(kept, list.as_slice(), rebuild)),
        Err(_) => Err(ScrubFault::Memory),
    }
}

/// Takes a block into the reserve, and answers whether the need is met
/// (XFS Online Fsck Design, "Metadata Repair").
pub(crate) fn take_block(
    rebuild: &mut Rebuild,
    block: u32,
    is_spare: bool,
) -> Result<bool, ScrubFault>
    requires steady { IsSteady rebuild.old }
    requires inside { block < rebuild.old.length }
    ensures keeps { KeepsBuild rebuild.old rebuild.new }
    ensures behind { OnOk result
        (rebuild.new.building.reserve.items ≡ rebuild.old.building.reserve.items ++ block ∷ []) }
    ensures memory { IfMemory result }
{
    match take_next(rebuild, block, is_spare) {
        Ok(is_met) => Ok(is_met),
        Err(_) => Err(ScrubFault::Memory),
    }
}

/// Makes the lists ready to be staged; the answer is false where there is no memory for that
/// (XFS Online Fsck Design, "Reconstructing Metadata: Bulk Loading").
pub(crate) fn made_ready(alloc: Global, rebuild: &mut Rebuild) -> bool
    requires steady { IsSteady rebuild.old }
    ensures keeps { KeepsBuild rebuild.old rebuild.new }
    ensures met { result ≡ true → IsMet rebuild.new }
    ensures reserve { rebuild.new.building.reserve ≡ rebuild.old.building.reserve }
{
    match ready(alloc, rebuild) {
        Ok(()) => true,
        Err(_) => false,
    }
}

/// The same, where the need is met.
pub(crate) fn ready_if(alloc: Global, rebuild: &mut Rebuild, is_met: bool) -> bool
    requires steady { IsSteady rebuild.old }
    ensures keeps { KeepsBuild rebuild.old rebuild.new }
    ensures met { result ≡ true → IsMet rebuild.new }
    ensures reserve { rebuild.new.building.reserve ≡ rebuild.old.building.reserve }
{
    if !is_met {
        return false;
    }
    made_ready(alloc, rebuild)
}

// How far the unit is after a piece of the reserving that was answered so.
fn work_after(rebuild: Rebuild, answer: &Result<bool, ScrubFault>) -> Work
    ensures { result ≡ work_by rebuild answer.now }
{
    match answer {
        Ok(is_met) => {
            if *is_met {
                Work::Reserved(rebuild, Staging::First(0))
            } else {
                Work::Building(rebuild)
            }
        }
        Err(fault) => match fault {
            ScrubFault::GaveUp(_) => Work::Spent(rebuild),
            _ => Work::Building(rebuild),
        },
    }
}

/// Makes the rebuild the unit's work again, after a piece of the reserving that was answered so
/// (XFS Online Fsck Design, "Metadata Repair").
pub(crate) fn put_work(unit: &mut UnitState, rebuild: Rebuild, answer: &Result<bool, ScrubFault>)
    ensures work { unit.new.work ≡ work_by rebuild answer.now }
    ensures group { unit.new.group ≡ unit.old.group }
    ensures rest { unit.new ≡ record unit.old { work = unit.new.work } }
{
    unit.work = work_after(rebuild, answer);
}
