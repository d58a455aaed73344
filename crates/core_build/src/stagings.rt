ghost use Rattle.std.specs.Prelude.{◌≡◌, ◌<◌, IfErr, IfOk, IfSome};
ghost use Rattle.block_reap.specs.Limbo.{IsLimbo};
ghost use Rattle.core_build.specs.Pieces.{IfMemory, staged_by, told_by};
ghost use Rattle.core_build.specs.Says.{MayStage};
ghost use Rattle.core_parts.specs.Common.Asks.{Answers, IsSame, IsUsable};
ghost use Rattle.core_parts.specs.Common.Entries.{IsHalt};
ghost use Rattle.core_parts.specs.Keeps.{IsAsked, IsGiven, IsLeft, failed_by};
ghost use Rattle.core_parts.specs.Reasons.{AnswersWell};
ghost use Rattle.core_parts.specs.Safe.{IsKept};
ghost use Rattle.core_units.specs.Rebuilt.{IsReady, IsReserved};
ghost use Rattle.core_units.specs.Staged.{IsAt};
ghost use Rattle.geom.specs.Places.{layout};
ghost use Rattle.inode_pass.specs.Stops.{is_failed as is_device};

use crate::piece_phase::other_phase;
use blk_device::Device;
use byte_fields::Steps;
use core_calls::ScrubFault;
use core_parts::common::stop_by;
use core_parts::{Desk, GroupKept, UnitState, Work};
use core_units::{Rebuild, Staged, Staging, stage_piece as stage_next, what_switches};
use inode_pass::PassStop;
use std::alloc::Global;
use std::mem;
use std::sync::ledger::Ledger;

// A switch adds two entries, and one is for a reserve that is released.
const SWITCH_ENTRIES: usize = 3;

// Whether the device failed.
fn is_failed(stop: &PassStop) -> bool
    ensures { result ≡ is_device stop.now }
{
    match stop {
        PassStop::Failed => true,
        PassStop::Memory => false,
    }
}

// Writes some of the new blocks; the last call syncs.
fn ask_stage<D: Device, L: Ledger>(
    alloc: Global,
    desk: &mut Desk<D>,
    rebuild: &Rebuild,
    at: &mut Staging,
    steps: &mut Steps<L>,
) -> Result<bool, PassStop>
    requires usable { IsUsable D.Device desk.old }
    requires group { rebuild.now.group < desk.old.store.geo.agcount }
    requires reserved { IsReserved (layout desk.old.store.geo) rebuild.now.group rebuild.now }
    requires at { IsAt rebuild.now.building.lists at.old }
    ensures asked { IsAsked D.Device (failed_by is_device result) desk.old desk.new }
    ensures at { IsAt rebuild.now.building.lists at.new }
{
    let store = &mut desk.store;
    stage_next(
        alloc,
        &mut store.dev,
        &mut store.cache,
        &store.geo,
        rebuild,
        at,
        steps,
    )
}

// The same, and whether all are written.
fn stage_more<D: Device, L: Ledger>(
    alloc: Global,
    desk: &mut Desk<D>,
    rebuild: &Rebuild,
    at: &mut Staging,
    steps: &mut Steps<L>,
) -> Result<bool, ScrubFault>
    requires usable { IsUsable D.Device desk.old }
    requires group { rebuild.now.group < desk.old.store.geo.agcount }
    requires reserved { IsReserved (layout desk.old.store.geo) rebuild.now.group rebuild.now }
    requires at { IsAt rebuild.now.building.lists at.old }
    ensures answers { Answers D.Device desk.old desk.new result }
    ensures at { IsAt rebuild.now.building.lists at.new }
    ensures items { desk.new.book.journal.items ≡ desk.old.book.journal.items }
    ensures halts { IfErr result IsHalt }
{
    match ask_stage(alloc, desk, rebuild, at, steps) {
        Ok(is_done) => Ok(is_done),
        Err(stop) => Err(stop_by(desk, is_failed(&stop))),
    }
}

// Room for the switch's entries. None is added now, so a full journal is no refusal.
fn switch_room<D: Device>(desk: &mut Desk<D>) -> Result<(), ScrubFault>
    ensures same { IsSame desk.old desk.new }
    ensures memory { IfMemory result }
{
    match desk.book.journal.reserve(SWITCH_ENTRIES) {
        Ok(()) => Ok(()),
        Err(_) => Err(ScrubFault::Memory),
    }
}

// What the switch writes, and what waits to be freed after it.
fn switch_of<D: Device>(
    alloc: Global,
    desk: &Desk<D>,
    kept: &GroupKept,
    rebuild: &Rebuild,
) -> Result<Staged, ScrubFault>
    requires kept { IsKept kept.now }
    requires ready { IsReady rebuild.now }
    ensures limbo { IfOk result (λ staged. IsLimbo staged.limbo.items) }
    ensures memory { IfMemory result }
{
    match what_switches(alloc, &desk.store.geo, rebuild, kept.limbo.as_slice()) {
        Ok(staged) => Ok(staged),
        Err(_) => Err(ScrubFault::Memory),
    }
}

// All that the switch will need.
fn switch_made<D: Device>(
    alloc: Global,
    desk: &mut Desk<D>,
    kept: &GroupKept,
    rebuild: &Rebuild,
) -> Result<Option<Staged>, ScrubFault>
    requires usable { IsUsable D.Device desk.old }
    requires kept { IsKept kept.now }
    requires ready { IsReady rebuild.now }
    ensures answers { Answers D.Device desk.old desk.new result }
    ensures limbo { IfOk result (λ made. IfSome made (λ staged. IsLimbo staged.limbo.items)) }
    ensures items { desk.new.book.journal.items ≡ desk.old.book.journal.items }
    ensures halts { IfErr result IsHalt }
{
    switch_room(desk)?;
    let staged = switch_of(alloc, desk, kept, rebuild)?;
    Ok(Some(staged))
}

// One piece of the staging, and after the last one what the switch will need.
fn stage_one<D: Device, L: Ledger>(
    alloc: Global,
    desk: &mut Desk<D>,
    kept: &GroupKept,
    rebuild: &Rebuild,
    at: &mut Staging,
    steps: &mut Steps<L>,
) -> Result<Option<Staged>, ScrubFault>
    requires usable { IsUsable D.Device desk.old }
    requires kept { IsKept kept.now }
    requires group { rebuild.now.group < desk.old.store.geo.agcount }
    requires reserved { IsReserved (layout desk.old.store.geo) rebuild.now.group rebuild.now }
    requires at { IsAt rebuild.now.building.lists at.old }
    ensures answers { Answers D.Device desk.old desk.new result }
    ensures limbo { IfOk result (λ made. IfSome made (λ staged. IsLimbo staged.limbo.items)) }
    ensures at { IsAt rebuild.now.building.lists at.new }
    ensures items { desk.new.book.journal.items ≡ desk.old.book.journal.items }
    ensures halts { IfErr result IsHalt }
{
    if !stage_more(alloc, desk, rebuild, at, steps)? {
        return Ok(None);
    }
    switch_made(alloc, desk, kept, rebuild)
}

// The unit's work after a piece, and the event's answer.
fn staged_as(
    unit: &mut UnitState,
    rebuild: Rebuild,
    at: Staging,
    made: Result<Option<Staged>, ScrubFault>,
) -> Result<bool, ScrubFault>
    ensures work { unit.new.work ≡ staged_by rebuild at made }
    ensures group { unit.new.group ≡ unit.old.group }
    ensures rest { unit.new ≡ record unit.old { work = unit.new.work } }
    ensures answer { result ≡ told_by made }
{
    match made {
        Ok(Some(staged)) => {
            unit.work = Work::Staged(rebuild, staged);
            Ok(true)
        }
        Ok(None) => {
            unit.work = Work::Reserved(rebuild, at);
            Ok(false)
        }
        Err(fault) => {
            unit.work = Work::Reserved(rebuild, at);
            Err(fault)
        }
    }
}

// Stages the new blocks of a rebuild, which is the unit's work again afterwards.
fn stage_with<D: Device, L: Ledger>(
    alloc: Global,
    desk: &mut Desk<D>,
    kept: &mut GroupKept,
    unit: &mut UnitState,
    reserved: (Rebuild, Staging),
    steps: &mut Steps<L>,
) -> Result<bool, ScrubFault>
    requires given { IsGiven D.Device desk.old kept.old unit.old }
    requires reserved { IsReserved (layout desk.old.store.geo) unit.old.group reserved.0 }
    requires at { IsAt reserved.0.building.lists reserved.1 }
    ensures left { IsLeft D.Device desk.old desk.new kept.new unit.old unit.new }
    ensures reason { AnswersWell desk.new result }
    ensures rest { unit.new ≡ record unit.old { work = unit.new.work } }
    ensures same { kept.new ≡ kept.old }
    ensures halts { IfErr result IsHalt }
    ensures items { desk.new.book.journal.items ≡ desk.old.book.journal.items }
{
    let (rebuild, staging) = reserved;
    let mut at = staging;
    let made = stage_one(alloc, desk, kept, &rebuild, &mut at, steps);
    staged_as(unit, rebuild, at, made)
}

/// Writes at most 64 of the new blocks on the reserve. The last call syncs and makes room for the switch,
/// and the answer is true then. Where it finds no memory all is staged, and the next call tries again
/// (XFS Online Fsck Design, "Writing the New Tree").
pub fn stage_piece<D: Device, L: Ledger>(
    alloc: Global,
    desk: &mut Desk<D>,
    kept: &mut GroupKept,
    unit: &mut UnitState,
    steps: &mut Steps<L>,
) -> Result<bool, ScrubFault>
    requires given { IsGiven D.Device desk.old kept.old unit.old }
    ensures left { IsLeft D.Device desk.old desk.new kept.new unit.old unit.new }
    ensures reason { AnswersWell desk.new result }
    ensures rest { unit.new ≡ record unit.old { work = unit.new.work } }
    ensures same { kept.new ≡ kept.old }
    ensures may { IfErr result MayStage }
    ensures items { desk.new.book.journal.items ≡ desk.old.book.journal.items }
{
    match mem::replace(&mut unit.work, Work::Judged) {
        Work::Reserved(rebuild, at) => { stage_with(alloc, desk, kept, unit, (rebuild, at), steps) }
        work => other_phase(unit, work),
    }
}
