ghost use Rattle.std.specs.Prelude.{◌≡◌, ◌<◌, IfErr, IfOk, None};
ghost use Rattle.core_calls.specs.declared.answers.Answer.TheVariants.{Scrub};
ghost use Rattle.core_parts.specs.Reasons.{AnswersWell};
ghost use Rattle.core_parts.specs.Keeps.{IsGiven, IsSteady};
ghost use Rattle.core_parts.specs.Safe.{IsDesk, IsKept, IsSafe, IsUnit};
ghost use Rattle.fsck_core.specs.Acts.{Acts, IsGivenAll, IsLeftAll, IsTaken};
ghost use Rattle.core_switch.specs.Says.{SaysBy, released_by};
ghost use Rattle.fsck_core.specs.Entries.{IsDoneBy, IsOut, IsSetBack, SaysOpen, SaysReleased, SaysReopened, SaysStarting};
ghost use Rattle.fsck_core.specs.Moves.{StaysKnown};
ghost use Rattle.geom.specs.Places.{layout};

use crate::events::{Event, run_among, tell_done};
use blk_device::Device;
use byte_fields::Steps;
use core_begin::start;
use core_calls::{Answer, Phase, ScrubFault};
use core_parts::common::unless_shut;
use core_parts::{Desk, GroupKept, Parts, UnitState, put_unit, take_unit};
use core_switch::reopen;
use fs_model::Unit;
use fs_state::Plan;
use std::alloc::Global;
use std::sync::ledger::Ledger;

/// Takes the open unit of a group out of its place, for an event on it: Shut where a fault of the device
/// was noted, and OtherPhase where no unit is open there.
pub(crate) fn take_open<D: Device>(parts: &mut Parts<D>, g: u32) -> Result<UnitState, ScrubFault>
    requires safe { IsSafe D.Device parts.old }
    requires group { g < parts.old.desk.store.geo.agcount }
    ensures taken { IfOk result (IsTaken D.Device parts.old parts.new) }
    ensures refused { IfErr result (λ fault. Acts D.Device parts.old parts.new (Scrub fault)) }
    ensures out { IfOk result (IsOut g parts.old parts.new) }
    ensures back { IfErr result (IsSetBack g parts.old parts.new) }
{
    unless_shut(&parts.desk)?;
    match take_unit(&mut parts.units, g) {
        Some(unit) => Ok(unit),
        None => Err(ScrubFault::OtherPhase(Phase::Idle)),
    }
}

// Does an event of a unit that was taken out of its place, and puts it back.
fn run_taken<D: Device, L: Ledger>(
    alloc: Global,
    event: Event,
    parts: &mut Parts<D>,
    unit: UnitState,
    steps: &mut Steps<L>,
) -> Answer
    requires safe { IsSafe D.Device parts.old }
    requires unshut { parts.old.desk.book.shut ≡ None }
    requires unit { IsUnit (layout parts.old.desk.store.geo) unit }
    ensures acted { Acts D.Device parts.old parts.new result }
    ensures says { IsDoneBy event unit parts.old parts.new result }
{
    let mut unit = unit;
    let answer = run_among(
        alloc,
        event,
        &mut parts.desk,
        &mut parts.groups,
        &mut unit,
        steps,
    );
    put_unit(&mut parts.units, unit.group, unit);
    answer
}

/// One event of the unit that is open in a group.
pub(crate) fn run_in<D: Device, L: Ledger>(
    alloc: Global,
    event: Event,
    parts: &mut Parts<D>,
    g: u32,
    steps: &mut Steps<L>,
) -> Answer
    requires safe { IsSafe D.Device parts.old }
    requires group { g < parts.old.desk.store.geo.agcount }
    ensures acted { Acts D.Device parts.old parts.new result }
    ensures says { SaysOpen g event parts.old parts.new result }
{
    match take_open(parts, g) {
        Ok(unit) => run_taken(alloc, event, parts, unit, steps),
        Err(fault) => Answer::Scrub(fault),
    }
}

// Opens a group again. What is known of its btrees and units is no matter of it.
fn reopen_known<D: Device>(
    desk: &mut Desk<D>,
    kept: &mut GroupKept,
    unit: UnitState,
) -> Result<(), ScrubFault>
    requires given { IsGiven D.Device desk.old kept.old unit }
    ensures desk { IsDesk D.Device desk.new }
    ensures steady { IsSteady D.Device desk.old desk.new }
    ensures kept { IsKept kept.new }
    ensures reason { AnswersWell desk.new result }
    ensures says { SaysBy (released_by unit) desk.old desk.new result }
    ensures trust { kept.new.trust ≡ kept.old.trust }
    ensures passed { kept.new.passed ≡ kept.old.passed }
{
    let trust = kept.trust;
    let passed = kept.passed;
    let opened = reopen(desk, kept, unit);
    kept.trust = trust;
    kept.passed = passed;
    opened
}

// Opens a group again, with what is kept of it among all groups.
fn reopen_among<D: Device>(
    desk: &mut Desk<D>,
    groups: &mut Vec<GroupKept>,
    unit: UnitState,
) -> Result<(), ScrubFault>
    requires given { IsGivenAll D.Device desk.old groups.old.items unit }
    ensures left { IsLeftAll D.Device desk.old desk.new groups.old.items groups.new.items }
    ensures reason { AnswersWell desk.new result }
    ensures says { SaysBy (released_by unit) desk.old desk.new result }
    ensures known { StaysKnown unit.group groups.old.items groups.new.items }
{
    let kept = &mut groups[unit.group as usize];
    reopen_known(desk, kept, unit)
}

// Opens the group of a unit again that was taken out of its place, which stays empty.
fn reopen_taken<D: Device>(parts: &mut Parts<D>, unit: UnitState) -> Answer
    requires safe { IsSafe D.Device parts.old }
    requires unshut { parts.old.desk.book.shut ≡ None }
    requires unit { IsUnit (layout parts.old.desk.store.geo) unit }
    ensures acted { Acts D.Device parts.old parts.new result }
    ensures says { SaysReleased unit parts.old.desk parts.new.desk result }
    ensures units { parts.new.units ≡ parts.old.units }
    ensures known { StaysKnown unit.group parts.old.groups.items parts.new.groups.items }
{
    tell_done(reopen_among(&mut parts.desk, &mut parts.groups, unit))
}

/// Opens a group again, whatever its unit has come to.
pub(crate) fn reopen_in<D: Device>(parts: &mut Parts<D>, g: u32) -> Answer
    requires safe { IsSafe D.Device parts.old }
    requires group { g < parts.old.desk.store.geo.agcount }
    ensures acted { Acts D.Device parts.old parts.new result }
    ensures says { SaysReopened g parts.old parts.new result }
{
    match take_open(parts, g) {
        Ok(unit) => reopen_taken(parts, unit),
        Err(fault) => Answer::Scrub(fault),
    }
}

// Opens a unit, where no fault of the device was noted.
fn start_unshut<D: Device>(
    alloc: Global,
    parts: &mut Parts<D>,
    g: u32,
    unit: Unit,
    plan: Plan,
    turns: u32,
) -> Answer
    requires safe { IsSafe D.Device parts.old }
    requires unshut { parts.old.desk.book.shut ≡ None }
    requires group { g < parts.old.desk.store.geo.agcount }
    ensures acted { Acts D.Device parts.old parts.new result }
    ensures says { SaysStarting g unit plan turns parts.old parts.new result }
{
    tell_done(start(alloc, parts, g, unit, plan, turns))
}

/// Opens a unit in a group.
pub(crate) fn start_in<D: Device>(
    alloc: Global,
    parts: &mut Parts<D>,
    g: u32,
    unit: Unit,
    plan: Plan,
    turns: u32,
) -> Answer
    requires safe { IsSafe D.Device parts.old }
    requires group { g < parts.old.desk.store.geo.agcount }
    ensures acted { Acts D.Device parts.old parts.new result }
    ensures says { SaysStarting g unit plan turns parts.old parts.new result }
{
    match unless_shut(&parts.desk) {
        Ok(()) => start_unshut(alloc, parts, g, unit, plan, turns),
        Err(fault) => Answer::Scrub(fault),
    }
}
