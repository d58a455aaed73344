ghost use Rattle.std.specs.Prelude.{◌≡◌, ◌⊎◌};
ghost use Rattle.core_begin.specs.After.{IsGivingUp, IsWait, MayRead, left_by};
ghost use Rattle.core_begin.specs.Early.{IsEarly};
ghost use Rattle.core_parts.specs.Common.Asks.{IsUsable};
ghost use Rattle.core_parts.specs.Common.Entries.{HasMore, entries_on};
ghost use Rattle.core_parts.specs.Keeps.{IsSteady};
ghost use Rattle.core_parts.specs.Reasons.{HasReason};
ghost use Rattle.core_parts.specs.Safe.{IsDesk};
ghost use Rattle.fs_state.specs.Session.{FitsReason};

use crate::taking::put_work;
use blk_device::Device;
use core_calls::ScrubFault;
use core_parts::common::say_verdict;
use core_parts::{Desk, UnitState, Work};
use fs_model::{Reason, Verdict};

/// Gives the unit up: its verdict is added, and nothing is left of its work. Where the verdict can't be
/// added, that is the answer, and the work stays as it was.
pub(crate) fn give_up<D: Device>(
    desk: &mut Desk<D>,
    unit: &mut UnitState,
    reason: Reason,
) -> ScrubFault
    requires usable { IsUsable D.Device desk.old }
    requires early { IsEarly unit.old.work }
    ensures desk { IsDesk D.Device desk.new }
    ensures steady { IsSteady D.Device desk.old desk.new }
    ensures reason { HasReason desk.new result }
    ensures group { unit.new.group ≡ unit.old.group }
    ensures early { IsEarly unit.new.work }
    ensures entries { HasMore desk.old desk.new (entries_on unit.old.group unit.old.unit result) }
    ensures kept { unit.new ≡ left_by unit.old result }
    ensures gives { IsGivingUp result }
    ensures rest { unit.new ≡ record unit.old { work = unit.new.work; asked = unit.new.asked } }
    ensures may { FitsReason unit.old.turns reason → MayRead unit.old.turns result }
{
    match say_verdict(desk, unit.group, unit.unit, Verdict::GaveUp(reason)) {
        Ok(()) => {
            put_work(unit, Work::Judged);
            ScrubFault::GaveUp(reason)
        }
        Err(fault) => fault,
    }
}

/// The unit loses a turn to a writer, which is this answer; where that was its last one, it is given up.
pub(crate) fn lose_turn<D: Device>(
    desk: &mut Desk<D>,
    unit: &mut UnitState,
    fault: ScrubFault,
) -> ScrubFault
    requires usable { IsUsable D.Device desk.old }
    requires early { IsEarly unit.old.work }
    requires reason { HasReason desk.old fault }
    ensures desk { IsDesk D.Device desk.new }
    ensures steady { IsSteady D.Device desk.old desk.new }
    ensures reason { HasReason desk.new result }
    ensures group { unit.new.group ≡ unit.old.group }
    ensures early { IsEarly unit.new.work }
    ensures entries { IsWait fault
        → HasMore desk.old desk.new (entries_on unit.old.group unit.old.unit result) }
    ensures kept { IsWait fault → unit.new ≡ left_by unit.old result }
    ensures rest { unit.new ≡ record unit.old { work = unit.new.work; asked = unit.new.asked } }
    ensures may { MayRead unit.old.turns result ⊎ (result ≡ fault) }
{
    let turns = unit.turns;
    if unit.asked >= turns || turns - unit.asked == 1 {
        return give_up(desk, unit, Reason::TurnLimit(turns));
    }
    unit.asked += 1;
    fault
}
