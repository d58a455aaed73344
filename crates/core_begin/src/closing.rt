ghost use Rattle.std.specs.Prelude.{◌≡◌, ◌<◌, IfErr, OnOk};
ghost use Rattle.core_begin.specs.After.{MayClose, left_by};
ghost use Rattle.core_begin.specs.Early.{IsEarly};
ghost use Rattle.core_calls.specs.declared.answers.Phase.{Phase};
ghost use Rattle.core_parts.specs.Common.Asks.{Answers, IsUsable};
ghost use Rattle.core_parts.specs.Common.Entries.{HasMore, entries_of};
ghost use Rattle.core_parts.specs.Keeps.{IsGiven, IsLeft, IsSteady};
ghost use Rattle.core_parts.specs.Phases.{phase_in};
ghost use Rattle.core_parts.specs.Reasons.{AnswersWell};

use crate::giving::lose_turn;
use crate::taking::{put_work, take_owners};
use blk_device::Device;
use core_calls::ScrubFault;
use core_parts::{Desk, GroupKept, UnitState, Work, phase_of};
use rmap_recs::RmapRec;

// Closes the gate of a group, or sets it to closing where so many intents of the group are unfinished.
fn close_gate<D: Device>(desk: &mut Desk<D>, g: u32) -> Result<(), u32>
    requires usable { IsUsable D.Device desk.old }
    requires group { g < desk.old.store.geo.agcount }
    ensures usable { IsUsable D.Device desk.new }
    ensures steady { IsSteady D.Device desk.old desk.new }
    ensures items { desk.new.book.journal.items ≡ desk.old.book.journal.items }
{
    desk.drain.close(g)
}

// Closes the gate of a unit's group, whose work this was.
fn close_group<D: Device>(
    desk: &mut Desk<D>,
    unit: &mut UnitState,
    owners: Vec<RmapRec>,
) -> Result<(), ScrubFault>
    requires usable { IsUsable D.Device desk.old }
    requires group { unit.old.group < desk.old.store.geo.agcount }
    ensures answers { Answers D.Device desk.old desk.new result }
    ensures group { unit.new.group ≡ unit.old.group }
    ensures early { IsEarly unit.new.work }
    ensures phase { OnOk result (phase_in unit.new.work ≡ Phase.Closed) }
    ensures entries { HasMore desk.old desk.new (entries_of unit.old.group unit.old.unit result) }
    ensures kept { IfErr result (λ fault.
        unit.new ≡ left_by (record unit.old { work = Work.Open owners }) fault) }
    ensures rest { unit.new ≡ record unit.old { work = unit.new.work; asked = unit.new.asked } }
    ensures may { IfErr result (MayClose unit.old.turns) }
{
    let g = unit.group;
    match close_gate(desk, g) {
        Ok(()) => {
            put_work(unit, Work::Closed(owners));
            Ok(())
        }
        Err(count) => {
            put_work(unit, Work::Open(owners));
            Err(lose_turn(desk, unit, ScrubFault::Draining(g, count)))
        }
    }
}

/// Closes the gate of the group of a unit that is open. While intents of the group are unfinished the gate
/// is closing, and each such answer costs the unit a turn; with the last one it is given up
/// (XFS Online Fsck Design, "Intent Drains").
pub fn close<D: Device>(
    desk: &mut Desk<D>,
    kept: &mut GroupKept,
    unit: &mut UnitState,
) -> Result<(), ScrubFault>
    requires given { IsGiven D.Device desk.old kept.old unit.old }
    ensures left { IsLeft D.Device desk.old desk.new kept.new unit.old unit.new }
    ensures reason { AnswersWell desk.new result }
    ensures phase { OnOk result (phase_in unit.new.work ≡ Phase.Closed) }
    ensures entries { HasMore desk.old desk.new (entries_of unit.old.group unit.old.unit result) }
    ensures kept { IfErr result (λ fault. unit.new ≡ left_by unit.old fault) }
    ensures rest { unit.new ≡ record unit.old { work = unit.new.work; asked = unit.new.asked } }
    ensures group { kept.new ≡ kept.old }
    ensures may { IfErr result (MayClose unit.old.turns) }
{
    match take_owners(unit) {
        Some(owners) => close_group(desk, unit, owners),
        None => Err(ScrubFault::OtherPhase(phase_of(&unit.work))),
    }
}
