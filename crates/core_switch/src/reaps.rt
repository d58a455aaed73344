ghost use Rattle.std.specs.Prelude.{◌≡◌, ◌+◌, ◌≤◌, ◌<◌, Err, Some};
ghost use Rattle.std.specs.Vec.{vec_capacity, vec_len};
ghost use Rattle.block_reap.specs.Limbo.{next_of};
ghost use Rattle.block_reap.specs.declared.runs.LimboRun.{LimboRun};
ghost use Rattle.core_calls.specs.declared.answers.Phase.TheVariants as phases;
ghost use Rattle.core_calls.specs.declared.answers.ScrubFault.TheVariants as faults;
ghost use Rattle.core_parts.specs.Common.Asks.{Answers, IsUsable};
ghost use Rattle.core_parts.specs.Keeps.{IsGiven, IsLeft};
ghost use Rattle.core_parts.specs.Phases.{phase_in};
ghost use Rattle.core_parts.specs.Reasons.{AnswersWell};
ghost use Rattle.core_parts.specs.Safe.{IsKept};
ghost use Rattle.core_switch.specs.Says.{SaysReaped, SaysReaping, SaysRun};
ghost use Rattle.core_edit.specs.Opened.{IsOpen};

use crate::calls::{commit_at, reap_at};
use crate::freed::room_for_freed;
use crate::settle::{mark, settle_reap};
use blk_device::Device;
use block_reap::{LimboRun, next};
use byte_fields::Steps;
use core_calls::{Phase, ScrubFault};
use core_edit::{IndexesLeft, Reap};
use core_parts::common::{edit_place, entry_room, is_good};
use core_parts::{Desk, GroupKept, UnitState, phase_of};
use fs_model::Cause;
use sblock::Kind;
use std::alloc::Global;
use std::sync::ledger::Ledger;

// Writes the reaped run, and keeps the group so; the answer is whether limbo is empty.
fn commit_reap<D: Device, L: Ledger>(
    desk: &mut Desk<D>,
    kept: &mut GroupKept,
    group: u32,
    run: &LimboRun,
    left: IndexesLeft,
    steps: &mut Steps<L>,
) -> Result<bool, ScrubFault>
    requires usable { IsUsable D.Device desk.old }
    requires inside { group < desk.old.store.geo.agcount }
    requires opened { IsOpen D.Device group desk.old.store }
    requires room { vec_len desk.old.book.journal + 4 ≤ vec_capacity desk.old.book.journal }
    requires kept { IsKept kept.old }
    requires next { next_of kept.old.limbo.items ≡ Some run.now }
    ensures answers { Answers D.Device desk.old desk.new result }
    ensures kept { IsKept kept.new }
    ensures says { SaysReaped group run.now kept.old kept.new desk.old desk.new result }
{
    commit_at(desk, group, steps)?;
    settle_reap(desk, kept, group, run, left);
    Ok(kept.limbo.is_empty())
}

// The same, once limbo has room for what the edits freed.
fn reap_done<D: Device, L: Ledger>(
    desk: &mut Desk<D>,
    kept: &mut GroupKept,
    group: u32,
    run: &LimboRun,
    left: IndexesLeft,
    steps: &mut Steps<L>,
) -> Result<bool, ScrubFault>
    requires usable { IsUsable D.Device desk.old }
    requires inside { group < desk.old.store.geo.agcount }
    requires opened { IsOpen D.Device group desk.old.store }
    requires room { vec_len desk.old.book.journal + 4 ≤ vec_capacity desk.old.book.journal }
    requires kept { IsKept kept.old }
    requires next { next_of kept.old.limbo.items ≡ Some run.now }
    ensures answers { Answers D.Device desk.old desk.new result }
    ensures kept { IsKept kept.new }
    ensures says { SaysReaped group run.now kept.old kept.new desk.old desk.new result }
{
    match room_for_freed(&desk.store.edit.freed, &mut kept.limbo) {
        Ok(()) => commit_reap(desk, kept, group, run, left, steps),
        Err(_) => Err(ScrubFault::Memory),
    }
}

// Nothing is changed, but that reverse mappings are marked: none is left to be reaped now.
fn reap_met<D: Device>(
    desk: &mut Desk<D>,
    kept: &mut GroupKept,
    group: u32,
    cause: Cause,
) -> Result<bool, ScrubFault>
    requires usable { IsUsable D.Device desk.old }
    requires room { vec_len desk.old.book.journal < vec_capacity desk.old.book.journal }
    requires kept { IsKept kept.old }
    ensures answers { Answers D.Device desk.old desk.new result }
    ensures kept { IsKept kept.new }
    ensures says { (run : LimboRun) → SaysRun group run kept.old kept.new desk.old desk.new result }
{
    mark(desk, kept, group, Kind::Rmap, cause);
    Ok(true)
}

// Reaps a run, where the journal has room for its entries.
fn reap_with_room<D: Device, L: Ledger>(
    alloc: Global,
    desk: &mut Desk<D>,
    kept: &mut GroupKept,
    unit: &UnitState,
    run: &LimboRun,
    steps: &mut Steps<L>,
) -> Result<bool, ScrubFault>
    requires usable { IsUsable D.Device desk.old }
    requires inside { unit.now.group < desk.old.store.geo.agcount }
    requires room { vec_len desk.old.book.journal + 4 ≤ vec_capacity desk.old.book.journal }
    requires kept { IsKept kept.old }
    requires next { next_of kept.old.limbo.items ≡ Some run.now }
    ensures answers { Answers D.Device desk.old desk.new result }
    ensures kept { IsKept kept.new }
    ensures says { SaysRun unit.now.group run.now kept.old kept.new desk.old desk.new result }
{
    let place = edit_place(kept, unit.group, unit.unit);
    match reap_at(alloc, desk, &place, run, steps)? {
        Reap::Met(cause) => reap_met(desk, kept, unit.group, cause),
        Reap::Done { left, is_owned: _ } => { reap_done(desk, kept, unit.group, run, left, steps) }
    }
}

// Reaps a run: four entries at most.
fn reap_next<D: Device, L: Ledger>(
    alloc: Global,
    desk: &mut Desk<D>,
    kept: &mut GroupKept,
    unit: &UnitState,
    run: &LimboRun,
    steps: &mut Steps<L>,
) -> Result<bool, ScrubFault>
    requires usable { IsUsable D.Device desk.old }
    requires inside { unit.now.group < desk.old.store.geo.agcount }
    requires kept { IsKept kept.old }
    requires next { next_of kept.old.limbo.items ≡ Some run.now }
    ensures answers { Answers D.Device desk.old desk.new result }
    ensures kept { IsKept kept.new }
    ensures says { SaysRun unit.now.group run.now kept.old kept.new desk.old desk.new result }
{
    entry_room(desk, 4)?;
    reap_with_room(alloc, desk, kept, unit, run, steps)
}

// Reaps the next run, where reverse mappings are good and there is one.
fn reap_judged<D: Device, L: Ledger>(
    alloc: Global,
    desk: &mut Desk<D>,
    kept: &mut GroupKept,
    unit: &UnitState,
    steps: &mut Steps<L>,
) -> Result<bool, ScrubFault>
    requires usable { IsUsable D.Device desk.old }
    requires inside { unit.now.group < desk.old.store.geo.agcount }
    requires kept { IsKept kept.old }
    ensures answers { Answers D.Device desk.old desk.new result }
    ensures kept { IsKept kept.new }
    ensures says { SaysReaping unit.now.group kept.old kept.new desk.old desk.new result }
{
    if !is_good(kept, Kind::Rmap) {
        return Ok(true);
    }
    match next(kept.limbo.as_slice()) {
        Some(run) => reap_next(alloc, desk, kept, unit, &run, steps),
        None => Ok(true),
    }
}

/// Reaps the next run of the group's limbo, at most 64 blocks, after the unit was judged: it leaves reverse
/// mappings and joins free space in one commit. Answers whether nothing is left to be reaped, which is so
/// too while reverse mappings aren't good; a fault of these that is met marks them, and changes nothing
/// else (XFS Online Fsck Design, "Reaping After Repairing Ondisk Metadata").
pub fn reap_piece<D: Device, L: Ledger>(
    alloc: Global,
    desk: &mut Desk<D>,
    kept: &mut GroupKept,
    unit: &mut UnitState,
    steps: &mut Steps<L>,
) -> Result<bool, ScrubFault>
    requires given { IsGiven D.Device desk.old kept.old unit.old }
    ensures left { IsLeft D.Device desk.old desk.new kept.new unit.old unit.new }
    ensures reason { AnswersWell desk.new result }
    ensures unit { unit.new ≡ unit.old }
    ensures other { (phase_in unit.old.work ≡ phases.Judged → ⊥) → result ≡ Err (faults.OtherPhase (phase_in unit.old.work)) }
    ensures says { SaysReaping unit.old.group kept.old kept.new desk.old desk.new result }
{
    match phase_of(&unit.work) {
        Phase::Judged => reap_judged(alloc, desk, kept, unit, steps),
        phase => Err(ScrubFault::OtherPhase(phase)),
    }
}
