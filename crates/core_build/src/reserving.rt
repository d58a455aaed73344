ghost use Rattle.std.specs.Prelude.{◌≡◌, ◌<◌, ◌≤◌, ◌+◌, IfErr, IfOk, IsErr, OnErr, true};
ghost use Rattle.std.specs.Vec.{vec_capacity, vec_len};
ghost use Rattle.core_build.specs.Pieces.{IfMemory, KeepsBuild, MetBy};
ghost use Rattle.core_build.specs.Says.{GivesSpace, MayRefuse, SaysFrom, SaysNext, SaysPiece, SaysReserving, SaysTaken};
ghost use Rattle.core_parts.specs.Common.Asks.{Answers, IsUsable};
ghost use Rattle.core_parts.specs.Common.Entries.{HasMore, entries_of};
ghost use Rattle.core_units.specs.Judging.{IsJudging};
ghost use Rattle.core_parts.specs.Keeps.{IsGiven, IsLeft};
ghost use Rattle.core_parts.specs.Reasons.{AnswersWell};
ghost use Rattle.core_parts.specs.Safe.{IsKept};
ghost use Rattle.core_units.specs.Rebuilt.{IsRebuilding, IsSpareBelow, IsSteady};
ghost use Rattle.core_units.specs.declared.rebuild.Rebuild.{Rebuild};
ghost use Rattle.geom.specs.Places.{layout};
ghost use Rattle.core_edit.specs.Opened.{IsOpen};

use crate::block_edits::{commit_edit, edit_listed, edit_spare};
use crate::block_notes::{Taken, limbo_room, note_block, note_unnoted};
use crate::build_parts::{begun, made_ready, next_of, put_work, ready_if, take_block};
use crate::piece_phase::other_phase;
use blk_device::Device;
use byte_fields::Steps;
use core_calls::ScrubFault;
use core_edit::{EditPlace, Spare};
use core_parts::common::{edit_place, entry_room, say_verdict};
use core_parts::{Desk, GroupKept, UnitState, Work};
use core_units::{Judging, Next, Rebuild};
use fs_model::{Reason, Verdict};
use std::alloc::Global;
use std::mem;
use std::sync::ledger::Ledger;

// The need is met: the lists are made ready. Without memory nothing is changed.
fn met(alloc: Global, rebuild: &mut Rebuild) -> Result<bool, ScrubFault>
    requires steady { IsSteady rebuild.old }
    ensures keeps { KeepsBuild rebuild.old rebuild.new }
    ensures met { MetBy result rebuild.new }
    ensures memory { IfMemory result }
    ensures told { IfOk result (λ is_met. is_met ≡ true) }
{
    if made_ready(alloc, rebuild) {
        Ok(true)
    } else {
        Err(ScrubFault::Memory)
    }
}

// No block is to be had: the unit is given up. There is room too for the entry of a reserve that is
// released.
fn give_up<D: Device>(
    desk: &mut Desk<D>,
    place: &EditPlace,
    reason: Reason,
) -> Result<bool, ScrubFault>
    requires usable { IsUsable D.Device desk.old }
    ensures answers { Answers D.Device desk.old desk.new result }
    ensures met { (r : Rebuild) → MetBy result r }
    ensures says { HasMore desk.old desk.new (entries_of place.now.group place.now.unit result) }
    ensures never { IsErr result }
    ensures gives { IfErr result (MayRefuse (Next.GaveUp reason)) }
{
    entry_room(desk, 2)?;
    say_verdict(desk, place.group, place.unit, Verdict::GaveUp(reason))?;
    Err(ScrubFault::GaveUp(reason))
}

// Takes a block that was edited into the reserve, and commits it. What may lack memory comes first, but
// for the lists, which the next call makes ready then.
fn keep_block<D: Device, L: Ledger>(
    alloc: Global,
    desk: &mut Desk<D>,
    kept: &mut GroupKept,
    rebuild: &mut Rebuild,
    place: &EditPlace,
    taken: &Taken,
    steps: &mut Steps<L>,
) -> Result<bool, ScrubFault>
    requires usable { IsUsable D.Device desk.old }
    requires group { place.now.group < desk.old.store.geo.agcount }
    requires opened { IsOpen D.Device place.now.group desk.old.store }
    requires room { vec_len desk.old.book.journal + 4 ≤ vec_capacity desk.old.book.journal }
    requires kept { IsKept kept.old }
    requires steady { IsSteady rebuild.old }
    requires inside { taken.now.block < rebuild.old.length }
    ensures answers { Answers D.Device desk.old desk.new result }
    ensures kept { IsKept kept.new }
    ensures passed { kept.new.passed ≡ kept.old.passed }
    ensures trust { OnErr result (kept.new.trust ≡ kept.old.trust) }
    ensures keeps { KeepsBuild rebuild.old rebuild.new }
    ensures met { MetBy result rebuild.new }
    ensures says { SaysTaken place.now.group place.now.unit taken.now.block taken.now.is_spare
        rebuild.old rebuild.new kept.old kept.new desk.old desk.new result }
{
    limbo_room(desk, kept, rebuild)?;
    let is_met = take_block(rebuild, taken.block, taken.is_spare)?;
    commit_edit(desk, place.group, steps)?;
    note_block(desk, kept, place, taken);
    Ok(ready_if(alloc, rebuild, is_met))
}

// Reserves the free list's first block, which was chosen.
fn reserve_listed_block<D: Device, L: Ledger>(
    alloc: Global,
    desk: &mut Desk<D>,
    kept: &mut GroupKept,
    rebuild: &mut Rebuild,
    place: &EditPlace,
    block: u32,
    steps: &mut Steps<L>,
) -> Result<bool, ScrubFault>
    requires usable { IsUsable D.Device desk.old }
    requires group { place.now.group < desk.old.store.geo.agcount }
    requires kept { IsKept kept.old }
    requires steady { IsSteady rebuild.old }
    ensures answers { Answers D.Device desk.old desk.new result }
    ensures kept { IsKept kept.new }
    ensures passed { kept.new.passed ≡ kept.old.passed }
    ensures trust { OnErr result (kept.new.trust ≡ kept.old.trust) }
    ensures keeps { KeepsBuild rebuild.old rebuild.new }
    ensures met { MetBy result rebuild.new }
    ensures says { SaysNext place.now.group place.now.unit (Next.Listed block)
        rebuild.old rebuild.new kept.old kept.new desk.old desk.new result }
{
    // Never: the list of a group that was decoded has blocks of it alone.
    if block >= rebuild.length {
        return Err(ScrubFault::Memory);
    }
    entry_room(desk, 5)?;
    let left = edit_listed(alloc, desk, place, block, steps)?;
    let taken = Taken {
        block,
        is_spare: false,
        left,
    };
    keep_block(alloc, desk, kept, rebuild, place, &taken, steps)
}

// A spare block was edited, or nothing was.
fn keep_spare<D: Device, L: Ledger>(
    alloc: Global,
    desk: &mut Desk<D>,
    kept: &mut GroupKept,
    rebuild: &mut Rebuild,
    place: &EditPlace,
    edited: (u32, Spare),
    steps: &mut Steps<L>,
) -> Result<bool, ScrubFault>
    requires usable { IsUsable D.Device desk.old }
    requires group { place.now.group < desk.old.store.geo.agcount }
    requires opened { IsOpen D.Device place.now.group desk.old.store }
    requires room { vec_len desk.old.book.journal + 4 ≤ vec_capacity desk.old.book.journal }
    requires kept { IsKept kept.old }
    requires steady { IsSteady rebuild.old }
    requires inside { edited.0 < rebuild.old.length }
    ensures answers { Answers D.Device desk.old desk.new result }
    ensures kept { IsKept kept.new }
    ensures passed { kept.new.passed ≡ kept.old.passed }
    ensures trust { OnErr result (kept.new.trust ≡ kept.old.trust) }
    ensures keeps { KeepsBuild rebuild.old rebuild.new }
    ensures met { MetBy result rebuild.new }
    ensures says { SaysNext place.now.group place.now.unit (Next.Spare edited.0)
        rebuild.old rebuild.new kept.old kept.new desk.old desk.new result }
{
    match edited.1 {
        Spare::Noted(left) => {
            let taken = Taken {
                block: edited.0,
                is_spare: true,
                left,
            };
            keep_block(alloc, desk, kept, rebuild, place, &taken, steps)
        }
        Spare::Unnoted(cause) => note_unnoted(desk, kept, place.group, cause),
    }
}

// Reserves a spare block, which was chosen.
fn reserve_spare_block<D: Device, L: Ledger>(
    alloc: Global,
    desk: &mut Desk<D>,
    kept: &mut GroupKept,
    rebuild: &mut Rebuild,
    place: &EditPlace,
    block: u32,
    steps: &mut Steps<L>,
) -> Result<bool, ScrubFault>
    requires usable { IsUsable D.Device desk.old }
    requires group { place.now.group < desk.old.store.geo.agcount }
    requires kept { IsKept kept.old }
    requires steady { IsSteady rebuild.old }
    requires inside { block < rebuild.old.length }
    ensures answers { Answers D.Device desk.old desk.new result }
    ensures kept { IsKept kept.new }
    ensures passed { kept.new.passed ≡ kept.old.passed }
    ensures trust { OnErr result (kept.new.trust ≡ kept.old.trust) }
    ensures keeps { KeepsBuild rebuild.old rebuild.new }
    ensures met { MetBy result rebuild.new }
    ensures says { SaysNext place.now.group place.now.unit (Next.Spare block)
        rebuild.old rebuild.new kept.old kept.new desk.old desk.new result }
{
    entry_room(desk, 5)?;
    let spare = edit_spare(alloc, desk, place, block, steps)?;
    keep_spare(alloc, desk, kept, rebuild, place, (block, spare), steps)
}

// Does what the rebuild needs next.
fn do_next<D: Device, L: Ledger>(
    alloc: Global,
    desk: &mut Desk<D>,
    kept: &mut GroupKept,
    rebuild: &mut Rebuild,
    place: &EditPlace,
    next: Next,
    steps: &mut Steps<L>,
) -> Result<bool, ScrubFault>
    requires usable { IsUsable D.Device desk.old }
    requires group { place.now.group < desk.old.store.geo.agcount }
    requires kept { IsKept kept.old }
    requires steady { IsSteady rebuild.old }
    requires spare { IsSpareBelow rebuild.old.length next }
    ensures answers { Answers D.Device desk.old desk.new result }
    ensures kept { IsKept kept.new }
    ensures passed { kept.new.passed ≡ kept.old.passed }
    ensures trust { OnErr result (kept.new.trust ≡ kept.old.trust) }
    ensures keeps { KeepsBuild rebuild.old rebuild.new }
    ensures met { MetBy result rebuild.new }
    ensures says { SaysNext place.now.group place.now.unit next
        rebuild.old rebuild.new kept.old kept.new desk.old desk.new result }
{
    match next {
        Next::Met => met(alloc, rebuild),
        Next::GaveUp(reason) => give_up(desk, place, reason),
        Next::Listed(block) => {
            reserve_listed_block(alloc, desk, kept, rebuild, place, block, steps)
        }
        Next::Spare(block) => reserve_spare_block(alloc, desk, kept, rebuild, place, block, steps),
    }
}

// One piece of the reserving.
fn reserve_one<D: Device, L: Ledger>(
    alloc: Global,
    desk: &mut Desk<D>,
    kept: &mut GroupKept,
    rebuild: &mut Rebuild,
    place: &EditPlace,
    steps: &mut Steps<L>,
) -> Result<bool, ScrubFault>
    requires usable { IsUsable D.Device desk.old }
    requires group { place.now.group < desk.old.store.geo.agcount }
    requires kept { IsKept kept.old }
    requires steady { IsSteady rebuild.old }
    ensures answers { Answers D.Device desk.old desk.new result }
    ensures kept { IsKept kept.new }
    ensures passed { kept.new.passed ≡ kept.old.passed }
    ensures trust { OnErr result (kept.new.trust ≡ kept.old.trust) }
    ensures keeps { KeepsBuild rebuild.old rebuild.new }
    ensures met { MetBy result rebuild.new }
    ensures says { SaysPiece place.now.group place.now.unit
        rebuild.old rebuild.new kept.old kept.new desk.old desk.new result }
{
    let next = next_of(alloc, kept, rebuild)?;
    do_next(alloc, desk, kept, rebuild, place, next, steps)
}

// Reserves for a rebuild, which is the unit's work again afterwards.
fn reserve_with<D: Device, L: Ledger>(
    alloc: Global,
    desk: &mut Desk<D>,
    kept: &mut GroupKept,
    unit: &mut UnitState,
    mut rebuild: Rebuild,
    steps: &mut Steps<L>,
) -> Result<bool, ScrubFault>
    requires given { IsGiven D.Device desk.old kept.old unit.old }
    requires rebuilding { IsRebuilding (layout desk.old.store.geo) unit.old.group rebuild }
    ensures left { IsLeft D.Device desk.old desk.new kept.new unit.old unit.new }
    ensures rest { unit.new ≡ record unit.old { work = unit.new.work } }
    ensures passed { kept.new.passed ≡ kept.old.passed }
    ensures trust { OnErr result (kept.new.trust ≡ kept.old.trust) }
    ensures gives { IfErr result GivesSpace }
    ensures reason { AnswersWell desk.new result }
    ensures says { SaysFrom unit.old.group unit.old.unit rebuild unit.new.work
        kept.old kept.new desk.old desk.new result }
{
    let place = edit_place(kept, unit.group, unit.unit);
    let answer = reserve_one(alloc, desk, kept, &mut rebuild, &place, steps);
    put_work(unit, rebuild, &answer);
    answer
}

// Begins the rebuild of a unit that was judged, and reserves for it.
fn begin_with<D: Device, L: Ledger>(
    alloc: Global,
    desk: &mut Desk<D>,
    kept: &mut GroupKept,
    unit: &mut UnitState,
    judging: Judging,
    steps: &mut Steps<L>,
) -> Result<bool, ScrubFault>
    requires given { IsGiven D.Device desk.old kept.old unit.old }
    requires judged { IsJudging (layout desk.old.store.geo) unit.old.group judging }
    ensures left { IsLeft D.Device desk.old desk.new kept.new unit.old unit.new }
    ensures rest { unit.new ≡ record unit.old { work = unit.new.work } }
    ensures passed { kept.new.passed ≡ kept.old.passed }
    ensures trust { OnErr result (kept.new.trust ≡ kept.old.trust) }
    ensures gives { IfErr result GivesSpace }
    ensures reason { AnswersWell desk.new result }
    ensures says { SaysReserving unit.old.group unit.old.unit (Work.Chosen judging) unit.new.work
        kept.old kept.new desk.old desk.new result }
{
    let rebuild = begun(alloc, &desk.store.geo, kept, unit.group, judging)?;
    reserve_with(alloc, desk, kept, unit, rebuild, steps)
}

/// Takes one block into the reserve of the unit's new btrees, in one commit: the free list's first while
/// that has more than 8, else the lowest spare one, else the list's first. The answer is true once the
/// need is met. Where no index would note the block, reverse mappings are marked and nothing is taken;
/// where no block is to be had the unit is given up, and keeps its reserve until it is reopened
/// (XFS Online Fsck Design, "Reserving New B+Tree Blocks").
pub fn reserve_piece<D: Device, L: Ledger>(
    alloc: Global,
    desk: &mut Desk<D>,
    kept: &mut GroupKept,
    unit: &mut UnitState,
    steps: &mut Steps<L>,
) -> Result<bool, ScrubFault>
    requires given { IsGiven D.Device desk.old kept.old unit.old }
    ensures left { IsLeft D.Device desk.old desk.new kept.new unit.old unit.new }
    ensures rest { unit.new ≡ record unit.old { work = unit.new.work } }
    ensures passed { kept.new.passed ≡ kept.old.passed }
    ensures trust { OnErr result (kept.new.trust ≡ kept.old.trust) }
    ensures gives { IfErr result GivesSpace }
    ensures reason { AnswersWell desk.new result }
    ensures says { SaysReserving unit.old.group unit.old.unit unit.old.work unit.new.work
        kept.old kept.new desk.old desk.new result }
{
    match mem::replace(&mut unit.work, Work::Judged) {
        Work::Chosen(judging) => begin_with(alloc, desk, kept, unit, judging, steps),
        Work::Building(rebuild) => reserve_with(alloc, desk, kept, unit, rebuild, steps),
        work => other_phase(unit, work),
    }
}
