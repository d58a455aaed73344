ghost use Rattle.std.specs.Prelude.{◌≡◌, ◌≤◌, ◌<◌, ◌+◌, ◌^◌, ◌++◌, ◌∷◌, [], None, OnErr, OnOk, true};
ghost use Rattle.std.specs.Vec.{vec_capacity, vec_len};
ghost use Rattle.core_parts.specs.Common.Asks.{IsUsable};
ghost use Rattle.core_parts.specs.Keeps.{IsSteady};
ghost use Rattle.core_parts.specs.Safe.{IsKept, IsSafe};
ghost use Rattle.core_scan.specs.Followed.{HasRuns};
ghost use Rattle.core_chains.specs.Steps.Entries.{HasSaid, SaysRmap, mark_of, rmap_entry};
ghost use Rattle.core_chains.specs.Steps.Hears.{StaysPlace};
ghost use Rattle.core_chains.specs.Steps.Steps.{IsStep};
ghost use Rattle.core_chains.specs.Write.Writes.{IsGivenAll, IsGivenGroup, IsLeftAll, IsLeftGroup, WriteAnswers, WriteParts, WritesWell};
ghost use Rattle.defer_chain.specs.Owed.{owed};
ghost use Rattle.defer_chain.specs.Steps.{first_is, is_rmap};
ghost use Rattle.defer_chain.specs.declared.kinds.StepKind.TheVariants.{Rmap as RmapStep};
ghost use Rattle.sblock.specs.declared.kind.Kind.TheVariants.{Rmap};
ghost use Rattle.core_edit.specs.Opened.{IsOpen};

use crate::steps::asked::{Next, step_asked};
use crate::steps::hears::{hear, rmap_place, take_room};
use crate::steps::runs::{has_runs, run_with, taken_word};
use crate::steps::writes::{mark_if_left, write_edit};
use crate::write::{RmapEdit, begin_edit, chain_room, edit_rmap, is_sick, put_chain};
use blk_device::Device;
use byte_fields::Steps;
use core_calls::WriteFault;
use core_parts::common::add_entry;
use core_parts::{Desk, GroupKept, Parts, UnitState};
use defer_chain::{Chain, StepKind};
use fs_model::{Cause, Entry};
use fs_state::{Intent, IntentKind};
use sblock::Kind;
use std::alloc::Global;
use std::sync::ledger::Ledger;

// What an intent does to reverse mappings.
fn edit_of(intent: &Intent) -> RmapEdit
    requires kind { is_rmap intent.now.kind ≡ true }
    requires small { intent.now.word < 2 ^ 63 }
{
    match intent.kind {
        IntentKind::RmapAdd => RmapEdit::Add(run_with(intent, intent.word)),
        IntentKind::RmapRemove => RmapEdit::Cut(run_with(intent, intent.word)),
        IntentKind::RmapChange => RmapEdit::Turn {
            gone: run_with(intent, taken_word(intent)),
            run: run_with(intent, intent.word),
        },
        IntentKind::RefMore => unreachable!(),
        IntentKind::RefLess => unreachable!(),
        IntentKind::Free => unreachable!(),
    }
}

// Writes the edit, where the index wasn't left.
fn write_unless_left<D: Device, L: Ledger>(
    desk: &mut Desk<D>,
    kept: &mut GroupKept,
    g: u32,
    left: Option<Cause>,
    steps: &mut Steps<L>,
) -> Result<Option<Cause>, WriteFault>
    requires usable { IsUsable D.Device desk.old }
    requires group { g < desk.old.store.geo.agcount }
    requires opened { IsOpen D.Device g desk.old.store }
    requires kept { IsKept kept.old }
    ensures left { IsLeftGroup D.Device desk.old desk.new kept.new result }
    ensures book { OnOk result (desk.new.book ≡ desk.old.book) }
    ensures items { desk.new.book.journal.items ≡ desk.old.book.journal.items }
{
    match left {
        Some(cause) => Ok(Some(cause)),
        None => match write_edit(desk, kept, g, steps) {
            Ok(()) => Ok(None),
            Err(fault) => Err(fault),
        },
    }
}

// Does what the intent says, in the group whose edit is open; a cause says why reverse mappings were left.
fn edit_open<D: Device, L: Ledger>(
    alloc: Global,
    desk: &mut Desk<D>,
    kept: &mut GroupKept,
    intent: &Intent,
    steps: &mut Steps<L>,
) -> Result<Option<Cause>, WriteFault>
    requires usable { IsUsable D.Device desk.old }
    requires group { intent.now.group < desk.old.store.geo.agcount }
    requires opened { IsOpen D.Device intent.now.group desk.old.store }
    requires kept { IsKept kept.old }
    requires kind { is_rmap intent.now.kind ≡ true }
    requires runs { HasRuns intent.now }
    ensures left { IsLeftGroup D.Device desk.old desk.new kept.new result }
    ensures book { OnOk result (desk.new.book ≡ desk.old.book) }
    ensures items { desk.new.book.journal.items ≡ desk.old.book.journal.items }
{
    match edit_rmap(alloc, desk, intent.group, &edit_of(intent), steps) {
        Ok(left) => write_unless_left(desk, kept, intent.group, left, steps),
        Err(fault) => Err(fault),
    }
}

// Does what the intent says to reverse mappings, unless they are sick.
fn edit_sound<D: Device, L: Ledger>(
    alloc: Global,
    desk: &mut Desk<D>,
    kept: &mut GroupKept,
    intent: &Intent,
    steps: &mut Steps<L>,
) -> Result<Option<Cause>, WriteFault>
    requires given { IsGivenGroup D.Device desk.old kept.old intent.now.group }
    requires kind { is_rmap intent.now.kind ≡ true }
    requires runs { HasRuns intent.now }
    ensures left { IsLeftGroup D.Device desk.old desk.new kept.new result }
    ensures book { OnOk result (desk.new.book ≡ desk.old.book) }
    ensures items { desk.new.book.journal.items ≡ desk.old.book.journal.items }
{
    if is_sick(kept, Kind::Rmap) {
        return Ok(None);
    }
    match begin_edit(desk, kept, intent.group, None, steps) {
        Ok(()) => edit_open(alloc, desk, kept, intent, steps),
        Err(fault) => Err(fault),
    }
}

// The chain without its first intent.
fn finished(chain: &Chain) -> Chain
    requires { first_is is_rmap (owed chain.now) ≡ true }
{
    let mut rest = *chain;
    rest.finish_rmap();
    rest
}

// The entry of the step, a mark where reverse mappings were left, and the chain without the intent.
fn say_done<D: Device>(desk: &mut Desk<D>, kept: &mut GroupKept, next: &Next, left: Option<Cause>)
    requires given { IsGivenGroup D.Device desk.old kept.old next.now.intent.group }
    requires step { IsStep RmapStep next.now }
    requires room { vec_len desk.old.book.journal + 2 ≤ vec_capacity desk.old.book.journal }
    ensures usable { IsUsable D.Device desk.new }
    ensures steady { IsSteady D.Device desk.old desk.new }
    ensures kept { IsKept kept.new }
    ensures said { desk.new.book.journal.items ≡ desk.old.book.journal.items ++ rmap_entry next.now.number next.now.intent ∷ [] ++ mark_of next.now.intent.group Rmap left }
{
    let intent = next.intent;
    add_entry(
        desk,
        Entry::RmapDone {
            chain: next.number,
            ino: intent.ino,
            group: intent.group,
            block: intent.block,
            count: intent.count,
        },
    );
    mark_if_left(desk, kept, intent.group, Kind::Rmap, left);
    put_chain(desk, next.number, Some(finished(&next.chain)));
}

// The step, where the journal has room for its entries.
fn step_roomy<D: Device, L: Ledger>(
    alloc: Global,
    desk: &mut Desk<D>,
    kept: &mut GroupKept,
    next: &Next,
    steps: &mut Steps<L>,
) -> Result<(), WriteFault>
    requires given { IsGivenGroup D.Device desk.old kept.old next.now.intent.group }
    requires step { IsStep RmapStep next.now }
    requires runs { HasRuns next.now.intent }
    requires room { vec_len desk.old.book.journal + 2 ≤ vec_capacity desk.old.book.journal }
    ensures left { IsLeftGroup D.Device desk.old desk.new kept.new result }
    ensures said { OnOk result (SaysRmap next.now.number next.now.intent desk.old.book.journal.items desk.new.book.journal.items) }
    ensures unsaid { OnErr result (desk.new.book.journal.items ≡ desk.old.book.journal.items) }
{
    match edit_sound(alloc, desk, kept, &next.intent, steps) {
        Ok(left) => {
            say_done(desk, kept, next, left);
            Ok(())
        }
        Err(fault) => Err(fault),
    }
}

// The step in its group.
fn step_in<D: Device, L: Ledger>(
    alloc: Global,
    desk: &mut Desk<D>,
    kept: &mut GroupKept,
    next: &Next,
    steps: &mut Steps<L>,
) -> Result<(), WriteFault>
    requires given { IsGivenGroup D.Device desk.old kept.old next.now.intent.group }
    requires step { IsStep RmapStep next.now }
    requires runs { HasRuns next.now.intent }
    ensures left { IsLeftGroup D.Device desk.old desk.new kept.new result }
    ensures said { OnOk result (SaysRmap next.now.number next.now.intent desk.old.book.journal.items desk.new.book.journal.items) }
    ensures unsaid { OnErr result (desk.new.book.journal.items ≡ desk.old.book.journal.items) }
{
    match chain_room(desk, 2) {
        Ok(()) => step_roomy(alloc, desk, kept, next, steps),
        Err(fault) => Err(fault),
    }
}

// The step, with what is kept of its group among all groups.
fn step_among<D: Device, L: Ledger>(
    alloc: Global,
    desk: &mut Desk<D>,
    groups: &mut Vec<GroupKept>,
    next: &Next,
    steps: &mut Steps<L>,
) -> Result<(), WriteFault>
    requires given { IsGivenAll D.Device desk.old groups.old.items }
    requires inside { next.now.intent.group < desk.old.store.geo.agcount }
    requires step { IsStep RmapStep next.now }
    requires runs { HasRuns next.now.intent }
    ensures left { IsLeftAll D.Device desk.old desk.new groups.old.items groups.new.items }
    ensures reason { WritesWell desk.new result }
    ensures said { OnOk result (SaysRmap next.now.number next.now.intent desk.old.book.journal.items desk.new.book.journal.items) }
    ensures unsaid { OnErr result (desk.new.book.journal.items ≡ desk.old.book.journal.items) }
{
    let kept = &mut groups[next.intent.group as usize];
    step_in(alloc, desk, kept, next, steps)
}

// The step, of which the unit in a place hears once it is done.
fn step_heard<D: Device, L: Ledger>(
    alloc: Global,
    desk: &mut Desk<D>,
    groups: &mut Vec<GroupKept>,
    place: &mut Option<UnitState>,
    next: &Next,
    steps: &mut Steps<L>,
) -> Result<(), WriteFault>
    requires given { IsGivenAll D.Device desk.old groups.old.items }
    requires inside { next.now.intent.group < desk.old.store.geo.agcount }
    requires step { IsStep RmapStep next.now }
    requires runs { HasRuns next.now.intent }
    ensures left { IsLeftAll D.Device desk.old desk.new groups.old.items groups.new.items }
    ensures reason { WritesWell desk.new result }
    ensures stays { StaysPlace place.old place.new }
    ensures said { OnOk result (SaysRmap next.now.number next.now.intent desk.old.book.journal.items desk.new.book.journal.items) }
    ensures unsaid { OnErr result (desk.new.book.journal.items ≡ desk.old.book.journal.items) }
{
    match take_room(place) {
        Ok(()) => match step_among(alloc, desk, groups, next, steps) {
            Ok(()) => {
                hear(place, &next.intent);
                Ok(())
            }
            Err(fault) => Err(fault),
        },
        Err(fault) => Err(fault),
    }
}

// The step, where its intent is one of the image.
fn step_asked_for<D: Device, L: Ledger>(
    alloc: Global,
    parts: &mut Parts<D>,
    next: &Next,
    steps: &mut Steps<L>,
) -> Result<(), WriteFault>
    requires safe { IsSafe D.Device parts.old }
    requires unshut { parts.old.desk.book.shut ≡ None }
    requires step { IsStep RmapStep next.now }
    ensures left { WriteParts D.Device parts.old parts.new result }
    ensures said { OnOk result (SaysRmap next.now.number next.now.intent parts.old.desk.book.journal.items parts.new.desk.book.journal.items) }
    ensures unsaid { OnErr result (parts.new.desk.book.journal.items ≡
        parts.old.desk.book.journal.items) }
{
    // Never: a first event puts intents of a group that is there, with runs that lie in it.
    if next.intent.group >= parts.desk.store.geo.agcount || !has_runs(&next.intent) {
        return Err(WriteFault::Memory);
    }
    let place = rmap_place(parts.units.as_slice(), next.intent.group);
    step_heard(
        alloc,
        &mut parts.desk,
        &mut parts.groups,
        &mut parts.units[place as usize],
        next,
        steps,
    )
}

/// The next step of a chain, where that is one of reverse mappings: a run gets its owner, loses it, or is
/// turned from unwritten to written, in one commit. Reverse mappings that are sick are passed over; those
/// whose edit meets a fault are left and marked. In each case the intent is done, and the open unit of
/// reverse mappings hears of it. Refused with Shut where a fault of the device was noted, NoChain where no
/// such chain is open, and OtherStep where its next step is another
/// (XFS Online Fsck Design, "Eventual Consistency" and "Live Updates").
pub fn rmap_step<D: Device, L: Ledger>(
    alloc: Global,
    parts: &mut Parts<D>,
    chain: u32,
    steps: &mut Steps<L>,
) -> Result<(), WriteFault>
    requires safe { IsSafe D.Device parts.old }
    ensures left { WriteParts D.Device parts.old parts.new result }
    ensures said { OnOk result (HasSaid SaysRmap chain parts.old parts.new) }
    ensures unsaid { OnErr result (parts.new.desk.book.journal.items ≡
        parts.old.desk.book.journal.items) }
{
    match step_asked(&parts.desk, chain, StepKind::Rmap) {
        Ok(next) => step_asked_for(alloc, parts, &next, steps),
        Err(fault) => Err(fault),
    }
}
