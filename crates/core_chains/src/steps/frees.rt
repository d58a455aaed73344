ghost use Rattle.std.specs.Prelude.{◌≡◌, ◌≤◌, ◌<◌, ◌+◌, ◌++◌, ◌∷◌, [], None, OnErr, OnOk, true};
ghost use Rattle.std.specs.Vec.{vec_capacity, vec_len};
ghost use Rattle.core_parts.specs.Common.Asks.{IsUsable};
ghost use Rattle.core_parts.specs.Keeps.{IsSteady};
ghost use Rattle.core_parts.specs.Safe.{IsKept, IsSafe};
ghost use Rattle.core_chains.specs.Steps.Entries.Fate.{Faulty, Given, Owned, Unasked};
ghost use Rattle.core_chains.specs.Steps.Entries.{HasSaid, SaysFree, free_entry, freed_on};
ghost use Rattle.core_chains.specs.Steps.Steps.{IsStep};
ghost use Rattle.core_chains.specs.Write.Writes.{IsGivenAll, IsGivenGroup, IsLeftAll, IsLeftGroup, WriteParts, WritesWell};
ghost use Rattle.defer_chain.specs.Owed.{owed};
ghost use Rattle.defer_chain.specs.Steps.{first_is, is_free};
ghost use Rattle.defer_chain.specs.declared.kinds.StepKind.TheVariants.{Free as FreeStep};
ghost use Rattle.core_edit.specs.Opened.{IsOpen};

use crate::steps::asked::{Next, step_asked};
use crate::steps::reads::{Owner, owner_over};
use crate::steps::writes::{mark_if_left, write_edit};
use crate::write::{begin_edit, chain_room, give_space, is_sick, mark_kind, put_chain};
use blk_device::Device;
use byte_fields::Steps;
use core_calls::WriteFault;
use core_edit::{SpaceKinds, SpaceLeft};
use core_parts::common::add_entry;
use core_parts::{Desk, GroupKept, Parts};
use defer_chain::{Chain, StepKind};
use fs_model::{Cause, Entry};
use fs_state::Intent;
use run_sets::Run;
use sblock::Kind;
use span_recs::SpanRec;
use std::alloc::Global;
use std::sync::ledger::Ledger;

// No index was left.
const NONE_LEFT: SpaceLeft = SpaceLeft {
    bno: None,
    cnt: None,
};

// The chain without its first intent.
fn finished(chain: &Chain) -> Chain
    requires { first_is is_free (owed chain.now) ≡ true }
{
    let mut rest = *chain;
    rest.finish_free();
    rest
}

// The entry of a run that is freed, or kept, and the chain without it.
fn say_freed<D: Device>(desk: &mut Desk<D>, next: &Next, kept: bool)
    requires usable { IsUsable D.Device desk.old }
    requires step { IsStep FreeStep next.now }
    requires room { vec_len desk.old.book.journal < vec_capacity desk.old.book.journal }
    ensures usable { IsUsable D.Device desk.new }
    ensures steady { IsSteady D.Device desk.old desk.new }
    ensures longer { vec_len desk.new.book.journal ≡ vec_len desk.old.book.journal + 1 }
    ensures capacity { vec_capacity desk.new.book.journal ≡ vec_capacity desk.old.book.journal }
    ensures said { desk.new.book.journal.items ≡ desk.old.book.journal.items ++ free_entry next.now.number next.now.intent kept ∷ [] }
{
    add_entry(
        desk,
        Entry::Freed {
            chain: next.number,
            group: next.intent.group,
            block: next.intent.block,
            count: next.intent.count,
            kept,
        },
    );
    put_chain(desk, next.number, Some(finished(&next.chain)));
}

// The run is kept, since its owner can't be asked for.
fn keep_unasked<D: Device>(desk: &mut Desk<D>, kept: &mut GroupKept, next: &Next)
    requires given { IsGivenGroup D.Device desk.old kept.old next.now.intent.group }
    requires step { IsStep FreeStep next.now }
    requires room { vec_len desk.old.book.journal + 3 ≤ vec_capacity desk.old.book.journal }
    ensures usable { IsUsable D.Device desk.new }
    ensures steady { IsSteady D.Device desk.old desk.new }
    ensures kept { IsKept kept.new }
    ensures said { desk.new.book.journal.items ≡ freed_on desk.old.book.journal.items next.now.number next.now.intent Unasked }
{
    say_freed(desk, next, true);
}

// The run is kept, since a search for its owner met a fault: reverse mappings are marked first.
fn keep_met<D: Device>(desk: &mut Desk<D>, kept: &mut GroupKept, next: &Next, cause: Cause)
    requires given { IsGivenGroup D.Device desk.old kept.old next.now.intent.group }
    requires step { IsStep FreeStep next.now }
    requires room { vec_len desk.old.book.journal + 3 ≤ vec_capacity desk.old.book.journal }
    ensures usable { IsUsable D.Device desk.new }
    ensures steady { IsSteady D.Device desk.old desk.new }
    ensures kept { IsKept kept.new }
    ensures said { desk.new.book.journal.items ≡ freed_on desk.old.book.journal.items next.now.number next.now.intent (Faulty cause) }
{
    mark_kind(desk, kept, next.intent.group, Kind::Rmap, cause);
    say_freed(desk, next, true);
}

// The run is kept, since it has an owner: reference counts, by which it has none, are marked.
fn keep_owned<D: Device>(desk: &mut Desk<D>, kept: &mut GroupKept, next: &Next)
    requires given { IsGivenGroup D.Device desk.old kept.old next.now.intent.group }
    requires step { IsStep FreeStep next.now }
    requires room { vec_len desk.old.book.journal + 3 ≤ vec_capacity desk.old.book.journal }
    ensures usable { IsUsable D.Device desk.new }
    ensures steady { IsSteady D.Device desk.old desk.new }
    ensures kept { IsKept kept.new }
    ensures said { desk.new.book.journal.items ≡ freed_on desk.old.book.journal.items next.now.number next.now.intent Owned }
{
    say_freed(desk, next, true);
    mark_kind(desk, kept, next.intent.group, Kind::Refc, Cause::Owner);
}

// The run is freed: its entry, and a mark for each index that was left.
fn say_given<D: Device>(desk: &mut Desk<D>, kept: &mut GroupKept, next: &Next, left: SpaceLeft)
    requires given { IsGivenGroup D.Device desk.old kept.old next.now.intent.group }
    requires step { IsStep FreeStep next.now }
    requires room { vec_len desk.old.book.journal + 3 ≤ vec_capacity desk.old.book.journal }
    ensures usable { IsUsable D.Device desk.new }
    ensures steady { IsSteady D.Device desk.old desk.new }
    ensures kept { IsKept kept.new }
    ensures said { desk.new.book.journal.items ≡ freed_on desk.old.book.journal.items next.now.number next.now.intent (Given left.bno left.cnt) }
{
    say_freed(desk, next, false);
    mark_if_left(desk, kept, next.intent.group, Kind::Bno, left.bno);
    mark_if_left(desk, kept, next.intent.group, Kind::Cnt, left.cnt);
}

// Writes the edit of free space.
fn write_given<D: Device, L: Ledger>(
    desk: &mut Desk<D>,
    kept: &mut GroupKept,
    g: u32,
    left: SpaceLeft,
    steps: &mut Steps<L>,
) -> Result<SpaceLeft, WriteFault>
    requires usable { IsUsable D.Device desk.old }
    requires group { g < desk.old.store.geo.agcount }
    requires opened { IsOpen D.Device g desk.old.store }
    requires kept { IsKept kept.old }
    ensures left { IsLeftGroup D.Device desk.old desk.new kept.new result }
    ensures book { OnOk result (desk.new.book ≡ desk.old.book) }
    ensures items { desk.new.book.journal.items ≡ desk.old.book.journal.items }
{
    match write_edit(desk, kept, g, steps) {
        Ok(()) => Ok(left),
        Err(fault) => Err(fault),
    }
}

// Gives the run to these indexes, in the group whose edit is open.
fn give_open<D: Device, L: Ledger>(
    alloc: Global,
    desk: &mut Desk<D>,
    kept: &mut GroupKept,
    intent: &Intent,
    kinds: SpaceKinds,
    steps: &mut Steps<L>,
) -> Result<SpaceLeft, WriteFault>
    requires usable { IsUsable D.Device desk.old }
    requires group { intent.now.group < desk.old.store.geo.agcount }
    requires opened { IsOpen D.Device intent.now.group desk.old.store }
    requires kept { IsKept kept.old }
    ensures left { IsLeftGroup D.Device desk.old desk.new kept.new result }
    ensures book { OnOk result (desk.new.book ≡ desk.old.book) }
    ensures items { desk.new.book.journal.items ≡ desk.old.book.journal.items }
{
    let run = SpanRec {
        start: intent.block,
        count: intent.count,
    };
    match give_space(alloc, desk, intent.group, kinds, &run, steps) {
        Ok(left) => write_given(desk, kept, intent.group, left, steps),
        Err(fault) => Err(fault),
    }
}

// Gives the run to each index of free space that isn't sick.
fn give_sound<D: Device, L: Ledger>(
    alloc: Global,
    desk: &mut Desk<D>,
    kept: &mut GroupKept,
    intent: &Intent,
    steps: &mut Steps<L>,
) -> Result<SpaceLeft, WriteFault>
    requires given { IsGivenGroup D.Device desk.old kept.old intent.now.group }
    ensures left { IsLeftGroup D.Device desk.old desk.new kept.new result }
    ensures book { OnOk result (desk.new.book ≡ desk.old.book) }
    ensures items { desk.new.book.journal.items ≡ desk.old.book.journal.items }
{
    let kinds = SpaceKinds {
        bno: !is_sick(kept, Kind::Bno),
        cnt: !is_sick(kept, Kind::Cnt),
    };
    if !kinds.bno && !kinds.cnt {
        return Ok(NONE_LEFT);
    }
    match begin_edit(desk, kept, intent.group, None, steps) {
        Ok(()) => give_open(alloc, desk, kept, intent, kinds, steps),
        Err(fault) => Err(fault),
    }
}

// The run goes to free space, since nobody has it.
fn free_run<D: Device, L: Ledger>(
    alloc: Global,
    desk: &mut Desk<D>,
    kept: &mut GroupKept,
    next: &Next,
    steps: &mut Steps<L>,
) -> Result<(), WriteFault>
    requires given { IsGivenGroup D.Device desk.old kept.old next.now.intent.group }
    requires step { IsStep FreeStep next.now }
    requires room { vec_len desk.old.book.journal + 3 ≤ vec_capacity desk.old.book.journal }
    ensures left { IsLeftGroup D.Device desk.old desk.new kept.new result }
    ensures said { OnOk result (SaysFree next.now.number next.now.intent desk.old.book.journal.items desk.new.book.journal.items) }
    ensures unsaid { OnErr result (desk.new.book.journal.items ≡ desk.old.book.journal.items) }
{
    match give_sound(alloc, desk, kept, &next.intent, steps) {
        Ok(left) => {
            say_given(desk, kept, next, left);
            Ok(())
        }
        Err(fault) => Err(fault),
    }
}

// What is done with the run, by who has it.
fn by_owner<D: Device, L: Ledger>(
    alloc: Global,
    desk: &mut Desk<D>,
    kept: &mut GroupKept,
    next: &Next,
    owner: Owner,
    steps: &mut Steps<L>,
) -> Result<(), WriteFault>
    requires given { IsGivenGroup D.Device desk.old kept.old next.now.intent.group }
    requires step { IsStep FreeStep next.now }
    requires room { vec_len desk.old.book.journal + 3 ≤ vec_capacity desk.old.book.journal }
    ensures left { IsLeftGroup D.Device desk.old desk.new kept.new result }
    ensures said { OnOk result (SaysFree next.now.number next.now.intent desk.old.book.journal.items desk.new.book.journal.items) }
    ensures unsaid { OnErr result (desk.new.book.journal.items ≡ desk.old.book.journal.items) }
{
    match owner {
        Owner::Nobody => free_run(alloc, desk, kept, next, steps),
        Owner::Somebody => {
            keep_owned(desk, kept, next);
            Ok(())
        }
        Owner::Met(cause) => {
            keep_met(desk, kept, next, cause);
            Ok(())
        }
    }
}

// The step, once it is asked who has the run.
fn step_guarded<D: Device, L: Ledger>(
    alloc: Global,
    desk: &mut Desk<D>,
    kept: &mut GroupKept,
    next: &Next,
    steps: &mut Steps<L>,
) -> Result<(), WriteFault>
    requires given { IsGivenGroup D.Device desk.old kept.old next.now.intent.group }
    requires step { IsStep FreeStep next.now }
    requires room { vec_len desk.old.book.journal + 3 ≤ vec_capacity desk.old.book.journal }
    ensures left { IsLeftGroup D.Device desk.old desk.new kept.new result }
    ensures said { OnOk result (SaysFree next.now.number next.now.intent desk.old.book.journal.items desk.new.book.journal.items) }
    ensures unsaid { OnErr result (desk.new.book.journal.items ≡ desk.old.book.journal.items) }
{
    let run = Run {
        start: next.intent.block,
        count: next.intent.count,
    };
    match owner_over(desk, &kept.heads, next.intent.group, run, steps) {
        Ok(owner) => by_owner(alloc, desk, kept, next, owner, steps),
        Err(fault) => Err(fault),
    }
}

// The step, where the journal has room for its entries.
fn step_roomy<D: Device, L: Ledger>(
    alloc: Global,
    desk: &mut Desk<D>,
    kept: &mut GroupKept,
    next: &Next,
    steps: &mut Steps<L>,
) -> Result<(), WriteFault>
    requires given { IsGivenGroup D.Device desk.old kept.old next.now.intent.group }
    requires step { IsStep FreeStep next.now }
    requires room { vec_len desk.old.book.journal + 3 ≤ vec_capacity desk.old.book.journal }
    ensures left { IsLeftGroup D.Device desk.old desk.new kept.new result }
    ensures said { OnOk result (SaysFree next.now.number next.now.intent desk.old.book.journal.items desk.new.book.journal.items) }
    ensures unsaid { OnErr result (desk.new.book.journal.items ≡ desk.old.book.journal.items) }
{
    if is_sick(kept, Kind::Rmap) {
        keep_unasked(desk, kept, next);
        return Ok(());
    }
    step_guarded(alloc, desk, kept, next, steps)
}

// The step in its group.
fn step_in<D: Device, L: Ledger>(
    alloc: Global,
    desk: &mut Desk<D>,
    kept: &mut GroupKept,
    next: &Next,
    steps: &mut Steps<L>,
) -> Result<(), WriteFault>
    requires given { IsGivenGroup D.Device desk.old kept.old next.now.intent.group }
    requires step { IsStep FreeStep next.now }
    ensures left { IsLeftGroup D.Device desk.old desk.new kept.new result }
    ensures said { OnOk result (SaysFree next.now.number next.now.intent desk.old.book.journal.items desk.new.book.journal.items) }
    ensures unsaid { OnErr result (desk.new.book.journal.items ≡ desk.old.book.journal.items) }
{
    match chain_room(desk, 3) {
        Ok(()) => step_roomy(alloc, desk, kept, next, steps),
        Err(fault) => Err(fault),
    }
}

// The step, with what is kept of its group among all groups.
fn step_among<D: Device, L: Ledger>(
    alloc: Global,
    desk: &mut Desk<D>,
    groups: &mut Vec<GroupKept>,
    next: &Next,
    steps: &mut Steps<L>,
) -> Result<(), WriteFault>
    requires given { IsGivenAll D.Device desk.old groups.old.items }
    requires inside { next.now.intent.group < desk.old.store.geo.agcount }
    requires step { IsStep FreeStep next.now }
    ensures left { IsLeftAll D.Device desk.old desk.new groups.old.items groups.new.items }
    ensures reason { WritesWell desk.new result }
    ensures said { OnOk result (SaysFree next.now.number next.now.intent desk.old.book.journal.items desk.new.book.journal.items) }
    ensures unsaid { OnErr result (desk.new.book.journal.items ≡ desk.old.book.journal.items) }
{
    let kept = &mut groups[next.intent.group as usize];
    step_in(alloc, desk, kept, next, steps)
}

// The step, where its intent is one of the image.
fn step_asked_for<D: Device, L: Ledger>(
    alloc: Global,
    parts: &mut Parts<D>,
    next: &Next,
    steps: &mut Steps<L>,
) -> Result<(), WriteFault>
    requires safe { IsSafe D.Device parts.old }
    requires unshut { parts.old.desk.book.shut ≡ None }
    requires step { IsStep FreeStep next.now }
    ensures left { WriteParts D.Device parts.old parts.new result }
    ensures said { OnOk result (SaysFree next.now.number next.now.intent parts.old.desk.book.journal.items parts.new.desk.book.journal.items) }
    ensures unsaid { OnErr result (parts.new.desk.book.journal.items ≡
        parts.old.desk.book.journal.items) }
{
    // Never: a run that a chain frees is of a group that is there.
    if next.intent.group >= parts.desk.store.geo.agcount {
        return Err(WriteFault::Memory);
    }
    step_among(alloc, &mut parts.desk, &mut parts.groups, next, steps)
}

/// The next step of a chain, where that frees a run: it goes to each index of free space that isn't sick,
/// in one commit; an index whose edit meets a fault is left and marked. Where reverse mappings are sick or
/// a fault of them is met, which marks them, the run is kept; where they have an owner of a block of it too,
/// and then reference counts are marked. In each case the intent is done. Refused with Shut where a fault
/// of the device was noted, NoChain where no such chain is open, and OtherStep where its next step is
/// another (XFS Online Fsck Design, "Eventual Consistency").
pub fn free_step<D: Device, L: Ledger>(
    alloc: Global,
    parts: &mut Parts<D>,
    chain: u32,
    steps: &mut Steps<L>,
) -> Result<(), WriteFault>
    requires safe { IsSafe D.Device parts.old }
    ensures left { WriteParts D.Device parts.old parts.new result }
    ensures said { OnOk result (HasSaid SaysFree chain parts.old parts.new) }
    ensures unsaid { OnErr result (parts.new.desk.book.journal.items ≡
        parts.old.desk.book.journal.items) }
{
    match step_asked(&parts.desk, chain, StepKind::Free) {
        Ok(next) => step_asked_for(alloc, parts, &next, steps),
        Err(fault) => Err(fault),
    }
}
