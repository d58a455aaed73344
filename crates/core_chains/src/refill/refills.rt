ghost use Rattle.std.specs.Prelude.{◌≡◌, ◌<◌, ◌≤◌, ◌+◌, IfOk, OnErr, length};
ghost use Rattle.std.specs.Vec.{vec_capacity, vec_len};
ghost use Rattle.ag_headers.specs.Ring.{entries as listed};
ghost use Rattle.core_parts.specs.Common.Asks.{IsUsable};
ghost use Rattle.core_parts.specs.Safe.{IsKept, IsSafe};
ghost use Rattle.core_chains.specs.Refill.Entries.{SaysGoal, SaysRefilled, goal_of};
ghost use Rattle.core_chains.specs.Refill.Halts.{Halts};
ghost use Rattle.core_chains.specs.Write.Says.{RefusesBy};
ghost use Rattle.core_chains.specs.Write.Writes.{IsGivenAll, IsLeftAll, WriteParts, WritesWell};

use crate::refill::fills::fill;
use crate::refill::halts::Halt;
use crate::refill::marks::tell_halt;
use crate::refill::spaces::{is_gate_open, sick_space};
use crate::refill::trims::{MOST_TRIMMED, trim};
use crate::write::{writer_room, writer_unshut};
use blk_device::Device;
use byte_fields::Steps;
use core_calls::WriteFault;
use core_parts::{Desk, GroupKept, Parts};
use free_space::{ListGoal, list_goal};
use std::alloc::Global;
use std::sync::ledger::Ledger;

// Closing where the gate of the group isn't open, and Sick where one of the btrees is that are edited.
#[tactic(auto, using(crate::proofs::refill::HaltLemmas::self_ok, crate::proofs::refill::HaltLemmas::self_err))]
fn may_refill<D: Device>(desk: &Desk<D>, kept: &GroupKept, g: u32) -> Result<(), Halt>
    requires usable { IsUsable D.Device desk.now }
    requires group { g < desk.now.store.geo.agcount }
    ensures halts { Halts D.Device desk.now desk.now result }
{
    if !is_gate_open(desk, g) {
        return Err(Halt::Refused(WriteFault::Closing(g)));
    }
    match sick_space(kept) {
        Some(kind) => Err(Halt::Refused(WriteFault::Sick(g, kind))),
        None => Ok(()),
    }
}

// Does what a list of this length asks for.
fn reach_goal<D: Device, L: Ledger>(
    alloc: Global,
    desk: &mut Desk<D>,
    kept: &mut GroupKept,
    g: u32,
    goal: ListGoal,
    steps: &mut Steps<L>,
) -> Result<u32, Halt>
    requires usable { IsUsable D.Device desk.old }
    requires kept { IsKept kept.old }
    requires room { vec_len desk.old.book.journal + MOST_TRIMMED ≤ vec_capacity desk.old.book.journal }
    requires group { g < desk.old.store.geo.agcount }
    ensures halts { Halts D.Device desk.old desk.new result }
    ensures said { IfOk result (λ n. SaysGoal goal g n desk.old.book.journal.items
        desk.new.book.journal.items) }
    ensures unsaid { OnErr result (desk.new.book.journal.items ≡ desk.old.book.journal.items) }
    ensures kept { IsKept kept.new }
{
    match goal {
        ListGoal::Take(wanted) => fill(alloc, desk, kept, g, wanted, steps),
        ListGoal::Give(count) => trim(alloc, desk, kept, g, count, steps),
        ListGoal::Nothing => Ok(0),
    }
}

// Fills or trims the list of a group.
#[tactic(auto, using(crate::proofs::refill::SaidLemmas::goal_as))]
fn refill_group<D: Device, L: Ledger>(
    alloc: Global,
    desk: &mut Desk<D>,
    kept: &mut GroupKept,
    g: u32,
    steps: &mut Steps<L>,
) -> Result<u32, Halt>
    requires usable { IsUsable D.Device desk.old }
    requires kept { IsKept kept.old }
    requires room { vec_len desk.old.book.journal + MOST_TRIMMED ≤ vec_capacity desk.old.book.journal }
    requires group { g < desk.old.store.geo.agcount }
    ensures halts { Halts D.Device desk.old desk.new result }
    ensures said { IfOk result (λ n. SaysGoal (goal_of (length (listed kept.old.heads.list))) g n
        desk.old.book.journal.items desk.new.book.journal.items) }
    ensures unsaid { OnErr result (desk.new.book.journal.items ≡ desk.old.book.journal.items) }
    ensures kept { IsKept kept.new }
{
    may_refill(desk, kept, g)?;
    let goal = list_goal(kept.heads.list.len());
    reach_goal(alloc, desk, kept, g, goal, steps)
}

// The same with what is kept of all groups.
fn refill_one<D: Device, L: Ledger>(
    alloc: Global,
    desk: &mut Desk<D>,
    groups: &mut Vec<GroupKept>,
    g: u32,
    steps: &mut Steps<L>,
) -> Result<u32, Halt>
    requires given { IsGivenAll D.Device desk.old groups.old.items }
    requires room { vec_len desk.old.book.journal + MOST_TRIMMED ≤ vec_capacity desk.old.book.journal }
    requires group { g < desk.old.store.geo.agcount }
    ensures halts { Halts D.Device desk.old desk.new result }
    ensures said { IfOk result (λ n. SaysRefilled groups.old.items g n desk.old.book.journal.items
        desk.new.book.journal.items) }
    ensures unsaid { OnErr result (desk.new.book.journal.items ≡ desk.old.book.journal.items) }
    ensures left { IsLeftAll D.Device desk.old desk.new groups.old.items groups.new.items }
{
    refill_group(alloc, desk, &mut groups[g as usize], g, steps)
}

// The same, with the marks of what was met.
#[tactic(auto, using(crate::proofs::refill::HaltLemmas::left_marked, crate::proofs::write::SaysLemmas::refused_on))]
fn refill_marked<D: Device, L: Ledger>(
    alloc: Global,
    desk: &mut Desk<D>,
    groups: &mut Vec<GroupKept>,
    g: u32,
    steps: &mut Steps<L>,
) -> Result<u32, WriteFault>
    requires given { IsGivenAll D.Device desk.old groups.old.items }
    requires room { vec_len desk.old.book.journal + MOST_TRIMMED ≤ vec_capacity desk.old.book.journal }
    requires group { g < desk.old.store.geo.agcount }
    ensures left { IsLeftAll D.Device desk.old desk.new groups.old.items groups.new.items }
    ensures reason { WritesWell desk.new result }
    ensures said { IfOk result (λ n. SaysRefilled groups.old.items g n desk.old.book.journal.items
        desk.new.book.journal.items) }
    ensures refused { RefusesBy result desk.old.book.journal.items desk.new.book.journal.items }
{
    match refill_one(alloc, desk, groups, g, steps) {
        Ok(count) => Ok(count),
        Err(halt) => Err(tell_halt(desk, groups, halt)),
    }
}

// The same, once the journal has room.
#[tactic(auto, using(crate::proofs::refill::HaltLemmas::given_same, crate::proofs::refill::HaltLemmas::left_same, crate::proofs::refill::HaltLemmas::none_same, crate::proofs::write::SaysLemmas::refuses_on, crate::proofs::write::SaysLemmas::refuses_same))]
fn refill_among<D: Device, L: Ledger>(
    alloc: Global,
    desk: &mut Desk<D>,
    groups: &mut Vec<GroupKept>,
    g: u32,
    steps: &mut Steps<L>,
) -> Result<u32, WriteFault>
    requires given { IsGivenAll D.Device desk.old groups.old.items }
    requires group { g < desk.old.store.geo.agcount }
    ensures left { IsLeftAll D.Device desk.old desk.new groups.old.items groups.new.items }
    ensures reason { WritesWell desk.new result }
    ensures said { IfOk result (λ n. SaysRefilled groups.old.items g n desk.old.book.journal.items
        desk.new.book.journal.items) }
    ensures refused { RefusesBy result desk.old.book.journal.items desk.new.book.journal.items }
{
    writer_room(desk, MOST_TRIMMED)?;
    refill_marked(alloc, desk, groups, g, steps)
}

/// Fills the free list of a group that has fewer than 12 blocks towards 16, by one run of its free space
/// that nobody owns, or gives all but the last 16 of more than 64 back; the answer is how many blocks that
/// are, 0 where the list is left. The refusals, in their order: Shut, JournalFull, Closing, Sick with the
/// first of Bno, Cnt and Rmap that is, TooLarge where a trimming is more than one commit can write, NoSpace
/// where there is no free run. A btree that meets a fault is marked, both of free space where the run has an
/// owner, and nothing else is changed (XFS Algorithms and Data Structures, "AG Free List").
#[tactic(auto, using(crate::proofs::write::PartLemmas::given_of, crate::proofs::write::PartLemmas::left_parts, crate::proofs::write::PartLemmas::same_parts, crate::proofs::write::SaysLemmas::refuses_same))]
pub fn refill<D: Device, L: Ledger>(
    alloc: Global,
    parts: &mut Parts<D>,
    g: u32,
    steps: &mut Steps<L>,
) -> Result<u32, WriteFault>
    requires safe { IsSafe D.Device parts.old }
    requires group { g < parts.old.desk.store.geo.agcount }
    ensures left { WriteParts D.Device parts.old parts.new result }
    ensures said { IfOk result (λ n. SaysRefilled parts.old.groups.items g n
        parts.old.desk.book.journal.items parts.new.desk.book.journal.items) }
    ensures refused { RefusesBy result parts.old.desk.book.journal.items
        parts.new.desk.book.journal.items }
{
    writer_unshut(&parts.desk)?;
    refill_among(alloc, &mut parts.desk, &mut parts.groups, g, steps)
}
