// A free list that is filled.
ghost use Rattle.std.specs.Prelude.{◌≡◌, ◌<◌, ◌≤◌, ◌+◌, ◌^◌, ◌++◌, ◌∷◌, [], IfOk, OnErr, OnOk};
ghost use Rattle.std.specs.Vec.{vec_capacity, vec_len};
ghost use Rattle.core_parts.specs.Common.Asks.{IsUsable};
ghost use Rattle.core_parts.specs.Safe.{IsKept};
ghost use Rattle.core_chains.specs.Refill.Entries.{SaysGoal};
ghost use Rattle.core_chains.specs.Refill.Halts.{Halts};
ghost use Rattle.free_space.specs.declared.list.ListGoal.TheVariants.{Take};
ghost use Rattle.fs_model.specs.declared.entry.Entry.TheVariants.{Refilled};
ghost use Rattle.core_edit.specs.Opened.{IsOpen};

use crate::refill::edits::{add_owner, commit_group, open_group, take_both};
use crate::refill::halts::Halt;
use crate::refill::spaces::{chosen_run, unless_owned};
use blk_device::Device;
use byte_fields::Steps;
use core_calls::WriteFault;
use core_parts::common::add_entry;
use core_parts::{Desk, GroupKept};
use fs_model::{Entry, Extent};
use rmap_recs::Owner;
use span_recs::SpanRec;
use std::alloc::Global;
use std::sync::ledger::Ledger;

// So many blocks a free list has at most.
const PLACES: u32 = 119;

// The free list gains a block at its end.
fn list_block<D: Device>(desk: &mut Desk<D>, g: u32, block: u32) -> Result<(), Halt>
    requires usable { IsUsable D.Device desk.old }
    requires opened { IsOpen D.Device g desk.old.store }
    ensures halts { Halts D.Device desk.old desk.new result }
    ensures book { desk.new.book ≡ desk.old.book }
    ensures opened { OnOk result (IsOpen D.Device g desk.new.store) }
{
    // Never: a list that is filled has fewer than 12 blocks, and gains 16 at most.
    if desk.store.edit.heads.list.len() >= PLACES {
        return Err(Halt::Refused(WriteFault::Memory));
    }
    desk.store.edit.give_block(block);
    Ok(())
}

// The free list gains a run at its end.
fn list_run<D: Device>(desk: &mut Desk<D>, g: u32, run: &SpanRec) -> Result<(), Halt>
    requires usable { IsUsable D.Device desk.old }
    requires opened { IsOpen D.Device g desk.old.store }
    ensures halts { Halts D.Device desk.old desk.new result }
    ensures book { desk.new.book ≡ desk.old.book }
    ensures opened { OnOk result (IsOpen D.Device g desk.new.store) }
{
    // Never: a free run lies in its group.
    if run.count > u32::MAX - run.start {
        return Err(Halt::Refused(WriteFault::Memory));
    }
    for i in 0..run.count {
        list_block(desk, g, run.start + i)?;
    }
    Ok(())
}

// The run leaves free space, and the group owns it.
fn move_run<D: Device, L: Ledger>(
    alloc: Global,
    desk: &mut Desk<D>,
    g: u32,
    run: &SpanRec,
    steps: &mut Steps<L>,
) -> Result<(), Halt>
    requires usable { IsUsable D.Device desk.old }
    requires room { vec_len desk.old.book.journal + 2 ≤ vec_capacity desk.old.book.journal }
    requires group { g < desk.old.store.geo.agcount }
    requires opened { IsOpen D.Device g desk.old.store }
    ensures halts { Halts D.Device desk.old desk.new result }
    ensures book { OnOk result (desk.new.book ≡ desk.old.book) }
    ensures items { desk.new.book.journal.items ≡ desk.old.book.journal.items }
    ensures opened { OnOk result (IsOpen D.Device g desk.new.store) }
{
    take_both(alloc, desk, g, run, steps)?;
    add_owner(alloc, desk, g, run, Owner::Ag, steps)
}

// Begins an edit that lists the run, so that the edits of the run may use its blocks.
fn edit_run<D: Device, L: Ledger>(
    alloc: Global,
    desk: &mut Desk<D>,
    kept: &GroupKept,
    g: u32,
    run: &SpanRec,
    steps: &mut Steps<L>,
) -> Result<(), Halt>
    requires usable { IsUsable D.Device desk.old }
    requires room { vec_len desk.old.book.journal + 2 ≤ vec_capacity desk.old.book.journal }
    requires group { g < desk.old.store.geo.agcount }
    ensures halts { Halts D.Device desk.old desk.new result }
    ensures book { OnOk result (desk.new.book ≡ desk.old.book) }
    ensures items { desk.new.book.journal.items ≡ desk.old.book.journal.items }
    ensures opened { OnOk result (IsOpen D.Device g desk.new.store) }
{
    open_group(desk, kept, g, None, steps)?;
    list_run(desk, g, run)?;
    move_run(alloc, desk, g, run, steps)
}

// A run for the list, which nobody owns.
fn run_for_list<D: Device, L: Ledger>(
    alloc: Global,
    desk: &mut Desk<D>,
    kept: &GroupKept,
    g: u32,
    wanted: u32,
    steps: &mut Steps<L>,
) -> Result<SpanRec, Halt>
    requires usable { IsUsable D.Device desk.old }
    requires room { vec_len desk.old.book.journal + 2 ≤ vec_capacity desk.old.book.journal }
    requires group { g < desk.old.store.geo.agcount }
    ensures halts { Halts D.Device desk.old desk.new result }
    ensures few { IfOk result (λ run. run.count ≤ wanted) }
    ensures book { OnOk result (desk.new.book ≡ desk.old.book) }
    ensures items { desk.new.book.journal.items ≡ desk.old.book.journal.items }
{
    let run = chosen_run(alloc, desk, &kept.heads, g, wanted, steps)?;
    unless_owned(desk, &kept.heads, g, &run, steps)?;
    Ok(run)
}

// The list has the run, and this is written.
fn put_run<D: Device, L: Ledger>(
    alloc: Global,
    desk: &mut Desk<D>,
    kept: &mut GroupKept,
    g: u32,
    run: &SpanRec,
    steps: &mut Steps<L>,
) -> Result<(), Halt>
    requires usable { IsUsable D.Device desk.old }
    requires kept { IsKept kept.old }
    requires room { vec_len desk.old.book.journal + 2 ≤ vec_capacity desk.old.book.journal }
    requires group { g < desk.old.store.geo.agcount }
    ensures halts { Halts D.Device desk.old desk.new result }
    ensures book { OnOk result (desk.new.book ≡ desk.old.book) }
    ensures items { desk.new.book.journal.items ≡ desk.old.book.journal.items }
    ensures kept { IsKept kept.new }
{
    edit_run(alloc, desk, kept, g, run, steps)?;
    commit_group(desk, kept, g, steps)
}

// Says that the list was filled.
fn say_filled<D: Device>(desk: &mut Desk<D>, g: u32, run: &SpanRec) -> Result<u32, Halt>
    requires usable { IsUsable D.Device desk.old }
    requires room { vec_len desk.old.book.journal + 2 ≤ vec_capacity desk.old.book.journal }
    ensures halts { Halts D.Device desk.old desk.new result }
    ensures count { IfOk result (λ n. n ≡ run.now.count) }
    ensures said { OnOk result (desk.new.book.journal.items ≡ desk.old.book.journal.items ++
        Refilled (record { group = g; block = run.now.start; count = run.now.count }) ∷ []) }
    ensures unsaid { OnErr result (desk.new.book.journal.items ≡ desk.old.book.journal.items) }
{
    add_entry(
        desk,
        Entry::Refilled(Extent {
            group: g,
            block: run.start,
            count: run.count,
        }),
    );
    Ok(run.count)
}

/// Takes a run of at most so many blocks from free space to the end of the list, which has it for the edits
/// of this, too. The answer is how many blocks it has
/// (XFS Algorithms and Data Structures, "AG Free List").
#[tactic(auto, using(crate::proofs::refill::SaidLemmas::filled_said, crate::proofs::write::SaysLemmas::unsaid_on))]
pub(crate) fn fill<D: Device, L: Ledger>(
    alloc: Global,
    desk: &mut Desk<D>,
    kept: &mut GroupKept,
    g: u32,
    wanted: u32,
    steps: &mut Steps<L>,
) -> Result<u32, Halt>
    requires usable { IsUsable D.Device desk.old }
    requires kept { IsKept kept.old }
    requires room { vec_len desk.old.book.journal + 2 ≤ vec_capacity desk.old.book.journal }
    requires group { g < desk.old.store.geo.agcount }
    ensures halts { Halts D.Device desk.old desk.new result }
    ensures said { IfOk result (λ n. SaysGoal (Take wanted) g n desk.old.book.journal.items
        desk.new.book.journal.items) }
    ensures unsaid { OnErr result (desk.new.book.journal.items ≡ desk.old.book.journal.items) }
    ensures kept { IsKept kept.new }
{
    let run = run_for_list(alloc, desk, kept, g, wanted, steps)?;
    put_run(alloc, desk, kept, g, &run, steps)?;
    say_filled(desk, g, &run)
}
