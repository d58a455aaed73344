// A free list that is trimmed.
ghost use Rattle.std.specs.Prelude.{◌≡◌, ◌<◌, ◌≤◌, ◌+◌, ◌++◌, ◌∷◌, [], IfErr, IfOk, OnErr, OnOk, length, map};
ghost use Rattle.std.specs.Vec.{vec_capacity, vec_len};
ghost use Rattle.core_parts.specs.Common.Asks.{IsUsable};
ghost use Rattle.core_parts.specs.Keeps.{IsSteady};
ghost use Rattle.core_parts.specs.Safe.{IsKept};
ghost use Rattle.core_chains.specs.Refill.Entries.{SaysGoal, trimmed, with_blocks};
ghost use Rattle.core_chains.specs.Refill.Halts.{Halts, HaltsWell, IsMemory};
ghost use Rattle.free_space.specs.declared.list.ListGoal.TheVariants.{Give};
ghost use Rattle.core_edit.specs.Opened.{IsOpen};

use crate::refill::edits::{commit_group, cut_owner, give_both, open_group};
use crate::refill::halts::Halt;
use ag_headers::Agfl;
use blk_device::Device;
use byte_fields::Steps;
use core_calls::WriteFault;
use core_parts::common::add_entry;
use core_parts::{Desk, GroupKept};
use free_space::WANTED_LISTED;
use fs_model::{Cause, Entry, Extent};
use rmap_recs::Owner;
use run_sets::{Run, RunSet};
use span_recs::SpanRec;
use std::alloc::Global;
use std::sync::ledger::Ledger;

/// So many entries a trimming adds at most: no list has so many runs.
pub(crate) const MOST_TRIMMED: usize = 119;

// The list loses its first block.
fn unlist_block<D: Device>(desk: &mut Desk<D>, g: u32) -> Option<u32>
    requires usable { IsUsable D.Device desk.old }
    requires opened { IsOpen D.Device g desk.old.store }
    ensures usable { IsUsable D.Device desk.new }
    ensures steady { IsSteady D.Device desk.old desk.new }
    ensures book { desk.new.book ≡ desk.old.book }
    ensures opened { IsOpen D.Device g desk.new.store }
{
    desk.store.edit.take_block()
}

// Notes a block that was on the list.
fn note_block(alloc: Global, set: &mut RunSet, block: u32) -> Result<(), Halt>
    ensures { IfErr result IsMemory }
{
    // Never: a list has blocks of its group.
    if block == u32::MAX {
        return Err(Halt::Refused(WriteFault::Memory));
    }
    let one = Run {
        start: block,
        count: 1,
    };
    match set.add(alloc, one) {
        Ok(()) => Ok(()),
        Err(_) => Err(Halt::Refused(WriteFault::Memory)),
    }
}

// No block.
fn no_blocks(alloc: Global) -> Result<RunSet, Halt>
    ensures { IfErr result IsMemory }
{
    match RunSet::new(alloc) {
        Ok(set) => Ok(set),
        Err(_) => Err(Halt::Refused(WriteFault::Memory)),
    }
}

// The blocks of a list that is trimmed, but the last ones, which stay.
fn front_of(alloc: Global, list: &Agfl) -> Result<RunSet, Halt>
    ensures { IfErr result IsMemory }
{
    let mut set = no_blocks(alloc)?;
    for i in 0..list.len().saturating_sub(WANTED_LISTED) {
        note_block(alloc, &mut set, list.entry(i))?;
    }
    Ok(set)
}

// The list loses so many blocks in front.
fn unlist_front<D: Device>(desk: &mut Desk<D>, g: u32, count: u32)
    requires usable { IsUsable D.Device desk.old }
    requires opened { IsOpen D.Device g desk.old.store }
    ensures usable { IsUsable D.Device desk.new }
    ensures steady { IsSteady D.Device desk.old desk.new }
    ensures book { desk.new.book ≡ desk.old.book }
    ensures opened { IsOpen D.Device g desk.new.store }
{
    for _ in 0..count {
        let _ = unlist_block(desk, g);
    }
}

// A run joins free space, and the group owns it no more.
fn free_run<D: Device, L: Ledger>(
    alloc: Global,
    desk: &mut Desk<D>,
    g: u32,
    run: &Run,
    steps: &mut Steps<L>,
) -> Result<(), Halt>
    requires usable { IsUsable D.Device desk.old }
    requires room { vec_len desk.old.book.journal + 2 ≤ vec_capacity desk.old.book.journal }
    requires group { g < desk.old.store.geo.agcount }
    requires opened { IsOpen D.Device g desk.old.store }
    ensures halts { Halts D.Device desk.old desk.new result }
    ensures book { OnOk result (desk.new.book ≡ desk.old.book) }
    ensures items { desk.new.book.journal.items ≡ desk.old.book.journal.items }
    ensures opened { OnOk result (IsOpen D.Device g desk.new.store) }
{
    let span = SpanRec {
        start: run.start,
        count: run.count,
    };
    give_both(alloc, desk, g, &span, steps)?;
    cut_owner(alloc, desk, g, &span, Owner::Ag, steps)
}

// The same of each run, one after the other.
fn free_runs<D: Device, L: Ledger>(
    alloc: Global,
    desk: &mut Desk<D>,
    g: u32,
    runs: &[Run],
    steps: &mut Steps<L>,
) -> Result<(), Halt>
    requires usable { IsUsable D.Device desk.old }
    requires room { vec_len desk.old.book.journal + 2 ≤ vec_capacity desk.old.book.journal }
    requires group { g < desk.old.store.geo.agcount }
    requires opened { IsOpen D.Device g desk.old.store }
    ensures halts { Halts D.Device desk.old desk.new result }
    ensures book { OnOk result (desk.new.book ≡ desk.old.book) }
    ensures items { desk.new.book.journal.items ≡ desk.old.book.journal.items }
    ensures opened { OnOk result (IsOpen D.Device g desk.new.store) }
{
    let mut rest = runs;
    while let Some((run, later)) = rest.split_first() {
        free_run(alloc, desk, g, run, steps)?;
        rest = later;
    }
    Ok(())
}

// Begins an edit in which the first blocks of the list are free, so many, which are these runs.
fn edit_front<D: Device, L: Ledger>(
    alloc: Global,
    desk: &mut Desk<D>,
    kept: &GroupKept,
    g: u32,
    count: u32,
    runs: &[Run],
    steps: &mut Steps<L>,
) -> Result<(), Halt>
    requires usable { IsUsable D.Device desk.old }
    requires room { vec_len desk.old.book.journal + 2 ≤ vec_capacity desk.old.book.journal }
    requires group { g < desk.old.store.geo.agcount }
    ensures halts { Halts D.Device desk.old desk.new result }
    ensures book { OnOk result (desk.new.book ≡ desk.old.book) }
    ensures items { desk.new.book.journal.items ≡ desk.old.book.journal.items }
    ensures opened { OnOk result (IsOpen D.Device g desk.new.store) }
{
    open_group(desk, kept, g, None, steps)?;
    unlist_front(desk, g, count);
    free_runs(alloc, desk, g, runs, steps)
}

// A trimming that is too large for one commit is refused, and nothing is marked.
fn unless_large<D: Device>(desk: &Desk<D>, halt: Halt) -> Halt
    requires { HaltsWell desk.now halt }
    ensures { HaltsWell desk.now result }
{
    match halt {
        Halt::Met(_, _, Cause::Large(_)) => Halt::Refused(WriteFault::TooLarge),
        other => other,
    }
}

// The same edit, where a batch that is too large is refused.
fn try_front<D: Device, L: Ledger>(
    alloc: Global,
    desk: &mut Desk<D>,
    kept: &GroupKept,
    g: u32,
    count: u32,
    runs: &[Run],
    steps: &mut Steps<L>,
) -> Result<(), Halt>
    requires usable { IsUsable D.Device desk.old }
    requires room { vec_len desk.old.book.journal + 2 ≤ vec_capacity desk.old.book.journal }
    requires group { g < desk.old.store.geo.agcount }
    ensures halts { Halts D.Device desk.old desk.new result }
    ensures book { OnOk result (desk.new.book ≡ desk.old.book) }
    ensures items { desk.new.book.journal.items ≡ desk.old.book.journal.items }
    ensures opened { OnOk result (IsOpen D.Device g desk.new.store) }
{
    match edit_front(alloc, desk, kept, g, count, runs, steps) {
        Ok(()) => Ok(()),
        Err(halt) => Err(unless_large(desk, halt)),
    }
}

// The runs are free, and this is written.
fn write_front<D: Device, L: Ledger>(
    alloc: Global,
    desk: &mut Desk<D>,
    kept: &mut GroupKept,
    g: u32,
    count: u32,
    runs: &[Run],
    steps: &mut Steps<L>,
) -> Result<(), Halt>
    requires usable { IsUsable D.Device desk.old }
    requires kept { IsKept kept.old }
    requires room { vec_len desk.old.book.journal + 2 ≤ vec_capacity desk.old.book.journal }
    requires group { g < desk.old.store.geo.agcount }
    ensures halts { Halts D.Device desk.old desk.new result }
    ensures book { OnOk result (desk.new.book ≡ desk.old.book) }
    ensures items { desk.new.book.journal.items ≡ desk.old.book.journal.items }
    ensures kept { IsKept kept.new }
{
    try_front(alloc, desk, kept, g, count, runs, steps)?;
    commit_group(desk, kept, g, steps)
}

// Says that a run left the list.
#[tactic(auto, using(core_parts::proofs::common::AskLemmas::adds_usable, core_parts::proofs::common::AskLemmas::adds_steady))]
fn say_run<D: Device>(desk: &mut Desk<D>, g: u32, run: &Run)
    requires usable { IsUsable D.Device desk.old }
    requires room { vec_len desk.old.book.journal < vec_capacity desk.old.book.journal }
    ensures usable { IsUsable D.Device desk.new }
    ensures steady { IsSteady D.Device desk.old desk.new }
    ensures longer { vec_len desk.new.book.journal ≡ vec_len desk.old.book.journal + 1 }
    ensures capacity { vec_capacity desk.new.book.journal ≡ vec_capacity desk.old.book.journal }
    ensures said { desk.new.book.journal.items ≡ desk.old.book.journal.items ++ trimmed g run.now
        ∷ [] }
{
    add_entry(
        desk,
        Entry::Trimmed(Extent {
            group: g,
            block: run.start,
            count: run.count,
        }),
    );
}

// The same of each run; the answer is how many blocks they have.
#[tactic(auto, using(crate::proofs::refill::SaidLemmas::run_said, crate::proofs::refill::SaidLemmas::all_said))]
fn say_runs<D: Device>(desk: &mut Desk<D>, g: u32, runs: &[Run]) -> u32
    requires usable { IsUsable D.Device desk.old }
    requires room { vec_len desk.old.book.journal + length runs.now ≤ vec_capacity desk.old.book.journal }
    ensures usable { IsUsable D.Device desk.new }
    ensures steady { IsSteady D.Device desk.old desk.new }
    ensures said { desk.new.book.journal.items ≡ desk.old.book.journal.items ++ map (trimmed g)
        runs.now }
    ensures count { result ≡ with_blocks 0 runs.now }
{
    let mut count: u32 = 0;
    let mut rest = runs;
    while let Some((run, later)) = rest.split_first() {
        say_run(desk, g, run);
        count = count.saturating_add(run.count);
        rest = later;
    }
    count
}

// The runs are free, this is written, and said.
#[tactic(auto, using(crate::proofs::refill::SaidLemmas::trimmed_said))]
fn trim_runs<D: Device, L: Ledger>(
    alloc: Global,
    desk: &mut Desk<D>,
    kept: &mut GroupKept,
    g: u32,
    count: u32,
    runs: &[Run],
    steps: &mut Steps<L>,
) -> Result<u32, Halt>
    requires usable { IsUsable D.Device desk.old }
    requires kept { IsKept kept.old }
    requires room { vec_len desk.old.book.journal + 2 ≤ vec_capacity desk.old.book.journal }
    requires each { vec_len desk.old.book.journal + length runs.now ≤ vec_capacity desk.old.book.journal }
    requires group { g < desk.old.store.geo.agcount }
    ensures halts { Halts D.Device desk.old desk.new result }
    ensures said { IfOk result (λ n. SaysGoal (Give count) g n desk.old.book.journal.items
        desk.new.book.journal.items) }
    ensures unsaid { OnErr result (desk.new.book.journal.items ≡ desk.old.book.journal.items) }
    ensures kept { IsKept kept.new }
{
    write_front(alloc, desk, kept, g, count, runs, steps)?;
    Ok(say_runs(desk, g, runs))
}

/// Gives all blocks of the list but its last 16 back to free space, so many, in one commit. The answer is
/// how many blocks that are; TooLarge where it is more than one commit can write
/// (XFS Algorithms and Data Structures, "AG Free List").
pub(crate) fn trim<D: Device, L: Ledger>(
    alloc: Global,
    desk: &mut Desk<D>,
    kept: &mut GroupKept,
    g: u32,
    count: u32,
    steps: &mut Steps<L>,
) -> Result<u32, Halt>
    requires usable { IsUsable D.Device desk.old }
    requires kept { IsKept kept.old }
    requires room { vec_len desk.old.book.journal + MOST_TRIMMED ≤ vec_capacity desk.old.book.journal }
    requires group { g < desk.old.store.geo.agcount }
    ensures halts { Halts D.Device desk.old desk.new result }
    ensures said { IfOk result (λ n. SaysGoal (Give count) g n desk.old.book.journal.items
        desk.new.book.journal.items) }
    ensures unsaid { OnErr result (desk.new.book.journal.items ≡ desk.old.book.journal.items) }
    ensures kept { IsKept kept.new }
{
    let set = front_of(alloc, &kept.heads.list)?;
    let runs = set.runs();
    // Never: a list has 119 places.
    if runs.len() > MOST_TRIMMED {
        return Err(Halt::Refused(WriteFault::Memory));
    }
    trim_runs(alloc, desk, kept, g, count, runs, steps)
}
