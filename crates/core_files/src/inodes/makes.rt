// A new chunk of inodes, of which the first is taken.
ghost use Rattle.std.specs.Prelude.{◌≡◌, ◌<◌, ◌≤◌, ◌+◌, IfOk, OnErr, OnOk};
ghost use Rattle.std.specs.Vec.{vec_capacity, vec_len};
ghost use Rattle.core_parts.specs.Common.Asks.{IsUsable};
ghost use Rattle.core_parts.specs.Safe.{IsKept};
ghost use Rattle.core_chains.specs.Refill.Halts.{Halts};
ghost use Rattle.core_files.specs.Inodes.Entries.{SaysTaken};
ghost use Rattle.core_chains.specs.Write.Writes.{IsGivenAll, IsLeftAll};
ghost use Rattle.core_edit.specs.Opened.{IsOpen};

use crate::chunks::{ChunkChange, change_chunk, find_run, put_chunk};
use crate::inodes::ends::{Taker, drain_with, end_take, unless_held};
use blk_device::Device;
use byte_fields::Steps;
use core_calls::WriteFault;
use core_chains::refill::{Halt, add_owner, commit_group, open_group, take_both, unless_owned};
use core_chains::write::ChunkEdit;
use core_parts::{Desk, GroupKept, UnitState};
use fs_model::{Entry, Extent};
use geom::{Geometry, InodePlace};
use inode_table::{fresh_chunk, lowest_free, take};
use rmap_recs::Owner;
use span_recs::SpanRec;
use std::alloc::Global;
use std::sync::ledger::Ledger;

// A chunk that is made: its first block, the inode that is taken, and what changes in both inode btrees.
#[derive(Clone, Copy, Debug, PartialEq, Eq)]
struct NewChunk {
    block: u32,
    ino: u64,
    change: ChunkChange,
}

// What comes to both inode btrees with a chunk that begins at this block.
fn made_change(block: u32) -> Option<ChunkChange> {
    // Never: no group has so many blocks.
    if block >= 1 << 29 {
        return None;
    }
    let fresh = fresh_chunk(block);
    let slot = lowest_free(&fresh)?;
    let rec = take(&fresh, slot);
    Some(ChunkChange {
        ino: ChunkEdit::Put(rec),
        fino: ChunkEdit::Put(rec),
        is_followed: true,
    })
}

// A chunk in this run; none where the run doesn't lie in its group.
fn chunk_at(geo: &Geometry, run: &Extent) -> Option<NewChunk>
    requires group { run.now.group < geo.now.agcount }
{
    if run.block >= geo.group_len(run.group) {
        return None;
    }
    let change = made_change(run.block)?;
    let place = InodePlace {
        group: run.group,
        block: run.block,
        slot: 0,
    };
    Some(NewChunk {
        block: run.block,
        ino: geo.inode_number(place),
        change,
    })
}

// The run leaves free space, and inodes own it.
fn move_run<D: Device, L: Ledger>(
    alloc: Global,
    desk: &mut Desk<D>,
    g: u32,
    run: &SpanRec,
    steps: &mut Steps<L>,
) -> Result<(), Halt>
    requires usable { IsUsable D.Device desk.old }
    requires room { vec_len desk.old.book.journal + 2 ≤ vec_capacity desk.old.book.journal }
    requires group { g < desk.old.store.geo.agcount }
    requires opened { IsOpen D.Device g desk.old.store }
    ensures halts { Halts D.Device desk.old desk.new result }
    ensures book { OnOk result (desk.new.book ≡ desk.old.book) }
    ensures items { desk.new.book.journal.items ≡ desk.old.book.journal.items }
    ensures opened { OnOk result (IsOpen D.Device g desk.new.store) }
{
    take_both(alloc, desk, g, run, steps)?;
    add_owner(alloc, desk, g, run, Owner::Inodes, steps)
}

// The btrees of a chunk that is made.
fn list_chunk<D: Device, L: Ledger>(
    alloc: Global,
    desk: &mut Desk<D>,
    g: u32,
    chunk: &NewChunk,
    run: &SpanRec,
    steps: &mut Steps<L>,
) -> Result<(), Halt>
    requires usable { IsUsable D.Device desk.old }
    requires room { vec_len desk.old.book.journal + 2 ≤ vec_capacity desk.old.book.journal }
    requires group { g < desk.old.store.geo.agcount }
    requires opened { IsOpen D.Device g desk.old.store }
    ensures halts { Halts D.Device desk.old desk.new result }
    ensures book { OnOk result (desk.new.book ≡ desk.old.book) }
    ensures items { desk.new.book.journal.items ≡ desk.old.book.journal.items }
    ensures opened { OnOk result (IsOpen D.Device g desk.new.store) }
{
    move_run(alloc, desk, g, run, steps)?;
    change_chunk(alloc, desk, g, &chunk.change, steps)
}

// Begins the edit in which a chunk is made, with its blocks.
fn open_chunk<D: Device, L: Ledger>(
    desk: &mut Desk<D>,
    kept: &GroupKept,
    g: u32,
    chunk: &NewChunk,
    uid: u32,
    steps: &mut Steps<L>,
) -> Result<(), Halt>
    requires usable { IsUsable D.Device desk.old }
    requires group { g < desk.old.store.geo.agcount }
    ensures halts { Halts D.Device desk.old desk.new result }
    ensures book { OnOk result (desk.new.book ≡ desk.old.book) }
    ensures items { desk.new.book.journal.items ≡ desk.old.book.journal.items }
    ensures opened { OnOk result (IsOpen D.Device g desk.new.store) }
{
    open_group(desk, kept, g, None, steps)?;
    put_chunk(desk, g, chunk.block, uid, steps)
}

// The edit in which a chunk is made.
fn edit_made<D: Device, L: Ledger>(
    alloc: Global,
    desk: &mut Desk<D>,
    kept: &GroupKept,
    g: u32,
    chunk: &NewChunk,
    uid: u32,
    steps: &mut Steps<L>,
) -> Result<(), Halt>
    requires usable { IsUsable D.Device desk.old }
    requires room { vec_len desk.old.book.journal + 2 ≤ vec_capacity desk.old.book.journal }
    requires group { g < desk.old.store.geo.agcount }
    ensures halts { Halts D.Device desk.old desk.new result }
    ensures book { OnOk result (desk.new.book ≡ desk.old.book) }
    ensures items { desk.new.book.journal.items ≡ desk.old.book.journal.items }
    ensures opened { OnOk result (IsOpen D.Device g desk.new.store) }
{
    open_chunk(desk, kept, g, chunk, uid, steps)?;
    let run = SpanRec {
        start: chunk.block,
        count: 8,
    };
    list_chunk(alloc, desk, g, chunk, &run, steps)
}

// The chunk is made, and this is written.
fn write_made<D: Device, L: Ledger>(
    alloc: Global,
    desk: &mut Desk<D>,
    kept: &mut GroupKept,
    g: u32,
    chunk: &NewChunk,
    uid: u32,
    steps: &mut Steps<L>,
) -> Result<(), Halt>
    requires usable { IsUsable D.Device desk.old }
    requires kept { IsKept kept.old }
    requires room { vec_len desk.old.book.journal + 2 ≤ vec_capacity desk.old.book.journal }
    requires group { g < desk.old.store.geo.agcount }
    ensures halts { Halts D.Device desk.old desk.new result }
    ensures book { OnOk result (desk.new.book ≡ desk.old.book) }
    ensures items { desk.new.book.journal.items ≡ desk.old.book.journal.items }
    ensures kept { IsKept kept.new }
{
    edit_made(alloc, desk, kept, g, chunk, uid, steps)?;
    commit_group(desk, kept, g, steps)
}

// The first inode of a chunk that is made is taken.
#[tactic(auto, using(crate::proofs::inodes::InodeLemmas::count_stays, crate::proofs::inodes::InodeLemmas::ended_halts, core_chains::proofs::refill::HaltLemmas::memory_halts, crate::proofs::inodes::SaidLemmas::taken_said))]
fn take_made<D: Device, L: Ledger>(
    alloc: Global,
    desk: &mut Desk<D>,
    kept: &mut GroupKept,
    g: u32,
    chunk: &NewChunk,
    taker: &Taker,
    steps: &mut Steps<L>,
) -> Result<(u64, u32), Halt>
    requires usable { IsUsable D.Device desk.old }
    requires kept { IsKept kept.old }
    requires room { vec_len desk.old.book.journal + 2 ≤ vec_capacity desk.old.book.journal }
    requires group { g < desk.old.store.geo.agcount }
    ensures halts { Halts D.Device desk.old desk.new result }
    ensures said { IfOk result (λ t. SaysTaken taker.now.writer taker.now.uid t.0
        desk.old.book.journal.items desk.new.book.journal.items) }
    ensures unsaid { OnErr result (desk.new.book.journal.items ≡ desk.old.book.journal.items) }
    ensures kept { IsKept kept.new }
{
    let drain = drain_with(alloc, desk, taker, chunk.ino)?;
    write_made(alloc, desk, kept, g, chunk, taker.uid, steps)?;
    let taken = Entry::Taken {
        writer: taker.writer,
        ino: chunk.ino,
        uid: taker.uid,
        chunk: Some(chunk.block),
    };
    end_take(desk, kept, g, drain, taken);
    Ok((chunk.ino, taker.number))
}

// The same, where nobody owns the run, or holds the inode.
#[tactic(auto, using(core_chains::proofs::refill::HaltLemmas::met_after, core_chains::proofs::refill::HaltLemmas::halts_on, crate::proofs::inodes::SaidLemmas::taken_on, core_chains::proofs::write::SaysLemmas::unsaid_on))]
fn make_guarded<D: Device, L: Ledger>(
    alloc: Global,
    desk: &mut Desk<D>,
    kept: &mut GroupKept,
    units: &[Option<UnitState>],
    g: u32,
    chunk: &NewChunk,
    taker: &Taker,
    steps: &mut Steps<L>,
) -> Result<(u64, u32), Halt>
    requires usable { IsUsable D.Device desk.old }
    requires kept { IsKept kept.old }
    requires room { vec_len desk.old.book.journal + 2 ≤ vec_capacity desk.old.book.journal }
    requires group { g < desk.old.store.geo.agcount }
    ensures halts { Halts D.Device desk.old desk.new result }
    ensures said { IfOk result (λ t. SaysTaken taker.now.writer taker.now.uid t.0
        desk.old.book.journal.items desk.new.book.journal.items) }
    ensures unsaid { OnErr result (desk.new.book.journal.items ≡ desk.old.book.journal.items) }
    ensures kept { IsKept kept.new }
{
    let run = SpanRec {
        start: chunk.block,
        count: 8,
    };
    unless_owned(desk, &kept.heads, g, &run, steps)?;
    unless_held(desk, units, g, chunk.ino)?;
    take_made(alloc, desk, kept, g, chunk, taker, steps)
}

// The same in a run that was found.
#[tactic(auto, using(core_chains::proofs::refill::HaltLemmas::self_err))]
fn make_in<D: Device, L: Ledger>(
    alloc: Global,
    desk: &mut Desk<D>,
    kept: &mut GroupKept,
    units: &[Option<UnitState>],
    run: &Extent,
    taker: &Taker,
    steps: &mut Steps<L>,
) -> Result<(u64, u32), Halt>
    requires usable { IsUsable D.Device desk.old }
    requires kept { IsKept kept.old }
    requires room { vec_len desk.old.book.journal + 2 ≤ vec_capacity desk.old.book.journal }
    requires group { run.now.group < desk.old.store.geo.agcount }
    ensures halts { Halts D.Device desk.old desk.new result }
    ensures said { IfOk result (λ t. SaysTaken taker.now.writer taker.now.uid t.0
        desk.old.book.journal.items desk.new.book.journal.items) }
    ensures unsaid { OnErr result (desk.new.book.journal.items ≡ desk.old.book.journal.items) }
    ensures kept { IsKept kept.new }
{
    // Never: a run of free space lies in its group.
    let Some(chunk) = chunk_at(&desk.store.geo, run) else {
        return Err(Halt::Refused(WriteFault::Memory));
    };
    make_guarded(alloc, desk, kept, units, run.group, &chunk, taker, steps)
}

// The same with what is kept of all groups.
#[tactic(auto, using(core_chains::proofs::refill::HaltLemmas::self_err, core_chains::proofs::refill::HaltLemmas::left_none))]
fn make_among<D: Device, L: Ledger>(
    alloc: Global,
    desk: &mut Desk<D>,
    groups: &mut Vec<GroupKept>,
    units: &[Option<UnitState>],
    run: &Extent,
    taker: &Taker,
    steps: &mut Steps<L>,
) -> Result<(u64, u32), Halt>
    requires given { IsGivenAll D.Device desk.old groups.old.items }
    requires room { vec_len desk.old.book.journal + 2 ≤ vec_capacity desk.old.book.journal }
    ensures halts { Halts D.Device desk.old desk.new result }
    ensures said { IfOk result (λ t. SaysTaken taker.now.writer taker.now.uid t.0
        desk.old.book.journal.items desk.new.book.journal.items) }
    ensures unsaid { OnErr result (desk.new.book.journal.items ≡ desk.old.book.journal.items) }
    ensures left { IsLeftAll D.Device desk.old desk.new groups.old.items groups.new.items }
{
    // Never: it was found in a group.
    if run.group as usize >= groups.len() {
        return Err(Halt::Refused(WriteFault::Memory));
    }
    let kept = &mut groups[run.group as usize];
    make_in(alloc, desk, kept, units, run, taker, steps)
}

/// Makes a new chunk where free space has an aligned run for one, and takes its first inode: the run leaves
/// free space, and inodes own it; the others are free
/// (XFS Algorithms and Data Structures, "Inode Allocation").
#[tactic(auto, using(core_chains::proofs::refill::HaltLemmas::given_after, core_chains::proofs::refill::HaltLemmas::left_before, core_chains::proofs::refill::HaltLemmas::left_none, core_chains::proofs::refill::HaltLemmas::halts_on, crate::proofs::inodes::SaidLemmas::taken_on, core_chains::proofs::write::SaysLemmas::unsaid_on))]
pub(crate) fn make_chunk<D: Device, L: Ledger>(
    alloc: Global,
    desk: &mut Desk<D>,
    groups: &mut Vec<GroupKept>,
    units: &[Option<UnitState>],
    taker: &Taker,
    steps: &mut Steps<L>,
) -> Result<(u64, u32), Halt>
    requires given { IsGivenAll D.Device desk.old groups.old.items }
    requires room { vec_len desk.old.book.journal + 2 ≤ vec_capacity desk.old.book.journal }
    ensures halts { Halts D.Device desk.old desk.new result }
    ensures said { IfOk result (λ t. SaysTaken taker.now.writer taker.now.uid t.0
        desk.old.book.journal.items desk.new.book.journal.items) }
    ensures unsaid { OnErr result (desk.new.book.journal.items ≡ desk.old.book.journal.items) }
    ensures left { IsLeftAll D.Device desk.old desk.new groups.old.items groups.new.items }
{
    let run = find_run(alloc, desk, groups.as_slice(), steps)?;
    make_among(alloc, desk, groups, units, &run, taker, steps)
}
