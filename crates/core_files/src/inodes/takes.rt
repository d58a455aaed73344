ghost use Rattle.std.specs.Prelude.{◌≡◌, ◌<◌, ◌≤◌, ◌+◌, IfErr, IfOk, IfSome, OnErr, OnOk};
ghost use Rattle.std.specs.Vec.{vec_capacity, vec_len};
ghost use Rattle.core_parts.specs.Common.Asks.{IsUsable};
ghost use Rattle.core_parts.specs.Safe.{IsKept, IsSafe};
ghost use Rattle.core_chains.specs.Refill.Halts.{Halts, IsMet};
ghost use Rattle.core_files.specs.Inodes.Entries.{SaysTaken};
ghost use Rattle.core_chains.specs.Write.Says.{RefusesBy};
ghost use Rattle.core_chains.specs.Write.Writes.{IsGivenAll, IsLeftAll, WriteParts, WritesWell};
ghost use Rattle.geom.specs.Places.{HasInode};
ghost use Rattle.inode_table.specs.Masks.{IsFree};
ghost use Rattle.core_edit.specs.Opened.{IsOpen};

use crate::chunks::{
    ChunkChange, FreeChunk, change_chunk, check_chunk, find_free, free_core, place_in, put_core,
};
use crate::inodes::ends::{Taker, drain_with, end_take, unless_held};
use crate::inodes::makes::make_chunk;
use blk_device::Device;
use byte_fields::Steps;
use core_calls::WriteFault;
use core_chains::refill::{Halt, commit_group, found_record, open_group, tell_halt, tree_at};
use core_chains::write::{ChunkEdit, is_sick, writer_room, writer_unshut};
use core_parts::{Desk, GroupKept, Parts, UnitState};
use dinode_core::Core3;
use fs_model::{Cause, Entry};
use geom::{Geometry, InodePlace};
use ino_recs::{InoKey, InoKind, InoRec};
use inode_table::{fino_record, fresh_core, lowest_free, take};
use sblock::Kind;
use std::alloc::Global;
use std::sync::ledger::Ledger;

// A free inode that is taken: its place, its number, and what changes in both inode btrees.
#[derive(Clone, Copy, Debug, PartialEq, Eq)]
struct FreeInode {
    place: InodePlace,
    ino: u64,
    change: ChunkChange,
}

// The inode btree must have the same record.
fn unless_other(g: u32, found: Option<InoRec>, rec: &InoRec) -> Result<(), Halt>
    ensures { IfErr result IsMet }
{
    match found {
        Some(own) => {
            if own == *rec {
                Ok(())
            } else {
                Err(Halt::Met(g, Kind::Ino, Cause::Missing))
            }
        }
        None => Err(Halt::Met(g, Kind::Ino, Cause::Missing)),
    }
}

// Stops where the inode btree of the group hasn't the record.
#[tactic(auto, using(core_chains::proofs::refill::HaltLemmas::met_after))]
fn check_record<D: Device, L: Ledger>(
    desk: &mut Desk<D>,
    kept: &GroupKept,
    g: u32,
    rec: &InoRec,
    steps: &mut Steps<L>,
) -> Result<(), Halt>
    requires usable { IsUsable D.Device desk.old }
    requires room { vec_len desk.old.book.journal + 2 ≤ vec_capacity desk.old.book.journal }
    requires group { g < desk.old.store.geo.agcount }
    ensures halts { Halts D.Device desk.old desk.new result }
    ensures book { OnOk result (desk.new.book ≡ desk.old.book) }
    ensures items { desk.new.book.journal.items ≡ desk.old.book.journal.items }
{
    let tree = tree_at(&kept.heads, g, Kind::Ino);
    let key = InoKey {
        startino: rec.startino,
    };
    let found = found_record::<InoKind, D, L>(desk, &tree, key, steps)?;
    unless_other(g, found, rec)
}

// What changes in both inode btrees where this free inode of a chunk is taken.
fn taken_change(rec: &InoRec, slot: u8, is_followed: bool) -> Option<ChunkChange>
    requires free { IsFree rec.now slot }
{
    // Never: as many inodes are free as bits are set.
    if rec.freecount == 0 {
        return None;
    }
    let new = take(rec, slot);
    let fino = match fino_record(&new) {
        Some(left) => ChunkEdit::Turn {
            gone: *rec,
            rec: left,
        },
        None => ChunkEdit::Cut(*rec),
    };
    Some(ChunkChange {
        ino: ChunkEdit::Turn {
            gone: *rec,
            rec: new,
        },
        fino,
        is_followed,
    })
}

// The lowest free inode of a chunk of a group; none where the chunk has none, or doesn't lie in the group.
fn lowest_in(geo: &Geometry, found: &FreeChunk, is_followed: bool) -> Option<FreeInode>
    requires group { found.now.group < geo.now.agcount }
    ensures place { IfSome result (λ free. HasInode geo.now free.place) }
    ensures group { IfSome result (λ free. free.place.group ≡ found.now.group) }
{
    let slot = lowest_free(&found.rec)?;
    let change = taken_change(&found.rec, slot, is_followed)?;
    let place = place_in(geo, found.group, &found.rec, slot)?;
    let ino = geo.inode_number(place);
    Some(FreeInode { place, ino, change })
}

// Tests the inode and its chunk, and answers its core.
#[tactic(auto, using(crate::proofs::chunks::ChunkLemmas::inode_stays))]
fn check_inode<D: Device, L: Ledger>(
    desk: &mut Desk<D>,
    place: &InodePlace,
    steps: &mut Steps<L>,
) -> Result<Core3, Halt>
    requires usable { IsUsable D.Device desk.old }
    requires room { vec_len desk.old.book.journal + 2 ≤ vec_capacity desk.old.book.journal }
    requires place { HasInode desk.old.store.geo place.now }
    ensures halts { Halts D.Device desk.old desk.new result }
    ensures book { OnOk result (desk.new.book ≡ desk.old.book) }
    ensures items { desk.new.book.journal.items ≡ desk.old.book.journal.items }
{
    check_chunk(desk, place, steps)?;
    free_core(desk, place, steps)
}

// The edit of an inode that is taken.
#[tactic(auto, using(crate::proofs::chunks::ChunkLemmas::inode_stays))]
fn edit_taken<D: Device, L: Ledger>(
    alloc: Global,
    desk: &mut Desk<D>,
    kept: &GroupKept,
    free: &FreeInode,
    core: &Core3,
    steps: &mut Steps<L>,
) -> Result<(), Halt>
    requires usable { IsUsable D.Device desk.old }
    requires room { vec_len desk.old.book.journal + 2 ≤ vec_capacity desk.old.book.journal }
    requires place { HasInode desk.old.store.geo free.now.place }
    ensures halts { Halts D.Device desk.old desk.new result }
    ensures book { OnOk result (desk.new.book ≡ desk.old.book) }
    ensures items { desk.new.book.journal.items ≡ desk.old.book.journal.items }
    ensures opened { OnOk result (IsOpen D.Device free.now.place.group desk.new.store) }
{
    let g = free.place.group;
    let at = desk.store.geo.device_block(g, free.place.block);
    open_group(desk, kept, g, Some(at), steps)?;
    put_core(desk, &free.place, core, steps)?;
    change_chunk(alloc, desk, g, &free.change, steps)
}

// The inode is taken, and this is written.
#[tactic(auto, using(crate::proofs::chunks::ChunkLemmas::inode_stays))]
fn write_taken<D: Device, L: Ledger>(
    alloc: Global,
    desk: &mut Desk<D>,
    kept: &mut GroupKept,
    free: &FreeInode,
    core: &Core3,
    steps: &mut Steps<L>,
) -> Result<(), Halt>
    requires usable { IsUsable D.Device desk.old }
    requires kept { IsKept kept.old }
    requires room { vec_len desk.old.book.journal + 2 ≤ vec_capacity desk.old.book.journal }
    requires place { HasInode desk.old.store.geo free.now.place }
    ensures halts { Halts D.Device desk.old desk.new result }
    ensures book { OnOk result (desk.new.book ≡ desk.old.book) }
    ensures items { desk.new.book.journal.items ≡ desk.old.book.journal.items }
    ensures kept { IsKept kept.new }
{
    edit_taken(alloc, desk, kept, free, core, steps)?;
    commit_group(desk, kept, free.place.group, steps)
}

// A free inode that was tested is taken; this is its core.
#[tactic(auto, using(crate::proofs::inodes::InodeLemmas::count_stays, crate::proofs::inodes::InodeLemmas::ended_halts, core_chains::proofs::refill::HaltLemmas::memory_halts, crate::proofs::inodes::SaidLemmas::taken_said))]
fn take_tested<D: Device, L: Ledger>(
    alloc: Global,
    desk: &mut Desk<D>,
    kept: &mut GroupKept,
    free: &FreeInode,
    core: &Core3,
    taker: &Taker,
    steps: &mut Steps<L>,
) -> Result<(u64, u32), Halt>
    requires usable { IsUsable D.Device desk.old }
    requires kept { IsKept kept.old }
    requires room { vec_len desk.old.book.journal + 2 ≤ vec_capacity desk.old.book.journal }
    requires place { HasInode desk.old.store.geo free.now.place }
    ensures halts { Halts D.Device desk.old desk.new result }
    ensures said { IfOk result (λ t. SaysTaken taker.now.writer taker.now.uid t.0
        desk.old.book.journal.items desk.new.book.journal.items) }
    ensures unsaid { OnErr result (desk.new.book.journal.items ≡ desk.old.book.journal.items) }
    ensures kept { IsKept kept.new }
{
    let drain = drain_with(alloc, desk, taker, free.ino)?;
    write_taken(alloc, desk, kept, free, core, steps)?;
    let taken = Entry::Taken {
        writer: taker.writer,
        ino: free.ino,
        uid: taker.uid,
        chunk: None,
    };
    end_take(desk, kept, free.place.group, drain, taken);
    Ok((free.ino, taker.number))
}

// A free inode is taken, which nobody holds.
#[tactic(auto, using(crate::proofs::chunks::ChunkLemmas::inode_stays, core_chains::proofs::refill::HaltLemmas::halts_on, crate::proofs::inodes::SaidLemmas::taken_on, core_chains::proofs::write::SaysLemmas::unsaid_on))]
fn take_free<D: Device, L: Ledger>(
    alloc: Global,
    desk: &mut Desk<D>,
    kept: &mut GroupKept,
    free: &FreeInode,
    taker: &Taker,
    steps: &mut Steps<L>,
) -> Result<(u64, u32), Halt>
    requires usable { IsUsable D.Device desk.old }
    requires kept { IsKept kept.old }
    requires room { vec_len desk.old.book.journal + 2 ≤ vec_capacity desk.old.book.journal }
    requires place { HasInode desk.old.store.geo free.now.place }
    ensures halts { Halts D.Device desk.old desk.new result }
    ensures said { IfOk result (λ t. SaysTaken taker.now.writer taker.now.uid t.0
        desk.old.book.journal.items desk.new.book.journal.items) }
    ensures unsaid { OnErr result (desk.new.book.journal.items ≡ desk.old.book.journal.items) }
    ensures kept { IsKept kept.new }
{
    let core = check_inode(desk, &free.place, steps)?;
    let file = fresh_core(&core, taker.uid);
    take_tested(alloc, desk, kept, free, &file, taker, steps)
}

// A free inode of this chunk is taken.
#[tactic(auto, using(crate::proofs::inodes::InodeLemmas::memory_after, core_chains::proofs::refill::HaltLemmas::met_after, core_chains::proofs::refill::HaltLemmas::halts_on, crate::proofs::chunks::ChunkLemmas::inode_stays, crate::proofs::inodes::SaidLemmas::taken_on, core_chains::proofs::write::SaysLemmas::unsaid_on))]
fn take_in<D: Device, L: Ledger>(
    alloc: Global,
    desk: &mut Desk<D>,
    kept: &mut GroupKept,
    units: &[Option<UnitState>],
    found: &FreeChunk,
    taker: &Taker,
    steps: &mut Steps<L>,
) -> Result<(u64, u32), Halt>
    requires usable { IsUsable D.Device desk.old }
    requires kept { IsKept kept.old }
    requires room { vec_len desk.old.book.journal + 2 ≤ vec_capacity desk.old.book.journal }
    requires group { found.now.group < desk.old.store.geo.agcount }
    ensures halts { Halts D.Device desk.old desk.new result }
    ensures said { IfOk result (λ t. SaysTaken taker.now.writer taker.now.uid t.0
        desk.old.book.journal.items desk.new.book.journal.items) }
    ensures unsaid { OnErr result (desk.new.book.journal.items ≡ desk.old.book.journal.items) }
    ensures kept { IsKept kept.new }
{
    check_record(desk, kept, found.group, &found.rec, steps)?;
    let is_followed = !is_sick(kept, Kind::Rmap);
    // Never: a record of such a chunk has a free inode, and lies in its group.
    let Some(free) = lowest_in(&desk.store.geo, found, is_followed) else {
        return Err(Halt::Refused(WriteFault::Memory));
    };
    unless_held(desk, units, found.group, free.ino)?;
    take_free(alloc, desk, kept, &free, taker, steps)
}

// The same with what is kept of all groups.
#[tactic(auto, using(core_chains::proofs::refill::HaltLemmas::self_err, core_chains::proofs::refill::HaltLemmas::left_none))]
fn take_found<D: Device, L: Ledger>(
    alloc: Global,
    desk: &mut Desk<D>,
    groups: &mut Vec<GroupKept>,
    units: &[Option<UnitState>],
    found: &FreeChunk,
    taker: &Taker,
    steps: &mut Steps<L>,
) -> Result<(u64, u32), Halt>
    requires given { IsGivenAll D.Device desk.old groups.old.items }
    requires room { vec_len desk.old.book.journal + 2 ≤ vec_capacity desk.old.book.journal }
    ensures halts { Halts D.Device desk.old desk.new result }
    ensures said { IfOk result (λ t. SaysTaken taker.now.writer taker.now.uid t.0
        desk.old.book.journal.items desk.new.book.journal.items) }
    ensures unsaid { OnErr result (desk.new.book.journal.items ≡ desk.old.book.journal.items) }
    ensures left { IsLeftAll D.Device desk.old desk.new groups.old.items groups.new.items }
{
    // Never: it was found in a group.
    if found.group as usize >= groups.len() {
        return Err(Halt::Refused(WriteFault::Memory));
    }
    let kept = &mut groups[found.group as usize];
    take_in(alloc, desk, kept, units, found, taker, steps)
}

// A free inode is taken where a chunk has one, and else the first of a new chunk.
#[tactic(auto, using(core_chains::proofs::refill::HaltLemmas::given_after, core_chains::proofs::refill::HaltLemmas::left_before, core_chains::proofs::refill::HaltLemmas::left_none, core_chains::proofs::refill::HaltLemmas::halts_on, crate::proofs::inodes::SaidLemmas::taken_on, core_chains::proofs::write::SaysLemmas::unsaid_on))]
fn take_any<D: Device, L: Ledger>(
    alloc: Global,
    desk: &mut Desk<D>,
    groups: &mut Vec<GroupKept>,
    units: &[Option<UnitState>],
    taker: &Taker,
    steps: &mut Steps<L>,
) -> Result<(u64, u32), Halt>
    requires given { IsGivenAll D.Device desk.old groups.old.items }
    requires room { vec_len desk.old.book.journal + 2 ≤ vec_capacity desk.old.book.journal }
    ensures halts { Halts D.Device desk.old desk.new result }
    ensures said { IfOk result (λ t. SaysTaken taker.now.writer taker.now.uid t.0
        desk.old.book.journal.items desk.new.book.journal.items) }
    ensures unsaid { OnErr result (desk.new.book.journal.items ≡ desk.old.book.journal.items) }
    ensures left { IsLeftAll D.Device desk.old desk.new groups.old.items groups.new.items }
{
    let found = find_free(alloc, desk, groups.as_slice(), steps)?;
    match found {
        Some(found) => take_found(alloc, desk, groups, units, &found, taker, steps),
        None => make_chunk(alloc, desk, groups, units, taker, steps),
    }
}

// The same, with the marks of what was met.
#[tactic(auto, using(core_chains::proofs::refill::HaltLemmas::left_marked, core_chains::proofs::write::SaysLemmas::refused_on))]
fn take_marked<D: Device, L: Ledger>(
    alloc: Global,
    desk: &mut Desk<D>,
    groups: &mut Vec<GroupKept>,
    units: &[Option<UnitState>],
    taker: &Taker,
    steps: &mut Steps<L>,
) -> Result<(u64, u32), WriteFault>
    requires given { IsGivenAll D.Device desk.old groups.old.items }
    requires room { vec_len desk.old.book.journal + 2 ≤ vec_capacity desk.old.book.journal }
    ensures left { IsLeftAll D.Device desk.old desk.new groups.old.items groups.new.items }
    ensures reason { WritesWell desk.new result }
    ensures said { IfOk result (λ t. SaysTaken taker.now.writer taker.now.uid t.0
        desk.old.book.journal.items desk.new.book.journal.items) }
    ensures refused { RefusesBy result desk.old.book.journal.items desk.new.book.journal.items }
{
    match take_any(alloc, desk, groups, units, taker, steps) {
        Ok(taken) => Ok(taken),
        Err(halt) => Err(tell_halt(desk, groups, halt)),
    }
}

// The lowest number for a chain.
fn free_number<D: Device>(desk: &Desk<D>) -> Result<u32, WriteFault>
    ensures reason { WritesWell desk.now result }
{
    match desk.drain.free_number() {
        Some(number) => Ok(number),
        None => Err(WriteFault::Crowded),
    }
}

// The same, once the journal has room, and there is a number for a chain.
#[tactic(auto, using(core_chains::proofs::refill::HaltLemmas::given_same, core_chains::proofs::refill::HaltLemmas::left_same, core_chains::proofs::refill::HaltLemmas::none_same, crate::proofs::inodes::SaidLemmas::taken_on, core_chains::proofs::write::SaysLemmas::refuses_on, core_chains::proofs::write::SaysLemmas::refuses_same))]
fn take_among<D: Device, L: Ledger>(
    alloc: Global,
    desk: &mut Desk<D>,
    groups: &mut Vec<GroupKept>,
    units: &[Option<UnitState>],
    writer: u32,
    uid: u32,
    steps: &mut Steps<L>,
) -> Result<(u64, u32), WriteFault>
    requires given { IsGivenAll D.Device desk.old groups.old.items }
    ensures left { IsLeftAll D.Device desk.old desk.new groups.old.items groups.new.items }
    ensures reason { WritesWell desk.new result }
    ensures said { IfOk result (λ t. SaysTaken writer uid t.0 desk.old.book.journal.items
        desk.new.book.journal.items) }
    ensures refused { RefusesBy result desk.old.book.journal.items desk.new.book.journal.items }
{
    writer_room(desk, 2)?;
    let number = free_number(desk)?;
    let taker = Taker {
        writer,
        uid,
        number,
    };
    take_marked(alloc, desk, groups, units, &taker, steps)
}

/// Takes an inode for a new file of this owner, and opens a chain that holds it; the answer is the inode and
/// the chain. It is the lowest free one of the first chunk that has one, in the lowest group whose gate is
/// open and of which neither inode btree is sick; where no group has one, a new chunk is made, at the lowest
/// aligned run of free space that nobody owns. The refusals, in their order: Shut, JournalFull, Crowded,
/// Closing, Sick, NoSpace. A btree that meets a fault is marked, also the inode btree where it lacks the
/// record, or where a core of the chunk doesn't verify, the inode is used, or somebody holds it; then
/// nothing else is changed (XFS Algorithms and Data Structures, "Inode Allocation").
#[tactic(auto, using(core_chains::proofs::write::PartLemmas::given_of, core_chains::proofs::write::PartLemmas::left_parts, core_chains::proofs::write::PartLemmas::same_parts, core_chains::proofs::write::SaysLemmas::refuses_same))]
pub fn take_inode<D: Device, L: Ledger>(
    alloc: Global,
    parts: &mut Parts<D>,
    writer: u32,
    uid: u32,
    steps: &mut Steps<L>,
) -> Result<(u64, u32), WriteFault>
    requires safe { IsSafe D.Device parts.old }
    ensures left { WriteParts D.Device parts.old parts.new result }
    ensures said { IfOk result (λ t. SaysTaken writer uid t.0 parts.old.desk.book.journal.items
        parts.new.desk.book.journal.items) }
    ensures refused { RefusesBy result parts.old.desk.book.journal.items
        parts.new.desk.book.journal.items }
{
    writer_unshut(&parts.desk)?;
    let units = parts.units.as_slice();
    take_among(
        alloc,
        &mut parts.desk,
        &mut parts.groups,
        units,
        writer,
        uid,
        steps,
    )
}
