ghost use Rattle.std.specs.Prelude.{◌≡◌, ◌<◌, ◌≤◌, ◌+◌, false, IfErr, IfOk, OnErr, OnOk};
ghost use Rattle.std.specs.Int.{bit_at};
ghost use Rattle.std.specs.Vec.{vec_capacity, vec_len};
ghost use Rattle.core_parts.specs.Common.Asks.{IsUsable};
ghost use Rattle.core_parts.specs.Keeps.{IsAsked};
ghost use Rattle.core_parts.specs.Safe.{IsKept, IsSafe};
ghost use Rattle.core_chains.specs.Refill.Halts.{Halts, IsMet};
ghost use Rattle.core_chains.specs.Write.Says.{RefusesBy};
ghost use Rattle.core_files.specs.Chunks.Plain.{IsPlainHalt};
ghost use Rattle.core_files.specs.Inodes.Entries.{HasGiven, IsLone, given_on};
ghost use Rattle.core_chains.specs.Write.Writes.{IsGivenAll, IsLeftAll, WriteParts, WritesWell};
ghost use Rattle.file_cores.specs.Files.{IsFile};
ghost use Rattle.file_cores.specs.Looks.{failed_in};
ghost use Rattle.geom.specs.Places.{HasInode};
ghost use Rattle.core_edit.specs.Opened.{IsOpen};

use crate::chunks::{ChunkChange, change_chunk, chunk_of, put_core, stopped_by};
use crate::inodes::ends::end_give;
use blk_device::Device;
use byte_fields::Steps;
use core_calls::WriteFault;
use core_chains::refill::{
    Halt, commit_group, found_record, is_gate_open, open_group, sick_inodes, tell_halt, tree_at,
};
use core_chains::write::{ChunkEdit, chain_of, chain_room, is_sick, writer_unshut};
use core_parts::{Desk, GroupKept, Parts};
use defer_chain::Chain;
use dinode_core::Core3;
use file_cores::{File, FileStop, read_file};
use fs_model::Cause;
use geom::InodePlace;
use ino_recs::{InoKey, InoKind, InoRec};
use inode_table::{CHUNK_INODES, fino_record, give, given_core};
use sblock::Kind;
use std::alloc::Global;
use std::sync::ledger::Ledger;

// An inode that is given back: its place, and its core as it is to be.
#[derive(Clone, Copy, Debug, PartialEq, Eq)]
struct Given {
    place: InodePlace,
    core: Core3,
}

// The chain of this number, which holds one inode and owes nothing.
#[tactic(auto, using(crate::proofs::inodes::SaidLemmas::none_owed, crate::proofs::inodes::SaidLemmas::none_second))]
fn lone_chain<D: Device>(desk: &Desk<D>, number: u32) -> Result<Chain, WriteFault>
    ensures number { OnOk result (number < 16) }
    ensures lone { IfOk result (IsLone desk.now number) }
    ensures reason { WritesWell desk.now result }
{
    let chain = chain_of(desk, number)?;
    if chain.second().is_some() {
        return Err(WriteFault::NoChain);
    }
    match chain.next_kind() {
        Some(kind) => Err(WriteFault::OtherStep(Some(kind))),
        None => Ok(chain),
    }
}

// Reads the inode with the list of its mappings.
#[tactic(auto, using(crate::proofs::chunks::ChunkLemmas::looks_asked))]
fn ask_file<D: Device, L: Ledger>(
    alloc: Global,
    desk: &mut Desk<D>,
    ino: u64,
    steps: &mut Steps<L>,
) -> Result<File, FileStop>
    requires usable { IsUsable D.Device desk.old }
    ensures asked { IsAsked D.Device (failed_in result) desk.old desk.new }
    ensures book { desk.new.book ≡ desk.old.book }
    ensures file { IfOk result (IsFile desk.new.store.geo) }
{
    let store = &mut desk.store;
    read_file(
        alloc,
        &mut store.dev,
        &mut store.cache,
        &store.geo,
        ino,
        steps,
    )
}

// The same, with a failure noted.
#[tactic(auto, using(core_chains::proofs::refill::HaltLemmas::asked_halts, core_chains::proofs::refill::HaltLemmas::halted_halts))]
fn file_of<D: Device, L: Ledger>(
    alloc: Global,
    desk: &mut Desk<D>,
    ino: u64,
    steps: &mut Steps<L>,
) -> Result<File, Halt>
    requires usable { IsUsable D.Device desk.old }
    ensures halts { Halts D.Device desk.old desk.new result }
    ensures book { OnOk result (desk.new.book ≡ desk.old.book) }
    ensures items { desk.new.book.journal.items ≡ desk.old.book.journal.items }
    ensures file { IfOk result (IsFile desk.new.store.geo) }
{
    match ask_file(alloc, desk, ino, steps) {
        Ok(file) => Ok(file),
        Err(stop) => Err(stopped_by(desk, stop)),
    }
}

// What is given back of a file: nothing may be mapped, and no attribute fork be there.
fn given_of(file: &File) -> Result<Given, Halt>
    ensures plain { IfErr result IsPlainHalt }
    ensures place { IfOk result (λ given. given.place ≡ file.now.place) }
{
    if file.core.forkoff != 0 {
        return Err(Halt::Refused(WriteFault::TreeFork));
    }
    if !file.list.is_empty() {
        return Err(Halt::Refused(WriteFault::Occupied));
    }
    Ok(Given {
        place: file.place,
        core: given_core(&file.core),
    })
}

// What is given back of an inode.
#[tactic(auto, using(crate::proofs::chunks::ChunkLemmas::plain_after))]
fn read_given<D: Device, L: Ledger>(
    alloc: Global,
    desk: &mut Desk<D>,
    ino: u64,
    steps: &mut Steps<L>,
) -> Result<Given, Halt>
    requires usable { IsUsable D.Device desk.old }
    ensures halts { Halts D.Device desk.old desk.new result }
    ensures book { OnOk result (desk.new.book ≡ desk.old.book) }
    ensures items { desk.new.book.journal.items ≡ desk.old.book.journal.items }
    ensures place { IfOk result (λ given. HasInode desk.new.store.geo given.place) }
{
    let file = file_of(alloc, desk, ino, steps)?;
    given_of(&file)
}

// Whether this inode of a chunk is free.
#[tactic(auto, using(std::proofs::lemmas::Nat::one_shl))]
fn is_free(rec: &InoRec, slot: u8) -> bool
    requires { slot < 64 }
    ensures { result ≡ false → bit_at rec.now.free slot ≡ 0 }
{
    rec.free / (1u64 << slot) % 2 == 1
}

// What changes in both inode btrees where this inode of a chunk is given back; none where it is free.
fn given_change(rec: &InoRec, slot: u8, is_followed: bool) -> Option<ChunkChange>
    requires { slot < 64 }
{
    if is_free(rec, slot) || rec.freecount >= CHUNK_INODES {
        return None;
    }
    let new = give(rec, slot);
    let fino = match fino_record(rec) {
        Some(old) => ChunkEdit::Turn {
            gone: old,
            rec: new,
        },
        None => ChunkEdit::Put(new),
    };
    Some(ChunkChange {
        ino: ChunkEdit::Turn {
            gone: *rec,
            rec: new,
        },
        fino,
        is_followed,
    })
}

// The record of an inode's chunk, which must be there and have the inode as allocated.
fn change_of(
    g: u32,
    found: Option<InoRec>,
    slot: u8,
    is_followed: bool,
) -> Result<ChunkChange, Halt>
    requires { slot < 64 }
    ensures { IfErr result IsMet }
{
    let Some(rec) = found else {
        return Err(Halt::Met(g, Kind::Ino, Cause::Missing));
    };
    match given_change(&rec, slot, is_followed) {
        Some(change) => Ok(change),
        None => Err(Halt::Met(g, Kind::Ino, Cause::Missing)),
    }
}

// What changes in both inode btrees where the inode is given back.
#[tactic(auto, using(core_chains::proofs::refill::HaltLemmas::met_after, core_chains::proofs::refill::HaltLemmas::memory_halts))]
fn find_change<D: Device, L: Ledger>(
    desk: &mut Desk<D>,
    kept: &GroupKept,
    place: &InodePlace,
    steps: &mut Steps<L>,
) -> Result<ChunkChange, Halt>
    requires usable { IsUsable D.Device desk.old }
    requires room { vec_len desk.old.book.journal + 2 ≤ vec_capacity desk.old.book.journal }
    requires group { place.now.group < desk.old.store.geo.agcount }
    ensures halts { Halts D.Device desk.old desk.new result }
    ensures book { OnOk result (desk.new.book ≡ desk.old.book) }
    ensures items { desk.new.book.journal.items ≡ desk.old.book.journal.items }
{
    // Never: no group has so many inodes.
    let Some((key, slot)) = chunk_of(place) else {
        return Err(Halt::Refused(WriteFault::Memory));
    };
    let tree = tree_at(&kept.heads, place.group, Kind::Ino);
    let found = found_record::<InoKind, D, L>(desk, &tree, key, steps)?;
    change_of(place.group, found, slot, !is_sick(kept, Kind::Rmap))
}

// Closing where the gate of the inode's group isn't open, and Sick where one of its inode btrees is.
#[tactic(auto, using(core_chains::proofs::refill::HaltLemmas::self_ok, core_chains::proofs::refill::HaltLemmas::self_err))]
fn may_give<D: Device>(desk: &Desk<D>, kept: &GroupKept, g: u32) -> Result<(), Halt>
    requires usable { IsUsable D.Device desk.now }
    requires group { g < desk.now.store.geo.agcount }
    ensures halts { Halts D.Device desk.now desk.now result }
{
    if !is_gate_open(desk, g) {
        return Err(Halt::Refused(WriteFault::Closing(g)));
    }
    match sick_inodes(kept) {
        Some(kind) => Err(Halt::Refused(WriteFault::Sick(g, kind))),
        None => Ok(()),
    }
}

// The edit of an inode that is given back.
#[tactic(auto, using(crate::proofs::chunks::ChunkLemmas::inode_stays))]
fn edit_given<D: Device, L: Ledger>(
    alloc: Global,
    desk: &mut Desk<D>,
    kept: &GroupKept,
    given: &Given,
    change: &ChunkChange,
    steps: &mut Steps<L>,
) -> Result<(), Halt>
    requires usable { IsUsable D.Device desk.old }
    requires room { vec_len desk.old.book.journal + 2 ≤ vec_capacity desk.old.book.journal }
    requires place { HasInode desk.old.store.geo given.now.place }
    ensures halts { Halts D.Device desk.old desk.new result }
    ensures book { OnOk result (desk.new.book ≡ desk.old.book) }
    ensures items { desk.new.book.journal.items ≡ desk.old.book.journal.items }
    ensures opened { OnOk result (IsOpen D.Device given.now.place.group desk.new.store) }
{
    let g = given.place.group;
    let at = desk.store.geo.device_block(g, given.place.block);
    open_group(desk, kept, g, Some(at), steps)?;
    put_core(desk, &given.place, &given.core, steps)?;
    change_chunk(alloc, desk, g, change, steps)
}

// The inode is given back, and this is written.
#[tactic(auto, using(crate::proofs::chunks::ChunkLemmas::inode_stays))]
fn write_given<D: Device, L: Ledger>(
    alloc: Global,
    desk: &mut Desk<D>,
    kept: &mut GroupKept,
    given: &Given,
    change: &ChunkChange,
    steps: &mut Steps<L>,
) -> Result<(), Halt>
    requires usable { IsUsable D.Device desk.old }
    requires kept { IsKept kept.old }
    requires room { vec_len desk.old.book.journal + 2 ≤ vec_capacity desk.old.book.journal }
    requires place { HasInode desk.old.store.geo given.now.place }
    ensures halts { Halts D.Device desk.old desk.new result }
    ensures book { OnOk result (desk.new.book ≡ desk.old.book) }
    ensures items { desk.new.book.journal.items ≡ desk.old.book.journal.items }
    ensures kept { IsKept kept.new }
{
    edit_given(alloc, desk, kept, given, change, steps)?;
    commit_group(desk, kept, given.place.group, steps)
}

// Tests and writes an inode that is given back.
#[tactic(auto, using(crate::proofs::chunks::ChunkLemmas::inode_stays))]
fn give_tested<D: Device, L: Ledger>(
    alloc: Global,
    desk: &mut Desk<D>,
    kept: &mut GroupKept,
    given: &Given,
    steps: &mut Steps<L>,
) -> Result<(), Halt>
    requires usable { IsUsable D.Device desk.old }
    requires kept { IsKept kept.old }
    requires room { vec_len desk.old.book.journal + 2 ≤ vec_capacity desk.old.book.journal }
    requires place { HasInode desk.old.store.geo given.now.place }
    ensures halts { Halts D.Device desk.old desk.new result }
    ensures book { OnOk result (desk.new.book ≡ desk.old.book) }
    ensures items { desk.new.book.journal.items ≡ desk.old.book.journal.items }
    ensures kept { IsKept kept.new }
{
    may_give(desk, kept, given.place.group)?;
    let change = find_change(desk, kept, &given.place, steps)?;
    write_given(alloc, desk, kept, given, &change, steps)
}

// The inode of a chain is given back, and the chain ends.
#[tactic(auto, using(crate::proofs::inodes::InodeLemmas::count_stays, crate::proofs::inodes::InodeLemmas::ended_halts, core_chains::proofs::refill::HaltLemmas::memory_halts))]
fn give_in<D: Device, L: Ledger>(
    alloc: Global,
    desk: &mut Desk<D>,
    kept: &mut GroupKept,
    given: &Given,
    number: u32,
    chain: &Chain,
    steps: &mut Steps<L>,
) -> Result<(), Halt>
    requires usable { IsUsable D.Device desk.old }
    requires kept { IsKept kept.old }
    requires room { vec_len desk.old.book.journal + 2 ≤ vec_capacity desk.old.book.journal }
    requires number { number < 16 }
    requires place { HasInode desk.old.store.geo given.now.place }
    ensures halts { Halts D.Device desk.old desk.new result }
    ensures said { OnOk result (desk.new.book.journal.items ≡ given_on desk.old.book.journal.items
        chain.now) }
    ensures unsaid { OnErr result (desk.new.book.journal.items ≡ desk.old.book.journal.items) }
    ensures kept { IsKept kept.new }
{
    give_tested(alloc, desk, kept, given, steps)?;
    end_give(desk, kept, given.place.group, number, chain);
    Ok(())
}

// The same with what is kept of all groups.
fn give_read<D: Device, L: Ledger>(
    alloc: Global,
    desk: &mut Desk<D>,
    groups: &mut Vec<GroupKept>,
    given: &Given,
    number: u32,
    chain: &Chain,
    steps: &mut Steps<L>,
) -> Result<(), Halt>
    requires given { IsGivenAll D.Device desk.old groups.old.items }
    requires room { vec_len desk.old.book.journal + 2 ≤ vec_capacity desk.old.book.journal }
    requires number { number < 16 }
    requires place { HasInode desk.old.store.geo given.now.place }
    ensures halts { Halts D.Device desk.old desk.new result }
    ensures said { OnOk result (desk.new.book.journal.items ≡ given_on desk.old.book.journal.items
        chain.now) }
    ensures unsaid { OnErr result (desk.new.book.journal.items ≡ desk.old.book.journal.items) }
    ensures left { IsLeftAll D.Device desk.old desk.new groups.old.items groups.new.items }
{
    let kept = &mut groups[given.place.group as usize];
    give_in(alloc, desk, kept, given, number, chain, steps)
}

// The same of a chain.
#[tactic(auto, using(core_chains::proofs::refill::HaltLemmas::given_after, core_chains::proofs::refill::HaltLemmas::left_before, core_chains::proofs::refill::HaltLemmas::left_none, core_chains::proofs::refill::HaltLemmas::halts_on, crate::proofs::inodes::SaidLemmas::given_behind, core_chains::proofs::write::SaysLemmas::unsaid_on))]
fn give_any<D: Device, L: Ledger>(
    alloc: Global,
    desk: &mut Desk<D>,
    groups: &mut Vec<GroupKept>,
    number: u32,
    chain: &Chain,
    steps: &mut Steps<L>,
) -> Result<(), Halt>
    requires given { IsGivenAll D.Device desk.old groups.old.items }
    requires room { vec_len desk.old.book.journal + 2 ≤ vec_capacity desk.old.book.journal }
    requires number { number < 16 }
    ensures halts { Halts D.Device desk.old desk.new result }
    ensures said { OnOk result (desk.new.book.journal.items ≡ given_on desk.old.book.journal.items
        chain.now) }
    ensures unsaid { OnErr result (desk.new.book.journal.items ≡ desk.old.book.journal.items) }
    ensures left { IsLeftAll D.Device desk.old desk.new groups.old.items groups.new.items }
{
    let given = read_given(alloc, desk, chain.first().ino, steps)?;
    give_read(alloc, desk, groups, &given, number, chain, steps)
}

// The same, with the marks of what was met.
#[tactic(auto, using(core_chains::proofs::refill::HaltLemmas::left_marked, core_chains::proofs::write::SaysLemmas::refused_on))]
fn give_marked<D: Device, L: Ledger>(
    alloc: Global,
    desk: &mut Desk<D>,
    groups: &mut Vec<GroupKept>,
    number: u32,
    chain: &Chain,
    steps: &mut Steps<L>,
) -> Result<(), WriteFault>
    requires given { IsGivenAll D.Device desk.old groups.old.items }
    requires room { vec_len desk.old.book.journal + 2 ≤ vec_capacity desk.old.book.journal }
    requires number { number < 16 }
    ensures left { IsLeftAll D.Device desk.old desk.new groups.old.items groups.new.items }
    ensures reason { WritesWell desk.new result }
    ensures said { OnOk result (desk.new.book.journal.items ≡ given_on desk.old.book.journal.items
        chain.now) }
    ensures refused { RefusesBy result desk.old.book.journal.items desk.new.book.journal.items }
{
    match give_any(alloc, desk, groups, number, chain, steps) {
        Ok(()) => Ok(()),
        Err(halt) => Err(tell_halt(desk, groups, halt)),
    }
}

// The same of a chain that owes nothing, once the journal has room.
#[tactic(auto, using(core_chains::proofs::refill::HaltLemmas::given_same, core_chains::proofs::refill::HaltLemmas::left_same, core_chains::proofs::refill::HaltLemmas::none_same, crate::proofs::inodes::InodeLemmas::left_self, crate::proofs::inodes::SaidLemmas::lone_given, core_chains::proofs::write::SaysLemmas::refuses_on, core_chains::proofs::write::SaysLemmas::refuses_same))]
fn give_among<D: Device, L: Ledger>(
    alloc: Global,
    desk: &mut Desk<D>,
    groups: &mut Vec<GroupKept>,
    number: u32,
    steps: &mut Steps<L>,
) -> Result<(), WriteFault>
    requires given { IsGivenAll D.Device desk.old groups.old.items }
    ensures left { IsLeftAll D.Device desk.old desk.new groups.old.items groups.new.items }
    ensures reason { WritesWell desk.new result }
    ensures said { OnOk result (HasGiven number desk.old desk.new) }
    ensures refused { RefusesBy result desk.old.book.journal.items desk.new.book.journal.items }
{
    let chain = lone_chain(desk, number)?;
    chain_room(desk, 2)?;
    give_marked(alloc, desk, groups, number, &chain, steps)
}

/// Gives the inode of a chain back, which is free then, and ends the chain. The refusals, in their order:
/// Shut, NoChain, for a chain of two inodes too, OtherStep, TreeFork where the data fork has no list of
/// mappings or an attribute fork is there, NoFile where the inode can't be read, Occupied where a mapping is
/// left, Closing and Sick of the inode's group. A btree that meets a fault is marked, the inode btree also
/// where it lacks the record or calls the inode free; then nothing else is changed
/// (XFS Algorithms and Data Structures, "Inode Allocation").
#[tactic(auto, using(core_chains::proofs::write::PartLemmas::given_of, core_chains::proofs::write::PartLemmas::left_parts, core_chains::proofs::write::PartLemmas::same_parts, core_chains::proofs::write::SaysLemmas::refuses_same))]
pub fn give_inode<D: Device, L: Ledger>(
    alloc: Global,
    parts: &mut Parts<D>,
    chain: u32,
    steps: &mut Steps<L>,
) -> Result<(), WriteFault>
    requires safe { IsSafe D.Device parts.old }
    ensures left { WriteParts D.Device parts.old parts.new result }
    ensures said { OnOk result (HasGiven chain parts.old.desk parts.new.desk) }
    ensures refused { RefusesBy result parts.old.desk.book.journal.items
        parts.new.desk.book.journal.items }
{
    writer_unshut(&parts.desk)?;
    give_among(alloc, &mut parts.desk, &mut parts.groups, chain, steps)
}
