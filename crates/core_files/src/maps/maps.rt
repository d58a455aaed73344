ghost use Rattle.std.specs.Prelude.{◌≡◌, ◌<◌, ◌≤◌, ◌+◌, ◌^◌, ◌++◌, ◌∷◌, [], Err, IfOk, OnOk, length, true};
ghost use Rattle.std.specs.Vec.{vec_capacity, vec_len};
ghost use Rattle.core_calls.specs.declared.answers.WriteFault.TheVariants as faults;
ghost use Rattle.core_parts.specs.Common.Asks.{IsUsable};
ghost use Rattle.core_files.specs.First.Entries.{HasPiece, SaysPiece};
ghost use Rattle.core_files.specs.Maps.Plans.{IsPlan};
ghost use Rattle.core_parts.specs.Safe.{AreKept, IsKept, IsSafe};
ghost use Rattle.core_chains.specs.Write.Says.{RefusesBy};
ghost use Rattle.core_chains.specs.Write.Writes.{IsLeftAll, WriteAnswers, WriteParts, WritesWell};
ghost use Rattle.file_cores.specs.Files.{IsFile};
ghost use Rattle.fs_model.specs.declared.entry.Entry.TheVariants as entries;
ghost use Rattle.sblock.specs.declared.kind.Kind.TheVariants.{Cnt};
ghost use Rattle.core_edit.specs.Opened.{IsOpen};

use crate::first::{
    HeldFile, OwnerDue, PlacedCore, Range, finish, held_file, mark_one, mark_owned, owing_owner,
    piece_of, word_of,
};
use crate::maps::choices::{Choice, choose_run};
use crate::maps::edits::edit_core;
use crate::maps::plans::{Plan, planned};
use crate::maps::seeks::{is_owned, rmap_tree};
use blk_device::Device;
use byte_fields::Steps;
use core_calls::WriteFault;
use core_chains::write::{
    begin_edit, commit_edit, freed_room, settle_edit, take_space, writer_unshut,
};
use core_edit::{SpaceKinds, SpaceLeft};
use core_parts::{Desk, GroupKept, Parts};
use file_cores::is_range_mapped;
use free_space::wanted_count;
use fs_model::{Cause, Entry, Extent};
use fs_state::IntentKind;
use run_sets::Run;
use sblock::Kind;
use span_recs::SpanRec;
use std::alloc::Global;
use std::sync::ledger::Ledger;

// The end of all offsets.
const OFFSETS: u64 = 1 << 54;

// Writes what was edited, and ends the event.
#[tactic(auto, using(crate::proofs::first::WriteLemmas::answers_steady, core_chains::proofs::write::SaysLemmas::refuses_same, crate::proofs::first::SaidLemmas::piece_said))]
fn commit_map<D: Device, L: Ledger>(
    desk: &mut Desk<D>,
    kept: &mut GroupKept,
    plan: &Plan,
    steps: &mut Steps<L>,
) -> Result<u32, WriteFault>
    requires usable { IsUsable D.Device desk.old }
    requires plan { IsPlan desk.old.store.geo plan.now }
    requires opened { IsOpen D.Device plan.now.spot.group desk.old.store }
    requires room { vec_len desk.old.book.journal + 2 ≤ vec_capacity desk.old.book.journal }
    requires kept { IsKept kept.old }
    ensures answers { WriteAnswers D.Device desk.old desk.new result }
    ensures said { IfOk result (λ n. SaysPiece entries.Mapped desk.old.store.geo plan.now.held
        plan.now.offset n desk.old.book.journal.items desk.new.book.journal.items) }
    ensures refused { RefusesBy result desk.old.book.journal.items desk.new.book.journal.items }
    ensures kept { IsKept kept.new }
{
    commit_edit(desk, plan.spot.group, steps)?;
    settle_edit(desk, kept);
    let due = OwnerDue {
        kind: IntentKind::RmapAdd,
        ino: plan.held.chain.first().ino,
        word: word_of(plan.offset, true),
    };
    let owing = owing_owner(&plan.held.chain, &due, &plan.spot);
    let entry = Entry::Mapped(piece_of(&plan.held, plan.offset, &plan.spot));
    finish(desk, plan.held.number, owing, entry);
    Ok(plan.spot.count)
}

// Puts the core into the edit, and writes all.
#[tactic(auto, using(core_chains::proofs::write::PartLemmas::answers_on, crate::proofs::first::SaidLemmas::pieces_on, core_chains::proofs::write::SaysLemmas::refuses_on, core_chains::proofs::write::SaysLemmas::refuses_same))]
fn put_map<D: Device, L: Ledger>(
    desk: &mut Desk<D>,
    kept: &mut GroupKept,
    plan: &Plan,
    placed: &PlacedCore,
    steps: &mut Steps<L>,
) -> Result<u32, WriteFault>
    requires usable { IsUsable D.Device desk.old }
    requires plan { IsPlan desk.old.store.geo plan.now }
    requires place { placed.now.place ≡ plan.now.place }
    requires opened { IsOpen D.Device plan.now.spot.group desk.old.store }
    requires room { vec_len desk.old.book.journal + 2 ≤ vec_capacity desk.old.book.journal }
    requires kept { IsKept kept.old }
    ensures answers { WriteAnswers D.Device desk.old desk.new result }
    ensures said { IfOk result (λ n. SaysPiece entries.Mapped desk.old.store.geo plan.now.held
        plan.now.offset n desk.old.book.journal.items desk.new.book.journal.items) }
    ensures refused { RefusesBy result desk.old.book.journal.items desk.new.book.journal.items }
    ensures kept { IsKept kept.new }
{
    edit_core(desk, plan.spot.group, placed, steps)?;
    commit_map(desk, kept, plan, steps)
}

// The run left free space: what else goes into the commit, if the fork has room.
#[tactic(auto, using(core_chains::proofs::write::PartLemmas::answers_self, core_chains::proofs::write::SaysLemmas::refuses_same))]
fn map_taken<D: Device, L: Ledger>(
    desk: &mut Desk<D>,
    kept: &mut GroupKept,
    plan: &Plan,
    steps: &mut Steps<L>,
) -> Result<u32, WriteFault>
    requires usable { IsUsable D.Device desk.old }
    requires plan { IsPlan desk.old.store.geo plan.now }
    requires opened { IsOpen D.Device plan.now.spot.group desk.old.store }
    requires room { vec_len desk.old.book.journal + 2 ≤ vec_capacity desk.old.book.journal }
    requires kept { IsKept kept.old }
    ensures answers { WriteAnswers D.Device desk.old desk.new result }
    ensures said { IfOk result (λ n. SaysPiece entries.Mapped desk.old.store.geo plan.now.held
        plan.now.offset n desk.old.book.journal.items desk.new.book.journal.items) }
    ensures refused { RefusesBy result desk.old.book.journal.items desk.new.book.journal.items }
    ensures kept { IsKept kept.new }
{
    freed_room(desk, kept)?;
    let Some(core) = plan.core else {
        return Err(WriteFault::ForkFull);
    };
    let placed = PlacedCore {
        place: plan.place,
        core,
    };
    put_map(desk, kept, plan, &placed, steps)
}

// The first index of free space that was left, if one was.
fn first_left(left: &SpaceLeft) -> Option<(Kind, Cause)> {
    if let Some(cause) = left.bno {
        return Some((Kind::Bno, cause));
    }
    match left.cnt {
        Some(cause) => Some((Kind::Cnt, cause)),
        None => None,
    }
}

// What follows from the edit of free space.
#[tactic(auto, using(core_chains::proofs::write::PartLemmas::answers_self, core_chains::proofs::write::SaysLemmas::not_ok, core_chains::proofs::write::SaysLemmas::marked_refuses))]
fn map_or_mark<D: Device, L: Ledger>(
    desk: &mut Desk<D>,
    kept: &mut GroupKept,
    plan: &Plan,
    left: SpaceLeft,
    steps: &mut Steps<L>,
) -> Result<u32, WriteFault>
    requires usable { IsUsable D.Device desk.old }
    requires plan { IsPlan desk.old.store.geo plan.now }
    requires opened { IsOpen D.Device plan.now.spot.group desk.old.store }
    requires room { vec_len desk.old.book.journal + 2 ≤ vec_capacity desk.old.book.journal }
    requires kept { IsKept kept.old }
    ensures answers { WriteAnswers D.Device desk.old desk.new result }
    ensures said { IfOk result (λ n. SaysPiece entries.Mapped desk.old.store.geo plan.now.held
        plan.now.offset n desk.old.book.journal.items desk.new.book.journal.items) }
    ensures refused { RefusesBy result desk.old.book.journal.items desk.new.book.journal.items }
    ensures kept { IsKept kept.new }
{
    match first_left(&left) {
        Some((kind, cause)) => mark_one(desk, kept, plan.spot.group, kind, cause),
        None => map_taken(desk, kept, plan, steps),
    }
}

// Takes the run out of free space.
#[tactic(auto, using(core_chains::proofs::write::PartLemmas::answers_on, crate::proofs::first::SaidLemmas::pieces_on, core_chains::proofs::write::SaysLemmas::refuses_on, core_chains::proofs::write::SaysLemmas::refuses_same))]
fn take_map<D: Device, L: Ledger>(
    alloc: Global,
    desk: &mut Desk<D>,
    kept: &mut GroupKept,
    plan: &Plan,
    steps: &mut Steps<L>,
) -> Result<u32, WriteFault>
    requires usable { IsUsable D.Device desk.old }
    requires plan { IsPlan desk.old.store.geo plan.now }
    requires opened { IsOpen D.Device plan.now.spot.group desk.old.store }
    requires room { vec_len desk.old.book.journal + 2 ≤ vec_capacity desk.old.book.journal }
    requires kept { IsKept kept.old }
    ensures answers { WriteAnswers D.Device desk.old desk.new result }
    ensures said { IfOk result (λ n. SaysPiece entries.Mapped desk.old.store.geo plan.now.held
        plan.now.offset n desk.old.book.journal.items desk.new.book.journal.items) }
    ensures refused { RefusesBy result desk.old.book.journal.items desk.new.book.journal.items }
    ensures kept { IsKept kept.new }
{
    let kinds = SpaceKinds {
        bno: true,
        cnt: true,
    };
    let run = SpanRec {
        start: plan.spot.block,
        count: plan.spot.count,
    };
    let left = take_space(alloc, desk, plan.spot.group, kinds, &run, steps)?;
    map_or_mark(desk, kept, plan, left, steps)
}

// Begins the edit of the run's group, with the inode's block.
#[tactic(auto, using(core_chains::proofs::write::PartLemmas::answers_on, crate::proofs::first::SaidLemmas::pieces_on, core_chains::proofs::write::SaysLemmas::refuses_on, core_chains::proofs::write::SaysLemmas::refuses_same))]
fn map_free<D: Device, L: Ledger>(
    alloc: Global,
    desk: &mut Desk<D>,
    kept: &mut GroupKept,
    plan: &Plan,
    steps: &mut Steps<L>,
) -> Result<u32, WriteFault>
    requires usable { IsUsable D.Device desk.old }
    requires plan { IsPlan desk.old.store.geo plan.now }
    requires room { vec_len desk.old.book.journal + 2 ≤ vec_capacity desk.old.book.journal }
    requires kept { IsKept kept.old }
    ensures answers { WriteAnswers D.Device desk.old desk.new result }
    ensures said { IfOk result (λ n. SaysPiece entries.Mapped desk.old.store.geo plan.now.held
        plan.now.offset n desk.old.book.journal.items desk.new.book.journal.items) }
    ensures refused { RefusesBy result desk.old.book.journal.items desk.new.book.journal.items }
    ensures kept { IsKept kept.new }
{
    let at = desk
        .store
        .geo
        .device_block(plan.place.group, plan.place.block);
    begin_edit(desk, kept, plan.spot.group, Some(at), steps)?;
    take_map(alloc, desk, kept, plan, steps)
}

// What follows from the guard.
#[tactic(auto, using(core_chains::proofs::write::PartLemmas::answers_self, core_chains::proofs::write::SaysLemmas::not_ok, core_chains::proofs::write::SaysLemmas::marked_refuses, core_chains::proofs::write::SaysLemmas::owned_refuses))]
fn map_or_refuse<D: Device, L: Ledger>(
    alloc: Global,
    desk: &mut Desk<D>,
    kept: &mut GroupKept,
    plan: &Plan,
    owned: Result<bool, Cause>,
    steps: &mut Steps<L>,
) -> Result<u32, WriteFault>
    requires usable { IsUsable D.Device desk.old }
    requires plan { IsPlan desk.old.store.geo plan.now }
    requires room { vec_len desk.old.book.journal + 2 ≤ vec_capacity desk.old.book.journal }
    requires kept { IsKept kept.old }
    ensures answers { WriteAnswers D.Device desk.old desk.new result }
    ensures said { IfOk result (λ n. SaysPiece entries.Mapped desk.old.store.geo plan.now.held
        plan.now.offset n desk.old.book.journal.items desk.new.book.journal.items) }
    ensures refused { RefusesBy result desk.old.book.journal.items desk.new.book.journal.items }
    ensures kept { IsKept kept.new }
{
    let is_owned = match owned {
        Ok(is_owned) => is_owned,
        Err(cause) => return mark_one(desk, kept, plan.spot.group, Kind::Rmap, cause),
    };
    if is_owned {
        return mark_owned(desk, kept, plan.spot.group);
    }
    map_free(alloc, desk, kept, plan, steps)
}

// Maps the run, where no record of reverse mappings has a block of it.
#[tactic(auto, using(core_chains::proofs::write::PartLemmas::answers_on, crate::proofs::first::SaidLemmas::pieces_on, core_chains::proofs::write::SaysLemmas::refuses_on, core_chains::proofs::write::SaysLemmas::refuses_same))]
fn map_guarded<D: Device, L: Ledger>(
    alloc: Global,
    desk: &mut Desk<D>,
    kept: &mut GroupKept,
    plan: &Plan,
    steps: &mut Steps<L>,
) -> Result<u32, WriteFault>
    requires usable { IsUsable D.Device desk.old }
    requires plan { IsPlan desk.old.store.geo plan.now }
    requires room { vec_len desk.old.book.journal + 2 ≤ vec_capacity desk.old.book.journal }
    requires kept { IsKept kept.old }
    ensures answers { WriteAnswers D.Device desk.old desk.new result }
    ensures said { IfOk result (λ n. SaysPiece entries.Mapped desk.old.store.geo plan.now.held
        plan.now.offset n desk.old.book.journal.items desk.new.book.journal.items) }
    ensures refused { RefusesBy result desk.old.book.journal.items desk.new.book.journal.items }
    ensures kept { IsKept kept.new }
{
    let run = Run {
        start: plan.spot.block,
        count: plan.spot.count,
    };
    let tree = rmap_tree(kept, plan.spot.group);
    let owned = is_owned(desk, &tree, run, steps)?;
    map_or_refuse(alloc, desk, kept, plan, owned, steps)
}

// Maps a run of one of the groups.
#[tactic(auto, using(crate::proofs::first::GroupLemmas::kept_one, core_chains::proofs::write::PartLemmas::one_left))]
fn map_among<D: Device, L: Ledger>(
    alloc: Global,
    desk: &mut Desk<D>,
    groups: &mut Vec<GroupKept>,
    plan: &Plan,
    steps: &mut Steps<L>,
) -> Result<u32, WriteFault>
    requires usable { IsUsable D.Device desk.old }
    requires groups { length groups.old.items ≡ desk.old.store.geo.agcount }
    requires kept { AreKept groups.old.items }
    requires plan { IsPlan desk.old.store.geo plan.now }
    requires room { vec_len desk.old.book.journal + 2 ≤ vec_capacity desk.old.book.journal }
    ensures left { IsLeftAll D.Device desk.old desk.new groups.old.items groups.new.items }
    ensures reason { WritesWell desk.new result }
    ensures said { IfOk result (λ n. SaysPiece entries.Mapped desk.old.store.geo plan.now.held
        plan.now.offset n desk.old.book.journal.items desk.new.book.journal.items) }
    ensures refused { RefusesBy result desk.old.book.journal.items desk.new.book.journal.items }
{
    let kept = &mut groups[plan.spot.group as usize];
    map_guarded(alloc, desk, kept, plan, steps)
}

// Marks free space by count of one of the groups.
#[tactic(auto, using(crate::proofs::first::GroupLemmas::kept_one, core_chains::proofs::write::PartLemmas::one_left))]
fn mark_among<D: Device>(
    desk: &mut Desk<D>,
    groups: &mut Vec<GroupKept>,
    g: u32,
    cause: Cause,
) -> Result<u32, WriteFault>
    requires usable { IsUsable D.Device desk.old }
    requires groups { length groups.old.items ≡ desk.old.store.geo.agcount }
    requires kept { AreKept groups.old.items }
    requires group { g < desk.old.store.geo.agcount }
    requires room { vec_len desk.old.book.journal + 2 ≤ vec_capacity desk.old.book.journal }
    ensures left { IsLeftAll D.Device desk.old desk.new groups.old.items groups.new.items }
    ensures reason { WritesWell desk.new result }
    ensures sick { result ≡ Err (faults.Sick g Cnt) }
    ensures said { desk.new.book.journal.items ≡ desk.old.book.journal.items ++ entries.Marked g
        Cnt cause ∷ [] }
{
    let kept = &mut groups[g as usize];
    mark_one(desk, kept, g, Kind::Cnt, cause)
}

// Maps the run that was chosen.
#[tactic(auto, using(core_chains::proofs::write::PartLemmas::none_left, core_parts::proofs::common::AskLemmas::steady_self, crate::proofs::first::SaidLemmas::pieces_at, core_chains::proofs::write::SaysLemmas::refused_none))]
fn map_run<D: Device, L: Ledger>(
    alloc: Global,
    desk: &mut Desk<D>,
    groups: &mut Vec<GroupKept>,
    of: HeldFile,
    offset: u64,
    run: &Extent,
    steps: &mut Steps<L>,
) -> Result<u32, WriteFault>
    requires usable { IsUsable D.Device desk.old }
    requires groups { length groups.old.items ≡ desk.old.store.geo.agcount }
    requires kept { AreKept groups.old.items }
    requires file { IsFile desk.old.store.geo of.file }
    requires number { of.held.number < 16 }
    requires room { vec_len desk.old.book.journal + 2 ≤ vec_capacity desk.old.book.journal }
    ensures left { IsLeftAll D.Device desk.old desk.new groups.old.items groups.new.items }
    ensures reason { WritesWell desk.new result }
    ensures said { IfOk result (λ n. SaysPiece entries.Mapped desk.old.store.geo of.held offset n
        desk.old.book.journal.items desk.new.book.journal.items) }
    ensures refused { RefusesBy result desk.old.book.journal.items desk.new.book.journal.items }
{
    match planned(alloc, desk, of, offset, run) {
        Ok(plan) => map_among(alloc, desk, groups, &plan, steps),
        Err(fault) => Err(fault),
    }
}

// Maps what was chosen, or marks what was met.
#[tactic(auto, using(core_chains::proofs::write::PartLemmas::none_left, core_parts::proofs::common::AskLemmas::steady_self, core_chains::proofs::write::SaysLemmas::not_ok, core_chains::proofs::write::SaysLemmas::marked_refuses, core_chains::proofs::write::SaysLemmas::refuses_same))]
fn map_chosen<D: Device, L: Ledger>(
    alloc: Global,
    desk: &mut Desk<D>,
    groups: &mut Vec<GroupKept>,
    of: HeldFile,
    offset: u64,
    choice: Choice,
    steps: &mut Steps<L>,
) -> Result<u32, WriteFault>
    requires usable { IsUsable D.Device desk.old }
    requires groups { length groups.old.items ≡ desk.old.store.geo.agcount }
    requires kept { AreKept groups.old.items }
    requires file { IsFile desk.old.store.geo of.file }
    requires number { of.held.number < 16 }
    requires room { vec_len desk.old.book.journal + 2 ≤ vec_capacity desk.old.book.journal }
    ensures left { IsLeftAll D.Device desk.old desk.new groups.old.items groups.new.items }
    ensures reason { WritesWell desk.new result }
    ensures said { IfOk result (λ n. SaysPiece entries.Mapped desk.old.store.geo of.held offset n
        desk.old.book.journal.items desk.new.book.journal.items) }
    ensures refused { RefusesBy result desk.old.book.journal.items desk.new.book.journal.items }
{
    let (g, cause) = match choice {
        Choice::Run(run) => return map_run(alloc, desk, groups, of, offset, &run, steps),
        Choice::Met(g, cause) => (g, cause),
    };
    // Never: a group that was looked at is one.
    if g >= desk.store.geo.agcount {
        return Err(WriteFault::Memory);
    }
    mark_among(desk, groups, g, cause)
}

// Chooses a run, where no offset of the range is mapped.
#[tactic(auto, using(core_chains::proofs::write::PartLemmas::answers_self))]
fn choose<D: Device, L: Ledger>(
    alloc: Global,
    desk: &mut Desk<D>,
    groups: &[GroupKept],
    of: &HeldFile,
    range: Range,
    steps: &mut Steps<L>,
) -> Result<Choice, WriteFault>
    requires usable { IsUsable D.Device desk.old }
    requires groups { length groups.now ≡ desk.old.store.geo.agcount }
    requires file { IsFile desk.old.store.geo of.now.file }
    requires range { range.offset + range.count ≤ 2 ^ 54 }
    ensures answers { WriteAnswers D.Device desk.old desk.new result }
    ensures book { OnOk result (desk.new.book ≡ desk.old.book) }
    ensures items { desk.new.book.journal.items ≡ desk.old.book.journal.items }
    ensures geometry { desk.new.store.geo ≡ desk.old.store.geo }
{
    if is_range_mapped(of.file.list.as_slice(), range.offset, range.count) {
        return Err(WriteFault::Occupied);
    }
    let own = of.file.place.group;
    choose_run(alloc, desk, groups, own, wanted_count(range.count), steps)
}

// Maps a run at the range's offset of the chain's first file.
#[tactic(auto, using(crate::proofs::first::GroupLemmas::answers_left, crate::proofs::first::GroupLemmas::asked_left, crate::proofs::first::WriteLemmas::file_on, crate::proofs::first::SaidLemmas::pieces_on, core_chains::proofs::write::SaysLemmas::refuses_on, core_chains::proofs::write::SaysLemmas::refused_none))]
fn map_file<D: Device, L: Ledger>(
    alloc: Global,
    desk: &mut Desk<D>,
    groups: &mut Vec<GroupKept>,
    of: HeldFile,
    range: Range,
    steps: &mut Steps<L>,
) -> Result<u32, WriteFault>
    requires usable { IsUsable D.Device desk.old }
    requires groups { length groups.old.items ≡ desk.old.store.geo.agcount }
    requires kept { AreKept groups.old.items }
    requires file { IsFile desk.old.store.geo of.file }
    requires number { of.held.number < 16 }
    requires range { range.offset + range.count ≤ 2 ^ 54 }
    requires room { vec_len desk.old.book.journal + 2 ≤ vec_capacity desk.old.book.journal }
    ensures left { IsLeftAll D.Device desk.old desk.new groups.old.items groups.new.items }
    ensures reason { WritesWell desk.new result }
    ensures said { IfOk result (λ n. SaysPiece entries.Mapped desk.old.store.geo of.held
        range.offset n desk.old.book.journal.items desk.new.book.journal.items) }
    ensures refused { RefusesBy result desk.old.book.journal.items desk.new.book.journal.items }
{
    match choose(alloc, desk, groups.as_slice(), &of, range, steps) {
        Ok(choice) => map_chosen(alloc, desk, groups, of, range.offset, choice, steps),
        Err(fault) => Err(fault),
    }
}

// Whether a range is one that may be asked for.
fn is_asked(range: Range) -> bool
    ensures { result ≡ true → range.offset + range.count ≤ 2 ^ 54 }
{
    range.count > 0 && range.offset <= OFFSETS - u64::from(range.count)
}

// Maps a run at the range's offset of the chain's first file, where no fault of the device was noted.
#[tactic(auto, using(crate::proofs::first::GroupLemmas::answers_left, crate::proofs::first::GroupLemmas::asked_left, core_chains::proofs::write::PartLemmas::none_left, core_parts::proofs::common::AskLemmas::steady_self, crate::proofs::first::SaidLemmas::held_piece, core_chains::proofs::write::SaysLemmas::refuses_on, core_chains::proofs::write::SaysLemmas::refused_none))]
fn map_usable<D: Device, L: Ledger>(
    alloc: Global,
    desk: &mut Desk<D>,
    groups: &mut Vec<GroupKept>,
    chain: u32,
    range: Range,
    steps: &mut Steps<L>,
) -> Result<u32, WriteFault>
    requires usable { IsUsable D.Device desk.old }
    requires groups { length groups.old.items ≡ desk.old.store.geo.agcount }
    requires kept { AreKept groups.old.items }
    ensures left { IsLeftAll D.Device desk.old desk.new groups.old.items groups.new.items }
    ensures reason { WritesWell desk.new result }
    ensures said { IfOk result (λ n. HasPiece entries.Mapped chain range.offset n desk.old
        desk.new) }
    ensures refused { RefusesBy result desk.old.book.journal.items desk.new.book.journal.items }
{
    // Never asked.
    if !is_asked(range) {
        return Err(WriteFault::Memory);
    }
    match held_file(alloc, desk, chain, steps) {
        Ok(of) => map_file(alloc, desk, groups, of, range, steps),
        Err(fault) => Err(fault),
    }
}

/// Maps one run of free space, of at most `count` blocks, at an offset of the chain's first file, and
/// answers its blocks. They aren't written yet, and the chain owes their owner to reverse mappings. It is
/// refused, in this order, with Shut, NoChain, OtherStep, TreeFork, Occupied (an offset of the whole range
/// is mapped), Closing, Sick or NoSpace by the choice of the run, and ForkFull; then nothing changes, but
/// that a fault of an index marks it (XFS Algorithms and Data Structures, "AG Free Space B+trees").
#[tactic(auto, using(core_chains::proofs::write::PartLemmas::left_parts, core_chains::proofs::write::PartLemmas::same_parts, core_chains::proofs::write::SaysLemmas::refuses_same))]
pub fn map_first<D: Device, L: Ledger>(
    alloc: Global,
    parts: &mut Parts<D>,
    chain: u32,
    offset: u64,
    count: u32,
    steps: &mut Steps<L>,
) -> Result<u32, WriteFault>
    requires safe { IsSafe D.Device parts.old }
    ensures left { WriteParts D.Device parts.old parts.new result }
    ensures said { IfOk result (λ n. HasPiece entries.Mapped chain offset n parts.old.desk
        parts.new.desk) }
    ensures refused { RefusesBy result parts.old.desk.book.journal.items
        parts.new.desk.book.journal.items }
{
    writer_unshut(&parts.desk)?;
    let range = Range { offset, count };
    map_usable(
        alloc,
        &mut parts.desk,
        &mut parts.groups,
        chain,
        range,
        steps,
    )
}
