// The edits of a group that take all back where one index meets a fault: nothing is committed then.
ghost use Rattle.std.specs.Prelude.{◌≡◌, ◌<◌, ◌≤◌, ◌+◌, IfErr, OnOk};
ghost use Rattle.std.specs.Vec.{vec_capacity, vec_len};
ghost use Rattle.core_parts.specs.Common.Asks.{IsUsable};
ghost use Rattle.core_parts.specs.Safe.{IsKept};
ghost use Rattle.core_chains.specs.Refill.Halts.{Halts, IsMet};
ghost use Rattle.core_edit.specs.Opened.{IsOpen};

use crate::refill::halts::Halt;
use crate::write::{
    RmapEdit, begin_edit, commit_edit, edit_rmap, freed_room, give_space, settle_edit, take_space,
};
use blk_device::Device;
use byte_fields::Steps;
use core_edit::{SpaceKinds, SpaceLeft};
use core_parts::{Desk, GroupKept};
use fs_model::Cause;
use rmap_recs::{Owner, RmapRec};
use sblock::Kind;
use span_recs::SpanRec;
use std::alloc::Global;
use std::sync::ledger::Ledger;

// Both indexes of free space are edited: none of them is sick.
const BOTH: SpaceKinds = SpaceKinds {
    bno: true,
    cnt: true,
};

/// Begins the edit of a group, as its kept heads have it; the block of an inode at this number of the
/// image is joined, where one is given (XFS Online Fsck Design, "Eventual Consistency").
#[tactic(auto, using(crate::proofs::refill::HaltLemmas::write_ok, crate::proofs::refill::HaltLemmas::write_err))]
pub fn open_group<D: Device, L: Ledger>(
    desk: &mut Desk<D>,
    kept: &GroupKept,
    g: u32,
    inode: Option<u64>,
    steps: &mut Steps<L>,
) -> Result<(), Halt>
    requires usable { IsUsable D.Device desk.old }
    requires group { g < desk.old.store.geo.agcount }
    ensures halts { Halts D.Device desk.old desk.new result }
    ensures book { OnOk result (desk.new.book ≡ desk.old.book) }
    ensures items { desk.new.book.journal.items ≡ desk.old.book.journal.items }
    ensures opened { OnOk result (IsOpen D.Device g desk.new.store) }
{
    match begin_edit(desk, kept, g, inode, steps) {
        Ok(()) => Ok(()),
        Err(fault) => Err(Halt::Refused(fault)),
    }
}

/// Stops where an index of group `g` was left for a cause.
pub fn unless_left(g: u32, kind: Kind, left: Option<Cause>) -> Result<(), Halt>
    ensures { IfErr result IsMet }
{
    match left {
        Some(cause) => Err(Halt::Met(g, kind, cause)),
        None => Ok(()),
    }
}

// The same of both indexes of free space.
fn unless_space_left(g: u32, left: SpaceLeft) -> Result<(), Halt>
    ensures { IfErr result IsMet }
{
    unless_left(g, Kind::Bno, left.bno)?;
    unless_left(g, Kind::Cnt, left.cnt)
}

/// Takes a run out of free space (XFS Algorithms and Data Structures, "AG Free Space B+trees").
#[tactic(auto, using(crate::proofs::refill::HaltLemmas::write_met, crate::proofs::refill::HaltLemmas::write_err))]
pub fn take_both<D: Device, L: Ledger>(
    alloc: Global,
    desk: &mut Desk<D>,
    g: u32,
    run: &SpanRec,
    steps: &mut Steps<L>,
) -> Result<(), Halt>
    requires usable { IsUsable D.Device desk.old }
    requires room { vec_len desk.old.book.journal + 2 ≤ vec_capacity desk.old.book.journal }
    requires group { g < desk.old.store.geo.agcount }
    requires opened { IsOpen D.Device g desk.old.store }
    ensures halts { Halts D.Device desk.old desk.new result }
    ensures book { OnOk result (desk.new.book ≡ desk.old.book) }
    ensures items { desk.new.book.journal.items ≡ desk.old.book.journal.items }
    ensures opened { OnOk result (IsOpen D.Device g desk.new.store) }
{
    match take_space(alloc, desk, g, BOTH, run, steps) {
        Ok(left) => unless_space_left(g, left),
        Err(fault) => Err(Halt::Refused(fault)),
    }
}

/// Gives a run to free space (XFS Algorithms and Data Structures, "AG Free Space B+trees").
#[tactic(auto, using(crate::proofs::refill::HaltLemmas::write_met, crate::proofs::refill::HaltLemmas::write_err))]
pub fn give_both<D: Device, L: Ledger>(
    alloc: Global,
    desk: &mut Desk<D>,
    g: u32,
    run: &SpanRec,
    steps: &mut Steps<L>,
) -> Result<(), Halt>
    requires usable { IsUsable D.Device desk.old }
    requires room { vec_len desk.old.book.journal + 2 ≤ vec_capacity desk.old.book.journal }
    requires group { g < desk.old.store.geo.agcount }
    requires opened { IsOpen D.Device g desk.old.store }
    ensures halts { Halts D.Device desk.old desk.new result }
    ensures book { OnOk result (desk.new.book ≡ desk.old.book) }
    ensures items { desk.new.book.journal.items ≡ desk.old.book.journal.items }
    ensures opened { OnOk result (IsOpen D.Device g desk.new.store) }
{
    match give_space(alloc, desk, g, BOTH, run, steps) {
        Ok(left) => unless_space_left(g, left),
        Err(fault) => Err(Halt::Refused(fault)),
    }
}

// A run with an owner that isn't a file.
fn owned(run: &SpanRec, owner: Owner) -> RmapRec {
    RmapRec {
        start: run.start,
        count: run.count,
        owner: owner.number(),
        word: 0,
    }
}

// Edits reverse mappings.
#[tactic(auto, using(crate::proofs::refill::HaltLemmas::write_met, crate::proofs::refill::HaltLemmas::write_err))]
fn turn_rmap<D: Device, L: Ledger>(
    alloc: Global,
    desk: &mut Desk<D>,
    g: u32,
    edit: &RmapEdit,
    steps: &mut Steps<L>,
) -> Result<(), Halt>
    requires usable { IsUsable D.Device desk.old }
    requires room { vec_len desk.old.book.journal + 2 ≤ vec_capacity desk.old.book.journal }
    requires group { g < desk.old.store.geo.agcount }
    requires opened { IsOpen D.Device g desk.old.store }
    ensures halts { Halts D.Device desk.old desk.new result }
    ensures book { OnOk result (desk.new.book ≡ desk.old.book) }
    ensures items { desk.new.book.journal.items ≡ desk.old.book.journal.items }
    ensures opened { OnOk result (IsOpen D.Device g desk.new.store) }
{
    match edit_rmap(alloc, desk, g, edit, steps) {
        Ok(left) => unless_left(g, Kind::Rmap, left),
        Err(fault) => Err(Halt::Refused(fault)),
    }
}

/// Gives a run its owner in reverse mappings
/// (XFS Algorithms and Data Structures, "Reverse-Mapping B+tree").
pub fn add_owner<D: Device, L: Ledger>(
    alloc: Global,
    desk: &mut Desk<D>,
    g: u32,
    run: &SpanRec,
    owner: Owner,
    steps: &mut Steps<L>,
) -> Result<(), Halt>
    requires usable { IsUsable D.Device desk.old }
    requires room { vec_len desk.old.book.journal + 2 ≤ vec_capacity desk.old.book.journal }
    requires group { g < desk.old.store.geo.agcount }
    requires opened { IsOpen D.Device g desk.old.store }
    ensures halts { Halts D.Device desk.old desk.new result }
    ensures book { OnOk result (desk.new.book ≡ desk.old.book) }
    ensures items { desk.new.book.journal.items ≡ desk.old.book.journal.items }
    ensures opened { OnOk result (IsOpen D.Device g desk.new.store) }
{
    turn_rmap(alloc, desk, g, &RmapEdit::Add(owned(run, owner)), steps)
}

/// Takes a run's owner from it in reverse mappings
/// (XFS Algorithms and Data Structures, "Reverse-Mapping B+tree").
pub fn cut_owner<D: Device, L: Ledger>(
    alloc: Global,
    desk: &mut Desk<D>,
    g: u32,
    run: &SpanRec,
    owner: Owner,
    steps: &mut Steps<L>,
) -> Result<(), Halt>
    requires usable { IsUsable D.Device desk.old }
    requires room { vec_len desk.old.book.journal + 2 ≤ vec_capacity desk.old.book.journal }
    requires group { g < desk.old.store.geo.agcount }
    requires opened { IsOpen D.Device g desk.old.store }
    ensures halts { Halts D.Device desk.old desk.new result }
    ensures book { OnOk result (desk.new.book ≡ desk.old.book) }
    ensures items { desk.new.book.journal.items ≡ desk.old.book.journal.items }
    ensures opened { OnOk result (IsOpen D.Device g desk.new.store) }
{
    turn_rmap(alloc, desk, g, &RmapEdit::Cut(owned(run, owner)), steps)
}

// Writes what was edited.
#[tactic(auto, using(crate::proofs::refill::HaltLemmas::write_ok, crate::proofs::refill::HaltLemmas::write_err))]
fn write_group<D: Device, L: Ledger>(
    desk: &mut Desk<D>,
    g: u32,
    steps: &mut Steps<L>,
) -> Result<(), Halt>
    requires usable { IsUsable D.Device desk.old }
    requires group { g < desk.old.store.geo.agcount }
    requires opened { IsOpen D.Device g desk.old.store }
    ensures halts { Halts D.Device desk.old desk.new result }
    ensures book { OnOk result (desk.new.book ≡ desk.old.book) }
    ensures items { desk.new.book.journal.items ≡ desk.old.book.journal.items }
{
    match commit_edit(desk, g, steps) {
        Ok(()) => Ok(()),
        Err(fault) => Err(Halt::Refused(fault)),
    }
}

// Room in limbo for what the edits freed.
#[tactic(auto, using(crate::proofs::refill::HaltLemmas::self_ok, crate::proofs::refill::HaltLemmas::self_err))]
fn limbo_room<D: Device>(desk: &Desk<D>, kept: &mut GroupKept) -> Result<(), Halt>
    requires usable { IsUsable D.Device desk.now }
    requires kept { IsKept kept.old }
    ensures halts { Halts D.Device desk.now desk.now result }
    ensures kept { IsKept kept.new }
{
    match freed_room(desk, kept) {
        Ok(()) => Ok(()),
        Err(_) => Err(Halt::Refused(core_calls::WriteFault::Memory)),
    }
}

/// Writes what was edited of a group, as one commit, and keeps the group as it is written
/// (XFS Online Fsck Design, "Eventual Consistency").
#[tactic(auto, using(crate::proofs::refill::HaltLemmas::halts_on))]
pub fn commit_group<D: Device, L: Ledger>(
    desk: &mut Desk<D>,
    kept: &mut GroupKept,
    g: u32,
    steps: &mut Steps<L>,
) -> Result<(), Halt>
    requires usable { IsUsable D.Device desk.old }
    requires kept { IsKept kept.old }
    requires group { g < desk.old.store.geo.agcount }
    requires opened { IsOpen D.Device g desk.old.store }
    ensures halts { Halts D.Device desk.old desk.new result }
    ensures book { OnOk result (desk.new.book ≡ desk.old.book) }
    ensures items { desk.new.book.journal.items ≡ desk.old.book.journal.items }
    ensures kept { IsKept kept.new }
{
    limbo_room(desk, kept)?;
    write_group(desk, g, steps)?;
    settle_edit(desk, kept);
    Ok(())
}
