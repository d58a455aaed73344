// A run of a group's free space, chosen, and guarded from its owners.
ghost use Rattle.std.specs.Prelude.{◌≡◌, ◌<◌, ◌≤◌, ◌+◌, IfOk, OnOk};
ghost use Rattle.std.specs.Vec.{vec_capacity, vec_len};
ghost use Rattle.core_parts.specs.Common.Asks.{IsUsable};
ghost use Rattle.core_chains.specs.Refill.Halts.{Halts};

use crate::refill::asks::{last_record, next_records, owner_record};
use crate::refill::halts::Halt;
use crate::write::is_sick;
use blk_device::Device;
use byte_fields::Steps;
use core_calls::WriteFault;
use core_edit::EditHeads;
use core_parts::{Desk, GroupKept};
use free_space::front;
use intent_drain::Gate;
use sblock::Kind;
use span_recs::{CntKind, SpanRec};
use std::alloc::Global;
use std::sync::ledger::Ledger;
use tree_blocks::TreeAt;

// Where a btree of the group begins, and its levels.
fn root_of(heads: &EditHeads, kind: Kind) -> (u32, u32) {
    match kind {
        Kind::Bno => (heads.agf.bno_root, heads.agf.bno_level),
        Kind::Cnt => (heads.agf.cnt_root, heads.agf.cnt_level),
        Kind::Rmap => (heads.agf.rmap_root, heads.agf.rmap_level),
        Kind::Refc => (heads.agf.refcount_root, heads.agf.refcount_level),
        Kind::Ino => (heads.agi.root, heads.agi.level),
        Kind::Fino => (heads.agi.free_root, heads.agi.free_level),
    }
}

/// A btree of group `g`, as these heads name it
/// (XFS Algorithms and Data Structures, "Allocation Groups").
pub fn tree_at(heads: &EditHeads, g: u32, kind: Kind) -> TreeAt
    ensures kind { result.kind ≡ kind }
    ensures group { result.group ≡ g }
{
    let (root, levels) = root_of(heads, kind);
    TreeAt {
        kind,
        group: g,
        root,
        levels,
        lsn: heads.agf.lsn,
    }
}

/// Whether the gate of the group is open (XFS Online Fsck Design, "Intent Drains").
pub fn is_gate_open<D: Device>(desk: &Desk<D>, g: u32) -> bool
    requires usable { IsUsable D.Device desk.now }
    requires group { g < desk.now.store.geo.agcount }
{
    matches!(desk.drain.gate(g), Gate::Open)
}

/// The first of both btrees of free space and reverse mappings that is sick
/// (XFS Online Fsck Design, "Metadata Repair").
pub fn sick_space(kept: &GroupKept) -> Option<Kind> {
    if is_sick(kept, Kind::Bno) {
        return Some(Kind::Bno);
    }
    if is_sick(kept, Kind::Cnt) {
        return Some(Kind::Cnt);
    }
    if is_sick(kept, Kind::Rmap) {
        return Some(Kind::Rmap);
    }
    None
}

/// The first of both inode btrees that is sick (XFS Online Fsck Design, "Metadata Repair").
pub fn sick_inodes(kept: &GroupKept) -> Option<Kind> {
    if is_sick(kept, Kind::Ino) {
        return Some(Kind::Ino);
    }
    if is_sick(kept, Kind::Fino) {
        return Some(Kind::Fino);
    }
    None
}

// The first record by count with at least so many blocks.
fn fitting<D: Device, L: Ledger>(
    alloc: Global,
    desk: &mut Desk<D>,
    heads: &EditHeads,
    g: u32,
    wanted: u32,
    steps: &mut Steps<L>,
) -> Result<Option<SpanRec>, Halt>
    requires usable { IsUsable D.Device desk.old }
    requires room { vec_len desk.old.book.journal + 2 ≤ vec_capacity desk.old.book.journal }
    requires group { g < desk.old.store.geo.agcount }
    ensures halts { Halts D.Device desk.old desk.new result }
    ensures book { OnOk result (desk.new.book ≡ desk.old.book) }
    ensures items { desk.new.book.journal.items ≡ desk.old.book.journal.items }
{
    let tree = tree_at(heads, g, Kind::Cnt);
    // The last key of the records with fewer blocks.
    let short = SpanRec {
        start: u32::MAX,
        count: wanted.saturating_sub(1),
    };
    let recs = next_records::<CntKind, D, L>(alloc, desk, &tree, Some(short), steps)?;
    Ok(recs.first().copied())
}

// The front of the last record by count.
fn longest<D: Device, L: Ledger>(
    desk: &mut Desk<D>,
    heads: &EditHeads,
    g: u32,
    wanted: u32,
    steps: &mut Steps<L>,
) -> Result<SpanRec, Halt>
    requires usable { IsUsable D.Device desk.old }
    requires room { vec_len desk.old.book.journal + 2 ≤ vec_capacity desk.old.book.journal }
    requires group { g < desk.old.store.geo.agcount }
    ensures halts { Halts D.Device desk.old desk.new result }
    ensures few { IfOk result (λ run. run.count ≤ wanted) }
    ensures book { OnOk result (desk.new.book ≡ desk.old.book) }
    ensures items { desk.new.book.journal.items ≡ desk.old.book.journal.items }
{
    let tree = tree_at(heads, g, Kind::Cnt);
    let found = last_record::<CntKind, D, L>(desk, &tree, steps)?;
    match found {
        Some(rec) => Ok(front(&rec, wanted)),
        None => Err(Halt::Refused(WriteFault::NoSpace)),
    }
}

/// The run of a group that is taken where so many blocks are wanted: the front of the first record by count
/// that is long enough, or else of the last one. NoSpace where there is no record
/// (XFS Algorithms and Data Structures, "AG Free Space B+trees").
pub fn chosen_run<D: Device, L: Ledger>(
    alloc: Global,
    desk: &mut Desk<D>,
    heads: &EditHeads,
    g: u32,
    wanted: u32,
    steps: &mut Steps<L>,
) -> Result<SpanRec, Halt>
    requires usable { IsUsable D.Device desk.old }
    requires room { vec_len desk.old.book.journal + 2 ≤ vec_capacity desk.old.book.journal }
    requires group { g < desk.old.store.geo.agcount }
    ensures halts { Halts D.Device desk.old desk.new result }
    ensures few { IfOk result (λ run. run.count ≤ wanted) }
    ensures book { OnOk result (desk.new.book ≡ desk.old.book) }
    ensures items { desk.new.book.journal.items ≡ desk.old.book.journal.items }
{
    let found = fitting(alloc, desk, heads, g, wanted, steps)?;
    match found {
        Some(rec) => Ok(front(&rec, wanted)),
        None => longest(desk, heads, g, wanted, steps),
    }
}

/// Stops where a reverse mapping has a block of a run that is to be taken
/// (XFS Online Fsck Design, "Cross-Referencing Space Metadata").
pub fn unless_owned<D: Device, L: Ledger>(
    desk: &mut Desk<D>,
    heads: &EditHeads,
    g: u32,
    run: &SpanRec,
    steps: &mut Steps<L>,
) -> Result<(), Halt>
    requires usable { IsUsable D.Device desk.old }
    requires room { vec_len desk.old.book.journal + 2 ≤ vec_capacity desk.old.book.journal }
    requires group { g < desk.old.store.geo.agcount }
    ensures halts { Halts D.Device desk.old desk.new result }
    ensures book { OnOk result (desk.new.book ≡ desk.old.book) }
    ensures items { desk.new.book.journal.items ≡ desk.old.book.journal.items }
{
    let tree = tree_at(heads, g, Kind::Rmap);
    let found = owner_record(desk, &tree, run, steps)?;
    match found {
        Some(_) => Err(Halt::Owned(g)),
        None => Ok(()),
    }
}
