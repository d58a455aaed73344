// The run of free space in which a new chunk is made.
ghost use Rattle.std.specs.Prelude.{◌≡◌, ◌<◌, ◌≤◌, ◌+◌, IfSome, OnOk, length};
ghost use Rattle.std.specs.Vec.{vec_capacity, vec_len};
ghost use Rattle.core_parts.specs.Common.Asks.{IsUsable};
ghost use Rattle.core_files.specs.Chunks.Plain.{IsPlain};
ghost use Rattle.core_chains.specs.Refill.Halts.{Halts};

use blk_device::Device;
use byte_fields::Steps;
use core_calls::WriteFault;
use core_chains::refill::{Halt, is_gate_open, next_records, sick_inodes, sick_space, tree_at};
use core_parts::{Desk, GroupKept};
use free_space::aligned_run;
use fs_model::Extent;
use sblock::Kind;
use span_recs::{BnoKind, SpanRec};
use std::alloc::Global;
use std::sync::ledger::Ledger;

// The blocks of a chunk.
const CHUNK_BLOCKS: u32 = 8;

// The first of both btrees of free space, reverse mappings and both inode btrees that is sick.
fn sick_kind(kept: &GroupKept) -> Option<Kind> {
    sick_space(kept).or(sick_inodes(kept))
}

// The lowest block of a record at which a chunk fits.
fn aligned_in(rec: &SpanRec) -> Option<u32> {
    // Never: a record lies in its group.
    if rec.count > u32::MAX - rec.start {
        return None;
    }
    aligned_run(rec)
}

// The same of a leaf's records, one after the other.
fn first_aligned(recs: &[SpanRec]) -> Option<u32> {
    for rec in recs {
        let found = aligned_in(rec);
        if found.is_some() {
            return found;
        }
    }
    None
}

// How far a search for such a run has come: at one, behind the records up to this one, or at the end.
enum Reach {
    At(u32),
    Behind(SpanRec),
    End,
}

// What the records of a leaf tell.
fn reach_of(recs: &[SpanRec]) -> Reach {
    if let Some(block) = first_aligned(recs) {
        return Reach::At(block);
    }
    match recs.last() {
        Some(rec) => Reach::Behind(*rec),
        None => Reach::End,
    }
}

// What the next leaf of free space by start tells.
fn next_reach<D: Device, L: Ledger>(
    alloc: Global,
    desk: &mut Desk<D>,
    kept: &GroupKept,
    g: u32,
    after: Option<SpanRec>,
    steps: &mut Steps<L>,
) -> Result<Reach, Halt>
    requires usable { IsUsable D.Device desk.old }
    requires room { vec_len desk.old.book.journal + 2 ≤ vec_capacity desk.old.book.journal }
    requires group { g < desk.old.store.geo.agcount }
    ensures halts { Halts D.Device desk.old desk.new result }
    ensures book { OnOk result (desk.new.book ≡ desk.old.book) }
    ensures items { desk.new.book.journal.items ≡ desk.old.book.journal.items }
{
    let tree = tree_at(&kept.heads, g, Kind::Bno);
    let recs = next_records::<BnoKind, D, L>(alloc, desk, &tree, after, steps)?;
    Ok(reach_of(recs.as_slice()))
}

// The lowest run of the group's free space for a chunk.
fn lowest_run<D: Device, L: Ledger>(
    alloc: Global,
    desk: &mut Desk<D>,
    kept: &GroupKept,
    g: u32,
    steps: &mut Steps<L>,
) -> Result<Option<u32>, Halt>
    requires usable { IsUsable D.Device desk.old }
    requires room { vec_len desk.old.book.journal + 2 ≤ vec_capacity desk.old.book.journal }
    requires group { g < desk.old.store.geo.agcount }
    ensures halts { Halts D.Device desk.old desk.new result }
    ensures book { OnOk result (desk.new.book ≡ desk.old.book) }
    ensures items { desk.new.book.journal.items ≡ desk.old.book.journal.items }
{
    let mut after = None;
    for _ in 0..u32::MAX {
        match next_reach(alloc, desk, kept, g, after, steps)? {
            Reach::At(block) => return Ok(Some(block)),
            Reach::Behind(rec) => after = Some(rec),
            Reach::End => return Ok(None),
        }
    }
    // Not reached: the records rise in the group.
    Ok(None)
}

// The same, where the group's gate is open and none of its btrees is sick that are edited.
#[tactic(auto, using(core_chains::proofs::refill::HaltLemmas::self_ok))]
fn run_in<D: Device, L: Ledger>(
    alloc: Global,
    desk: &mut Desk<D>,
    kept: &GroupKept,
    g: u32,
    steps: &mut Steps<L>,
) -> Result<Option<u32>, Halt>
    requires usable { IsUsable D.Device desk.old }
    requires room { vec_len desk.old.book.journal + 2 ≤ vec_capacity desk.old.book.journal }
    requires group { g < desk.old.store.geo.agcount }
    ensures halts { Halts D.Device desk.old desk.new result }
    ensures book { OnOk result (desk.new.book ≡ desk.old.book) }
    ensures items { desk.new.book.journal.items ≡ desk.old.book.journal.items }
{
    if is_gate_open(desk, g) && sick_kind(kept).is_none() {
        return lowest_run(alloc, desk, kept, g, steps);
    }
    Ok(None)
}

// The lowest group whose gate isn't open.
fn first_closed<D: Device>(desk: &Desk<D>) -> Option<u32>
    requires usable { IsUsable D.Device desk.now }
{
    for g in 0..desk.store.geo.agcount {
        if !is_gate_open(desk, g) {
            return Some(g);
        }
    }
    None
}

// The lowest group with a btree that is sick, as the fault of that.
fn first_sick(groups: &[GroupKept]) -> Option<WriteFault>
    ensures { IfSome result IsPlain }
{
    let mut g: u32 = 0;
    for kept in groups {
        if let Some(kind) = sick_kind(kept) {
            return Some(WriteFault::Sick(g, kind));
        }
        g = g.saturating_add(1);
    }
    None
}

// Why no group gives a run for a chunk.
fn none_gives<D: Device>(desk: &Desk<D>, groups: &[GroupKept]) -> WriteFault
    requires usable { IsUsable D.Device desk.now }
    ensures { IsPlain result }
{
    if let Some(g) = first_closed(desk) {
        return WriteFault::Closing(g);
    }
    match first_sick(groups) {
        Some(fault) => fault,
        None => WriteFault::NoSpace,
    }
}

/// The lowest aligned run of free space for a chunk, of the first group that has one, whose gate is open,
/// and of which no btree is sick that is edited. The refusals, in their order: Closing with the lowest group
/// whose gate isn't open, Sick with the first such btree of the lowest group that has one, NoSpace
/// (XFS Algorithms and Data Structures, "Inode Allocation").
#[tactic(auto, using(core_chains::proofs::refill::HaltLemmas::self_err, core_chains::proofs::refill::HaltLemmas::halts_on, crate::proofs::chunks::ChunkLemmas::plain_reason))]
pub fn find_run<D: Device, L: Ledger>(
    alloc: Global,
    desk: &mut Desk<D>,
    groups: &[GroupKept],
    steps: &mut Steps<L>,
) -> Result<Extent, Halt>
    requires usable { IsUsable D.Device desk.old }
    requires room { vec_len desk.old.book.journal + 2 ≤ vec_capacity desk.old.book.journal }
    requires all { length groups.now ≡ desk.old.store.geo.agcount }
    ensures halts { Halts D.Device desk.old desk.new result }
    ensures book { OnOk result (desk.new.book ≡ desk.old.book) }
    ensures items { desk.new.book.journal.items ≡ desk.old.book.journal.items }
{
    for g in 0..desk.store.geo.agcount {
        let found = run_in(alloc, desk, &groups[g as usize], g, steps)?;
        if let Some(block) = found {
            return Ok(Extent {
                group: g,
                block,
                count: CHUNK_BLOCKS,
            });
        }
    }
    Err(Halt::Refused(none_gives(desk, groups)))
}
