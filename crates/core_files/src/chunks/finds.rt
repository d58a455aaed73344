// The free inode that is taken, where a chunk has one.
ghost use Rattle.std.specs.Prelude.{◌≡◌, ◌<◌, ◌≤◌, ◌+◌, OnOk, length};
ghost use Rattle.std.specs.Vec.{vec_capacity, vec_len};
ghost use Rattle.core_parts.specs.Common.Asks.{IsUsable};
ghost use Rattle.core_chains.specs.Refill.Halts.{Halts};

use blk_device::Device;
use byte_fields::Steps;
use core_chains::refill::{Halt, is_gate_open, next_records, sick_inodes, tree_at};
use core_parts::{Desk, GroupKept};
use ino_recs::{FinoKind, InoRec};
use sblock::Kind;
use std::alloc::Global;
use std::sync::ledger::Ledger;

/// A chunk with a free inode, by its record in the btree of such chunks, and its group.
#[derive(Clone, Copy, Debug, PartialEq, Eq)]
pub struct FreeChunk {
    pub group: u32,
    pub rec: InoRec,
}

// The first chunk of a group with a free inode.
fn first_chunk<D: Device, L: Ledger>(
    alloc: Global,
    desk: &mut Desk<D>,
    kept: &GroupKept,
    g: u32,
    steps: &mut Steps<L>,
) -> Result<Option<FreeChunk>, Halt>
    requires usable { IsUsable D.Device desk.old }
    requires room { vec_len desk.old.book.journal + 2 ≤ vec_capacity desk.old.book.journal }
    requires group { g < desk.old.store.geo.agcount }
    ensures halts { Halts D.Device desk.old desk.new result }
    ensures book { OnOk result (desk.new.book ≡ desk.old.book) }
    ensures items { desk.new.book.journal.items ≡ desk.old.book.journal.items }
{
    let tree = tree_at(&kept.heads, g, Kind::Fino);
    let recs = next_records::<FinoKind, D, L>(alloc, desk, &tree, None, steps)?;
    match recs.first() {
        Some(rec) => Ok(Some(FreeChunk {
            group: g,
            rec: *rec,
        })),
        None => Ok(None),
    }
}

// The same, where the group's gate is open and neither of its inode btrees is sick.
#[tactic(auto, using(core_chains::proofs::refill::HaltLemmas::self_ok))]
fn chunk_in<D: Device, L: Ledger>(
    alloc: Global,
    desk: &mut Desk<D>,
    kept: &GroupKept,
    g: u32,
    steps: &mut Steps<L>,
) -> Result<Option<FreeChunk>, Halt>
    requires usable { IsUsable D.Device desk.old }
    requires room { vec_len desk.old.book.journal + 2 ≤ vec_capacity desk.old.book.journal }
    requires group { g < desk.old.store.geo.agcount }
    ensures halts { Halts D.Device desk.old desk.new result }
    ensures book { OnOk result (desk.new.book ≡ desk.old.book) }
    ensures items { desk.new.book.journal.items ≡ desk.old.book.journal.items }
{
    if is_gate_open(desk, g) && sick_inodes(kept).is_none() {
        return first_chunk(alloc, desk, kept, g, steps);
    }
    Ok(None)
}

/// The first chunk with a free inode, of the first group that has one, whose gate is open, and of which
/// neither inode btree is sick; none where there is none
/// (XFS Algorithms and Data Structures, "Free Inode B+tree").
pub fn find_free<D: Device, L: Ledger>(
    alloc: Global,
    desk: &mut Desk<D>,
    groups: &[GroupKept],
    steps: &mut Steps<L>,
) -> Result<Option<FreeChunk>, Halt>
    requires usable { IsUsable D.Device desk.old }
    requires room { vec_len desk.old.book.journal + 2 ≤ vec_capacity desk.old.book.journal }
    requires all { length groups.now ≡ desk.old.store.geo.agcount }
    ensures halts { Halts D.Device desk.old desk.new result }
    ensures book { OnOk result (desk.new.book ≡ desk.old.book) }
    ensures items { desk.new.book.journal.items ≡ desk.old.book.journal.items }
{
    for g in 0..desk.store.geo.agcount {
        let found = chunk_in(alloc, desk, &groups[g as usize], g, steps)?;
        if found.is_some() {
            return Ok(found);
        }
    }
    Ok(None)
}
