// Both inode btrees of a group in its open edit, and reverse mappings, which follow their blocks.
ghost use Rattle.std.specs.Prelude.{◌≡◌, ◌<◌, ◌≤◌, ◌+◌, OnOk};
ghost use Rattle.std.specs.Vec.{vec_capacity, vec_len};
ghost use Rattle.core_parts.specs.Common.Asks.{IsUsable};
ghost use Rattle.core_chains.specs.Refill.Halts.{Halts};
ghost use Rattle.core_edit.specs.Opened.{IsOpen};

use ag_headers::Agfl;
use blk_device::Device;
use byte_fields::Steps;
use core_chains::refill::{Halt, unless_left};
use core_chains::write::{ChunkEdit, InoTree, edit_inos, follow_moves};
use core_parts::Desk;
use rmap_recs::Owner;
use sblock::Kind;
use std::alloc::Global;
use std::sync::ledger::Ledger;

/// What changes in both inode btrees of a group, and whether reverse mappings follow: not where they are
/// sick.
#[derive(Clone, Copy, Debug, PartialEq, Eq)]
pub struct ChunkChange {
    pub ino: ChunkEdit,
    pub fino: ChunkEdit,
    pub is_followed: bool,
}

// The kind of an inode btree.
fn kind_of(tree: InoTree) -> Kind {
    match tree {
        InoTree::Ino => Kind::Ino,
        InoTree::Fino => Kind::Fino,
    }
}

// Edits one of the two.
#[tactic(auto, using(core_chains::proofs::refill::HaltLemmas::write_met, core_chains::proofs::refill::HaltLemmas::write_err))]
fn edit_tree<D: Device, L: Ledger>(
    alloc: Global,
    desk: &mut Desk<D>,
    g: u32,
    tree: InoTree,
    edit: &ChunkEdit,
    steps: &mut Steps<L>,
) -> Result<(), Halt>
    requires usable { IsUsable D.Device desk.old }
    requires room { vec_len desk.old.book.journal + 2 ≤ vec_capacity desk.old.book.journal }
    requires group { g < desk.old.store.geo.agcount }
    requires opened { IsOpen D.Device g desk.old.store }
    ensures halts { Halts D.Device desk.old desk.new result }
    ensures book { OnOk result (desk.new.book ≡ desk.old.book) }
    ensures items { desk.new.book.journal.items ≡ desk.old.book.journal.items }
    ensures opened { OnOk result (IsOpen D.Device g desk.new.store) }
{
    match edit_inos(alloc, desk, g, tree, edit, steps) {
        Ok(left) => unless_left(g, kind_of(tree), left),
        Err(fault) => Err(Halt::Refused(fault)),
    }
}

// Reverse mappings follow the blocks that moved between the list and the inode btrees.
#[tactic(auto, using(core_chains::proofs::refill::HaltLemmas::write_met, core_chains::proofs::refill::HaltLemmas::write_err))]
fn follow<D: Device, L: Ledger>(
    alloc: Global,
    desk: &mut Desk<D>,
    g: u32,
    was_list: &Agfl,
    steps: &mut Steps<L>,
) -> Result<(), Halt>
    requires usable { IsUsable D.Device desk.old }
    requires room { vec_len desk.old.book.journal + 2 ≤ vec_capacity desk.old.book.journal }
    requires group { g < desk.old.store.geo.agcount }
    requires opened { IsOpen D.Device g desk.old.store }
    ensures halts { Halts D.Device desk.old desk.new result }
    ensures book { OnOk result (desk.new.book ≡ desk.old.book) }
    ensures items { desk.new.book.journal.items ≡ desk.old.book.journal.items }
    ensures opened { OnOk result (IsOpen D.Device g desk.new.store) }
{
    match follow_moves(alloc, desk, g, Owner::Inobt, was_list, steps) {
        Ok(left) => unless_left(g, Kind::Rmap, left),
        Err(fault) => Err(Halt::Refused(fault)),
    }
}

// The same, unless they are sick.
#[tactic(auto, using(core_chains::proofs::refill::HaltLemmas::self_ok))]
fn follow_if<D: Device, L: Ledger>(
    alloc: Global,
    desk: &mut Desk<D>,
    g: u32,
    is_followed: bool,
    was_list: &Agfl,
    steps: &mut Steps<L>,
) -> Result<(), Halt>
    requires usable { IsUsable D.Device desk.old }
    requires room { vec_len desk.old.book.journal + 2 ≤ vec_capacity desk.old.book.journal }
    requires group { g < desk.old.store.geo.agcount }
    requires opened { IsOpen D.Device g desk.old.store }
    ensures halts { Halts D.Device desk.old desk.new result }
    ensures book { OnOk result (desk.new.book ≡ desk.old.book) }
    ensures items { desk.new.book.journal.items ≡ desk.old.book.journal.items }
    ensures opened { OnOk result (IsOpen D.Device g desk.new.store) }
{
    if is_followed {
        follow(alloc, desk, g, was_list, steps)
    } else {
        Ok(())
    }
}

// Edits both.
fn edit_trees<D: Device, L: Ledger>(
    alloc: Global,
    desk: &mut Desk<D>,
    g: u32,
    change: &ChunkChange,
    steps: &mut Steps<L>,
) -> Result<(), Halt>
    requires usable { IsUsable D.Device desk.old }
    requires room { vec_len desk.old.book.journal + 2 ≤ vec_capacity desk.old.book.journal }
    requires group { g < desk.old.store.geo.agcount }
    requires opened { IsOpen D.Device g desk.old.store }
    ensures halts { Halts D.Device desk.old desk.new result }
    ensures book { OnOk result (desk.new.book ≡ desk.old.book) }
    ensures items { desk.new.book.journal.items ≡ desk.old.book.journal.items }
    ensures opened { OnOk result (IsOpen D.Device g desk.new.store) }
{
    edit_tree(alloc, desk, g, InoTree::Ino, &change.ino, steps)?;
    edit_tree(alloc, desk, g, InoTree::Fino, &change.fino, steps)
}

/// Changes both inode btrees of a group in its open edit; blocks that move between them and the free list
/// change their owner in reverse mappings (XFS Algorithms and Data Structures, "Inode B+trees").
pub fn change_chunk<D: Device, L: Ledger>(
    alloc: Global,
    desk: &mut Desk<D>,
    g: u32,
    change: &ChunkChange,
    steps: &mut Steps<L>,
) -> Result<(), Halt>
    requires usable { IsUsable D.Device desk.old }
    requires room { vec_len desk.old.book.journal + 2 ≤ vec_capacity desk.old.book.journal }
    requires group { g < desk.old.store.geo.agcount }
    requires opened { IsOpen D.Device g desk.old.store }
    ensures halts { Halts D.Device desk.old desk.new result }
    ensures book { OnOk result (desk.new.book ≡ desk.old.book) }
    ensures items { desk.new.book.journal.items ≡ desk.old.book.journal.items }
    ensures opened { OnOk result (IsOpen D.Device g desk.new.store) }
{
    let was_list = desk.store.edit.heads.list;
    edit_trees(alloc, desk, g, change, steps)?;
    follow_if(alloc, desk, g, change.is_followed, &was_list, steps)
}
