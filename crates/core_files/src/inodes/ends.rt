// What follows a commit that changed inodes: where scans find the inode btree, chains, and the entry.
ghost use Rattle.std.specs.Prelude.{◌≡◌, ◌<◌, ◌++◌, ◌∷◌, [], IfErr, IfOk, length};
ghost use Rattle.std.specs.Vec.{vec_capacity, vec_len};
ghost use Rattle.core_parts.specs.Common.Asks.{IsUsable};
ghost use Rattle.core_parts.specs.Keeps.{IsSteady};
ghost use Rattle.core_chains.specs.Refill.Halts.{IsMemory, IsMet};
ghost use Rattle.core_files.specs.Inodes.Entries.{given_on};
ghost use Rattle.inode_scan.specs.Cursor.{IsInoTree};
ghost use Rattle.intent_drain.specs.Drains.{gates_of};

use blk_device::Device;
use core_calls::WriteFault;
use core_chains::holds::opened_drain;
use core_chains::refill::{Halt, tree_at};
use core_chains::write::put_chain;
use core_parts::common::add_entry;
use core_parts::{Desk, GroupKept, UnitState, Work};
use defer_chain::{Chain, ChainInode};
use fs_model::{Cause, Entry};
use intent_drain::Drain;
use sblock::Kind;
use std::alloc::Global;
use tree_blocks::TreeAt;

/// A writer that takes an inode, with the owner of the file, and the number of its chain.
#[derive(Clone, Copy, Debug, PartialEq, Eq)]
pub(crate) struct Taker {
    pub writer: u32,
    pub uid: u32,
    pub number: u32,
}

// Names the inode btree of a group anew, for scans.
#[tactic(auto, using(crate::proofs::inodes::InodeLemmas::trees_set, crate::proofs::inodes::InodeLemmas::trees_usable, crate::proofs::inodes::InodeLemmas::trees_steady, core_parts::proofs::common::AskLemmas::steady_self))]
fn put_tree<D: Device>(desk: &mut Desk<D>, g: u32, tree: TreeAt)
    requires usable { IsUsable D.Device desk.old }
    requires group { g < desk.old.store.geo.agcount }
    requires tree { IsInoTree desk.old.store.geo.agcount tree }
    ensures usable { IsUsable D.Device desk.new }
    ensures steady { IsSteady D.Device desk.old desk.new }
    ensures book { desk.new.book ≡ desk.old.book }
    ensures store { desk.new.store ≡ desk.old.store }
{
    // Always: there is one of each group.
    if (g as usize) < desk.ino_trees.len() {
        desk.ino_trees[g as usize] = tree;
    }
}

/// Scans go on by the inode btree that was written (XFS Online Fsck Design, "Live Inode Scans").
pub(crate) fn name_tree<D: Device>(desk: &mut Desk<D>, kept: &GroupKept, g: u32)
    requires usable { IsUsable D.Device desk.old }
    requires group { g < desk.old.store.geo.agcount }
    ensures usable { IsUsable D.Device desk.new }
    ensures steady { IsSteady D.Device desk.old desk.new }
    ensures book { desk.new.book ≡ desk.old.book }
    ensures store { desk.new.store ≡ desk.old.store }
{
    put_tree(desk, g, tree_at(&kept.heads, g, Kind::Ino));
}

// Whether the scan of a unit holds the inode.
fn does_scan_hold(unit: &Option<UnitState>, ino: u64) -> bool {
    let Some(unit) = unit else {
        return false;
    };
    match &unit.work {
        Work::Scanning(scan) => match &scan.held {
            Some(held) => held.ino == ino,
            None => false,
        },
        _ => false,
    }
}

// Whether one of the scans holds the inode.
fn do_scans_hold(units: &[Option<UnitState>], ino: u64) -> bool {
    for unit in units {
        if does_scan_hold(unit, ino) {
            return true;
        }
    }
    false
}

/// Stops where somebody holds an inode that is free: the inode btree has met an owner
/// (XFS Online Fsck Design, "Live Inode Scans").
pub(crate) fn unless_held<D: Device>(
    desk: &Desk<D>,
    units: &[Option<UnitState>],
    g: u32,
    ino: u64,
) -> Result<(), Halt>
    ensures { IfErr result IsMet }
{
    if desk.drain.holder(ino).is_some() || do_scans_hold(units, ino) {
        return Err(Halt::Met(g, Kind::Ino, Cause::Owner));
    }
    Ok(())
}

/// The drain with the taker's chain, which holds the inode. It takes all memory for that now
/// (XFS Online Fsck Design, "Intent Drains").
pub(crate) fn drain_with<D: Device>(
    alloc: Global,
    desk: &Desk<D>,
    taker: &Taker,
    ino: u64,
) -> Result<Drain, Halt>
    requires usable { IsUsable D.Device desk.now }
    ensures gates { IfOk result (λ drain. length (gates_of drain) ≡ desk.now.store.geo.agcount) }
    ensures memory { IfErr result IsMemory }
{
    // Never: it is the lowest free number.
    if taker.number >= 16 {
        return Err(Halt::Refused(WriteFault::Memory));
    }
    let inode = ChainInode {
        ino,
        uid: taker.uid,
    };
    let chain = Chain::new(taker.writer, inode, None);
    let groups = desk.store.geo.agcount;
    match opened_drain(alloc, &desk.drain, groups, taker.number, chain) {
        Ok(drain) => Ok(drain),
        Err(_) => Err(Halt::Refused(WriteFault::Memory)),
    }
}

// This drain is the desk's from now on.
#[tactic(auto, using(crate::proofs::inodes::InodeLemmas::drain_usable, crate::proofs::inodes::InodeLemmas::drain_steady))]
fn put_drain<D: Device>(desk: &mut Desk<D>, drain: Drain)
    requires usable { IsUsable D.Device desk.old }
    requires gates { length (gates_of drain) ≡ desk.old.store.geo.agcount }
    ensures usable { IsUsable D.Device desk.new }
    ensures steady { IsSteady D.Device desk.old desk.new }
    ensures book { desk.new.book ≡ desk.old.book }
    ensures store { desk.new.store ≡ desk.old.store }
{
    desk.drain = drain;
}

// Adds the entry of the event.
#[tactic(auto, using(core_parts::proofs::common::AskLemmas::adds_usable, core_parts::proofs::common::AskLemmas::adds_steady))]
fn say<D: Device>(desk: &mut Desk<D>, entry: Entry)
    requires usable { IsUsable D.Device desk.old }
    requires room { vec_len desk.old.book.journal < vec_capacity desk.old.book.journal }
    ensures usable { IsUsable D.Device desk.new }
    ensures steady { IsSteady D.Device desk.old desk.new }
    ensures said { desk.new.book.journal.items ≡ desk.old.book.journal.items ++ entry ∷ [] }
{
    add_entry(desk, entry);
}

/// An inode was taken, and this is written: its chain is open, and the entry says so
/// (XFS Online Fsck Design, "Eventual Consistency").
#[tactic(auto, using(core_parts::proofs::common::AskLemmas::steady_on))]
pub(crate) fn end_take<D: Device>(
    desk: &mut Desk<D>,
    kept: &GroupKept,
    g: u32,
    drain: Drain,
    taken: Entry,
)
    requires usable { IsUsable D.Device desk.old }
    requires group { g < desk.old.store.geo.agcount }
    requires gates { length (gates_of drain) ≡ desk.old.store.geo.agcount }
    requires room { vec_len desk.old.book.journal < vec_capacity desk.old.book.journal }
    ensures usable { IsUsable D.Device desk.new }
    ensures steady { IsSteady D.Device desk.old desk.new }
    ensures said { desk.new.book.journal.items ≡ desk.old.book.journal.items ++ taken ∷ [] }
{
    put_drain(desk, drain);
    name_tree(desk, kept, g);
    say(desk, taken);
}

// Nobody holds the inode any more.
#[tactic(auto, using(crate::proofs::inodes::InodeLemmas::gates_usable, crate::proofs::inodes::InodeLemmas::drain_steady))]
fn let_go<D: Device>(desk: &mut Desk<D>, ino: u64)
    requires usable { IsUsable D.Device desk.old }
    ensures usable { IsUsable D.Device desk.new }
    ensures steady { IsSteady D.Device desk.old desk.new }
    ensures book { desk.new.book ≡ desk.old.book }
    ensures store { desk.new.store ≡ desk.old.store }
{
    desk.drain.let_go(ino);
}

/// The inode of a chain was given back, and this is written: the chain is ended, and the entry says so
/// (XFS Online Fsck Design, "Eventual Consistency").
#[tactic(auto, using(core_parts::proofs::common::AskLemmas::steady_on))]
pub(crate) fn end_give<D: Device>(
    desk: &mut Desk<D>,
    kept: &GroupKept,
    g: u32,
    number: u32,
    chain: &Chain,
)
    requires usable { IsUsable D.Device desk.old }
    requires group { g < desk.old.store.geo.agcount }
    requires number { number < 16 }
    requires room { vec_len desk.old.book.journal < vec_capacity desk.old.book.journal }
    ensures usable { IsUsable D.Device desk.new }
    ensures steady { IsSteady D.Device desk.old desk.new }
    ensures said { desk.new.book.journal.items ≡ given_on desk.old.book.journal.items chain.now }
{
    let ino = chain.first().ino;
    put_chain(desk, number, None);
    let_go(desk, ino);
    name_tree(desk, kept, g);
    say(
        desk,
        Entry::Given {
            writer: chain.writer(),
            ino,
        },
    );
}
