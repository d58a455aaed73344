// How a chain begins.
ghost use Rattle.std.specs.Prelude.{◌≡◌, ◌<◌, IfOk, length};
ghost use Rattle.core_parts.specs.Common.Asks.{IsUsable};
ghost use Rattle.core_parts.specs.Keeps.{IsSteady};
ghost use Rattle.core_parts.specs.Safe.{IsSafe};
ghost use Rattle.core_chains.specs.Write.Writes.{WriteAnswers, WriteParts, WritesWell};
ghost use Rattle.intent_drain.specs.Drains.{gates_of};

use crate::chains::finds::check_inode;
use crate::chains::holders::is_held;
use crate::holds::opened_drain;
use crate::write::{writer_room, writer_unshut};
use blk_device::Device;
use byte_fields::Steps;
use core_calls::WriteFault;
use core_parts::{Desk, GroupKept, Parts, UnitState};
use defer_chain::{Chain, ChainInode};
use intent_drain::Drain;
use std::alloc::Global;
use std::sync::ledger::Ledger;

// What is asked for: a chain of this writer that holds these inodes, which differ.
#[derive(Clone, Copy)]
struct Wanted {
    writer: u32,
    first: u64,
    second: Option<u64>,
}

// The inodes of a chain.
#[derive(Clone, Copy)]
struct Pair {
    first: ChainInode,
    second: Option<ChainInode>,
}

// The second inode, where it isn't the first.
fn other_of(first: u64, second: Option<u64>) -> Option<u64> {
    match second {
        Some(ino) => { if ino == first { None } else { Some(ino) } }
        None => None,
    }
}

// The lowest number that no chain has.
fn free_number<D: Device>(desk: &Desk<D>) -> Result<u32, WriteFault>
    ensures number { IfOk result (λ number. number < 16) }
    ensures reason { WritesWell desk.now result }
{
    match desk.drain.free_number() {
        Some(number) => Ok(number),
        None => Err(WriteFault::Crowded),
    }
}

// The second inode, where one is asked for.
#[tactic(auto, using(crate::proofs::write::PartLemmas::answers_self))]
fn check_second<D: Device, L: Ledger>(
    desk: &mut Desk<D>,
    groups: &[GroupKept],
    second: Option<u64>,
    steps: &mut Steps<L>,
) -> Result<Option<ChainInode>, WriteFault>
    requires usable { IsUsable D.Device desk.old }
    requires groups { length groups.now ≡ desk.old.store.geo.agcount }
    ensures answers { WriteAnswers D.Device desk.old desk.new result }
    ensures geometry { desk.new.store.geo ≡ desk.old.store.geo }
    ensures items { desk.new.book.journal.items ≡ desk.old.book.journal.items }
{
    let Some(ino) = second else {
        return Ok(None);
    };
    match check_inode(desk, groups, ino, steps) {
        Ok(found) => Ok(Some(found)),
        Err(fault) => Err(fault),
    }
}

// Both inodes, where each is a file.
#[tactic(auto, using(crate::proofs::write::PartLemmas::answers_on))]
fn check_pair<D: Device, L: Ledger>(
    desk: &mut Desk<D>,
    groups: &[GroupKept],
    wanted: &Wanted,
    steps: &mut Steps<L>,
) -> Result<Pair, WriteFault>
    requires usable { IsUsable D.Device desk.old }
    requires groups { length groups.now ≡ desk.old.store.geo.agcount }
    ensures answers { WriteAnswers D.Device desk.old desk.new result }
    ensures items { desk.new.book.journal.items ≡ desk.old.book.journal.items }
{
    let first = check_inode(desk, groups, wanted.first, steps)?;
    match check_second(desk, groups, wanted.second, steps) {
        Ok(second) => Ok(Pair { first, second }),
        Err(fault) => Err(fault),
    }
}

// The inode, where it is held.
fn busy_one<D: Device>(desk: &Desk<D>, units: &[Option<UnitState>], ino: u64) -> Option<u64> {
    if is_held(&desk.drain, units, ino) {
        return Some(ino);
    }
    None
}

// The lower of the two that is held.
fn busy_of<D: Device>(desk: &Desk<D>, units: &[Option<UnitState>], wanted: &Wanted) -> Option<u64> {
    let Some(second) = wanted.second else {
        return busy_one(desk, units, wanted.first);
    };
    let lower = busy_one(desk, units, wanted.first.min(second));
    lower.or(busy_one(desk, units, wanted.first.max(second)))
}

// Nobody holds the inodes.
fn are_free<D: Device>(
    desk: &Desk<D>,
    units: &[Option<UnitState>],
    wanted: &Wanted,
) -> Result<(), WriteFault>
    ensures reason { WritesWell desk.now result }
{
    match busy_of(desk, units, wanted) {
        Some(ino) => Err(WriteFault::Busy(ino)),
        None => Ok(()),
    }
}

// The desk with these gates, chains and holds.
#[tactic(auto, using(crate::proofs::chains::DrainLemmas::drain_usable, crate::proofs::write::ChainLemmas::put_steady))]
fn put_drain<D: Device>(desk: &mut Desk<D>, drain: Drain)
    requires usable { IsUsable D.Device desk.old }
    requires gates { length (gates_of drain) ≡ desk.old.store.geo.agcount }
    ensures usable { IsUsable D.Device desk.new }
    ensures steady { IsSteady D.Device desk.old desk.new }
    ensures book { desk.new.book ≡ desk.old.book }
{
    desk.drain = drain;
}

// Opens the chain under a number that none has; it holds its inodes.
#[tactic(auto, using(crate::proofs::write::PartLemmas::answers_self))]
fn open_held<D: Device>(
    alloc: Global,
    desk: &mut Desk<D>,
    chain: Chain,
    number: u32,
) -> Result<u32, WriteFault>
    requires usable { IsUsable D.Device desk.old }
    requires number { number < 16 }
    ensures answers { WriteAnswers D.Device desk.old desk.new result }
    ensures number { IfOk result (λ chain. chain < 16) }
    ensures items { desk.new.book.journal.items ≡ desk.old.book.journal.items }
{
    let groups = desk.store.geo.agcount;
    match opened_drain(alloc, &desk.drain, groups, number, chain) {
        Ok(drain) => {
            put_drain(desk, drain);
            Ok(number)
        }
        Err(_) => Err(WriteFault::Memory),
    }
}

// Opens the chain under a number that none has, where nobody holds the inodes.
#[tactic(auto, using(crate::proofs::write::PartLemmas::answers_self))]
fn open_free<D: Device>(
    alloc: Global,
    desk: &mut Desk<D>,
    units: &[Option<UnitState>],
    wanted: &Wanted,
    pair: Pair,
    number: u32,
) -> Result<u32, WriteFault>
    requires usable { IsUsable D.Device desk.old }
    requires number { number < 16 }
    ensures answers { WriteAnswers D.Device desk.old desk.new result }
    ensures number { IfOk result (λ chain. chain < 16) }
    ensures items { desk.new.book.journal.items ≡ desk.old.book.journal.items }
{
    are_free(desk, units, wanted)?;
    let chain = Chain::new(wanted.writer, pair.first, pair.second);
    open_held(alloc, desk, chain, number)
}

// Opens the chain under a number that none has.
#[tactic(auto, using(crate::proofs::write::PartLemmas::answers_on))]
fn open_chain<D: Device, L: Ledger>(
    alloc: Global,
    desk: &mut Desk<D>,
    groups: &[GroupKept],
    units: &[Option<UnitState>],
    wanted: &Wanted,
    number: u32,
    steps: &mut Steps<L>,
) -> Result<u32, WriteFault>
    requires usable { IsUsable D.Device desk.old }
    requires groups { length groups.now ≡ desk.old.store.geo.agcount }
    requires number { number < 16 }
    ensures answers { WriteAnswers D.Device desk.old desk.new result }
    ensures number { IfOk result (λ chain. chain < 16) }
    ensures items { desk.new.book.journal.items ≡ desk.old.book.journal.items }
{
    let pair = check_pair(desk, groups, wanted, steps)?;
    open_free(alloc, desk, units, wanted, pair, number)
}

// The journal isn't full.
#[tactic(auto, using(core_parts::proofs::common::AskLemmas::same_usable, core_parts::proofs::common::AskLemmas::same_steady, core_parts::proofs::common::AskLemmas::same_desk))]
fn has_room<D: Device>(desk: &mut Desk<D>) -> Result<(), WriteFault>
    requires usable { IsUsable D.Device desk.old }
    ensures answers { WriteAnswers D.Device desk.old desk.new result }
    ensures geometry { desk.new.store.geo ≡ desk.old.store.geo }
    ensures items { desk.new.book.journal.items ≡ desk.old.book.journal.items }
{
    writer_room(desk, 0)
}

// Begins the chain, where no fault of the device was noted.
#[tactic(auto, using(crate::proofs::write::PartLemmas::answers_on))]
fn begin_usable<D: Device, L: Ledger>(
    alloc: Global,
    desk: &mut Desk<D>,
    groups: &[GroupKept],
    units: &[Option<UnitState>],
    wanted: &Wanted,
    steps: &mut Steps<L>,
) -> Result<u32, WriteFault>
    requires usable { IsUsable D.Device desk.old }
    requires groups { length groups.now ≡ desk.old.store.geo.agcount }
    ensures answers { WriteAnswers D.Device desk.old desk.new result }
    ensures number { IfOk result (λ chain. chain < 16) }
    ensures items { desk.new.book.journal.items ≡ desk.old.book.journal.items }
{
    has_room(desk)?;
    let number = free_number(desk)?;
    open_chain(alloc, desk, groups, units, wanted, number, steps)
}

/// Begins a chain of a writer, which holds one or two inodes until it ends, and answers its number: the
/// lowest that no open chain has. It is refused, in this order, with Shut, JournalFull, Crowded (16 chains
/// are open), NoFile (the first inode, then the second), and Busy (an inode is held; the lower number
/// first); Memory where the holds have no room (XFS Online Fsck Design, "Eventual Consistency").
#[tactic(auto, using(crate::proofs::write::PartLemmas::desk_parts, crate::proofs::write::PartLemmas::same_parts))]
pub fn begin<D: Device, L: Ledger>(
    alloc: Global,
    parts: &mut Parts<D>,
    writer: u32,
    first: u64,
    second: Option<u64>,
    steps: &mut Steps<L>,
) -> Result<u32, WriteFault>
    requires safe { IsSafe D.Device parts.old }
    ensures left { WriteParts D.Device parts.old parts.new result }
    ensures number { IfOk result (λ chain. chain < 16) }
    ensures said { parts.new.desk.book.journal.items ≡ parts.old.desk.book.journal.items }
{
    writer_unshut(&parts.desk)?;
    let wanted = Wanted {
        writer,
        first,
        second: other_of(first, second),
    };
    begin_usable(
        alloc,
        &mut parts.desk,
        parts.groups.as_slice(),
        parts.units.as_slice(),
        &wanted,
        steps,
    )
}
