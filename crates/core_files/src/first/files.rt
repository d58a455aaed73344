// The chain of a first event, with its first file.
ghost use Rattle.std.specs.Prelude.{◌≡◌, ◌<◌, ◌≤◌, ◌+◌, IfOk, OnOk};
ghost use Rattle.std.specs.Vec.{vec_capacity, vec_len};
ghost use Rattle.core_parts.specs.Common.Asks.{IsUsable};
ghost use Rattle.core_chains.specs.Write.Writes.{WriteAnswers};
ghost use Rattle.core_files.specs.First.Entries.{IsHeld};
ghost use Rattle.file_cores.specs.Files.{IsFile};

use crate::first::room::take_room;
use blk_device::Device;
use byte_fields::Steps;
use core_calls::WriteFault;
use core_chains::chains::read_inode;
use core_chains::write::idle_chain;
use core_parts::Desk;
use defer_chain::Chain;
use file_cores::File;
use std::alloc::Global;
use std::sync::ledger::Ledger;

/// A chain that owes nothing, with its number.
#[derive(Clone, Copy)]
pub struct Held {
    pub number: u32,
    pub chain: Chain,
}

/// The same with its first file.
#[derive(Drop)]
pub struct HeldFile {
    pub held: Held,
    pub file: File,
}

// The file of an inode, once the journal has room for all that is due.
#[tactic(auto, using(core_chains::proofs::write::PartLemmas::answers_on, crate::proofs::first::WriteLemmas::file_on))]
fn file_with_room<D: Device, L: Ledger>(
    alloc: Global,
    desk: &mut Desk<D>,
    ino: u64,
    steps: &mut Steps<L>,
) -> Result<File, WriteFault>
    requires usable { IsUsable D.Device desk.old }
    ensures answers { WriteAnswers D.Device desk.old desk.new result }
    ensures file { IfOk result (IsFile desk.new.store.geo) }
    ensures room { OnOk result (vec_len desk.new.book.journal + 2 ≤ vec_capacity desk.new.book.journal) }
    ensures geometry { desk.new.store.geo ≡ desk.old.store.geo }
    ensures items { desk.new.book.journal.items ≡ desk.old.book.journal.items }
{
    take_room(desk)?;
    read_inode(alloc, desk, ino, steps)
}

/// The chain of this number, which owes nothing, with its first file, once the journal has room for all that
/// is due: NoChain, OtherStep, NoFile and TreeFork, in this order.
#[tactic(auto, using(core_chains::proofs::write::PartLemmas::answers_self))]
pub fn held_file<D: Device, L: Ledger>(
    alloc: Global,
    desk: &mut Desk<D>,
    number: u32,
    steps: &mut Steps<L>,
) -> Result<HeldFile, WriteFault>
    requires usable { IsUsable D.Device desk.old }
    ensures answers { WriteAnswers D.Device desk.old desk.new result }
    ensures file { IfOk result (λ of. IsFile desk.new.store.geo of.file) }
    ensures number { IfOk result (λ of. of.held.number < 16) }
    ensures room { OnOk result (vec_len desk.new.book.journal + 2 ≤ vec_capacity desk.new.book.journal) }
    ensures geometry { desk.new.store.geo ≡ desk.old.store.geo }
    ensures held { IfOk result (λ of. IsHeld desk.old number of.held) }
    ensures items { desk.new.book.journal.items ≡ desk.old.book.journal.items }
{
    let chain = idle_chain(desk, number)?;
    let held = Held { number, chain };
    match file_with_room(alloc, desk, chain.first().ino, steps) {
        Ok(file) => Ok(HeldFile { held, file }),
        Err(fault) => Err(fault),
    }
}
