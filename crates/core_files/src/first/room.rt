// Room in the journal for all that chains owe.
ghost use Rattle.std.specs.Prelude.{◌≡◌, ◌≤◌, ◌+◌, OnOk};
ghost use Rattle.std.specs.Vec.{vec_capacity, vec_len};
ghost use Rattle.core_parts.specs.Common.Asks.{IsUsable};
ghost use Rattle.core_chains.specs.Write.Writes.{WriteAnswers};

use blk_device::Device;
use core_calls::WriteFault;
use core_chains::write::chain_room;
use core_parts::Desk;
use defer_chain::Due;
use intent_drain::{Drain, MOST_CHAINS};

/// A piece of a mapping has so many blocks at most.
pub const MOST_PIECE: u32 = 1024;

// So many entries the steps of a first event may add: two for reverse mappings, and six for each block
// whose count falls.
const MOST_OWN: u64 = 2 + 6 * MOST_PIECE as u64;

// No more entries than this are ever due.
const MOST_DUE: u64 = 1 << 32;

// How many entries the steps of the chain of this number may add.
fn due_of(drain: &Drain, number: u32) -> u64 {
    match drain.chain(number) {
        Some(chain) => chain.due(Due::Entries),
        None => 0,
    }
}

// How many entries the steps of all chains may add.
fn due_of_all(drain: &Drain) -> u64 {
    let mut due: u64 = 0;
    for number in 0..MOST_CHAINS as u32 {
        due = due.saturating_add(due_of(drain, number));
    }
    due
}

/// Room in the journal for a first event's own entry or two marks, and for all that chains owe then.
#[tactic(auto, using(core_parts::proofs::common::AskLemmas::same_usable, core_parts::proofs::common::AskLemmas::same_steady, core_parts::proofs::common::AskLemmas::same_desk, core_chains::proofs::write::PartLemmas::answers_self))]
pub fn take_room<D: Device>(desk: &mut Desk<D>) -> Result<(), WriteFault>
    requires usable { IsUsable D.Device desk.old }
    ensures answers { WriteAnswers D.Device desk.old desk.new result }
    ensures room { OnOk result (vec_len desk.new.book.journal + 2 ≤ vec_capacity desk.new.book.journal) }
    ensures geometry { desk.new.store.geo ≡ desk.old.store.geo }
    ensures items { desk.new.book.journal.items ≡ desk.old.book.journal.items }
{
    let due = due_of_all(&desk.drain).saturating_add(MOST_OWN);
    // Never: each of 16 chains owes some thousand entries at most.
    if due > MOST_DUE {
        return Err(WriteFault::Memory);
    }
    chain_room(desk, due as usize + 2)
}
