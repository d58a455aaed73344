// How a first event ends: its entry, and what the chain owes.
ghost use Rattle.std.specs.Prelude.{◌≡◌, ◌<◌, ◌≤◌, ◌+◌, ◌++◌, ◌∷◌, [], OnErr, OnOk};
ghost use Rattle.std.specs.Vec.{vec_capacity, vec_len};
ghost use Rattle.core_parts.specs.Common.Asks.{IsUsable};
ghost use Rattle.core_parts.specs.Keeps.{IsSteady};
ghost use Rattle.core_chains.specs.Write.Writes.{WriteAnswers};
ghost use Rattle.core_files.specs.First.Entries.{piece};
ghost use Rattle.geom.specs.Places.{HasInode};

use crate::first::files::Held;
use crate::first::spots::Spot;
use crate::first::writes::{PlacedCore, write_core};
use blk_device::Device;
use byte_fields::Steps;
use core_calls::WriteFault;
use core_chains::write::put_chain;
use core_parts::Desk;
use core_parts::common::add_entry;
use defer_chain::Chain;
use fs_model::{Entry, Piece};
use std::sync::ledger::Ledger;

/// What an entry tells of a piece of the chain's first file.
pub fn piece_of(held: &Held, offset: u64, spot: &Spot) -> Piece
    ensures { result ≡ piece held.now offset spot.now }
{
    Piece {
        writer: held.chain.writer(),
        chain: held.number,
        ino: held.chain.first().ino,
        offset,
        group: spot.group,
        block: spot.block,
        count: spot.count,
    }
}

/// Adds the event's entry, and puts what the chain owes from now on.
#[tactic(auto, using(core_parts::proofs::common::AskLemmas::adds_usable, core_parts::proofs::common::AskLemmas::adds_steady, core_parts::proofs::common::AskLemmas::steady_on))]
pub fn finish<D: Device>(desk: &mut Desk<D>, number: u32, owing: Chain, entry: Entry)
    requires usable { IsUsable D.Device desk.old }
    requires number { number < 16 }
    requires room { vec_len desk.old.book.journal + 2 ≤ vec_capacity desk.old.book.journal }
    ensures usable { IsUsable D.Device desk.new }
    ensures steady { IsSteady D.Device desk.old desk.new }
    ensures said { desk.new.book.journal.items ≡ desk.old.book.journal.items ++ entry ∷ [] }
{
    add_entry(desk, entry);
    put_chain(desk, number, Some(owing));
}

/// Writes the core of the file, and then ends the event.
#[tactic(auto, using(crate::proofs::first::WriteLemmas::answers_steady))]
pub fn commit_first<D: Device, L: Ledger>(
    desk: &mut Desk<D>,
    number: u32,
    placed: &PlacedCore,
    owing: Chain,
    entry: Entry,
    steps: &mut Steps<L>,
) -> Result<(), WriteFault>
    requires usable { IsUsable D.Device desk.old }
    requires number { number < 16 }
    requires place { HasInode desk.old.store.geo placed.now.place }
    requires room { vec_len desk.old.book.journal + 2 ≤ vec_capacity desk.old.book.journal }
    ensures answers { WriteAnswers D.Device desk.old desk.new result }
    ensures said { OnOk result (desk.new.book.journal.items ≡ desk.old.book.journal.items ++ entry
        ∷ []) }
    ensures unsaid { OnErr result (desk.new.book.journal.items ≡ desk.old.book.journal.items) }
{
    write_core(desk, placed, steps)?;
    finish(desk, number, owing, entry);
    Ok(())
}
