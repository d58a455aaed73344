ghost use Rattle.std.specs.Prelude.{◌≡◌, OnErr, OnOk, replicate};
ghost use Rattle.core_parts.specs.Common.Asks.{IsUsable};
ghost use Rattle.core_notes.specs.Noted.{no_note, note_at, noted, notes_of, with_note};
ghost use Rattle.core_parts.specs.Keeps.{IsSteady};
ghost use Rattle.core_parts.specs.Reasons.{TellsWell};
ghost use Rattle.core_parts.specs.Safe.{IsSafe};
ghost use Rattle.core_chains.specs.Write.Writes.{WriteAnswers, WriteParts};
ghost use Rattle.fsck_core.specs.Acts.{Acts, StaysShut, TellsAll};
ghost use Rattle.fsck_core.specs.Asks.{MayAsk};
ghost use Rattle.fsck_core.specs.Entries.{Says};
ghost use Rattle.fsck_core.specs.Glances.{asker_in, glance_of};
ghost use Rattle.fsck_core.specs.Said.{SaysEvent};
ghost use Rattle.fsck_core.specs.Replies.{IsNoted, reply_asked as reply_asked_of};
ghost use Rattle.intent_drain.specs.Drains.{chains_of};

use crate::calls::answer_of;
use crate::glances::{asker_of, glance};
use crate::writers::tell_made;
use blk_device::Device;
use byte_fields::Steps;
use core_calls::{Answer, Ask, Glance, WriteFault};
use core_chains::write::{chain_room, writer_unshut};
use core_notes::Notes;
use core_parts::common::add_entry;
use core_parts::{Desk, Parts};
use std::alloc::Global;
use std::sync::ledger::Ledger;

/// A core with what is noted of its writers since the last reply to each.
pub struct Core<D: Device> {
    pub parts: Parts<D>,
    pub notes: Notes,
}

/// A core of which nothing is noted yet (XFS Online Fsck Design, "Eventual Consistency").
pub fn with_notes<D: Device>(parts: Parts<D>) -> Core<D>
    ensures parts { result.parts ≡ parts }
    ensures notes { notes_of result.notes ≡ replicate 16 no_note }
{
    Core {
        parts,
        notes: Notes::new(),
    }
}

// Adds the reply to a writer, where there is room for it.
#[tactic(auto, using(core_parts::proofs::common::AskLemmas::same_usable, core_parts::proofs::common::AskLemmas::same_steady, core_parts::proofs::common::AskLemmas::adds_usable, core_parts::proofs::common::AskLemmas::adds_steady, core_parts::proofs::common::AskLemmas::steady_on))]
fn add_reply<D: Device>(
    desk: &mut Desk<D>,
    notes: &mut Notes,
    writer: u32,
    line: u32,
) -> Result<(), WriteFault>
    requires usable { IsUsable D.Device desk.old }
    ensures answers { WriteAnswers D.Device desk.old desk.new result }
    ensures cleared { OnOk result (notes_of notes.new ≡ with_note (notes_of notes.old) writer no_note) }
    ensures same { OnErr result (notes_of notes.new ≡ notes_of notes.old) }
{
    chain_room(desk, 1)?;
    add_entry(desk, notes.reply(writer, line));
    Ok(())
}

// Replies to a writer.
#[tactic(auto, using(core_chains::proofs::write::PartLemmas::desk_parts, core_chains::proofs::write::PartLemmas::same_parts))]
fn note_in<D: Device>(core: &mut Core<D>, writer: u32, line: u32) -> Result<(), WriteFault>
    requires safe { IsSafe D.Device core.old.parts }
    ensures left { WriteParts D.Device core.old.parts core.new.parts result }
    ensures cleared { OnOk result (notes_of core.new.notes ≡ with_note (notes_of core.old.notes) writer no_note) }
    ensures same { OnErr result (notes_of core.new.notes ≡ notes_of core.old.notes) }
{
    match writer_unshut(&core.parts.desk) {
        Ok(()) => add_reply(&mut core.parts.desk, &mut core.notes, writer, line),
        Err(fault) => Err(fault),
    }
}

// Does an event that isn't a reply, and notes it.
fn noted_in<D: Device, L: Ledger>(
    alloc: Global,
    core: &mut Core<D>,
    ask: Ask,
    steps: &mut Steps<L>,
) -> Answer
    requires safe { IsSafe D.Device core.old.parts }
    requires asked { MayAsk core.old.parts.desk.store.geo.agcount ask }
    ensures acted { Acts D.Device core.old.parts core.new.parts result }
    ensures says { Says ask core.old.parts core.new.parts result }
    ensures said { SaysEvent ask result core.old.parts core.new.parts }
    ensures notes { notes_of core.new.notes ≡ with_note (notes_of core.old.notes) (asker_in (chains_of core.old.parts.desk.drain) ask).writer
        (noted (note_at (notes_of core.old.notes) (asker_in (chains_of core.old.parts.desk.drain) ask).writer) ask result (asker_in (chains_of core.old.parts.desk.drain) ask)) }
{
    let who = asker_of(&core.parts.desk.drain, ask);
    let answer = answer_of(alloc, &mut core.parts, ask, steps);
    core.notes.after(ask, answer, who);
    answer
}

// The writer to whom a reply is asked for, and the line of its script.
fn reply_asked(ask: Ask) -> Option<(u32, u32)>
    ensures { result ≡ reply_asked_of ask }
{
    match ask {
        Ask::Note { writer, line } => Some((writer, line)),
        _ => None,
    }
}

// Does one event.
#[tactic(auto, using(crate::proofs::WriterLemmas::made_acts, crate::proofs::ReplyLemmas::reply_noted, crate::proofs::ReplyLemmas::event_noted, crate::proofs::SayLemmas::reply_says, crate::proofs::SaidLemmas::note_said))]
fn event_in<D: Device, L: Ledger>(
    alloc: Global,
    core: &mut Core<D>,
    ask: Ask,
    steps: &mut Steps<L>,
) -> Answer
    requires safe { IsSafe D.Device core.old.parts }
    requires asked { MayAsk core.old.parts.desk.store.geo.agcount ask }
    ensures acted { Acts D.Device core.old.parts core.new.parts result }
    ensures says { Says ask core.old.parts core.new.parts result }
    ensures said { SaysEvent ask result core.old.parts core.new.parts }
    ensures noted { IsNoted (notes_of core.old.notes) (notes_of core.new.notes) (asker_in (chains_of core.old.parts.desk.drain) ask) ask result }
{
    match reply_asked(ask) {
        Some((writer, line)) => tell_made(note_in(core, writer, line)),
        None => noted_in(alloc, core, ask, steps),
    }
}

/// Does one event of the core, of a writer or the scrubber, and answers it, with what the accessors tell
/// behind it. What a writer did and was refused is noted, and a `note` replies with it
/// (XFS Online Fsck Design, "Eventual Consistency" and "Metadata Scrubbing").
#[tactic(auto, using(crate::proofs::ToldLemmas::tells_well))]
pub fn run_event<D: Device, L: Ledger>(
    alloc: Global,
    core: &mut Core<D>,
    ask: Ask,
    steps: &mut Steps<L>,
) -> (Answer, Glance)
    requires safe { IsSafe D.Device core.old.parts }
    requires asked { MayAsk core.old.parts.desk.store.geo.agcount ask }
    ensures safe { IsSafe D.Device core.new.parts }
    ensures steady { IsSteady D.Device core.old.parts.desk core.new.parts.desk }
    ensures told { TellsWell core.new.parts.desk result.0 }
    ensures all { TellsAll core.new.parts.desk result.0 }
    ensures shut { StaysShut core.old.parts.desk core.new.parts.desk }
    ensures says { Says ask core.old.parts core.new.parts result.0 }
    ensures said { SaysEvent ask result.0 core.old.parts core.new.parts }
    ensures glance { result.1 ≡ glance_of core.new.parts ask result.0 }
    ensures noted { IsNoted (notes_of core.old.notes) (notes_of core.new.notes) (asker_in (chains_of core.old.parts.desk.drain) ask) ask result.0 }
{
    let answer = event_in(alloc, core, ask, steps);
    (answer, glance(&core.parts, ask, answer))
}
