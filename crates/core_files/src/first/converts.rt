ghost use Rattle.std.specs.Prelude.{◌≡◌, ◌<◌, ◌≤◌, ◌+◌, ◌++◌, ◌∷◌, [], IfOk, OnErr, OnOk, length};
ghost use Rattle.std.specs.Vec.{vec_capacity, vec_len};
ghost use Rattle.core_parts.specs.Common.Asks.{IsUsable};
ghost use Rattle.core_files.specs.First.Entries.{HasPiece, SaysPiece, piece};
ghost use Rattle.core_files.specs.First.Spots.{IsSpot};
ghost use Rattle.core_parts.specs.Safe.{IsSafe};
ghost use Rattle.core_chains.specs.Write.Writes.{WriteAnswers, WriteParts, WritesWell};
ghost use Rattle.file_cores.specs.Files.{IsFile};
ghost use Rattle.fs_model.specs.declared.entry.Entry.TheVariants as entries;
ghost use Rattle.intent_drain.specs.Drains.{gates_of};

use crate::first::commits::{commit_first, finish, piece_of};
use crate::first::files::{Held, HeldFile, held_file};
use crate::first::lists::{Range, convert_piece, filled};
use crate::first::refusals::piece_spot;
use crate::first::room::MOST_PIECE;
use crate::first::spots::{OwnerDue, Spot, owing_owner};
use crate::first::writes::PlacedCore;
use blk_device::Device;
use byte_fields::Steps;
use core_calls::WriteFault;
use core_chains::write::writer_unshut;
use core_parts::{Desk, GroupKept, Parts};
use dinode_core::Core3;
use file_cores::File;
use fs_model::Entry;
use fs_state::IntentKind;
use std::alloc::Global;
use std::sync::ledger::Ledger;

// A piece of a file that was made written: where its blocks lie, whether they weren't written before, and
// the file's core with it.
#[derive(Clone, Copy)]
struct Converted {
    spot: Spot,
    was_unwritten: bool,
    core: Core3,
}

// Makes a piece of the file's list written, where the group of it allows that.
fn convert_in<D: Device>(
    alloc: Global,
    desk: &Desk<D>,
    groups: &[GroupKept],
    file: &mut File,
    range: Range,
) -> Result<Converted, WriteFault>
    requires gates { length (gates_of desk.now.drain) ≡ desk.now.store.geo.agcount }
    requires groups { length groups.now ≡ desk.now.store.geo.agcount }
    requires file { IsFile desk.now.store.geo file.old }
    requires some { 0 < range.count }
    ensures file { IsFile desk.now.store.geo file.new }
    ensures spot { IfOk result (λ c. IsSpot desk.now.store.geo c.spot) }
    ensures reason { WritesWell desk.now result }
{
    let piece = convert_piece(alloc, desk, file, range)?;
    let spot = piece_spot(desk, groups, &piece)?;
    let core = filled(desk, file)?;
    Ok(Converted {
        spot,
        was_unwritten: piece.unwritten,
        core,
    })
}

// Writes the file with the piece, of which the chain owes reverse mappings that it is written.
#[tactic(auto, using(crate::proofs::first::SaidLemmas::entry_as))]
fn write_converted<D: Device, L: Ledger>(
    desk: &mut Desk<D>,
    held: &Held,
    file: &File,
    offset: u64,
    done: &Converted,
    steps: &mut Steps<L>,
) -> Result<(), WriteFault>
    requires usable { IsUsable D.Device desk.old }
    requires number { held.now.number < 16 }
    requires file { IsFile desk.old.store.geo file.now }
    requires spot { IsSpot desk.old.store.geo done.now.spot }
    requires room { vec_len desk.old.book.journal + 2 ≤ vec_capacity desk.old.book.journal }
    ensures answers { WriteAnswers D.Device desk.old desk.new result }
    ensures said { OnOk result (desk.new.book.journal.items ≡ desk.old.book.journal.items ++
        entries.Converted (piece held.now offset done.now.spot) ∷ []) }
    ensures unsaid { OnErr result (desk.new.book.journal.items ≡ desk.old.book.journal.items) }
{
    let due = OwnerDue {
        kind: IntentKind::RmapChange,
        ino: held.chain.first().ino,
        word: offset,
    };
    let owing = owing_owner(&held.chain, &due, &done.spot);
    let entry = Entry::Converted(piece_of(held, offset, &done.spot));
    let placed = PlacedCore {
        place: file.place,
        core: done.core,
    };
    commit_first(desk, held.number, &placed, owing, entry, steps)
}

// Ends the event: a piece that was written already changes nothing, and counts as done.
#[tactic(auto, using(core_chains::proofs::write::PartLemmas::answers_self))]
fn end_converted<D: Device, L: Ledger>(
    desk: &mut Desk<D>,
    held: &Held,
    file: &File,
    offset: u64,
    done: &Converted,
    steps: &mut Steps<L>,
) -> Result<(), WriteFault>
    requires usable { IsUsable D.Device desk.old }
    requires number { held.now.number < 16 }
    requires file { IsFile desk.old.store.geo file.now }
    requires spot { IsSpot desk.old.store.geo done.now.spot }
    requires room { vec_len desk.old.book.journal + 2 ≤ vec_capacity desk.old.book.journal }
    ensures answers { WriteAnswers D.Device desk.old desk.new result }
    ensures said { OnOk result (desk.new.book.journal.items ≡ desk.old.book.journal.items ++
        entries.Converted (piece held.now offset done.now.spot) ∷ []) }
    ensures unsaid { OnErr result (desk.new.book.journal.items ≡ desk.old.book.journal.items) }
{
    if done.was_unwritten {
        return write_converted(desk, held, file, offset, done, steps);
    }
    let entry = Entry::Converted(piece_of(held, offset, &done.spot));
    finish(desk, held.number, held.chain, entry);
    Ok(())
}

// Makes a piece of the chain's first file written.
#[tactic(auto, using(core_chains::proofs::write::PartLemmas::answers_self, crate::proofs::first::SaidLemmas::piece_said))]
fn convert_file<D: Device, L: Ledger>(
    alloc: Global,
    desk: &mut Desk<D>,
    groups: &[GroupKept],
    mut of: HeldFile,
    range: Range,
    steps: &mut Steps<L>,
) -> Result<u32, WriteFault>
    requires usable { IsUsable D.Device desk.old }
    requires groups { length groups.now ≡ desk.old.store.geo.agcount }
    requires number { of.held.number < 16 }
    requires file { IsFile desk.old.store.geo of.file }
    requires some { 0 < range.count }
    requires room { vec_len desk.old.book.journal + 2 ≤ vec_capacity desk.old.book.journal }
    ensures answers { WriteAnswers D.Device desk.old desk.new result }
    ensures said { IfOk result (λ n. SaysPiece entries.Converted desk.old.store.geo of.held
        range.offset n desk.old.book.journal.items desk.new.book.journal.items) }
    ensures unsaid { OnErr result (desk.new.book.journal.items ≡ desk.old.book.journal.items) }
{
    let done = convert_in(alloc, desk, groups, &mut of.file, range)?;
    match end_converted(desk, &of.held, &of.file, range.offset, &done, steps) {
        Ok(()) => Ok(done.spot.count),
        Err(fault) => Err(fault),
    }
}

// Makes a piece of the first file of this chain written, where no fault of the device was noted.
#[tactic(auto, using(core_chains::proofs::write::PartLemmas::answers_on, core_chains::proofs::write::PartLemmas::answers_self, crate::proofs::first::SaidLemmas::held_piece, core_chains::proofs::write::SaysLemmas::unsaid_on))]
fn convert_usable<D: Device, L: Ledger>(
    alloc: Global,
    desk: &mut Desk<D>,
    groups: &[GroupKept],
    chain: u32,
    range: Range,
    steps: &mut Steps<L>,
) -> Result<u32, WriteFault>
    requires usable { IsUsable D.Device desk.old }
    requires groups { length groups.now ≡ desk.old.store.geo.agcount }
    ensures answers { WriteAnswers D.Device desk.old desk.new result }
    ensures said { IfOk result (λ n. HasPiece entries.Converted chain range.offset n desk.old
        desk.new) }
    ensures unsaid { OnErr result (desk.new.book.journal.items ≡ desk.old.book.journal.items) }
{
    // Never asked.
    if range.count == 0 {
        return Err(WriteFault::Memory);
    }
    let of = held_file(alloc, desk, chain, steps)?;
    convert_file(alloc, desk, groups, of, range, steps)
}

/// Makes the piece of one mapping that begins at an offset of the chain's first file written, `count` and
/// 1,024 blocks at most, and answers its blocks. The chain owes that to reverse mappings; a piece that is
/// written already changes nothing, and counts as done. It is refused, in this order, with Shut, NoChain,
/// OtherStep, TreeFork, Hole (the offset isn't mapped), Closing and Sick of the piece's group, and
/// ForkFull; then nothing changes (XFS Algorithms and Data Structures, "Data Extents").
#[tactic(auto, using(core_chains::proofs::write::PartLemmas::desk_parts, core_chains::proofs::write::PartLemmas::same_parts))]
pub fn convert_first<D: Device, L: Ledger>(
    alloc: Global,
    parts: &mut Parts<D>,
    chain: u32,
    offset: u64,
    count: u32,
    steps: &mut Steps<L>,
) -> Result<u32, WriteFault>
    requires safe { IsSafe D.Device parts.old }
    ensures left { WriteParts D.Device parts.old parts.new result }
    ensures said { IfOk result (λ n. HasPiece entries.Converted chain offset n parts.old.desk
        parts.new.desk) }
    ensures unsaid { OnErr result (parts.new.desk.book.journal.items ≡
        parts.old.desk.book.journal.items) }
{
    writer_unshut(&parts.desk)?;
    let range = Range {
        offset,
        count: count.min(MOST_PIECE),
    };
    convert_usable(
        alloc,
        &mut parts.desk,
        parts.groups.as_slice(),
        chain,
        range,
        steps,
    )
}
