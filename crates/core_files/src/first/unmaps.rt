ghost use Rattle.std.specs.Prelude.{◌≡◌, ◌<◌, ◌≤◌, ◌+◌, ◌++◌, ◌∷◌, [], IfOk, OnErr, OnOk, length};
ghost use Rattle.std.specs.Vec.{vec_capacity, vec_len};
ghost use Rattle.core_parts.specs.Common.Asks.{IsUsable};
ghost use Rattle.core_files.specs.First.Entries.{HasPiece, HasStripped, SaysPiece, SaysStripped, piece};
ghost use Rattle.core_files.specs.First.Spots.{IsSpot};
ghost use Rattle.core_parts.specs.Safe.{IsSafe};
ghost use Rattle.core_chains.specs.Write.Writes.{WriteAnswers, WriteParts, WritesWell};
ghost use Rattle.file_cores.specs.Files.{IsFile};
ghost use Rattle.fs_model.specs.declared.entry.Entry.TheVariants as entries;
ghost use Rattle.intent_drain.specs.Drains.{gates_of};

use crate::first::commits::{commit_first, piece_of};
use crate::first::files::{Held, HeldFile, held_file};
use crate::first::lists::{Range, filled, take_piece};
use crate::first::refusals::piece_spot;
use crate::first::room::MOST_PIECE;
use crate::first::spots::{OwnerDue, Spot, owing_both, word_of};
use crate::first::writes::PlacedCore;
use blk_device::Device;
use byte_fields::Steps;
use core_calls::WriteFault;
use core_chains::write::writer_unshut;
use core_parts::{Desk, GroupKept, Parts};
use dinode_core::{Core3, Fork, is_fork_absent};
use file_cores::File;
use fs_model::Entry;
use fs_state::IntentKind;
use std::alloc::Global;
use std::sync::ledger::Ledger;

// A piece that was taken out of a file: where its blocks lie, its offset word, and the file's core without
// it.
#[derive(Clone, Copy)]
struct Unmapped {
    spot: Spot,
    word: u64,
    core: Core3,
}

// Takes a piece out of the file's list, where the group of it allows that.
fn unmap_in<D: Device>(
    alloc: Global,
    desk: &Desk<D>,
    groups: &[GroupKept],
    file: &mut File,
    range: Range,
) -> Result<Unmapped, WriteFault>
    requires gates { length (gates_of desk.now.drain) ≡ desk.now.store.geo.agcount }
    requires groups { length groups.now ≡ desk.now.store.geo.agcount }
    requires file { IsFile desk.now.store.geo file.old }
    requires some { 0 < range.count }
    ensures file { IsFile desk.now.store.geo file.new }
    ensures spot { IfOk result (λ u. IsSpot desk.now.store.geo u.spot) }
    ensures reason { WritesWell desk.now result }
{
    let piece = take_piece(alloc, desk, file, range)?;
    let spot = piece_spot(desk, groups, &piece)?;
    let mut core = filled(desk, file)?;
    core.nblocks = core.nblocks.wrapping_sub(u64::from(spot.count));
    Ok(Unmapped {
        spot,
        word: word_of(range.offset, piece.unwritten),
        core,
    })
}

// Writes the file without the piece, which the chain owes to reverse mappings and reference counts.
#[tactic(auto, using(crate::proofs::first::SaidLemmas::entry_as))]
fn write_unmapped<D: Device, L: Ledger>(
    desk: &mut Desk<D>,
    held: &Held,
    file: &File,
    offset: u64,
    done: &Unmapped,
    steps: &mut Steps<L>,
) -> Result<(), WriteFault>
    requires usable { IsUsable D.Device desk.old }
    requires number { held.now.number < 16 }
    requires file { IsFile desk.old.store.geo file.now }
    requires spot { IsSpot desk.old.store.geo done.now.spot }
    requires room { vec_len desk.old.book.journal + 2 ≤ vec_capacity desk.old.book.journal }
    ensures answers { WriteAnswers D.Device desk.old desk.new result }
    ensures said { OnOk result (desk.new.book.journal.items ≡ desk.old.book.journal.items ++
        entries.Unmapped (piece held.now offset done.now.spot) ∷ []) }
    ensures unsaid { OnErr result (desk.new.book.journal.items ≡ desk.old.book.journal.items) }
{
    let due = OwnerDue {
        kind: IntentKind::RmapRemove,
        ino: held.chain.first().ino,
        word: done.word,
    };
    let owing = owing_both(&held.chain, &due, IntentKind::RefLess, &done.spot);
    let entry = Entry::Unmapped(piece_of(held, offset, &done.spot));
    let placed = PlacedCore {
        place: file.place,
        core: done.core,
    };
    commit_first(desk, held.number, &placed, owing, entry, steps)
}

// Takes a piece out of the chain's first file.
#[tactic(auto, using(core_chains::proofs::write::PartLemmas::answers_self, crate::proofs::first::SaidLemmas::piece_said))]
fn unmap_file<D: Device, L: Ledger>(
    alloc: Global,
    desk: &mut Desk<D>,
    groups: &[GroupKept],
    mut of: HeldFile,
    range: Range,
    steps: &mut Steps<L>,
) -> Result<u32, WriteFault>
    requires usable { IsUsable D.Device desk.old }
    requires groups { length groups.now ≡ desk.old.store.geo.agcount }
    requires number { of.held.number < 16 }
    requires file { IsFile desk.old.store.geo of.file }
    requires some { 0 < range.count }
    requires room { vec_len desk.old.book.journal + 2 ≤ vec_capacity desk.old.book.journal }
    ensures answers { WriteAnswers D.Device desk.old desk.new result }
    ensures said { IfOk result (λ n. SaysPiece entries.Unmapped desk.old.store.geo of.held
        range.offset n desk.old.book.journal.items desk.new.book.journal.items) }
    ensures unsaid { OnErr result (desk.new.book.journal.items ≡ desk.old.book.journal.items) }
{
    let done = unmap_in(alloc, desk, groups, &mut of.file, range)?;
    match write_unmapped(desk, &of.held, &of.file, range.offset, &done, steps) {
        Ok(()) => Ok(done.spot.count),
        Err(fault) => Err(fault),
    }
}

// Takes a piece out of the first file of this chain, where no fault of the device was noted.
#[tactic(auto, using(core_chains::proofs::write::PartLemmas::answers_on, core_chains::proofs::write::PartLemmas::answers_self, crate::proofs::first::SaidLemmas::held_piece, core_chains::proofs::write::SaysLemmas::unsaid_on))]
fn unmap_usable<D: Device, L: Ledger>(
    alloc: Global,
    desk: &mut Desk<D>,
    groups: &[GroupKept],
    chain: u32,
    range: Range,
    steps: &mut Steps<L>,
) -> Result<u32, WriteFault>
    requires usable { IsUsable D.Device desk.old }
    requires groups { length groups.now ≡ desk.old.store.geo.agcount }
    ensures answers { WriteAnswers D.Device desk.old desk.new result }
    ensures said { IfOk result (λ n. HasPiece entries.Unmapped chain range.offset n desk.old
        desk.new) }
    ensures unsaid { OnErr result (desk.new.book.journal.items ≡ desk.old.book.journal.items) }
{
    // Never asked.
    if range.count == 0 {
        return Err(WriteFault::Memory);
    }
    let of = held_file(alloc, desk, chain, steps)?;
    unmap_file(alloc, desk, groups, of, range, steps)
}

/// Takes the piece of one mapping that begins at an offset out of the chain's first file, `count` and 1,024
/// blocks at most, and answers its blocks. The chain owes their owner to reverse mappings, and then their
/// count. It is refused, in this order, with Shut, NoChain, OtherStep, TreeFork, Hole (the offset isn't
/// mapped), Closing and Sick of the piece's group, and ForkFull; then nothing changes
/// (XFS Algorithms and Data Structures, "Data Extents").
#[tactic(auto, using(core_chains::proofs::write::PartLemmas::desk_parts, core_chains::proofs::write::PartLemmas::same_parts))]
pub fn unmap_first<D: Device, L: Ledger>(
    alloc: Global,
    parts: &mut Parts<D>,
    chain: u32,
    offset: u64,
    count: u32,
    steps: &mut Steps<L>,
) -> Result<u32, WriteFault>
    requires safe { IsSafe D.Device parts.old }
    ensures left { WriteParts D.Device parts.old parts.new result }
    ensures said { IfOk result (λ n. HasPiece entries.Unmapped chain offset n parts.old.desk
        parts.new.desk) }
    ensures unsaid { OnErr result (parts.new.desk.book.journal.items ≡
        parts.old.desk.book.journal.items) }
{
    writer_unshut(&parts.desk)?;
    let range = Range {
        offset,
        count: count.min(MOST_PIECE),
    };
    unmap_usable(
        alloc,
        &mut parts.desk,
        parts.groups.as_slice(),
        chain,
        range,
        steps,
    )
}

// Where the first mapping begins.
fn first_offset(file: &File) -> Option<u64> {
    match file.list.first() {
        Some(m) => Some(m.offset),
        None => None,
    }
}

// Takes the first piece out of the chain's first file.
#[tactic(auto, using(core_chains::proofs::write::PartLemmas::answers_self, crate::proofs::first::SaidLemmas::some_stripped, crate::proofs::first::SaidLemmas::none_stripped))]
fn strip_file<D: Device, L: Ledger>(
    alloc: Global,
    desk: &mut Desk<D>,
    groups: &[GroupKept],
    of: HeldFile,
    steps: &mut Steps<L>,
) -> Result<u32, WriteFault>
    requires usable { IsUsable D.Device desk.old }
    requires groups { length groups.now ≡ desk.old.store.geo.agcount }
    requires number { of.held.number < 16 }
    requires file { IsFile desk.old.store.geo of.file }
    requires room { vec_len desk.old.book.journal + 2 ≤ vec_capacity desk.old.book.journal }
    ensures answers { WriteAnswers D.Device desk.old desk.new result }
    ensures said { IfOk result (λ n. SaysStripped desk.old.store.geo of.held n
        desk.old.book.journal.items desk.new.book.journal.items) }
    ensures unsaid { OnErr result (desk.new.book.journal.items ≡ desk.old.book.journal.items) }
{
    if !is_fork_absent(&of.file.core, Fork::Attr) {
        return Err(WriteFault::TreeFork);
    }
    let Some(offset) = first_offset(&of.file) else {
        return Ok(0);
    };
    let range = Range {
        offset,
        count: MOST_PIECE,
    };
    unmap_file(alloc, desk, groups, of, range, steps)
}

// Takes the first piece out of the first file of this chain, where no fault of the device was noted.
#[tactic(auto, using(core_chains::proofs::write::PartLemmas::answers_on, crate::proofs::first::SaidLemmas::held_stripped, core_chains::proofs::write::SaysLemmas::unsaid_on))]
fn strip_usable<D: Device, L: Ledger>(
    alloc: Global,
    desk: &mut Desk<D>,
    groups: &[GroupKept],
    chain: u32,
    steps: &mut Steps<L>,
) -> Result<u32, WriteFault>
    requires usable { IsUsable D.Device desk.old }
    requires groups { length groups.now ≡ desk.old.store.geo.agcount }
    ensures answers { WriteAnswers D.Device desk.old desk.new result }
    ensures said { IfOk result (λ n. HasStripped chain n desk.old desk.new) }
    ensures unsaid { OnErr result (desk.new.book.journal.items ≡ desk.old.book.journal.items) }
{
    let of = held_file(alloc, desk, chain, steps)?;
    strip_file(alloc, desk, groups, of, steps)
}

/// Takes the piece of the first mapping out of the chain's first file, 1,024 blocks at most, as
/// [`unmap_first`] does, and answers its blocks; 0 where the fork is empty, and then nothing changes. It is
/// refused as that is, and with TreeFork also where the inode has an attribute fork
/// (XFS Algorithms and Data Structures, "Data Extents").
#[tactic(auto, using(core_chains::proofs::write::PartLemmas::desk_parts, core_chains::proofs::write::PartLemmas::same_parts))]
pub fn strip_first<D: Device, L: Ledger>(
    alloc: Global,
    parts: &mut Parts<D>,
    chain: u32,
    steps: &mut Steps<L>,
) -> Result<u32, WriteFault>
    requires safe { IsSafe D.Device parts.old }
    ensures left { WriteParts D.Device parts.old parts.new result }
    ensures said { IfOk result (λ n. HasStripped chain n parts.old.desk parts.new.desk) }
    ensures unsaid { OnErr result (parts.new.desk.book.journal.items ≡
        parts.old.desk.book.journal.items) }
{
    writer_unshut(&parts.desk)?;
    strip_usable(
        alloc,
        &mut parts.desk,
        parts.groups.as_slice(),
        chain,
        steps,
    )
}
