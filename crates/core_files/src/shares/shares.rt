ghost use Rattle.std.specs.Prelude.{◌≡◌, ◌<◌, ◌≤◌, ◌+◌, ◌^◌, ◌++◌, ◌∷◌, [], Err, IfOk, IfSome, OnErr, OnOk, length, true};
ghost use Rattle.std.specs.Vec.{vec_capacity, vec_len};
ghost use Rattle.core_calls.specs.declared.answers.WriteFault.TheVariants as faults;
ghost use Rattle.core_parts.specs.Common.Asks.{IsUsable};
ghost use Rattle.core_files.specs.Shares.Entries.{HasShared, SaysShared, shared_piece, target};
ghost use Rattle.core_files.specs.Shares.Shares.{IsPlaced, IsTarget};
ghost use Rattle.core_files.specs.First.Spots.{IsSpot};
ghost use Rattle.core_parts.specs.Safe.{AreKept, IsSafe};
ghost use Rattle.core_chains.specs.Write.Says.{RefusesBy};
ghost use Rattle.core_chains.specs.Write.Writes.{IsLeftAll, WriteAnswers, WriteParts, WritesWell};
ghost use Rattle.file_cores.specs.Files.{IsFile};
ghost use Rattle.fork_change.specs.Lists.{AllFit};
ghost use Rattle.fs_model.specs.declared.entry.Entry.TheVariants as entries;
ghost use Rattle.geom.specs.Places.{HasInode};
ghost use Rattle.intent_drain.specs.Drains.{gates_of};
ghost use Rattle.sblock.specs.declared.kind.Kind.TheVariants.{Refc};

use crate::first::{
    Held, HeldFile, MOST_PIECE, OwnerDue, PlacedCore, Range, Spot, add_mapping, finish, grown,
    held_file, mark_one, owing_both, piece_spot, word_of, write_pair,
};
use crate::shares::counts::is_count_most;
use crate::shares::seeks::refc_tree;
use blk_device::Device;
use byte_fields::Steps;
use core_calls::WriteFault;
use core_chains::chains::read_inode;
use core_chains::write::writer_unshut;
use core_parts::{Desk, GroupKept, Parts};
use defer_chain::Chain;
use dinode_core::{Core3, Mapping};
use file_cores::{File, is_range_mapped};
use fs_model::{Cause, Entry, SharedPiece};
use fs_state::IntentKind;
use run_sets::Run;
use sblock::Kind;
use std::alloc::Global;
use std::sync::ledger::Ledger;

// The end of all offsets.
const OFFSETS: u64 = 1 << 54;

// Bit 1 of the further flags: the file shares blocks.
const REFLINK: u64 = 2;

// What is asked for: these blocks of the first file, at an offset of the second one or the first.
#[derive(Clone, Copy)]
struct Asked {
    range: Range,
    to_offset: u64,
}

// The first file, and the second one, where the chain has two.
#[derive(Drop)]
struct Pair {
    of: HeldFile,
    to: Option<File>,
}

// What is asked for, the piece that is shared, and where its blocks lie.
#[derive(Clone, Copy)]
struct Shared {
    asked: Asked,
    piece: Mapping,
    spot: Spot,
}

// The cores as the sharing makes them.
#[derive(Clone, Copy)]
struct Cores {
    first: PlacedCore,
    second: Option<PlacedCore>,
}

// The piece of a mapping at an offset; none where it isn't written.
fn piece_in(m: &Mapping, range: Range) -> Option<Mapping>
    requires starts { m.now.offset ≤ range.offset }
    requires ends { range.offset < m.now.offset + m.now.count }
    requires block { m.now.block + m.now.count ≤ 2 ^ 52 }
{
    if m.unwritten {
        return None;
    }
    let skipped = range.offset - m.offset;
    let left = u64::from(m.count) - skipped;
    Some(Mapping {
        offset: range.offset,
        block: m.block + skipped,
        count: u64::from(range.count).min(left) as u32,
        unwritten: false,
    })
}

// The written piece of one of these mappings at an offset.
fn written_piece(list: &[Mapping], range: Range) -> Option<Mapping>
    requires list { AllFit list.now }
{
    let (first, later) = list.split_first()?;
    if first.offset <= range.offset && range.offset < first.offset + u64::from(first.count) {
        return piece_in(first, range);
    }
    written_piece(later, range)
}

// The second file; none where the chain has one alone.
#[tactic(auto, using(core_chains::proofs::write::PartLemmas::answers_self, crate::proofs::first::WriteLemmas::file_on))]
fn read_target<D: Device, L: Ledger>(
    alloc: Global,
    desk: &mut Desk<D>,
    chain: &Chain,
    steps: &mut Steps<L>,
) -> Result<Option<File>, WriteFault>
    requires usable { IsUsable D.Device desk.old }
    ensures answers { WriteAnswers D.Device desk.old desk.new result }
    ensures file { IfOk result (IsTarget desk.new.store.geo) }
    ensures book { OnOk result (desk.new.book ≡ desk.old.book) }
    ensures items { desk.new.book.journal.items ≡ desk.old.book.journal.items }
    ensures geometry { desk.new.store.geo ≡ desk.old.store.geo }
{
    let Some(second) = chain.second() else {
        return Ok(None);
    };
    match read_inode(alloc, desk, second.ino, steps) {
        Ok(file) => Ok(Some(file)),
        Err(fault) => Err(fault),
    }
}

// Whether an offset of the whole target range is mapped.
fn is_taken(pair: &Pair, asked: &Asked) -> bool
    requires first { AllFit pair.now.of.file.list.items }
    requires second { IfSome pair.now.to (λ f. AllFit f.list.items) }
    requires range { asked.now.to_offset + asked.now.range.count ≤ 2 ^ 54 }
{
    match &pair.to {
        Some(file) => is_range_mapped(file.list.as_slice(), asked.to_offset, asked.range.count),
        None => is_range_mapped(
            pair.of.file.list.as_slice(),
            asked.to_offset,
            asked.range.count,
        ),
    }
}

// The piece that is shared: Hole, Occupied, and the refusals of its group.
fn share_in<D: Device>(
    desk: &Desk<D>,
    groups: &[GroupKept],
    pair: &Pair,
    asked: &Asked,
) -> Result<Shared, WriteFault>
    requires gates { length (gates_of desk.now.drain) ≡ desk.now.store.geo.agcount }
    requires groups { length groups.now ≡ desk.now.store.geo.agcount }
    requires file { IsFile desk.now.store.geo pair.now.of.file }
    requires target { IsTarget desk.now.store.geo pair.now.to }
    requires range { asked.now.to_offset + asked.now.range.count ≤ 2 ^ 54 }
    ensures spot { IfOk result (λ s. IsSpot desk.now.store.geo s.spot) }
    ensures asked { IfOk result (λ s. s.asked ≡ asked.now) }
    ensures reason { WritesWell desk.now result }
{
    let range = Range {
        offset: asked.range.offset,
        count: asked.range.count.min(MOST_PIECE),
    };
    let Some(piece) = written_piece(pair.of.file.list.as_slice(), range) else {
        return Err(WriteFault::Hole);
    };
    if is_taken(pair, asked) {
        return Err(WriteFault::Occupied);
    }
    let spot = piece_spot(desk, groups, &piece)?;
    Ok(Shared {
        asked: *asked,
        piece,
        spot,
    })
}

// The core of a file that shares blocks.
fn flagged(core: &Core3) -> Core3 {
    let mut shares = *core;
    shares.flags2 = shares.flags2 | REFLINK;
    shares
}

// The file with the piece at the target's offset, and so with blocks that it shares.
fn with_piece<D: Device>(
    alloc: Global,
    desk: &Desk<D>,
    file: &mut File,
    done: &Shared,
) -> Result<PlacedCore, WriteFault>
    requires file { IsFile desk.now.store.geo file.old }
    ensures place { IfOk result (λ p. HasInode desk.now.store.geo p.place) }
    ensures reason { WritesWell desk.now result }
{
    let target = Mapping {
        offset: done.asked.to_offset,
        block: done.piece.block,
        count: done.spot.count,
        unwritten: false,
    };
    add_mapping(alloc, desk, file, &target)?;
    match grown(desk, file, done.spot.count) {
        Some(core) => Ok(PlacedCore {
            place: file.place,
            core: flagged(&core),
        }),
        None => Err(WriteFault::ForkFull),
    }
}

// The cores of one or two files with the piece shared.
fn cores_of<D: Device>(
    alloc: Global,
    desk: &Desk<D>,
    pair: Pair,
    done: &Shared,
) -> Result<Cores, WriteFault>
    requires file { IsFile desk.now.store.geo pair.of.file }
    requires target { IsTarget desk.now.store.geo pair.to }
    ensures first { IfOk result (λ c. HasInode desk.now.store.geo c.first.place) }
    ensures second { IfOk result (λ c. IsPlaced desk.now.store.geo c.second) }
    ensures reason { WritesWell desk.now result }
{
    let Pair { mut of, to } = pair;
    let Some(mut file) = to else {
        let first = with_piece(alloc, desk, &mut of.file, done)?;
        return Ok(Cores {
            first,
            second: None,
        });
    };
    let second = with_piece(alloc, desk, &mut file, done)?;
    Ok(Cores {
        first: PlacedCore {
            place: of.file.place,
            core: flagged(&of.file.core),
        },
        second: Some(second),
    })
}

// The number of the target's inode.
fn target_of(chain: &Chain) -> u64
    ensures { result ≡ target chain.now }
{
    match chain.second() {
        Some(second) => second.ino,
        None => chain.first().ino,
    }
}

// What the entry tells.
fn entry_of(held: &Held, done: &Shared) -> Entry
    ensures { result ≡ entries.Shared
        (shared_piece held.now done.now.asked.range.offset done.now.asked.to_offset done.now.spot) }
{
    let spot = done.spot;
    Entry::Shared(SharedPiece {
        writer: held.chain.writer(),
        chain: held.number,
        from: held.chain.first().ino,
        from_offset: done.asked.range.offset,
        to: target_of(&held.chain),
        to_offset: done.asked.to_offset,
        group: spot.group,
        block: spot.block,
        count: spot.count,
    })
}

// Writes the cores, and ends the event.
#[tactic(auto, using(crate::proofs::first::WriteLemmas::answers_steady))]
fn commit_shared<D: Device, L: Ledger>(
    desk: &mut Desk<D>,
    held: &Held,
    cores: &Cores,
    done: &Shared,
    steps: &mut Steps<L>,
) -> Result<u32, WriteFault>
    requires usable { IsUsable D.Device desk.old }
    requires number { held.now.number < 16 }
    requires first { HasInode desk.old.store.geo cores.now.first.place }
    requires second { IsPlaced desk.old.store.geo cores.now.second }
    requires some { 0 < done.now.spot.count }
    requires ends { done.now.spot.block + done.now.spot.count < 2 ^ 32 }
    requires room { vec_len desk.old.book.journal + 2 ≤ vec_capacity desk.old.book.journal }
    ensures answers { WriteAnswers D.Device desk.old desk.new result }
    ensures count { IfOk result (λ n. n ≡ done.now.spot.count) }
    ensures said { OnOk result (desk.new.book.journal.items ≡ desk.old.book.journal.items ++
        entries.Shared (shared_piece held.now done.now.asked.range.offset done.now.asked.to_offset
        done.now.spot) ∷ []) }
    ensures unsaid { OnErr result (desk.new.book.journal.items ≡ desk.old.book.journal.items) }
{
    write_pair(desk, &cores.first, &cores.second, steps)?;
    let due = OwnerDue {
        kind: IntentKind::RmapAdd,
        ino: target_of(&held.chain),
        word: word_of(done.asked.to_offset, false),
    };
    let owing = owing_both(&held.chain, &due, IntentKind::RefMore, &done.spot);
    finish(desk, held.number, owing, entry_of(held, done));
    Ok(done.spot.count)
}

// Shares the piece, whose counts may all rise.
#[tactic(auto, using(core_chains::proofs::write::PartLemmas::answers_self, crate::proofs::shares::SaidLemmas::shared_said))]
fn share_piece<D: Device, L: Ledger>(
    alloc: Global,
    desk: &mut Desk<D>,
    pair: Pair,
    done: &Shared,
    steps: &mut Steps<L>,
) -> Result<u32, WriteFault>
    requires usable { IsUsable D.Device desk.old }
    requires file { IsFile desk.old.store.geo pair.of.file }
    requires number { pair.of.held.number < 16 }
    requires target { IsTarget desk.old.store.geo pair.to }
    requires spot { IsSpot desk.old.store.geo done.now.spot }
    requires room { vec_len desk.old.book.journal + 2 ≤ vec_capacity desk.old.book.journal }
    ensures answers { WriteAnswers D.Device desk.old desk.new result }
    ensures said { IfOk result (λ n. SaysShared desk.old.store.geo pair.of.held
        done.now.asked.range.offset done.now.asked.to_offset n desk.old.book.journal.items
        desk.new.book.journal.items) }
    ensures unsaid { OnErr result (desk.new.book.journal.items ≡ desk.old.book.journal.items) }
{
    let held = pair.of.held;
    let cores = cores_of(alloc, desk, pair, done)?;
    commit_shared(desk, &held, &cores, done, steps)
}

// Marks reference counts of one of the groups.
#[tactic(auto, using(crate::proofs::first::GroupLemmas::kept_one, core_chains::proofs::write::PartLemmas::one_left))]
fn mark_counts<D: Device>(
    desk: &mut Desk<D>,
    groups: &mut Vec<GroupKept>,
    g: u32,
    cause: Cause,
) -> Result<u32, WriteFault>
    requires usable { IsUsable D.Device desk.old }
    requires groups { length groups.old.items ≡ desk.old.store.geo.agcount }
    requires kept { AreKept groups.old.items }
    requires group { g < desk.old.store.geo.agcount }
    requires room { vec_len desk.old.book.journal + 2 ≤ vec_capacity desk.old.book.journal }
    ensures left { IsLeftAll D.Device desk.old desk.new groups.old.items groups.new.items }
    ensures reason { WritesWell desk.new result }
    ensures sick { result ≡ Err (faults.Sick g Refc) }
    ensures said { desk.new.book.journal.items ≡ desk.old.book.journal.items ++ entries.Marked g
        Refc cause ∷ [] }
{
    let kept = &mut groups[g as usize];
    mark_one(desk, kept, g, Kind::Refc, cause)
}

// Whether a count over the piece is near its end.
fn ask_counts<D: Device, L: Ledger>(
    desk: &mut Desk<D>,
    groups: &[GroupKept],
    spot: &Spot,
    steps: &mut Steps<L>,
) -> Result<Result<bool, Cause>, WriteFault>
    requires usable { IsUsable D.Device desk.old }
    requires groups { length groups.now ≡ desk.old.store.geo.agcount }
    requires group { spot.now.group < desk.old.store.geo.agcount }
    ensures answers { WriteAnswers D.Device desk.old desk.new result }
    ensures book { OnOk result (desk.new.book ≡ desk.old.book) }
    ensures items { desk.new.book.journal.items ≡ desk.old.book.journal.items }
    ensures geometry { desk.new.store.geo ≡ desk.old.store.geo }
{
    let tree = refc_tree(&groups[spot.group as usize], spot.group);
    let run = Run {
        start: spot.block,
        count: spot.count,
    };
    is_count_most(desk, &tree, run, None, spot.count, steps)
}

// What follows from the counts over the piece.
#[tactic(auto, using(crate::proofs::first::GroupLemmas::answers_left, core_chains::proofs::write::PartLemmas::none_left, core_parts::proofs::common::AskLemmas::steady_self, core_chains::proofs::write::SaysLemmas::not_ok, core_chains::proofs::write::SaysLemmas::marked_refuses, core_chains::proofs::write::SaysLemmas::refuses_none))]
fn share_counted<D: Device, L: Ledger>(
    alloc: Global,
    desk: &mut Desk<D>,
    groups: &mut Vec<GroupKept>,
    pair: Pair,
    done: &Shared,
    counted: Result<bool, Cause>,
    steps: &mut Steps<L>,
) -> Result<u32, WriteFault>
    requires usable { IsUsable D.Device desk.old }
    requires groups { length groups.old.items ≡ desk.old.store.geo.agcount }
    requires kept { AreKept groups.old.items }
    requires file { IsFile desk.old.store.geo pair.of.file }
    requires number { pair.of.held.number < 16 }
    requires target { IsTarget desk.old.store.geo pair.to }
    requires spot { IsSpot desk.old.store.geo done.now.spot }
    requires room { vec_len desk.old.book.journal + 2 ≤ vec_capacity desk.old.book.journal }
    ensures left { IsLeftAll D.Device desk.old desk.new groups.old.items groups.new.items }
    ensures reason { WritesWell desk.new result }
    ensures said { IfOk result (λ n. SaysShared desk.old.store.geo pair.of.held
        done.now.asked.range.offset done.now.asked.to_offset n desk.old.book.journal.items
        desk.new.book.journal.items) }
    ensures refused { RefusesBy result desk.old.book.journal.items desk.new.book.journal.items }
{
    let is_most = match counted {
        Ok(is_most) => is_most,
        Err(cause) => return mark_counts(desk, groups, done.spot.group, cause),
    };
    if is_most {
        return Err(WriteFault::CountMax);
    }
    share_piece(alloc, desk, pair, done, steps)
}

// Shares a piece in a group that allows it.
#[tactic(auto, using(crate::proofs::first::GroupLemmas::answers_left, crate::proofs::first::GroupLemmas::asked_left, crate::proofs::shares::ShareLemmas::file_kept, crate::proofs::shares::ShareLemmas::target_kept, crate::proofs::shares::ShareLemmas::spot_kept, crate::proofs::shares::SaidLemmas::shared_on, core_chains::proofs::write::SaysLemmas::refuses_on, core_chains::proofs::write::SaysLemmas::refused_none))]
fn share_spot<D: Device, L: Ledger>(
    alloc: Global,
    desk: &mut Desk<D>,
    groups: &mut Vec<GroupKept>,
    pair: Pair,
    done: &Shared,
    steps: &mut Steps<L>,
) -> Result<u32, WriteFault>
    requires usable { IsUsable D.Device desk.old }
    requires groups { length groups.old.items ≡ desk.old.store.geo.agcount }
    requires kept { AreKept groups.old.items }
    requires file { IsFile desk.old.store.geo pair.of.file }
    requires number { pair.of.held.number < 16 }
    requires target { IsTarget desk.old.store.geo pair.to }
    requires spot { IsSpot desk.old.store.geo done.now.spot }
    requires room { vec_len desk.old.book.journal + 2 ≤ vec_capacity desk.old.book.journal }
    ensures left { IsLeftAll D.Device desk.old desk.new groups.old.items groups.new.items }
    ensures reason { WritesWell desk.new result }
    ensures said { IfOk result (λ n. SaysShared desk.old.store.geo pair.of.held
        done.now.asked.range.offset done.now.asked.to_offset n desk.old.book.journal.items
        desk.new.book.journal.items) }
    ensures refused { RefusesBy result desk.old.book.journal.items desk.new.book.journal.items }
{
    match ask_counts(desk, groups.as_slice(), &done.spot, steps) {
        Ok(counted) => share_counted(alloc, desk, groups, pair, done, counted, steps),
        Err(fault) => Err(fault),
    }
}

// Shares a piece of the first file.
#[tactic(auto, using(core_chains::proofs::write::PartLemmas::none_left, core_parts::proofs::common::AskLemmas::steady_self, crate::proofs::shares::SaidLemmas::shared_at, core_chains::proofs::write::SaysLemmas::refused_none))]
fn share_files<D: Device, L: Ledger>(
    alloc: Global,
    desk: &mut Desk<D>,
    groups: &mut Vec<GroupKept>,
    pair: Pair,
    asked: &Asked,
    steps: &mut Steps<L>,
) -> Result<u32, WriteFault>
    requires usable { IsUsable D.Device desk.old }
    requires groups { length groups.old.items ≡ desk.old.store.geo.agcount }
    requires kept { AreKept groups.old.items }
    requires file { IsFile desk.old.store.geo pair.of.file }
    requires number { pair.of.held.number < 16 }
    requires target { IsTarget desk.old.store.geo pair.to }
    requires range { asked.now.to_offset + asked.now.range.count ≤ 2 ^ 54 }
    requires room { vec_len desk.old.book.journal + 2 ≤ vec_capacity desk.old.book.journal }
    ensures left { IsLeftAll D.Device desk.old desk.new groups.old.items groups.new.items }
    ensures reason { WritesWell desk.new result }
    ensures said { IfOk result (λ n. SaysShared desk.old.store.geo pair.of.held
        asked.now.range.offset asked.now.to_offset n desk.old.book.journal.items
        desk.new.book.journal.items) }
    ensures refused { RefusesBy result desk.old.book.journal.items desk.new.book.journal.items }
{
    match share_in(desk, groups.as_slice(), &pair, asked) {
        Ok(done) => share_spot(alloc, desk, groups, pair, &done, steps),
        Err(fault) => Err(fault),
    }
}

// Shares a piece of the chain's first file.
#[tactic(auto, using(crate::proofs::first::GroupLemmas::answers_left, crate::proofs::first::GroupLemmas::asked_left, crate::proofs::shares::ShareLemmas::file_kept, crate::proofs::shares::SaidLemmas::shared_on, core_chains::proofs::write::SaysLemmas::refuses_on, core_chains::proofs::write::SaysLemmas::refused_none))]
fn share_held<D: Device, L: Ledger>(
    alloc: Global,
    desk: &mut Desk<D>,
    groups: &mut Vec<GroupKept>,
    of: HeldFile,
    asked: &Asked,
    steps: &mut Steps<L>,
) -> Result<u32, WriteFault>
    requires usable { IsUsable D.Device desk.old }
    requires groups { length groups.old.items ≡ desk.old.store.geo.agcount }
    requires kept { AreKept groups.old.items }
    requires file { IsFile desk.old.store.geo of.file }
    requires number { of.held.number < 16 }
    requires range { asked.now.to_offset + asked.now.range.count ≤ 2 ^ 54 }
    requires room { vec_len desk.old.book.journal + 2 ≤ vec_capacity desk.old.book.journal }
    ensures left { IsLeftAll D.Device desk.old desk.new groups.old.items groups.new.items }
    ensures reason { WritesWell desk.new result }
    ensures said { IfOk result (λ n. SaysShared desk.old.store.geo of.held asked.now.range.offset
        asked.now.to_offset n desk.old.book.journal.items desk.new.book.journal.items) }
    ensures refused { RefusesBy result desk.old.book.journal.items desk.new.book.journal.items }
{
    match read_target(alloc, desk, &of.held.chain, steps) {
        Ok(to) => share_files(alloc, desk, groups, Pair { of, to }, asked, steps),
        Err(fault) => Err(fault),
    }
}

// Whether the ranges are such that may be asked for.
fn is_asked(asked: &Asked) -> bool
    ensures { result ≡ true → asked.now.to_offset + asked.now.range.count ≤ 2 ^ 54 }
{
    asked.range.count > 0 && asked.to_offset <= OFFSETS - u64::from(asked.range.count)
}

// Shares a piece of the first file of this chain, where no fault of the device was noted.
#[tactic(auto, using(crate::proofs::first::GroupLemmas::answers_left, crate::proofs::first::GroupLemmas::asked_left, core_chains::proofs::write::PartLemmas::none_left, core_parts::proofs::common::AskLemmas::steady_self, crate::proofs::shares::SaidLemmas::held_shared, core_chains::proofs::write::SaysLemmas::refuses_on, core_chains::proofs::write::SaysLemmas::refused_none))]
fn share_usable<D: Device, L: Ledger>(
    alloc: Global,
    desk: &mut Desk<D>,
    groups: &mut Vec<GroupKept>,
    chain: u32,
    asked: &Asked,
    steps: &mut Steps<L>,
) -> Result<u32, WriteFault>
    requires usable { IsUsable D.Device desk.old }
    requires groups { length groups.old.items ≡ desk.old.store.geo.agcount }
    requires kept { AreKept groups.old.items }
    ensures left { IsLeftAll D.Device desk.old desk.new groups.old.items groups.new.items }
    ensures reason { WritesWell desk.new result }
    ensures said { IfOk result (λ n. HasShared chain asked.now.range.offset asked.now.to_offset n
        desk.old desk.new) }
    ensures refused { RefusesBy result desk.old.book.journal.items desk.new.book.journal.items }
{
    // Never asked.
    if !is_asked(asked) {
        return Err(WriteFault::Memory);
    }
    match held_file(alloc, desk, chain, steps) {
        Ok(of) => share_held(alloc, desk, groups, of, asked, steps),
        Err(fault) => Err(fault),
    }
}

/// Maps the written piece at an offset of the chain's first file, `count` and 1,024 blocks at most, at an
/// offset of its second one too, or of the first where it has no other, and answers its blocks. Both
/// inodes are flagged as sharing blocks; the chain owes the owner to reverse mappings, and then one count
/// more. It is refused, in this order, with Shut, NoChain, OtherStep, TreeFork, Hole (the offset isn't
/// mapped as written), Occupied (a target offset of the whole range is mapped), Closing and Sick of the
/// piece's group, CountMax, and ForkFull; then nothing changes, but that reference counts that can't be
/// read are marked (XFS Algorithms and Data Structures, "Reference Count B+tree").
#[tactic(auto, using(core_chains::proofs::write::PartLemmas::left_parts, core_chains::proofs::write::PartLemmas::same_parts, core_chains::proofs::write::SaysLemmas::refuses_same))]
pub fn share_first<D: Device, L: Ledger>(
    alloc: Global,
    parts: &mut Parts<D>,
    chain: u32,
    offset: u64,
    to_offset: u64,
    count: u32,
    steps: &mut Steps<L>,
) -> Result<u32, WriteFault>
    requires safe { IsSafe D.Device parts.old }
    ensures left { WriteParts D.Device parts.old parts.new result }
    ensures said { IfOk result (λ n. HasShared chain offset to_offset n parts.old.desk
        parts.new.desk) }
    ensures refused { RefusesBy result parts.old.desk.book.journal.items
        parts.new.desk.book.journal.items }
{
    writer_unshut(&parts.desk)?;
    let asked = Asked {
        range: Range { offset, count },
        to_offset,
    };
    share_usable(
        alloc,
        &mut parts.desk,
        &mut parts.groups,
        chain,
        &asked,
        steps,
    )
}
