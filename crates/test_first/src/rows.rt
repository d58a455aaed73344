// First events on the file of an image.
ghost use Rattle.std.specs.Prelude.{◌≡◌};
ghost use Rattle.core_parts.specs.Safe.{IsSafe};

use crate::same::same;
use crate::worlds::{file_of, free_of, last_of, next_of, opened};
use blk_device::Device;
use byte_fields::Steps;
use core_calls::WriteFault;
use core_chains::chains::{begin, end};
use core_chains::steps::{free_step, ref_step, rmap_step};
use core_files::first::{convert_first, strip_first, unmap_first};
use core_files::maps::map_first;
use core_files::shares::share_first;
use core_parts::Parts;
use defer_chain::StepKind;
use fs_model::Entry;
use fsck_core::into_device;
use std::alloc::Global;
use std::marker::Brand;
use std::process::Abort;
use std::sync::ledger::{Blank, Ledger};

const RMAP_IS_NEXT: WriteFault = WriteFault::OtherStep(Some(StepKind::Rmap));

// Chain 0 holds inode 195; the file is held, and no other inode is one.
fn chain_begins<D: Device, L: Ledger>(
    rt: &impl Abort,
    alloc: Global,
    parts: &mut Parts<D>,
    steps: &mut Steps<L>,
)
    requires safe { IsSafe D.Device parts.old }
    ensures safe { IsSafe D.Device parts.new }
{
    let first = begin(alloc, parts, 1, 195, None, steps);
    same(rt, first, Ok(0));
    let held = begin(alloc, parts, 2, 195, None, steps);
    same(rt, held, Err(WriteFault::Busy(195)));
    let kept = begin(alloc, parts, 2, 192, None, steps);
    same(rt, kept, Err(WriteFault::NoFile));
    let none = begin(alloc, parts, 2, 300, None, steps);
    same(rt, none, Err(WriteFault::NoFile));
}

fn chains<D: Device, L: Ledger>(
    rt: &impl Abort,
    alloc: Global,
    parts: &mut Parts<D>,
    steps: &mut Steps<L>,
)
    requires safe { IsSafe D.Device parts.old }
{
    chain_begins(rt, alloc, parts, steps);
    let done = unmap_first(alloc, parts, 0, 5, 1, steps);
    same(rt, done, Ok(1));
    same(rt, next_of(parts), Some(StepKind::Rmap));
    same(rt, end(parts, 0), Err(RMAP_IS_NEXT));
    same(rt, file_of(rt, alloc, parts, steps).list.len(), 6);
    let again = unmap_first(alloc, parts, 0, 0, 1, steps);
    same(rt, again, Err(RMAP_IS_NEXT));
}

// The block of the mapping that the last entry tells.
fn mapped_block<D: Device>(parts: &Parts<D>) -> u32 {
    match last_of(parts) {
        Some(Entry::Mapped(piece)) => piece.block,
        _ => 0,
    }
}

fn pieces<D: Device, L: Ledger>(
    rt: &impl Abort,
    alloc: Global,
    parts: &mut Parts<D>,
    steps: &mut Steps<L>,
)
    requires safe { IsSafe D.Device parts.old }
{
    same(rt, begin(alloc, parts, 1, 195, None, steps), Ok(0));
    let hole = unmap_first(alloc, parts, 0, 6, 1, steps);
    same(rt, hole, Err(WriteFault::Hole));
    let written = convert_first(alloc, parts, 0, 10, 9, steps);
    same(rt, written, Ok(2));
    same(rt, next_of(parts), None);
    let taken = map_first(alloc, parts, 0, 4, 3, steps);
    same(rt, taken, Err(WriteFault::Occupied));
    let mapped = map_first(alloc, parts, 0, 6, 3, steps);
    same(rt, mapped, Ok(3));
    same(rt, next_of(parts), Some(StepKind::Rmap));
    same(rt, mapped_block(parts), 19);
    same(rt, free_of(parts), Some(222));
    same(rt, file_of(rt, alloc, parts, steps).list.len(), 8);
}

fn shares<D: Device, L: Ledger>(
    rt: &impl Abort,
    alloc: Global,
    parts: &mut Parts<D>,
    steps: &mut Steps<L>,
)
    requires safe { IsSafe D.Device parts.old }
{
    same(rt, begin(alloc, parts, 1, 195, None, steps), Ok(0));
    let shared = share_first(alloc, parts, 0, 10, 70, 5, steps);
    same(rt, shared, Ok(2));
    let file = file_of(rt, alloc, parts, steps);
    same(rt, file.list.len(), 8);
    same(rt, file.core.flags2 / 2 % 2, 1);
}

// The block of the piece that the last entry tells to be unmapped.
fn unmapped_block<D: Device>(parts: &Parts<D>) -> u32 {
    match last_of(parts) {
        Some(Entry::Unmapped(piece)) => piece.block,
        _ => 0,
    }
}

fn strips<D: Device, L: Ledger>(
    rt: &impl Abort,
    alloc: Global,
    parts: &mut Parts<D>,
    steps: &mut Steps<L>,
)
    requires safe { IsSafe D.Device parts.old }
{
    same(rt, begin(alloc, parts, 1, 195, None, steps), Ok(0));
    same(rt, strip_first(alloc, parts, 0, steps), Ok(1));
    same(rt, unmapped_block(parts), 40);
}

// A piece is mapped and converted, and reverse mappings follow.
fn owners_follow<D: Device, L: Ledger>(
    rt: &impl Abort,
    alloc: Global,
    parts: &mut Parts<D>,
    steps: &mut Steps<L>,
)
    requires safe { IsSafe D.Device parts.old }
    ensures safe { IsSafe D.Device parts.new }
{
    same(rt, map_first(alloc, parts, 0, 6, 3, steps), Ok(3));
    same(rt, rmap_step(alloc, parts, 0, steps), Ok(()));
    same(rt, next_of(parts), None);
    same(rt, convert_first(alloc, parts, 0, 7, 5, steps), Ok(2));
    same(rt, next_of(parts), Some(StepKind::Rmap));
    same(rt, rmap_step(alloc, parts, 0, steps), Ok(()));
}

// One of two mappings of a block is unmapped, and then the other.
fn counts_follow<D: Device, L: Ledger>(
    rt: &impl Abort,
    alloc: Global,
    parts: &mut Parts<D>,
    steps: &mut Steps<L>,
)
    requires safe { IsSafe D.Device parts.old }
    ensures safe { IsSafe D.Device parts.new }
{
    same(rt, unmap_first(alloc, parts, 0, 5, 1, steps), Ok(1));
    same(rt, rmap_step(alloc, parts, 0, steps), Ok(()));
    same(rt, ref_step(alloc, parts, 0, steps), Ok(()));
    same(rt, next_of(parts), None);
    same(rt, unmap_first(alloc, parts, 0, 0, 1, steps), Ok(1));
    same(rt, rmap_step(alloc, parts, 0, steps), Ok(()));
    same(rt, ref_step(alloc, parts, 0, steps), Ok(()));
    same(rt, next_of(parts), Some(StepKind::Free));
    same(rt, free_step(alloc, parts, 0, steps), Ok(()));
    same(rt, free_of(parts), Some(223));
}

fn steps_follow<D: Device, L: Ledger>(
    rt: &impl Abort,
    alloc: Global,
    parts: &mut Parts<D>,
    steps: &mut Steps<L>,
)
    requires safe { IsSafe D.Device parts.old }
{
    same(rt, begin(alloc, parts, 1, 195, None, steps), Ok(0));
    owners_follow(rt, alloc, parts, steps);
    counts_follow(rt, alloc, parts, steps);
    same(rt, strip_first(alloc, parts, 0, steps), Ok(1));
    same(rt, rmap_step(alloc, parts, 0, steps), Ok(()));
    same(rt, ref_step(alloc, parts, 0, steps), Ok(()));
    same(rt, free_step(alloc, parts, 0, steps), Ok(()));
    same(rt, end(parts, 0), Ok(()));
    same(rt, begin(alloc, parts, 1, 195, None, steps), Ok(0));
}

// What a test does.
enum Row {
    Chains,
    Pieces,
    Shares,
    Strips,
    Follow,
}

fn play_counted<L: Ledger>(rt: &impl Abort, alloc: Global, row: Row, blank: Blank)
    requires name { blank.name ≡ L.name }
    requires parts { blank.parts ≡ L.parts }
    requires three { blank.parts ≡ 3 }
{
    let mut steps = Steps::<L>::new(blank);
    let mut parts = opened(rt, alloc, &mut steps);
    match row {
        Row::Chains => chains(rt, alloc, &mut parts, &mut steps),
        Row::Pieces => pieces(rt, alloc, &mut parts, &mut steps),
        Row::Shares => shares(rt, alloc, &mut parts, &mut steps),
        Row::Strips => strips(rt, alloc, &mut parts, &mut steps),
        Row::Follow => steps_follow(rt, alloc, &mut parts, &mut steps),
    }
    let _ = into_device(parts);
}

// The same, for a caller that counts no steps.
fn play(rt: &impl Abort, alloc: Global, row: Row) {
    let blank = Blank::new(3);
    play_counted::<Brand>(rt, alloc, row, blank);
}

#[test]
fn chains_hold_their_files(rt: HostRuntime) {
    play(&rt, rt.alloc(), Row::Chains);
}

#[test]
fn pieces_are_mapped(rt: HostRuntime) {
    play(&rt, rt.alloc(), Row::Pieces);
}

#[test]
fn pieces_are_shared(rt: HostRuntime) {
    play(&rt, rt.alloc(), Row::Shares);
}

#[test]
fn pieces_are_stripped(rt: HostRuntime) {
    play(&rt, rt.alloc(), Row::Strips);
}

#[test]
fn steps_follow_first_events(rt: HostRuntime) {
    play(&rt, rt.alloc(), Row::Follow);
}
