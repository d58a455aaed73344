ghost use Rattle.std.specs.Prelude.{◌≡◌, ℕ, ◌<◌, ◌≤◌, [], ◌∷◌, length};
ghost use Rattle.blk_device.specs.Causes.{HasCause};
ghost use Rattle.blk_device.specs.Reading.{OnlyRead};
ghost use Rattle.blk_device.specs.declared.device.Region.TheVariants.{Image};
ghost use Rattle.fork_pass.specs.Counted.{note_most};
ghost use Rattle.fork_pass.specs.Passed.{notes_at, units_at};
ghost use Rattle.fork_pass.specs.Told.{CountsMost, CountsNotes, PassesGroup, PassesNotes};
ghost use Rattle.geom.specs.Places.{layout};
ghost use Rattle.inode_pass.specs.Notes.{AreFit, IsFit};
ghost use Rattle.inode_pass.specs.Stops.{is_failed};

use crate::block::{BLOCK_INODES, pass_block};
use crate::pieces::put_mapping;
use blk_device::Device;
use byte_fields::{Block, Steps};
use check_watch::Watch;
use fs_model::Evidence;
use geom::Geometry;
use inode_pass::{ForkNote, GroupInodes, PassStop};
use std::alloc::Global;
use std::mem;
use std::sync::ledger::Ledger;
use unit_plan::ClaimSet;

// The inodes of a unit.
const UNIT_INODES: u64 = 64;

/// How many inodes these units have, for a person who waits: no clause speaks of it
/// (XFS Algorithms and Data Structures, "Inode B+trees").
pub fn inodes_of(units: &[u32]) -> u64 {
    UNIT_INODES.saturating_mul(units.len() as u64)
}

// How many of a group's inodes are shown without a read, for a person who waits.
fn inodes_shown(units: &[u32], notes: &[ForkNote]) -> u64 {
    let mut shown = inodes_of(units);
    for note in notes {
        if let ForkNote::Block(_) = note {
            shown = shown.saturating_sub(u64::from(BLOCK_INODES));
        }
    }
    shown
}

// Tells of them at once, where there are any.
fn tell_shown<W: Watch>(units: &[u32], notes: &[ForkNote], watch: &mut W) {
    let shown = inodes_shown(units, notes);
    if shown > 0 {
        watch.pass(shown);
    }
}

// Takes the notes of group `g` out of what was kept of all groups, and leaves none there.
fn take_notes(alloc: Global, inodes: &mut [GroupInodes], g: u32) -> Vec<ForkNote>
    requires { g < length inodes.old }
    ensures taken { result.items ≡ notes_at inodes.old g }
    ensures others { (h : ℕ) → g < h → notes_at inodes.new h ≡ notes_at inodes.old h }
    ensures units { units_at inodes.new ≡ units_at inodes.old }
    ensures groups { length inodes.new ≡ length inodes.old }
{
    // The notes go once they are put, and their memory with them.
    let fresh = Vec::new(alloc);
    mem::replace(&mut inodes[g as usize].notes, fresh)
}

// Passes what one note of group `g` stands for: a mapping is put, and a block's inodes are read.
fn pass_note<D: Device, L: Ledger, W: Watch>(
    alloc: Global,
    dev: &mut D,
    geo: &Geometry,
    g: u32,
    note: &ForkNote,
    block: &mut Block,
    sets: &mut [ClaimSet],
    steps: &mut Steps<L>,
    watch: &mut W,
) -> Result<Option<Evidence>, PassStop>
    requires group { g < geo.now.agcount }
    requires fit { IsFit (layout geo.now) g note.now }
    requires room { geo.now.dblocks ≤ D.blocks dev.old Image }
    requires groups { length sets.old ≡ geo.now.agcount }
    ensures exact { PassesNotes (layout geo.now) (D.content dev.old) g (note.now ∷ []) sets.old result sets.new }
    ensures groups { length sets.new ≡ length sets.old }
    ensures each { CountsMost (D.content dev.old) (λ c. note_most (layout geo.now) (c Image) g note.now) steps.old.reads steps.new.reads }
    ensures reading { OnlyRead D.Device dev.old dev.new steps.old steps.new }
    ensures cause { HasCause is_failed (D.faults dev.old) (D.faults dev.new) result }
{
    match note {
        ForkNote::Mapping { ino, fork, mapping } => {
            put_mapping(sets, geo, *fork, *ino, mapping)?;
            Ok(None)
        }
        ForkNote::Block(b) => {
            let found = pass_block(alloc, dev, geo, g, *b, block, sets, steps)?;
            watch.pass(u64::from(BLOCK_INODES));
            Ok(found)
        }
    }
}

// Passes what these notes of group `g` stand for, in their order.
fn pass_notes<D: Device, L: Ledger, W: Watch>(
    alloc: Global,
    dev: &mut D,
    geo: &Geometry,
    g: u32,
    notes: &[ForkNote],
    sets: &mut [ClaimSet],
    steps: &mut Steps<L>,
    watch: &mut W,
) -> Result<Option<Evidence>, PassStop>
    requires group { g < geo.now.agcount }
    requires fit { AreFit (layout geo.now) g notes.now }
    requires room { geo.now.dblocks ≤ D.blocks dev.old Image }
    requires groups { length sets.old ≡ geo.now.agcount }
    ensures exact { PassesNotes (layout geo.now) (D.content dev.old) g notes.now sets.old result sets.new }
    ensures groups { length sets.new ≡ length sets.old }
    ensures each { CountsNotes (layout geo.now) (D.content dev.old) g notes.now steps.old.reads steps.new.reads }
    ensures reading { OnlyRead D.Device dev.old dev.new steps.old steps.new }
    ensures cause { HasCause is_failed (D.faults dev.old) (D.faults dev.new) result }
{
    let mut block = Block::zeroed();
    for note in notes {
        match pass_note(alloc, dev, geo, g, note, &mut block, sets, steps, watch)? {
            None => {}
            Some(found) => return Ok(Some(found)),
        }
    }
    Ok(None)
}

/// Passes the inodes of group `g` by the notes that its cores left, which are taken out and go with
/// their memory once they are put: what the forks claim is put into the sets of the groups, up to the
/// first fork that can't be read. A block that is noted is read once, and the blocks of the forks'
/// btrees (XFS Online Fsck Design, "Inode Scans").
pub fn pass_group<D: Device, L: Ledger, W: Watch>(
    alloc: Global,
    dev: &mut D,
    geo: &Geometry,
    g: u32,
    inodes: &mut [GroupInodes],
    sets: &mut [ClaimSet],
    steps: &mut Steps<L>,
    watch: &mut W,
) -> Result<Option<Evidence>, PassStop>
    requires group { g < geo.now.agcount }
    requires all { length inodes.old ≡ geo.now.agcount }
    requires fit { AreFit (layout geo.now) g (notes_at inodes.old g) }
    requires room { geo.now.dblocks ≤ D.blocks dev.old Image }
    requires groups { length sets.old ≡ geo.now.agcount }
    ensures exact { PassesGroup (layout geo.now) (D.content dev.old) g inodes.old sets.old result sets.new }
    ensures others { (h : ℕ) → g < h → notes_at inodes.new h ≡ notes_at inodes.old h }
    ensures units { units_at inodes.new ≡ units_at inodes.old }
    ensures all { length inodes.new ≡ length inodes.old }
    ensures groups { length sets.new ≡ length sets.old }
    ensures each { CountsNotes (layout geo.now) (D.content dev.old) g (notes_at inodes.old g) steps.old.reads steps.new.reads }
    ensures reading { OnlyRead D.Device dev.old dev.new steps.old steps.new }
    ensures cause { HasCause is_failed (D.faults dev.old) (D.faults dev.new) result }
{
    let notes = take_notes(alloc, inodes, g);
    let units = inodes[g as usize].chunks.as_slice();
    tell_shown(units, notes.as_slice(), watch);
    pass_notes(alloc, dev, geo, g, notes.as_slice(), sets, steps, watch)
}
