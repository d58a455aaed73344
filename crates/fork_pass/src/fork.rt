ghost use Rattle.std.specs.Prelude.{◌≡◌, ◌+◌, ◌*◌, ◌^◌, ◌<◌, ◌≤◌, ◌++◌, ℕ, List, [], length, true, false, Some, None, IfErr, IfOk, OnOk};
ghost use Rattle.blk_device.specs.Causes.{HasCause};
ghost use Rattle.blk_device.specs.Contents.{Contents};
ghost use Rattle.blk_device.specs.Reading.{OnlyRead};
ghost use Rattle.blk_device.specs.declared.device.Region.TheVariants.{Image};
ghost use Rattle.dinode_core.specs.ForkTree.{is_tree, walk_fault};
ghost use Rattle.fork_read.specs.Answers.{IsOutside, is_failed as is_failed_read};
ghost use Rattle.fork_read.specs.First.{most_met};
ghost use Rattle.fork_pass.specs.Counted.{fork_most, pieces_most};
ghost use Rattle.fork_pass.specs.Read.{HasRead, IsForkRead, IsRefusal, IsShown, IsWorst, is_number_wrong as is_wrong};
ghost use Rattle.fork_pass.specs.Told.{CountsMost, CountsPiece, SeesFork, TakesPiece};
ghost use Rattle.geom.specs.Places.{layout};
ghost use Rattle.inode_pass.specs.Stops.{is_failed};

use crate::pieces::put_mappings;
use blk_device::Device;
use byte_fields::Steps;
use dinode_core::{
    Core3, Fork, ForkError, ForkFault, inline_fork, inline_is_whole, is_in_btree, mapping_count,
};
use fork_read::{
    ForkPiece, ReadFault, first_fault_of_core, first_fault_tells, piece_of_core, pieces_are_few,
    pieces_join,
};
use geom::Geometry;
use inode_pass::PassStop;
use std::alloc::Global;
use std::sync::ledger::Ledger;
use unit_plan::ClaimSet;

/// What the reading of a fork came to: the blocks of its btree, or its first fault
/// (XFS Algorithms and Data Structures, "Data Fork").
#[derive(Drop)]
pub enum ForkRead {
    Blocks(Vec<u64>),
    Bad(ForkFault),
}

/// What was met of a fork: where the next piece begins, how many mappings came, and the blocks of its
/// btree (XFS Algorithms and Data Structures, "Data Fork").
#[derive(Drop)]
pub struct Met {
    pub next: Option<u64>,
    pub count: u128,
    pub blocks: Vec<u64>,
}

// Takes note of a piece.
fn note_piece(met: &mut Met, piece: &ForkPiece) -> Result<(), PassStop>
    requires few { met.old.count ≤ 2 ^ 100 }
    ensures next { OnOk result (met.new.next ≡ piece.now.next) }
    ensures count { OnOk result (met.new.count ≡ met.old.count + length piece.now.mappings.items) }
    ensures blocks { OnOk result (met.new.blocks.items ≡ met.old.blocks.items ++ piece.now.tree_blocks.items) }
    ensures memory { IfErr result (λ stop. stop ≡ PassStop.Memory) }
{
    met.blocks.extend_from_slice(piece.tree_blocks.as_slice())?;
    met.count += piece.mappings.len() as u128;
    met.next = piece.next;
    Ok(())
}

// What a refused piece is: a fork with a fault, or the end of the pass.
fn refused(fault: ReadFault) -> Result<Option<ForkFault>, PassStop>
    ensures { IsRefusal fault result }
{
    match fault {
        ReadFault::Fork(fault) => Ok(Some(fault)),
        ReadFault::Core(_) => Ok(Some(ForkFault::Format)),
        ReadFault::Failed => Err(PassStop::Failed),
        ReadFault::Memory => Err(PassStop::Memory),
    }
}

// Reads the piece of a fork from this offset on, and puts its mappings; or says why it is refused.
fn take_piece<D: Device, L: Ledger>(
    alloc: Global,
    dev: &mut D,
    geo: &Geometry,
    core: &Core3,
    fork: Fork,
    from: u64,
    sets: &mut [ClaimSet],
    met: &mut Met,
    steps: &mut Steps<L>,
) -> Result<Option<ForkFault>, PassStop>
    requires room { geo.now.dblocks ≤ D.blocks dev.old Image }
    requires groups { length sets.old ≡ geo.now.agcount }
    requires few { met.old.count ≤ 512 * from }
    ensures come { TakesPiece (layout geo.now) (D.content dev.old) core.now fork from sets.old met.old steps.old.reads result sets.new met.new steps.new.reads }
    ensures each { CountsPiece (layout geo.now) (D.content dev.old) core.now fork from sets.old met.old steps.old.reads steps.new.reads }
    ensures behind { IfOk result (λ found. found ≡ None → (n : ℕ) → met.new.next ≡ Some n → from < n) }
    ensures few { IfOk result (λ found. found ≡ None → (n : ℕ) → met.new.next ≡ Some n → met.new.count ≤ 512 * n) }
    ensures groups { length sets.new ≡ length sets.old }
    ensures reading { OnlyRead D.Device dev.old dev.new steps.old steps.new }
    ensures cause { HasCause is_failed (D.faults dev.old) (D.faults dev.new) result }
{
    first_fault_tells(core, fork, geo);
    pieces_are_few(core, fork, geo);
    let piece = match piece_of_core(alloc, dev, geo, core, fork, from, steps) {
        Ok(piece) => piece,
        Err(fault) => return refused(fault),
    };
    put_mappings(sets, geo, fork, core.ino, piece.mappings.as_slice())?;
    note_piece(met, &piece)?;
    Ok(None)
}

// Reads all pieces of a fork, and puts its mappings; or says why a piece is refused.
fn read_pieces<D: Device, L: Ledger>(
    alloc: Global,
    dev: &mut D,
    geo: &Geometry,
    core: &Core3,
    fork: Fork,
    sets: &mut [ClaimSet],
    met: &mut Met,
    steps: &mut Steps<L>,
) -> Result<Option<ForkFault>, PassStop>
    requires room { geo.now.dblocks ≤ D.blocks dev.old Image }
    requires groups { length sets.old ≡ geo.now.agcount }
    requires front { met.old.next ≡ Some 0 }
    requires none { met.old.count ≡ 0 }
    requires empty { met.old.blocks.items ≡ [] }
    ensures read { IfOk result (λ found. (c : Contents) → D.content dev.old ≡ Some c → HasRead (layout geo.now) (c Image) core.now fork sets.old sets.new met.new found) }
    ensures groups { length sets.new ≡ length sets.old }
    ensures each { CountsMost (D.content dev.old) (λ c. pieces_most (layout geo.now) (c Image) core.now fork) steps.old.reads steps.new.reads }
    ensures reading { OnlyRead D.Device dev.old dev.new steps.old steps.new }
    ensures cause { HasCause is_failed (D.faults dev.old) (D.faults dev.new) result }
{
    pieces_join(core, fork, geo);
    while let Some(from) = met.next {
        match take_piece(alloc, dev, geo, core, fork, from, sets, met, steps)? {
            None => {}
            Some(fault) => return Ok(Some(fault)),
        }
    }
    Ok(None)
}

// Why a fork's first fault isn't known.
fn stop_of(fault: ReadFault) -> PassStop
    requires { IsOutside fault }
    ensures { is_failed result ≡ is_failed_read fault }
{
    match fault {
        ReadFault::Failed => PassStop::Failed,
        ReadFault::Memory => PassStop::Memory,
        ReadFault::Fork(_) | ReadFault::Core(_) => unreachable!(),
    }
}

// The first fault of a fork of which a piece was refused for this one.
fn worst<D: Device, L: Ledger>(
    alloc: Global,
    dev: &mut D,
    geo: &Geometry,
    core: &Core3,
    fork: Fork,
    refusal: ForkFault,
    steps: &mut Steps<L>,
) -> Result<ForkRead, PassStop>
    requires room { geo.now.dblocks ≤ D.blocks dev.old Image }
    ensures first { IfOk result (λ read. (c : Contents) → D.content dev.old ≡ Some c → IsWorst refusal (walk_fault (layout geo.now) (c Image) core.now fork) read) }
    ensures each { CountsMost (D.content dev.old) (λ c. most_met (layout geo.now) (c Image) core.now fork) steps.old.reads steps.new.reads }
    ensures reading { OnlyRead D.Device dev.old dev.new steps.old steps.new }
    ensures cause { HasCause is_failed (D.faults dev.old) (D.faults dev.new) result }
{
    match first_fault_of_core(alloc, dev, geo, core, fork, steps) {
        Ok(found) => Ok(ForkRead::Bad(found.unwrap_or(refusal))),
        Err(fault) => Err(stop_of(fault)),
    }
}

// Whether a btree has another number of mappings than its core says.
fn is_number_wrong(core: &Core3, fork: Fork, count: u128) -> bool
    ensures { result ≡ is_wrong core.now fork count }
{
    is_in_btree(core, fork) && count != u128::from(mapping_count(core, fork))
}

// Reads a fork of this core piece by piece, and puts its mappings into the sets of their groups; or
// says its first fault.
fn see_pieces<D: Device, L: Ledger>(
    alloc: Global,
    dev: &mut D,
    geo: &Geometry,
    core: &Core3,
    fork: Fork,
    sets: &mut [ClaimSet],
    steps: &mut Steps<L>,
) -> Result<ForkRead, PassStop>
    requires room { geo.now.dblocks ≤ D.blocks dev.old Image }
    requires groups { length sets.old ≡ geo.now.agcount }
    ensures exact { SeesFork (layout geo.now) (D.content dev.old) core.now fork sets.old result sets.new }
    ensures groups { length sets.new ≡ length sets.old }
    ensures each { CountsMost (D.content dev.old) (λ c. fork_most (layout geo.now) (c Image) core.now fork) steps.old.reads steps.new.reads }
    ensures reading { OnlyRead D.Device dev.old dev.new steps.old steps.new }
    ensures cause { HasCause is_failed (D.faults dev.old) (D.faults dev.new) result }
{
    let mut met = Met {
        next: Some(0),
        count: 0,
        blocks: Vec::new(alloc),
    };
    match read_pieces(alloc, dev, geo, core, fork, sets, &mut met, steps)? {
        None => {}
        Some(refusal) => return worst(alloc, dev, geo, core, fork, refusal, steps),
    }
    if is_number_wrong(core, fork, met.count) {
        return Ok(ForkRead::Bad(ForkFault::Count));
    }
    Ok(ForkRead::Blocks(met.blocks))
}

// What the reading of a fork comes to of which the inode itself shows this.
fn shown(error: ForkError) -> Result<ForkRead, PassStop>
    ensures shown { IsShown error result }
    ensures memory { IfErr result (λ stop. stop ≡ PassStop.Memory) }
{
    match error {
        ForkError::Fault(fault) => Ok(ForkRead::Bad(fault)),
        ForkError::Memory => Err(PassStop::Memory),
    }
}

// Puts the mappings of a fork that the inode itself holds, or says its first fault. Nothing is read.
fn see_inline(
    alloc: Global,
    geo: &Geometry,
    core: &Core3,
    fork: Fork,
    sets: &mut [ClaimSet],
) -> Result<ForkRead, PassStop>
    requires own { is_tree core.now fork ≡ false }
    requires groups { length sets.old ≡ geo.now.agcount }
    ensures exact { IfOk result (λ read. (image : ℕ → List ℕ) → IsForkRead (layout geo.now) image core.now fork sets.old sets.new read) }
    ensures groups { length sets.new ≡ length sets.old }
    ensures memory { IfErr result (λ stop. stop ≡ PassStop.Memory) }
{
    inline_is_whole(core, fork, geo);
    let mappings = match inline_fork(alloc, core, fork, geo) {
        Ok(mappings) => mappings,
        Err(error) => return shown(error),
    };
    put_mappings(sets, geo, fork, core.ino, mappings.as_slice())?;
    Ok(ForkRead::Blocks(Vec::new(alloc)))
}

/// Reads a fork of this core, one in btree format piece by piece, and puts its mappings into the sets of
/// their groups; or says the fork's first fault, the number of a btree's mappings at last. Each block is
/// read once, the way down to a piece again, and all once more where there is a fault. A device that
/// failed and want of memory are the refusals (XFS Algorithms and Data Structures, "Data Fork").
pub fn see_fork<D: Device, L: Ledger>(
    alloc: Global,
    dev: &mut D,
    geo: &Geometry,
    core: &Core3,
    fork: Fork,
    sets: &mut [ClaimSet],
    steps: &mut Steps<L>,
) -> Result<ForkRead, PassStop>
    requires room { geo.now.dblocks ≤ D.blocks dev.old Image }
    requires groups { length sets.old ≡ geo.now.agcount }
    ensures exact { SeesFork (layout geo.now) (D.content dev.old) core.now fork sets.old result sets.new }
    ensures groups { length sets.new ≡ length sets.old }
    ensures each { CountsMost (D.content dev.old) (λ c. fork_most (layout geo.now) (c Image) core.now fork) steps.old.reads steps.new.reads }
    ensures reading { OnlyRead D.Device dev.old dev.new steps.old steps.new }
    ensures cause { HasCause is_failed (D.faults dev.old) (D.faults dev.new) result }
{
    if is_in_btree(core, fork) {
        return see_pieces(alloc, dev, geo, core, fork, sets, steps);
    }
    see_inline(alloc, geo, core, fork, sets)
}
