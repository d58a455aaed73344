// Blocks of inodes, read through the cache.
ghost use Rattle.std.specs.Prelude.{◌≡◌, ◌<◌, ◌≤◌, ◌+◌, IfErr, OnOk};
ghost use Rattle.std.specs.Vec.{vec_capacity, vec_len};
ghost use Rattle.blk_device.specs.Causes.{any_error};
ghost use Rattle.core_parts.specs.Common.Asks.{IsUsable};
ghost use Rattle.core_parts.specs.Keeps.{IsAsked, failed_by};
ghost use Rattle.core_chains.specs.Refill.Halts.{Halts, IsMet};
ghost use Rattle.geom.specs.Places.{HasBlock, HasInode};

use crate::chunks::cores::{are_cores_sound, core_in};
use blk_device::{Device, DeviceFailed};
use byte_fields::{Block, Steps};
use core_calls::WriteFault;
use core_chains::refill::Halt;
use core_chains::write::writer_stop;
use core_parts::Desk;
use dinode_core::Core3;
use fs_model::Cause;
use geom::InodePlace;
use sblock::Kind;
use std::sync::ledger::Ledger;

// The blocks of a chunk.
const CHUNK_BLOCKS: u32 = 8;

// Reads block `b` of group `g` into one that is lent.
#[tactic(auto, using(crate::proofs::chunks::ChunkLemmas::block_asked, crate::proofs::chunks::ChunkLemmas::inside_image))]
fn ask_block<D: Device, L: Ledger>(
    desk: &mut Desk<D>,
    g: u32,
    b: u32,
    into: &mut Block,
    steps: &mut Steps<L>,
) -> Result<(), DeviceFailed>
    requires usable { IsUsable D.Device desk.old }
    requires place { HasBlock desk.old.store.geo g b }
    ensures asked { IsAsked D.Device (failed_by any_error result) desk.old desk.new }
    ensures book { desk.new.book ≡ desk.old.book }
{
    let at = desk.store.geo.device_block(g, b);
    steps.block_read();
    let store = &mut desk.store;
    store.cache.get(&mut store.dev, at, into)
}

// The same, with a failure noted.
#[tactic(auto, using(core_chains::proofs::refill::HaltLemmas::asked_halts, core_chains::proofs::refill::HaltLemmas::halted_halts))]
fn load<D: Device, L: Ledger>(
    desk: &mut Desk<D>,
    g: u32,
    b: u32,
    into: &mut Block,
    steps: &mut Steps<L>,
) -> Result<(), Halt>
    requires usable { IsUsable D.Device desk.old }
    requires place { HasBlock desk.old.store.geo g b }
    ensures halts { Halts D.Device desk.old desk.new result }
    ensures book { OnOk result (desk.new.book ≡ desk.old.book) }
    ensures items { desk.new.book.journal.items ≡ desk.old.book.journal.items }
{
    match ask_block(desk, g, b, into, steps) {
        Ok(()) => Ok(()),
        Err(_) => Err(Halt::Refused(writer_stop(desk, true))),
    }
}

// Whether all cores of a block verify, or what the inode btree met.
fn unless_unsound<D: Device>(desk: &Desk<D>, g: u32, b: u32, block: &Block) -> Result<(), Halt>
    requires place { HasBlock desk.now.store.geo g b }
    ensures { IfErr result IsMet }
{
    if are_cores_sound(block, &desk.store.geo, g, b) {
        Ok(())
    } else {
        Err(Halt::Met(g, Kind::Ino, Cause::Owner))
    }
}

// Reads a block of a chunk, and tests it.
#[tactic(auto, using(core_chains::proofs::refill::HaltLemmas::met_after))]
fn check_block<D: Device, L: Ledger>(
    desk: &mut Desk<D>,
    g: u32,
    b: u32,
    steps: &mut Steps<L>,
) -> Result<(), Halt>
    requires usable { IsUsable D.Device desk.old }
    requires room { vec_len desk.old.book.journal + 2 ≤ vec_capacity desk.old.book.journal }
    requires place { HasBlock desk.old.store.geo g b }
    ensures halts { Halts D.Device desk.old desk.new result }
    ensures book { OnOk result (desk.new.book ≡ desk.old.book) }
    ensures items { desk.new.book.journal.items ≡ desk.old.book.journal.items }
{
    let mut block = Block::zeroed();
    load(desk, g, b, &mut block, steps)?;
    unless_unsound(desk, g, b, &block)
}

// The blocks of the group's chunk from `b` on, so many, one after the other.
fn check_blocks<D: Device, L: Ledger>(
    desk: &mut Desk<D>,
    g: u32,
    b: u32,
    left: u32,
    steps: &mut Steps<L>,
) -> Result<(), Halt>
    requires usable { IsUsable D.Device desk.old }
    requires room { vec_len desk.old.book.journal + 2 ≤ vec_capacity desk.old.book.journal }
    requires group { g < desk.old.store.geo.agcount }
    ensures halts { Halts D.Device desk.old desk.new result }
    ensures book { OnOk result (desk.new.book ≡ desk.old.book) }
    ensures items { desk.new.book.journal.items ≡ desk.old.book.journal.items }
{
    if left == 0 {
        return Ok(());
    }
    // Never: a chunk that was read lies in its group.
    if b >= desk.store.geo.group_len(g) {
        return Err(Halt::Refused(WriteFault::Memory));
    }
    check_block(desk, g, b, steps)?;
    check_blocks(desk, g, b.saturating_add(1), left - 1, steps)
}

/// Stops where a core of an inode's chunk doesn't verify: the inode btree has met an owner
/// (XFS Algorithms and Data Structures, "On-disk Inode").
pub fn check_chunk<D: Device, L: Ledger>(
    desk: &mut Desk<D>,
    place: &InodePlace,
    steps: &mut Steps<L>,
) -> Result<(), Halt>
    requires usable { IsUsable D.Device desk.old }
    requires room { vec_len desk.old.book.journal + 2 ≤ vec_capacity desk.old.book.journal }
    requires group { place.now.group < desk.old.store.geo.agcount }
    ensures halts { Halts D.Device desk.old desk.new result }
    ensures book { OnOk result (desk.new.book ≡ desk.old.book) }
    ensures items { desk.new.book.journal.items ≡ desk.old.book.journal.items }
{
    let first = place.block - place.block % CHUNK_BLOCKS;
    check_blocks(desk, place.group, first, CHUNK_BLOCKS, steps)
}

// The core of a free inode in its block, or what the inode btree met.
fn free_core_in<D: Device>(desk: &Desk<D>, place: &InodePlace, block: &Block) -> Result<Core3, Halt>
    requires place { HasInode desk.now.store.geo place.now }
    ensures { IfErr result IsMet }
{
    let ino = desk.store.geo.inode_number(*place);
    match core_in(block, place.slot, &desk.store.geo, ino) {
        Some(core) => unless_used(place.group, core),
        None => Err(Halt::Met(place.group, Kind::Ino, Cause::Owner)),
    }
}

// The core, where its mode is 0.
fn unless_used(g: u32, core: Core3) -> Result<Core3, Halt>
    ensures { IfErr result IsMet }
{
    if core.mode == 0 {
        Ok(core)
    } else {
        Err(Halt::Met(g, Kind::Ino, Cause::Owner))
    }
}

/// The core of a free inode. Where it doesn't verify, or its mode isn't 0, the inode btree has met an owner
/// (XFS Algorithms and Data Structures, "On-disk Inode").
#[tactic(auto, using(core_chains::proofs::refill::HaltLemmas::met_after))]
pub fn free_core<D: Device, L: Ledger>(
    desk: &mut Desk<D>,
    place: &InodePlace,
    steps: &mut Steps<L>,
) -> Result<Core3, Halt>
    requires usable { IsUsable D.Device desk.old }
    requires room { vec_len desk.old.book.journal + 2 ≤ vec_capacity desk.old.book.journal }
    requires place { HasInode desk.old.store.geo place.now }
    ensures halts { Halts D.Device desk.old desk.new result }
    ensures book { OnOk result (desk.new.book ≡ desk.old.book) }
    ensures items { desk.new.book.journal.items ≡ desk.old.book.journal.items }
{
    let mut block = Block::zeroed();
    load(desk, place.group, place.block, &mut block, steps)?;
    free_core_in(desk, place, &block)
}
