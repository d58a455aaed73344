// Inodes and their blocks, put into the open edit of their group.
ghost use Rattle.std.specs.Prelude.{◌≡◌, ◌<◌, ◌≤◌, true, OnErr, OnOk};
ghost use Rattle.blk_cache.specs.Cache.{AgreesTold};
ghost use Rattle.blk_device.specs.declared.device.Region.TheVariants.{Image};
ghost use Rattle.core_parts.specs.Common.Asks.{IsStopped, IsUsable};
ghost use Rattle.core_parts.specs.Keeps.{IsAsked, IsSteady};
ghost use Rattle.core_parts.specs.Safe.{IsDesk};
ghost use Rattle.core_chains.specs.Refill.Halts.{Halts, HaltsWell};
ghost use Rattle.file_cores.specs.Looks.{Looks, failed_in, is_failed};
ghost use Rattle.file_cores.specs.Puts.{PutsOne};
ghost use Rattle.geom.specs.Places.{HasBlock, HasInode};
ghost use Rattle.core_edit.specs.Opened.{IsOpen};

use crate::chunks::cores::taken_block;
use blk_cache::BlkCache;
use blk_device::Device;
use byte_fields::{Block, Steps};
use core_calls::WriteFault;
use core_chains::refill::Halt;
use core_chains::write::writer_stop;
use core_parts::Desk;
use dinode_core::Core3;
use file_cores::{FileStop, put_file};
use geom::{Geometry, InodePlace};
use inode_table::free_block;
use meta_txn::{Txn, TxnFault};
use std::sync::ledger::Ledger;

// The blocks of a chunk.
const CHUNK_BLOCKS: u32 = 8;

/// How an event stops where an inode is no file, or its block is not joined: so few are joined that a batch
/// is never full of them (XFS Online Fsck Design, "Eventual Consistency").
pub fn stopped_by<D: Device>(desk: &mut Desk<D>, stop: FileStop) -> Halt
    requires stopped { IsStopped D.Device (is_failed stop) desk.old }
    ensures desk { IsDesk D.Device desk.new }
    ensures steady { IsSteady D.Device desk.old desk.new }
    ensures ends { HaltsWell desk.new result }
    ensures items { desk.new.book.journal.items ≡ desk.old.book.journal.items }
{
    match stop {
        FileStop::NoFile => Halt::Refused(WriteFault::NoFile),
        FileStop::TreeFork => Halt::Refused(WriteFault::TreeFork),
        FileStop::Failed => Halt::Refused(writer_stop(desk, true)),
        FileStop::Memory => Halt::Refused(writer_stop(desk, false)),
    }
}

// Puts the core of an inode into the open edit, and marks that.
#[tactic(auto, using(crate::proofs::chunks::ChunkLemmas::looks_asked, crate::proofs::chunks::ChunkLemmas::opens_put))]
fn ask_core<D: Device, L: Ledger>(
    desk: &mut Desk<D>,
    place: &InodePlace,
    core: &Core3,
    steps: &mut Steps<L>,
) -> Result<(), FileStop>
    requires usable { IsUsable D.Device desk.old }
    requires place { HasInode desk.old.store.geo place.now }
    requires opened { IsOpen D.Device place.now.group desk.old.store }
    ensures asked { IsAsked D.Device (failed_in result) desk.old desk.new }
    ensures book { desk.new.book ≡ desk.old.book }
    ensures opened { OnOk result (IsOpen D.Device place.now.group desk.new.store) }
{
    let store = &mut desk.store;
    put_file(
        &mut store.dev,
        &mut store.cache,
        &mut store.edit.txn,
        &store.geo,
        *place,
        core,
        steps,
    )?;
    store.edit.mark();
    Ok(())
}

/// Puts the core of an inode into the open edit of its group
/// (XFS Algorithms and Data Structures, "On-disk Inode").
#[tactic(auto, using(core_chains::proofs::refill::HaltLemmas::asked_halts, core_chains::proofs::refill::HaltLemmas::halted_halts))]
pub fn put_core<D: Device, L: Ledger>(
    desk: &mut Desk<D>,
    place: &InodePlace,
    core: &Core3,
    steps: &mut Steps<L>,
) -> Result<(), Halt>
    requires usable { IsUsable D.Device desk.old }
    requires place { HasInode desk.old.store.geo place.now }
    requires opened { IsOpen D.Device place.now.group desk.old.store }
    ensures halts { Halts D.Device desk.old desk.new result }
    ensures book { OnOk result (desk.new.book ≡ desk.old.book) }
    ensures items { desk.new.book.journal.items ≡ desk.old.book.journal.items }
    ensures opened { OnOk result (IsOpen D.Device place.now.group desk.new.store) }
{
    match ask_core(desk, place, core, steps) {
        Ok(()) => Ok(()),
        Err(stop) => Err(stopped_by(desk, stop)),
    }
}

// Why a block isn't joined.
fn joins_not(fault: TxnFault) -> FileStop
    ensures { is_failed result ≡ true → fault ≡ TxnFault.Failed }
{
    match fault {
        TxnFault::TooMany(_) => FileStop::Memory,
        TxnFault::Failed => FileStop::Failed,
    }
}

// Puts a whole block into a transaction.
#[tactic(auto, using(file_cores::proofs::LookLemmas::inside_image, file_cores::proofs::LookLemmas::searched_looks))]
fn join_block<D: Device, L: Ledger>(
    dev: &mut D,
    cache: &mut BlkCache,
    txn: &mut Txn,
    geo: &Geometry,
    place: (u32, u32),
    block: &Block,
    steps: &mut Steps<L>,
) -> Result<(), FileStop>
    requires place { HasBlock geo.now place.0 place.1 }
    requires room { geo.now.dblocks ≤ D.blocks dev.old Image }
    requires agreed { AgreesTold cache.old (D.content dev.old) }
    ensures put { OnOk result (PutsOne (D.blocks dev.old Image) txn.old.blocks txn.new.blocks) }
    ensures kept { OnErr result (txn.new ≡ txn.old) }
    ensures looks { Looks D.Device (failed_in result) dev.old dev.new cache.new }
{
    let at = geo.device_block(place.0, place.1);
    let found = match txn.join(dev, cache, at, steps) {
        Ok(found) => found,
        Err(fault) => return Err(joins_not(fault)),
    };
    *found = *block;
    Ok(())
}

// Puts a whole block of the group into the open edit, and marks that.
#[tactic(auto, using(crate::proofs::chunks::ChunkLemmas::looks_asked, crate::proofs::chunks::ChunkLemmas::opens_put))]
fn ask_block<D: Device, L: Ledger>(
    desk: &mut Desk<D>,
    g: u32,
    b: u32,
    block: &Block,
    steps: &mut Steps<L>,
) -> Result<(), FileStop>
    requires usable { IsUsable D.Device desk.old }
    requires place { HasBlock desk.old.store.geo g b }
    requires opened { IsOpen D.Device g desk.old.store }
    ensures asked { IsAsked D.Device (failed_in result) desk.old desk.new }
    ensures book { desk.new.book ≡ desk.old.book }
    ensures opened { OnOk result (IsOpen D.Device g desk.new.store) }
{
    let store = &mut desk.store;
    join_block(
        &mut store.dev,
        &mut store.cache,
        &mut store.edit.txn,
        &store.geo,
        (g, b),
        block,
        steps,
    )?;
    store.edit.mark();
    Ok(())
}

// The same, with a failure noted.
#[tactic(auto, using(core_chains::proofs::refill::HaltLemmas::asked_halts, core_chains::proofs::refill::HaltLemmas::halted_halts))]
fn put_block<D: Device, L: Ledger>(
    desk: &mut Desk<D>,
    g: u32,
    b: u32,
    block: &Block,
    steps: &mut Steps<L>,
) -> Result<(), Halt>
    requires usable { IsUsable D.Device desk.old }
    requires place { HasBlock desk.old.store.geo g b }
    requires opened { IsOpen D.Device g desk.old.store }
    ensures halts { Halts D.Device desk.old desk.new result }
    ensures book { OnOk result (desk.new.book ≡ desk.old.book) }
    ensures items { desk.new.book.journal.items ≡ desk.old.book.journal.items }
    ensures opened { OnOk result (IsOpen D.Device g desk.new.store) }
{
    match ask_block(desk, g, b, block, steps) {
        Ok(()) => Ok(()),
        Err(stop) => Err(stopped_by(desk, stop)),
    }
}

// Puts blocks of free inodes into the open edit, from `b` on and so many.
fn put_free<D: Device, L: Ledger>(
    desk: &mut Desk<D>,
    g: u32,
    b: u32,
    left: u32,
    steps: &mut Steps<L>,
) -> Result<(), Halt>
    requires usable { IsUsable D.Device desk.old }
    requires group { g < desk.old.store.geo.agcount }
    requires opened { IsOpen D.Device g desk.old.store }
    ensures halts { Halts D.Device desk.old desk.new result }
    ensures book { OnOk result (desk.new.book ≡ desk.old.book) }
    ensures items { desk.new.book.journal.items ≡ desk.old.book.journal.items }
    ensures opened { OnOk result (IsOpen D.Device g desk.new.store) }
{
    if left == 0 {
        return Ok(());
    }
    // Never: a run of free space lies in its group.
    if b >= desk.store.geo.group_len(g) {
        return Err(Halt::Refused(WriteFault::Memory));
    }
    let block = free_block(&desk.store.geo, g, b);
    put_block(desk, g, b, &block, steps)?;
    put_free(desk, g, b.saturating_add(1), left - 1, steps)
}

/// Puts the blocks of a fresh chunk into the open edit of its group: its first inode is a new file of this
/// owner, and the others are free (XFS Algorithms and Data Structures, "Inode Allocation").
pub fn put_chunk<D: Device, L: Ledger>(
    desk: &mut Desk<D>,
    g: u32,
    b: u32,
    uid: u32,
    steps: &mut Steps<L>,
) -> Result<(), Halt>
    requires usable { IsUsable D.Device desk.old }
    requires group { g < desk.old.store.geo.agcount }
    requires opened { IsOpen D.Device g desk.old.store }
    ensures halts { Halts D.Device desk.old desk.new result }
    ensures book { OnOk result (desk.new.book ≡ desk.old.book) }
    ensures items { desk.new.book.journal.items ≡ desk.old.book.journal.items }
    ensures opened { OnOk result (IsOpen D.Device g desk.new.store) }
{
    // Never: a run of free space lies in its group.
    if b >= desk.store.geo.group_len(g) {
        return Err(Halt::Refused(WriteFault::Memory));
    }
    let block = taken_block(&desk.store.geo, g, b, uid);
    put_block(desk, g, b, &block, steps)?;
    put_free(desk, g, b.saturating_add(1), CHUNK_BLOCKS - 1, steps)
}
