// The heads written, and the one commit.
ghost use Rattle.std.specs.Prelude.{◌≡◌, ◌<◌, ◌≤◌, ℕ, Bool, true, OnOk, IfErr};
ghost use Rattle.ag_headers.specs.Agfl.{NamesRing};
ghost use Rattle.blk_cache.specs.Cache.{AgreesTold};
ghost use Rattle.blk_device.specs.Causes.{HasCause};
ghost use Rattle.blk_device.specs.Reading.{OnlyRead};
ghost use Rattle.blk_device.specs.declared.device.Region.TheVariants.{Image, Redo};
ghost use Rattle.fs_state.specs.Kinds.{heads_in};
ghost use Rattle.geom.specs.Layout.{Layout};
ghost use Rattle.geom.specs.Places.{device_block, layout};
ghost use Rattle.join_blocks.specs.Joins.{is_joined};
ghost use Rattle.blk_device.specs.Contents.{Becomes};
ghost use Rattle.meta_txn.specs.Joined.{AreBelow, empty, written, written_by};
ghost use Rattle.redo_area.specs.Calls.{LeavesFrom};
ghost use Rattle.redo_area.specs.Recover.{StaysTold};
ghost use Rattle.redo_area.specs.Stages.{AtRest, AtRestBut, BeforeOrAfter, BeforeOrAfterBut};
ghost use Rattle.redo_area.specs.declared.TheConstants.{REDO_BLOCKS};
ghost use Rattle.core_edit.specs.Closed.{AreAccepted, Closes, PutsHeads, closed};
ghost use Rattle.core_edit.specs.Heads.{seen};
ghost use Rattle.core_edit.specs.Open.{is_device};
ghost use Rattle.core_edit.specs.Written.{IsWritten};

use crate::heads::EditHeads;
use crate::open::{OpenEdit, failed};
use crate::stop::Stop;
use blk_cache::BlkCache;
use blk_device::Device;
use byte_fields::{Block, Steps};
use geom::Geometry;
use join_blocks::join_put;
use meta_txn::Txn;
use std::sync::ledger::Ledger;

// The heads as they are written: the AGF tells which part of the ring is in use, too.
fn closed_heads(heads: &EditHeads) -> EditHeads
    ensures { result ≡ closed heads.now }
{
    let mut agf = heads.agf;
    agf.flfirst = heads.list.first();
    agf.fllast = heads.list.last();
    agf.flcount = heads.list.len();
    EditHeads {
        agf,
        agi: heads.agi,
        list: heads.list,
    }
}

// Writes the three heads into their sectors of block 0.
fn put_heads(heads: &EditHeads, block: &mut Block)
    requires { NamesRing heads.now.agf heads.now.list }
    ensures heads { heads_in block.new.bytes ≡ seen heads.now }
    ensures accepted { (at : Layout) (g : ℕ) → AreAccepted at g heads.now block.new.bytes }
{
    heads.agf.encode(block);
    heads.agi.encode(block);
    heads.list.encode(block);
}

// Writes the heads into block 0 of their group, which is joined.
fn write_heads<D: Device, L: Ledger>(
    dev: &mut D,
    cache: &mut BlkCache,
    txn: &mut Txn,
    first: u64,
    heads: &EditHeads,
    steps: &mut Steps<L>,
) -> Result<(), Stop>
    requires named { NamesRing heads.now.agf heads.now.list }
    requires inside { first < D.blocks dev.old Image }
    requires joined { is_joined txn.old.blocks first ≡ true }
    requires agreed { AgreesTold cache.old (D.content dev.old) }
    ensures put { OnOk result (PutsHeads first heads.now txn.old.blocks txn.new.blocks) }
    ensures below { AreBelow (D.blocks dev.old Image) txn.old.blocks → OnOk result (AreBelow (D.blocks dev.old Image) txn.new.blocks) }
    ensures kind { IfErr result (λ stop. stop ≡ Stop.Failed) }
    ensures reading { OnlyRead D.Device dev.old dev.new steps.old steps.new }
    ensures cause { HasCause is_device (D.faults dev.old) (D.faults dev.new) result }
    ensures agrees { AgreesTold cache.new (D.content dev.new) }
{
    let _ = txn.len();
    let mut block = match txn.peek(dev, cache, first, steps) {
        Ok(block) => block,
        Err(fault) => return Err(failed(fault)),
    };
    put_heads(heads, &mut block);
    match join_put(dev, cache, txn, first, &[(0, block)], steps) {
        Ok(()) => Ok(()),
        Err(fault) => Err(failed(fault)),
    }
}

// Writes all that is joined, or nothing.
fn commit_all<D: Device, L: Ledger>(
    dev: &mut D,
    cache: &mut BlkCache,
    txn: &mut Txn,
    steps: &mut Steps<L>,
) -> Result<(), Stop>
    requires redo { REDO_BLOCKS ≤ D.blocks dev.old Redo }
    requires below { AreBelow (D.blocks dev.old Image) txn.old.blocks }
    requires agreed { AgreesTold cache.old (D.content dev.old) }
    ensures image { OnOk result (Becomes (D.content dev.old) (D.content dev.new) (λ m n. n Image ≡ written (m Image) txn.old)) }
    ensures crash { LeavesFrom D.Device dev.old dev.new AtRest (BeforeOrAfter (written_by txn.old)) }
    ensures crash_but { (K : ℕ → Bool) → LeavesFrom D.Device dev.old dev.new (AtRestBut K) (BeforeOrAfterBut K (written_by txn.old)) }
    ensures emptied { txn.new ≡ empty }
    ensures kind { IfErr result (λ stop. stop ≡ Stop.Failed) }
    ensures cause { HasCause is_device (D.faults dev.old) (D.faults dev.new) result }
    ensures agrees { OnOk result (AgreesTold cache.new (D.content dev.new)) }
    ensures told { StaysTold (D.content dev.old) (D.content dev.new) }
    ensures sizes { D.blocks dev.new ≡ D.blocks dev.old }
{
    match txn.commit(dev, cache, steps) {
        Ok(()) => Ok(()),
        Err(fault) => Err(failed(fault)),
    }
}

impl OpenEdit {
    /// Writes the heads, with all that follows from the edits, and makes the one commit. Where no batch
    /// waits, a crash at any moment leaves the image before or the one with all of it, and after Ok it
    /// has all of it. Failed alone, and only where the device failed. The heads are kept as they were
    /// written, and the transaction is empty.
    pub fn close<D: Device, L: Ledger>(
        &mut self,
        dev: &mut D,
        cache: &mut BlkCache,
        geo: &Geometry,
        steps: &mut Steps<L>,
    ) -> Result<(), Stop>
        requires group { self.old.group < geo.now.agcount }
        requires room { geo.now.dblocks ≤ D.blocks dev.old Image }
        requires redo { REDO_BLOCKS ≤ D.blocks dev.old Redo }
        requires joined { is_joined self.old.txn.blocks (device_block geo.now self.old.group 0) ≡ true }
        requires below { AreBelow (D.blocks dev.old Image) self.old.txn.blocks }
        requires agreed { AgreesTold cache.old (D.content dev.old) }
        ensures closed { Closes D.Device dev.old dev.new (device_block geo.now self.old.group 0) self.old self.new result }
        ensures stands { IsWritten }
        ensures kind { IfErr result (λ stop. stop ≡ Stop.Failed) }
        ensures cause { HasCause is_device (D.faults dev.old) (D.faults dev.new) result }
        ensures agrees { OnOk result (AgreesTold cache.new (D.content dev.new)) }
        ensures told { StaysTold (D.content dev.old) (D.content dev.new) }
        ensures sizes { D.blocks dev.new ≡ D.blocks dev.old }
    {
        let first = geo.device_block(self.group, 0);
        self.heads = closed_heads(&self.heads);
        match write_heads(dev, cache, &mut self.txn, first, &self.heads, steps) {
            Ok(()) => commit_all(dev, cache, &mut self.txn, steps),
            Err(stop) => Err(stop),
        }
    }
}
