ghost use Rattle.std.specs.Prelude.{◌≡◌, ◌≢◌, ◌+◌, ◌^◌, ◌<◌, ◌≤◌, ◌++◌, length, IfErr, OnOk};
ghost use Rattle.blk_cache.specs.Cache.{AgreesTold};
ghost use Rattle.blk_device.specs.Causes.{HasCause};
ghost use Rattle.blk_device.specs.Reading.{OnlyRead};
ghost use Rattle.blk_device.specs.declared.device.Region.TheVariants.{Image};
ghost use Rattle.join_blocks.specs.Causes.{is_device};
ghost use Rattle.join_blocks.specs.Joins.{count_of, placed_in, LieBelow, OnlyThese, ReadsNew, CountsAll};
ghost use Rattle.tree_edit.specs.Anew.{AreJoined};
ghost use Rattle.tree_edit.specs.Faults.{is_devices, RefusesJoin};
ghost use Rattle.tree_edit.specs.Stopped.{StopsJoin};

use crate::fault::EditFault;
use blk_cache::BlkCache;
use blk_device::Device;
use byte_fields::{Block, Steps};
use join_blocks::{count_with, join_found, join_put};
use meta_txn::{Txn, TxnFault};
use redo_area::MAX_BATCH;
use std::alloc::Global;
use std::sync::ledger::Ledger;

// Joins a tree's new blocks, and the blocks that it leaves, for which there is room.
fn join_both<D: Device, L: Ledger>(
    dev: &mut D,
    cache: &mut BlkCache,
    txn: &mut Txn,
    first: u64,
    placed: &[(u32, Block)],
    left: &[u32],
    steps: &mut Steps<L>,
) -> Result<(), TxnFault>
    requires inside { LieBelow (D.blocks dev.old Image) first (placed_in placed.now ++ left.now) }
    requires fits { LieBelow (2 ^ 64) first (placed_in placed.now ++ left.now) }
    requires room { count_of txn.old.blocks first (placed_in placed.now ++ left.now) ≤ MAX_BATCH }
    requires agreed { AgreesTold cache.old (D.content dev.old) }
    ensures joined { OnOk result (AreJoined (D.content dev.old) first placed.now left.now txn.old.blocks txn.new.blocks) }
    ensures count { OnOk result (CountsAll first (placed_in placed.now ++ left.now) txn.old.blocks txn.new.blocks) }
    ensures others { OnlyThese first (placed_in placed.now ++ left.now) txn.old.blocks txn.new.blocks }
    ensures ticks { OnOk result (ReadsNew steps.old steps.new txn.old.blocks txn.new.blocks) }
    ensures few { steps.new.reads ≤ steps.old.reads + length (placed_in placed.now ++ left.now) }
    ensures marked { txn.new.marked ≡ txn.old.marked }
    ensures kind { IfErr result (λ fault. fault ≡ TxnFault.Failed) }
    ensures reading { OnlyRead D.Device dev.old dev.new steps.old steps.new }
    ensures cause { HasCause is_device (D.faults dev.old) (D.faults dev.new) result }
    ensures agrees { AgreesTold cache.new (D.content dev.new) }
{
    join_put(dev, cache, txn, first, placed, steps)?;
    join_found(dev, cache, txn, first, left, steps)
}

/// Joins a tree's new blocks, and as they are those that it leaves. `touched` are all of them, counted
/// from the group's block 0, which is `first` of the image. Answers TooLarge with the number of blocks
/// that the transaction would have then, exactly where that is above 160, and nothing is joined;
/// Failed only where the device failed, and then some may be joined. What else is joined stays.
pub fn join_tree<D: Device, L: Ledger>(
    alloc: Global,
    dev: &mut D,
    cache: &mut BlkCache,
    txn: &mut Txn,
    first: u64,
    placed: &[(u32, Block)],
    left: &[u32],
    touched: &[u32],
    steps: &mut Steps<L>,
) -> Result<(), EditFault>
    requires touched { touched.now ≡ placed_in placed.now ++ left.now }
    requires inside { LieBelow (D.blocks dev.old Image) first touched.now }
    requires fits { LieBelow (2 ^ 64) first touched.now }
    requires few { length touched.now + MAX_BATCH < 2 ^ 64 }
    requires agreed { AgreesTold cache.old (D.content dev.old) }
    ensures joined { OnOk result (AreJoined (D.content dev.old) first placed.now left.now txn.old.blocks txn.new.blocks) }
    ensures room { OnOk result (count_of txn.old.blocks first touched.now ≤ MAX_BATCH) }
    ensures refused { IfErr result (RefusesJoin (count_of txn.old.blocks first touched.now)) }
    ensures count { OnOk result (length txn.new.blocks ≡ count_of txn.old.blocks first touched.now) }
    ensures ticks { OnOk result (ReadsNew steps.old steps.new txn.old.blocks txn.new.blocks) }
    ensures stops { IfErr result (StopsJoin (length touched.now) steps.old.reads steps.new.reads) }
    ensures kept { MAX_BATCH < count_of txn.old.blocks first touched.now → txn.new ≡ txn.old }
    ensures kept_early { IfErr result (λ fault. fault ≢ EditFault.Failed → txn.new ≡ txn.old) }
    ensures others { OnlyThese first touched.now txn.old.blocks txn.new.blocks }
    ensures marked { txn.new.marked ≡ txn.old.marked }
    ensures reading { OnlyRead D.Device dev.old dev.new steps.old steps.new }
    ensures cause { HasCause is_devices (D.faults dev.old) (D.faults dev.new) result }
    ensures agrees { AgreesTold cache.new (D.content dev.new) }
{
    let count = count_with(alloc, txn, first, touched)?;
    if count > MAX_BATCH as u64 {
        return Err(EditFault::TooLarge(count));
    }
    Ok(join_both(dev, cache, txn, first, placed, left, steps)?)
}
