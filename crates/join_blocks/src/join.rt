ghost use Rattle.std.specs.Prelude.{◌≡◌, ◌+◌, ◌^◌, ◌<◌, ◌≤◌, ◌↔◌, ◌++◌, ℕ, true, suc, List, length, map, is_some, if◌then◌else◌, IfErr, OnOk, OnErr, IsErrOf};
ghost use Rattle.blk_cache.specs.Cache.{AgreesTold};
ghost use Rattle.blk_device.specs.Causes.{HasCause, any_error};
ghost use Rattle.blk_device.specs.Reading.{OnlyRead};
ghost use Rattle.blk_device.specs.declared.device.Region.TheVariants.{Image};
ghost use Rattle.meta_txn.specs.Joined.{bytes_at, with_block, Finds, WouldBe};
ghost use Rattle.join_blocks.specs.Joins.{is_joined, count_of, with_all, placed_in, LieBelow, AreFound, OnlyThese, ReadsNew, CountsAll};
ghost use Rattle.join_blocks.specs.Causes.{is_device};

use blk_cache::BlkCache;
use blk_device::Device;
use byte_fields::{Block, Steps};
use meta_txn::{Txn, TxnFault};
use redo_area::MAX_BATCH;
use std::sync::ledger::Ledger;

// Joins one block, with these bytes.
fn put_one<D: Device, L: Ledger>(
    dev: &mut D,
    cache: &mut BlkCache,
    txn: &mut Txn,
    at: u64,
    block: &Block,
    steps: &mut Steps<L>,
) -> Result<(), TxnFault>
    requires inside { at < D.blocks dev.old Image }
    requires agreed { AgreesTold cache.old (D.content dev.old) }
    ensures put { OnOk result (txn.new.blocks ≡ with_block at block.now.bytes txn.old.blocks) }
    ensures count { OnOk result (length txn.new.blocks ≡ (if is_joined txn.old.blocks at then length txn.old.blocks else suc (length txn.old.blocks))) }
    ensures marked { txn.new.marked ≡ txn.old.marked }
    ensures kind { length txn.old.blocks < MAX_BATCH → IfErr result (λ fault. fault ≡ TxnFault.Failed) }
    ensures kind_joined { is_joined txn.old.blocks at ≡ true → IfErr result (λ fault. fault ≡ TxnFault.Failed) }
    ensures ticks { OnOk result (ReadsNew steps.old steps.new txn.old.blocks txn.new.blocks) }
    ensures few { steps.new.reads ≤ steps.old.reads + 1 }
    ensures kept { OnErr result (txn.new ≡ txn.old) }
    ensures reading { OnlyRead D.Device dev.old dev.new steps.old steps.new }
    ensures cause { HasCause is_device (D.faults dev.old) (D.faults dev.new) result }
    ensures agrees { AgreesTold cache.new (D.content dev.new) }
{
    let _ = txn.len();
    let found = txn.join(dev, cache, at, steps)?;
    *found = *block;
    Ok(())
}

// Joins one block as it is found.
fn find_one<D: Device, L: Ledger>(
    dev: &mut D,
    cache: &mut BlkCache,
    txn: &mut Txn,
    at: u64,
    steps: &mut Steps<L>,
) -> Result<(), TxnFault>
    requires inside { at < D.blocks dev.old Image }
    requires agreed { AgreesTold cache.old (D.content dev.old) }
    ensures found { OnOk result ((bytes : List ℕ) × Finds at txn.old.blocks (D.content dev.old) bytes × (txn.new.blocks ≡ with_block at bytes txn.old.blocks)) }
    ensures count { OnOk result (length txn.new.blocks ≡ (if is_joined txn.old.blocks at then length txn.old.blocks else suc (length txn.old.blocks))) }
    ensures marked { txn.new.marked ≡ txn.old.marked }
    ensures kind { length txn.old.blocks < MAX_BATCH → IfErr result (λ fault. fault ≡ TxnFault.Failed) }
    ensures kind_joined { is_joined txn.old.blocks at ≡ true → IfErr result (λ fault. fault ≡ TxnFault.Failed) }
    ensures ticks { OnOk result (ReadsNew steps.old steps.new txn.old.blocks txn.new.blocks) }
    ensures few { steps.new.reads ≤ steps.old.reads + 1 }
    ensures kept { OnErr result (txn.new ≡ txn.old) }
    ensures reading { OnlyRead D.Device dev.old dev.new steps.old steps.new }
    ensures cause { HasCause is_device (D.faults dev.old) (D.faults dev.new) result }
    ensures agrees { AgreesTold cache.new (D.content dev.new) }
{
    let _ = txn.len();
    // Joined as it is found, also to be freed: so who counts joined blocks counts freed ones too.
    let _ = txn.join(dev, cache, at, steps)?;
    Ok(())
}

/// Joins these blocks of a group, each with the bytes beside it; `first` is the image's number of the
/// group's block 0. The condition is that the transaction has room for them. Each that wasn't joined
/// is counted as read. Answers Failed alone, only where the device failed, and then some of them may
/// be joined; every other block and the mark stay.
pub fn join_put<D: Device, L: Ledger>(
    dev: &mut D,
    cache: &mut BlkCache,
    txn: &mut Txn,
    first: u64,
    placed: &[(u32, Block)],
    steps: &mut Steps<L>,
) -> Result<(), TxnFault>
    requires inside { LieBelow (D.blocks dev.old Image) first (placed_in placed.now) }
    requires fits { LieBelow (2 ^ 64) first (placed_in placed.now) }
    requires room { count_of txn.old.blocks first (placed_in placed.now) ≤ MAX_BATCH }
    requires agreed { AgreesTold cache.old (D.content dev.old) }
    ensures put { OnOk result (txn.new.blocks ≡ with_all first placed.now txn.old.blocks) }
    ensures count { OnOk result (CountsAll first (placed_in placed.now) txn.old.blocks txn.new.blocks) }
    ensures others { OnlyThese first (placed_in placed.now) txn.old.blocks txn.new.blocks }
    ensures marked { txn.new.marked ≡ txn.old.marked }
    ensures ticks { OnOk result (ReadsNew steps.old steps.new txn.old.blocks txn.new.blocks) }
    ensures few { steps.new.reads ≤ steps.old.reads + length placed.now }
    ensures kind { IfErr result (λ fault. fault ≡ TxnFault.Failed) }
    ensures reading { OnlyRead D.Device dev.old dev.new steps.old steps.new }
    ensures cause { HasCause is_device (D.faults dev.old) (D.faults dev.new) result }
    ensures agrees { AgreesTold cache.new (D.content dev.new) }
{
    let mut rest = placed;
    while let Some(((block, bytes), later)) = rest.split_first() {
        put_one(dev, cache, txn, first + u64::from(*block), bytes, steps)?;
        rest = later;
    }
    Ok(())
}

/// Joins these blocks of a group as the transaction or the device has them. Conditions and answers are
/// those of [`join_put`].
pub fn join_found<D: Device, L: Ledger>(
    dev: &mut D,
    cache: &mut BlkCache,
    txn: &mut Txn,
    first: u64,
    blocks: &[u32],
    steps: &mut Steps<L>,
) -> Result<(), TxnFault>
    requires inside { LieBelow (D.blocks dev.old Image) first blocks.now }
    requires fits { LieBelow (2 ^ 64) first blocks.now }
    requires room { count_of txn.old.blocks first blocks.now ≤ MAX_BATCH }
    requires agreed { AgreesTold cache.old (D.content dev.old) }
    ensures found { OnOk result (AreFound (D.content dev.old) first blocks.now txn.old.blocks txn.new.blocks) }
    ensures count { OnOk result (CountsAll first blocks.now txn.old.blocks txn.new.blocks) }
    ensures others { OnlyThese first blocks.now txn.old.blocks txn.new.blocks }
    ensures marked { txn.new.marked ≡ txn.old.marked }
    ensures ticks { OnOk result (ReadsNew steps.old steps.new txn.old.blocks txn.new.blocks) }
    ensures few { steps.new.reads ≤ steps.old.reads + length blocks.now }
    ensures kind { IfErr result (λ fault. fault ≡ TxnFault.Failed) }
    ensures reading { OnlyRead D.Device dev.old dev.new steps.old steps.new }
    ensures cause { HasCause is_device (D.faults dev.old) (D.faults dev.new) result }
    ensures agrees { AgreesTold cache.new (D.content dev.new) }
{
    let mut rest = blocks;
    while let Some((block, later)) = rest.split_first() {
        find_one(dev, cache, txn, first + u64::from(*block), steps)?;
        rest = later;
    }
    Ok(())
}
