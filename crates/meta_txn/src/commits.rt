// A batch written and told.
ghost use Rattle.std.specs.Prelude.{◌≡◌, ◌≤◌, ◌<◌, ◌+◌, ◌^◌, ℕ, Bool, [], true, length, IsOk, IfErr, OnOk, OnErr};
ghost use Rattle.blk_cache.specs.Cache.{capacity_of, Agrees, AgreesTold};
ghost use Rattle.blk_device.specs.Causes.{HasCause, any_error};
ghost use Rattle.blk_device.specs.Contents.{Contents, Becomes};
ghost use Rattle.blk_device.specs.declared.device.Region.TheVariants.{Image, Redo};
ghost use Rattle.redo_area.specs.Area.{bytes_of, put_homes, with_batch};
ghost use Rattle.redo_area.specs.Calls.{LeavesFrom, Reaches};
ghost use Rattle.redo_area.specs.Recover.{StaysTold};
ghost use Rattle.redo_area.specs.Stages.{AtRest, AtRestBut, BeforeOrAfter, BeforeOrAfterBut, EndsAs, EndsAsBut};
ghost use Rattle.redo_area.specs.Table.{places, rises};
ghost use Rattle.meta_txn.specs.Whole.{HoldsBatch};

use crate::fault::TxnFault;
use crate::whole::write_whole;
use blk_cache::BlkCache;
use blk_device::{Device, DeviceFailed};
use byte_fields::{Block, Steps};
use redo_area::{MAX_BATCH, REDO_BLOCKS};
use std::sync::ledger::Ledger;

// Counts so many blocks as written.
fn count_written<L: Ledger>(count: usize, steps: &mut Steps<L>)
    ensures { steps.new ≡ record steps.old { writes = steps.old.writes + count } }
{
    let mut left = count;
    while left > 0 {
        steps.block_written();
        left -= 1;
    }
}

// Tells the cache of each block of a batch.
fn note_all(cache: &mut BlkCache, batch: &[(u64, Block)])
    ensures agrees { (contents : Contents) → Agrees cache.old contents → Agrees cache.new (put_homes (bytes_of batch.now) contents) }
    ensures capacity { capacity_of cache.new ≡ capacity_of cache.old }
{
    let mut rest = batch;
    while let Some(((number, block), later)) = rest.split_first() {
        cache.note_written(*number, block);
        rest = later;
    }
}

// Writes a batch that isn't empty, and tells the cache.
fn write_some<D: Device>(
    dev: &mut D,
    cache: &mut BlkCache,
    batch: &[(u64, Block)],
) -> Result<(), DeviceFailed>
    requires few { length batch.now ≤ MAX_BATCH }
    requires room { REDO_BLOCKS ≤ D.blocks dev.old Redo }
    requires some { 0 < length batch.now }
    requires rise { rises 0 (D.blocks dev.old Image) (places batch.now) ≡ true }
    requires agreed { AgreesTold cache.old (D.content dev.old) }
    ensures image { OnOk result (Becomes (D.content dev.old) (D.content dev.new) (HoldsBatch (bytes_of batch.now))) }
    ensures done { Reaches D.Device dev.old dev.new result AtRest (EndsAs (with_batch (bytes_of batch.now))) }
    ensures any_moment { LeavesFrom D.Device dev.old dev.new AtRest (BeforeOrAfter (with_batch (bytes_of batch.now))) }
    ensures done_but { (K : ℕ → Bool) → Reaches D.Device dev.old dev.new result
        (AtRestBut K) (EndsAs (with_batch (bytes_of batch.now))) }
    ensures any_moment_but { (K : ℕ → Bool) → LeavesFrom D.Device dev.old dev.new
        (AtRestBut K) (BeforeOrAfterBut K (with_batch (bytes_of batch.now))) }
    ensures agrees { OnOk result (AgreesTold cache.new (D.content dev.new)) }
    ensures untold { OnErr result (cache.new ≡ cache.old) }
    ensures capacity { capacity_of cache.new ≡ capacity_of cache.old }
    ensures cause { HasCause any_error (D.faults dev.old) (D.faults dev.new) result }
    ensures reads { D.reads dev.new ≡ D.reads dev.old }
    ensures told { StaysTold (D.content dev.old) (D.content dev.new) }
    ensures sizes { D.blocks dev.new ≡ D.blocks dev.old }
{
    write_whole(dev, batch)?;
    // Only now: a block whose write failed may hold anything, and isn't noted.
    note_all(cache, batch);
    Ok(())
}

/// Writes a batch of at most 160 blocks whose numbers rise and count blocks of the image, counts
/// them as written, and tells the cache. Of an empty one nothing is written. Where no batch waits
/// and all writes are synced, a crash during it leaves contents that recovery turns into the image
/// before, or into that with the whole batch.
pub fn write_batch<D: Device, L: Ledger>(
    dev: &mut D,
    cache: &mut BlkCache,
    batch: &[(u64, Block)],
    steps: &mut Steps<L>,
) -> Result<(), TxnFault>
    requires few { length batch.now ≤ MAX_BATCH }
    requires room { REDO_BLOCKS ≤ D.blocks dev.old Redo }
    requires rise { rises 0 (D.blocks dev.old Image) (places batch.now) ≡ true }
    requires agreed { AgreesTold cache.old (D.content dev.old) }
    ensures image { OnOk result (Becomes (D.content dev.old) (D.content dev.new) (HoldsBatch (bytes_of batch.now))) }
    ensures done { Reaches D.Device dev.old dev.new result AtRest (EndsAs (with_batch (bytes_of batch.now))) }
    ensures any_moment { LeavesFrom D.Device dev.old dev.new AtRest (BeforeOrAfter (with_batch (bytes_of batch.now))) }
    ensures done_but { (K : ℕ → Bool) → 0 < length batch.now → Reaches D.Device dev.old dev.new result
        (AtRestBut K) (EndsAs (with_batch (bytes_of batch.now))) }
    ensures rest_but { (K : ℕ → Bool) → Reaches D.Device dev.old dev.new result
        (AtRestBut K) (EndsAsBut K (with_batch (bytes_of batch.now))) }
    ensures any_moment_but { (K : ℕ → Bool) → LeavesFrom D.Device dev.old dev.new
        (AtRestBut K) (BeforeOrAfterBut K (with_batch (bytes_of batch.now))) }
    ensures nothing { bytes_of batch.now ≡ [] → IsOk result × (dev.new ≡ dev.old) × (cache.new ≡ cache.old) }
    ensures agrees { OnOk result (AgreesTold cache.new (D.content dev.new)) }
    ensures untold { OnErr result (cache.new ≡ cache.old) }
    ensures capacity { capacity_of cache.new ≡ capacity_of cache.old }
    ensures ticks { steps.new ≡ record steps.old { writes = steps.old.writes + length batch.now } }
    ensures kind { IfErr result (λ fault. fault ≡ TxnFault.Failed) }
    ensures cause { HasCause any_error (D.faults dev.old) (D.faults dev.new) result }
    ensures reads { D.reads dev.new ≡ D.reads dev.old }
    ensures told { StaysTold (D.content dev.old) (D.content dev.new) }
    ensures sizes { D.blocks dev.new ≡ D.blocks dev.old }
{
    count_written(batch.len(), steps);
    if batch.is_empty() {
        return Ok(());
    }
    write_some(dev, cache, batch)?;
    Ok(())
}
