// A batch written whole, or not at all after a crash.
ghost use Rattle.std.specs.Prelude.{◌≡◌, ◌≤◌, ◌<◌, ℕ, Bool, true, length, OnOk};
ghost use Rattle.blk_device.specs.Causes.{HasCause, any_error};
ghost use Rattle.blk_device.specs.Contents.{Becomes};
ghost use Rattle.blk_device.specs.declared.device.Region.TheVariants.{Image, Redo};
ghost use Rattle.redo_area.specs.Area.{bytes_of, with_batch};
ghost use Rattle.redo_area.specs.Calls.{LeavesFrom, Reaches};
ghost use Rattle.redo_area.specs.Recover.{StaysTold};
ghost use Rattle.redo_area.specs.Stages.{After, AfterBut, AtRest, AtRestBut, BeforeOrAfter, BeforeOrAfterBut, EndsAs, IsReady, IsReadyBut, IsWaiting, IsWaitingBut, Prepares, PreparesBut, StandsFor, StandsForBut};
ghost use Rattle.redo_area.specs.Table.{places, rises};
ghost use Rattle.meta_txn.specs.Whole.{HoldsBatch, SameImage};

use blk_device::{Device, DeviceFailed};
use byte_fields::Block;
use redo_area::{MAX_BATCH, REDO_BLOCKS, close_gate, install, open_gate, prepare};

// Writes the blocks of the batch that waits to their places, and closes the gate.
fn write_waiting<D: Device>(dev: &mut D, batch: &[(u64, Block)]) -> Result<(), DeviceFailed>
    requires room { REDO_BLOCKS ≤ D.blocks dev.old Redo }
    requires some { 0 < length batch.now }
    requires rise { rises 0 (D.blocks dev.old Image) (places batch.now) ≡ true }
    ensures image { OnOk result (Becomes (D.content dev.old) (D.content dev.new) (HoldsBatch (bytes_of batch.now))) }
    ensures done { Reaches D.Device dev.old dev.new result
        (IsWaiting (D.blocks dev.old Image) (bytes_of batch.now)) (EndsAs (with_batch (bytes_of batch.now))) }
    ensures any_moment { LeavesFrom D.Device dev.old dev.new
        (IsWaiting (D.blocks dev.old Image) (bytes_of batch.now)) (After (with_batch (bytes_of batch.now))) }
    ensures done_but { (K : ℕ → Bool) → Reaches D.Device dev.old dev.new result
        (IsWaitingBut K (D.blocks dev.old Image) (bytes_of batch.now)) (EndsAs (with_batch (bytes_of batch.now))) }
    ensures any_moment_but { (K : ℕ → Bool) → LeavesFrom D.Device dev.old dev.new
        (IsWaitingBut K (D.blocks dev.old Image) (bytes_of batch.now)) (AfterBut K (with_batch (bytes_of batch.now))) }
    ensures told { StaysTold (D.content dev.old) (D.content dev.new) }
    ensures sizes { D.blocks dev.new ≡ D.blocks dev.old }
    ensures cause { HasCause any_error (D.faults dev.old) (D.faults dev.new) result }
    ensures reads { D.reads dev.new ≡ D.reads dev.old }
{
    install(dev, batch)?;
    close_gate(dev)
}

// Opens the gate for the batch that is prepared, and writes it.
fn write_ready<D: Device>(dev: &mut D, batch: &[(u64, Block)]) -> Result<(), DeviceFailed>
    requires room { REDO_BLOCKS ≤ D.blocks dev.old Redo }
    requires some { 0 < length batch.now }
    requires rise { rises 0 (D.blocks dev.old Image) (places batch.now) ≡ true }
    ensures image { OnOk result (Becomes (D.content dev.old) (D.content dev.new) (HoldsBatch (bytes_of batch.now))) }
    ensures done { Reaches D.Device dev.old dev.new result
        (IsReady (D.blocks dev.old Image) (bytes_of batch.now)) (EndsAs (with_batch (bytes_of batch.now))) }
    ensures any_moment { LeavesFrom D.Device dev.old dev.new
        (IsReady (D.blocks dev.old Image) (bytes_of batch.now)) (BeforeOrAfter (with_batch (bytes_of batch.now))) }
    ensures done_but { (K : ℕ → Bool) → Reaches D.Device dev.old dev.new result
        (IsReadyBut K (D.blocks dev.old Image) (bytes_of batch.now)) (EndsAs (with_batch (bytes_of batch.now))) }
    ensures any_moment_but { (K : ℕ → Bool) → LeavesFrom D.Device dev.old dev.new
        (IsReadyBut K (D.blocks dev.old Image) (bytes_of batch.now)) (BeforeOrAfterBut K (with_batch (bytes_of batch.now))) }
    ensures told { StaysTold (D.content dev.old) (D.content dev.new) }
    ensures sizes { D.blocks dev.new ≡ D.blocks dev.old }
    ensures cause { HasCause any_error (D.faults dev.old) (D.faults dev.new) result }
    ensures reads { D.reads dev.new ≡ D.reads dev.old }
{
    open_gate(dev)?;
    write_waiting(dev, batch)
}

// Prepares a batch, and has it done.
fn prepared<D: Device>(dev: &mut D, batch: &[(u64, Block)]) -> Result<(), DeviceFailed>
    requires few { length batch.now ≤ MAX_BATCH }
    requires room { REDO_BLOCKS ≤ D.blocks dev.old Redo }
    requires some { 0 < length batch.now }
    requires rise { rises 0 (D.blocks dev.old Image) (places batch.now) ≡ true }
    ensures image { OnOk result (Becomes (D.content dev.old) (D.content dev.new) SameImage) }
    ensures ready { Reaches D.Device dev.old dev.new result AtRest (Prepares (D.blocks dev.old Image) (bytes_of batch.now)) }
    ensures any_moment { LeavesFrom D.Device dev.old dev.new AtRest StandsFor }
    ensures ready_but { (K : ℕ → Bool) → Reaches D.Device dev.old dev.new result
        (AtRestBut K) (PreparesBut K (D.blocks dev.old Image) (bytes_of batch.now)) }
    ensures any_moment_but { (K : ℕ → Bool) → LeavesFrom D.Device dev.old dev.new (AtRestBut K) (StandsForBut K) }
    ensures told { StaysTold (D.content dev.old) (D.content dev.new) }
    ensures sizes { D.blocks dev.new ≡ D.blocks dev.old }
    ensures cause { HasCause any_error (D.faults dev.old) (D.faults dev.new) result }
    ensures reads { D.reads dev.new ≡ D.reads dev.old }
{
    // A batch of so few blocks is refused only where the device failed.
    prepare(dev, batch).map_err(|_| DeviceFailed)
}

/// Writes a batch of 1 to 160 blocks whose numbers rise and count blocks of the image. Where no
/// batch waits and all writes are synced, a crash during it leaves contents that recovery turns
/// into the image before, or into that with the whole batch; after Ok it is with the batch, all
/// synced.
pub fn write_whole<D: Device>(dev: &mut D, batch: &[(u64, Block)]) -> Result<(), DeviceFailed>
    requires few { length batch.now ≤ MAX_BATCH }
    requires room { REDO_BLOCKS ≤ D.blocks dev.old Redo }
    requires some { 0 < length batch.now }
    requires rise { rises 0 (D.blocks dev.old Image) (places batch.now) ≡ true }
    ensures image { OnOk result (Becomes (D.content dev.old) (D.content dev.new) (HoldsBatch (bytes_of batch.now))) }
    ensures done { Reaches D.Device dev.old dev.new result AtRest (EndsAs (with_batch (bytes_of batch.now))) }
    ensures any_moment { LeavesFrom D.Device dev.old dev.new AtRest (BeforeOrAfter (with_batch (bytes_of batch.now))) }
    ensures done_but { (K : ℕ → Bool) → Reaches D.Device dev.old dev.new result
        (AtRestBut K) (EndsAs (with_batch (bytes_of batch.now))) }
    ensures any_moment_but { (K : ℕ → Bool) → LeavesFrom D.Device dev.old dev.new
        (AtRestBut K) (BeforeOrAfterBut K (with_batch (bytes_of batch.now))) }
    ensures told { StaysTold (D.content dev.old) (D.content dev.new) }
    ensures sizes { D.blocks dev.new ≡ D.blocks dev.old }
    ensures cause { HasCause any_error (D.faults dev.old) (D.faults dev.new) result }
    ensures reads { D.reads dev.new ≡ D.reads dev.old }
{
    prepared(dev, batch)?;
    write_ready(dev, batch)
}
