ghost use Rattle.std.specs.Prelude.{◌≡◌, ◌≤◌, ◌<◌, ◌+◌, ◌^◌, ◌↔◌, ℕ, Bool, true, length, slice_index, OnOk, IsErrOf};
ghost use Rattle.blk_device.specs.Causes.{HasCause, any_error, Rose};
ghost use Rattle.blk_device.specs.Contents.{map_told, put};
ghost use Rattle.blk_device.specs.Crash.{IsDurable};
ghost use Rattle.blk_device.specs.Reading.{Keeps};
ghost use Rattle.blk_device.specs.declared.device.Region.TheVariants.{Image, Redo};
ghost use Rattle.redo_area.specs.Area.{Batch, put_copies, put_homes, homes_of, BehindGate, AllButGate, AllButHomes, bytes_of, gate_bytes, staged, with_batch};
ghost use Rattle.redo_area.specs.Beside.{OpensBeside, OpeningLeaves, InstallsWaiting, InstallsBeside, InstallingLeaves};
ghost use Rattle.redo_area.specs.Calls.{LeavesFrom, Reaches};
ghost use Rattle.redo_area.specs.Stages.{After, AfterBut, AtRest, AtRestBut, BeforeOrAfter, BeforeOrAfterBut, EndsAs, EndsAsBut, Installs, IsInstalled, IsInstalledBut, IsReady, IsReadyBut, IsWaiting, IsWaitingBut, Opens, OpensBut, Prepares, PreparesBut, StandsFor, StandsForBut};
ghost use Rattle.redo_area.specs.Recover.{StaysTold};
ghost use Rattle.redo_area.specs.Table.{places, rises};

use crate::faults::BatchFault;
use crate::table::table_block;
use crate::{FIRST_COPY, GATE_BLOCK, MAX_BATCH, REDO_BLOCKS, TABLE_BLOCK};
use blk_device::{Device, DeviceFailed, Region};
use byte_fields::Block;

// Writes the copies of a batch from block 2 of the redo region on.
fn write_copies<D: Device>(dev: &mut D, batch: &[(u64, Block)]) -> Result<(), DeviceFailed>
    requires few { length batch.now ≤ MAX_BATCH }
    requires room { REDO_BLOCKS ≤ D.blocks dev.old Redo }
    ensures written { OnOk result (D.content dev.new ≡ map_told (put_copies batch.now FIRST_COPY) (D.content dev.old)) }
    ensures moments { Keeps D.Device BehindGate dev.old dev.new }
    ensures told { StaysTold (D.content dev.old) (D.content dev.new) }
    ensures sizes { D.blocks dev.new ≡ D.blocks dev.old }
    ensures cause { HasCause any_error (D.faults dev.old) (D.faults dev.new) result }
    ensures reads { D.reads dev.new ≡ D.reads dev.old }
{
    let mut rest = batch;
    let mut at = FIRST_COPY;
    while let Some(((_, block), later)) = rest.split_first() {
        dev.write(Region::Redo, at, block)?;
        at += 1;
        rest = later;
    }
    Ok(())
}

// Writes the blocks of a batch to their places.
fn write_homes<D: Device>(dev: &mut D, batch: &[(u64, Block)]) -> Result<(), DeviceFailed>
    requires { rises 0 (D.blocks dev.old Image) (places batch.now) ≡ true }
    ensures written { OnOk result (D.content dev.new ≡ map_told (put_homes (bytes_of batch.now)) (D.content dev.old)) }
    ensures moments { Keeps D.Device (AllButHomes (homes_of (bytes_of batch.now))) dev.old dev.new }
    ensures told { StaysTold (D.content dev.old) (D.content dev.new) }
    ensures sizes { D.blocks dev.new ≡ D.blocks dev.old }
    ensures cause { HasCause any_error (D.faults dev.old) (D.faults dev.new) result }
    ensures reads { D.reads dev.new ≡ D.reads dev.old }
{
    let mut rest = batch;
    while let Some(((number, block), later)) = rest.split_first() {
        dev.write(Region::Image, *number, block)?;
        rest = later;
    }
    Ok(())
}

// A gate with this in its first byte, and zeros behind it.
#[tactic(auto, unfolding(crate::specs::Area::gate_bytes))]
fn gate_block(value: u8) -> Block
    ensures bytes { result.bytes ≡ gate_bytes value }
    ensures first { slice_index result.bytes 0 ≡ value }
{
    let mut block = Block::zeroed();
    block.bytes[0] = value;
    block
}

// Writes the gate, and makes the redo region durable.
fn write_gate<D: Device>(dev: &mut D, gate: &Block) -> Result<(), DeviceFailed>
    requires { REDO_BLOCKS ≤ D.blocks dev.old Redo }
    ensures written { OnOk result (D.content dev.new ≡ map_told (put Redo 0 gate.now.bytes) (D.content dev.old)) }
    ensures durable { OnOk result (IsDurable Redo (D.content dev.new) (D.may_hold_now dev.new)) }
    ensures moments { Keeps D.Device AllButGate dev.old dev.new }
    ensures told { StaysTold (D.content dev.old) (D.content dev.new) }
    ensures sizes { D.blocks dev.new ≡ D.blocks dev.old }
    ensures cause { HasCause any_error (D.faults dev.old) (D.faults dev.new) result }
    ensures reads { D.reads dev.new ≡ D.reads dev.old }
{
    dev.write(Region::Redo, GATE_BLOCK, gate)?;
    dev.sync(Region::Redo)
}

// Writes table and copies, and makes the redo region durable.
fn stage<D: Device>(dev: &mut D, batch: &[(u64, Block)]) -> Result<(), DeviceFailed>
    requires few { length batch.now ≤ MAX_BATCH }
    requires room { REDO_BLOCKS ≤ D.blocks dev.old Redo }
    ensures written { OnOk result (D.content dev.new ≡ map_told (staged (D.blocks dev.old Image) batch.now) (D.content dev.old)) }
    ensures durable { OnOk result (IsDurable Redo (D.content dev.new) (D.may_hold_now dev.new)) }
    ensures moments { Keeps D.Device BehindGate dev.old dev.new }
    ensures bound { D.blocks dev.old Image < 2 ^ 64 }
    ensures told { StaysTold (D.content dev.old) (D.content dev.new) }
    ensures sizes { D.blocks dev.new ≡ D.blocks dev.old }
    ensures cause { HasCause any_error (D.faults dev.old) (D.faults dev.new) result }
    ensures reads { D.reads dev.new ≡ D.reads dev.old }
{
    let table = table_block(batch, dev.size(Region::Image));
    dev.write(Region::Redo, TABLE_BLOCK, &table)?;
    write_copies(dev, batch)?;
    dev.sync(Region::Redo)
}

/// Writes table and copies of a batch behind the gate, and makes them durable. The numbers of the
/// batch count blocks of the image. Answers TooMany exactly where it has more than 160 blocks,
/// and then nothing was written. Where no batch waits and all writes are synced, a crash during it
/// leaves contents that recovery turns into the image before; where blocks of the image (the set
/// K) aren't synced, the same holds but for these.
pub fn prepare<D: Device>(dev: &mut D, batch: &[(u64, Block)]) -> Result<(), BatchFault>
    requires room { REDO_BLOCKS ≤ D.blocks dev.old Redo }
    requires some { 0 < length batch.now }
    requires rise { rises 0 (D.blocks dev.old Image) (places batch.now) ≡ true }
    ensures written { OnOk result (D.content dev.new ≡ map_told (staged (D.blocks dev.old Image) batch.now) (D.content dev.old)) }
    ensures prepared { Reaches D.Device dev.old dev.new result AtRest (Prepares (D.blocks dev.old Image) (bytes_of batch.now)) }
    ensures any_moment { LeavesFrom D.Device dev.old dev.new AtRest StandsFor }
    ensures prepared_but { (K : ℕ → Bool) → Reaches D.Device dev.old dev.new result
        (AtRestBut K) (PreparesBut K (D.blocks dev.old Image) (bytes_of batch.now)) }
    ensures any_moment_but { (K : ℕ → Bool) → LeavesFrom D.Device dev.old dev.new (AtRestBut K) (StandsForBut K) }
    ensures too_many { (n : ℕ) → IsErrOf result (BatchFault.TooMany n) ↔ ((n ≡ length batch.now) × (MAX_BATCH < length batch.now)) }
    ensures untouched { MAX_BATCH < length batch.now → dev.new ≡ dev.old }
    ensures few { OnOk result (length batch.now ≤ MAX_BATCH) }
    ensures told { StaysTold (D.content dev.old) (D.content dev.new) }
    ensures sizes { D.blocks dev.new ≡ D.blocks dev.old }
    ensures failed { IsErrOf result BatchFault.Failed → Rose (D.faults dev.old) (D.faults dev.new) }
    ensures calm { OnOk result (D.faults dev.new ≡ D.faults dev.old) }
    ensures later { D.faults dev.old ≤ D.faults dev.new }
    ensures reads { D.reads dev.new ≡ D.reads dev.old }
{
    // Before anything is written, so that a refusal leaves the device as it was.
    if batch.len() > MAX_BATCH {
        return Err(BatchFault::TooMany(batch.len() as u64));
    }
    stage(dev, batch)?;
    Ok(())
}

/// Opens the gate, and makes it durable: from Ok on the batch waits that table and copies give.
/// Where they stand there and all writes are synced, a crash during it leaves contents that
/// recovery turns into the image before, or into that with the whole batch; where blocks of the
/// image (the set K) aren't synced, the same holds but for these.
pub fn open_gate<D: Device>(dev: &mut D) -> Result<(), DeviceFailed>
    requires { REDO_BLOCKS ≤ D.blocks dev.old Redo }
    ensures written { OnOk result (D.content dev.new ≡ map_told (put Redo 0 (gate_bytes 1)) (D.content dev.old)) }
    ensures opened { (batch : Batch) → Reaches D.Device dev.old dev.new result
        (IsReady (D.blocks dev.old Image) batch) (Opens (D.blocks dev.old Image) batch) }
    ensures any_moment { (batch : Batch) → LeavesFrom D.Device dev.old dev.new
        (IsReady (D.blocks dev.old Image) batch) (BeforeOrAfter (with_batch batch)) }
    ensures opened_but { OpensBeside D.Device dev.old dev.new result }
    ensures any_moment_but { OpeningLeaves D.Device dev.old dev.new }
    ensures told { StaysTold (D.content dev.old) (D.content dev.new) }
    ensures sizes { D.blocks dev.new ≡ D.blocks dev.old }
    ensures cause { HasCause any_error (D.faults dev.old) (D.faults dev.new) result }
    ensures reads { D.reads dev.new ≡ D.reads dev.old }
{
    write_gate(dev, &gate_block(1))
}

/// Writes the blocks of the batch to their places in the image, and makes them durable. Where
/// this batch waits and all writes are synced, a crash during it leaves contents that recovery
/// turns into the image with the whole batch; where blocks of the image (the set K) aren't synced,
/// the same holds but for these, and after Ok they are.
pub fn install<D: Device>(dev: &mut D, batch: &[(u64, Block)]) -> Result<(), DeviceFailed>
    requires room { REDO_BLOCKS ≤ D.blocks dev.old Redo }
    requires some { 0 < length batch.now }
    requires rise { rises 0 (D.blocks dev.old Image) (places batch.now) ≡ true }
    ensures written { OnOk result (D.content dev.new ≡ map_told (put_homes (bytes_of batch.now)) (D.content dev.old)) }
    ensures installed { InstallsWaiting D.Device (bytes_of batch.now) dev.old dev.new result }
    ensures any_moment { LeavesFrom D.Device dev.old dev.new
        (IsWaiting (D.blocks dev.old Image) (bytes_of batch.now)) (After (with_batch (bytes_of batch.now))) }
    ensures installed_but { InstallsBeside D.Device (bytes_of batch.now) dev.old dev.new result }
    ensures any_moment_but { InstallingLeaves D.Device (bytes_of batch.now) dev.old dev.new }
    ensures told { StaysTold (D.content dev.old) (D.content dev.new) }
    ensures sizes { D.blocks dev.new ≡ D.blocks dev.old }
    ensures cause { HasCause any_error (D.faults dev.old) (D.faults dev.new) result }
    ensures reads { D.reads dev.new ≡ D.reads dev.old }
{
    write_homes(dev, batch)?;
    dev.sync(Region::Image)
}

/// Closes the gate, and makes it durable: from Ok on no batch waits. Where the batch is written
/// and all writes are synced, a crash during it leaves contents that recovery turns into the image
/// as it is; where blocks of the image (the set K) aren't synced, the same holds but for these.
pub fn close_gate<D: Device>(dev: &mut D) -> Result<(), DeviceFailed>
    requires { REDO_BLOCKS ≤ D.blocks dev.old Redo }
    ensures written { OnOk result (D.content dev.new ≡ map_told (put Redo 0 (gate_bytes 0)) (D.content dev.old)) }
    ensures ended { Reaches D.Device dev.old dev.new result (IsInstalled (D.blocks dev.old Image)) (EndsAs (λ image. image)) }
    ensures any_moment { LeavesFrom D.Device dev.old dev.new (IsInstalled (D.blocks dev.old Image)) StandsFor }
    ensures ended_but { (K : ℕ → Bool) → Reaches D.Device dev.old dev.new result
        (IsInstalledBut K (D.blocks dev.old Image)) (EndsAsBut K (λ image. image)) }
    ensures any_moment_but { (K : ℕ → Bool) → LeavesFrom D.Device dev.old dev.new
        (IsInstalledBut K (D.blocks dev.old Image)) (StandsForBut K) }
    ensures told { StaysTold (D.content dev.old) (D.content dev.new) }
    ensures sizes { D.blocks dev.new ≡ D.blocks dev.old }
    ensures cause { HasCause any_error (D.faults dev.old) (D.faults dev.new) result }
    ensures reads { D.reads dev.new ≡ D.reads dev.old }
{
    write_gate(dev, &gate_block(0))
}
