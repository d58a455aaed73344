ghost use Rattle.std.specs.Prelude.{◌≡◌, ◌≤◌, ◌<◌, ◌≢◌, ◌+◌, ◌⊎◌, ◌↔◌, ℕ, true, false, length, None, IfSome, IfOk, IfErr, OnOk, OnErr, IsErrOf};
ghost use Rattle.blk_device.specs.Causes.{HasCause, any_error, Rose, one_more};
ghost use Rattle.blk_device.specs.Contents.{map_told, Becomes};
ghost use Rattle.blk_device.specs.Crash.{Elapses, IsDurable, LeavesOnly, NoMore};
ghost use Rattle.blk_device.specs.Reading.{Keeps};
ghost use Rattle.blk_device.specs.declared.device.Region.TheVariants.{Image, Redo};
ghost use Rattle.redo_area.specs.Area.{put_waiting, AllButHomes, after_crash, after_recovery, closed_over, is_open};
ghost use Rattle.redo_area.specs.Calls.{Leaves};
ghost use Rattle.redo_area.specs.Counts.{RaisedUpTo};
ghost use Rattle.redo_area.specs.Recover.{redo_fault, Answers, IsOldOrSame, IsFound, IsRefused, IsSeen, OnlySettles, StaysTold, TellsFailed};
ghost use Rattle.redo_area.specs.Stages.{Ends, IsInstalled, IsQuiet, StandsFor};
ghost use Rattle.redo_area.specs.Table.{rises, table_count, table_fault, table_numbers};

use crate::area::close_gate;
use crate::faults::RedoFault;
use crate::table::{count_of, fault_of};
use crate::{FIRST_COPY, GATE_BLOCK, MAX_BATCH, REDO_BLOCKS, TABLE_BLOCK};
use blk_device::{Device, DeviceFailed, Region};
use byte_fields::{Block, get_u64};

// Writes the copies that stand in the redo region to the blocks that a table names.
#[tactic(auto, unfolding(crate::specs::Table::table_numbers))]
fn write_waiting<D: Device>(dev: &mut D, table: &Block) -> Result<(), DeviceFailed>
    requires few { table_count table.now.bytes ≤ MAX_BATCH }
    requires room { REDO_BLOCKS ≤ D.blocks dev.old Redo }
    requires rise { rises 0 (D.blocks dev.old Image) (table_numbers table.now.bytes) ≡ true }
    ensures written { OnOk result (D.content dev.new ≡ map_told (put_waiting (table_numbers table.now.bytes) 2) (D.content dev.old)) }
    ensures moments { Keeps D.Device (AllButHomes (table_numbers table.now.bytes)) dev.old dev.new }
    ensures told { StaysTold (D.content dev.old) (D.content dev.new) }
    ensures sizes { D.blocks dev.new ≡ D.blocks dev.old }
    ensures cause { HasCause any_error (D.faults dev.old) (D.faults dev.new) result }
    ensures reads { RaisedUpTo MAX_BATCH (D.reads dev.old) (D.reads dev.new) }
{
    let mut copy = Block::zeroed();
    let mut left = count_of(&table.bytes);
    let mut at = 16;
    let mut place = FIRST_COPY;
    while left > 0 {
        let number = get_u64(&table.bytes, at);
        dev.read(Region::Redo, place, &mut copy)?;
        dev.write(Region::Image, number, &copy)?;
        left -= 1;
        at += 8;
        place += 1;
    }
    Ok(())
}

// Makes both regions durable, and reads the gate and behind an open one the table.
fn look<D: Device>(dev: &mut D, table: &mut Block) -> Result<bool, DeviceFailed>
    requires { REDO_BLOCKS ≤ D.blocks dev.old Redo }
    ensures found { IfOk result (λ b. IfSome (D.content dev.old) (IsSeen b table.new.bytes)) }
    ensures quiet { OnOk result (IfSome (D.content dev.new) (IsQuiet (D.may_hold_now dev.new))) }
    ensures same { D.content dev.new ≡ D.content dev.old }
    ensures crash { NoMore (D.may_hold_now dev.old) (D.may_hold_now dev.new) }
    ensures moments { LeavesOnly D.clock D.may_have_held_since dev.old dev.new (D.may_hold_now dev.old) }
    ensures sizes { D.blocks dev.new ≡ D.blocks dev.old }
    ensures cause { HasCause any_error (D.faults dev.old) (D.faults dev.new) result }
    ensures reads { RaisedUpTo 2 (D.reads dev.old) (D.reads dev.new) }
{
    dev.sync(Region::Image)?;
    dev.sync(Region::Redo)?;
    let mut gate = Block::zeroed();
    dev.read(Region::Redo, GATE_BLOCK, &mut gate)?;
    if gate.bytes[0] != 1 {
        return Ok(false);
    }
    dev.read(Region::Redo, TABLE_BLOCK, table)?;
    Ok(true)
}

// Writes the batch that waits, by its table, and makes the image durable.
fn install_waiting<D: Device>(dev: &mut D, table: &Block) -> Result<(), DeviceFailed>
    requires room { REDO_BLOCKS ≤ D.blocks dev.old Redo }
    requires sound { table_fault (D.blocks dev.old Image) table.now.bytes ≡ None }
    requires found { IfSome (D.content dev.old) (IsFound table.now.bytes (D.may_hold_now dev.old)) }
    ensures written { OnOk result (D.content dev.new ≡ map_told (put_waiting (table_numbers table.now.bytes) 2) (D.content dev.old)) }
    ensures installed { OnOk result (Becomes (D.content dev.old) (D.content dev.new) (λ m n. (n Image ≡ after_crash m) × IsInstalled (D.blocks dev.old Image) (D.may_hold_now dev.new) n)) }
    ensures any_moment { IfSome (D.content dev.old) (λ m. Leaves D.Device dev.old dev.new (StandsFor (D.blocks dev.old Image) (after_crash m))) }
    ensures told { StaysTold (D.content dev.old) (D.content dev.new) }
    ensures sizes { D.blocks dev.new ≡ D.blocks dev.old }
    ensures cause { HasCause any_error (D.faults dev.old) (D.faults dev.new) result }
    ensures reads { RaisedUpTo MAX_BATCH (D.reads dev.old) (D.reads dev.new) }
{
    write_waiting(dev, table)?;
    dev.sync(Region::Image)
}

// Writes the batch that waits, by its table, and closes the gate.
fn finish<D: Device>(dev: &mut D, table: &Block) -> Result<(), DeviceFailed>
    requires room { REDO_BLOCKS ≤ D.blocks dev.old Redo }
    requires sound { table_fault (D.blocks dev.old Image) table.now.bytes ≡ None }
    requires found { IfSome (D.content dev.old) (IsFound table.now.bytes (D.may_hold_now dev.old)) }
    ensures written { OnOk result (D.content dev.new ≡ map_told (closed_over table.now.bytes) (D.content dev.old)) }
    ensures ended { OnOk result (Becomes (D.content dev.old) (D.content dev.new) (λ m. Ends (after_crash m) (D.may_hold_now dev.new))) }
    ensures any_moment { IfSome (D.content dev.old) (λ m. Leaves D.Device dev.old dev.new (StandsFor (D.blocks dev.old Image) (after_crash m))) }
    ensures told { StaysTold (D.content dev.old) (D.content dev.new) }
    ensures sizes { D.blocks dev.new ≡ D.blocks dev.old }
    ensures cause { HasCause any_error (D.faults dev.old) (D.faults dev.new) result }
    ensures reads { RaisedUpTo MAX_BATCH (D.reads dev.old) (D.reads dev.new) }
{
    install_waiting(dev, table)?;
    close_gate(dev)
}

/// Syncs both regions, and where a batch waits writes it and closes the gate; answers whether one
/// was waiting. Refusals come in the order Short, Count, Size, Place. Where no batch waits, and
/// after a refusal, it only read and synced, also where the device failed. A crash during it leaves
/// what one might have left before, or contents that recovery turns into the same image. After Ok
/// no batch waits, and all writes are synced.
pub fn recover<D: Device>(dev: &mut D) -> Result<bool, RedoFault>
    ensures written { OnOk result (D.content dev.new ≡ map_told after_recovery (D.content dev.old)) }
    ensures answers { IfSome (D.content dev.old) (λ m. Answers (redo_fault (D.blocks dev.old Redo) (D.blocks dev.old Image) m) (is_open m) result) }
    ensures ended { OnOk result (Becomes (D.content dev.old) (D.content dev.new) (λ m. Ends (after_crash m) (D.may_hold_now dev.new))) }
    ensures any_moment { IfSome (D.content dev.old) (λ m. Leaves D.Device dev.old dev.new (IsOldOrSame (D.blocks dev.old Image) (D.may_hold_now dev.old) m)) }
    ensures short { IsErrOf result RedoFault.Short ↔ (D.blocks dev.old Redo < REDO_BLOCKS) }
    ensures untouched { D.blocks dev.old Redo < REDO_BLOCKS → dev.new ≡ dev.old }
    ensures still { IfSome (D.content dev.old) (λ m. is_open m ≡ false → OnlySettles D.Device dev.old dev.new) }
    ensures still_faulty { IfSome (D.content dev.old) (λ m. IsRefused D.Device dev.old m → OnlySettles D.Device dev.old dev.new) }
    ensures refused { IfErr result (λ e. e ≢ RedoFault.Failed → OnlySettles D.Device dev.old dev.new) }
    ensures told { StaysTold (D.content dev.old) (D.content dev.new) }
    ensures sizes { D.blocks dev.new ≡ D.blocks dev.old }
    ensures cause { TellsFailed (D.faults dev.old) (D.faults dev.new) result }
    ensures reads { RaisedUpTo REDO_BLOCKS (D.reads dev.old) (D.reads dev.new) }
{
    if dev.size(Region::Redo) < REDO_BLOCKS {
        return Err(RedoFault::Short);
    }
    let mut table = Block::zeroed();
    if !look(dev, &mut table)? {
        return Ok(false);
    }
    if let Some(fault) = fault_of(&table.bytes, dev.size(Region::Image)) {
        return Err(fault);
    }
    finish(dev, &table)?;
    Ok(true)
}

/// Whether a batch waits, by the gate alone. Refuses with Short exactly where the redo region has
/// fewer than 162 blocks, and else with Failed alone. Writes nothing.
pub fn waiting<D: Device>(dev: &mut D) -> Result<bool, RedoFault>
    ensures gate { IfOk result (λ b. IfSome (D.content dev.old) (λ m. b ≡ is_open m)) }
    ensures same { D.content dev.new ≡ D.content dev.old }
    ensures crash { NoMore (D.may_hold_now dev.old) (D.may_hold_now dev.new) }
    ensures time { Elapses (D.clock dev.old) (D.clock dev.new) (D.may_have_held_since dev.old) (D.may_have_held_since dev.new) (D.may_hold_now dev.new) }
    ensures short { IsErrOf result RedoFault.Short ↔ (D.blocks dev.old Redo < REDO_BLOCKS) }
    ensures untouched { D.blocks dev.old Redo < REDO_BLOCKS → dev.new ≡ dev.old }
    ensures kinds { IfErr result (λ e. (e ≡ RedoFault.Short) ⊎ (e ≡ RedoFault.Failed)) }
    ensures sizes { D.blocks dev.new ≡ D.blocks dev.old }
    ensures cause { TellsFailed (D.faults dev.old) (D.faults dev.new) result }
    ensures reads { REDO_BLOCKS ≤ D.blocks dev.old Redo → D.reads dev.new ≡ one_more (D.reads dev.old) }
{
    if dev.size(Region::Redo) < REDO_BLOCKS {
        return Err(RedoFault::Short);
    }
    let mut gate = Block::zeroed();
    dev.read(Region::Redo, GATE_BLOCK, &mut gate)?;
    Ok(gate.bytes[0] == 1)
}
