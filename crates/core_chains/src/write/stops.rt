ghost use Rattle.std.specs.Prelude.{◌≡◌, ◌≤◌, ◌+◌, None, IfErr, OnOk};
ghost use Rattle.std.specs.Vec.{vec_capacity, vec_len};
ghost use Rattle.core_calls.specs.declared.answers.WriteFault.TheVariants as faults;
ghost use Rattle.core_parts.specs.Common.Asks.{IsSame, IsStopped};
ghost use Rattle.core_parts.specs.Keeps.{IsSteady};
ghost use Rattle.core_parts.specs.Safe.{IsDesk};
ghost use Rattle.core_chains.specs.Write.Writes.{HasWriteReason, WritesWell, write_of};

use blk_device::Device;
use core_calls::{ScrubFault, WriteFault};
use core_parts::Desk;
use core_parts::common::{entry_room, stop_by};

// How a writer is told what stopped a call.
fn write_fault(fault: ScrubFault) -> WriteFault
    ensures { result ≡ write_of fault }
{
    match fault {
        ScrubFault::JournalFull => WriteFault::JournalFull,
        ScrubFault::Shut(count) => WriteFault::Shut(count),
        _ => WriteFault::Memory,
    }
}

/// Shut is answered exactly where a fault of the device was noted
/// (XFS Online Fsck Design, "Eventual Consistency").
pub fn writer_unshut<D: Device>(desk: &Desk<D>) -> Result<(), WriteFault>
    ensures unshut { OnOk result (desk.now.book.shut ≡ None) }
    ensures reason { WritesWell desk.now result }
{
    match desk.book.shut {
        Some(count) => Err(WriteFault::Shut(count)),
        None => Ok(()),
    }
}

/// What an event answers that a call stopped: Shut, with the fault noted, where the device failed, and
/// Memory else (XFS Online Fsck Design, "Eventual Consistency").
#[tactic(auto, using(crate::proofs::write::WriteLemmas::told_reason))]
pub fn writer_stop<D: Device>(desk: &mut Desk<D>, is_failed: bool) -> WriteFault
    requires stopped { IsStopped D.Device is_failed desk.old }
    ensures desk { IsDesk D.Device desk.new }
    ensures steady { IsSteady D.Device desk.old desk.new }
    ensures reason { HasWriteReason desk.new result }
    ensures items { desk.new.book.journal.items ≡ desk.old.book.journal.items }
{
    write_fault(stop_by(desk, is_failed))
}

/// Room in the journal for so many entries, for an event that begins something: JournalFull where the
/// journal holds 1,048,576 entries or more, and else Memory where there is none
/// (XFS Online Fsck Design, "Eventual Consistency").
#[tactic(auto, using(crate::proofs::write::WriteLemmas::told_well))]
pub fn writer_room<D: Device>(desk: &mut Desk<D>, many: usize) -> Result<(), WriteFault>
    ensures room { OnOk result (vec_len desk.new.book.journal + many ≤ vec_capacity desk.new.book.journal) }
    ensures same { IsSame desk.old desk.new }
    ensures reason { WritesWell desk.new result }
{
    match entry_room(desk, many) {
        Ok(()) => Ok(()),
        Err(fault) => Err(write_fault(fault)),
    }
}

/// Room in the journal for so many entries, for an event of a chain, which a full journal doesn't stop:
/// Memory where there is none (XFS Online Fsck Design, "Eventual Consistency").
pub fn chain_room<D: Device>(desk: &mut Desk<D>, many: usize) -> Result<(), WriteFault>
    ensures room { OnOk result (vec_len desk.new.book.journal + many ≤ vec_capacity desk.new.book.journal) }
    ensures same { IsSame desk.old desk.new }
    ensures reason { WritesWell desk.new result }
    ensures memory { IfErr result (λ fault. fault ≡ faults.Memory) }
{
    match desk.book.journal.reserve(many) {
        Ok(()) => Ok(()),
        Err(_) => Err(WriteFault::Memory),
    }
}
