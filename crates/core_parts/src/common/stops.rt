ghost use Rattle.std.specs.Prelude.{◌≡◌, ◌<◌, ◌≤◌, ◌+◌, ◌∷◌, [], None, IfErr, OnErr, OnOk};
ghost use Rattle.std.specs.Vec.{vec_capacity, vec_len};
ghost use Rattle.core_parts.specs.Common.Asks.{Adds, Answers, IsSame, IsStopped, IsUsable};
ghost use Rattle.core_parts.specs.Common.Entries.{HasMore, IsHalt, IsShutBy, WantsRoom, verdict_entry};
ghost use Rattle.core_parts.specs.Keeps.{IsShaken, IsSteady};
ghost use Rattle.core_parts.specs.Reasons.{AnswersWell, HasReason};
ghost use Rattle.core_parts.specs.Safe.{IsDesk};

use crate::{Desk, MOST_ENTRIES, put_entry};
use blk_device::Device;
use core_calls::ScrubFault;
use fs_model::{Entry, Unit, Verdict};

/// Shut is answered exactly where a fault of the device was noted
/// (XFS Online Fsck Design, "Metadata Scrubbing").
pub fn unless_shut<D: Device>(desk: &Desk<D>) -> Result<(), ScrubFault>
    ensures unshut { OnOk result (desk.now.book.shut ≡ None) }
    ensures shut { IfErr result (HasReason desk.now) }
    ensures halts { IfErr result IsHalt }
    ensures noted { IfErr result (IsShutBy desk.now) }
{
    match desk.book.shut {
        Some(count) => Err(ScrubFault::Shut(count)),
        None => Ok(()),
    }
}

/// Notes that a call on the device has failed: every event is refused from now on, with the device's
/// count of faults as it is here (XFS Online Fsck Design, "Metadata Scrubbing").
pub fn note_fault<D: Device>(desk: &mut Desk<D>) -> ScrubFault
    requires shaken { IsShaken D.Device desk.old }
    ensures desk { IsDesk D.Device desk.new }
    ensures steady { IsSteady D.Device desk.old desk.new }
    ensures reason { HasReason desk.new result }
    ensures items { desk.new.book.journal.items ≡ desk.old.book.journal.items }
    ensures halts { IsHalt result }
{
    let count = desk.store.dev.fault_count();
    desk.book.shut = Some(count);
    ScrubFault::Shut(count)
}

/// What an event answers that a call stopped: Shut, with the fault noted, where the device failed, and
/// Memory else (XFS Online Fsck Design, "Metadata Scrubbing").
pub fn stop_by<D: Device>(desk: &mut Desk<D>, is_failed: bool) -> ScrubFault
    requires stopped { IsStopped D.Device is_failed desk.old }
    ensures desk { IsDesk D.Device desk.new }
    ensures steady { IsSteady D.Device desk.old desk.new }
    ensures reason { HasReason desk.new result }
    ensures items { desk.new.book.journal.items ≡ desk.old.book.journal.items }
    ensures halts { IsHalt result }
{
    if is_failed {
        note_fault(desk)
    } else {
        ScrubFault::Memory
    }
}

/// Room in the journal for so many entries, for an event that adds one: JournalFull where the journal
/// holds 1,048,576 entries or more, and else Memory where there is none
/// (XFS Online Fsck Design, "Metadata Scrubbing").
pub fn entry_room<D: Device>(desk: &mut Desk<D>, many: usize) -> Result<(), ScrubFault>
    ensures room { OnOk result (vec_len desk.new.book.journal + many ≤ vec_capacity desk.new.book.journal) }
    ensures same { IsSame desk.old desk.new }
    ensures reason { AnswersWell desk.new result }
    ensures wants { IfErr result WantsRoom }
{
    if desk.book.journal.len() >= MOST_ENTRIES {
        return Err(ScrubFault::JournalFull);
    }
    match desk.book.journal.reserve(many) {
        Ok(()) => Ok(()),
        Err(_) => Err(ScrubFault::Memory),
    }
}

/// Adds an entry to the journal, in room that is there.
pub fn add_entry<D: Device>(desk: &mut Desk<D>, entry: Entry)
    requires room { vec_len desk.old.book.journal < vec_capacity desk.old.book.journal }
    ensures added { Adds entry desk.old desk.new }
{
    put_entry(&mut desk.book.journal, entry);
}

/// Adds the verdict of a unit to the journal; JournalFull and Memory as `entry_room` says, and then
/// nothing is added (XFS Online Fsck Design, "Metadata Scrubbing").
pub fn say_verdict<D: Device>(
    desk: &mut Desk<D>,
    group: u32,
    unit: Unit,
    verdict: Verdict,
) -> Result<(), ScrubFault>
    requires usable { IsUsable D.Device desk.old }
    ensures answers { Answers D.Device desk.old desk.new result }
    ensures said { OnOk result (HasMore desk.old desk.new (verdict_entry group unit verdict ∷ [])) }
    ensures unsaid { OnErr result (desk.new.book.journal.items ≡ desk.old.book.journal.items) }
    ensures wants { IfErr result WantsRoom }
{
    entry_room(desk, 1)?;
    add_entry(
        desk,
        Entry::Verdict {
            group,
            unit,
            verdict,
        },
    );
    Ok(())
}
