//! A repair of an image: the device is opened for a change, and always given back.
ghost use Rattle.std.specs.Prelude.{◌≡◌, ◌≤◌, ◌==◌, ℕ, List, None, Option, Some, false, not};
ghost use Rattle.blk_device.specs.Causes.{MovesOnly};
ghost use Rattle.quiet_repair.specs.Ends.{EndsWell, HasOrder, KeepsOrder, StopsWell};
ghost use Rattle.repair_door.specs.Causes.{is_failed as is_failed_entry};
ghost use Rattle.blk_device.specs.Contents.{Contents};
ghost use Rattle.blk_device.specs.declared.device.Region.TheVariants.{Image, Redo};
ghost use Rattle.quiet_repair.specs.Refusals.{RefusesAs};
ghost use Rattle.repair_door.specs.Doors.{IsDecided};
ghost use Rattle.quiet_repair.specs.Sound.{DoesNothing, IsNothingDone};
ghost use Rattle.xscrub.specs.Alone.{FindsAlone, FindsFailed, LentAlone, StaysAlone};
ghost use Rattle.xscrub.specs.Command.{repair_of};
ghost use Rattle.xscrub.specs.Doors.{EndsAtDoor, FindsAtDoor, FindsByDoor, LeavesImage, RepairLeaves, image_told};
ghost use Rattle.xscrub.specs.Outcome.{outcome_of};
ghost use Rattle.xscrub.specs.Ending.{EndsSound, Finds, FindsBy, IsAsked, IsShort, IsUnopened, IsWorded, LeavesRedos, LeavesStored};
ghost use Rattle.xscrub.specs.Repairs.{CountsFor, FindsSession, IsClean, IsOfDevice, LeavesClean, was_sound};

use crate::confirming::confirmed;
use crate::ending::Finding;
use crate::last_lines::{BatchRefusal, LastLine, RedoRefusal};
use blk_device::Device;
use check_watch::Watch;
use core_calls::ScrubFault;
use fs_model::Entry;
use fs_state::Plan;
use image_hosts::{Host, OpenFault, Purpose};
use quiet_repair::{Repair, Repaired, repair_device};
use repair_door::NoEntry;
use std::alloc::Global;

// What refuses a repair, or stops it before its first unit.
fn refused(alloc: Global, entry: NoEntry) -> Finding
    ensures device { IsOfDevice result }
    ensures count { (before now : ℕ) → MovesOnly (is_failed_entry entry) before now → CountsFor before now result }
    ensures units { (plan : Plan) (turns : ℕ) → FindsSession plan turns result }
    ensures door { (decided : Option NoEntry) (m : Contents) (left : Option (ℕ → List ℕ))
        → IsDecided decided entry → LeavesImage m left entry → FindsByDoor decided m left result }
    ensures failed { IsDecided None entry → FindsFailed result }
{
    match entry {
        NoEntry::Short => Finding::Refused(LastLine::Redo(RedoRefusal::Short)),
        NoEntry::Count => Finding::Refused(LastLine::Batch(BatchRefusal::Count)),
        NoEntry::Size => Finding::Refused(LastLine::Batch(BatchRefusal::Size)),
        NoEntry::Place => Finding::Refused(LastLine::Batch(BatchRefusal::Place)),
        NoEntry::Image(fault) => Finding::Refused(LastLine::Image(fault)),
        NoEntry::Head { group, head, fault } => {
            Finding::Refused(LastLine::Head { group, head, fault })
        }
        NoEntry::Failed => Finding::DeviceFailed(Vec::new(alloc)),
        NoEntry::Memory => Finding::Memory(Vec::new(alloc)),
    }
}

// What a repair found that stopped before its last unit. An answer that stops none, which doesn't come here,
// counts as want of memory.
fn stopped(journal: Vec<Entry>, fault: ScrubFault) -> Finding
    ensures device { (before now : ℕ) → StopsWell before now journal.items (Some fault) → IsOfDevice result }
    ensures count { (now : ℕ) → StopsWell 0 now journal.items (Some fault) → now ≡ 0 → CountsFor 0 now result }
    ensures units { (plan : Plan) (turns : ℕ) → HasOrder plan turns (Some fault) journal.items
        → FindsSession plan turns result }
    ensures door { (decided : Option NoEntry) (m : Contents) (left : Option (ℕ → List ℕ))
        → decided ≡ None → FindsByDoor decided m left result }
{
    match fault {
        ScrubFault::Shut(_) => Finding::DeviceFailed(journal),
        ScrubFault::JournalFull => Finding::Full(journal),
        _ => Finding::Memory(journal),
    }
}

// What a repair found that was begun, on a device that counted no fault.
fn ended(journal: Vec<Entry>, stop: Option<ScrubFault>, is_sick: bool) -> Finding
    ensures device { (before now : ℕ) → StopsWell before now journal.items stop → IsOfDevice result }
    ensures count { (now : ℕ) → StopsWell 0 now journal.items stop → now ≡ 0 → CountsFor 0 now result }
    ensures units { (plan : Plan) (turns : ℕ) → HasOrder plan turns stop journal.items
        → FindsSession plan turns result }
    ensures door { (decided : Option NoEntry) (m : Contents) (left : Option (ℕ → List ℕ))
        → decided ≡ None → FindsByDoor decided m left result }
    ensures alone { (told : List Entry) → journal.items ≡ told → stop ≡ None → is_sick ≡ false
        → FindsAlone told result }
{
    match stop {
        Some(fault) => stopped(journal, fault),
        None => Finding::Repaired { journal, is_sick },
    }
}

// What a repair found that was begun; a fault that its device counted comes before all else.
fn begun(repaired: Repaired, is_failed: bool) -> Finding
    ensures device { (before now : ℕ) → StopsWell before now repaired.journal.items repaired.stop → IsOfDevice result }
    ensures count { (now : ℕ) → StopsWell 0 now repaired.journal.items repaired.stop → is_failed ≡ not (now == 0) → CountsFor 0 now result }
    ensures units { (plan : Plan) (turns : ℕ) → HasOrder plan turns repaired.stop repaired.journal.items
        → FindsSession plan turns result }
    ensures door { (decided : Option NoEntry) (m : Contents) (left : Option (ℕ → List ℕ))
        → decided ≡ None → FindsByDoor decided m left result }
    ensures alone { (told : List Entry) → IsNothingDone told repaired → FindsAlone told result }
{
    let Repaired {
        journal,
        stop,
        is_sick,
        is_sound: _,
    } = repaired;
    if is_failed {
        return Finding::DeviceFailed(journal);
    }
    ended(journal, stop, is_sick)
}

/// What a repair found of a device, and whether that counted a fault
/// (XFS Online Fsck Design, "Metadata Repair").
pub fn finding_of(alloc: Global, repair: Repair, is_failed: bool) -> Finding
    ensures device { (before now : ℕ) → EndsWell before now repair → IsOfDevice result }
    ensures count { (now : ℕ) → EndsWell 0 now repair → is_failed ≡ not (now == 0) → CountsFor 0 now result }
    ensures units { (plan : Plan) (turns : ℕ) → KeepsOrder plan turns repair
        → FindsSession plan turns result }
    ensures door { (decided : Option NoEntry) (m : Contents) (left : Option (ℕ → List ℕ))
        → RefusesAs decided repair → RepairLeaves m left repair → FindsByDoor decided m left result }
    ensures alone { (told : List Entry) → DoesNothing told repair → FindsAlone told result }
    ensures failed { (told : List Entry) → DoesNothing told repair → was_sound repair ≡ false
        → FindsFailed result }
{
    match repair {
        Repair::Refused(entry) => refused(alloc, entry),
        Repair::Ended(repaired) => begun(repaired, is_failed),
    }
}

// Whether a check found every unit good, so that there was nothing to repair.
fn is_sound(repair: &Repair) -> bool
    ensures { result ≡ was_sound repair.now }
{
    match repair {
        Repair::Refused(_) => false,
        Repair::Ended(repaired) => repaired.is_sound,
    }
}

// Repairs the image of a device that counted no fault yet. A repair that would end with 0 is checked once
// more: so 0 says of every image that a check of it ends with 0 too.
fn repair_lent<D: Device, W: Watch + Drop>(
    alloc: Global,
    dev: D,
    plan: Plan,
    turns: u32,
    watch: W,
) -> (D, Finding)
    requires fresh { D.faults dev ≡ 0 }
    ensures sizes { D.blocks result.0 ≡ D.blocks dev }
    ensures later { D.faults dev ≤ D.faults result.0 }
    ensures device { IsOfDevice result.1 }
    ensures count { CountsFor 0 (D.faults result.0) result.1 }
    ensures units { FindsSession plan turns result.1 }
    ensures refused { (m : Contents) → D.content dev ≡ Some m → FindsAtDoor (D.blocks dev Redo)
        (D.blocks dev Image) m (image_told (D.content result.0)) result.1 }
    ensures alone { LentAlone plan (D.content dev) (D.blocks dev) (D.content result.0) result.1 }
    ensures sound { LeavesClean (IsClean result.1) (D.content result.0) (D.blocks result.0) }
{
    let mut watch = watch;
    let (dev, repair) = repair_device(alloc, dev, plan, turns, &mut watch);
    let is_failed = dev.fault_count() != 0;
    let is_checked = is_sound(&repair);
    let found = finding_of(alloc, repair, is_failed);
    // Nothing was written since that check, which would find the same again.
    if is_checked {
        return (dev, found);
    }
    let mut dev = dev;
    let found = confirmed(alloc, &mut dev, found, &mut watch);
    (dev, found)
}

/// Repairs the named image beside the redo file, by this plan for each unit: a unit waits for so many turns
/// at most. The device that is handed out for it is always given back, and what it holds then is stored.
/// Where the repair ends with 0, so does a check of that; and an image of which a check finds every unit good
/// is then as it was, unless all is to be rebuilt (XFS Online Fsck Design, "Metadata Repair").
pub fn repair<H: Host>(
    alloc: Global,
    host: &mut H,
    image: &str,
    redo: &str,
    plan: Plan,
    turns: u32,
) -> Finding
    ensures found { Finds H.Host.own None host.old host.new result }
    ensures words { IsWorded (repair_of image.now redo.now plan turns) result }
    ensures device { FindsBy H.Dev.Device (repair_of image.now redo.now plan turns) (H.stored host.old) (H.redo_files host.old)
        (H.stored host.new) (H.redo_files host.new) (H.loans host.old) (H.loans host.new) result }
    ensures stored { LeavesStored (repair_of image.now redo.now plan turns) (H.tells host.old)
        (result ≡ Finding.Made) (IsUnopened result) (H.stored host.old) (H.stored host.new) }
    ensures redo { LeavesRedos (repair_of image.now redo.now plan turns) (H.redo_files host.old) (H.redo_files host.new) }
    ensures refused { EndsAtDoor (repair_of image.now redo.now plan turns) (H.stored host.old)
        (H.redo_files host.old) (H.stored host.new) (outcome_of result) }
    ensures alone { StaysAlone (repair_of image.now redo.now plan turns) (H.stored host.old)
        (H.redo_files host.old) (H.stored host.new) (outcome_of result) }
    ensures sound { EndsSound (repair_of image.now redo.now plan turns) (IsClean result)
        (H.stored host.new) (H.redo_files host.new) }
    ensures asked { IsAsked (repair_of image.now redo.now plan turns) (IsShort result) (H.asked host.old) (H.asked host.new) }
    ensures report { H.taken host.new ≡ H.taken host.old }
    ensures sink { H.sink_faults host.new ≡ H.sink_faults host.old }
{
    let dev = match host.device(image, Some(redo), Purpose::Change) {
        Ok(dev) => dev,
        Err(OpenFault::Failed) => return Finding::HostFailed,
        Err(OpenFault::Memory) => return Finding::Memory(Vec::new(alloc)),
    };
    let watch = host.watch();
    let (dev, found) = repair_lent(alloc, dev, plan, turns, watch);
    host.put_back(image, dev);
    found
}
