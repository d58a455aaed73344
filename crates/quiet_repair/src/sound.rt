// The check that comes before a repair.
ghost use Rattle.std.specs.Prelude.{◌≡◌, ◌≤◌, ℕ, IfErr, IfOk, IfSome, None};
ghost use Rattle.std.specs.List.{list_all};
ghost use Rattle.blk_device.specs.Causes.{HasCause, MovesOnly};
ghost use Rattle.blk_device.specs.declared.device.Region.TheVariants.{Image};
ghost use Rattle.geom.specs.Places.{layout};
ghost use Rattle.image_check.specs.Image.{image_checked};
ghost use Rattle.image_check.specs.Units.{IsSession};
ghost use Rattle.repair_door.specs.Causes.{is_failed as is_failed_entry};
ghost use Rattle.repair_door.specs.Doors.{IsDecided};
ghost use Rattle.space_check.specs.Checked.{CheckCause, Checked, MeetsCheck, MeetsHalt};
ghost use Rattle.space_check.specs.Progress.{is_failed};
ghost use Rattle.quiet_repair.specs.Sound.{IsSound, IsSoundOrder, is_good_entry};

use blk_device::Device;
use byte_fields::Steps;
use check_watch::Watch;
use fs_model::{Entry, Verdict};
use geom::Geometry;
use image_check::check_image;
use repair_door::NoEntry;
use space_check::{CheckStop, Halt};
use std::alloc::Global;
use std::marker::Brand;
use std::sync::ledger::{Blank, Ledger};

// Whether an entry is the verdict that a unit is good.
fn is_good(entry: &Entry) -> bool
    ensures { result ≡ is_good_entry entry.now }
{
    match entry {
        Entry::Verdict { verdict, .. } => matches!(verdict, Verdict::Good),
        _ => false,
    }
}

// Whether nothing else is in a journal.
fn are_all_good(journal: &[Entry]) -> bool
    ensures { result ≡ list_all is_good_entry journal.now }
{
    for entry in journal {
        if !is_good(entry) {
            return false;
        }
    }
    true
}

// Checks the image. The ledger is that of the check's steps.
fn checked_counted<D: Device, L: Ledger, W: Watch>(
    alloc: Global,
    dev: &mut D,
    geo: &Geometry,
    blank: Blank,
    watch: &mut W,
) -> Result<Vec<Entry>, CheckStop>
    requires room { geo.now.dblocks ≤ D.blocks dev.old Image }
    requires name { blank.name ≡ L.name }
    requires parts { blank.parts ≡ L.parts }
    requires three { blank.parts ≡ 3 }
    ensures exact { IfSome (D.content dev.old)
        (λ c. MeetsCheck (image_checked (layout geo.now) (c Image)) result) }
    ensures session { IsSession geo.now.agcount result }
    ensures same { D.content dev.new ≡ D.content dev.old }
    ensures sizes { D.blocks dev.new ≡ D.blocks dev.old }
    ensures cause { CheckCause (D.faults dev.old) (D.faults dev.new) result }
{
    let mut steps = Steps::<L>::new(blank);
    check_image(alloc, dev, geo, &mut steps, watch)
}

// Checks the image, for a caller that counts no steps.
fn checked<D: Device, W: Watch>(
    alloc: Global,
    dev: &mut D,
    geo: &Geometry,
    watch: &mut W,
) -> Result<Vec<Entry>, CheckStop>
    requires room { geo.now.dblocks ≤ D.blocks dev.old Image }
    ensures exact { IfSome (D.content dev.old)
        (λ c. MeetsCheck (image_checked (layout geo.now) (c Image)) result) }
    ensures session { IsSession geo.now.agcount result }
    ensures same { D.content dev.new ≡ D.content dev.old }
    ensures sizes { D.blocks dev.new ≡ D.blocks dev.old }
    ensures cause { CheckCause (D.faults dev.old) (D.faults dev.new) result }
{
    let blank = Blank::new(3);
    checked_counted::<D, Brand, W>(alloc, dev, geo, blank, watch)
}

/// The journal of a check of the image, where it finds every unit of every group good; none exactly where
/// it doesn't. A failed device and want of memory are the refusals, and nothing is written
/// (XFS Online Fsck Design, "Metadata Scrubbing").
pub(crate) fn sound_journal<D: Device, W: Watch>(
    alloc: Global,
    dev: &mut D,
    geo: &Geometry,
    watch: &mut W,
) -> Result<Option<Vec<Entry>>, NoEntry>
    requires room { geo.now.dblocks ≤ D.blocks dev.old Image }
    ensures sound { IfOk result (λ found. IfSome (D.content dev.old)
        (λ c. IsSound (image_checked (layout geo.now) (c Image)) found)) }
    ensures order { IfOk result (IsSoundOrder geo.now.agcount) }
    ensures same { D.content dev.new ≡ D.content dev.old }
    ensures sizes { D.blocks dev.new ≡ D.blocks dev.old }
    ensures only { IfErr result (IsDecided None) }
    ensures cause { HasCause is_failed_entry (D.faults dev.old) (D.faults dev.new) result }
{
    match checked(alloc, dev, geo, watch) {
        Ok(journal) => {
            if are_all_good(journal.as_slice()) {
                return Ok(Some(journal));
            }
            Ok(None)
        }
        Err(stop) => stopped(stop),
    }
}

// What a check that was stopped leaves to a repair.
fn stopped(stop: CheckStop) -> Result<Option<Vec<Entry>>, NoEntry>
    ensures none { IfOk result (λ found. found ≡ None) }
    ensures sound { (checked : Checked) → MeetsHalt checked stop.cause stop.journal.items
        → IfOk result (IsSound checked) }
    ensures only { IfErr result (IsDecided None) }
    ensures cause { (before now : ℕ) → MovesOnly (is_failed stop.cause) before now
        → HasCause is_failed_entry before now result }
{
    match stop.cause {
        Halt::Failed => Err(NoEntry::Failed),
        Halt::Memory => Err(NoEntry::Memory),
        Halt::Head { .. } => Ok(None),
        Halt::Full => Ok(None),
    }
}
