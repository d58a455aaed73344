//! A redo file that lies beside an image: a check looks at it, and leaves it as it is.
ghost use Rattle.std.specs.Prelude.{◌≡◌, ◌<◌, ◌≤◌, ◌+◌, Some, None, true, IfErr, IfOk, IfSome, if◌then◌else◌};
ghost use Rattle.blk_device.specs.Causes.{HasCause, any_error};
ghost use Rattle.blk_device.specs.Reading.{EachBlock, Keeps};
ghost use Rattle.xscrub.specs.Image.{redo_refusal as redo_refusal_of};
ghost use Rattle.xscrub.specs.Judged.{HasDeviceFront, IsDeviceJudged, JudgeCause, ReadsForDevice, TellsOfDevice, journal_at};
ghost use Rattle.xscrub.specs.Units.{HasFirstUnits};

use crate::judging::{JudgeFault, Judgement, judge};
use crate::last_lines::{LastLine, RedoRefusal};
use blk_device::{Device, DeviceFailed, Region};
use check_watch::Watch;
use redo_area::{REDO_BLOCKS, waiting};
use std::alloc::Global;

// A batch that waits refuses the check.
fn refusal_where(waits: bool) -> Option<RedoRefusal>
    ensures { result ≡ (if waits then Some RedoRefusal.Waiting else None) }
{
    if waits {
        return Some(RedoRefusal::Waiting);
    }
    None
}

// Looks at a redo file: whether it is too short, or a batch waits in it.
fn redo_refusal<D: Device>(dev: &mut D) -> Result<Option<RedoRefusal>, DeviceFailed>
    ensures exact { IfOk result (λ r. IfSome (D.content dev.old) (λ m. r ≡ redo_refusal_of (D.blocks dev.old Region.Redo) m)) }
    ensures one { D.reads dev.new ≤ D.reads dev.old + 1 }
    ensures unread { D.blocks dev.old Region.Redo < REDO_BLOCKS → D.reads dev.new ≡ D.reads dev.old }
    ensures short { IfOk result (λ r. r ≡ Some RedoRefusal.Short → D.blocks dev.old Region.Redo < REDO_BLOCKS) }
    ensures same { D.content dev.new ≡ D.content dev.old }
    ensures sizes { D.blocks dev.new ≡ D.blocks dev.old }
    ensures crash { Keeps D.Device EachBlock dev.old dev.new }
    ensures cause { HasCause any_error (D.faults dev.old) (D.faults dev.new) result }
{
    if dev.size(Region::Redo) < REDO_BLOCKS {
        return Ok(Some(RedoRefusal::Short));
    }
    let waits = waiting(dev).map_err(|_| DeviceFailed)?;
    Ok(refusal_where(waits))
}

/// Judges the image of a device whose redo file is looked at first.
pub(crate) fn judge_behind<D: Device, W: Watch>(
    alloc: Global,
    dev: &mut D,
    watch: &mut W,
) -> Result<Judgement, JudgeFault>
    ensures told { IfOk result (IsDeviceJudged true (D.content dev.old) (D.blocks dev.old)) }
    ensures line { IfOk result (TellsOfDevice true) }
    ensures front { IfErr result (HasDeviceFront true (D.content dev.old) (D.blocks dev.old)) }
    ensures kept { ReadsForDevice true (D.content dev.old) (D.blocks dev.old) (D.reads dev.old) (D.reads dev.new) result }
    ensures units { IfErr result (λ fault. HasFirstUnits (journal_at fault)) }
    ensures same { D.content dev.new ≡ D.content dev.old }
    ensures sizes { D.blocks dev.new ≡ D.blocks dev.old }
    ensures crash { Keeps D.Device EachBlock dev.old dev.new }
    ensures cause { JudgeCause (D.faults dev.old) (D.faults dev.new) result }
{
    let refusal = match redo_refusal(dev) {
        Ok(refusal) => refusal,
        Err(_) => return Err(JudgeFault::Device(Vec::new(alloc))),
    };
    match refusal {
        Some(refusal) => Ok(Judgement::Refused(LastLine::Redo(refusal))),
        None => judge(alloc, dev, watch),
    }
}

/// Judges the image of a device. Where a redo file is given, it is looked at before the image: one that is
/// too short, or in which a batch waits, refuses the check. Nothing is written.
pub fn judge_device<D: Device, W: Watch + Drop>(
    alloc: Global,
    dev: &mut D,
    given: bool,
    watch: W,
) -> Result<Judgement, JudgeFault>
    ensures told { IfOk result (IsDeviceJudged given (D.content dev.old) (D.blocks dev.old)) }
    ensures line { IfOk result (TellsOfDevice given) }
    ensures front { IfErr result (HasDeviceFront given (D.content dev.old) (D.blocks dev.old)) }
    ensures kept { ReadsForDevice given (D.content dev.old) (D.blocks dev.old) (D.reads dev.old) (D.reads dev.new) result }
    ensures units { IfErr result (λ fault. HasFirstUnits (journal_at fault)) }
    ensures same { D.content dev.new ≡ D.content dev.old }
    ensures sizes { D.blocks dev.new ≡ D.blocks dev.old }
    ensures crash { Keeps D.Device EachBlock dev.old dev.new }
    ensures cause { JudgeCause (D.faults dev.old) (D.faults dev.new) result }
{
    let mut watch = watch;
    if given {
        judge_behind(alloc, dev, &mut watch)
    } else {
        judge(alloc, dev, &mut watch)
    }
}
