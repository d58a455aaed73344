ghost use Rattle.std.specs.Prelude.{◌≡◌, ◌<◌, IfErr, OnOk};
ghost use Rattle.core_begin.specs.After.{IsOtherPhase};
ghost use Rattle.core_begin.specs.Early.{IsEarly};
ghost use Rattle.core_begin.specs.Whole.{HasOwners};
ghost use Rattle.core_calls.specs.declared.answers.Phase.{Phase};
ghost use Rattle.core_parts.specs.Keeps.{IsGiven, IsLeft};
ghost use Rattle.core_parts.specs.Phases.{phase_in};
ghost use Rattle.core_parts.specs.Reasons.{AnswersWell};

use crate::taking::take_scan;
use blk_device::Device;
use core_calls::ScrubFault;
use core_parts::{Desk, GroupKept, UnitState, Work, phase_of};
use rmap_recs::RmapRec;

/// Ends the scan of a unit that is scanning at once, by the owners that one pass over the forks of all
/// inodes has found: for a unit beside which nobody changes a file. The unit is open then, with these runs
/// as those of its scan (XFS Online Fsck Design, "Live Inode Scans").
pub fn end_scan<D: Device>(
    desk: &mut Desk<D>,
    kept: &mut GroupKept,
    unit: &mut UnitState,
    owners: Vec<RmapRec>,
) -> Result<(), ScrubFault>
    requires given { IsGiven D.Device desk.old kept.old unit.old }
    ensures left { IsLeft D.Device desk.old desk.new kept.new unit.old unit.new }
    ensures reason { AnswersWell desk.new result }
    ensures desk { desk.new ≡ desk.old }
    ensures kept { kept.new ≡ kept.old }
    ensures owners { OnOk result (HasOwners owners unit.new.work) }
    ensures phase { OnOk result (phase_in unit.new.work ≡ Phase.Open) }
    ensures rest { unit.new ≡ record unit.old { work = unit.new.work; asked = unit.new.asked } }
    ensures may { IfErr result IsOtherPhase }
{
    match take_scan(unit) {
        Some(_) => {
            unit.work = Work::Open(owners);
            Ok(())
        }
        None => Err(ScrubFault::OtherPhase(phase_of(&unit.work))),
    }
}
