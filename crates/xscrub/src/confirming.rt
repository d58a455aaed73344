//! The check behind a repair. The kernel's online repair checks what it has rebuilt once more, too
//! (XFS Online Fsck Design, "Metadata Repair").
ghost use Rattle.std.specs.Prelude.{◌≡◌, ◌≤◌, ℕ, List, None, Option, false};
ghost use Rattle.blk_device.specs.Contents.{Contents};
ghost use Rattle.fs_state.specs.declared.plan.Plan.{Plan};
ghost use Rattle.repair_door.specs.declared.no_entry.NoEntry.{NoEntry};
ghost use Rattle.xscrub.specs.Alone.{FindsFailed};
ghost use Rattle.xscrub.specs.Doors.{FindsByDoor};
ghost use Rattle.xscrub.specs.Judged.{IsJudgedClean, JudgeCause, is_clean as is_clean_judgement};
ghost use Rattle.xscrub.specs.Repairs.{CountsFor, FindsSession, IsClean, IsOfDevice, LeavesClean};

use crate::ending::Finding;
use crate::judging::{JudgeFault, Judgement};
use crate::redo::judge_behind;
use crate::telling::are_all_calm;
use blk_device::Device;
use check_watch::Watch;
use fs_model::Entry;
use std::alloc::Global;

// Whether a check has judged all units of all groups, and found no fault in any.
fn is_clean(found: &Judgement) -> bool
    ensures { result ≡ is_clean_judgement found.now }
{
    match found {
        Judgement::Judged(journal) => are_all_calm(journal.as_slice()),
        _ => false,
    }
}

// What a repair found in whose journal nothing speaks against the image, by the check behind it. The
// journal stays the repair's: what is left to be found is told by a check.
fn finding_by(journal: Vec<Entry>, judged: Result<Judgement, JudgeFault>) -> Finding
    ensures device { IsOfDevice result }
    ensures count { (before now : ℕ) → JudgeCause before now judged → CountsFor before now result }
    ensures units { (plan : Plan) (turns : ℕ) → FindsSession plan turns (Finding.Repaired journal false)
        → FindsSession plan turns result }
    ensures door { (decided : Option NoEntry) (m : Contents) (left : Option (ℕ → List ℕ))
        → decided ≡ None → FindsByDoor decided m left result }
    ensures clean { IsClean result → IsJudgedClean judged }
{
    match judged {
        Ok(found) => {
            let is_sick = !is_clean(&found);
            Finding::Repaired { journal, is_sick }
        }
        Err(JudgeFault::Device(_)) => Finding::DeviceFailed(journal),
        Err(JudgeFault::Memory(_)) => Finding::Memory(journal),
    }
}

// What a repair found that wasn't stopped. Where that speaks against the image anyway, no check is needed.
fn confirm_repaired<D: Device, W: Watch>(
    alloc: Global,
    dev: &mut D,
    journal: Vec<Entry>,
    is_sick: bool,
    watch: &mut W,
) -> Finding
    ensures sizes { D.blocks dev.new ≡ D.blocks dev.old }
    ensures same { D.content dev.new ≡ D.content dev.old }
    ensures later { D.faults dev.old ≤ D.faults dev.new }
    ensures device { IsOfDevice result }
    ensures count { D.faults dev.old ≡ 0 → CountsFor 0 (D.faults dev.new) result }
    ensures units { (plan : Plan) (turns : ℕ) → FindsSession plan turns (Finding.Repaired journal is_sick)
        → FindsSession plan turns result }
    ensures door { (decided : Option NoEntry) (m : Contents) (left : Option (ℕ → List ℕ))
        → decided ≡ None → FindsByDoor decided m left result }
    ensures sound { LeavesClean (IsClean result) (D.content dev.new) (D.blocks dev.new) }
{
    if is_sick || !are_all_calm(journal.as_slice()) {
        return Finding::Repaired { journal, is_sick };
    }
    let judged = judge_behind(alloc, dev, watch);
    finding_by(journal, judged)
}

/// What a repair found, after a check of the device where the repair would end with 0: it does so only
/// where that check finds every unit of every group without a fault
/// (XFS Online Fsck Design, "Metadata Repair").
pub(crate) fn confirmed<D: Device, W: Watch>(
    alloc: Global,
    dev: &mut D,
    finding: Finding,
    watch: &mut W,
) -> Finding
    ensures sizes { D.blocks dev.new ≡ D.blocks dev.old }
    ensures same { D.content dev.new ≡ D.content dev.old }
    ensures later { D.faults dev.old ≤ D.faults dev.new }
    ensures device { IsOfDevice finding → IsOfDevice result }
    ensures count { CountsFor 0 (D.faults dev.old) finding → CountsFor 0 (D.faults dev.new) result }
    ensures units { (plan : Plan) (turns : ℕ) → FindsSession plan turns finding
        → FindsSession plan turns result }
    ensures door { (decided : Option NoEntry) (m : Contents) (left : Option (ℕ → List ℕ))
        → FindsByDoor decided m left finding → FindsByDoor decided m left result }
    ensures failed { FindsFailed finding → FindsFailed result }
    ensures sound { IsOfDevice finding
        → LeavesClean (IsClean result) (D.content dev.new) (D.blocks dev.new) }
{
    match finding {
        Finding::Repaired { journal, is_sick } => {
            confirm_repaired(alloc, dev, journal, is_sick, watch)
        }
        other => other,
    }
}
