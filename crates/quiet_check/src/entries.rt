ghost use Rattle.std.specs.Prelude.{◌≡◌};
ghost use Rattle.quiet_check.specs.Entries.{entries_of};
ghost use Rattle.space_check.specs.Progress.{Adds};

use crate::judge::Judged;
use fs_model::{Reason, Unit, Verdict};
use space_check::{Halt, Journal};
use std::alloc::Global;

/// Adds what was found of a unit of group `group`: its faults in their order and then its verdict, or
/// that it was given up, with the first evidence; or nothing where there is no memory for all of it
/// (XFS Online Fsck Design, "Metadata Scrubbing").
pub fn add_judged(
    journal: &mut Journal,
    alloc: Global,
    group: u32,
    unit: Unit,
    judged: &Judged,
) -> Result<(), Halt>
    ensures { Adds journal.old.entries.items (entries_of group unit judged.now) journal.new.entries.items result }
{
    match judged {
        Judged::Faults(faults) => journal.add_unit(alloc, group, unit, faults.as_slice()),
        Judged::GaveUp(found) => {
            let verdict = Verdict::GaveUp(Reason::Contradiction(*found));
            journal.add_verdict(group, unit, verdict)
        }
    }
}
