ghost use Rattle.std.specs.Prelude.{◌≡◌, ◌≤◌, Some, None, IfErr};
ghost use Rattle.check_phases.specs.Checks.{ChecksUnit};
ghost use Rattle.check_phases.specs.Parts.{AddsPart, AddsParts};
ghost use Rattle.check_phases.specs.Phases.{lacks_nothing};
ghost use Rattle.fs_state.specs.Contradiction.{first_bad_fork};
ghost use Rattle.fs_model.specs.declared.unit.Unit.TheVariants as units;
ghost use Rattle.fs_state.specs.State.{State};
ghost use Rattle.image_check.specs.Mappings.{ChecksPart};
ghost use Rattle.image_check.specs.Units.{IsMappingPart, IsSkippedFor};
ghost use Rattle.space_check.specs.Progress.{IsOwn};

use check_phases::{Part, Tally};
use fs_model::{Evidence, Unit};
use quiet_check::Judged;
use space_check::Halt;
use std::alloc::Global;

// Gives the reverse mappings of one group up.
fn give_up_group(alloc: Global, g: u32, evidence: Evidence, tally: &mut Tally) -> Result<(), Halt>
    ensures exact { (a : State) → first_bad_fork a ≡ Some evidence → ChecksUnit a None g units.Rmap tally.old tally.new result }
    ensures added { AddsPart (IsMappingPart g) tally.old tally.new result }
    ensures own { IfErr result IsOwn }
{
    tally.begin()?;
    tally.add(alloc, g, Unit::Rmap, &Judged::GaveUp(evidence))
}

// Skips the reverse mappings of one group.
fn skip_group(g: u32, needed: (u32, Unit), tally: &mut Tally) -> Result<(), Halt>
    ensures exact { (a : State) → ChecksUnit a (Some needed) g units.Rmap tally.old tally.new result }
    ensures added { AddsPart (IsSkippedFor needed g) tally.old tally.new result }
    ensures own { IfErr result IsOwn }
{
    tally.begin()?;
    tally.skip(g, Unit::Rmap, needed)
}

/// Gives the reverse mappings of these groups up, in order, since a fork can't be read: what all forks
/// claim isn't known then. A journal that is full and want of memory end it
/// (XFS Online Fsck Design, "Cross-Referencing Space Metadata").
pub fn give_up_part(
    alloc: Global,
    part: Part,
    evidence: Evidence,
    tally: &mut Tally,
) -> Result<(), Halt>
    requires order { part.from ≤ part.to }
    ensures exact { (a : State) → first_bad_fork a ≡ Some evidence → ChecksPart a lacks_nothing part tally.old tally.new result }
    ensures added { AddsParts IsMappingPart part tally.old tally.new result }
    ensures own { IfErr result IsOwn }
{
    for g in part.from..part.to {
        give_up_group(alloc, g, evidence, tally)?;
    }
    Ok(())
}

/// Skips the reverse mappings of these groups, in order, since the inodes of a group didn't pass. A
/// journal that is full and want of memory end it (XFS Online Fsck Design, "Metadata Scrubbing").
pub fn skip_part(part: Part, needed: (u32, Unit), tally: &mut Tally) -> Result<(), Halt>
    requires order { part.from ≤ part.to }
    ensures exact { (a : State) → ChecksPart a (λ g. Some needed) part tally.old tally.new result }
    ensures added { AddsParts (IsSkippedFor needed) part tally.old tally.new result }
    ensures own { IfErr result IsOwn }
{
    for g in part.from..part.to {
        skip_group(g, needed, tally)?;
    }
    Ok(())
}
