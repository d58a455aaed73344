ghost use Rattle.std.specs.Prelude.{◌≡◌, Err};
ghost use Rattle.core_calls.specs.declared.answers.ScrubFault.TheVariants.{OtherPhase};
ghost use Rattle.core_parts.specs.Phases.{phase_in};

use core_calls::ScrubFault;
use core_parts::{UnitState, Work, phase_of};

/// The event isn't one of the phase of this work, which is the unit's again.
pub(crate) fn other_phase(unit: &mut UnitState, work: Work) -> Result<bool, ScrubFault>
    ensures work { unit.new.work ≡ work }
    ensures group { unit.new.group ≡ unit.old.group }
    ensures rest { unit.new ≡ record unit.old { work = unit.new.work } }
    ensures answer { result ≡ Err (OtherPhase (phase_in work)) }
{
    let phase = phase_of(&work);
    unit.work = work;
    Err(ScrubFault::OtherPhase(phase))
}
