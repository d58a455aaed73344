// The work of a unit, taken out and put back.
ghost use Rattle.std.specs.Prelude.{◌≡◌};

use core_calls::ScrubFault;
use core_parts::{UnitState, Work};
use fs_model::Unit;
use fs_state::Plan;
use std::mem;

/// Which unit of which group it is, and what it is to do.
#[derive(Clone, Copy)]
pub(crate) struct Which {
    pub group: u32,
    pub unit: Unit,
    pub plan: Plan,
}

/// What a piece leaves: the unit's work, and what the event answers.
pub(crate) struct Left {
    pub work: Work,
    pub answer: Result<bool, ScrubFault>,
}

/// Takes the work out; it is put back by `put_work`.
pub(crate) fn take_work(unit: &mut UnitState) -> Work
    ensures work { result ≡ unit.old.work }
    ensures taken { unit.new ≡ record unit.old { work = Work.Judged } }
{
    mem::replace(&mut unit.work, Work::Judged)
}

/// Puts work into its place.
pub(crate) fn put_work(unit: &mut UnitState, work: Work)
    ensures { unit.new ≡ record unit.old { work = work } }
{
    unit.work = work;
}
