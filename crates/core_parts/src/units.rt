ghost use Rattle.std.specs.Prelude.{◌≡◌, ◌<◌, Some, None, length, slice_set};
ghost use Rattle.std.specs.List.{slice_get};
ghost use Rattle.core_parts.specs.Phases.{phase_in};

use core_calls::Phase;
use core_scan::Scan;
use core_units::{Gathered, Judging, Rebuild, Staged, Staging};
use fs_model::Unit;
use fs_state::Plan;
use rmap_recs::RmapRec;
use std::mem;

/// How far the work on a unit is, with what it has: the scan; the runs of the forks' owners; what is
/// gathered; what is compared; the reserve with the lists that it is for; how far the new trees are
/// written; the switch that is ready. `Chosen` is to be rebuilt and has nothing reserved yet, `Spent` was
/// given up with what it had reserved.
#[derive(Drop)]
pub enum Work {
    Scanning(Scan),
    Open(Vec<RmapRec>),
    Closed(Vec<RmapRec>),
    Gathering(Gathered),
    Gathered(Judging),
    Chosen(Judging),
    Building(Rebuild),
    Reserved(Rebuild, Staging),
    Staged(Rebuild, Staged),
    Spent(Rebuild),
    Judged,
}

/// The unit that is open in a group: what it is to do, how many turns it may lose and has lost to
/// writers, and its work.
#[derive(Drop)]
pub struct UnitState {
    pub group: u32,
    pub unit: Unit,
    pub plan: Plan,
    pub turns: u32,
    pub asked: u32,
    pub work: Work,
}

/// The phase of a unit's work.
pub fn phase_of(work: &Work) -> Phase
    ensures { result ≡ phase_in work.now }
{
    match work {
        Work::Scanning(_) => Phase::Scanning,
        Work::Open(_) => Phase::Open,
        Work::Closed(_) => Phase::Closed,
        Work::Gathering(_) => Phase::Closed,
        Work::Gathered(_) => Phase::Gathered,
        Work::Chosen(_) => Phase::Building,
        Work::Building(_) => Phase::Building,
        Work::Reserved(_, _) => Phase::Reserved,
        Work::Staged(_, _) => Phase::Staged,
        Work::Spent(_) => Phase::Judged,
        Work::Judged => Phase::Judged,
    }
}

/// Takes the open unit of a group out of the list; none where no unit is open there.
pub fn take_unit(units: &mut Vec<Option<UnitState>>, g: u32) -> Option<UnitState>
    requires { g < length units.old.items }
    ensures taken { units.new.items ≡ slice_set units.old.items g None }
    ensures unit { slice_get units.old.items g ≡ Some result }
{
    mem::replace(&mut units[g as usize], None)
}

/// Puts the open unit of a group into the list.
pub fn put_unit(units: &mut Vec<Option<UnitState>>, g: u32, unit: UnitState)
    requires { g < length units.old.items }
    ensures put { units.new.items ≡ slice_set units.old.items g (Some unit) }
{
    units[g as usize] = Some(unit);
}
