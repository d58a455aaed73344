ghost use Rattle.std.specs.Prelude.{◌≡◌, IfSome, MatchOption};
ghost use Rattle.core_begin.specs.Early.{IsEarly, IsTaken};
ghost use Rattle.core_parts.specs.Phases.{phase_in};

use core_calls::Phase;
use core_parts::{UnitState, Work};
use core_scan::Scan;
use rmap_recs::RmapRec;
use std::mem;

/// Takes the scan of a unit that is scanning out of its work.
pub(crate) fn take_scan(unit: &mut UnitState) -> Option<Scan>
    ensures taken { MatchOption result (unit.new ≡ unit.old) (λ _. IsTaken unit.old unit.new) }
    ensures scan { IfSome result (λ scan. unit.old.work ≡ Work.Scanning scan) }
{
    match mem::replace(&mut unit.work, Work::Judged) {
        Work::Scanning(scan) => Some(scan),
        other => {
            unit.work = other;
            None
        }
    }
}

/// Takes the owners of forks of a unit that is open out of its work.
pub(crate) fn take_owners(unit: &mut UnitState) -> Option<Vec<RmapRec>>
    ensures taken { MatchOption result (unit.new ≡ unit.old) (λ _. IsTaken unit.old unit.new) }
    ensures owners { IfSome result (λ owners. unit.old.work ≡ Work.Open owners) }
{
    match mem::replace(&mut unit.work, Work::Judged) {
        Work::Open(owners) => Some(owners),
        other => {
            unit.work = other;
            None
        }
    }
}

/// This is a unit's work now.
pub(crate) fn put_work(unit: &mut UnitState, work: Work)
    ensures put { unit.new ≡ record unit.old { work = work } }
{
    unit.work = work;
}

/// The scan is a unit's work again.
pub(crate) fn put_scan(unit: &mut UnitState, scan: Scan)
    ensures group { unit.new.group ≡ unit.old.group }
    ensures early { IsEarly unit.new.work }
    ensures phase { phase_in unit.new.work ≡ Phase.Scanning }
    ensures put { unit.new ≡ record unit.old { work = Work.Scanning scan } }
{
    unit.work = Work::Scanning(scan);
}
