// A scan that ends at once, by the owners that one pass has found.
ghost use Rattle.std.specs.Prelude.{◌≡◌, ◌<◌, None, Some};
ghost use Rattle.core_parts.specs.Keeps.{IsGiven, IsLeft, IsSteady};
ghost use Rattle.core_parts.specs.Reasons.{TellsWell};
ghost use Rattle.core_parts.specs.Safe.{IsSafe, IsUnit};
ghost use Rattle.fsck_core.specs.Acts.{Acts, IsGivenAll, IsWorked, StaysShut, TellsAll};
ghost use Rattle.fsck_core.specs.Asks.{phase_of_group};
ghost use Rattle.fsck_core.specs.Entries.{IsDoneBy, Says, SaysAmong, SaysIn, SaysOpen};
ghost use Rattle.fsck_core.specs.Moves.{MovesIn};
ghost use Rattle.core_calls.specs.declared.asks.Ask.{Ask};
ghost use Rattle.fsck_core.specs.declared.events.Event.{Event};
ghost use Rattle.geom.specs.Places.{layout};

use crate::asks::phase_behind;
use crate::groups::take_open;
use blk_device::Device;
use core_begin::end_scan as end_scan_of;
use core_calls::{Answer, Phase};
use core_parts::{Desk, GroupKept, Parts, UnitState, put_unit};
use rmap_recs::RmapRec;

// Ends the scan of a unit, as its last move would.
fn end_one<D: Device>(
    desk: &mut Desk<D>,
    kept: &mut GroupKept,
    unit: &mut UnitState,
    owners: Vec<RmapRec>,
) -> Answer
    requires given { IsGiven D.Device desk.old kept.old unit.old }
    ensures left { IsLeft D.Device desk.old desk.new kept.new unit.old unit.new }
    ensures told { TellsAll desk.new result }
    ensures desk { desk.new ≡ desk.old }
    ensures says { SaysIn Event.Advance unit.old unit.new kept.old kept.new desk.old desk.new result }
    ensures moves { MovesIn Event.Advance unit.old unit.new kept.old kept.new desk.old desk.new result }
{
    match end_scan_of(desk, kept, unit, owners) {
        Ok(()) => Answer::End,
        Err(fault) => Answer::Scrub(fault),
    }
}

// The same, with what is kept of its group among all groups.
fn end_among<D: Device>(
    desk: &mut Desk<D>,
    groups: &mut Vec<GroupKept>,
    unit: &mut UnitState,
    owners: Vec<RmapRec>,
) -> Answer
    requires given { IsGivenAll D.Device desk.old groups.old.items unit.old }
    ensures left { IsWorked D.Device desk.old desk.new groups.old.items groups.new.items unit.old unit.new }
    ensures told { TellsAll desk.new result }
    ensures desk { desk.new ≡ desk.old }
    ensures says { SaysAmong Event.Advance unit.old unit.new groups.old.items groups.new.items
        desk.old desk.new result }
{
    let kept = &mut groups[unit.group as usize];
    end_one(desk, kept, unit, owners)
}

// Ends the scan of a unit that was taken out of its place, and puts it back.
fn end_taken<D: Device>(parts: &mut Parts<D>, unit: UnitState, owners: Vec<RmapRec>) -> Answer
    requires safe { IsSafe D.Device parts.old }
    requires unshut { parts.old.desk.book.shut ≡ None }
    requires unit { IsUnit (layout parts.old.desk.store.geo) unit }
    ensures acted { Acts D.Device parts.old parts.new result }
    ensures desk { parts.new.desk ≡ parts.old.desk }
    ensures says { IsDoneBy Event.Advance unit parts.old parts.new result }
{
    let mut unit = unit;
    let answer = end_among(&mut parts.desk, &mut parts.groups, &mut unit, owners);
    put_unit(&mut parts.units, unit.group, unit);
    answer
}

// Ends the scan of the unit that is open in a group.
fn end_in<D: Device>(parts: &mut Parts<D>, g: u32, owners: Vec<RmapRec>) -> Answer
    requires safe { IsSafe D.Device parts.old }
    requires group { g < parts.old.desk.store.geo.agcount }
    ensures acted { Acts D.Device parts.old parts.new result }
    ensures desk { parts.new.desk ≡ parts.old.desk }
    ensures says { SaysOpen g Event.Advance parts.old parts.new result }
{
    match take_open(parts, g) {
        Ok(unit) => end_taken(parts, unit, owners),
        Err(fault) => Answer::Scrub(fault),
    }
}

/// Ends the scan of the unit that is open in a group at once, by the owners that one pass over the forks
/// of all inodes has found, and answers as the move does that ends a scan (`says`); with the phase of the
/// group behind it. It is for a core beside which nobody changes a file
/// (XFS Online Fsck Design, "Live Inode Scans").
#[tactic(auto, using(crate::proofs::ToldLemmas::tells_well))]
pub fn end_scan<D: Device>(parts: &mut Parts<D>, g: u32, owners: Vec<RmapRec>) -> (Answer, Phase)
    requires safe { IsSafe D.Device parts.old }
    requires group { g < parts.old.desk.store.geo.agcount }
    ensures safe { IsSafe D.Device parts.new }
    ensures steady { IsSteady D.Device parts.old.desk parts.new.desk }
    ensures told { TellsWell parts.new.desk result.0 }
    ensures all { TellsAll parts.new.desk result.0 }
    ensures shut { StaysShut parts.old.desk parts.new.desk }
    ensures desk { parts.new.desk ≡ parts.old.desk }
    ensures says { Says (Ask.Advance g) parts.old parts.new result.0 }
    ensures phase { result.1 ≡ phase_of_group parts.new.units.items (Some g) }
{
    let answer = end_in(parts, g, owners);
    let phase = phase_behind(parts.units.as_slice(), Some(g));
    (answer, phase)
}
