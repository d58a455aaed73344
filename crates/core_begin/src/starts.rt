ghost use Rattle.std.specs.Prelude.{◌≡◌, ◌<◌, IfErr, IfOk, None, OnErr, OnOk, Some, false, length, slice_set};
ghost use Rattle.core_begin.specs.After.{IsSetAside};
ghost use Rattle.core_begin.specs.Early.{IsEarly, WhereScanned};
ghost use Rattle.core_begin.specs.Starts.{Clears, IsOpened, MayBar};
ghost use Rattle.core_parts.specs.Common.Asks.{Answers, IsUsable};
ghost use Rattle.core_parts.specs.Common.Kinds.{with_pass};
ghost use Rattle.core_parts.specs.Common.Entries.{HasMore, WantsRoom, entries_of, entries_on};
ghost use Rattle.core_parts.specs.Opens.Inodes.{are_trees};
ghost use Rattle.core_parts.specs.Keeps.{IsSteady};
ghost use Rattle.core_parts.specs.Reasons.{AnswersWell, HasReason};
ghost use Rattle.core_parts.specs.Safe.{AreKept, AreUnits, IsDesk, IsSafe, IsUnit};
ghost use Rattle.geom.specs.Layout.{Layout};
ghost use Rattle.unit_trust.specs.Trusts.{lacks};

use crate::needs::{first_needed, open_beside};
use blk_device::Device;
use core_calls::ScrubFault;
use core_parts::common::{entry_room, say_verdict};
use core_parts::opens::ino_trees;
use core_parts::{Desk, GroupKept, Parts, UnitState, Work, put_unit};
use fs_model::{Unit, Verdict};
use fs_state::Plan;
use std::alloc::Global;

// Room in the journal for the verdict of the unit, and for one more.
fn take_room<D: Device>(desk: &mut Desk<D>) -> Result<(), ScrubFault>
    requires usable { IsUsable D.Device desk.old }
    ensures answers { Answers D.Device desk.old desk.new result }
    ensures items { desk.new.book.journal.items ≡ desk.old.book.journal.items }
    ensures wants { IfErr result WantsRoom }
{
    entry_room(desk, 2)
}

// The unit isn't begun, since this one of this group doesn't stand.
fn skip<D: Device>(desk: &mut Desk<D>, group: u32, unit: Unit, needed: (u32, Unit)) -> ScrubFault
    requires usable { IsUsable D.Device desk.old }
    ensures desk { IsDesk D.Device desk.new }
    ensures steady { IsSteady D.Device desk.old desk.new }
    ensures reason { HasReason desk.new result }
    ensures entries { HasMore desk.old desk.new (entries_on group unit result) }
    ensures bars { MayBar (Some needed) result }
{
    let (h, other) = needed;
    match say_verdict(desk, group, unit, Verdict::Skipped(h, other)) {
        Ok(()) => ScrubFault::Skipped(h, other),
        Err(fault) => fault,
    }
}

// Whether all stand from which the unit is derived.
fn unless_skipped<D: Device>(
    desk: &mut Desk<D>,
    groups: &[GroupKept],
    g: u32,
    unit: Unit,
) -> Result<(), ScrubFault>
    requires usable { IsUsable D.Device desk.old }
    requires all { length groups.now ≡ desk.old.store.geo.agcount }
    requires group { g < desk.old.store.geo.agcount }
    ensures answers { Answers D.Device desk.old desk.new result }
    ensures entries { HasMore desk.old desk.new (entries_of g unit result) }
    ensures ready { OnOk result (lacks groups.now desk.old.store.geo.agcount g unit ≡ None) }
    ensures bars { IfErr result (MayBar (lacks groups.now desk.old.store.geo.agcount g unit)) }
{
    match first_needed(groups, desk.store.geo.agcount, g, unit) {
        Some(needed) => Err(skip(desk, g, unit, needed)),
        None => Ok(()),
    }
}

// Whether a unit may begin, by what is open and what stands.
fn may_begin<D: Device>(
    desk: &mut Desk<D>,
    groups: &[GroupKept],
    units: &[Option<UnitState>],
    g: u32,
    unit: Unit,
) -> Result<(), ScrubFault>
    requires usable { IsUsable D.Device desk.old }
    requires all { length groups.now ≡ desk.old.store.geo.agcount }
    requires units { length units.now ≡ desk.old.store.geo.agcount }
    requires group { g < desk.old.store.geo.agcount }
    ensures answers { Answers D.Device desk.old desk.new result }
    ensures entries { HasMore desk.old desk.new (entries_of g unit result) }
    ensures ready { OnOk result (lacks groups.now desk.old.store.geo.agcount g unit ≡ None) }
    ensures bars { IfErr result (MayBar (lacks groups.now desk.old.store.geo.agcount g unit)) }
{
    if let Some((h, open)) = open_beside(units, g, unit) {
        return Err(ScrubFault::UnitOpen(h, open));
    }
    take_room(desk)?;
    unless_skipped(desk, groups, g, unit)
}

// A scan that begins, with the inode btrees of all groups as the kept heads have them now.
fn begin_scan<D: Device>(
    alloc: Global,
    desk: &mut Desk<D>,
    groups: &[GroupKept],
    g: u32,
) -> Result<Work, ScrubFault>
    requires usable { IsUsable D.Device desk.old }
    requires all { length groups.now ≡ desk.old.store.geo.agcount }
    ensures answers { Answers D.Device desk.old desk.new result }
    ensures early { IfOk result IsEarly }
    ensures trees { OnOk result (desk.new.ino_trees.items ≡ are_trees 0 groups.now) }
    ensures items { desk.new.book.journal.items ≡ desk.old.book.journal.items }
    ensures wants { IfErr result WantsRoom }
{
    let Ok(scan) = core_scan::begin(alloc, g) else {
        return Err(ScrubFault::Memory);
    };
    let Ok(trees) = ino_trees(alloc, groups) else {
        return Err(ScrubFault::Memory);
    };
    desk.ino_trees = trees;
    Ok(Work::Scanning(scan))
}

// What the work on a unit begins with.
fn first_work<D: Device>(
    alloc: Global,
    desk: &mut Desk<D>,
    groups: &[GroupKept],
    g: u32,
    unit: Unit,
) -> Result<Work, ScrubFault>
    requires usable { IsUsable D.Device desk.old }
    requires all { length groups.now ≡ desk.old.store.geo.agcount }
    ensures answers { Answers D.Device desk.old desk.new result }
    ensures early { IfOk result IsEarly }
    ensures trees { WhereScanned unit (OnOk result (desk.new.ino_trees.items ≡ are_trees 0 groups.now)) }
    ensures items { desk.new.book.journal.items ≡ desk.old.book.journal.items }
    ensures wants { IfErr result WantsRoom }
{
    match unit {
        Unit::Rmap => begin_scan(alloc, desk, groups, g),
        Unit::Inode => Ok(Work::Open(Vec::new(alloc))),
        Unit::Free => Ok(Work::Open(Vec::new(alloc))),
        Unit::Refc => Ok(Work::Open(Vec::new(alloc))),
    }
}

// The unit has no verdict any more; heads and limbo stay.
fn clear_pass(kept: &mut GroupKept, unit: Unit)
    ensures heads { kept.new.heads ≡ kept.old.heads }
    ensures limbo { kept.new.limbo ≡ kept.old.limbo }
    ensures trust { kept.new.trust ≡ kept.old.trust }
    ensures passed { kept.new.passed ≡ with_pass kept.old.passed unit false }
{
    match unit {
        Unit::Inode => kept.passed.inode = false,
        Unit::Rmap => kept.passed.rmap = false,
        Unit::Free => kept.passed.free = false,
        Unit::Refc => kept.passed.refc = false,
    }
}

// No unit may be derived from this one any more, until it has a verdict again.
fn end_pass(groups: &mut Vec<GroupKept>, g: u32, unit: Unit)
    requires { g < length groups.old.items }
    ensures many { length groups.new.items ≡ length groups.old.items }
    ensures kept { AreKept groups.old.items → AreKept groups.new.items }
    ensures trees { are_trees 0 groups.new.items ≡ are_trees 0 groups.old.items }
    ensures cleared { Clears g unit groups.old.items groups.new.items }
{
    clear_pass(&mut groups[g as usize], unit);
}

// Puts a unit into the list, where its group has none.
fn add_unit(units: &mut Vec<Option<UnitState>>, unit: UnitState)
    requires { unit.group < length units.old.items }
    ensures many { length units.new.items ≡ length units.old.items }
    ensures works { (at : Layout) → IsUnit at unit → AreUnits at units.old.items → AreUnits at units.new.items }
    ensures put { units.new.items ≡ slice_set units.old.items unit.group (Some unit) }
{
    put_unit(units, unit.group, unit);
}

// Opens a unit that may begin.
fn open_unit<D: Device>(
    alloc: Global,
    parts: &mut Parts<D>,
    g: u32,
    unit: Unit,
    plan: Plan,
    turns: u32,
) -> Result<(), ScrubFault>
    requires safe { IsSafe D.Device parts.old }
    requires unshut { parts.old.desk.book.shut ≡ None }
    requires group { g < parts.old.desk.store.geo.agcount }
    ensures safe { IsSafe D.Device parts.new }
    ensures steady { IsSteady D.Device parts.old.desk parts.new.desk }
    ensures reason { AnswersWell parts.new.desk result }
    ensures trees { WhereScanned unit (OnOk result (parts.new.desk.ino_trees.items ≡ are_trees 0 parts.new.groups.items)) }
    ensures entries { HasMore parts.old.desk parts.new.desk (entries_of g unit result) }
    ensures kept { OnErr result (IsSetAside parts.old parts.new) }
    ensures opened { OnOk result
        (IsOpened g unit plan turns parts.old.units.items parts.new.units.items) }
    ensures cleared { OnOk result (Clears g unit parts.old.groups.items parts.new.groups.items) }
    ensures wants { IfErr result WantsRoom }
{
    let work = first_work(alloc, &mut parts.desk, parts.groups.as_slice(), g, unit)?;
    end_pass(&mut parts.groups, g, unit);
    let state = UnitState {
        group: g,
        unit,
        plan,
        turns,
        asked: 0,
        work,
    };
    add_unit(&mut parts.units, state);
    Ok(())
}

/// Opens a unit of a group, where none is open there; of units for inodes or reverse mappings one is open
/// at most in all groups. There is room for two entries then, the verdict and one more. A unit from whose
/// needed units one doesn't stand is skipped, with a verdict and nothing else. A unit for reverse mappings
/// begins with a scan, which takes the inode btrees of all groups from the kept heads as they are now
/// (XFS Online Fsck Design, "Metadata Scrubbing").
pub fn start<D: Device>(
    alloc: Global,
    parts: &mut Parts<D>,
    g: u32,
    unit: Unit,
    plan: Plan,
    turns: u32,
) -> Result<(), ScrubFault>
    requires safe { IsSafe D.Device parts.old }
    requires unshut { parts.old.desk.book.shut ≡ None }
    requires group { g < parts.old.desk.store.geo.agcount }
    ensures safe { IsSafe D.Device parts.new }
    ensures steady { IsSteady D.Device parts.old.desk parts.new.desk }
    ensures reason { AnswersWell parts.new.desk result }
    ensures trees { WhereScanned unit (OnOk result (parts.new.desk.ino_trees.items ≡ are_trees 0 parts.new.groups.items)) }
    ensures entries { HasMore parts.old.desk parts.new.desk (entries_of g unit result) }
    ensures kept { OnErr result (IsSetAside parts.old parts.new) }
    ensures opened { OnOk result
        (IsOpened g unit plan turns parts.old.units.items parts.new.units.items) }
    ensures cleared { OnOk result (Clears g unit parts.old.groups.items parts.new.groups.items) }
    ensures ready { OnOk result
        (lacks parts.old.groups.items parts.old.desk.store.geo.agcount g unit ≡ None) }
    ensures bars { IfErr result
        (MayBar (lacks parts.old.groups.items parts.old.desk.store.geo.agcount g unit)) }
{
    let groups = parts.groups.as_slice();
    let units = parts.units.as_slice();
    may_begin(&mut parts.desk, groups, units, g, unit)?;
    open_unit(alloc, parts, g, unit, plan, turns)
}
