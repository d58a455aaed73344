ghost use Rattle.std.specs.Prelude.{◌≡◌, ◌<◌, length, if◌then◌else◌};
ghost use Rattle.core_begin.specs.Starts.{inodes_from};
ghost use Rattle.unit_trust.specs.Trusts.{first_lacking, is_stood, lacks};

use core_parts::common::is_unit_stood;
use core_parts::{GroupKept, UnitState};
use fs_model::Unit;

// The unit that is open in a group.
fn open_in(units: &[Option<UnitState>], g: u32) -> Option<Unit>
    requires { g < length units.now }
{
    match &units[g as usize] {
        Some(open) => Some(open.unit),
        None => None,
    }
}

// Of units for inodes or reverse mappings one is open at most.
fn is_single(unit: Unit) -> bool {
    match unit {
        Unit::Inode => true,
        Unit::Rmap => true,
        Unit::Free => false,
        Unit::Refc => false,
    }
}

// The open unit with its group, where it is one of these.
fn single_of(state: &Option<UnitState>) -> Option<(u32, Unit)> {
    let Some(open) = state else {
        return None;
    };
    if is_single(open.unit) {
        return Some((open.group, open.unit));
    }
    None
}

// The first of these that is open.
fn first_single(units: &[Option<UnitState>]) -> Option<(u32, Unit)> {
    for state in units {
        if let Some(found) = single_of(state) {
            return Some(found);
        }
    }
    None
}

/// The open unit, with its group, beside which this one doesn't begin: that of its own group, or, for a
/// unit for inodes or reverse mappings, another such unit of any group.
pub(crate) fn open_beside(units: &[Option<UnitState>], g: u32, unit: Unit) -> Option<(u32, Unit)>
    requires { g < length units.now }
{
    if let Some(open) = open_in(units, g) {
        return Some((g, open));
    }
    if is_single(unit) {
        return first_single(units);
    }
    None
}

// The first of so many groups whose inode unit doesn't stand.
fn first_fallen(groups: &[GroupKept], count: u32) -> Option<(u32, Unit)>
    requires { length groups.now ≡ count }
    ensures { result ≡ first_lacking groups.now (inodes_from 0 count) }
{
    for h in 0..count {
        if !is_unit_stood(&groups[h as usize], Unit::Inode) {
            return Some((h, Unit::Inode));
        }
    }
    None
}

// The reverse mappings of a group, where their unit doesn't stand.
fn fallen_rmap(kept: &GroupKept, g: u32) -> Option<(u32, Unit)>
    ensures { result ≡ (if is_stood kept.now Unit.Rmap then None else Some (g, Unit.Rmap)) }
{
    if is_unit_stood(kept, Unit::Rmap) {
        return None;
    }
    Some((g, Unit::Rmap))
}

/// The first unit, with its group, from which this one is derived and which doesn't stand. There are so
/// many groups.
pub(crate) fn first_needed(
    groups: &[GroupKept],
    count: u32,
    g: u32,
    unit: Unit,
) -> Option<(u32, Unit)>
    requires all { length groups.now ≡ count }
    requires group { g < count }
    ensures { result ≡ lacks groups.now count g unit }
{
    match unit {
        Unit::Inode => None,
        Unit::Rmap => first_fallen(groups, count),
        Unit::Free => fallen_rmap(&groups[g as usize], g),
        Unit::Refc => fallen_rmap(&groups[g as usize], g),
    }
}
