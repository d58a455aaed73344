ghost use Rattle.std.specs.Prelude.{◌≡◌};
ghost use Rattle.core_parts.specs.Phases.{phase_at as phase_at_of};
ghost use Rattle.fsck_core.specs.Asks.{group_asked, phase_in_place, phase_of_group};
ghost use Rattle.std.specs.List.{slice_get};

use core_calls::{Ask, Phase};
use core_parts::{UnitState, phase_of};

/// The group that an event of the scrubber is asked for, or that is to be refilled
/// (XFS Online Fsck Design, "Metadata Scrubbing").
pub(crate) fn group_of(ask: Ask) -> Option<u32>
    ensures { result ≡ group_asked ask }
{
    match ask {
        Ask::Refill { group } => Some(group),
        Ask::Start { group, .. } => Some(group),
        Ask::Advance { group } => Some(group),
        Ask::ScanPiece { group } => Some(group),
        Ask::Close { group } => Some(group),
        Ask::GatherPiece { group } => Some(group),
        Ask::ComparePiece { group } => Some(group),
        Ask::ReservePiece { group } => Some(group),
        Ask::StagePiece { group } => Some(group),
        Ask::Switch { group } => Some(group),
        Ask::ReapPiece { group } => Some(group),
        Ask::Reopen { group } => Some(group),
        _ => None,
    }
}

// The phase of the open unit in a place of the list.
fn phase_at(place: &Option<UnitState>) -> Phase
    ensures { result ≡ phase_at_of place.now }
{
    match place {
        Some(unit) => phase_of(&unit.work),
        None => Phase::Idle,
    }
}

fn phase_in(units: &[Option<UnitState>], group: u32) -> Phase
    ensures { result ≡ phase_in_place (slice_get units.now group) }
{
    match units.get(group as usize) {
        Some(place) => phase_at(place),
        None => Phase::Idle,
    }
}

/// How far the unit is that is open in a group; idle where none is, or there is no such group.
pub(crate) fn phase_behind(units: &[Option<UnitState>], group: Option<u32>) -> Phase
    ensures { result ≡ phase_of_group units.now group }
{
    match group {
        Some(group) => phase_in(units, group),
        None => Phase::Idle,
    }
}
