// The refusals of a group.
ghost use Rattle.std.specs.Prelude.{◌≡◌, ◌<◌, IfOk, length};
ghost use Rattle.core_files.specs.First.Spots.{IsSpot};
ghost use Rattle.core_chains.specs.Write.Writes.{WritesWell};
ghost use Rattle.intent_drain.specs.Drains.{gates_of};

use crate::first::spots::{Spot, find_spot};
use blk_device::Device;
use core_calls::WriteFault;
use core_chains::write::is_sick;
use core_parts::{Desk, GroupKept};
use dinode_core::Mapping;
use intent_drain::{Drain, Gate};
use sblock::Kind;

/// Whether the gate of a group is open.
pub fn is_open(drain: &Drain, g: u32) -> bool
    requires { g < length (gates_of drain.now) }
{
    matches!(drain.gate(g), Gate::Open)
}

// The first of these kinds that is sick.
fn first_sick(kept: &GroupKept) -> Option<Kind> {
    for kind in [Kind::Rmap, Kind::Refc, Kind::Bno, Kind::Cnt] {
        if is_sick(kept, kind) {
            return Some(kind);
        }
    }
    None
}

// The gate of the group is open, and none of its indexes that a piece of a mapping is about is sick.
fn check_group<D: Device>(desk: &Desk<D>, kept: &GroupKept, g: u32) -> Result<(), WriteFault>
    requires gate { g < length (gates_of desk.now.drain) }
    ensures reason { WritesWell desk.now result }
{
    if !is_open(&desk.drain, g) {
        return Err(WriteFault::Closing(g));
    }
    match first_sick(kept) {
        Some(kind) => Err(WriteFault::Sick(g, kind)),
        None => Ok(()),
    }
}

/// Where a piece of a mapping lies, in a group whose gate is open and of which no index that the piece is
/// about is sick.
pub fn piece_spot<D: Device>(
    desk: &Desk<D>,
    groups: &[GroupKept],
    piece: &Mapping,
) -> Result<Spot, WriteFault>
    requires gates { length (gates_of desk.now.drain) ≡ desk.now.store.geo.agcount }
    requires groups { length groups.now ≡ desk.now.store.geo.agcount }
    ensures spot { IfOk result (IsSpot desk.now.store.geo) }
    ensures reason { WritesWell desk.now result }
{
    let spot = find_spot(desk, piece)?;
    check_group(desk, &groups[spot.group as usize], spot.group)?;
    Ok(spot)
}
