ghost use Rattle.std.specs.Prelude.{◌≡◌, ◌<◌, ◌≤◌, ◌+◌, ◌^◌, ◌⊎◌, Ok, Err, IfOk, IfErr, option_map};
ghost use Rattle.fork_change.specs.Lists.{AllFit, Fits};
ghost use Rattle.fork_change.specs.Answers.{add_answer, convert_answer, take_answer, list_of};
ghost use Rattle.fork_change.specs.declared.change.ForkChange.TheVariants.{Memory as NoMemory};

use crate::joins::piece_of;
use crate::lists::{added, is_occupied, mapping_at, taken};
use dinode_core::Mapping;
use geom::Geometry;
use std::alloc::{AllocError, Global};
use thiserror::Error;

/// Why a list of mappings isn't changed: the offset isn't mapped; an offset of the mapping is; the
/// changed list would have so many mappings, more than there is room for; or want of memory.
#[derive(Clone, Copy, Debug, PartialEq, Eq, Error)]
pub enum ForkChange {
    #[error("hole")]
    Hole,
    #[error("occupied")]
    Occupied,
    #[error("full {0}")]
    Full(u64),
    #[error("memory")]
    Memory,
}

impl From<AllocError> for ForkChange {
    ghost from_gives = { λ _ e. e ≡ NoMemory };

    fn from(_: AllocError) -> Self {
        ForkChange::Memory
    }
}

// Puts the new list in the place of the old one, where it fits the room.
fn replace(list: &mut Vec<Mapping>, new: Vec<Mapping>, room: u32) -> Result<(), ForkChange>
    ensures done { IfOk result (λ u. list_of room new.items ≡ Ok list.new.items) }
    ensures refused { IfErr result (λ e. list_of room new.items ≡ Err e) }
    ensures unchanged { IfErr result (λ e. list.new.items ≡ list.old.items) }
    ensures fits { AllFit list.old.items → AllFit new.items → AllFit list.new.items }
{
    if new.len() > room as usize {
        return Err(ForkChange::Full(new.len() as u64));
    }
    *list = new;
    Ok(())
}

/// Adds a mapping to a fork's list, which is in the order of offsets: it becomes one with the mapping
/// that it goes on from and the one that goes on from it, where both lie in one group and are both
/// written or both not, and one mapping has room for them. Occupied exactly where an offset of it is
/// mapped, then Full exactly where the changed list would have more mappings than `room`; then, and
/// without memory, the list stays (XFS Algorithms and Data Structures, "Data Extents").
pub fn add(
    alloc: Global,
    geo: &Geometry,
    list: &mut Vec<Mapping>,
    m: &Mapping,
    room: u32,
) -> Result<(), ForkChange>
    requires list { AllFit list.old.items }
    requires fits { Fits m.now }
    ensures done { IfOk result (λ u. add_answer geo.now.agblklog m.now room list.old.items ≡ Ok list.new.items) }
    ensures refused { IfErr result (λ e. (e ≡ NoMemory) ⊎ (add_answer geo.now.agblklog m.now room list.old.items ≡ Err e)) }
    ensures unchanged { IfErr result (λ e. list.new.items ≡ list.old.items) }
    ensures fits { AllFit list.new.items }
{
    if is_occupied(list, m) {
        return Err(ForkChange::Occupied);
    }
    let new = added(alloc, geo, list, m)?;
    replace(list, new, room)
}

/// Takes the piece of one mapping that begins at an offset out of a fork's list, `count` blocks at
/// most, and answers it. What of the mapping lies before and behind the piece stays. Hole exactly where
/// the offset isn't mapped, then Full as in `add`
/// (XFS Algorithms and Data Structures, "Data Extents").
pub fn take(
    alloc: Global,
    list: &mut Vec<Mapping>,
    offset: u64,
    count: u32,
    room: u32,
) -> Result<Mapping, ForkChange>
    requires list { AllFit list.old.items }
    requires some { 0 < count }
    ensures done { IfOk result (λ piece. take_answer offset count room list.old.items ≡ Ok (piece, list.new.items)) }
    ensures refused { IfErr result (λ e. (e ≡ NoMemory) ⊎ (take_answer offset count room list.old.items ≡ Err e)) }
    ensures unchanged { IfErr result (λ e. list.new.items ≡ list.old.items) }
    ensures fits { AllFit list.new.items }
{
    let Some(m) = mapping_at(list, offset) else {
        return Err(ForkChange::Hole);
    };
    let piece = piece_of(&m, offset, count);
    let new = taken(alloc, list, offset, piece.count)?;
    replace(list, new, room)?;
    Ok(piece)
}

/// Makes the piece of one mapping that begins at an offset written, `count` blocks at most, and answers
/// it as it was; a written piece changes nothing. Hole exactly where the offset isn't mapped, then Full
/// as in `add` (XFS Algorithms and Data Structures, "Data Extents").
pub fn convert(
    alloc: Global,
    geo: &Geometry,
    list: &mut Vec<Mapping>,
    offset: u64,
    count: u32,
    room: u32,
) -> Result<Mapping, ForkChange>
    requires list { AllFit list.old.items }
    requires some { 0 < count }
    ensures done { IfOk result (λ piece. convert_answer geo.now.agblklog offset count room list.old.items ≡ Ok (piece, list.new.items)) }
    ensures refused { IfErr result (λ e. (e ≡ NoMemory) ⊎ (convert_answer geo.now.agblklog offset count room list.old.items ≡ Err e)) }
    ensures unchanged { IfErr result (λ e. list.new.items ≡ list.old.items) }
    ensures fits { AllFit list.new.items }
{
    let Some(m) = mapping_at(list, offset) else {
        return Err(ForkChange::Hole);
    };
    let piece = piece_of(&m, offset, count);
    if !piece.unwritten {
        return Ok(piece);
    }
    let cut = taken(alloc, list, offset, piece.count)?;
    let written = Mapping {
        unwritten: false,
        ..piece
    };
    let new = added(alloc, geo, &cut, &written)?;
    replace(list, new, room)?;
    Ok(piece)
}
