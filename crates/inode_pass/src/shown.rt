ghost use Rattle.std.specs.Prelude.{◌≡◌, ◌++◌, true, false, map, None, IfOk, OnOk};
ghost use Rattle.geom.specs.Places.{layout};
ghost use Rattle.inode_pass.specs.Notes.{core_notes, notes_by};
ghost use Rattle.inode_pass.specs.Noting.{IsForkNoted, IsNoted, IsShown};
ghost use Rattle.inode_pass.specs.declared.note.ForkNote.TheVariants.{Mapping as MappingNote};

use crate::note::ForkNote;
use dinode_core::{Core3, Fork, ForkError, Mapping, inline_fork_into, is_in_btree};
use geom::Geometry;
use std::alloc::AllocError;

// Whether the inode shows the whole of a fork; then its mappings stand in the room, which is lent.
#[tactic(auto, using(crate::proofs::NoteLemmas::tree_unshown, crate::proofs::NoteLemmas::fault_unshown, crate::proofs::NoteLemmas::whole_shown))]
fn shows_fork(
    core: &Core3,
    fork: Fork,
    geo: &Geometry,
    room: &mut Vec<Mapping>,
) -> Result<bool, AllocError>
    ensures { IfOk result (IsShown (layout geo.now) core.now fork room.new.items) }
{
    if is_in_btree(core, fork) {
        return Ok(false);
    }
    match inline_fork_into(core, fork, geo, room) {
        Ok(_) => Ok(true),
        Err(ForkError::Fault(_)) => Ok(false),
        Err(ForkError::Memory) => Err(AllocError),
    }
}

// Puts down these mappings of a fork of this inode.
fn put_mappings(
    ino: u64,
    fork: Fork,
    mappings: &[Mapping],
    notes: &mut Vec<ForkNote>,
) -> Result<(), AllocError>
    ensures { OnOk result (notes.new.items ≡ notes.old.items ++ map (λ m. MappingNote ino fork m) mappings.now) }
{
    for mapping in mappings {
        notes.push(ForkNote::Mapping {
            ino,
            fork,
            mapping: Mapping {
                offset: mapping.offset,
                block: mapping.block,
                count: mapping.count,
                unwritten: mapping.unwritten,
            },
        })?;
    }
    Ok(())
}

// Puts down the mappings of a fork that the inode shows the whole of, and tells whether it does.
fn note_fork(
    geo: &Geometry,
    core: &Core3,
    fork: Fork,
    room: &mut Vec<Mapping>,
    notes: &mut Vec<ForkNote>,
) -> Result<bool, AllocError>
    ensures { IfOk result (λ now. IsForkNoted (layout geo.now) core.now fork notes.old.items notes.new.items now) }
{
    if !shows_fork(core, fork, geo, room)? {
        return Ok(false);
    }
    put_mappings(core.ino, fork, room, notes)?;
    Ok(true)
}

// Puts down the mappings of both forks of an inode that shows both, and tells whether it does.
fn note_core(
    geo: &Geometry,
    core: &Core3,
    room: &mut Vec<Mapping>,
    notes: &mut Vec<ForkNote>,
) -> Result<bool, AllocError>
    ensures { IfOk result (IsNoted notes.old.items notes.new.items (core_notes (layout geo.now) core.now)) }
{
    let before = notes.len();
    if !note_fork(geo, core, Fork::Data, room, notes)? {
        return Ok(false);
    }
    if !note_fork(geo, core, Fork::Attr, room, notes)? {
        // What the data fork shows goes too: the inode is read for both.
        notes.truncate(before);
        return Ok(false);
    }
    Ok(true)
}

/// Puts down what one more core that verifies shows of its inode's forks, where those before it in the
/// block show theirs, and tells whether all do so far. The room is lent for the mappings of one fork
/// (XFS Algorithms and Data Structures, "Data Fork").
pub fn note_inode(
    geo: &Geometry,
    core: &Core3,
    shown: bool,
    room: &mut Vec<Mapping>,
    notes: &mut Vec<ForkNote>,
) -> Result<bool, AllocError>
    ensures left { IfOk result (λ now. shown ≡ false → (now ≡ false) × (notes.new.items ≡ notes.old.items)) }
    ensures noted { IfOk result (λ now. shown ≡ true → IsNoted notes.old.items notes.new.items (notes_by (layout geo.now) None core.now) now) }
{
    // The block will be read for its forks, so no more of it is put down.
    if !shown {
        return Ok(false);
    }
    // A free inode has no forks.
    if core.mode == 0 {
        return Ok(true);
    }
    note_core(geo, core, room, notes)
}
