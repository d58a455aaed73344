ghost use Rattle.std.specs.Prelude.{◌≡◌, ◌<◌, ◌++◌, ◌∷◌, [], true, false, length, take, IfOk, OnOk};
ghost use Rattle.dinode_core.specs.Core.{core_fault};
ghost use Rattle.fs_state.specs.Inodes.{slot_in};
ghost use Rattle.geom.specs.Places.{HasBlock, HasInode, layout};
ghost use Rattle.inode_pass.specs.Cores.{block_looks, look_of};
ghost use Rattle.inode_pass.specs.Notes.{block_notes, notes_at};
ghost use Rattle.inode_pass.specs.Noting.{IsNoted};
ghost use Rattle.inode_pass.specs.declared.note.ForkNote.TheVariants.{Block as BlockNote};

use crate::note::ForkNote;
use crate::shown::note_inode;
use byte_fields::Block;
use dinode_core::{CoreFault, Mapping, decode_core, read_core};
use geom::{Geometry, InodePlace};
use std::alloc::AllocError;

// The inodes of a block.
const BLOCK_INODES: u8 = 8;

// The 512 bytes of the inode in a slot of its block.
fn slot_of(block: &Block, slot: u8) -> &[u8]
    requires { slot < 8 }
    ensures bytes { result.now ≡ slot_in block.now.bytes slot }
    ensures whole { length result.now ≡ 512 }
{
    let (_, rest) = block.bytes.split_at(512 * usize::from(slot));
    let (own, _) = rest.split_at(512);
    own
}

// Why the core of the inode with this number and these bytes doesn't verify, if it doesn't. Its fields are
// read apart from that: a core that is handed on with its test would be copied, verified or not.
fn fault_in(own: &[u8], geo: &Geometry, ino: u64) -> Option<CoreFault>
    requires { length own.now ≡ 512 }
    ensures { result ≡ core_fault own.now ino (layout geo.now).uuid }
{
    match decode_core(own, ino, &geo.uuid) {
        Ok(_) => None,
        Err(fault) => Some(fault),
    }
}

// Puts down what the core of one inode of a block says, and what it shows of the inode's forks where those
// before it show theirs; answers whether all do so far.
#[tactic(auto, using(crate::proofs::CoreLemmas::look_bad, crate::proofs::CoreLemmas::look_good, crate::proofs::NoteLemmas::slot_bad, crate::proofs::NoteLemmas::slot_good))]
fn look_slot(
    block: &Block,
    geo: &Geometry,
    place: InodePlace,
    shown: bool,
    looks: &mut Vec<Result<u16, CoreFault>>,
    room: &mut Vec<Mapping>,
    notes: &mut Vec<ForkNote>,
) -> Result<bool, AllocError>
    requires { HasInode geo.now place }
    ensures looked { OnOk result (looks.new.items ≡ looks.old.items ++ look_of (layout geo.now) block.now.bytes place ∷ []) }
    ensures left { IfOk result (λ now. shown ≡ false → (now ≡ false) × (notes.new.items ≡ notes.old.items)) }
    ensures noted { IfOk result (λ now. shown ≡ true → IsNoted notes.old.items notes.new.items (notes_at (layout geo.now) block.now.bytes place) now) }
{
    let own = slot_of(block, place.slot);
    if let Some(fault) = fault_in(own, geo, geo.inode_number(place)) {
        looks.push(Err(fault))?;
        return Ok(false);
    }
    let core = read_core(own);
    looks.push(Ok(core.mode))?;
    note_inode(geo, &core, shown, room, notes)
}

// Puts the block down in place of what its inodes show, unless each shows its forks.
fn put_block(
    b: u32,
    shown: bool,
    before: usize,
    notes: &mut Vec<ForkNote>,
) -> Result<(), AllocError>
    ensures shown { OnOk result (shown ≡ true → notes.new.items ≡ notes.old.items) }
    ensures block { OnOk result (shown ≡ false → notes.new.items ≡ take before notes.old.items ++ BlockNote b ∷ []) }
{
    if shown {
        return Ok(());
    }
    notes.truncate(before);
    notes.push(ForkNote::Block(b))?;
    Ok(())
}

/// Puts down what the eight cores of a group's block say, in their order, and what they show of their
/// inodes' forks. The room is lent for the mappings of one fork
/// (XFS Algorithms and Data Structures, "On-disk Inode").
pub fn look_block(
    block: &Block,
    geo: &Geometry,
    g: u32,
    b: u32,
    looks: &mut Vec<Result<u16, CoreFault>>,
    room: &mut Vec<Mapping>,
    notes: &mut Vec<ForkNote>,
) -> Result<(), AllocError>
    requires { HasBlock geo.now g b }
    ensures looked { OnOk result (looks.new.items ≡ looks.old.items ++ block_looks (layout geo.now) block.now.bytes g b) }
    ensures noted { OnOk result (notes.new.items ≡ notes.old.items ++ block_notes (layout geo.now) block.now.bytes g b) }
{
    let before = notes.len();
    let mut shown = true;
    for slot in 0..BLOCK_INODES {
        let place = InodePlace {
            group: g,
            block: b,
            slot,
        };
        shown = look_slot(block, geo, place, shown, looks, room, notes)?;
    }
    put_block(b, shown, before, notes)?;
    Ok(())
}
