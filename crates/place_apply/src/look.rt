// Blocks of a tree as a draft has them.
ghost use Rattle.std.specs.Prelude.{◌≡◌, ◌+◌, ◌*◌, ◌^◌, ◌<◌, ℕ, None, IfOk};
ghost use Rattle.blk_device.specs.Causes.{HasCause};
ghost use Rattle.edit_terms.specs.Faults.{is_devices};
ghost use Rattle.tree_blocks.specs.Calls.{Reads};
ghost use Rattle.tree_defs.specs.Claims.{lone_fault};

use byte_fields::Block;
use edit_terms::EditFault;
use over_blocks::Draft;
use place_plan::Spot;
use sblock::RecKind;
use tree_blocks::{Blocks, lone_fault_of, open_block};
use tree_defs::Site;

// The last block that was made with this number, if there is one.
fn made_block(placed: &[(u32, Block)], p: u32) -> Option<Block> {
    let mut found = None;
    for (number, block) in placed {
        if *number == p {
            found = Some(*block);
        }
    }
    found
}

// A block that was made, tested by itself.
fn tested<K: RecKind>(block: &Block, site: &Site, spot: Spot) -> Result<Block, EditFault>
    requires fits { 8 * (site.now.first + spot.block) < 2 ^ 64 }
    ensures passes { IfOk result (λ block. lone_fault K.form site.now spot.level spot.root spot.block block.bytes ≡ None) }
    ensures quiet { (n : ℕ) → HasCause is_devices n n result }
{
    match lone_fault_of::<K>(block, site, spot.level, spot.root, spot.block) {
        None => Ok(*block),
        Some(fault) => Err(EditFault::Bad {
            block: spot.block,
            fault,
        }),
    }
}

// The block as the draft has it, or as it is read; it must pass by itself.
pub(crate) fn look<K: RecKind, B: Blocks>(
    blocks: &mut B,
    draft: &Draft,
    site: &Site,
    spot: Spot,
) -> Result<Block, EditFault>
    requires inside { spot.block < site.now.bounds.length }
    requires here { B.place blocks.old ≡ site.now }
    ensures passes { IfOk result (λ block. lone_fault K.form site.now spot.level spot.root spot.block block.bytes ≡ None) }
    ensures reading { Reads B.Blocks blocks.old blocks.new }
    ensures cause { HasCause is_devices (B.faults blocks.old) (B.faults blocks.new) result }
{
    if let Some(block) = made_block(&draft.placed, spot.block) {
        return tested::<K>(&block, site, spot);
    }
    Ok(open_block::<K, B>(blocks, site, spot.level, spot.root, spot.block)?)
}
