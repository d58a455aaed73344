ghost use Rattle.std.specs.Prelude.{◌≡◌, ◌+◌, ◌<◌, ◌≤◌, ℕ, List, None, Some, IfOk, IfErr};
ghost use Rattle.blk_device.specs.Causes.{HasCause};
ghost use Rattle.edit_terms.specs.Faults.{is_devices};
ghost use Rattle.tree_blocks.specs.Calls.{Reads};
ghost use Rattle.tree_defs.specs.Claims.{lone_fault};
ghost use Rattle.place_plan.specs.Refused.{IsOfBlock};

use crate::ask::Spot;
use byte_fields::Block;
use edit_terms::EditFault;
use sblock::RecKind;
use tree_blocks::{Blocks, open_block};
use tree_defs::Site;

// Reads a block and tests it by itself.
pub(crate) fn open<K: RecKind, B: Blocks>(
    blocks: &mut B,
    site: &Site,
    spot: Spot,
) -> Result<Block, EditFault>
    requires inside { spot.block < site.now.bounds.length }
    requires here { B.place blocks.old ≡ site.now }
    ensures passes { IfOk result (λ block. lone_fault K.form site.now spot.level spot.root spot.block block.bytes ≡ None) }
    ensures told { IfOk result (λ block. (m : ℕ → List ℕ) → B.told blocks.old ≡ Some m → block.bytes ≡ m spot.block) }
    ensures refused { IfErr result (IsOfBlock (B.told blocks.old) spot.block (lone_fault K.form site.now spot.level spot.root spot.block)) }
    ensures reading { Reads B.Blocks blocks.old blocks.new }
    ensures cause { HasCause is_devices (B.faults blocks.old) (B.faults blocks.new) result }
    ensures one { B.count blocks.new ≡ B.count blocks.old + 1 }
{
    Ok(open_block::<K, B>(blocks, site, spot.level, spot.root, spot.block)?)
}
