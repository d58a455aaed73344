ghost use Rattle.std.specs.Prelude.{◌≡◌, ◌+◌, ◌<◌, ◌≤◌, ℕ, List, None, Some, IfOk, false, length};
ghost use Rattle.blk_device.specs.Causes.{HasCause};
ghost use Rattle.edit_terms.specs.Faults.{is_devices};
ghost use Rattle.tree_blocks.specs.Calls.{Reads};
ghost use Rattle.tree_defs.specs.Claims.{lone_fault};

use crate::ask::{Seen, Spot};
use crate::open::open;
use crate::plan::Plan;
use byte_fields::Block;
use edit_terms::EditFault;
use sblock::{BlockFault, RecKind, right_of};
use tree_blocks::Blocks;
use tree_defs::Site;

// What stands for no block where a sibling is named.
pub(crate) const NO_BLOCK: u32 = 0xffff_ffff;

// The block that is named as a sibling of this one; it must lie in the group and pass.
pub(crate) fn beside<K: RecKind, B: Blocks>(
    blocks: &mut B,
    site: &Site,
    spot: Spot,
    other: u32,
) -> Result<Block, EditFault>
    requires here { B.place blocks.old ≡ site.now }
    ensures passes { IfOk result (λ block. lone_fault K.form site.now spot.level false other block.bytes ≡ None) }
    ensures told { IfOk result (λ block. (m : ℕ → List ℕ) → B.told blocks.old ≡ Some m → block.bytes ≡ m other) }
    ensures reading { Reads B.Blocks blocks.old blocks.new }
    ensures cause { HasCause is_devices (B.faults blocks.old) (B.faults blocks.new) result }
    ensures few { B.count blocks.new ≤ B.count blocks.old + 1 }
{
    if other == 0 || other >= site.bounds.length {
        return Err(EditFault::Bad {
            block: spot.block,
            fault: BlockFault::Sibling,
        });
    }
    let spot = Spot {
        level: spot.level,
        root: false,
        block: other,
    };
    open::<K, B>(blocks, site, spot)
}

// Notes the right sibling of a block, if there is one.
pub(crate) fn touch_right<K: RecKind, B: Blocks>(
    blocks: &mut B,
    site: &Site,
    seen: &Seen,
    plan: &mut Plan,
) -> Result<(), EditFault>
    requires here { B.place blocks.old ≡ site.now }
    requires room { length plan.old.touched < 48 }
    ensures many { length plan.new.touched ≤ length plan.old.touched + 1 }
    ensures need { plan.new.need ≡ plan.old.need }
    ensures reading { Reads B.Blocks blocks.old blocks.new }
    ensures cause { HasCause is_devices (B.faults blocks.old) (B.faults blocks.new) result }
    ensures few { B.count blocks.new ≤ B.count blocks.old + 1 }
{
    let right = right_of(&seen.block);
    if right == NO_BLOCK {
        return Ok(());
    }
    let _ = beside::<K, B>(blocks, site, seen.spot, right)?;
    plan.touched.push(right);
    Ok(())
}
