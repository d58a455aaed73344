// The blocks of a draft, which are put in, taken from the free list, and freed.
ghost use Rattle.std.specs.Prelude.{◌≡◌, ◌<◌, ℕ, IfOk};
ghost use Rattle.blk_device.specs.Causes.{HasCause};
ghost use Rattle.edit_terms.specs.Faults.{is_devices};
ghost use Rattle.place_apply.specs.Drafts.{ArePlacedInside, IsDraft};

use crate::task::Task;
use byte_fields::Block;
use edit_terms::EditFault;
use over_blocks::Draft;
use sblock::BlockFault;
use std::alloc::AllocError;

// Takes what was made with this number out of the draft.
fn leave_out(draft: &mut Draft, p: u32)
    ensures inside { (len : ℕ) → ArePlacedInside len draft.old.placed.items → ArePlacedInside len draft.new.placed.items }
    ensures taken { draft.new.taken ≡ draft.old.taken }
{
    draft.placed.retain(|made| made.0 != p);
}

// Puts a made block into the draft, in the place of what was made with its number before.
pub(crate) fn put<R>(
    task: &Task<R>,
    draft: &mut Draft,
    p: u32,
    block: Block,
) -> Result<(), AllocError>
    requires inside { p < task.now.ask.site.bounds.length }
    requires draft { IsDraft task.now draft.old }
    ensures draft { IsDraft task.now draft.new }
{
    leave_out(draft, p);
    draft.placed.push((p, block))?;
    Ok(())
}

// Frees a block: its bytes stay as they were before the edit.
pub(crate) fn free<R>(task: &Task<R>, draft: &mut Draft, p: u32) -> Result<(), AllocError>
    requires draft { IsDraft task.now draft.old }
    ensures draft { IsDraft task.now draft.new }
{
    leave_out(draft, p);
    draft.freed.push(p)?;
    Ok(())
}

// Takes the next block of the free list; Short where there is none. A number of no block of the
// group is refused.
pub(crate) fn take<R>(task: &Task<R>, draft: &mut Draft) -> Result<u32, EditFault>
    requires draft { IsDraft task.now draft.old }
    ensures draft { IsDraft task.now draft.new }
    ensures inside { IfOk result (λ p. p < task.now.ask.site.bounds.length) }
    ensures quiet { (n : ℕ) → HasCause is_devices n n result }
{
    let have = task.list.len();
    let i = draft.taken;
    if i >= have {
        return Err(EditFault::Short { have, need: i + 1 });
    }
    let p = task.list.entry(i);
    if p == 0 || p >= task.ask.site.bounds.length {
        return Err(EditFault::Bad {
            block: p,
            fault: BlockFault::Range,
        });
    }
    draft.taken += 1;
    Ok(p)
}
