// Blocks that the edits of an event freed, and for which the free list had no room.
ghost use Rattle.std.specs.Prelude.{◌≡◌, ◌||◌, ◌+◌, ℕ, true};
ghost use Rattle.block_reap.specs.Limbo.{IsLimbo, has};
ghost use Rattle.core_units.specs.Released.{block_runs};
ghost use Rattle.core_switch.specs.Freed.{has_freed};

use block_reap::{LimboRun, put};
use core_edit::Freed;
use rmap_recs::Owner;
use std::alloc::AllocError;

/// Room in limbo for all blocks that an edit freed, so that `put_freed` never lacks it: to be asked before
/// the commit (XFS Online Fsck Design, "Reaping After Repairing Ondisk Metadata").
pub fn room_for_freed(freed: &Freed, limbo: &mut Vec<LimboRun>) -> Result<(), AllocError>
    ensures { limbo.new.items ≡ limbo.old.items }
{
    let some = freed.ag.len().saturating_add(freed.inobt.len());
    limbo.reserve(some.saturating_add(freed.refc.len()))
}

// Puts these blocks into limbo, each with this owner, and answers whether there was room for all, and
// each has a number after it.
fn put_blocks(limbo: &mut Vec<LimboRun>, blocks: &[u32], owner: u64) -> bool
    requires limbo { IsLimbo limbo.old.items }
    ensures limbo { IsLimbo limbo.new.items }
    ensures exact { result ≡ true → (b o : ℕ) → has limbo.new.items b o ≡ (has limbo.old.items b o || has (block_runs owner blocks.now) b o) }
{
    let mut rest = blocks;
    while let Some((block, later)) = rest.split_first() {
        if limbo.len() >= limbo.capacity() || *block == u32::MAX {
            return false;
        }
        put(limbo, *block, owner);
        rest = later;
    }
    true
}

/// Puts the blocks that an edit freed, and for which the free list had no room, into limbo, each with the
/// owner of the btree that had it, and takes no memory. The answer is false where room lacked: never after
/// `room_for_freed` (XFS Online Fsck Design, "Reaping After Repairing Ondisk Metadata").
pub fn put_freed(freed: &Freed, limbo: &mut Vec<LimboRun>) -> bool
    requires limbo { IsLimbo limbo.old.items }
    ensures limbo { IsLimbo limbo.new.items }
    ensures exact { result ≡ true → (b o : ℕ) → has limbo.new.items b o ≡ (has limbo.old.items b o || has_freed freed.now b o) }
{
    let is_ag = put_blocks(limbo, freed.ag.as_slice(), Owner::Ag.number());
    let is_inobt = put_blocks(limbo, freed.inobt.as_slice(), Owner::Inobt.number());
    let is_refc = put_blocks(limbo, freed.refc.as_slice(), Owner::Refc.number());
    is_ag && is_inobt && is_refc
}
