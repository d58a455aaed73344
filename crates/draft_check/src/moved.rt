ghost use Rattle.std.specs.Prelude.{◌≡◌, ◌+◌, ℕ, true, IfOk};
ghost use Rattle.tree_defs.specs.Lists.{times};

use std::alloc::{AllocError, Global};

// The numbers of both lists, in rising order.
fn sorted(alloc: Global, front: &[u32], back: &[u32]) -> Result<Vec<u32>, AllocError>
    ensures { IfOk result (λ both. (b : ℕ) → times b both.items ≡ times b front.now + times b back.now) }
{
    let mut both = Vec::new(alloc);
    both.extend_from_slice(front)?;
    both.extend_from_slice(back)?;
    both.sort_unstable();
    Ok(both)
}

/// Whether the blocks of an edited tree and those that it left are the blocks that it had and those
/// that it took, each as often. Both are sorted in memory of their own; without it this is refused
/// (XFS Algorithms and Data Structures, "AG Free List").
pub fn are_moved(
    alloc: Global,
    before: &[u32],
    taken: &[u32],
    after: &[u32],
    left: &[u32],
) -> Result<bool, AllocError>
    ensures { IfOk result (λ yes. yes ≡ true → (b : ℕ) → times b after.now + times b left.now ≡ times b before.now + times b taken.now) }
{
    let now = sorted(alloc, after, left)?;
    let old = sorted(alloc, before, taken)?;
    Ok(now.as_slice() == old.as_slice())
}
