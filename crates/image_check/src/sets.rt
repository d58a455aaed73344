ghost use Rattle.std.specs.Prelude.{◌≡◌, ℕ, ◌<◌, length};
ghost use Rattle.fork_pass.specs.Sets.{pieces_at};
ghost use Rattle.unit_plan.specs.Sets.{pieces_of};

use std::alloc::Global;
use std::mem;
use unit_plan::ClaimSet;

/// Takes the claims on the blocks of group `g` out of the sets of all groups, and leaves none there, so
/// that their memory is given back group by group
/// (XFS Online Fsck Design, "Cross-Referencing Space Metadata").
pub fn take_set(alloc: Global, sets: &mut [ClaimSet], g: u32) -> ClaimSet
    requires { g < length sets.old }
    ensures taken { pieces_of result ≡ pieces_at sets.old g }
    ensures others { (h : ℕ) → g < h → pieces_at sets.new h ≡ pieces_at sets.old h }
    ensures groups { length sets.new ≡ length sets.old }
{
    // The old set goes with its group, and its memory with it.
    let fresh = ClaimSet::new(alloc);
    mem::replace(&mut sets[g as usize], fresh)
}
