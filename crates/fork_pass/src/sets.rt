ghost use Rattle.std.specs.Prelude.{◌≡◌, ◌==◌, ◌<◌, IfErr, IfOk, OnOk, length};
ghost use Rattle.fs_state.specs.Lists.{only_if};
ghost use Rattle.fork_pass.specs.Sets.{Adds, AreFresh};

use inode_pass::PassStop;
use std::alloc::Global;
use unit_plan::{ClaimSet, Piece};

/// A set without claims for each of so many groups
/// (XFS Online Fsck Design, "Cross-Referencing Space Metadata").
pub fn fresh_sets(alloc: Global, groups: u32) -> Result<Vec<ClaimSet>, PassStop>
    ensures fresh { IfOk result (λ sets. AreFresh groups sets.items) }
    ensures memory { IfErr result (λ stop. stop ≡ PassStop.Memory) }
{
    let mut sets = Vec::new(alloc);
    for i in 0..groups {
        let _group = i;
        let set = ClaimSet::new(alloc);
        sets.push(set)?;
    }
    Ok(sets)
}

/// Puts a piece into the set of group `g`
/// (XFS Online Fsck Design, "Cross-Referencing Space Metadata").
pub fn put_piece(sets: &mut [ClaimSet], g: u32, piece: Piece) -> Result<(), PassStop>
    requires { g < length sets.old }
    ensures put { OnOk result (Adds sets.old sets.new (λ h. only_if (g == h) piece)) }
    ensures groups { length sets.new ≡ length sets.old }
    ensures memory { IfErr result (λ stop. stop ≡ PassStop.Memory) }
{
    sets[g as usize].put(piece).map_err(|_| PassStop::Memory)?;
    Ok(())
}
