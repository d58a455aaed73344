ghost use Rattle.std.specs.Prelude.{◌≡◌, ◌<◌, ◌≤◌, ◌+◌, ◌^◌, ◌&&◌, ◌||◌, ◌⊎◌, ℕ, true, false, not, Some, None, IfOk, IfSome, IfNone, length, option_map};
ghost use Rattle.std.specs.Vec.{vec_capacity, vec_len};
ghost use Rattle.rmap_recs.specs.Owners.{number_of};
ghost use Rattle.block_reap.specs.Limbo.{HasRun, IsLimbo, IsNext, covers, has, next_of, owner_of_unit};

use crate::runs::{LimboRun, hull, leave_beside, put_in_place};
use fs_model::Unit;
use rmap_recs::Owner;
use std::alloc::{AllocError, Global};
use thiserror::Error;

/// So many blocks are reaped at once at most.
pub const MOST_REAPED: u32 = 64;

/// There was no memory for the list.
#[derive(Clone, Copy, Debug, PartialEq, Eq, Error)]
#[error("memory")]
pub struct Memory;

impl From<AllocError> for Memory {
    ghost from_gives = { λ _ e. e ≡ record {} };

    fn from(_: AllocError) -> Self {
        Memory
    }
}

/// The owner of the blocks that a unit's rebuild reserves, and that its switch puts into limbo: the
/// inode btrees, the group for reverse mappings and free space, or reference counts
/// (XFS Online Fsck Design, "Reaping After Repairing Ondisk Metadata").
pub fn unit_owner(unit: Unit) -> Owner
    ensures { result ≡ owner_of_unit unit }
{
    match unit {
        Unit::Inode => Owner::Inobt,
        Unit::Rmap | Unit::Free => Owner::Ag,
        Unit::Refc => Owner::Refc,
    }
}

// The first run, cut to what is reaped at once.
fn first_run(limbo: &[LimboRun]) -> Option<LimboRun>
    ensures { result ≡ next_of limbo.now }
{
    match limbo.split_first() {
        Some((first, _)) => Some(LimboRun {
            count: first.count.min(MOST_REAPED),
            ..*first
        }),
        None => None,
    }
}

/// The run that is reaped next: of the lowest block in limbo, and there of the lowest owner, the
/// blocks that follow with this owner, 64 at most; none exactly where limbo is empty
/// (XFS Online Fsck Design, "Reaping After Repairing Ondisk Metadata").
pub fn next(limbo: &[LimboRun]) -> Option<LimboRun>
    ensures value { result ≡ next_of limbo.now }
    ensures exact { IsLimbo limbo.now → IfSome result (λ run. IsNext limbo.now run) }
    ensures none { IfNone result ((b o : ℕ) → has limbo.now b o ≡ false) }
{
    first_run(limbo)
}

/// Puts a block with its owner into limbo, which is a set: what is there already stays once.
pub fn put(limbo: &mut Vec<LimboRun>, block: u32, owner: u64)
    requires limbo { IsLimbo limbo.old.items }
    requires block { block + 1 < 2 ^ 32 }
    requires room { vec_len limbo.old < vec_capacity limbo.old }
    ensures limbo { IsLimbo limbo.new.items }
    ensures exact { (b o : ℕ) → has limbo.new.items b o ≡ (has limbo.old.items b o || covers (record { start = block; count = 1; owner = owner }) b o) }
    ensures len { vec_len limbo.new ≤ vec_len limbo.old + 1 }
    ensures capacity { vec_capacity limbo.new ≡ vec_capacity limbo.old }
{
    let run = LimboRun {
        start: block,
        count: 1,
        owner,
    };
    put_whole(limbo, &run);
}

// Puts a run into limbo.
fn put_whole(limbo: &mut Vec<LimboRun>, run: &LimboRun)
    requires limbo { IsLimbo limbo.old.items }
    requires run { HasRun run.now }
    requires room { vec_len limbo.old < vec_capacity limbo.old }
    ensures limbo { IsLimbo limbo.new.items }
    ensures exact { (b o : ℕ) → has limbo.new.items b o ≡ (has limbo.old.items b o || covers run.now b o) }
    ensures len { vec_len limbo.new ≤ vec_len limbo.old + 1 }
    ensures capacity { vec_capacity limbo.new ≡ vec_capacity limbo.old }
{
    let whole = hull(limbo, run);
    leave_beside(limbo, run);
    put_in_place(limbo, whole);
}

/// Takes the run that is next out of limbo: each of its blocks leaves with its owner, and no other.
pub fn take_off(limbo: &mut Vec<LimboRun>, run: &LimboRun)
    requires limbo { IsLimbo limbo.old.items }
    requires next { next_of limbo.old.items ≡ Some run.now }
    ensures limbo { IsLimbo limbo.new.items }
    ensures exact { (b o : ℕ) → has limbo.new.items b o ≡ (has limbo.old.items b o && not (covers run.now b o)) }
    ensures len { vec_len limbo.new ≤ vec_len limbo.old }
    ensures capacity { vec_capacity limbo.new ≡ vec_capacity limbo.old }
{
    let first = limbo.remove(0);
    if run.count < first.count {
        let rest = LimboRun {
            start: first.start + run.count,
            count: first.count - run.count,
            owner: first.owner,
        };
        put_in_place(limbo, rest);
    }
}

/// Both lists of limbo as one.
pub fn merged(
    alloc: Global,
    first: &[LimboRun],
    second: &[LimboRun],
) -> Result<Vec<LimboRun>, Memory>
    requires first { IsLimbo first.now }
    requires second { IsLimbo second.now }
    ensures limbo { IfOk result (λ limbo. IsLimbo limbo.items) }
    ensures exact { (b o : ℕ) → IfOk result (λ limbo. has limbo.items b o ≡ (has first.now b o || has second.now b o)) }
{
    let mut limbo = Vec::from_slice(alloc, first)?;
    limbo.reserve(second.len())?;
    let mut rest = second;
    while let Some((run, later)) = rest.split_first() {
        put_whole(&mut limbo, run);
        rest = later;
    }
    Ok(limbo)
}
