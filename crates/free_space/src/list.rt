ghost use Rattle.std.specs.Prelude.{◌≡◌, ◌<◌, ◌-◌, ◌+◌, ◌==◌, ℕ, nat_lt, IfOk, All, take, length, if◌then◌else◌};
ghost use Rattle.std.specs.List.{list_any};
ghost use Rattle.ag_headers.specs.Ring.{entries};
ghost use Rattle.run_sets.specs.Sets.{has};
ghost use Rattle.run_sets.specs.Runs.{most};
ghost use Rattle.free_space.specs.declared.list.ListGoal.TheVariants.{Take, Give, Nothing};

use ag_headers::Agfl;
use run_sets::{Run, RunSet};
use std::alloc::Global;
use thiserror::Error;

/// A free list with fewer blocks is filled
/// (XFS Algorithms and Data Structures, "AG Free List").
pub const LEAST_LISTED: u32 = 12;

/// So many blocks a refill leaves on the list, where it can
/// (XFS Algorithms and Data Structures, "AG Free List").
pub const WANTED_LISTED: u32 = 16;

/// A free list with more blocks is trimmed
/// (XFS Algorithms and Data Structures, "AG Free List").
pub const MOST_LISTED: u32 = 64;

/// There was no memory for the runs.
#[derive(Clone, Copy, Debug, PartialEq, Eq, Error)]
#[error("memory")]
pub struct Memory;

impl From<run_sets::Memory> for Memory {
    ghost from_gives = { λ _ e. e ≡ record {} };

    fn from(_: run_sets::Memory) -> Self {
        Memory
    }
}

/// What a refill does with a free list: it takes one run of so many blocks at most, it gives so many
/// blocks back, or it leaves the list.
#[derive(Clone, Copy, Debug, PartialEq, Eq)]
pub enum ListGoal {
    Take(u32),
    Give(u32),
    Nothing,
}

/// What a refill does with a list of `len` blocks: below 12 it takes what is wanted up to 16, above
/// 64 it gives all but 16 (XFS Algorithms and Data Structures, "AG Free List").
pub fn list_goal(len: u32) -> ListGoal
    ensures { result ≡ (if nat_lt len LEAST_LISTED then Take (WANTED_LISTED - len)
        else if nat_lt MOST_LISTED len then Give (len - WANTED_LISTED) else Nothing) }
{
    if len < LEAST_LISTED {
        return ListGoal::Take(WANTED_LISTED - len);
    }
    if len > MOST_LISTED {
        return ListGoal::Give(len - WANTED_LISTED);
    }
    ListGoal::Nothing
}

/// The blocks that a trimmed list gives back, as a set whose runs are maximal and rise: all of its
/// entries but the last 16. No entry is the greatest block number
/// (XFS Algorithms and Data Structures, "AG Free List").
#[tactic(auto, using(crate::proofs::ListLemmas::one_more))]
pub fn blocks_to_give(alloc: Global, list: &Agfl) -> Result<RunSet, Memory>
    requires { All (λ b. b < most) (entries list.now) }
    ensures { IfOk result (λ set. (b : ℕ) → has set b ≡ list_any (λ e. b == e) (take (length (entries list.now) - WANTED_LISTED) (entries list.now))) }
{
    let mut set = RunSet::new(alloc)?;
    for i in 0..list.len().saturating_sub(WANTED_LISTED) {
        let block = list.entry(i);
        set.add(
            alloc,
            Run {
                start: block,
                count: 1,
            },
        )?;
    }
    Ok(set)
}
