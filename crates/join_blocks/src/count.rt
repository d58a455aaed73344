ghost use Rattle.std.specs.Prelude.{◌≡◌, ◌+◌, ◌^◌, ◌<◌, ℕ, ◌==◌, ◌||◌, not, length, IfOk, OnOk};
ghost use Rattle.std.specs.BTreeSet.{contains};
ghost use Rattle.std.specs.Ordering.{nat_cmp};
ghost use Rattle.redo_area.specs.declared.TheConstants.{MAX_BATCH};
ghost use Rattle.join_blocks.specs.Joins.{is_joined, count_of, LieBelow};

use meta_txn::Txn;
use std::alloc::{AllocError, Global};
use std::collections::BTreeSet;

// Notes the number, and answers whether it is new: not joined, and not noted before.
fn note(txn: &Txn, seen: &mut BTreeSet<u64>, at: u64) -> Result<bool, AllocError>
    ensures answer { IfOk result (λ is_new. is_new ≡ not (contains nat_cmp seen.old at || is_joined txn.now.blocks at)) }
    ensures noted { OnOk result ((n : ℕ) → contains nat_cmp seen.new n ≡ (n == at || contains nat_cmp seen.old n)) }
{
    let added = seen.insert(at)?;
    Ok(added && txn.joined(at).is_none())
}

/// How many blocks the transaction would have with each of these joined, a block that is joined
/// already or stands twice counted once. Blocks are counted from the group's block 0, which is
/// `first` of the image. It costs a step a block, and memory for as many numbers.
pub fn count_with(alloc: Global, txn: &Txn, first: u64, blocks: &[u32]) -> Result<u64, AllocError>
    requires fits { LieBelow (2 ^ 64) first blocks.now }
    requires few { length blocks.now + MAX_BATCH < 2 ^ 64 }
    ensures { IfOk result (λ count. count ≡ count_of txn.now.blocks first blocks.now) }
{
    let mut count = 0;
    let mut seen = BTreeSet::new(alloc);
    let mut rest = blocks;
    while let Some((block, later)) = rest.split_first() {
        if note(txn, &mut seen, first + u64::from(*block))? {
            count += 1;
        }
        rest = later;
    }
    Ok(txn.len() as u64 + count)
}
