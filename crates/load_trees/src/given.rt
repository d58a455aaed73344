// What is tested of a list and of blocks before a tree is made of them.
ghost use Rattle.std.specs.Prelude.{◌≡◌, ◌↔◌, ◌<◌, ◌^◌, IsTrue, IfOk, length};
ghost use Rattle.sblock.specs.Blocks.{IsRising, AllInside, AreBlocks};
ghost use Rattle.sblock.specs.Lists.{IsAhead};
ghost use Rattle.tree_defs.specs.Lists.{AllDiffer};

use sblock::{Bounds, RecKind};
use std::alloc::{AllocError, Global};
use std::collections::BTreeSet;

// Whether a record comes before the first of those behind it.
fn is_ahead<K: RecKind>(rec: &K::Rec, later: &[K::Rec]) -> bool
    ensures { IsTrue result ↔ IsAhead (λ r s. K.form.is_before (K.form.key_of r) (K.form.key_of s)) rec.now later.now }
{
    match later.split_first() {
        None => true,
        Some((next, _)) => K::is_before(&K::key_of(rec), &K::key_of(next)),
    }
}

// Whether each record's key comes before the next one's.
pub(crate) fn is_rising<K: RecKind>(list: &[K::Rec]) -> bool
    ensures { IsTrue result ↔ IsRising K.form list.now }
{
    let mut rest = list;
    while let Some((rec, later)) = rest.split_first() {
        if !is_ahead::<K>(rec, later) {
            return false;
        }
        rest = later;
    }
    true
}

// Whether each record's numbers are in range.
pub(crate) fn are_in_range<K: RecKind>(list: &[K::Rec], bounds: &Bounds) -> bool
    ensures { IsTrue result ↔ AllInside K.form bounds.now list.now }
{
    let mut rest = list;
    while let Some((rec, later)) = rest.split_first() {
        if !K::is_in_range(rec, bounds) {
            return false;
        }
        rest = later;
    }
    true
}

// Whether each of these is a block of a group of so many blocks, and not its block 0.
fn are_blocks(claimed: &[u32], group: u32) -> bool
    ensures { IsTrue result ↔ AreBlocks group claimed.now }
{
    let mut rest = claimed;
    while let Some((block, later)) = rest.split_first() {
        if *block < 1 || *block >= group {
            return false;
        }
        rest = later;
    }
    true
}

// Whether none of these stands twice.
fn do_differ(alloc: Global, claimed: &[u32]) -> Result<bool, AllocError>
    ensures { IfOk result (λ differ. IsTrue differ ↔ AllDiffer claimed.now) }
{
    let mut seen = BTreeSet::new(alloc);
    let mut rest = claimed;
    while let Some((block, later)) = rest.split_first() {
        if !seen.insert(*block)? {
            return Ok(false);
        }
        rest = later;
    }
    Ok(true)
}

// Whether these are so many blocks of a group of `group` blocks, and none stands twice.
pub(crate) fn are_claims(
    alloc: Global,
    claimed: &[u32],
    blocks: u64,
    group: u32,
) -> Result<bool, AllocError>
    ensures exact { IfOk result (λ fit.
        IsTrue fit ↔ ((length claimed.now ≡ blocks) × AreBlocks group claimed.now × AllDiffer claimed.now)) }
    ensures fits { group < 2 ^ 32 }
{
    if claimed.len() as u64 != blocks {
        return Ok(false);
    }
    if !are_blocks(claimed, group) {
        return Ok(false);
    }
    do_differ(alloc, claimed)
}
