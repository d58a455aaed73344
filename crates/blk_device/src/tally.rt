// The blocks of an image, with a count of the reads of each.
ghost use Rattle.std.specs.Prelude.{◌≡◌, [], ◌&&◌, false, ◌==◌, ◌||◌, ℕ, true, IsTrue, OnOk, IfOk, if◌then◌else◌};
ghost use Rattle.std.specs.Ordering.{nat_cmp};
ghost use Rattle.std.specs.BTreeMap.{get};
ghost use Rattle.blk_device.specs.Causes.{one_more};
ghost use Rattle.blk_device.specs.Stored.{stored};
ghost use Rattle.blk_device.specs.Tally.{has, count_of, HasCounts, CountsOnly, OneRead};

use byte_fields::Block;
use std::alloc::{AllocError, Global};
use std::collections::BTreeMap;

/// Blocks by number, and how often each of them was read. A count stays at 2^64 - 1.
#[derive(Drop)]
pub struct Tally {
    blocks: BTreeMap<u64, Block>,
    counts: BTreeMap<u64, u64>,
    ghost has_counts: { HasCounts blocks counts },
    ghost counts_only: { CountsOnly blocks counts },
}

/// The block of that number, or zeros.
pub fn block_or_zeros(blocks: &BTreeMap<u64, Block>, at: u64) -> Block
    ensures { result.bytes ≡ stored blocks.now at }
{
    match blocks.get(&at) {
        Some(block) => *block,
        None => Block::zeroed(),
    }
}

// A count of 0 for each block.
fn zero_counts(
    alloc: Global,
    blocks: &BTreeMap<u64, Block>,
) -> Result<BTreeMap<u64, u64>, AllocError>
    ensures keys { IfOk result (λ counts. HasCounts blocks.now counts) }
    ensures zero { IfOk result (λ counts. (b : ℕ) → count_of counts b ≡ 0) }
{
    let mut counts = BTreeMap::new(alloc);
    for (at, _) in blocks {
        counts.insert(*at, 0)?;
    }
    Ok(counts)
}

// Keeps a count for this block, at least 0; says whether it could.
fn keep_count(counts: &mut BTreeMap<u64, u64>, at: u64) -> bool
    ensures same { (b : ℕ) → count_of counts.new b ≡ count_of counts.old b }
    ensures kept { (b : ℕ) → has counts.old b ≡ true → has counts.new b ≡ true }
    ensures there { IsTrue result → has counts.new at ≡ true }
{
    if counts.contains_key(&at) {
        return true;
    }
    counts.insert(at, 0).is_ok()
}

fn raise(counts: &mut BTreeMap<u64, u64>, at: u64)
    ensures one { (b : ℕ) → count_of counts.new b ≡ (if b == at then (if has counts.old at then one_more (count_of counts.old b) else count_of counts.old b) else count_of counts.old b) }
    ensures kept { (b : ℕ) → has counts.new b ≡ has counts.old b }
{
    if let Some(count) = counts.get_mut(&at) {
        *count = count.saturating_add(1);
    }
}

impl Tally {
    /// No blocks.
    pub fn new(alloc: Global) -> Self
        ensures empty { result.blocks.entries ≡ [] }
        ensures none { (b : ℕ) → has result.blocks b ≡ false }
        ensures zero { (b : ℕ) → count_of result.counts b ≡ 0 }
    {
        Tally {
            blocks: BTreeMap::new(alloc),
            counts: BTreeMap::new(alloc),
        }
    }

    fn joined(blocks: BTreeMap<u64, Block>, counts: BTreeMap<u64, u64>) -> Self
        requires keys { HasCounts blocks counts }
        requires zero { (b : ℕ) → count_of counts b ≡ 0 }
        ensures { (result.blocks ≡ blocks) × (result.counts ≡ counts) }
    {
        Tally { blocks, counts }
    }

    /// A copy of these blocks, none of them read yet.
    pub fn copy_of(alloc: Global, blocks: &BTreeMap<u64, Block>) -> Result<Self, AllocError>
        ensures same { IfOk result (λ t. t.blocks.entries ≡ blocks.now.entries) }
        ensures there { IfOk result (λ t. (b : ℕ) → has t.blocks b ≡ has blocks.now b) }
        ensures zero { IfOk result (λ t. (b : ℕ) → count_of t.counts b ≡ 0) }
    {
        let own = blocks.clone()?;
        let counts = zero_counts(alloc, &own)?;
        Ok(Tally::joined(own, counts))
    }

    /// The block of that number, or zeros.
    pub fn get(&self, at: u64) -> Block
        ensures { result.bytes ≡ stored self.now.blocks at }
    {
        block_or_zeros(&self.blocks, at)
    }

    /// How often the block was read; 0 where there is none.
    pub fn reads_of(&self, at: u64) -> u64
        ensures count { result ≡ count_of self.now.counts at }
        ensures none { has self.now.blocks at ≡ false → result ≡ 0 }
    {
        self.counts.get(&at).copied().unwrap_or(0)
    }

    /// The blocks, with no counts.
    pub fn into_blocks(self) -> BTreeMap<u64, Block>
        ensures { result ≡ self.blocks }
    {
        self.blocks
    }

    /// Counts a read of a block that is there.
    pub fn count_read(&mut self, at: u64)
        ensures blocks { self.new.blocks ≡ self.old.blocks }
        ensures one { OneRead self.old.blocks at self.old.counts self.new.counts }
    {
        if self.blocks.contains_key(&at) {
            raise(&mut self.counts, at);
        }
    }

    /// Puts a block there, unless memory is refused.
    pub fn put(&mut self, at: u64, block: &Block) -> bool
        ensures stored { (b : ℕ) → stored self.new.blocks b ≡ (if result && (b == at) then block.now.bytes else stored self.old.blocks b) }
        ensures there { (b : ℕ) → has self.new.blocks b ≡ ((result && (b == at)) || has self.old.blocks b) }
        ensures counts { (b : ℕ) → count_of self.new.counts b ≡ count_of self.old.counts b }
    {
        if !keep_count(&mut self.counts, at) {
            return false;
        }
        self.blocks.insert(at, *block).is_ok()
    }
}
