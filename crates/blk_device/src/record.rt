// What was asked of a device in memory, and what its blocks hold.
ghost use Rattle.std.specs.Prelude.{◌≡◌, IsTrue, ◌++◌, [], ◌∷◌, ℕ, true, false, IfOk, reverse, if◌then◌else◌};
ghost use Rattle.blk_device.specs.Calls.{seen_after};
ghost use Rattle.blk_device.specs.Stored.{stored, with_stored};
ghost use Rattle.blk_device.specs.declared.device.Region.TheVariants.{Image, Redo};
ghost use Rattle.blk_device.specs.declared.record.Call.TheVariants.{Wrote, Doubted, Synced};

use crate::device::Region;
use crate::tally::{Tally, block_or_zeros};
use crate::unsynced::{Unsynced, choice_at, next_choice, outcome_of, with_outcome};
use byte_fields::Block;
use std::alloc::{AllocError, Global};
use std::collections::BTreeMap;

/// What changed a device, put a block of it in doubt, or made it durable.
#[derive(Clone, Copy, Debug, Drop)]
pub enum Call {
    Wrote(Region, u64, Block),
    Doubted(Region, u64, Block),
    Synced(Region),
}

/// The image that a device began with, the calls since then, the first one first, and the
/// blocks as they now read.
#[derive(Drop)]
pub struct Record {
    base: BTreeMap<u64, Block>,
    calls: Vec<Call>,
    image: Tally,
    redo: BTreeMap<u64, Block>,
    ghost image_is: { (b : ℕ) → stored image.blocks b ≡ seen_after (with_stored base) (reverse calls.items) Image b },
    ghost redo_is: { (b : ℕ) → stored redo b ≡ seen_after (with_stored base) (reverse calls.items) Redo b },
}

impl Record {
    ghost use Rattle.blk_device.specs.Recorded.{Adds, Stays, KeepsWritten, CountsRead, KeepsCounts, keeps_block, reads_kept, seen, left_now};
    ghost use Rattle.blk_device.specs.Contents.{Contents, put};
    ghost use Rattle.blk_device.specs.Replay.{replayed, choices_by, left_by, outcome};
    ghost use Rattle.blk_device.specs.declared.device.Region.{Region as GhostRegion};
    ghost use Rattle.blk_device.specs.Tally.{has};

    /// A record of no calls, over zeros.
    pub fn blank(alloc: Global) -> Self
        ensures calls { result.calls.items ≡ [] }
        ensures base { result.base.entries ≡ [] }
        ensures none { (b : ℕ) → keeps_block result b ≡ false }
        ensures unread { (b : ℕ) → reads_kept result b ≡ 0 }
    {
        Record {
            base: BTreeMap::new(alloc),
            calls: Vec::new(alloc),
            image: Tally::new(alloc),
            redo: BTreeMap::new(alloc),
        }
    }

    /// An image of these blocks, of which nothing was asked yet, over a redo region of zeros.
    pub fn over(alloc: Global, blocks: BTreeMap<u64, Block>) -> Result<Self, AllocError>
        ensures calls { IfOk result (λ r. r.calls.items ≡ []) }
        ensures base { IfOk result (λ r. r.base.entries ≡ blocks.entries) }
        ensures there { IfOk result (λ r. (b : ℕ) → keeps_block r b ≡ has blocks b) }
        ensures unread { IfOk result (λ r. (b : ℕ) → reads_kept r b ≡ 0) }
    {
        let image = Tally::copy_of(alloc, &blocks)?;
        Ok(Record {
            base: blocks,
            calls: Vec::new(alloc),
            image,
            redo: BTreeMap::new(alloc),
        })
    }

    /// What was last written there, or what stood there at first.
    pub fn latest(&self, region: Region, at: u64) -> Block
        ensures { result.bytes ≡ seen_after (with_stored self.now.base) (reverse self.now.calls.items) region at }
    {
        match region {
            Region::Image => self.image.get(at),
            Region::Redo => block_or_zeros(&self.redo, at),
        }
    }

    /// Counts a read of an image block that is kept.
    pub fn count_read(&mut self, region: Region, at: u64)
        ensures calls { Stays self.old self.new }
        ensures counts { CountsRead true region at self.old self.new }
    {
        match region {
            Region::Image => self.image.count_read(at),
            Region::Redo => (),
        }
    }

    /// How often an image block was read; 0 where none is kept.
    pub fn reads_of(&self, at: u64) -> u64
        ensures count { result ≡ reads_kept self.now at }
        ensures none { keeps_block self.now at ≡ false → result ≡ 0 }
    {
        self.image.reads_of(at)
    }

    /// The image's blocks as they read now.
    pub fn into_image(self) -> BTreeMap<u64, Block>
        ensures { (b : ℕ) → stored result b ≡ seen_after (with_stored self.base) (reverse self.calls.items) Image b }
    {
        self.image.into_blocks()
    }

    fn write_image(&mut self, at: u64, from: &Block) -> bool
        ensures calls { Adds result (Wrote Image at from.now) self.old self.new }
        ensures counts { KeepsWritten result Image at self.old self.new }
    {
        if self
            .calls
            .push(Call::Wrote(Region::Image, at, *from))
            .is_err()
        {
            return false;
        }
        if !self.image.put(at, from) {
            self.calls.pop();
            return false;
        }
        true
    }

    fn write_redo(&mut self, at: u64, from: &Block) -> bool
        ensures calls { Adds result (Wrote Redo at from.now) self.old self.new }
        ensures counts { KeepsCounts self.old self.new }
    {
        if self
            .calls
            .push(Call::Wrote(Region::Redo, at, *from))
            .is_err()
        {
            return false;
        }
        if self.redo.insert(at, *from).is_err() {
            self.calls.pop();
            return false;
        }
        true
    }

    /// Whether the write could be kept.
    pub fn write(&mut self, region: Region, at: u64, from: &Block) -> bool
        ensures calls { Adds result (Wrote region at from.now) self.old self.new }
        ensures counts { KeepsWritten result region at self.old self.new }
    {
        match region {
            Region::Image => self.write_image(at, from),
            Region::Redo => self.write_redo(at, from),
        }
    }

    /// Whether a write that failed could be kept.
    pub fn doubt(&mut self, region: Region, at: u64, from: &Block) -> bool
        ensures calls { Adds result (Doubted region at from.now) self.old self.new }
        ensures counts { KeepsCounts self.old self.new }
    {
        self.calls.push(Call::Doubted(region, at, *from)).is_ok()
    }

    /// Whether the sync could be kept.
    pub fn sync(&mut self, region: Region) -> bool
        ensures calls { Adds result (Synced region) self.old self.new }
        ensures counts { KeepsCounts self.old self.new }
    {
        self.calls.push(Call::Synced(region)).is_ok()
    }

    fn put_left(&mut self, region: Region, at: u64, block: &Block, left: Unsynced) -> bool
        ensures { IsTrue result → (s : GhostRegion) (b : ℕ) → seen self.new s b ≡ put region at (outcome left block.now.bytes (seen self.old region at)) (seen self.old) s b }
    {
        let old = self.latest(region, at);
        self.write(region, at, &with_outcome(left, block, &old))
    }

    // Puts into the block what a crash leaves of a call; says whether that could be kept.
    fn replay(&mut self, call: &Call, left: Unsynced) -> bool
        ensures { IsTrue result → (s : GhostRegion) (b : ℕ) → seen self.new s b ≡ replayed left call.now (seen self.old) s b }
    {
        match call {
            Call::Wrote(region, at, block) => self.put_left(*region, *at, block, left),
            Call::Doubted(region, at, block) => self.put_left(*region, *at, block, left),
            Call::Synced(_) => true,
        }
    }

    // Both regions as they read made durable; says whether that could be kept.
    fn settle(&mut self) -> bool
        ensures same { seen self.new ≡ seen self.old }
        ensures quiet { IsTrue result → (c : Contents) → left_now self.new c → c ≡ seen self.new }
    {
        self.sync(Region::Image) && self.sync(Region::Redo)
    }

    /// A choice for each call, by the bits of a number: each bit in turn, from the lowest on, tells
    /// whether the next write in doubt stands.
    pub fn choices_keeping(&self, alloc: Global, keep: u64) -> Result<Vec<Unsynced>, AllocError>
        ensures { IfOk result (λ choices. choices.items ≡ choices_by keep self.now.calls.items) }
    {
        let mut choices = Vec::new(alloc);
        let mut rest: &[Call] = &self.calls;
        let mut bits = keep;
        while let Some((call, later)) = rest.split_first() {
            choices.push(next_choice(call, later, &mut bits))?;
            rest = later;
        }
        Ok(choices)
    }

    /// What a crash now leaves, of each call that no sync followed as the choices say, in turn.
    pub fn crash(&self, alloc: Global, choices: &[Unsynced]) -> Result<Self, AllocError>
        ensures content { IfOk result (λ r. seen r ≡ left_by choices.now (with_stored self.now.base) (reverse self.now.calls.items)) }
        ensures quiet { IfOk result (λ r. (c : Contents) → left_now r c → c ≡ seen r) }
    {
        let mut log = Record::over(alloc, self.base.clone()?)?;
        for (i, call) in self.calls.iter().enumerate() {
            let left = outcome_of(call, &self.calls[i + 1..], choice_at(choices, i));
            if !log.replay(call, left) {
                return Err(AllocError);
            }
        }
        if !log.settle() {
            return Err(AllocError);
        }
        Ok(log)
    }
}
