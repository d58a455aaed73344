ghost use Rattle.std.specs.Prelude.{◌≡◌, ◌≤◌, is_some, length, nat_lt};
ghost use Rattle.blk_cache.specs.Entries.{entries_in, capacity_in};

use crate::stored::{copy_kept, keep};
use blk_device::{Device, DeviceFailed, Region};
use byte_fields::Block;
use lru::LruCache;
use std::alloc::{AllocError, Global};
use std::num::NonZeroUsize;
use thiserror::Error;

/// There was no memory for the cache.
#[derive(Clone, Copy, Debug, PartialEq, Eq, Error)]
#[error("memory")]
pub struct Memory;

impl From<AllocError> for Memory {
    ghost from_gives = { λ _ e. e ≡ record {} };

    fn from(_: AllocError) -> Self {
        Memory
    }
}

/// Image blocks that were read or written, kept for the next read: as many as fit its capacity,
/// of which the one that was used longest ago gives way first. Where there is no memory for a
/// block it isn't kept, and every answer is the same.
#[derive(Drop)]
pub struct BlkCache {
    blocks: Option<LruCache<u64, Block>>,
    ghost room: { is_some blocks ≡ nat_lt 0 (capacity_in blocks) },
    pub ghost few: { length (entries_in blocks) ≤ capacity_in blocks },
}

impl BlkCache {
    ghost use Rattle.std.specs.Prelude.{[], ℕ, ◌<◌, if◌then◌else◌, IsOk, IfSome, IfNone, IfOk, OnOk, OnErr, nat_eq};
    ghost use Rattle.std.specs.Map.{lookup};
    ghost use Rattle.blk_device.specs.Causes.{HasCause, any_error, one_more};
    ghost use Rattle.blk_device.specs.Contents.{Contents, Holds, put};
    ghost use Rattle.blk_device.specs.Crash.{NoMore, Elapses};
    ghost use Rattle.blk_device.specs.declared.device.Region.TheVariants.{Image};
    ghost use Rattle.blk_cache.specs.Cache.{entries_of, capacity_of, kept, Agrees, AgreesTold, KeepsInFront, Stays};

    /// A cache that keeps nothing yet, and at most `capacity` blocks; with 0 it never keeps one.
    pub fn new(alloc: Global, capacity: usize) -> Result<Self, Memory>
        ensures empty { IfOk result (λ cache. entries_of cache ≡ []) }
        ensures agrees { IfOk result (λ cache. (contents : Contents) → Agrees cache contents) }
        ensures capacity { IfOk result (λ cache. capacity_of cache ≡ capacity) }
    {
        let blocks = match NonZeroUsize::new(capacity) {
            Some(most) => Some(LruCache::new(alloc, most)?),
            None => None,
        };
        Ok(BlkCache { blocks })
    }

    // A copy of the block that is kept, which becomes the most recently used.
    fn copy_kept(&mut self, at: u64) -> Option<Block>
        ensures value { result ≡ lookup (nat_eq at) (entries_of self.old) }
        ensures found { IfSome result (λ block. KeepsInFront at block self.old self.new) }
        ensures missed { IfNone result (Stays self.old self.new) }
    {
        match &mut self.blocks {
            Some(blocks) => copy_kept(blocks, at),
            None => None,
        }
    }

    /// Keeps the bytes that were written to an image block, in place of what was kept of it.
    pub fn note_written(&mut self, at: u64, block: &Block)
        ensures keeps { KeepsInFront at block.now self.old self.new }
        ensures agrees { (contents : Contents) → Agrees self.old contents → Agrees self.new (put Image at block.now.bytes contents) }
    {
        if let Some(blocks) = &mut self.blocks {
            keep(blocks, at, block);
        }
    }

    /// Reads an image block, from what is kept or else by one read of the device. At Failed the
    /// bytes of `into` may be any, and the same blocks are kept.
    pub fn get<D: Device>(
        &mut self,
        dev: &mut D,
        at: u64,
        into: &mut Block,
    ) -> Result<(), DeviceFailed>
        requires place { at < D.blocks dev.old Image }
        requires agreed { AgreesTold self.old (D.content dev.old) }

        // The answer is the device's, from wherever it comes.
        ensures bytes { OnOk result (Holds Image at into.new.bytes (D.content dev.old)) }
        ensures answered { IfSome (kept self.old at) (λ bytes. IsOk result × (into.new.bytes ≡ bytes)) }

        // A block that is kept leaves the device as it was, and any other costs one read.
        ensures untouched { IfSome (kept self.old at) (λ _. dev.new ≡ dev.old) }
        ensures reads { D.reads dev.new ≡ (if is_some (kept self.old at) then D.reads dev.old else one_more (D.reads dev.old)) }
        ensures same { D.content dev.new ≡ D.content dev.old }
        ensures crash { NoMore (D.may_hold_now dev.old) (D.may_hold_now dev.new) }
        ensures time { Elapses (D.clock dev.old) (D.clock dev.new) (D.may_have_held_since dev.old) (D.may_have_held_since dev.new) (D.may_hold_now dev.new) }
        ensures sizes { D.blocks dev.new ≡ D.blocks dev.old }
        ensures cause { HasCause any_error (D.faults dev.old) (D.faults dev.new) result }

        // What is kept afterwards.
        ensures keeps { OnOk result (KeepsInFront at into.new self.old self.new) }
        ensures failed { OnErr result (Stays self.old self.new) }
        ensures agrees { AgreesTold self.new (D.content dev.new) }
    {
        if let Some(block) = self.copy_kept(at) {
            *into = block;
            return Ok(());
        }
        dev.read(Region::Image, at, into)?;
        self.note_written(at, into);
        Ok(())
    }
}
