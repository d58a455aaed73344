// Lists of numbered blocks, and one block read.
ghost use Rattle.std.specs.Prelude.{◌≡◌, ◌+◌, ◌≤◌, ◌<◌, length, vec_len, vec_capacity, option_map, IfOk, IfErr};
ghost use Rattle.blk_cache.specs.Cache.{AgreesTold};
ghost use Rattle.blk_device.specs.Causes.{HasCause, any_error};
ghost use Rattle.blk_device.specs.Contents.{Holds};
ghost use Rattle.blk_device.specs.Crash.{Elapses, NoMore};
ghost use Rattle.blk_device.specs.declared.device.Region.TheVariants.{Image};
ghost use Rattle.redo_area.specs.Area.{bytes_of};
ghost use Rattle.meta_txn.specs.Entering.{reads_after};
ghost use Rattle.meta_txn.specs.Joined.{bytes_at};
ghost use Rattle.meta_txn.specs.Places.{found};

use crate::fault::TxnFault;
use blk_cache::BlkCache;
use blk_device::Device;
use byte_fields::{Block, Steps};
use std::sync::ledger::Ledger;

/// Puts the blocks of a list in the place of those of another, which has room for them.
pub fn copy_over(to: &mut Vec<(u64, Block)>, from: &[(u64, Block)])
    requires { length from.now ≤ vec_capacity to.old }
    ensures items { to.new.items ≡ from.now }
    ensures len { vec_len to.new ≡ length from.now }
    ensures capacity { vec_capacity to.old ≤ vec_capacity to.new }
{
    to.clear();
    let _ = to.extend_from_slice(from);
}

/// The place of the block with this number among rising numbers, or as Err where it belongs.
pub fn find(blocks: &[(u64, Block)], at: u64) -> Result<usize, usize>
    ensures { result ≡ found at (bytes_of blocks.now) }
{
    let mut rest = blocks;
    let mut place = 0;
    while let Some(((number, _), later)) = rest.split_first() {
        if *number == at {
            return Ok(place);
        }
        if *number > at {
            return Err(place);
        }
        place += 1;
        rest = later;
    }
    Err(place)
}

/// A copy of the block with this number, if the list has one.
pub fn copy_of(blocks: &[(u64, Block)], at: u64) -> Option<Block>
    ensures { bytes_at at (bytes_of blocks.now) ≡ option_map (λ block. block.bytes) result }
{
    let mut rest = blocks;
    while let Some(((number, block), later)) = rest.split_first() {
        if *number == at {
            return Some(*block);
        }
        rest = later;
    }
    None
}

/// Reads an image block through the cache, and counts it.
pub fn load<D: Device, L: Ledger>(
    dev: &mut D,
    cache: &mut BlkCache,
    at: u64,
    steps: &mut Steps<L>,
) -> Result<Block, TxnFault>
    requires place { at < D.blocks dev.old Image }
    requires agreed { AgreesTold cache.old (D.content dev.old) }
    ensures bytes { IfOk result (λ block. Holds Image at block.bytes (D.content dev.old)) }
    ensures kind { IfErr result (λ fault. fault ≡ TxnFault.Failed) }
    ensures ticks { steps.new ≡ record steps.old { reads = steps.old.reads + 1 } }
    ensures reads { D.reads dev.new ≡ reads_after cache.old at (D.reads dev.old) }
    ensures same { D.content dev.new ≡ D.content dev.old }
    ensures crash { NoMore (D.may_hold_now dev.old) (D.may_hold_now dev.new) }
    ensures time { Elapses (D.clock dev.old) (D.clock dev.new) (D.may_have_held_since dev.old) (D.may_have_held_since dev.new) (D.may_hold_now dev.new) }
    ensures sizes { D.blocks dev.new ≡ D.blocks dev.old }
    ensures cause { HasCause any_error (D.faults dev.old) (D.faults dev.new) result }
    ensures agrees { AgreesTold cache.new (D.content dev.new) }
{
    let mut block = Block::zeroed();
    // Counted whether the cache has it or not: steps bound the device's reads from above.
    steps.block_read();
    cache.get(dev, at, &mut block)?;
    Ok(block)
}
