ghost use Rattle.std.specs.Prelude.{◌≡◌, ◌+◌, ◌<◌, Some, IfOk, IfErr, OnOk};
ghost use Rattle.blk_device.specs.Causes.{HasCause};
ghost use Rattle.blk_device.specs.Contents.{Contents};
ghost use Rattle.blk_device.specs.Reading.{OnlyRead};
ghost use Rattle.blk_device.specs.declared.device.Region.TheVariants.{Image};
ghost use Rattle.inode_pass.specs.Stops.{is_failed};

use crate::stop::PassStop;
use blk_device::{Device, Region};
use byte_fields::{Block, Steps};
use std::sync::ledger::Ledger;

/// Reads a block of the image from the device itself into a block that is lent; that it failed is the
/// one refusal, and then its bytes may be any (XFS Algorithms and Data Structures, "Allocation Groups").
pub fn read_block<D: Device, L: Ledger>(
    dev: &mut D,
    at: u64,
    into: &mut Block,
    steps: &mut Steps<L>,
) -> Result<(), PassStop>
    requires { at < D.blocks dev.old Image }
    ensures told { OnOk result ((c : Contents) → D.content dev.old ≡ Some c → into.new.bytes ≡ c Image at) }
    ensures failed { IfErr result (λ stop. stop ≡ PassStop.Failed) }
    ensures reading { OnlyRead D.Device dev.old dev.new steps.old steps.new }
    ensures cause { HasCause is_failed (D.faults dev.old) (D.faults dev.new) result }
    ensures one { steps.new.reads ≡ steps.old.reads + 1 }
{
    steps.block_read();
    dev.read(Region::Image, at, into)?;
    Ok(())
}

/// Reads a block of the image from the device itself; that it failed is the one refusal
/// (XFS Algorithms and Data Structures, "Allocation Groups").
pub fn load_block<D: Device, L: Ledger>(
    dev: &mut D,
    at: u64,
    steps: &mut Steps<L>,
) -> Result<Block, PassStop>
    requires { at < D.blocks dev.old Image }
    ensures told { IfOk result (λ block. (c : Contents) → D.content dev.old ≡ Some c → block.bytes ≡ c Image at) }
    ensures failed { IfErr result (λ stop. stop ≡ PassStop.Failed) }
    ensures reading { OnlyRead D.Device dev.old dev.new steps.old steps.new }
    ensures cause { HasCause is_failed (D.faults dev.old) (D.faults dev.new) result }
    ensures one { steps.new.reads ≡ steps.old.reads + 1 }
{
    let mut block = Block::zeroed();
    read_block(dev, at, &mut block, steps)?;
    Ok(block)
}
