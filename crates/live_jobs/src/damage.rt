// The damage of a drill's image.
ghost use Rattle.std.specs.Prelude.{◌≡◌, ◌≤◌, ◌<◌};
ghost use Rattle.blk_device.specs.Causes.{HasCause, any_error};
ghost use Rattle.live_jobs.specs.declared.damage.TheConstants.{IMAGE_BLOCKS};

use blk_device::{Device, DeviceFailed, Region};
use byte_fields::{Block, get_u16, get_u32, put_sum, put_u32, sum_at};

/// A drill's image has so many groups.
pub(crate) const GROUPS: u32 = 3;

/// Of so many blocks.
pub(crate) const GROUP_BLOCKS: u32 = 4096;

/// And so has so many in all.
pub(crate) const IMAGE_BLOCKS: u64 = 12_288;

// The place of `bb_crc` in a btree block of a group, and where its records begin.
const SUM: usize = 52;

const RECORDS: usize = 56;

// The root of free space by start, and that of reverse mappings, in a new group.
const BNO_ROOT: u32 = 1;

const RMAP_ROOT: u32 = 5;

// The count of the last record of a leaf of free space is one less, and its checksum fits.
fn shorten_last(block: &mut Block) {
    let records = usize::from(get_u16(&block.bytes, 6));
    if records == 0 || records > 505 {
        return;
    }
    let place = RECORDS + 8 * (records - 1) + 4;
    let count = get_u32(&block.bytes, place);
    put_u32(&mut block.bytes, place, count.wrapping_sub(1));
    let sum = sum_at(&block.bytes, SUM);
    put_sum(&mut block.bytes, SUM, sum);
}

// Byte 4,000 of a block is another.
fn turn_byte(block: &mut Block) {
    block.bytes[4000] ^= 255;
}

// The block of a group on the device.
fn block_at(group: u32, block: u32) -> u64
    requires group { group < 3 }
    requires block { block < 4096 }
    ensures { result < IMAGE_BLOCKS }
{
    u64::from(group) * 4096 + u64::from(block)
}

// Changes a block of the image, where it is there.
fn change_block<D: Device>(dev: &mut D, at: u64, is_shortened: bool) -> Result<(), DeviceFailed>
    requires room { IMAGE_BLOCKS ≤ D.blocks dev.old Region.Image }
    requires place { at < IMAGE_BLOCKS }
    ensures sizes { D.blocks dev.new ≡ D.blocks dev.old }
    ensures cause { HasCause any_error (D.faults dev.old) (D.faults dev.new) result }
{
    let mut block = Block::zeroed();
    dev.read(Region::Image, at, &mut block)?;
    if is_shortened {
        shorten_last(&mut block);
    } else {
        turn_byte(&mut block);
    }
    dev.write(Region::Image, at, &block)
}

/// Damages a new image by the drill's number: in one group the count of the last record of free space by
/// start is one less, and in another a byte of the root of reverse mappings is wrong. All is durable then.
#[tactic(auto, using(quiet_repair::proofs::EndLemmas::room_on))]
pub(crate) fn damage<D: Device>(dev: &mut D, number: u32) -> Result<(), DeviceFailed>
    requires room { IMAGE_BLOCKS ≤ D.blocks dev.old Region.Image }
    ensures sizes { D.blocks dev.new ≡ D.blocks dev.old }
    ensures cause { HasCause any_error (D.faults dev.old) (D.faults dev.new) result }
{
    let first = number % GROUPS;
    let second = (first + 1) % GROUPS;
    change_block(dev, block_at(first, BNO_ROOT), true)?;
    change_block(dev, block_at(second, RMAP_ROOT), false)?;
    dev.sync(Region::Image)?;
    dev.sync(Region::Redo)
}
