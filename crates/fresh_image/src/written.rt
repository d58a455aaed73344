ghost use Rattle.std.specs.Prelude.{◌≡◌, ◌*◌, ◌^◌, ◌≤◌, OnOk};
ghost use Rattle.blk_device.specs.Causes.{HasCause, any_error};
ghost use Rattle.blk_device.specs.Contents.{Becomes, map_told};
ghost use Rattle.blk_device.specs.Crash.{IsDurable};
ghost use Rattle.blk_device.specs.Reading.{Keeps};
ghost use Rattle.blk_device.specs.declared.device.Region.TheVariants.{Image};
ghost use Rattle.fresh_image.specs.Written.{put_fresh, AllButFresh, OthersStay, BecomesFresh};

use crate::image::fresh_block;
use blk_device::{Device, DeviceFailed, Region};

// How many blocks these groups have.
fn blocks_of(n: u32, len: u32) -> u64
    ensures { result ≡ n * len }
{
    u64::from(n) * u64::from(len)
}

// Writes the blocks of a new image, one after the other.
fn write_blocks<D: Device>(dev: &mut D, n: u32, len: u32) -> Result<(), DeviceFailed>
    requires groups { n ≤ 65536 }
    requires long { (64 ≤ len) × (len ≤ 2 ^ 28) }
    requires room { n * len ≤ D.blocks dev.old Image }
    ensures written { OnOk result (D.content dev.new ≡ map_told (put_fresh n len (n * len)) (D.content dev.old)) }
    ensures others { Becomes (D.content dev.old) (D.content dev.new) (OthersStay n len) }
    ensures moments { Keeps D.Device (AllButFresh n len) dev.old dev.new }
    ensures sizes { D.blocks dev.new ≡ D.blocks dev.old }
    ensures cause { HasCause any_error (D.faults dev.old) (D.faults dev.new) result }
    ensures reads { D.reads dev.new ≡ D.reads dev.old }
{
    let count = blocks_of(n, len);
    for at in 0..count {
        let block = fresh_block(n, len, at);
        dev.write(Region::Image, at, &block)?;
    }
    Ok(())
}

/// Writes a new image of `n` groups of `len` blocks from block 0 of a device's image on, and makes it
/// durable; the blocks behind it and the redo region stay. Where the device fails, the image's blocks
/// may have any bytes, and a crash leaves all others as they were
/// (XFS Algorithms and Data Structures, "Allocation Groups").
pub fn write_fresh<D: Device>(dev: &mut D, n: u32, len: u32) -> Result<(), DeviceFailed>
    requires groups { n ≤ 65536 }
    requires long { (64 ≤ len) × (len ≤ 2 ^ 28) }
    requires room { n * len ≤ D.blocks dev.old Image }
    ensures written { OnOk result (Becomes (D.content dev.old) (D.content dev.new) (BecomesFresh n len)) }
    ensures durable { OnOk result (IsDurable Image (D.content dev.new) (D.may_hold_now dev.new)) }
    ensures others { Becomes (D.content dev.old) (D.content dev.new) (OthersStay n len) }
    ensures moments { Keeps D.Device (AllButFresh n len) dev.old dev.new }
    ensures sizes { D.blocks dev.new ≡ D.blocks dev.old }
    ensures cause { HasCause any_error (D.faults dev.old) (D.faults dev.new) result }
    ensures reads { D.reads dev.new ≡ D.reads dev.old }
{
    write_blocks(dev, n, len)?;
    dev.sync(Region::Image)
}
