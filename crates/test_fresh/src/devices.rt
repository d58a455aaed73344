// A new image on devices, of which each call fails once.
ghost use Rattle.std.specs.Prelude.{◌≡◌};

use blk_device::{Device, DeviceFailed, MemDevice, Region};
use byte_fields::Block;
use fresh_image::{fresh_block, write_fresh};
use std::alloc::{AllocError, Global};
use std::test::Fail;

// The blocks of the one group.
const LENGTH: u32 = 64;

// A device with two blocks more, of which this call fails.
fn device_of(alloc: Global, failing: u64) -> Result<MemDevice, AllocError> {
    let mut calls = Vec::new(alloc);
    calls.push(failing)?;
    Ok(MemDevice::new(alloc, 66, 1, calls))
}

// What the writer answers; a device that is too short counts as one that fails.
fn write_to(device: &mut MemDevice) -> Result<(), DeviceFailed> {
    if device.size(Region::Image) < u64::from(LENGTH) {
        return Err(DeviceFailed);
    }
    write_fresh(device, 1, LENGTH)
}

// The block as the device reads it.
fn block_at(device: &mut MemDevice, at: u64) -> Result<Block, DeviceFailed> {
    let mut block = Block::zeroed();
    if at >= device.size(Region::Image) {
        return Err(DeviceFailed);
    }
    device.read(Region::Image, at, &mut block)?;
    Ok(block)
}

#[test]
fn each_call_that_fails_ends_it(rt: HostRuntime) -> Result<(), Fail> {
    let alloc = rt.alloc();
    // 64 writes, and a sync.
    for call in 0..65 {
        let mut device = device_of(alloc, call)?;
        assert_eq!(rt; write_to(&mut device), Err(DeviceFailed), "call {call}");
        assert_eq!(rt; device.fault_count(), 1);
        assert_eq!(rt; block_at(&mut device, 64)?, Block::zeroed());
    }
    Ok(())
}

#[test]
fn a_crash_leaves_what_was_written(rt: HostRuntime) -> Result<(), Fail> {
    let alloc = rt.alloc();
    let mut device = device_of(alloc, 65)?;
    assert_eq!(rt; write_to(&mut device), Ok(()));
    let mut left = device.crash(alloc, 0)?;
    for at in 0..u64::from(LENGTH) {
        assert_eq!(rt;
            block_at(&mut left, at)?,
            fresh_block(1, LENGTH, at),
            "block {at}"
        );
    }
    assert_eq!(rt; block_at(&mut left, 64)?, Block::zeroed());
    Ok(())
}
