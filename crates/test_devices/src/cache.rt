ghost use Rattle.std.specs.Prelude.{◌≡◌};
ghost use Rattle.blk_cache.specs.Cache.{AgreesTold};

use super::same::same;
use blk_cache::{BlkCache, Memory};
use blk_device::{Device, MemDevice, Region};
use byte_fields::Block;
use std::alloc::Global;

fn block_of(byte: u8) -> Block {
    let mut block = Block::zeroed();
    block.bytes[0] = byte;
    block.bytes[4095] = byte;
    block
}

// What the block ends with, through the cache.
fn byte_at(cache: &mut BlkCache, device: &mut MemDevice, at: u64) -> Option<u8>
    requires { AgreesTold cache.old (⟦<MemDevice as Device>⟧.content device.old) }
    ensures { AgreesTold cache.new (⟦<MemDevice as Device>⟧.content device.new) }
{
    let mut block = block_of(255);
    if at >= device.size(Region::Image) {
        return None;
    }
    match cache.get(device, at, &mut block) {
        Ok(()) => Some(block.bytes[4095]),
        Err(_) => None,
    }
}

// Writes a block, and notes it where that was done.
fn write_byte(cache: &mut BlkCache, device: &mut MemDevice, at: u64, byte: u8) -> bool
    requires { AgreesTold cache.old (⟦<MemDevice as Device>⟧.content device.old) }
    ensures { AgreesTold cache.new (⟦<MemDevice as Device>⟧.content device.new) }
{
    let block = block_of(byte);
    if at >= device.size(Region::Image) {
        return false;
    }
    if device.write(Region::Image, at, &block).is_err() {
        return false;
    }
    cache.note_written(at, &block);
    true
}

// A device of three blocks that hold 10, 11 and 12.
fn three_blocks(alloc: Global) -> MemDevice {
    let mut device = MemDevice::new(alloc, 3, 1, Vec::new(alloc));
    for at in 0..3u8 {
        if u64::from(at) < device.size(Region::Image) {
            let _ = device.write(Region::Image, u64::from(at), &block_of(10 + at));
        }
    }
    device
}

// How often each of three blocks is read from the device in a run of gets.
fn reads_in(alloc: Global, capacity: usize, gets: &[u64]) -> Result<[u64; 3], Memory> {
    let mut device = three_blocks(alloc);
    let mut cache = BlkCache::new(alloc, capacity)?;
    for at in gets {
        let _ = byte_at(&mut cache, &mut device, *at);
    }
    Ok([device.reads_at(0), device.reads_at(1), device.reads_at(2)])
}

#[test]
fn the_block_used_longest_ago_gives_way(rt: HostRuntime) {
    let gets = [0, 0, 1, 0, 2, 0, 1, 1];
    let table = [
        (0, [4, 3, 1]),
        (1, [3, 2, 1]),
        (2, [1, 2, 1]),
        (3, [1, 1, 1]),
    ];
    for (capacity, reads) in table {
        let found = reads_in(rt.alloc(), capacity, &gets).expect(&rt, "memory is there");
        assert_eq!(rt; found, reads, "at a capacity of {capacity}");
    }
}

#[test]
fn the_newest_written_block_wins(rt: HostRuntime) {
    let alloc = rt.alloc();
    let mut device = three_blocks(alloc);
    let mut cache = BlkCache::new(alloc, 1).expect(&rt, "memory is there");
    let read = byte_at(&mut cache, &mut device, 1);
    let written = write_byte(&mut cache, &mut device, 1, 20);
    let noted = byte_at(&mut cache, &mut device, 1);
    assert!(rt; written);
    same(&rt, [read, noted], [Some(11), Some(20)]);
    same(&rt, device.reads_at(1), 1);
}

#[test]
fn another_block_that_was_written_takes_the_one_place(rt: HostRuntime) {
    let alloc = rt.alloc();
    let mut device = three_blocks(alloc);
    let mut cache = BlkCache::new(alloc, 1).expect(&rt, "memory is there");
    let before = byte_at(&mut cache, &mut device, 0);
    let written = write_byte(&mut cache, &mut device, 2, 22);
    let other = byte_at(&mut cache, &mut device, 2);
    let after = byte_at(&mut cache, &mut device, 0);
    assert!(rt; written);
    same(&rt, [before, other, after], [Some(10), Some(22), Some(10)]);
    same(&rt, [device.reads_at(0), device.reads_at(2)], [2, 0]);
}

#[test]
fn a_read_that_fails_is_told_and_tried_again(rt: HostRuntime) {
    let alloc = rt.alloc();
    let failing = [0u64, 2].to_vec(alloc).expect(&rt, "memory is there");
    let mut device = MemDevice::new(alloc, 3, 1, failing);
    let mut cache = BlkCache::new(alloc, 2).expect(&rt, "memory is there");
    let first = byte_at(&mut cache, &mut device, 1);
    let second = byte_at(&mut cache, &mut device, 1);
    let kept = byte_at(&mut cache, &mut device, 1);
    let third = byte_at(&mut cache, &mut device, 2);
    same(
        &rt,
        [first, second, kept, third],
        [None, Some(0), Some(0), None],
    );
    same(&rt, device.fault_count(), 2);
}

fn sent<T: Send>(value: T) -> T
    ensures { result ≡ value }
{
    value
}

#[test]
fn a_cache_can_be_sent_to_another_thread(rt: HostRuntime) {
    let alloc = rt.alloc();
    let mut device = three_blocks(alloc);
    let mut cache = sent(BlkCache::new(alloc, 1).expect(&rt, "memory is there"));
    same(&rt, byte_at(&mut cache, &mut device, 2), Some(12));
}
