use super::files::{empty_file, is_removed};
use super::same::same;
use blk_device::{
    Device, FileDevice, FuseDevice, MemDevice, MemSource, Region, Source, SourceFailed, Unsynced,
};
use byte_fields::Block;
use std::alloc::{Alloc, AllocError, Global};
use std::fs;
use std::fs::{Files, OpenFile};
use std::process::Abort;

fn block_of(byte: u8) -> Block {
    let mut block = Block::zeroed();
    block.bytes[0] = byte;
    block.bytes[4095] = byte;
    block
}

// What reads there begin and end with.
fn ends_at<D: Device>(device: &mut D, region: Region, at: u64) -> Option<(u8, u8)> {
    let mut block = block_of(255);
    if at < device.size(region) && device.read(region, at, &mut block).is_ok() {
        return Some((block.bytes[0], block.bytes[4095]));
    }
    None
}

fn write_at<D: Device>(device: &mut D, region: Region, at: u64, byte: u8) -> bool {
    at < device.size(region) && device.write(region, at, &block_of(byte)).is_ok()
}

fn sync_of<D: Device>(device: &mut D, region: Region) -> bool {
    device.sync(region).is_ok()
}

#[test]
fn a_new_device_reads_as_zeros(rt: HostRuntime) {
    let alloc = rt.alloc();
    let mut device = MemDevice::new(alloc, 5, 3, Vec::new(alloc));
    let sizes = [device.size(Region::Image), device.size(Region::Redo)];
    let image = ends_at(&mut device, Region::Image, 4);
    let redo = ends_at(&mut device, Region::Redo, 2);
    same(&rt, sizes, [5, 3]);
    same(&rt, [image, redo], [Some((0, 0)), Some((0, 0))]);
}

fn written(alloc: Global) -> MemDevice {
    let mut device = MemDevice::new(alloc, 5, 3, Vec::new(alloc));
    write_at(&mut device, Region::Image, 2, 7);
    write_at(&mut device, Region::Redo, 1, 8);
    sync_of(&mut device, Region::Image);
    device
}

#[test]
fn reads_of_an_image_block_are_counted(rt: HostRuntime) {
    let mut device = written(rt.alloc());
    let once = ends_at(&mut device, Region::Image, 2);
    let twice = ends_at(&mut device, Region::Image, 2);
    let redo = ends_at(&mut device, Region::Redo, 1);
    let blank = ends_at(&mut device, Region::Image, 1);
    same(
        &rt,
        [once, twice, redo, blank],
        [Some((7, 7)), Some((7, 7)), Some((8, 8)), Some((0, 0))],
    );
    same(&rt, [device.reads_at(2), device.reads_at(1)], [2, 0]);
}

#[test]
fn a_written_image_is_handed_to_a_second_device(rt: HostRuntime) {
    let alloc = rt.alloc();
    let blocks = written(alloc).into_image();
    let made = MemDevice::with_image(alloc, 6, 2, blocks, Vec::new(alloc));
    let mut second = made.expect(&rt, "memory is there");
    let image = ends_at(&mut second, Region::Image, 2);
    let redo = ends_at(&mut second, Region::Redo, 1);
    same(&rt, [image, redo], [Some((7, 7)), Some((0, 0))]);
    same(&rt, second.reads_at(2), 1);
}

#[test]
fn only_the_chosen_calls_fail(rt: HostRuntime) {
    let alloc = rt.alloc();
    let failing = [1u64, 3, 4].to_vec(alloc).expect(&rt, "memory is there");
    let mut device = MemDevice::new(alloc, 2, 2, failing);
    let first = write_at(&mut device, Region::Image, 0, 1);
    let second = write_at(&mut device, Region::Image, 0, 2);
    let third = ends_at(&mut device, Region::Image, 0);
    let fourth = ends_at(&mut device, Region::Image, 0);
    let fifth = sync_of(&mut device, Region::Image);
    let sixth = sync_of(&mut device, Region::Image);
    same(
        &rt,
        [first, second, fifth, sixth],
        [true, false, false, true],
    );
    same(&rt, [third, fourth], [Some((1, 1)), None]);
}

// The first two calls pass, and the three behind them fail.
fn expect_two_calls<D: Device>(rt: &impl Abort, fuse: &mut D) {
    let first = write_at(fuse, Region::Image, 0, 1);
    let second = sync_of(fuse, Region::Image);
    let third = write_at(fuse, Region::Image, 0, 2);
    let fourth = ends_at(fuse, Region::Image, 0);
    let fifth = sync_of(fuse, Region::Image);
    same(
        rt,
        [first, second, third, fifth],
        [true, true, false, false],
    );
    same(rt, fourth, None);
    same(rt, fuse.fault_count(), 3);
}

#[test]
fn a_fuse_passes_two_calls_and_fails_the_rest(rt: HostRuntime) {
    let alloc = rt.alloc();
    let mut fuse = FuseDevice::new(MemDevice::new(alloc, 2, 2, Vec::new(alloc)), 2);
    expect_two_calls(&rt, &mut fuse);
    let mut device = fuse.into_inner();
    same(&rt, ends_at(&mut device, Region::Image, 0), Some((1, 1)));
    assert!(rt; !device.has_lost_doubt());
    let mut left = device
        .crash_by(alloc, &[Unsynced::Present])
        .expect(&rt, "memory is there");
    same(&rt, ends_at(&mut left, Region::Image, 0), Some((2, 2)));
}

// A device with a write that was synced, one that wasn't, and one that failed.
fn in_doubt(alloc: Global) -> Result<MemDevice, AllocError> {
    let mut device = MemDevice::new(alloc, 2, 2, [3u64].to_vec(alloc)?);
    write_at(&mut device, Region::Image, 0, 1);
    sync_of(&mut device, Region::Image);
    write_at(&mut device, Region::Image, 1, 2);
    write_at(&mut device, Region::Redo, 1, 3);
    Ok(device)
}

fn three_of(left: &mut MemDevice) -> [Option<(u8, u8)>; 3] {
    [
        ends_at(left, Region::Image, 0),
        ends_at(left, Region::Image, 1),
        ends_at(left, Region::Redo, 1),
    ]
}

// What a crash leaves of the three by these choices.
fn left_by(rt: &impl Abort, alloc: Global, choices: &[Unsynced]) -> [Option<(u8, u8)>; 3] {
    let device = in_doubt(alloc).expect(rt, "memory is there");
    let mut left = device
        .crash_by(alloc, choices)
        .expect(rt, "memory is there");
    three_of(&mut left)
}

// What a crash leaves of the three where these writes in doubt stand.
fn kept_by(rt: &impl Abort, alloc: Global, keep: u64) -> [Option<(u8, u8)>; 3] {
    let device = in_doubt(alloc).expect(rt, "memory is there");
    let mut left = device.crash(alloc, keep).expect(rt, "memory is there");
    three_of(&mut left)
}

#[test]
fn a_crash_keeps_the_writes_whose_bits_are_set(rt: HostRuntime) {
    let alloc = rt.alloc();
    same(
        &rt,
        kept_by(&rt, alloc, 0),
        [Some((1, 1)), Some((0, 0)), Some((0, 0))],
    );
    same(
        &rt,
        kept_by(&rt, alloc, 1),
        [Some((1, 1)), Some((2, 2)), Some((0, 0))],
    );
    same(
        &rt,
        kept_by(&rt, alloc, 2),
        [Some((1, 1)), Some((0, 0)), Some((3, 3))],
    );
    same(
        &rt,
        kept_by(&rt, alloc, 7),
        [Some((1, 1)), Some((2, 2)), Some((3, 3))],
    );
}

#[test]
fn a_source_gives_its_bytes_in_order(rt: HostRuntime) {
    let alloc = rt.alloc();
    let bytes = b"abcde".to_vec(alloc).expect(&rt, "memory is there");
    let failing = [1u64].to_vec(alloc).expect(&rt, "memory is there");
    let mut source = MemSource::new(bytes, failing);
    let mut into = [0; 3];
    same(&rt, source.take(&mut into), Ok(3));
    same(&rt, into, *b"abc");
    same(&rt, source.take(&mut into), Err(SourceFailed));
    same(&rt, source.take(&mut into), Ok(2));
    same(&rt, into, *b"dec");
    same(&rt, source.take(&mut into), Ok(0));
    same(&rt, source.fault_count(), 1);
}

#[test]
fn a_crash_leaves_unsynced_writes_absent_present_or_torn(rt: HostRuntime) {
    let alloc = rt.alloc();
    let absent = left_by(&rt, alloc, &[Unsynced::Absent]);
    let present = left_by(&rt, alloc, &[Unsynced::Present]);
    let torn = left_by(&rt, alloc, &[Unsynced::Torn]);
    let mixed = left_by(&rt, alloc, &[Unsynced::Present, Unsynced::Torn]);
    same(&rt, absent, [Some((1, 1)), Some((0, 0)), Some((0, 0))]);
    same(&rt, present, [Some((1, 1)), Some((2, 2)), Some((3, 3))]);
    same(&rt, torn, [Some((1, 1)), Some((2, 0)), Some((3, 0))]);
    same(&rt, mixed, [Some((1, 1)), Some((2, 2)), Some((3, 0))]);
}

fn fresh_file<R: Files + Abort>(rt: &R, name: &str, blocks: u64) -> R::File {
    let file = empty_file(rt, name);
    let is_sized = file.set_len(blocks.saturating_mul(4096)).is_ok();
    assert!(rt; is_sized, "{name}");
    file
}

// The byte of the file there.
fn byte_in<R: Alloc + Files>(files: &R, name: &str, at: usize) -> Option<u8> {
    fs::read(files, name).ok()?.get(at).copied()
}

// Asserts what is read of both regions once they were written.
fn expect_both_regions<D: Device>(rt: &impl Abort, device: &mut D) {
    let image_done = write_at(device, Region::Image, 2, 9) && sync_of(device, Region::Image);
    let redo_done = write_at(device, Region::Redo, 0, 6) && sync_of(device, Region::Redo);
    let last = ends_at(device, Region::Image, 2);
    let beyond = ends_at(device, Region::Image, 3);
    let first = ends_at(device, Region::Redo, 0);
    assert!(rt; image_done && redo_done);
    same(
        rt,
        [last, beyond, first],
        [Some((9, 9)), None, Some((6, 6))],
    );
}

#[test]
fn files_keep_what_was_written(rt: HostRuntime) {
    let image = fresh_file(&rt, "blocks.image", 3);
    let redo = fresh_file(&rt, "blocks.redo", 2);
    let mut device = FileDevice::new(rt.alloc(), image, Some(redo), 4, 2);
    expect_both_regions(&rt, &mut device);
    let found = [
        byte_in(&rt, "blocks.image", 8191),
        byte_in(&rt, "blocks.image", 8192),
        byte_in(&rt, "blocks.redo", 0),
        byte_in(&rt, "blocks.redo", 4095),
    ];
    same(&rt, found, [Some(0), Some(9), Some(6), Some(6)]);
    assert!(rt; is_removed(&rt, "blocks.image"));
    assert!(rt; is_removed(&rt, "blocks.redo"));
}

// Asserts what is read between writes, in any order.
fn expect_any_order<D: Device>(rt: &impl Abort, device: &mut D) {
    let done = write_at(device, Region::Image, 0, 1)
        && write_at(device, Region::Image, 1, 2)
        && write_at(device, Region::Image, 3, 4);
    let first = ends_at(device, Region::Image, 0);
    let is_changed = write_at(device, Region::Image, 1, 7);
    let third = ends_at(device, Region::Image, 2);
    let fourth = ends_at(device, Region::Image, 3);
    let beyond = ends_at(device, Region::Image, 4);
    let again = ends_at(device, Region::Image, 3);
    let second = ends_at(device, Region::Image, 1);
    let twice = ends_at(device, Region::Image, 1);
    assert!(rt; done && is_changed);
    same(
        rt,
        [first, third, fourth],
        [Some((1, 1)), Some((0, 0)), Some((4, 4))],
    );
    same(rt, [beyond, again], [None, Some((4, 4))]);
    same(rt, [second, twice], [Some((7, 7)), Some((7, 7))]);
}

#[test]
fn a_file_is_read_and_written_in_any_order(rt: HostRuntime) {
    let image = fresh_file(&rt, "order.image", 4);
    let mut device = FileDevice::new(rt.alloc(), image, None, 5, 162);
    expect_any_order(&rt, &mut device);
    assert!(rt; is_removed(&rt, "order.image"));
}

// Asserts what the last redo block is before and after it is written.
fn expect_last_redo_block<D: Device>(rt: &impl Abort, device: &mut D) {
    let before = ends_at(device, Region::Redo, 161);
    let done = write_at(device, Region::Redo, 161, 5) && sync_of(device, Region::Redo);
    let after = ends_at(device, Region::Redo, 161);
    assert!(rt; done);
    same(rt, [before, after], [Some((0, 0)), Some((5, 5))]);
}

#[test]
fn without_a_redo_file_the_region_is_zeros_in_memory(rt: HostRuntime) {
    let image = fresh_file(&rt, "alone.image", 1);
    let mut device = FileDevice::new(rt.alloc(), image, None, 1, 162);
    expect_last_redo_block(&rt, &mut device);
    assert!(rt; is_removed(&rt, "alone.image"));
}
