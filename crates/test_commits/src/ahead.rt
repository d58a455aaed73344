// Blocks of an image file that another thread reads ahead.
use super::same::same;
use blk_device::{Device, FileDevice, ReaderQueue, Region, reader_queue};
use byte_fields::Block;
use std::alloc::Global;
use std::fs::{File, Files};
use std::io::{Seek, SeekFrom, Write};
use std::process::Abort;
use std::rt::Clock;
use std::thread::{JoinHandle, Threads};
use std::time::Duration;
use std::{fs, thread};

// How often a block is asked for until the other thread has read it, and the time between.
const TRIES: u32 = 20_000;

const PAUSE_MICROS: u64 = 500;

// How many blocks a file has.
const BLOCKS: u8 = 16;

// A new file whose blocks have their number and one in each byte: a handle that can only write it, so
// that no read by it is answered, and one that can only read it.
fn numbered_file<R: Files + Abort>(rt: &R, name: &str) -> (R::File, R::File) {
    let mut writer = match File::create(rt, name) {
        Ok(file) => file,
        Err(_) => panic!(rt; "no new file {name}"),
    };
    for number in 0..BLOCKS {
        let is_filled = writer.write_all(&[number.saturating_add(1); 4096]).is_ok();
        assert!(rt; is_filled);
    }
    match fs::open(rt, name) {
        Ok(reader) => (writer, reader),
        Err(_) => panic!(rt; "no second handle of {name}"),
    }
}

// Removes the file, and says whether it was there.
fn is_removed<R: Files>(files: &R, name: &str) -> bool {
    fs::remove_file(files, name).is_ok()
}

// What the block reads as, where it begins and ends with the same byte.
fn number_at<D: Device>(device: &mut D, at: u64) -> Option<u8> {
    let mut block = Block::zeroed();
    if at < device.size(Region::Image)
        && device.read(Region::Image, at, &mut block).is_ok()
        && block.bytes[0] == block.bytes[4095]
    {
        return Some(block.bytes[0]);
    }
    None
}

// The same, asked for until it can be read.
fn number_soon<C: Clock, D: Device>(clock: &C, device: &mut D, at: u64) -> Option<u8> {
    for _ in 0..TRIES {
        let number = number_at(device, at);
        if number.is_some() {
            return number;
        }
        thread::sleep(clock, Duration::from_micros(PAUSE_MICROS));
    }
    None
}

fn is_written<D: Device>(device: &mut D, at: u64) -> bool {
    at < device.size(Region::Image) && device.write(Region::Image, at, &Block::zeroed()).is_ok()
}

// Blocks of a run of eleven from block 2 on, in their order with gaps, and what each reads as.
const ROWS: [(u64, u8); 6] = [(2, 3), (3, 4), (9, 10), (10, 11), (11, 12), (12, 13)];

// A device over one handle, for which another thread reads by the other.
fn device_with_thread<R: Abort + Threads, C: Clock + Send + Drop + 'static>(
    rt: &R,
    clock: C,
    alloc: Global,
    own: File,
    other: File,
    blocks: u64,
) -> (FileDevice<File>, ReaderQueue<File>, JoinHandle<()>) {
    let (mut queue, readers) = reader_queue(alloc).expect(rt, "memory is there");
    let thread = thread::spawn(rt, move || readers.serve(&clock)).expect(rt, "the thread starts");
    let ahead = queue.begin(alloc, other);
    assert!(rt; ahead.is_some());
    let device = FileDevice::new(alloc, own, None, blocks, 162).with_ahead(ahead);
    (device, queue, thread)
}

// Asserts what the device takes of what the other thread read, and what it doesn't.
fn expect_what_is_told<R: Abort + Clock, D: Device>(rt: &R, device: &mut D) {
    device.will_read(Region::Image, 2, 11);
    for (at, number) in ROWS {
        let found = number_soon(rt, device, at);
        assert_eq!(rt; found, Some(number), "block {at}");
    }
    // Neither a block that wasn't told nor one that was used up.
    same(rt, number_at(device, 13), None);
    same(rt, number_at(device, 2), None);
    // Of a run past the file's end what stands in the file, and nothing behind it.
    device.will_read(Region::Image, 13, 7);
    same(rt, number_soon(rt, device, 13), Some(14));
    same(rt, number_at(device, 15), Some(16));
    same(rt, number_at(device, 16), None);
    same(rt, number_at(device, 19), None);
}

// Asserts that nothing more is taken once the image is written.
fn expect_none_behind_a_write<R: Abort + Clock, D: Device>(rt: &R, device: &mut D) {
    device.will_read(Region::Image, 0, 2);
    same(rt, number_soon(rt, device, 0), Some(1));
    assert!(rt; is_written(device, 15));
    same(rt, number_at(device, 1), None);
}

#[test]
fn what_another_thread_read_is_taken_until_the_image_is_written(rt: HostRuntime) {
    let (writer, reader) = numbered_file(&rt, "told.image");
    let (mut device, queue, thread) = device_with_thread(&rt, rt, rt.alloc(), writer, reader, 20);
    expect_what_is_told(&rt, &mut device);
    expect_none_behind_a_write(&rt, &mut device);
    drop(device);
    drop(queue);
    thread.join(&rt);
    assert!(rt; is_removed(&rt, "told.image"));
}

// Asserts that the device itself reads each block.
fn expect_own_reads<R: Abort + Clock, D: Device>(rt: &R, device: &mut D) {
    device.will_read(Region::Image, 0, 16);
    for at in 0..BLOCKS {
        thread::sleep(rt, Duration::from_micros(PAUSE_MICROS));
        let number = number_at(device, u64::from(at));
        assert_eq!(rt; number, Some(at.saturating_add(1)), "block {at}");
    }
    same(rt, device.fault_count(), 0);
}

#[test]
fn what_another_thread_cannot_read_the_device_reads(rt: HostRuntime) {
    let (writer, mut reader) = numbered_file(&rt, "untold.image");
    // The device is handed a file that stands elsewhere than at its begin.
    let is_moved = reader.seek(SeekFrom::End(0)).is_ok();
    assert!(rt; is_moved);
    let (mut device, queue, thread) = device_with_thread(&rt, rt, rt.alloc(), reader, writer, 16);
    expect_own_reads(&rt, &mut device);
    drop(device);
    drop(queue);
    thread.join(&rt);
    assert!(rt; is_removed(&rt, "untold.image"));
}
