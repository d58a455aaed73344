// Blocks of an image file in their order, which a device reads several at once.
use super::files::{empty_file, is_removed};
use super::same::same;
use blk_device::{Device, FileDevice, Region};
use byte_fields::Block;
use std::cell::Cell;
use std::fs::{Files, Metadata, OpenFile};
use std::io;
use std::io::{ErrorKind, Read, Seek, SeekFrom, Write};
use std::process::Abort;

// A file of which no read that touches one of its blocks is answered. Its reads are counted.
#[derive(Drop)]
struct BadBlock<'a, F: Drop> {
    file: F,
    place: u64,
    bad: u64,
    asked: &'a Cell<u64>,
}

// How far a file has come with as many bytes more.
fn moved(place: u64, bytes: usize) -> u64 {
    place.saturating_add(bytes as u64)
}

impl<F: Read + Drop> Read for BadBlock<'_, F> {
    fn read(&mut self, buf: &mut [u8]) -> io::Result<usize> {
        self.asked.set(self.asked.get().saturating_add(1));
        let begin = self.bad.saturating_mul(4096);
        if moved(self.place, buf.len()) > begin && self.place < moved(begin, 4096) {
            return Err(io::Error::from(ErrorKind::Other));
        }
        let count = self.file.read(buf)?;
        self.place = moved(self.place, count);
        Ok(count)
    }
}

impl<F: Write + Drop> Write for BadBlock<'_, F> {
    fn write(&mut self, buf: &[u8]) -> io::Result<usize> {
        let count = self.file.write(buf)?;
        self.place = moved(self.place, count);
        Ok(count)
    }

    fn flush(&mut self) -> io::Result<()> {
        self.file.flush()
    }
}

impl<F: Seek + Drop> Seek for BadBlock<'_, F> {
    fn seek(&mut self, to: SeekFrom) -> io::Result<u64> {
        let place = self.file.seek(to)?;
        self.place = place;
        Ok(place)
    }
}

impl<F: OpenFile + Drop> OpenFile for BadBlock<'_, F> {
    fn metadata(&self) -> io::Result<Metadata> {
        self.file.metadata()
    }

    fn set_len(&self, size: u64) -> io::Result<()> {
        self.file.set_len(size)
    }

    fn sync_all(&self) -> io::Result<()> {
        self.file.sync_all()
    }

    fn sync_data(&self) -> io::Result<()> {
        self.file.sync_data()
    }
}

// An empty file with one block that can't be read; a block behind its end leaves all to be read.
fn bad_file<'a, R: Files + Abort>(
    rt: &R,
    name: &str,
    bad: u64,
    asked: &'a Cell<u64>,
) -> BadBlock<'a, R::File> {
    BadBlock {
        file: empty_file(rt, name),
        place: 0,
        bad,
        asked,
    }
}

// Writes the block and the three behind it, whose bytes are the number and its followers.
fn write_four<D: Device>(device: &mut D, at: u64, number: u8) -> bool {
    let mut is_written = true;
    for step in 0..4u8 {
        let mut block = Block::zeroed();
        block.bytes[0] = number.saturating_add(step);
        block.bytes[4095] = number.saturating_add(step);
        let place = at.saturating_add(u64::from(step));
        is_written = is_written
            && place < device.size(Region::Image)
            && device.write(Region::Image, place, &block).is_ok();
    }
    is_written
}

// What the block reads as, where it begins and ends with the same byte.
fn number_at<D: Device>(device: &mut D, at: u64) -> Option<u8> {
    let mut block = Block::zeroed();
    if at < device.size(Region::Image)
        && device.read(Region::Image, at, &mut block).is_ok()
        && block.bytes[0] == block.bytes[4095]
    {
        return Some(block.bytes[0]);
    }
    None
}

fn four_at<D: Device>(device: &mut D, at: u64) -> [Option<u8>; 4] {
    [
        number_at(device, at),
        number_at(device, at.saturating_add(1)),
        number_at(device, at.saturating_add(2)),
        number_at(device, at.saturating_add(3)),
    ]
}

// What four blocks read as that were written with this number and its followers.
fn four_from(number: u8) -> [Option<u8>; 4] {
    [
        Some(number),
        Some(number.saturating_add(1)),
        Some(number.saturating_add(2)),
        Some(number.saturating_add(3)),
    ]
}

// Asserts what is read in order, and by how many calls.
fn expect_in_order<D: Device>(rt: &impl Abort, device: &mut D, asked: &Cell<u64>) {
    same(rt, four_at(device, 0), four_from(1));
    same(rt, four_at(device, 4), four_from(5));
    same(rt, asked.get(), 1);
    same(rt, four_at(device, 8), four_from(9));
    same(rt, asked.get(), 2);
    same(rt, number_at(device, 11), Some(12));
    same(rt, number_at(device, 1), Some(2));
    same(rt, asked.get(), 3);
}

#[test]
fn blocks_in_order_are_read_eight_at_once(rt: HostRuntime) {
    let asked = Cell::new(0);
    let image = bad_file(&rt, "ahead.image", 99, &asked);
    let mut device = FileDevice::new(rt.alloc(), image, None, 12, 162);
    let done = write_four(&mut device, 0, 1)
        && write_four(&mut device, 4, 5)
        && write_four(&mut device, 8, 9);
    assert!(rt; done);
    expect_in_order(&rt, &mut device, &asked);
    assert!(rt; is_removed(&rt, "ahead.image"));
}

// Blocks, and how often the system was called to read once each was asked for: block 8 is read alone,
// since of the eight before it the first one only was asked for; block 0 again with those behind it,
// since blocks 9 to 15 were all asked for.
const CALLS: [(u64, u64); 11] = [
    (0, 1),
    (8, 2),
    (9, 3),
    (10, 3),
    (11, 3),
    (12, 3),
    (13, 3),
    (14, 3),
    (15, 3),
    (0, 4),
    (1, 4),
];

// Asserts how often the system was called to read.
fn expect_calls<D: Device>(rt: &impl Abort, device: &mut D, asked: &Cell<u64>) {
    for (at, calls) in CALLS {
        let number = number_at(device, at);
        assert!(rt; number.is_some() && asked.get() == calls, "block {at}");
    }
}

#[test]
fn blocks_behind_one_are_read_with_it_while_they_are_asked_for(rt: HostRuntime) {
    let asked = Cell::new(0);
    let image = bad_file(&rt, "vain.image", 99, &asked);
    let mut device = FileDevice::new(rt.alloc(), image, None, 16, 162);
    let done = write_four(&mut device, 0, 1) && write_four(&mut device, 12, 13);
    assert!(rt; done);
    expect_calls(&rt, &mut device, &asked);
    assert!(rt; is_removed(&rt, "vain.image"));
}

// Asserts what is read of blocks that are written once they were read ahead.
fn expect_read_anew<D: Device>(rt: &impl Abort, device: &mut D) {
    let done = write_four(device, 0, 1) && write_four(device, 4, 5);
    let first = number_at(device, 0);
    let second = number_at(device, 1);
    let is_changed = write_four(device, 2, 21);
    assert!(rt; done && is_changed);
    same(rt, [first, second], [Some(1), Some(2)]);
    same(rt, four_at(device, 2), four_from(21));
    same(rt, number_at(device, 7), Some(8));
}

#[test]
fn a_block_read_ahead_is_read_anew_once_written(rt: HostRuntime) {
    let asked = Cell::new(0);
    let image = bad_file(&rt, "anew.image", 99, &asked);
    let mut device = FileDevice::new(rt.alloc(), image, None, 8, 162);
    expect_read_anew(&rt, &mut device);
    assert!(rt; is_removed(&rt, "anew.image"));
}

// Asserts what is read of the blocks beside the one that can't be.
fn expect_around_the_bad_one<D: Device>(rt: &impl Abort, device: &mut D) {
    let done = write_four(device, 0, 1) && write_four(device, 4, 5);
    assert!(rt; done);
    same(rt, four_at(device, 0), [Some(1), Some(2), Some(3), None]);
    same(rt, device.fault_count(), 1);
    same(rt, four_at(device, 4), four_from(5));
    same(rt, device.fault_count(), 1);
}

#[test]
fn a_bad_block_fails_at_its_own_read_alone(rt: HostRuntime) {
    let asked = Cell::new(0);
    let image = bad_file(&rt, "bad.image", 3, &asked);
    let mut device = FileDevice::new(rt.alloc(), image, None, 8, 162);
    expect_around_the_bad_one(&rt, &mut device);
    assert!(rt; is_removed(&rt, "bad.image"));
}
