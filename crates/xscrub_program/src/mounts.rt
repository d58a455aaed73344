//! Whether a block device is mounted, by the list of mounts that the kernel keeps.

use std::fs;

const MOUNTS: &str = "/proc/self/mountinfo";

// A device's two numbers.
#[derive(Clone, Copy, PartialEq, Eq)]
struct Device {
    major: u64,
    minor: u64,
}

// The two numbers in the one by which a file's status names a device.
fn device_of(number: u64) -> Device {
    Device {
        major: (number >> 8) & 0xfff | (number >> 32) & 0xffff_f000,
        minor: number & 0xff | (number >> 12) & 0xffff_ff00,
    }
}

// Where a reader of the list is: a line's third word has the device, as in `8:17`.
#[derive(Clone, Copy)]
struct Reader {
    wanted: Device,
    word: u32,
    read: Device,
    is_minor: bool,
    is_found: bool,
}

fn reader_for(wanted: Device) -> Reader {
    Reader {
        wanted,
        word: 0,
        read: Device { major: 0, minor: 0 },
        is_minor: false,
        is_found: false,
    }
}

// A number with one digit more.
fn with_digit(number: u64, digit: u8) -> u64 {
    number
        .saturating_mul(10)
        .saturating_add(u64::from(digit.wrapping_sub(b'0')))
}

// The device's numbers with one digit more.
fn with_number(reader: Reader, digit: u8) -> Device {
    let read = reader.read;
    if reader.is_minor {
        return Device {
            major: read.major,
            minor: with_digit(read.minor, digit),
        };
    }
    Device {
        major: with_digit(read.major, digit),
        minor: read.minor,
    }
}

// At the end of a word the third one is compared.
fn after_word(reader: Reader) -> Reader {
    let is_same = reader.word == 2 && reader.read == reader.wanted;
    Reader {
        word: reader.word.saturating_add(1),
        is_found: reader.is_found || is_same,
        ..reader
    }
}

fn after_byte(reader: Reader, byte: u8) -> Reader {
    match byte {
        b'\n' => Reader {
            is_found: reader.is_found,
            ..reader_for(reader.wanted)
        },
        b' ' => after_word(reader),
        b':' if reader.word == 2 => Reader {
            is_minor: true,
            ..reader
        },
        b'0'..=b'9' if reader.word == 2 => Reader {
            read: with_number(reader, byte),
            ..reader
        },
        _ => reader,
    }
}

/// Whether the device of this number is mounted. Where the list can't be read, none is.
pub fn is_mounted(rt: &HostRuntime, number: u64) -> bool {
    let Ok(text) = fs::read_to_string(rt, MOUNTS) else {
        return false;
    };
    let begin = reader_for(device_of(number));
    let bytes = text.as_bytes().iter();
    bytes
        .fold(begin, |reader, byte| after_byte(reader, *byte))
        .is_found
}
