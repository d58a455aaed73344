// The superblock, of which each group has a copy.
ghost use Rattle.std.specs.Prelude.{◌≡◌, ◌+◌, ◌<◌, ◌≤◌, length};
ghost use Rattle.std.specs.List.{splice};
ghost use Rattle.byteorder.specs.Endian.{big_bytes};
ghost use Rattle.dinode_core.specs.Pieces.{with_pieces};
ghost use Rattle.fresh_image.specs.Fresh.{uuid, group_log as log_of, name_pieces, inode_pieces, size_pieces, form_pieces, with_fields, with_superblock};

use byte_fields::{put_sum, put_u16, put_u32, put_u64, sum_at};

/// The bytes 1 to 16.
pub const UUID: [u8; 16] = [1, 2, 3, 4, 5, 6, 7, 8, 9, 10, 11, 12, 13, 14, 15, 16];

// "XFSB".
const MAGIC: u32 = 0x5846_5342;

// Bytes of the sector that the superblock fills, and the place of its checksum there.
const SECTOR: usize = 512;

const SB_CRC: usize = 224;

// The greatest number of low bits of a file system block number that are the block in its group.
const MOST_LOG: u8 = 28;

fn put_byte(bytes: &mut [u8], at: usize, value: u8)
    requires { at < length bytes.old }
    ensures { bytes.new ≡ splice bytes.old at (at + 1) (big_bytes 1 value) }
{
    bytes[at..at + 1].copy_from_slice(&[value]);
}

fn put_uuid(bytes: &mut [u8], at: usize)
    requires { at + 16 ≤ length bytes.old }
    ensures { bytes.new ≡ splice bytes.old at (at + 16) uuid }
{
    bytes[at..at + 16].copy_from_slice(&UUID);
}

// How many low bits of a file system block number are the block in its group.
#[tactic(auto, unfolding(crate::specs::Fresh::group_log))]
fn group_log(len: u32) -> u8
    ensures { result ≡ log_of len }
{
    for log in 0..MOST_LOG {
        if len <= 1u32 << log {
            return log;
        }
    }
    MOST_LOG
}

#[tactic(auto, unfolding(crate::specs::Fresh::name_pieces))]
fn put_names(bytes: &mut [u8], n: u32, len: u32)
    requires { length bytes.old ≡ 4096 }
    ensures { bytes.new ≡ with_pieces (name_pieces n len) bytes.old }
{
    put_u32(bytes, 0, MAGIC);
    put_u32(bytes, 4, 4096);
    put_u64(bytes, 8, u64::from(n) * u64::from(len));
    put_uuid(bytes, 32);
}

#[tactic(auto, unfolding(crate::specs::Fresh::inode_pieces))]
fn put_inode_numbers(bytes: &mut [u8])
    requires { length bytes.old ≡ 4096 }
    ensures { bytes.new ≡ with_pieces inode_pieces bytes.old }
{
    put_u64(bytes, 56, 192);
    put_u64(bytes, 64, 193);
    put_u64(bytes, 72, 194);
}

#[tactic(auto, unfolding(crate::specs::Fresh::size_pieces))]
fn put_sizes(bytes: &mut [u8], n: u32, len: u32)
    requires { length bytes.old ≡ 4096 }
    ensures { bytes.new ≡ with_pieces (size_pieces n len) bytes.old }
{
    put_u32(bytes, 84, len);
    put_u32(bytes, 88, n);
    put_u16(bytes, 100, 5);
    put_u16(bytes, 102, 512);
    put_u16(bytes, 104, 512);
    put_u16(bytes, 106, 8);
}

#[tactic(auto, unfolding(crate::specs::Fresh::form_pieces))]
fn put_form(bytes: &mut [u8], len: u32)
    requires { length bytes.old ≡ 4096 }
    ensures { bytes.new ≡ with_pieces (form_pieces len) bytes.old }
{
    put_byte(bytes, 120, 12);
    put_byte(bytes, 123, 3);
    put_byte(bytes, 124, group_log(len));
    put_u32(bytes, 180, 8);
    put_u32(bytes, 212, 15);
    put_u32(bytes, 216, 3);
}

#[tactic(auto, unfolding(crate::specs::Fresh::with_fields))]
fn put_fields(bytes: &mut [u8], n: u32, len: u32)
    requires { length bytes.old ≡ 4096 }
    ensures { bytes.new ≡ with_fields n len bytes.old }
{
    put_names(bytes, n, len);
    put_inode_numbers(bytes);
    put_sizes(bytes, n, len);
    put_form(bytes, len);
}

/// Writes the superblock of `n` groups of `len` blocks into a group's block 0.
#[tactic(auto, unfolding(crate::specs::Fresh::with_superblock))]
pub fn put_superblock(bytes: &mut [u8], n: u32, len: u32)
    requires { length bytes.old ≡ 4096 }
    ensures { bytes.new ≡ with_superblock n len bytes.old }
{
    put_fields(bytes, n, len);
    let sum = sum_at(&bytes[..SECTOR], SB_CRC);
    put_sum(bytes, SB_CRC, sum);
}
