ghost use Rattle.std.specs.Prelude.{◌≡◌, ◌+◌, ◌≤◌, length};
ghost use Rattle.byte_fields.specs.Fields.{field, low_field, with_field, with_low_field, has_uuid};

use byteorder::{BigEndian, ByteOrder, LittleEndian};

/// The big-endian number in the two bytes at offset `at`.
pub fn get_u16(bytes: &[u8], at: usize) -> u16
    requires { at + 2 ≤ length bytes.now }
    ensures { result ≡ field 2 bytes.now at }
{
    BigEndian::read_u16(&bytes[at..])
}

/// The big-endian number in the four bytes at offset `at`.
pub fn get_u32(bytes: &[u8], at: usize) -> u32
    requires { at + 4 ≤ length bytes.now }
    ensures { result ≡ field 4 bytes.now at }
{
    BigEndian::read_u32(&bytes[at..])
}

/// The big-endian number in the eight bytes at offset `at`.
pub fn get_u64(bytes: &[u8], at: usize) -> u64
    requires { at + 8 ≤ length bytes.now }
    ensures { result ≡ field 8 bytes.now at }
{
    BigEndian::read_u64(&bytes[at..])
}

/// Writes a number into the two bytes at offset `at`, big-endian. All other bytes stay.
pub fn put_u16(bytes: &mut [u8], at: usize, value: u16)
    requires { at + 2 ≤ length bytes.old }
    ensures { bytes.new ≡ with_field 2 bytes.old at value }
{
    BigEndian::write_u16(&mut bytes[at..at + 2], value);
}

/// Writes a number into the four bytes at offset `at`, big-endian. All other bytes stay.
pub fn put_u32(bytes: &mut [u8], at: usize, value: u32)
    requires { at + 4 ≤ length bytes.old }
    ensures { bytes.new ≡ with_field 4 bytes.old at value }
{
    BigEndian::write_u32(&mut bytes[at..at + 4], value);
}

/// Writes a number into the eight bytes at offset `at`, big-endian. All other bytes stay.
pub fn put_u64(bytes: &mut [u8], at: usize, value: u64)
    requires { at + 8 ≤ length bytes.old }
    ensures { bytes.new ≡ with_field 8 bytes.old at value }
{
    BigEndian::write_u64(&mut bytes[at..at + 8], value);
}

/// The little-endian number in the four bytes at offset `at`: the one form in which
/// checksums are stored.
pub fn get_sum(bytes: &[u8], at: usize) -> u32
    requires { at + 4 ≤ length bytes.now }
    ensures { result ≡ low_field 4 bytes.now at }
{
    LittleEndian::read_u32(&bytes[at..])
}

/// Writes a checksum into the four bytes at offset `at`, little-endian. All other bytes stay.
pub fn put_sum(bytes: &mut [u8], at: usize, sum: u32)
    requires { at + 4 ≤ length bytes.old }
    ensures { bytes.new ≡ with_low_field 4 bytes.old at sum }
{
    LittleEndian::write_u32(&mut bytes[at..at + 4], sum);
}

/// Whether the 16 bytes at offset `at` are this UUID, which every version 5 metadata block
/// repeats from the superblock.
#[tactic(auto, unfolding(crate::specs::Fields::has_uuid))]
pub fn is_uuid_at(bytes: &[u8], at: usize, uuid: &[u8; 16]) -> bool
    requires { at + 16 ≤ length bytes.now }
    ensures { result ≡ has_uuid bytes.now at uuid.now }
{
    &bytes[at..at + 16] == &uuid[..]
}
