//! The bytes of one sector: what is read from it and put into it beside single numbers.
ghost use Rattle.std.specs.Prelude.{◌≡◌, ◌≢◌, ℕ, ◌+◌, ◌*◌, ◌<◌, ◌≤◌, ◌^◌, length, slice_index, true};
ghost use Rattle.std.specs.List.{splice};
ghost use Rattle.byte_fields.specs.Checksum.{has_sum};
ghost use Rattle.ag_headers.specs.Fields.{sector, with_sector, uuid_at, with_uuid, numbers_at, with_numbers, with_sum};

use byte_fields::{Block, put_sum, sum_at};
use byteorder::{BigEndian, ByteOrder};

/// Bytes of a sector.
pub const SECTOR: usize = 512;

/// Sector `K` of a block.
pub fn sector_in<const K: usize>(block: &[u8]) -> &[u8]
    requires whole { length block.now ≡ 4096 }
    requires inside { K < 8 }
    ensures bytes { result.now ≡ sector K block.now }
    ensures len { length result.now ≡ 512 }
{
    let (_, rest) = block.split_at(SECTOR * K);
    let (found, _) = rest.split_at(SECTOR);
    found
}

/// A copy of sector `K` of a block.
pub fn sector_copy<const K: usize>(block: &Block) -> [u8; 512]
    requires { K < 8 }
    ensures { result ≡ sector K block.now.bytes }
{
    let mut copy = [0; 512];
    copy.copy_from_slice(sector_in::<K>(&block.bytes));
    copy
}

fn put_part(bytes: &mut [u8], at: usize, part: &[u8])
    requires room { at + 512 ≤ length bytes.old }
    requires whole { length part.now ≡ 512 }
    ensures { bytes.new ≡ splice bytes.old at (at + 512) part.now }
{
    bytes[at..at + SECTOR].copy_from_slice(part);
}

/// Puts these bytes into sector `K` of a block. All other sectors stay.
#[tactic(auto, using(crate::proofs::SectorLemmas::sector_there, crate::proofs::SectorLemmas::sector_stays))]
pub fn put_sector<const K: usize>(block: &mut Block, part: &[u8])
    requires inside { K < 8 }
    requires whole { length part.now ≡ 512 }
    ensures bytes { block.new.bytes ≡ with_sector K block.old.bytes part.now }
    ensures there { sector K block.new.bytes ≡ part.now }
    ensures elsewhere { (k : ℕ) → k ≢ K → sector k block.new.bytes ≡ sector k block.old.bytes }
{
    put_part(&mut block.bytes, SECTOR * K, part);
}

/// The 16 bytes of a UUID at `at`.
pub fn get_uuid(bytes: &[u8], at: usize) -> [u8; 16]
    requires { at + 16 ≤ length bytes.now }
    ensures { result ≡ uuid_at bytes.now at }
{
    let mut uuid = [0; 16];
    uuid.copy_from_slice(&bytes[at..at + 16]);
    uuid
}

/// Writes a UUID into the 16 bytes at `at`. All other bytes stay.
pub fn put_uuid(bytes: &mut [u8], at: usize, uuid: &[u8; 16])
    requires { at + 16 ≤ length bytes.old }
    ensures { bytes.new ≡ with_uuid bytes.old at uuid.now }
{
    bytes[at..at + 16].copy_from_slice(&uuid[..]);
}

/// The `N` numbers of four bytes at `at`.
pub fn get_numbers<const N: usize>(bytes: &[u8], at: usize) -> [u32; N]
    requires { at + 4 * N ≤ length bytes.now }
    ensures { result ≡ numbers_at N bytes.now at }
{
    let mut numbers = [0; N];
    BigEndian::read_u32_into(&bytes[at..at + 4 * N], &mut numbers);
    numbers
}

/// Writes `N` numbers into the `4 * N` bytes at `at`. All other bytes stay.
pub fn put_numbers<const N: usize>(bytes: &mut [u8], at: usize, numbers: &[u32])
    requires room { at + 4 * N ≤ length bytes.old }
    requires all { length numbers.now ≡ N }
    ensures bytes { bytes.new ≡ with_numbers N bytes.old at numbers.now }
    ensures fits { (k : ℕ) → slice_index numbers.now k < 2 ^ 32 }
    ensures len { length numbers.now ≡ N }
{
    BigEndian::write_u32_into(numbers, &mut bytes[at..at + 4 * N]);
}

/// Puts the checksum of the bytes into the four at `at`.
#[tactic(auto, using(crate::proofs::StampLemmas::sum_holds), unfolding(crate::specs::Fields::with_sum))]
pub fn put_checksum(bytes: &mut [u8], at: usize)
    requires { at + 4 ≤ length bytes.old }
    ensures bytes { bytes.new ≡ with_sum bytes.old at }
    ensures summed { has_sum bytes.new at ≡ true }
{
    let sum = sum_at(bytes, at);
    put_sum(bytes, at, sum);
}
