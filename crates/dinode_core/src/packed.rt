ghost use Rattle.std.specs.Prelude.{◌≡◌, ◌+◌, ◌*◌, ◌≤◌, length, drop};
ghost use Rattle.byteorder.specs.Endian.{big_bytes};
ghost use Rattle.dinode_core.specs.Packed.{FitsPacked, bits_of, packed, unpacked};

use crate::mapping::Mapping;
use byteorder::{BigEndian, ByteOrder};

// The 128 bits as a number.
#[tactic(auto, using(crate::proofs::PackedLemmas::bits_fit))]
fn bits_in(m: &Mapping) -> u128
    requires { FitsPacked m.now }
    ensures { result ≡ bits_of m.now }
{
    let flag = u128::from(m.unwritten) << 127;
    let offset = u128::from(m.offset) << 73;
    let block = u128::from(m.block) << 21;
    flag + offset + block + u128::from(m.count)
}

fn bytes_of(bits: u128) -> [u8; 16]
    ensures { result ≡ big_bytes 16 bits }
{
    let mut bytes = [0; 16];
    BigEndian::write_u128(&mut bytes, bits);
    bytes
}

/// The 16 bytes of a mapping whose numbers fit them: from the highest bit on the unwritten bit, 54
/// bits of the offset, 52 of the block and 21 of the count. They unpack to the same mapping.
/// (XFS Algorithms and Data Structures, "Extent List".)
#[tactic(auto, unfolding(crate::specs::Packed::packed))]
pub fn pack(m: &Mapping) -> [u8; 16]
    requires { FitsPacked m.now }
    ensures exact { result ≡ packed m.now }
    ensures again { unpacked result ≡ m.now }
{
    bytes_of(bits_in(m))
}

/// The mapping in the first 16 bytes. (XFS Algorithms and Data Structures, "Extent List".)
#[tactic(auto, unfolding(crate::specs::Packed::unpacked))]
pub fn unpack_front(bytes: &[u8]) -> Mapping
    requires { 16 ≤ length bytes.now }
    ensures exact { result ≡ unpacked bytes.now }
    ensures fits { FitsPacked result }
{
    let bits = BigEndian::read_u128(bytes);
    Mapping {
        offset: (bits >> 73) as u64 % (1 << 54),
        block: ((bits >> 21) % (1 << 52)) as u64,
        count: (bits % (1 << 21)) as u32,
        unwritten: bits >> 127 == 1,
    }
}

/// Mapping number `i` of those that stand one behind the other in these bytes.
/// (XFS Algorithms and Data Structures, "Extent List".)
pub fn mapping_at(bytes: &[u8], i: usize) -> Mapping
    requires { 16 * i + 16 ≤ length bytes.now }
    ensures exact { result ≡ unpacked (drop (16 * i) bytes.now) }
    ensures fits { FitsPacked result }
{
    let (_, rest) = bytes.split_at(16 * i);
    unpack_front(rest)
}

/// The mapping that 16 bytes stand for; every 16 bytes do. Its numbers fit, and it packs to the same
/// bytes. (XFS Algorithms and Data Structures, "Extent List".)
#[tactic(auto, using(crate::proofs::PackedLemmas::packs_again))]
pub fn unpack(bytes: &[u8; 16]) -> Mapping
    ensures exact { result ≡ unpacked bytes.now }
    ensures fits { FitsPacked result }
    ensures again { packed result ≡ bytes.now }
{
    unpack_front(bytes)
}
