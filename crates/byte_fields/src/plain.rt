//! The checksum bit by bit, as it is defined: slow, and what the fast one is measured against.
ghost use Rattle.std.specs.Prelude.{◌≡◌};
ghost use Rattle.byte_fields.specs.Checksum.{after_bit, after_byte, after_bytes, checksum};

// The Castagnoli polynomial, the lowest power in the highest bit.
const POLYNOMIAL: u32 = 0x82F6_3B78;

#[tactic(auto, unfolding(crate::specs::Checksum::after_bit))]
fn plain_bit(rest: u32) -> u32
    ensures { result ≡ after_bit rest }
{
    if rest % 2 == 1 {
        (rest / 2) ^ POLYNOMIAL
    } else {
        rest / 2
    }
}

#[tactic(auto, unfolding(crate::specs::Checksum::after_byte, crate::specs::Checksum::after_bits))]
fn plain_byte(rest: u32, byte: u8) -> u32
    ensures { result ≡ after_byte rest byte }
{
    let mut rest = rest ^ u32::from(byte);
    rest = plain_bit(plain_bit(plain_bit(plain_bit(rest))));
    plain_bit(plain_bit(plain_bit(plain_bit(rest))))
}

#[tactic(auto, using(crate::proofs::ChecksumLemmas::after_bytes_step, crate::proofs::ChecksumLemmas::after_bytes_end))]
fn plain_bytes(first: u32, bytes: &[u8]) -> u32
    ensures { result ≡ after_bytes first bytes.now }
{
    let mut rest = first;
    for byte in bytes {
        rest = plain_byte(rest, *byte);
    }
    rest
}

/// The CRC-32C of the bytes, a bit at a time: the same number as `crc32c`, about ten times
/// slower (XFS Algorithms and Data Structures, "Metadata Integrity").
#[tactic(auto, unfolding(crate::specs::Checksum::checksum))]
pub fn plain_crc32c(bytes: &[u8]) -> u32
    ensures { result ≡ checksum bytes.now }
{
    plain_bytes(u32::MAX, bytes) ^ u32::MAX
}
