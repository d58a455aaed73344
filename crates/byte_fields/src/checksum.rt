ghost use Rattle.std.specs.Prelude.{◌≡◌, ◌+◌, ◌%◌, ◌≤◌, length, replicate, IsTrue};
ghost use Rattle.byte_fields.specs.Checksum.{after_byte, after_bytes, checksum, blanked, has_sum};

use crate::fields::get_sum;
use crate::{tables, words};

// How many bytes are looked at together for whether all are zero.
const WIDE: usize = 64;

const BROAD: usize = 128;

// One byte: the high bits move down, and what the low byte leaves is laid over them.
#[tactic(auto, using(crate::proofs::TableLemmas::by_table))]
fn next_byte(rest: u32, byte: u8) -> u32
    ensures { result ≡ after_byte rest byte }
{
    (rest / 256) ^ tables::after_one((rest % 256) as u8 ^ byte)
}

#[tactic(auto, using(crate::proofs::ChecksumLemmas::after_bytes_step, crate::proofs::ChecksumLemmas::after_bytes_end))]
fn next_each(first: u32, bytes: &[u8]) -> u32
    ensures { result ≡ after_bytes first bytes.now }
{
    let mut rest = first;
    for byte in bytes {
        rest = next_byte(rest, *byte);
    }
    rest
}

// Four bytes at once: they are laid over the remainder, and each byte of both is looked up.
#[inline]
#[tactic(auto, using(crate::proofs::WordLemmas::after_four))]
fn next_four(rest: u32, four: &[u8]) -> u32
    requires { length four.now ≡ 4 }
    ensures { result ≡ after_bytes rest four.now }
{
    words::past_four(rest ^ words::word_at(four, 0))
}

// Eight bytes at once, in two words.
#[inline]
#[tactic(auto, using(crate::proofs::WordLemmas::after_eight))]
fn next_eight(rest: u32, eight: &[u8]) -> u32
    requires { length eight.now ≡ 8 }
    ensures { result ≡ after_bytes rest eight.now }
{
    let behind = words::past_four(words::word_at(eight, 4));
    let front = words::past_eight(rest ^ words::word_at(eight, 0));
    front ^ behind
}

// 16 bytes at once, in four words: the first is laid over the remainder, and each byte of all is
// looked up in the table of its place. What doesn't wait for the remainder is joined first, so
// that little is left to do once it is there.
#[inline]
#[tactic(auto, using(crate::proofs::WordLemmas::after_sixteen))]
fn next_sixteen(rest: u32, sixteen: &[u8]) -> u32
    requires { length sixteen.now ≡ 16 }
    ensures { result ≡ after_bytes rest sixteen.now }
{
    let last = words::past_eight(words::word_at(sixteen, 8))
        ^ words::past_four(words::word_at(sixteen, 12));
    let behind = words::past_twelve(words::word_at(sixteen, 4)) ^ last;
    let front = words::past_sixteen(rest ^ words::word_at(sixteen, 0));
    front ^ behind
}

fn next_fours(first: u32, bytes: &[u8]) -> u32
    ensures { result ≡ after_bytes first bytes.now }
{
    let mut rest = first;
    let mut left = bytes;
    while left.len() >= 4 {
        let (four, tail) = left.split_at(4);
        rest = next_four(rest, four);
        left = tail;
    }
    next_each(rest, left)
}

// Less than 16 bytes.
fn next_few(first: u32, bytes: &[u8]) -> u32
    ensures { result ≡ after_bytes first bytes.now }
{
    if bytes.len() < 8 {
        return next_fours(first, bytes);
    }
    let (eight, tail) = bytes.split_at(8);
    next_fours(next_eight(first, eight), tail)
}

fn next_sixteens(first: u32, bytes: &[u8]) -> u32
    ensures { result ≡ after_bytes first bytes.now }
{
    let mut rest = first;
    let mut left = bytes;
    while left.len() >= 16 {
        let (sixteen, tail) = left.split_at(16);
        rest = next_sixteen(rest, sixteen);
        left = tail;
    }
    next_few(rest, left)
}

// Whether all bytes are zero. No byte ends it, so that many are looked at with one instruction.
#[tactic(auto, using(crate::proofs::EmptyLemmas::empty_on, crate::proofs::EmptyLemmas::empty_all))]
fn is_empty(bytes: &[u8]) -> bool
    ensures { IsTrue result → bytes.now ≡ replicate (length bytes.now) 0 }
{
    let mut any: u8 = 0;
    for byte in bytes {
        any |= *byte;
    }
    any == 0
}

// 64 bytes: most of an inode's, and many of a short list's, are zero.
#[inline]
#[tactic(auto, using(crate::proofs::WordLemmas::after_empty, crate::proofs::WordLemmas::in_quarters))]
fn next_wide(rest: u32, wide: &[u8]) -> u32
    requires { length wide.now ≡ 64 }
    ensures { result ≡ after_bytes rest wide.now }
{
    if is_empty(wide) {
        return words::past_sixty_four(rest);
    }
    let (front, back) = wide.split_at(32);
    let (first, second) = front.split_at(16);
    let (third, fourth) = back.split_at(16);
    let rest = next_sixteen(next_sixteen(rest, first), second);
    next_sixteen(next_sixteen(rest, third), fourth)
}

// Pieces of 64 bytes, with none left over.
fn next_wides(first: u32, bytes: &[u8]) -> u32
    requires { length bytes.now % 64 ≡ 0 }
    ensures { result ≡ after_bytes first bytes.now }
{
    let mut rest = first;
    let mut left = bytes;
    while left.len() >= WIDE {
        let (wide, tail) = left.split_at(WIDE);
        rest = next_wide(rest, wide);
        left = tail;
    }
    rest
}

// 128 bytes, as each quarter of an inode.
#[tactic(auto, using(crate::proofs::WordLemmas::after_broad))]
fn next_broad(rest: u32, broad: &[u8]) -> u32
    requires { length broad.now ≡ 128 }
    ensures { result ≡ after_bytes rest broad.now }
{
    let (front, back) = broad.split_at(WIDE);
    if is_empty(front) && is_empty(back) {
        return words::past_one_twenty_eight(rest);
    }
    next_wides(rest, broad)
}

// Pieces of 128 bytes, with none left over.
fn next_broads(first: u32, bytes: &[u8]) -> u32
    requires { length bytes.now % 128 ≡ 0 }
    ensures { result ≡ after_bytes first bytes.now }
{
    let mut rest = first;
    let mut left = bytes;
    while left.len() >= BROAD {
        let (broad, tail) = left.split_at(BROAD);
        rest = next_broad(rest, broad);
        left = tail;
    }
    rest
}

// The short pieces stand in front: zeros are mostly at the end, so they fill whole pieces.
#[tactic(auto, using(crate::proofs::ChecksumLemmas::after_bytes_split))]
fn next_bytes(first: u32, bytes: &[u8]) -> u32
    ensures { result ≡ after_bytes first bytes.now }
{
    let (short, long) = bytes.split_at(bytes.len() % WIDE);
    let (wides, broads) = long.split_at(long.len() % BROAD);
    next_broads(next_wides(next_sixteens(first, short), wides), broads)
}

/// The CRC-32C of the bytes: Castagnoli polynomial, from all ones, complemented
/// (the `crc32c` of every version 5 metadata block).
#[tactic(auto, unfolding(crate::specs::Checksum::checksum))]
pub fn crc32c(bytes: &[u8]) -> u32
    ensures { result ≡ checksum bytes.now }
{
    next_bytes(u32::MAX, bytes) ^ u32::MAX
}

/// The CRC-32C of the bytes with the four at offset `at`, where the sum itself is stored,
/// taken as zero.
#[tactic(auto, using(crate::proofs::WordLemmas::sum_in_parts), unfolding(crate::specs::Checksum::checksum))]
pub fn sum_at(bytes: &[u8], at: usize) -> u32
    requires { at + 4 ≤ length bytes.now }
    ensures { result ≡ checksum (blanked bytes.now at) }
{
    let (front, rest) = bytes.split_at(at);
    let (_, back) = rest.split_at(4);
    let sum = next_bytes(u32::MAX, front);
    let sum = words::past_four(sum);
    next_bytes(sum, back) ^ u32::MAX
}

/// Whether the checksum that is stored at offset `at` is that of the bytes.
#[tactic(auto, unfolding(crate::specs::Checksum::has_sum))]
pub fn is_summed(bytes: &[u8], at: usize) -> bool
    requires { at + 4 ≤ length bytes.now }
    ensures { result ≡ has_sum bytes.now at }
{
    get_sum(bytes, at) == sum_at(bytes, at)
}
