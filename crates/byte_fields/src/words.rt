//! Four bytes as one word: what they leave behind them, by one look-up for each of its bytes.
ghost use Rattle.std.specs.Prelude.{◌≡◌, ◌+◌, ◌≤◌, length, take, drop};
ghost use Rattle.byte_fields.specs.Checksum.{after_bytes};
ghost use Rattle.byte_fields.specs.Tables.{after_zeros};

use crate::tables;

/// The four bytes at offset `at` as a word. They leave behind them what four bytes of zero
/// make of it.
#[inline]
#[tactic(auto, using(crate::proofs::WordLemmas::word_is))]
pub fn word_at(bytes: &[u8], at: usize) -> u32
    requires { at + 4 ≤ length bytes.now }
    ensures { after_zeros 4 result ≡ after_bytes 0 (take 4 (drop at bytes.now)) }
{
    let low = u32::from(bytes[at]) + u32::from(bytes[at + 1]) * 256;
    let high = u32::from(bytes[at + 2]) + u32::from(bytes[at + 3]) * 256;
    low + high * 65536
}

/// What four bytes of zero make of this word.
#[inline]
#[tactic(auto, using(crate::proofs::WordLemmas::past_four))]
pub fn past_four(word: u32) -> u32
    ensures { result ≡ after_zeros 4 word }
{
    let low = tables::after_four((word % 256) as u8)
        ^ tables::after_three((word / 256 % 256) as u8);
    let high = tables::after_two((word / 65536 % 256) as u8)
        ^ tables::after_one((word / 16777216) as u8);
    low ^ high
}

/// What eight bytes of zero make of this word.
#[inline]
#[tactic(auto, using(crate::proofs::WordLemmas::past_eight))]
pub fn past_eight(word: u32) -> u32
    ensures { result ≡ after_zeros 8 word }
{
    let low = tables::after_eight((word % 256) as u8)
        ^ tables::after_seven((word / 256 % 256) as u8);
    let high = tables::after_six((word / 65536 % 256) as u8)
        ^ tables::after_five((word / 16777216) as u8);
    low ^ high
}

/// What twelve bytes of zero make of this word.
#[inline]
#[tactic(auto, using(crate::proofs::WordLemmas::past_twelve))]
pub fn past_twelve(word: u32) -> u32
    ensures { result ≡ after_zeros 12 word }
{
    let low = tables::after_twelve((word % 256) as u8)
        ^ tables::after_eleven((word / 256 % 256) as u8);
    let high = tables::after_ten((word / 65536 % 256) as u8)
        ^ tables::after_nine((word / 16777216) as u8);
    low ^ high
}

/// What 16 bytes of zero make of this word.
#[inline]
#[tactic(auto, using(crate::proofs::WordLemmas::past_sixteen))]
pub fn past_sixteen(word: u32) -> u32
    ensures { result ≡ after_zeros 16 word }
{
    let low = tables::after_sixteen((word % 256) as u8)
        ^ tables::after_fifteen((word / 256 % 256) as u8);
    let high = tables::after_fourteen((word / 65536 % 256) as u8)
        ^ tables::after_thirteen((word / 16777216) as u8);
    low ^ high
}

/// What 64 bytes of zero make of this word.
#[inline]
#[tactic(auto, using(crate::proofs::WordLemmas::past_sixty_four))]
pub fn past_sixty_four(word: u32) -> u32
    ensures { result ≡ after_zeros 64 word }
{
    let low = tables::after_sixty_four((word % 256) as u8)
        ^ tables::after_sixty_three((word / 256 % 256) as u8);
    let high = tables::after_sixty_two((word / 65536 % 256) as u8)
        ^ tables::after_sixty_one((word / 16777216) as u8);
    low ^ high
}

/// What 128 bytes of zero make of this word.
#[inline]
#[tactic(auto, using(crate::proofs::WordLemmas::past_one_twenty_eight))]
pub fn past_one_twenty_eight(word: u32) -> u32
    ensures { result ≡ after_zeros 128 word }
{
    let low = tables::after_one_twenty_eight((word % 256) as u8)
        ^ tables::after_one_twenty_seven((word / 256 % 256) as u8);
    let high = tables::after_one_twenty_six((word / 65536 % 256) as u8)
        ^ tables::after_one_twenty_five((word / 16777216) as u8);
    low ^ high
}
