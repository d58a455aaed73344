//! The tables of the checksum. Entry `i` of the table for `n` bytes is the remainder of the byte
//! `i` and of the `n - 1` bytes of zero after it; entry `i` of the table for one byte is `i`
//! after eight steps of one bit, and each further table has the entries of the one before
//! after eight steps more. That each is so is proved where it is read.
ghost use Rattle.std.specs.Prelude.{◌≡◌, IsTrue};
ghost use Rattle.byte_fields.specs.Tables.{after_zeros, is_table};

use crate::{far_tables, near_tables};

#[inline]
#[tactic(auto, using(crate::proofs::TableLemmas::entry))]
fn entry<const N: usize>(table: &[u32; 256], byte: u8) -> u32
    requires { IsTrue (is_table N table.now) }
    ensures { result ≡ after_zeros N byte }
{
    table[byte as usize]
}

/// The remainder of this byte.
#[inline]
pub fn after_one(byte: u8) -> u32
    ensures { result ≡ after_zeros 1 byte }
{
    entry::<1>(&TABLES[0], byte)
}

/// The remainder of this byte and of the one byte of zero after it.
#[inline]
pub fn after_two(byte: u8) -> u32
    ensures { result ≡ after_zeros 2 byte }
{
    entry::<2>(&TABLES[1], byte)
}

/// The remainder of this byte and of the two bytes of zero after it.
#[inline]
pub fn after_three(byte: u8) -> u32
    ensures { result ≡ after_zeros 3 byte }
{
    entry::<3>(&TABLES[2], byte)
}

/// The remainder of this byte and of the three bytes of zero after it.
#[inline]
pub fn after_four(byte: u8) -> u32
    ensures { result ≡ after_zeros 4 byte }
{
    entry::<4>(&TABLES[3], byte)
}

/// The remainder of this byte and of the four bytes of zero after it.
#[inline]
pub fn after_five(byte: u8) -> u32
    ensures { result ≡ after_zeros 5 byte }
{
    entry::<5>(&TABLES[4], byte)
}

/// The remainder of this byte and of the five bytes of zero after it.
#[inline]
pub fn after_six(byte: u8) -> u32
    ensures { result ≡ after_zeros 6 byte }
{
    entry::<6>(&TABLES[5], byte)
}

/// The remainder of this byte and of the six bytes of zero after it.
#[inline]
pub fn after_seven(byte: u8) -> u32
    ensures { result ≡ after_zeros 7 byte }
{
    entry::<7>(&TABLES[6], byte)
}

/// The remainder of this byte and of the seven bytes of zero after it.
#[inline]
pub fn after_eight(byte: u8) -> u32
    ensures { result ≡ after_zeros 8 byte }
{
    entry::<8>(&TABLES[7], byte)
}

/// The remainder of this byte and of the eight bytes of zero after it.
#[inline]
pub fn after_nine(byte: u8) -> u32
    ensures { result ≡ after_zeros 9 byte }
{
    entry::<9>(&TABLES[8], byte)
}

/// The remainder of this byte and of the nine bytes of zero after it.
#[inline]
pub fn after_ten(byte: u8) -> u32
    ensures { result ≡ after_zeros 10 byte }
{
    entry::<10>(&TABLES[9], byte)
}

/// The remainder of this byte and of the ten bytes of zero after it.
#[inline]
pub fn after_eleven(byte: u8) -> u32
    ensures { result ≡ after_zeros 11 byte }
{
    entry::<11>(&TABLES[10], byte)
}

/// The remainder of this byte and of the eleven bytes of zero after it.
#[inline]
pub fn after_twelve(byte: u8) -> u32
    ensures { result ≡ after_zeros 12 byte }
{
    entry::<12>(&TABLES[11], byte)
}

/// The remainder of this byte and of the twelve bytes of zero after it.
#[inline]
pub fn after_thirteen(byte: u8) -> u32
    ensures { result ≡ after_zeros 13 byte }
{
    entry::<13>(&TABLES[12], byte)
}

/// The remainder of this byte and of the 13 bytes of zero after it.
#[inline]
pub fn after_fourteen(byte: u8) -> u32
    ensures { result ≡ after_zeros 14 byte }
{
    entry::<14>(&TABLES[13], byte)
}

/// The remainder of this byte and of the 14 bytes of zero after it.
#[inline]
pub fn after_fifteen(byte: u8) -> u32
    ensures { result ≡ after_zeros 15 byte }
{
    entry::<15>(&TABLES[14], byte)
}

/// The remainder of this byte and of the 15 bytes of zero after it.
#[inline]
pub fn after_sixteen(byte: u8) -> u32
    ensures { result ≡ after_zeros 16 byte }
{
    entry::<16>(&TABLES[15], byte)
}

/// The remainder of this byte and of the 60 bytes of zero after it.
#[inline]
pub fn after_sixty_one(byte: u8) -> u32
    ensures { result ≡ after_zeros 61 byte }
{
    entry::<61>(&TABLES[16], byte)
}

/// The remainder of this byte and of the 61 bytes of zero after it.
#[inline]
pub fn after_sixty_two(byte: u8) -> u32
    ensures { result ≡ after_zeros 62 byte }
{
    entry::<62>(&TABLES[17], byte)
}

/// The remainder of this byte and of the 62 bytes of zero after it.
#[inline]
pub fn after_sixty_three(byte: u8) -> u32
    ensures { result ≡ after_zeros 63 byte }
{
    entry::<63>(&TABLES[18], byte)
}

/// The remainder of this byte and of the 63 bytes of zero after it.
#[inline]
pub fn after_sixty_four(byte: u8) -> u32
    ensures { result ≡ after_zeros 64 byte }
{
    entry::<64>(&TABLES[19], byte)
}

/// The remainder of this byte and of the 124 bytes of zero after it.
#[inline]
pub fn after_one_twenty_five(byte: u8) -> u32
    ensures { result ≡ after_zeros 125 byte }
{
    entry::<125>(&TABLES[20], byte)
}

/// The remainder of this byte and of the 125 bytes of zero after it.
#[inline]
pub fn after_one_twenty_six(byte: u8) -> u32
    ensures { result ≡ after_zeros 126 byte }
{
    entry::<126>(&TABLES[21], byte)
}

/// The remainder of this byte and of the 126 bytes of zero after it.
#[inline]
pub fn after_one_twenty_seven(byte: u8) -> u32
    ensures { result ≡ after_zeros 127 byte }
{
    entry::<127>(&TABLES[22], byte)
}

/// The remainder of this byte and of the 127 bytes of zero after it.
#[inline]
pub fn after_one_twenty_eight(byte: u8) -> u32
    ensures { result ≡ after_zeros 128 byte }
{
    entry::<128>(&TABLES[23], byte)
}

// All tables in one place, so that one register points to all of them.
static TABLES: [[u32; 256]; 24] = [
    near_tables::ONE,
    near_tables::TWO,
    near_tables::THREE,
    near_tables::FOUR,
    near_tables::FIVE,
    near_tables::SIX,
    near_tables::SEVEN,
    near_tables::EIGHT,
    far_tables::NINE,
    far_tables::TEN,
    far_tables::ELEVEN,
    far_tables::TWELVE,
    far_tables::THIRTEEN,
    far_tables::FOURTEEN,
    far_tables::FIFTEEN,
    far_tables::SIXTEEN,
    far_tables::SIXTY_ONE,
    far_tables::SIXTY_TWO,
    far_tables::SIXTY_THREE,
    far_tables::SIXTY_FOUR,
    far_tables::ONE_TWENTY_FIVE,
    far_tables::ONE_TWENTY_SIX,
    far_tables::ONE_TWENTY_SEVEN,
    far_tables::ONE_TWENTY_EIGHT,
];
