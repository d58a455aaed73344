// Offset words: three flags, and the offset in the file below them.
ghost use Rattle.std.specs.Prelude.{◌≡◌};
ghost use Rattle.rmap_recs.specs.Words.{key_word, is_word_right as is_word_right_of, is_fork_data as is_fork_data_of, word_goes_on, flags_of, offset_of};

use crate::owner::is_inode;

/// The flag of an offset word for blocks that the attribute fork maps
/// (XFS Algorithms and Data Structures, "Reverse-Mapping B+tree").
pub const ATTRIBUTE: u64 = 0x8000_0000_0000_0000;

/// The flag of an offset word for blocks of a fork's own btree.
pub const FORK_TREE: u64 = 0x4000_0000_0000_0000;

/// The flag of an offset word for blocks that are mapped but not yet written.
pub const UNWRITTEN: u64 = 0x2000_0000_0000_0000;

// The bits that have no meaning.
const UNUSED: u64 = 0x1fc0_0000_0000_0000;

/// One more than the greatest offset of an offset word, which stands below its flags.
pub const OFFSETS: u64 = 0x0040_0000_0000_0000;

// A word without its unwritten flag.
const KEY_BITS: u64 = 0xdfff_ffff_ffff_ffff;

/// A word as keys have it, without the unwritten flag.
#[tactic(auto, unfolding(crate::specs::Words::key_word))]
pub fn key_bits(word: u64) -> u64
    ensures { result ≡ key_word word }
{
    word & KEY_BITS
}

/// Whether an inode's mapping of so many blocks may have this word.
#[tactic(auto, unfolding(crate::specs::Words::is_word_right))]
pub fn is_word_right(count: u32, word: u64) -> bool
    ensures { result ≡ is_word_right_of count word }
{
    let is_unwritten = word & UNWRITTEN > 0;
    let offset = word % OFFSETS;
    !(word & UNUSED > 0)
        && !(is_unwritten && word & ATTRIBUTE > 0)
        && !(word & FORK_TREE > 0 && (is_unwritten || offset > 0))
        && offset + u64::from(count) <= OFFSETS
}

/// Whether these are blocks that a fork of an inode maps.
#[tactic(auto, unfolding(crate::specs::Words::is_fork_data))]
pub fn is_fork_data(owner: u64, word: u64) -> bool
    ensures { result ≡ is_fork_data_of owner word }
{
    is_inode(owner) && !(word & FORK_TREE > 0)
}

/// Whether the word `next` goes on `count` blocks behind `word`, with the same owner.
#[tactic(auto, unfolding(crate::specs::Words::word_goes_on))]
pub fn does_word_go_on(owner: u64, word: u64, count: u32, next: u64) -> bool
    ensures { result ≡ word_goes_on owner word count next }
{
    let growth = if is_fork_data(owner, word) {
        u64::from(count)
    } else {
        0
    };
    next / OFFSETS == word / OFFSETS && next % OFFSETS == word % OFFSETS + growth
}
