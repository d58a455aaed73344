//! Blocks for tests: roots of trees of group 0.
ghost use Rattle.std.specs.Prelude.{◌≡◌};

use super::same::same;
use byte_fields::{Block, put_sum, put_u16, put_u32, put_u64, sum_at};
use sblock::{BlockFault, Bounds, Kind, RecKind, Want, verify};
use std::process::Abort;

const NONE: u32 = 0xffff_ffff;

// The bytes 1 to 16.
const UUID: [u8; 16] = [1, 2, 3, 4, 5, 6, 7, 8, 9, 10, 11, 12, 13, 14, 15, 16];

/// What a root at the group's block 1 is to be.
pub(super) fn want_of(kind: Kind, level: u8, bounds: Bounds) -> Want
    ensures { result.kind ≡ kind }
{
    Want {
        kind,
        level,
        root: true,
        left: NONE,
        place: 8,
        group: 0,
        bounds,
        uuid: UUID,
    }
}

/// That root, with these numbers behind its header. No checksum is stored.
pub(super) fn block_of(magic: u32, level: u16, count: u16, words: &[u32]) -> Block {
    let mut block = Block::zeroed();
    let bytes = &mut block.bytes;
    put_u32(bytes, 0, magic);
    put_u16(bytes, 4, level);
    put_u16(bytes, 6, count);
    put_u32(bytes, 8, NONE);
    put_u32(bytes, 12, NONE);
    put_u64(bytes, 16, 8);
    put_u64(bytes, 32, 0x0102_0304_0506_0708);
    put_u64(bytes, 40, 0x090a_0b0c_0d0e_0f10);
    with_words(block, words)
}

fn with_words(mut block: Block, words: &[u32]) -> Block {
    for (i, word) in words.iter().enumerate() {
        if i < 1010 {
            block = altered(block, 56 + 4 * i, *word);
        }
    }
    block
}

/// The block with another number in the four bytes at offset `at`. No checksum is stored.
pub(super) fn altered(mut block: Block, at: usize, value: u32) -> Block {
    if at <= 4092 {
        put_u32(&mut block.bytes, at, value);
    }
    block
}

/// The block with its checksum.
pub(super) fn mended(mut block: Block) -> Block {
    let sum = sum_at(&block.bytes, 52);
    put_sum(&mut block.bytes, 52, sum);
    block
}

fn expect_fault<K: RecKind>(rt: &impl Abort, want: &Want, block: Block, fault: BlockFault)
    requires { want.now.kind ≡ K.form.kind }
{
    same(rt, verify::<K>(&block, want).err(), Some(fault));
}

/// Expects the faults that each kind may have, and then these: each row puts another number at an
/// offset.
pub(super) fn expect_faults<K: RecKind>(
    rt: &impl Abort,
    want: &Want,
    sound: &Block,
    rows: &[(usize, u32, BlockFault)],
)
    requires { want.now.kind ≡ K.form.kind }
{
    let sound = mended(*sound);
    assert!(rt; verify::<K>(&sound, want).is_ok());
    let heads = [
        (0, 0x5846_5342, BlockFault::Magic),
        (8, 2, BlockFault::Sibling),
        (20, 16, BlockFault::Place),
        (48, 1, BlockFault::Owner),
        (44, 0x0d0e_0f11, BlockFault::Uuid),
    ];
    for (at, value, fault) in &heads {
        expect_fault::<K>(rt, want, mended(altered(sound, *at, *value)), *fault);
    }
    for (at, value, fault) in rows {
        expect_fault::<K>(rt, want, mended(altered(sound, *at, *value)), *fault);
    }
    expect_fault::<K>(rt, want, altered(sound, 4092, 1), BlockFault::Checksum);
}
