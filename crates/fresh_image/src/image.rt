ghost use Rattle.std.specs.Prelude.{◌≡◌, ◌*◌, ◌^◌, ◌<◌, ◌≤◌};
ghost use Rattle.fresh_image.specs.Fresh.{fresh, fresh_in};

use crate::heads::heads;
use crate::inodes::inodes;
use crate::roots::root;
use byte_fields::Block;

// The blocks of the chunk of inodes in group 0.
const CHUNK: u32 = 24;

const CHUNK_END: u32 = 32;

// Block `b` of group `g`.
#[tactic(auto, unfolding(crate::specs::Fresh::fresh_in))]
fn block_in(n: u32, len: u32, g: u32, b: u32) -> Block
    requires group { g < 65536 }
    requires long { (64 ≤ len) × (len ≤ 2 ^ 28) }
    ensures { result.bytes ≡ fresh_in n len g b }
{
    if b == 0 {
        return heads(n, len, g);
    }
    if b <= 6 {
        return root(len, g, b);
    }
    if g == 0 && CHUNK <= b && b < CHUNK_END {
        return inodes(b - CHUNK);
    }
    Block::zeroed()
}

/// Block `at` of a new image of `n` groups of `len` blocks: each group has its heads, the six trees of
/// one leaf each, and a free list of twelve blocks; group 0 has a chunk of inodes, three of them
/// allocated. All else is zero. The numbers are those that a superblock may have
/// (XFS Algorithms and Data Structures, "Allocation Groups").
pub fn fresh_block(n: u32, len: u32, at: u64) -> Block
    requires groups { n ≤ 65536 }
    requires long { (64 ≤ len) × (len ≤ 2 ^ 28) }
    requires inside { at < n * len }
    ensures { result.bytes ≡ fresh n len at }
{
    let group = at / u64::from(len);
    let block = at % u64::from(len);
    block_in(n, len, group as u32, block as u32)
}
