// Blocks in a group of 4,096 blocks: a root at block 1 over leaves at blocks 40 and 41.
ghost use Rattle.std.specs.Prelude.{◌≡◌};

use crate::build::{UUID, put_block_sum, put_word, put_words};
use blk_device::MemDevice;
use byte_fields::Block;
use geom::Geometry;
use std::alloc::{AllocError, Global};
use std::collections::BTreeMap;

/// The group, which is the only one.
pub fn one_group() -> Geometry
    ensures group { result.agcount ≡ 1 }
    ensures blocks { result.dblocks ≡ 4096 }
{
    Geometry {
        agblocks: 4096,
        agcount: 1,
        dblocks: 4096,
        agblklog: 12,
        uuid: UUID,
        log: None,
        kept: [192, 193, 194, 0, 0, 0],
        inobtcount: true,
    }
}

/// The block with another word at this place.
pub fn with_word(mut block: Block, at: usize, word: u32) -> Block {
    put_word(&mut block, at, word);
    block
}

/// The block with these words from byte `at` on.
pub fn with_words(mut block: Block, at: u16, words: &[u32]) -> Block {
    put_words(&mut block, usize::from(at), words);
    block
}

/// The block with its checksum.
pub fn summed(mut block: Block) -> Block {
    put_block_sum(&mut block);
    block
}

/// A device with these blocks at 1, 40 and 41.
pub fn device_of(alloc: Global, blocks: [Block; 3]) -> Result<MemDevice, AllocError> {
    let [top, low, high] = blocks;
    let mut image = BTreeMap::new(alloc);
    image.insert(1, top)?;
    image.insert(40, low)?;
    image.insert(41, high)?;
    MemDevice::with_image(alloc, 4096, 1, image, Vec::new(alloc))
}
