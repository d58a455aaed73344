//! The header of a block, read number by number
//! (XFS Algorithms and Data Structures, "Short Format B+trees").
ghost use Rattle.std.specs.Prelude.{◌≡◌};
ghost use Rattle.sblock.specs.Blocks.{numrecs};
ghost use Rattle.sblock.specs.Headers.{level_of as level_is, left_of as left_is, right_of as right_is, place_of as place_is, owner_of as owner_is};

use byte_fields::{Block, get_u16, get_u32, get_u64};

/// The level field: 0 in a leaf.
pub fn level_of(block: &Block) -> u16
    ensures { result ≡ level_is block.now.bytes }
{
    get_u16(&block.bytes, 4)
}

/// The number of records of a leaf, or of keys and pointers of a node.
pub fn count_of(block: &Block) -> u16
    ensures { result ≡ numrecs block.now.bytes }
{
    get_u16(&block.bytes, 6)
}

/// The group-relative block before this one on its level, all ones for none.
pub fn left_of(block: &Block) -> u32
    ensures { result ≡ left_is block.now.bytes }
{
    get_u32(&block.bytes, 8)
}

/// The group-relative block behind this one on its level, all ones for none.
pub fn right_of(block: &Block) -> u32
    ensures { result ≡ right_is block.now.bytes }
{
    get_u32(&block.bytes, 12)
}

/// Where the block says that it lies, in 512-byte units from the start of the device.
pub fn place_of(block: &Block) -> u64
    ensures { result ≡ place_is block.now.bytes }
{
    get_u64(&block.bytes, 16)
}

/// The group that the block says it belongs to.
pub fn owner_of(block: &Block) -> u32
    ensures { result ≡ owner_is block.now.bytes }
{
    get_u32(&block.bytes, 48)
}
