ghost use Rattle.std.specs.Prelude.{◌≡◌, true, false};

use super::same::same;
use dinode_core::Mapping;
use geom::Geometry;
use std::alloc::Global;
use std::process::Abort;

/// Two groups of 4,194,304 blocks, so that a file system block is the block of that number.
pub fn two_groups() -> Geometry {
    Geometry {
        agblocks: 4_194_304,
        agcount: 2,
        dblocks: 8_388_608,
        agblklog: 22,
        uuid: [1, 2, 3, 4, 5, 6, 7, 8, 9, 10, 11, 12, 13, 14, 15, 16],
        log: None,
        kept: [0; 6],
        inobtcount: false,
    }
}

/// A mapping of written blocks.
pub fn written(offset: u64, block: u64, count: u32) -> Mapping
    ensures { result ≡ record { offset = offset; block = block; count = count; unwritten = false } }
{
    Mapping {
        offset,
        block,
        count,
        unwritten: false,
    }
}

/// A mapping of blocks that were never written.
pub fn unwritten(offset: u64, block: u64, count: u32) -> Mapping
    ensures { result ≡ record { offset = offset; block = block; count = count; unwritten = true } }
{
    Mapping {
        offset,
        block,
        count,
        unwritten: true,
    }
}

/// A list of these mappings.
pub fn new_list(rt: &impl Abort, alloc: Global, mappings: &[Mapping]) -> Vec<Mapping>
    ensures { result.items ≡ mappings.now }
{
    Vec::from_slice(alloc, mappings).expect(rt, "memory is there")
}

/// Compares the mappings of a list.
pub(crate) fn expect_list(rt: &impl Abort, list: &[Mapping], wanted: &[Mapping]) {
    same(rt, list, wanted);
}
