// The time in which a tree of many records is loaded.
ghost use Rattle.std.specs.Prelude.{◌≡◌, ◌+◌, ◌*◌, ◌^◌, ◌<◌};

use bulk_load::shape;
use byte_fields::{Block, Steps};
use geom::Geometry;
use load_trees::{Unfit, load_tree};
use sblock::RecKind;
use std::alloc::{AllocError, Global};
use std::io;
use std::marker::Brand;
use std::rt::Clock;
use std::sync::ledger::{Blank, Ledger};
use std::time::Instant;
use tree_defs::Site;

// A group of 2^28 blocks, the greatest there is.
fn site() -> Site
    ensures fits { 8 * (result.first + result.bounds.length) < 2 ^ 64 }
{
    let geo = Geometry {
        agblocks: 268_435_456,
        agcount: 1,
        dblocks: 268_435_456,
        agblklog: 28,
        uuid: [7; 16],
        log: None,
        kept: [192, 193, 194, 0, 0, 0],
        inobtcount: true,
    };
    Site::of_group(&geo, 0)
}

fn loaded<K: RecKind, L: Ledger>(
    alloc: Global,
    list: &[K::Rec],
    claimed: &[u32],
    blank: Blank,
) -> Result<Vec<(u32, Block)>, Unfit>
    requires name { blank.name ≡ L.name }
    requires parts { blank.parts ≡ L.parts }
    requires three { blank.parts ≡ 3 }
{
    let mut steps = Steps::<L>::new(blank);
    load_tree::<K, L>(alloc, list, &site(), 0, claimed, &mut steps)
}

// How many blocks the tree of this list has, for a caller that counts no steps.
fn tree_of<K: RecKind>(alloc: Global, list: &[K::Rec], claimed: &[u32]) -> Result<usize, Unfit> {
    let blank = Blank::new(3);
    Ok(loaded::<K, Brand>(alloc, list, claimed, blank)?.len())
}

/// A kind whose records are told by their numbers.
pub trait Sample: RecKind {
    /// Record `n` of a list.
    fn nth(n: u32) -> Self::Rec;
}

fn list_of<K: Sample>(alloc: Global, n: u32) -> Result<Vec<K::Rec>, AllocError> {
    let mut list = Vec::new(alloc);
    for i in 0..n {
        list.push(K::nth(i))?;
    }
    Ok(list)
}

// So many blocks from block 1 on.
fn blocks_of(alloc: Global, n: u64) -> Result<Vec<u32>, AllocError> {
    let mut blocks = Vec::new(alloc);
    let mut block: u32 = 1;
    for _ in 0..n {
        blocks.push(block)?;
        block = block.wrapping_add(1);
    }
    Ok(blocks)
}

/// The blocks of a tree of `n` records, and the milliseconds that it took to make them.
pub fn time_of<K: Sample, R: Clock + AllocGlobal>(rt: &R, n: u32) -> io::Result<(usize, u128)> {
    let alloc = rt.alloc();
    let list = list_of::<K>(alloc, n)?;
    let claimed = blocks_of(alloc, shape(u64::from(n), K::kind()).blocks)?;
    let start = Instant::now(rt)?;
    let Ok(blocks) = tree_of::<K>(alloc, &list, &claimed) else {
        return Err(io::Error::new(io::ErrorKind::OutOfMemory, "memory"));
    };
    Ok((blocks, start.elapsed(rt)?.as_millis()))
}
