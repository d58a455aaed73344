// Records of each kind in rising order, and blocks for their trees.
use ino_recs::{FinoKind, InoKind, InoRec};
use rmap_recs::{RmapKind, RmapRec};
use sblock::RecKind;
use span_recs::{BnoKind, CntKind, RefcKind, RefcRec, SpanRec};
use std::alloc::{AllocError, Global};

/// A kind whose records are told by their numbers.
pub trait Sample: RecKind {
    /// Record `n` of a list, in range in a group of 1,048,576 blocks.
    fn nth(n: u32) -> Self::Rec;
}

fn span(n: u32) -> SpanRec {
    SpanRec {
        start: n.wrapping_add(1).wrapping_mul(2),
        count: 1,
    }
}

fn chunk(n: u32) -> InoRec {
    InoRec {
        startino: n.wrapping_add(1).wrapping_mul(64),
        holemask: 0,
        count: 64,
        freecount: 61,
        free: 0xffff_ffff_ffff_fff8,
    }
}

impl Sample for BnoKind {
    fn nth(n: u32) -> SpanRec {
        span(n)
    }
}

impl Sample for CntKind {
    fn nth(n: u32) -> SpanRec {
        span(n)
    }
}

// Two begin at each 40th block, and each 16th reaches over many later ones: a leaf's greatest high
// key isn't that of its last record.
impl Sample for RmapKind {
    fn nth(n: u32) -> RmapRec {
        RmapRec {
            start: (n / 2).wrapping_mul(40).wrapping_add(10),
            count: if n % 16 == 0 { 700 } else { 35 },
            owner: u64::from(n) + 128,
            word: 0,
        }
    }
}

impl Sample for RefcKind {
    fn nth(n: u32) -> RefcRec {
        RefcRec {
            start: n.wrapping_add(1).wrapping_mul(2),
            count: 1,
            refcount: 2,
        }
    }
}

impl Sample for InoKind {
    fn nth(n: u32) -> InoRec {
        chunk(n)
    }
}

impl Sample for FinoKind {
    fn nth(n: u32) -> InoRec {
        chunk(n)
    }
}

/// The first so many records.
pub fn list_of<K: Sample>(alloc: Global, n: u32) -> Result<Vec<K::Rec>, AllocError> {
    let mut list = Vec::new(alloc);
    for i in 0..n {
        list.push(K::nth(i))?;
    }
    Ok(list)
}

/// So many blocks, downwards from block 1,000,000.
pub fn blocks_of(alloc: Global, n: u64) -> Result<Vec<u32>, AllocError> {
    let mut blocks = Vec::new(alloc);
    let mut block: u32 = 1_000_000;
    for _ in 0..n {
        blocks.push(block)?;
        block = block.wrapping_sub(1);
    }
    Ok(blocks)
}
