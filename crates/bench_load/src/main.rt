//! Measures how a new btree is loaded: `bench_load records` prints, for trees of a million records of
//! each of two kinds, the time and the number of blocks. With no word it measures nothing and prints
//! nothing.
#![tactic(auto)]

mod loaded;

use loaded::{Sample, time_of};
use rmap_recs::{RmapKind, RmapRec};
use span_recs::{BnoKind, SpanRec};
use std::io;

// Records of each tree.
const RECORDS: u32 = 1_000_000;

impl Sample for BnoKind {
    fn nth(n: u32) -> SpanRec {
        SpanRec {
            start: n.wrapping_add(1).wrapping_mul(2),
            count: 1,
        }
    }
}

impl Sample for RmapKind {
    fn nth(n: u32) -> RmapRec {
        RmapRec {
            start: n.wrapping_add(1).wrapping_mul(2),
            count: 1,
            owner: 200,
            word: u64::from(n),
        }
    }
}

fn main(rt: HostRuntime) -> io::Result<()> {
    for word in std::env::args(&rt)?.skip(1) {
        if word.as_str() != "records" {
            return Err(io::Error::new(
                io::ErrorKind::InvalidInput,
                "bench_load knows no such word",
            ));
        }
        let (blocks, time) = time_of::<BnoKind, _>(&rt, RECORDS)?;
        println!(&rt; "bno: {RECORDS} records, {blocks} blocks, {time} ms")?;
        let (blocks, time) = time_of::<RmapKind, _>(&rt, RECORDS)?;
        println!(&rt; "rmap: {RECORDS} records, {blocks} blocks, {time} ms")?;
    }
    Ok(())
}
