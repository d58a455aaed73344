//! Measures a set of claims: `bench_plan pieces` prints the time that each of 10,000, 100,000 and
//! 1,000,000 pieces takes to be put, to be asked for the first overlap and for the lowest spare
//! block, and to become the runs of its owner; `bench_plan rising` the same for pieces that are put
//! in the order of their blocks, and `bench_plan straying` where each 32nd of these comes last. With
//! no word it measures nothing and prints nothing.
#![tactic(auto)]

mod measure;

use measure::{Order, measured};
use std::io;

fn order_of(word: &str) -> io::Result<Order> {
    match word {
        "pieces" => Ok(Order::Scattered),
        "rising" => Ok(Order::Rising),
        "straying" => Ok(Order::Straying),
        _ => Err(io::Error::new(io::ErrorKind::InvalidInput, "bench_plan knows no such word")),
    }
}

fn main(rt: HostRuntime) -> io::Result<()> {
    for word in std::env::args(&rt)?.skip(1) {
        let order = order_of(word.as_str())?;
        for pieces in [10_000, 100_000, 1_000_000] {
            let spent = measured(&rt, rt.alloc(), order, pieces)?;
            let put = spent.put;
            let overlap = spent.overlap;
            let spare = spent.spare;
            let runs = spent.runs;
            println!(&rt;
                "{pieces} pieces: {put} ns a piece put, {overlap} ns first overlap, {spare} ns lowest spare block, {runs} ns runs"
            )?;
        }
    }
    Ok(())
}
