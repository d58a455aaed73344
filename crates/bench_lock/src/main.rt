//! Measures a turn of the lock beside std's `Mutex`: `bench_lock turns` prints the time of each
//! with 1, 2, 4 and 16 threads. With no word it measures nothing and prints nothing.
#![tactic(auto)]

mod journal;
mod measure;
mod passes;

use measure::{lock_time, mutex_time};
use std::io;

fn main(rt: HostRuntime) -> io::Result<()> {
    for word in std::env::args(&rt)?.skip(1) {
        if word.as_str() != "turns" {
            return Err(io::Error::new(
                io::ErrorKind::InvalidInput,
                "bench_lock knows no such word",
            ));
        }
        for splits in [0, 1, 2, 4] {
            let threads = 2u32.saturating_pow(splits);
            let turn = lock_time(&rt, rt.alloc(), splits, threads)?;
            let lock = mutex_time(&rt, rt.alloc(), threads)?;
            println!(&rt; "{threads} threads: {turn} ns a turn, {lock} ns a lock of a Mutex")?;
        }
    }
    Ok(())
}
