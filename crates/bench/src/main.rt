//! Measures the checksum, fast and plain: `bench crc32c` prints bytes per second of each.
//! With no word it measures nothing and prints nothing.
#![tactic(auto)]

mod rates;

use rates::{Body, last_sum};
use std::io;
use std::time::CpuClock;

// How many blocks each body goes over: 64 MiB and 2 MiB.
const FAST_BLOCKS: u32 = 16_384;

const PLAIN_BLOCKS: u32 = 512;

fn report<R: Print + CpuClock>(rt: &R, name: &str, body: Body, blocks: u32) -> io::Result<()> {
    let start = rt.thread_cpu_time()?;
    let sum = last_sum(body, blocks);
    let time = rt.thread_cpu_time()?.saturating_sub(start);
    let rate = rates::bytes_per_second(blocks, time);
    println!(rt; "{name}: {rate} bytes per second over {blocks} blocks, the last sum {sum:08x}")
}

fn main(rt: HostRuntime) -> io::Result<()> {
    for word in std::env::args(&rt)?.skip(1) {
        match word.as_str() {
            "crc32c" => {
                report(&rt, "crc32c", Body::Fast, FAST_BLOCKS)?;
                report(&rt, "plain_crc32c", Body::Plain, PLAIN_BLOCKS)?;
            }
            _ => return Err(io::Error::new(
                io::ErrorKind::InvalidInput,
                "bench knows no such word",
            )),
        }
    }
    Ok(())
}
