// The time of one turn, and of one lock of a Mutex, with several threads at once.
ghost use Rattle.std.specs.Thread.{IsSync};

use crate::journal::Journal;
use crate::passes::{Work, opened, write_in_threads};
use std::alloc::Global;
use std::io;
use std::rt::Clock;
use std::sync::{Mutex, Wait};
use std::thread::{self, Threads};
use std::time::Instant;
use turn_lock::ACTORS;

// How many turns all threads take together.
const TURNS: u32 = 1_600_000;

fn no_memory() -> io::Error {
    io::Error::new(io::ErrorKind::OutOfMemory, "memory")
}

// Nanoseconds of each of all turns since then.
fn each_since<R: Clock>(rt: &R, start: &Instant) -> io::Result<u128> {
    Ok(start.elapsed(rt)?.as_nanos() / u128::from(TURNS))
}

/// Nanoseconds for each turn of so many threads, for which a pass of all actors is split so many
/// times over.
pub(crate) fn lock_time<R: Threads + Wait + Clock + Sync>(
    rt: &R,
    alloc: Global,
    splits: u32,
    threads: u32,
) -> io::Result<u128>
    requires { IsSync R.row }
{
    let start = Instant::now(rt)?;
    let Ok((lock, pass)) = opened(alloc) else {
        return Err(no_memory());
    };
    let turns = TURNS / threads.max(1);
    let pass = write_in_threads(&lock, rt, pass, 0, ACTORS, Work { splits, turns });
    let time = each_since(rt, &start);
    if lock.close(pass).is_err() {
        return Err(no_memory());
    }
    time
}

/// The same by a Mutex round the same journal.
pub(crate) fn mutex_time<R: Threads + Wait + Clock + Sync>(
    rt: &R,
    alloc: Global,
    threads: u32,
) -> io::Result<u128>
    requires { IsSync R.row }
{
    let journal = Mutex::new(Journal::new(alloc));
    let turns = TURNS / threads.max(1);
    let start = Instant::now(rt)?;
    let done = thread::map_indices(
        rt,
        alloc,
        threads as usize,
        &|_| add_all(rt, &journal, turns),
    );
    if done.is_err() {
        return Err(no_memory());
    }
    each_since(rt, &start)
}

fn add_all<W: Wait>(rt: &W, journal: &Mutex<Journal>, turns: u32) {
    for number in 0..turns {
        journal.lock(rt).add(number);
    }
}
