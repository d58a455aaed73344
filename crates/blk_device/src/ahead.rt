// Blocks of an image that another thread reads while the one that judges them goes on.
ghost use Rattle.std.specs.Prelude.{◌≡◌, IfSome, is_some, true};
ghost use Rattle.blk_device.specs.Window.{block_in};

use crate::window::{READ_AHEAD_BLOCKS, Window};
use rtrb::{Consumer, Producer, RingBuffer};
use std::alloc::{AllocError, Global};
use std::os::unix::fs::FileExt;
use std::rt::Clock;
use std::thread;
use std::time::Duration;

// How many runs may be told before the first of them was read; those behind are read as they are asked for.
const TOLD_RUNS: usize = 64;

// How many windows there are to read into, beside the one that the device holds.
const WINDOWS: usize = 16;

// A thread that finds nothing to do looks so many times more before it sleeps, which takes about as long as to
// judge the btrees of some groups, and then sleeps so long each time.
const TURNS_AWAKE: u32 = 20_000;

const PAUSE_MICROS: u64 = 100;

// A run of blocks that will be asked for.
#[derive(Clone, Copy, Drop)]
struct ToldRun {
    at: u64,
    count: u64,
}

/// The end of a reading thread that a device holds. It tells the thread which blocks will be asked for,
/// and takes those that were read. Dropping it ends the reading.
#[derive(Drop)]
pub struct ReadAhead {
    told: Producer<ToldRun>,
    filled: Consumer<Window>,
    spare: Producer<Window>,
}

impl ReadAhead {
    /// Tells that so many blocks from `at` on will be asked for. What there is no room for isn't read ahead.
    pub(crate) fn tell(&mut self, at: u64, count: u64) {
        let _ = self.told.push(ToldRun { at, count });
    }

    /// The window that holds a block, if it is there. Those that were read before it and not asked for go
    /// back; one that begins behind it stays.
    pub(crate) fn take(&mut self, at: u64) -> Option<Window>
        ensures held { IfSome result (λ window. is_some (block_in window at) ≡ true) }
    {
        for _ in 0..WINDOWS {
            if !self.is_next_by(at) {
                return None;
            }
            let window = self.filled.pop().ok()?;
            if window.holds(at) {
                return Some(window);
            }
            self.give_back(window);
        }
        None
    }

    // Whether there is a window, and the first one doesn't begin behind a block.
    fn is_next_by(&mut self, at: u64) -> bool {
        match self.filled.peek() {
            Ok(window) => window.begins_by(at),
            Err(_) => false,
        }
    }

    /// Gives a window back that is used up, to be filled anew.
    pub(crate) fn give_back(&mut self, window: Window) {
        let _ = self.spare.push(window);
    }
}

// The other end, with a handle of the image's file: what reads in a thread of its own.
#[derive(Drop)]
struct AheadReader<F: Drop> {
    file: F,
    told: Consumer<ToldRun>,
    left: Option<ToldRun>,
    spare: Consumer<Window>,
    filled: Producer<Window>,
}

impl<F: FileExt + Drop> AheadReader<F> {
    // Reads what is told until the device is gone.
    fn serve<C: Clock>(mut self, clock: &C) {
        let mut idle = 0;
        for _ in 0..u64::MAX {
            if self.told.is_abandoned() {
                return;
            }
            if self.read_next() {
                idle = 0;
            } else {
                idle = rest(clock, idle);
            }
        }
    }

    // Reads one window more of what was told, if there is something to read and a window to read it into.
    fn read_next(&mut self) -> bool {
        let Some(run) = self.next_run() else {
            return false;
        };
        let Ok(mut window) = self.spare.pop() else {
            return false;
        };
        let count = run.count.min(READ_AHEAD_BLOCKS as u64);
        window.fill_from(&self.file, run.at, count);
        let _ = self.filled.push(window);
        self.left = behind(run, count);
        true
    }

    // What is left of the run that is read, or the next one.
    fn next_run(&mut self) -> Option<ToldRun> {
        if self.left.is_none() {
            self.left = self.told.pop().ok();
        }
        self.left
    }
}

// What is left of a run behind its first blocks.
fn behind(run: ToldRun, count: u64) -> Option<ToldRun> {
    let left = run.count.saturating_sub(count);
    let at = run.at.checked_add(count)?;
    if left == 0 {
        return None;
    }
    Some(ToldRun { at, count: left })
}

// Lets other threads go on, and sleeps once there was nothing to do for long. Answers how often it looked awake.
fn rest<C: Clock>(clock: &C, idle: u32) -> u32 {
    if idle < TURNS_AWAKE {
        thread::yield_now();
        return idle.saturating_add(1);
    }
    thread::sleep(clock, Duration::from_micros(PAUSE_MICROS));
    idle
}

// Both ends of reading ahead. Fails for want of memory.
fn read_ahead_of<F: Drop>(
    alloc: Global,
    file: F,
) -> Result<(ReadAhead, AheadReader<F>), AllocError> {
    let (told, told_to) = RingBuffer::new(alloc, TOLD_RUNS)?;
    // The device gives its own window back for the first one that it takes.
    let (filled_by, filled) = RingBuffer::new(alloc, WINDOWS + 1)?;
    let (mut spare, spare_of) = RingBuffer::new(alloc, WINDOWS + 1)?;
    for _ in 0..WINDOWS {
        let _ = spare.push(Window::new(alloc));
    }
    let reader = AheadReader {
        file,
        told: told_to,
        left: None,
        spare: spare_of,
        filled: filled_by,
    };
    Ok((
        ReadAhead {
            told,
            filled,
            spare,
        },
        reader,
    ))
}

/// Where files are handed to a thread that reads ahead of devices, one device after the other.
#[derive(Drop)]
pub struct ReaderQueue<F: Drop> {
    waiting: Producer<AheadReader<F>>,
}

/// What serves those files, in a thread of its own.
#[derive(Drop)]
pub struct ReaderThread<F: Drop> {
    waiting: Consumer<AheadReader<F>>,
}

impl<F: Drop> ReaderQueue<F> {
    /// Hands a file to the thread, to be read as the device tells once the thread is done with those before.
    /// None where another file waits already, or there is no memory.
    pub fn begin(&mut self, alloc: Global, file: F) -> Option<ReadAhead> {
        let (ahead, reader) = read_ahead_of(alloc, file).ok()?;
        match self.waiting.push(reader) {
            Ok(()) => Some(ahead),
            Err(_) => None,
        }
    }
}

impl<F: FileExt + Drop> ReaderThread<F> {
    /// Reads one file after the other, each until its device is gone, and ends once the queue is gone.
    pub fn serve<C: Clock>(mut self, clock: &C) {
        let mut idle = 0;
        for _ in 0..u64::MAX {
            match self.waiting.pop() {
                Ok(reader) => reader.serve(clock),
                Err(_) if self.waiting.is_abandoned() => return,
                Err(_) => idle = rest(clock, idle),
            }
        }
    }
}

/// A queue of files and what serves it. Fails for want of memory.
pub fn reader_queue<F: Drop>(
    alloc: Global,
) -> Result<(ReaderQueue<F>, ReaderThread<F>), AllocError> {
    let (queue, thread) = RingBuffer::new(alloc, 1)?;
    Ok((
        ReaderQueue { waiting: queue },
        ReaderThread { waiting: thread },
    ))
}
