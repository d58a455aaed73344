//! The program: hands the words of the command line and a host over real files to the top call, and
//! ends with its status. Beside the report it says, on standard error, what wasn't looked at, what
//! it means that a unit was given up, and what to do after a repair; on a terminal also how far it is.
#![tactic(auto)]

mod guard;
mod mounts;

ghost use Rattle.std.specs.Thread.{IsSync};

use crate::guard::{Hold, hold_image};
use blk_device::reader_queue;
use image_hosts::{FileHost, ScriptHost, tell_status};
use live_jobs::{Finding, NoGate, fsck_live, fsck_main, tell};
use std::alloc::Global;
use std::io::{ErrorKind, IsTerminal};
use std::process::ExitCode;
use std::rt::Env;
use std::sync::Wait;
use std::thread::Threads;
use std::{env, io, thread};

// So many bytes are asked for and given back before anything else.
const KEPT_BYTES: usize = 8 << 20;

// The C library hands what is freed back to the system piece by piece, and the lists of the next group take
// new memory. Once it was given back as large a piece as this, it keeps as much for them.
fn keep_freed_memory(alloc: Global) {
    let _ = Vec::<u8>::with_capacity(alloc, KEPT_BYTES);
}

// The words of the command line, without the program's name.
fn words_of<R: Env + AllocGlobal>(rt: &R) -> io::Result<Vec<String>> {
    let mut words = Vec::new(rt.alloc());
    for word in env::args(rt)?.skip(1) {
        words.push(word)?;
    }
    Ok(words)
}

// Does what the words of the command line ask for, and answers the status.
fn run<R: Threads + Wait + Sync, H: ScriptHost>(
    alloc: Global,
    rt: &R,
    host: &mut H,
    words: io::Result<Vec<String>>,
) -> u8
where
    H::Dev: Drop,
    requires { IsSync R.row }
{
    match words {
        Ok(words) => fsck_live(rt, alloc, host, &NoGate, words.as_slice()).status,
        Err(fault) if fault.kind() == ErrorKind::OutOfMemory => {
            tell(alloc, host, Finding::Memory(Vec::new(alloc)))
                .status
                .code()
        }
        // A word that isn't UTF-8 leaves a list of words that asks for nothing.
        Err(_) => fsck_main(alloc, host, &[]).status,
    }
}

// Whether there is a processor for a second thread.
fn has_second_processor<R: Threads>(rt: &R) -> bool {
    match thread::available_parallelism(rt) {
        Ok(count) => count.get() > 1,
        Err(_) => false,
    }
}

fn main(rt: HostRuntime) -> ExitCode {
    let alloc = rt.alloc();
    keep_freed_memory(alloc);
    let mut host = FileHost::new(alloc, &rt, rt.stderr().is_terminal());
    // An image that is checked is read ahead by a thread of its own, which ends with the program.
    if let (true, Ok((queue, readers))) = (has_second_processor(&rt), reader_queue(alloc)) {
        let clock = rt;
        if thread::spawn(&rt, move || readers.serve(&clock)).is_ok() {
            host = host.with_readers(queue);
        }
    }
    let words = words_of(&rt);
    // The image is this program's until it ends.
    let hold = match &words {
        Ok(words) => hold_image(alloc, &rt, words.as_slice()),
        Err(_) => Hold::Free,
    };
    let status = match hold {
        Hold::Busy => tell(alloc, &mut host, Finding::HostFailed).status.code(),
        Hold::Held(_) | Hold::Free => run(alloc, &rt, &mut host, words),
    };
    tell_status(&rt, status, host.is_changing());
    ExitCode::from(status)
}
