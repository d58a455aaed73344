//! Asks a core for one event after another, as the lines of standard input say: `ask_events IMAGE REDO`
//! opens an image with its redo file beside it, and then each line is an event with its numbers, as
//! `map_first 0 16 4`. The answer is a line `answer ..`, and what the accessors tell a line `glance ..`.
//! Each entry that the event added to the journal has a line `entry ..`, and the last line is `done`.
//! The lines `kept GROUP`, `scan GROUP` and `chain CHAIN` ask what is kept in memory.
//!
//! It promises nothing but that it is safe and ends with its input. It is there so that lists of events
//! can be compared with a second derivation: tests/random_events.py does so.
#![tactic(auto)]

mod asked;
mod opened;
mod served;
mod shown;

use opened::open_device;
use served::serve;
use std::rt::Env;
use std::{env, io};

// The words of the command line, without the program's name.
fn words_of<R: Env + AllocGlobal>(rt: &R) -> io::Result<Vec<String>> {
    let mut words = Vec::new(rt.alloc());
    for word in env::args(rt)?.skip(1) {
        words.push(word)?;
    }
    Ok(words)
}

fn main(rt: HostRuntime) -> io::Result<()> {
    let words = words_of(&rt)?;
    let [image, redo] = words.as_slice() else {
        return Ok(());
    };
    let dev = open_device(&rt, rt.alloc(), image.as_str(), redo.as_str())?;
    serve(&rt, rt.alloc(), dev)
}
