//! Shows what the 512 bytes of an inode on standard input say: a line `NAME VALUE` for each field of
//! the core, then each fork with what the inode itself holds of it. A core that fails a test is one
//! line, `core FAULT`. Its number and its UUID are those in the bytes.
//!
//! With the words `IMAGE INODE ..` it shows instead both forks of each of these inodes of an image,
//! their btrees included: `FORK map OFFSET BLOCK COUNT FLAG` and `FORK tree BLOCK`, by file system
//! blocks.
//!
//! It promises nothing but that it is safe and ends. It is there so that what dinode_core and fork_read
//! read can be compared with what other tools say of the same inode: tests/real_inodes.sh does so.
#![tactic(auto)]

mod fields;
mod forks;
mod whole;

use byte_fields::get_u64;
use dinode_core::{Core3, Fork, decode_core};
use fields::show_fields;
use forks::show_fork;
use std::env;
use std::io::{self, Read};
use std::rt::{Env, Files};
use whole::show_whole;

fn show<R: Print>(rt: &R, core: &Core3) -> io::Result<()> {
    show_fields(rt, core)?;
    show_fork(rt, core, Fork::Data)?;
    show_fork(rt, core, Fork::Attr)
}

// Shows the inode on standard input.
fn show_given<R: Print, I: Read>(rt: &R, input: &mut I) -> io::Result<()> {
    let mut bytes = [0; 512];
    input.read_exact(&mut bytes)?;
    let mut uuid = [0; 16];
    uuid.copy_from_slice(&bytes[160..176]);
    match decode_core(&bytes, get_u64(&bytes, 152), &uuid) {
        Ok(core) => show(rt, &core),
        Err(fault) => println!(rt; "core {fault}"),
    }
}

// Shows inodes of an image; a word that is no number stands for inode 0.
fn show_named<R: Files + Print + AllocGlobal>(rt: &R, words: &[String]) -> io::Result<()> {
    let [image, rest @ ..] = words else {
        return Ok(());
    };
    let mut inodes = Vec::new(rt.alloc());
    for word in rest {
        inodes.push(word.as_str().parse::<u64>().unwrap_or(0))?;
    }
    show_whole(rt, rt.alloc(), image.as_str(), inodes.as_slice())
}

// The words of the command line, without the program's name.
fn words_of<R: Env + AllocGlobal>(rt: &R) -> io::Result<Vec<String>> {
    let mut words = Vec::new(rt.alloc());
    for word in env::args(rt)?.skip(1) {
        words.push(word)?;
    }
    Ok(words)
}

fn main(rt: HostRuntime) -> io::Result<()> {
    let words = words_of(&rt)?;
    if words.is_empty() {
        return show_given(&rt, &mut rt.stdin());
    }
    show_named(&rt, words.as_slice())
}
