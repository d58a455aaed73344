//! Writes the blocks of a new btree of a group to standard output, one after the other, in the order of
//! the blocks that are claimed for them. The words are
//!
//!     lay_tree KIND CLAIMED GROUP FIRST LENGTH AGBLOCKS AGCOUNT LAST AGBLKLOG LSN UUID UUID
//!
//! KIND is bno, cnt, rmap, refc, ino or fino, FIRST the device block of the group's block 0, LENGTH and
//! LAST the blocks of this and of the last group, and the UUID two numbers of eight bytes. The first
//! CLAIMED lines of standard input have a block of the group each, the others the numbers of a record.
//!
//! It promises nothing but that it is safe and ends. It is there so that new btrees can be read by other
//! tools: tests/real_trees.sh does so.
#![tactic(auto)]

mod given;
mod kinds;
mod laid;

use anyhow::{Result, bail};
use given::{Given, read_given};
use ino_recs::{FinoKind, InoKind};
use laid::write_tree;
use rmap_recs::RmapKind;
use span_recs::{BnoKind, CntKind, RefcKind};
use std::env;

fn write_kind<R: Print + AllocGlobal>(rt: &R, kind: &str, given: &Given) -> Result<()> {
    match kind {
        "bno" => write_tree::<BnoKind, R>(rt, given),
        "cnt" => write_tree::<CntKind, R>(rt, given),
        "rmap" => write_tree::<RmapKind, R>(rt, given),
        "refc" => write_tree::<RefcKind, R>(rt, given),
        "ino" => write_tree::<InoKind, R>(rt, given),
        "fino" => write_tree::<FinoKind, R>(rt, given),
        _ => bail!("there is no such kind"),
    }
}

fn main(rt: HostRuntime) -> Result<()> {
    let mut words = env::args(&rt)?.skip(1);
    let Some(kind) = words.next() else {
        return Ok(());
    };
    let mut numbers = [0; 12];
    for (number, word) in numbers.iter_mut().zip(words) {
        *number = word.as_str().parse::<u64>().unwrap_or(u64::MAX);
    }
    let given = read_given(&rt, numbers)?;
    write_kind(&rt, kind.as_str(), &given)
}
