//! A cache of image blocks: what it answers is what the device holds, whatever it keeps.
#![tactic(auto)]

mod cache;
mod stored;

pub use cache::{BlkCache, Memory};
