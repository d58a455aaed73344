//! Inodes taken and given back: their bits in the records of a chunk, their cores, and the blocks of
//! a fresh chunk. No call reads a device or takes memory.
#![tactic(auto)]

mod cores;
mod masks;

pub use cores::{FILE_MODE, free_block, fresh_core, given_core};
pub use masks::{CHUNK_INODES, fino_record, fresh_chunk, give, lowest_free, take};
