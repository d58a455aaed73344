//! The limbo of a group: blocks that no tree uses any more, each with the owner that reverse mappings
//! give it, until they are reaped. No call reads a device; only `merged` takes memory.
#![tactic(auto)]

mod limbo;
mod runs;

pub use limbo::{MOST_REAPED, Memory, merged, next, put, take_off, unit_owner};
pub use runs::LimboRun;
