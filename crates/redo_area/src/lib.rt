//! Batches of image blocks that a crash leaves whole or not at all, by copies in the redo region
//! behind a gate.
#![tactic(auto)]

mod area;
mod faults;
mod recovery;
mod table;

pub use area::{close_gate, install, open_gate, prepare};
pub use faults::{BatchFault, RedoFault};
pub use recovery::{recover, waiting};

/// The most blocks that one batch has.
pub const MAX_BATCH: usize = 160;

/// The blocks that a redo region has at least: the gate, the table and a copy for each block of the
/// largest batch.
pub const REDO_BLOCKS: u64 = 162;

/// The block of the redo region whose first byte tells whether a batch waits.
pub const GATE_BLOCK: u64 = 0;

/// The block of the redo region that has the numbers of a batch's blocks.
pub const TABLE_BLOCK: u64 = 1;

/// The block of the redo region where the copies of a batch's blocks begin.
pub const FIRST_COPY: u64 = 2;
