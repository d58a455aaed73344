//! What stands before a repair: a change that waits in the redo file is finished, superblock and heads
//! are tested.
#![tactic(auto)]

mod door;
mod no_entry;

pub use door::pass_door;
pub use no_entry::NoEntry;
