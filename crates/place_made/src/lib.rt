//! An edit in place from a block of a tree down to its leaf and back up, by the blocks that it made.
#![tactic(auto)]

mod laws;

pub use laws::{edits_turn, trees_done};
