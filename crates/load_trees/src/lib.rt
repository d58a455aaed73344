//! The blocks of a new short-form btree are a tree of exactly the given list, and all of them at once.
#![tactic(auto)]

mod given;
mod laws;
mod unfit;
mod whole;

pub use laws::{loaded_blocks_are_trees, written_pieces_stand};
pub use unfit::Unfit;
pub use whole::load_tree;
