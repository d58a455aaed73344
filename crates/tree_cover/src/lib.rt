//! The first record of a btree, above a key, that has a block of a run: found through the nodes'
//! keys, in at most two blocks a level.
#![tactic(auto)]

mod covers;
mod entry;
mod laws;
mod leaf;
mod search;
mod top;

pub use covers::Covers;
pub use laws::{looks_at_all, meets_by_block, searches_trees, staging_meets_none};
pub use top::covering;
