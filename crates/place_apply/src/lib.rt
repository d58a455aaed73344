//! An edit of a short-form btree in place, made in memory alone: the blocks on its way as they
//! become, the blocks that it takes from the free list and those that it frees.
#![tactic(auto)]

mod draft;
mod edits;
mod items;
mod leaf;
mod look;
mod node;
mod rewrite;
mod span;
mod task;

pub use edits::apply;
