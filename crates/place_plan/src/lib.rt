//! The way of an edit in place through a short-form btree, before anything is changed: the blocks that
//! it will change, and how many of the free list's blocks it needs.
#![tactic(auto)]

mod ask;
mod beside;
mod few;
mod leaf;
mod open;
mod plan;
mod sizes;
mod way;

pub use ask::{Ask, Seen, Spot};
pub use few::{FewBlocks, MOST_FEW};
pub use leaf::place_in;
pub use plan::Plan;
pub use sizes::{least, most};
pub use way::{pair_at, plan_below};
