//! The blocks that an edited tree of a group stands in: those that it had, and some of the group's
//! free list; and where the blocks go that are left over.
#![tactic(auto)]

mod choice;
mod laws;

pub use choice::{LIST_MOST, choose, give_back, make_room, take_from};
pub use laws::each_block_once;
