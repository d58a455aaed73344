//! The mappings of an inode's fork, piece by piece, with the blocks of its btree.
#![tactic(auto)]

mod block;
mod fault;
mod first;
mod inode;
mod judge;
mod laws;
mod piece;
mod seen;
mod tasks;
mod walk;

pub use fault::{ForkPiece, ReadFault};
pub use first::{first_fault, first_fault_of_core};
pub use laws::{
    first_fault_tells, pieces_are_few, pieces_are_parts, pieces_join, pieces_leave_rest,
    refusal_is_first,
};
pub use piece::{fork_piece, piece_of_core};
