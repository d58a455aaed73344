//! One pass over the forks of all inodes: what each group's blocks are claimed for, or the first fork
//! that can't be read.
#![tactic(auto)]

mod block;
mod fork;
mod inode;
mod notes;
mod pass;
mod pieces;
mod sets;

pub use pass::{ForksSeen, read_forks};
