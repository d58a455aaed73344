//! Inodes that a writer takes and gives back: from a chunk that is there, or from a new one.

mod ends;
mod gives;
mod makes;
mod takes;

pub use gives::give_inode;
pub use takes::take_inode;
