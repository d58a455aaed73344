//! The place of a scan among all inodes, and the next inode that it comes to.
#![tactic(auto)]

mod chunk;
mod cursor;
mod laws;
mod search;
mod tree;

pub use cursor::Cursor;
pub use laws::{finds_first, first_is_least, reads_few, reads_in_bounds};
pub use tree::next_in_group;
