//! How chains of writers begin and end: which inodes are files that may be changed, who holds them, and a
//! chain by its number.

mod begins;
mod ends;
mod finds;
mod holders;

pub use begins::begin;
pub use ends::{end, let_inodes_go};
pub use finds::{file_fault, read_inode};
pub use holders::is_held;
