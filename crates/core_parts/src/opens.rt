//! What is read as an image is opened: the heads of all groups, and what is known of their btrees.

mod groups;
mod heads;
mod inodes;
mod open;
mod store;

pub use inodes::ino_trees;
pub use store::open_groups;
