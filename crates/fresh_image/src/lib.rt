//! A new, sound image: each of its blocks as a function of its number, and all of them on a device.
#![tactic(auto)]

mod heads;
mod image;
mod inodes;
mod roots;
mod superblock;
mod written;

pub use image::fresh_block;
pub use written::write_fresh;
