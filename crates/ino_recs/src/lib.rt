//! The two inode kinds of short-form btree: chunks of inodes, and those of them in which some
//! inode is free.
#![tactic(auto)]

mod chunk;
mod fino;
mod ino;

pub use chunk::{InoKey, InoRec};
pub use fino::FinoKind;
pub use ino::InoKind;
