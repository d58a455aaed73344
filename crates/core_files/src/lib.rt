//! First events of writers, by which a file's list of mappings changes, and inodes that are taken and given
//! back, each one commit.
#![tactic(auto)]

pub mod chunks;
pub mod first;
pub mod inodes;
pub mod maps;
pub mod shares;
