//! What the inode btrees and the reverse mapping btree of a group must hold: chunks from the two
//! listings and the cores, and reverse mappings from the claims on the group's blocks.
#![tactic(auto)]

mod inodes;
mod laws;
mod owners;
mod runs;
mod units;

pub use inodes::{UnitCores, free_mask, free_records, inode_records};
pub use laws::{only_free_records, only_inode_records, only_reverse_mappings};
pub use owners::{count_mappings, reverse_mappings};
pub use runs::joined_runs;
pub use units::{has_unit, listed_units};
