//! What pieces of claims are worth that stand for the claims on a group's blocks, handed in in any order: the
//! group's first overlap, and what its btree of reverse mappings must hold.
#![tactic(auto)]

mod laws;

pub use laws::{good_forks, mappings_of_group, overlap_of_group};
