//! The reverse mappings of a group judged: what all forks and the group's own metadata claim, against the
//! btree.
#![tactic(auto)]

mod judge;

pub use judge::judge_mappings;
