//! What a short-form btree is: what a walk of it reads, the tree by its levels, what it claims
//! where it can't be read, and how large it may be.
#![tactic(auto)]

mod laws;
mod site;

pub use laws::{
    blocks_differ, claims_are_listed, counts_blocks, has_few_levels, reads_own_blocks, reads_trees,
    stays_readable,
};
pub use site::Site;
