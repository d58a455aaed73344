//! What a writer's entry keeps: chunks and inode btrees, settled owners, claims on a block, each block's numbers,
//! and reverse mappings that tell settled owners.
#![tactic(auto)]

pub mod beside_laws;
pub mod change_laws;
pub mod fork_laws;
pub mod held_laws;
pub mod inode_laws;
pub mod run_laws;
pub mod told_laws;
