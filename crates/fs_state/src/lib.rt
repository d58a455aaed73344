//! What an image of an XFS file system stands for: the plain state, who claims which block of it, and
//! what an event that writes some blocks leaves as it was.
//! What each index of a group should hold, where it differs from that, and what contradicts the
//! derivation: definitions over the plain state.
#![tactic(auto)]

mod derive_laws;
mod intent;
mod laws;
mod plan;

pub use derive_laws::{
    inodes_from_listing, no_faults_exactly, no_overlap_exactly, owners_from_parts,
    space_from_mappings, worked_image,
};
pub use intent::{Intent, IntentKind};
pub use laws::{
    bad_trees_stand, edit_law, forks_of_inodes, frame_law, group_law, limbo_is_a_set, opening_law,
};
pub use plan::Plan;
