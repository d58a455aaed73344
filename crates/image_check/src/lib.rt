//! The full check of a quiet image: its heads, what the three phases need of each other, and the phases
//! one after the other.
#![tactic(auto)]

mod check;
mod image;
mod mappings;
mod owners;
mod parts;
mod sets;

pub use check::check_image;
pub use image::check_units;
pub use mappings::{check_mapping_part, check_mappings};
pub use owners::fork_owners;
pub use parts::{give_up_part, skip_part};
pub use sets::take_set;
