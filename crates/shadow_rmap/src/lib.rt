//! The owners of a group's blocks as a scan in progress knows them.
#![tactic(auto)]

mod listening;
mod shadow;
mod union;

pub use shadow::Shadow;
