//! Blocks of a group with some of them changed in memory, before anything is joined to a transaction.
#![tactic(auto)]

mod draft;
mod over;

pub use draft::Draft;
pub use over::Over;
