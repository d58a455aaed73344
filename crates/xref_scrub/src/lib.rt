//! Comparison of an index with its derivation: what is missing and what is extra, in key order.
#![tactic(auto)]

mod cursors;
mod indexed;
mod kinds;
mod laws;
mod numbers;
mod pieces;

pub use indexed::Indexed;
pub use laws::{none_exactly_if_equal, pieces_join};
pub use pieces::{compare, compare_piece};
