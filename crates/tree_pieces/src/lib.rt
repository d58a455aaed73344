//! A short-form btree leaf by leaf: the records of each with the blocks that are first met with it.
#![tactic(auto)]

mod below;
mod laws;
mod piece;

pub use laws::{gives_pieces, sums_to_walk};
pub use piece::{path_piece, piece_site};
