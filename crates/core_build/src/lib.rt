//! The part of a rebuild that a unit does before its switch: blocks are reserved for its new btrees one by
//! one, and the new blocks are staged on them.
#![tactic(auto)]

mod block_edits;
mod block_notes;
mod build_parts;
mod piece_phase;
mod reserving;
mod stagings;

pub use reserving::reserve_piece;
pub use stagings::stage_piece;
