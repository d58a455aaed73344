//! New short-form btrees of a given list: their shape, and their blocks.
#![tactic(auto)]

mod areas;
mod header;
mod keys;
mod laws;
mod leaf;
mod levels;
mod load;
mod memory;
mod rows;

pub use laws::{blocks_hold_the_list, shapes_hold_all};
pub use leaf::lone_leaf;
pub use levels::{counts, shape};
pub use load::{PIECE, load_piece};
pub use memory::Memory;
pub use rows::Shape;
