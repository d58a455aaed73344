//! What a chain still owes: its intents in their order, what is left of them after each step, and
//! the stretch of a reference count that one step changes. No call reads a device or takes memory.
#![tactic(auto)]

mod chain;
mod counts;
mod kinds;

pub use chain::{Chain, ChainInode, MOST_PUT};
pub use counts::{Stretch, first_stretch, one_count};
pub use kinds::{BLOCKS_A_STEP, Due, StepKind, due_falls, step_kind};
