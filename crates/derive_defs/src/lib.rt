//! What the btrees of free space and of reference counts must hold: both follow from the records of
//! the reverse mapping btree. And what the counters of a group's head must be.
#![tactic(auto)]

mod counters;
mod free;
mod laws;
mod shared;
mod sorting;

pub use counters::{free_blocks, longest};
pub use free::free_of;
pub use laws::{mappings_fit, only_by_count, only_free, only_shared};
pub use shared::shared_of;
pub use sorting::by_count;
