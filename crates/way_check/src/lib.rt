//! Whether blocks that an edit made in memory are those of its tree, by the blocks on its way alone.
#![tactic(auto)]

mod laws;
mod leaf;
mod node;
mod span;
mod walk;
mod way;

pub use laws::{made_reads, ways_read};
pub use leaf::is_leaf;
pub use node::is_node;
pub use walk::is_made;
pub use way::does_pass;
