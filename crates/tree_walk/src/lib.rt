//! All that reads a short-form btree of a group: the walk, which gives what a tree holds or its first
//! fault, and, from crates of their own, what an unreadable tree still claims, the record with a key,
//! the last record, the next leaf, a leaf with the blocks that are first met with it, and the records
//! that have a block of a run.
#![tactic(auto)]

mod enter;
mod leaf;
mod seen;
mod walker;

pub use tree_blocks::{TreeAt, TreeRead, WalkFault};
pub use tree_claims::claimed;
pub use tree_cover::covering;
pub use tree_find::{find, last, next_leaf};
pub use tree_pieces::path_piece;
pub use walker::{walk, walk_site};
