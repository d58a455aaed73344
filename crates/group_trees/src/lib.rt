//! The heads and btrees of a group as they are read, and what the group's own metadata claims.
#![tactic(auto)]

mod accept;
mod group;
mod heads;
mod metadata;
mod overlap;
mod reads;
mod runs;
mod trees;

pub use accept::{HeadsStop, read_heads};
pub use group::{GroupTrees, put_metadata, read_trees};
pub use heads::{GroupHeads, free_list, tree_at};
pub use metadata::{put_blocks, put_chunks, put_fixed};
pub use overlap::metadata_overlap;
pub use reads::{TreeSeen, read_tree};
pub use trees::{blocks_of, read_kind, recs_of};
