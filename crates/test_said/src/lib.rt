//! Worked rows: journals of whole sessions on small images that tell the truth, and entries that
//! don't.
#![tactic(auto)]

mod rows;

pub use rows::{
    check_of_heads, check_of_inodes, check_of_mappings, checks, false_causes, false_counts,
    false_faults, false_goods, left_in_limbo, no_block_left, not_ready, nothing_said,
    rebuilt_free_space, rebuilt_inodes, rebuilt_mappings, repairs_of_nothing, unmade,
};
