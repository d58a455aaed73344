//! Rows that compute: which state a small image stands for, what its indexes should hold, and which
//! faults they have. They are equations that try the definitions of fs_state.
#![tactic(auto)]

mod rows;

pub use rows::{
    bad_core, cut_unmapping, file_on_heads, first_evidence, fresh_image, full_image, later_forms,
    lost_inodes, lost_mapping, moved_piece, rebuilt_free_space, rebuilt_inodes, rebuilt_mappings,
    root_outside, shared_block, short_free_space, three_claims, too_many_levels, two_groups,
    unread_fork, unread_free_space, unread_mappings, wrong_level, wrong_longest, wrong_sibling,
};
