//! Rows that compute: journals of writers and of repairs on the images of `test_states`, entry by
//! entry with the state after each; and entries that are no step.
#![tactic(auto)]

mod rows;

pub use rows::{
    behind_cursor, behind_stays, chunk_made, claims_kept, closed_gates, converted_piece,
    cut_reserved, cut_run, cut_switched, cut_unmapping, do_turn, either_root, fits_trees,
    forgotten_limbo, given_up_space, given_up_whole, growing_file, held_inode, inode_blocks,
    left_alone, limbo_due, list_left, list_moves, list_stays, list_taken, mapped_halfway,
    marked_once, marks_bounded, moves_by_block, need_grows, no_block_left, no_file,
    not_to_be_freed, not_to_be_given, not_to_be_marked, not_to_be_shared, not_to_be_switched,
    not_to_be_taken, nothing_to_do, owned_space, owner_found, rebuilt_free_space, rebuilt_inodes,
    rebuilt_mappings, rises_too_far, say_too_much, shared_piece, shrinking_file, tree_sizes,
    trims_behind, trims_front, trims_long, turns_front, turns_whole, uncounted,
};
