//! What a change of a file system is: what an entry of the journal says of the states before and after
//! it, what a whole journal says, what a new session keeps, and what a scan has seen.
#![tactic(auto)]

mod laws;

pub use laws::{
    change_pending, changes_one_group, cursor_passes, decided_stands, first_event_keeps, gift_done,
    gift_pending, groups_behind, hold_begins, hold_ends, inodes_derived_again, keeps_other_inodes,
    keeps_other_trees, leads_compose, mappings_derived_again, one_set, piece_gives,
    reserve_counts_alike, sessions_begin, sessions_compose, shadow_gains, shadow_loses,
    space_derived_again, step_moves, taken_keeps_chunks, taking_done, taking_pending,
    worked_records,
};
