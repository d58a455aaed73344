//! Which run of free space is taken, what an edit of free space makes of records beside a run, and
//! what a refill of a group's free list takes or gives. No call reads a device.
#![tactic(auto)]

mod choice;
mod list;
mod spans;

pub use choice::{GroupSpace, NoRun, Search, SickGroup, group_tried, last_unasked};
pub use list::{
    LEAST_LISTED, ListGoal, MOST_LISTED, Memory, WANTED_LISTED, blocks_to_give, list_goal,
};
pub use spans::{
    CHUNK_BLOCKS, MOST_MAPPED, Rest, aligned_run, first_fit, front, joined, rest_of, wanted_count,
};
