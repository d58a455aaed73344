//! The free list of a group, filled from its free space or trimmed; and what events that edit a group in
//! the same way need: why one stops before its commit, reads of btrees, and a run that nobody owns.

mod asks;
mod edits;
mod fills;
mod halts;
mod marks;
mod refills;
mod spaces;
mod trims;

pub use asks::{found_record, last_record, next_records, owner_record};
pub use edits::{
    add_owner, commit_group, cut_owner, give_both, open_group, take_both, unless_left,
};
pub use halts::{Halt, halt_at};
pub use marks::tell_halt;
pub use refills::refill;
pub use spaces::{chosen_run, is_gate_open, sick_inodes, sick_space, tree_at, unless_owned};
