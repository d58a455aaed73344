//! The end of a rebuild: the switch to the new btrees, the reaping of what waits to be freed, and the
//! reopening of a group.
#![tactic(auto)]

mod calls;
mod freed;
mod reaps;
mod reopens;
mod settle;
mod switches;

pub use freed::{put_freed, room_for_freed};
pub use reaps::reap_piece;
pub use reopens::reopen;
pub use switches::switch;
