//! What a verdict means: one that is said to be good is true, a unit that stands is trusted, and
//! a session of a repair in which all units stand leaves no fault.
#![tactic(auto)]

mod ends;
mod truth;

pub use ends::{passed_stand, passes_compose, session_leaves_no_fault};
pub use truth::{said_is_true, standing_is_trusted};
