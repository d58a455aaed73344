//! A repair of an image that nobody changes meanwhile: what stands before it, a session over all units,
//! and the device with the journal behind it.
#![tactic(auto)]

mod forks;
mod repair;
mod sessions;
mod sound;
mod telling;

pub use repair::{Repair, Repaired, no_entry, open_quiet, repair_device};
pub use sessions::{session, take_answer};
pub use telling::{tell_passed, tell_started};
