//! The calls of the core as plain values: what is asked of it, what it answers, and what its accessors
//! tell after an event. Nothing here asks a device.
#![tactic(auto)]

mod answers;
mod asks;

pub use answers::{Answer, Glance, Moved, OpenRefused, Phase, ScrubFault, WriteFault};
pub use asks::{Ask, event_of};
