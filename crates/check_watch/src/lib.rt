//! How far a check is, for whoever waits for it. What is heard is for a person alone: no clause of a
//! check speaks of it, and nothing of the report depends on it.
#![tactic(auto)]

mod watch;

pub use watch::{NoWatch, Phase, Watch};
