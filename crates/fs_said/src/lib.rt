//! What a session's journal says is so: how far the work on each unit is, and what that lets its next
//! entry say.
#![tactic(auto)]

mod laws;

pub use laws::{faults_are_found, says_compose, truly_leads};
