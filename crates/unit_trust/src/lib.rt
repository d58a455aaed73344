//! What is known of the units of each group, and what the journal says of them: definitions and laws alone.
#![tactic(auto)]

mod laws;

pub use laws::{journal_agrees, lacks_alike};
