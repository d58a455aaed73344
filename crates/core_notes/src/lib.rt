//! What is noted of each writer since its last reply, and the reply that is made of it. Nothing here asks
//! a device or takes memory.
#![tactic(auto)]

mod note;
mod notes;
mod refusals;

pub use note::{Asker, Note};
pub use notes::{MOST_WRITERS, Notes};
