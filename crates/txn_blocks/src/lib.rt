//! The blocks of a group as a transaction has changed them, so that a changed tree is read by the
//! same code as one on a device.
#![tactic(auto)]

mod edited;

pub use edited::{Edited, find_edited, walk_edited};
