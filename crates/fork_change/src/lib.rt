//! Changes of a fork's list of mappings: one is added, a piece of one is taken out, or made written.
//! No call reads a device; a list changes only once its new form is known to fit.
#![tactic(auto)]

mod change;
mod joins;
mod lists;
mod written;

pub use change::{ForkChange, add, convert, take};
pub use joins::MOST_MAPPED;
pub use written::{put_list, sound_fits};
