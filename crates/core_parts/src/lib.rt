//! The parts of the core that repairs: the device with its journal, what is kept of each group, and the
//! unit that is open in it, as far as its work is.
#![tactic(auto)]

mod book;
pub mod common;
mod desk;
mod groups;
pub mod opens;
mod parts;
mod units;

pub use book::{Book, MOST_ENTRIES, put_entry};
pub use desk::Desk;
pub use groups::{GroupKept, Passed, Trusts};
pub use parts::Parts;
pub use units::{UnitState, Work, phase_of, put_unit, take_unit};
