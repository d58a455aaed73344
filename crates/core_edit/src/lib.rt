//! One change of one group: its six trees, free list and heads, as a transaction has them, edit by
//! edit, and the one commit that writes all of it or nothing; with the store of device, cache and edit
//! that an event needs, and what a unit's rebuild edits: a block reserved, a run reaped from limbo.
#![tactic(auto)]

mod blank;
mod close;
mod counts;
mod edits;
mod heads;
mod list;
mod one;
mod open;
mod owner;
mod owners;
mod place;
mod reap;
mod records;
mod reserve;
mod rmap;
mod space;
mod spans;
mod stop;
mod store;
mod walk;

pub use edits::{begin as open_edit, commit};
pub use heads::EditHeads;
pub use open::{Freed, FreedLens, OpenEdit};
pub use owner::give_owner;
pub use place::{EditPlace, IndexesLeft, Reap, Reserved, SickTrees, Spare};
pub use reap::reap_run;
pub use reserve::{reserve_listed, reserve_spare};
pub use space::{SpaceKinds, SpaceLeft};
pub use stop::Stop;
pub use store::{MOST_KEPT, Store};
