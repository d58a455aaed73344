//! Finding one record of a short-form btree, its last one, or the next leaf's, by one way down from
//! the root.
#![tactic(auto)]

mod finder;
mod laws;
mod next;
mod places;
mod rightmost;
mod scan;

pub use finder::{find, find_site};
pub use laws::{finds_in_trees, gives_next_in_trees, last_in_trees};
pub use next::child_in;
pub use places::{place_after, records_after, start_for};
pub use rightmost::{last, last_site};
pub use scan::next_leaf;
