//! Many blocks of a group joined to a transaction: with new bytes, or as they are; and how many
//! blocks the transaction would have then.
#![tactic(auto)]

mod count;
mod join;
mod laws;

pub use count::count_with;
pub use join::{join_found, join_put};
pub use laws::{count_grows, joins_each, joins_these_alone, puts_each};
