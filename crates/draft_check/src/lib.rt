//! What an edit made in memory is compared with before any of it is joined to a transaction.
#![tactic(auto)]

mod blocks;
mod laws;
mod moved;
mod same;
mod stamped;

pub use blocks::{all_placed, are_theirs, none_of};
pub use laws::{joins_as_made, keeps_joined, puts_as_made};
pub use moved::are_moved;
pub use same::are_same;
pub use stamped::are_stamped;
