//! A list of records that rises by key, edited record by record.
#![tactic(auto)]

mod edits;
mod fault;
mod laws;
mod places;

pub use edits::{Edit, edit_list};
pub use fault::ListFault;
pub use laws::edits_keep_lists;
