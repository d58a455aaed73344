//! A tree of a group with a record put in, taken out or changed: a tree of one leaf is written
//! anew, and of a larger one the blocks on the edited way alone.
#![tactic(auto)]

mod anew;
mod checked;
mod drafted;
mod edits;
mod place;
mod stop;

pub use edits::{edit, edit_along};
pub use list_edit::Edit;
pub use tree_edit::EditFault;
