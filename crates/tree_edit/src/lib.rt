//! A tree of a group with a record put in, taken out or changed, as a change of a transaction.
#![tactic(auto)]

mod edits;
mod fault;
mod join;
mod laws;
mod make;
mod plan;
mod prepare;
mod read;
mod rewrite;
mod settle;

pub use edits::{change, insert, remove};
pub use fault::EditFault;
pub use join::join_tree;
pub use laws::joined_tree_is_read;
pub use list_edit::Edit;
pub use plan::{Plan, plan_blocks, plan_records};
