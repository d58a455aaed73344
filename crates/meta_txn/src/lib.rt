//! Changes to image blocks that are written together: all of them, or none after a crash.
#![tactic(auto)]

mod commits;
mod fault;
mod laws;
mod list;
mod txn;
mod whole;

pub use fault::TxnFault;
pub use laws::changes_one_block;
pub use txn::Txn;
