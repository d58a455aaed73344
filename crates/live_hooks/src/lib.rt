//! Who hears of what a scan of all inodes finds, and of what writers change behind it.
#![tactic(auto)]

mod hooks;
mod inodes;
mod laws;
mod listener;
mod records;
mod silent;

pub use hooks::{tell_delta, tell_piece, want};
pub use inodes::{tell_inode, tell_last};
pub use laws::{given_back, hears_all, hears_none, passes_none};
pub use listener::Listener;
pub use records::GroupRec;
pub use silent::NoListener;
