//! The drain of unfinished intents: the open chains, the gate of each group, and who holds which
//! inode. All room is taken when it is made; no call reads a device.
#![tactic(auto)]

mod chains;
mod drain;
mod gates;
mod holds;

pub use chains::MOST_CHAINS;
pub use drain::{Drain, Memory};
pub use gates::Gate;
pub use holds::{Hold, Holder, MOST_HOLDS};
