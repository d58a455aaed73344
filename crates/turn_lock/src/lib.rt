//! A lock of fair turns over one journal: each thread has a pass, which knows the prefix of the
//! journal that it has seen, which entries are its own, and for which actors it speaks.
#![tactic(auto)]

mod crossing;
mod lock;
mod pass;
mod recorded;
mod rule;
mod step;
mod turns;
mod view;

pub use lock::{LockFault, TurnLock};
pub use pass::Pass;
pub use recorded::{ACTORS, Recorded};
pub use view::View;
