//! The jobs that let writers run, and the top call of all jobs: a scrub beside scripted writers, and a
//! drill of both on an image of its own.
#![tactic(auto)]

mod damage;
mod drilling;
mod drills;
mod ending;
mod running;
mod scripts;
mod telling;
mod texts;
mod top;
mod words;

// What a caller hands in and gets back, so that it names this crate alone.
pub use live_fs::{Gate, NoGate, Point};
pub use top::fsck_live;
pub use xscrub::{Finding, RunEnd, fsck_main, tell};
