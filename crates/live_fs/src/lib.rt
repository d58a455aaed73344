//! One core for many threads: a scrubber and scripted writers take turns at it, an event a turn.
#![tactic(auto)]

mod acting;
mod binds;
mod chains;
mod crossing;
mod ends;
mod gate;
mod lines;
mod live;
mod origin;
mod pieces;
mod removing;
mod running;
mod scrubber;
mod sessions;
mod shared;
mod writer;
mod writers;

pub use ends::{LiveEnd, LiveStop, ScrubEnd, WriterEnd};
pub use gate::{Gate, NoGate, Point};
pub use live::LiveFs;
pub use origin::Origin;
pub use running::{Work, run_device};
pub use sessions::live_session;
pub use shared::Shared;
