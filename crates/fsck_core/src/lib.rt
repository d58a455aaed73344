//! The core that repairs, as one value: a device is opened, every event is asked by a plain value, and in
//! the end the device and the journal come out of it.
#![tactic(auto)]

mod asks;
mod calls;
mod ends;
mod events;
mod glances;
mod groups;
mod noted;
mod opened;
mod opening;
mod scans;
mod writers;

pub use calls::act;
pub use ends::{any_sick, into_device};
pub use events::Event;
pub use glances::{glance, list_len};
pub use noted::{Core, run_event, with_notes};
pub use opening::open;
pub use scans::end_scan;
