//! How the work on a unit of a group begins: it is opened, the scan of all inodes goes on for it, and the
//! gate of its group is closed.
#![tactic(auto)]

mod closing;
mod giving;
mod moves;
mod needs;
mod pieces;
mod starts;
mod taking;
mod whole;

pub use closing::close;
pub use moves::advance;
pub use pieces::scan_piece;
pub use starts::start;
pub use whole::end_scan;
