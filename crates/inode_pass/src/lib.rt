//! One pass over the inodes of a group: the cores of the units that its btrees list.
#![tactic(auto)]

mod ahead;
mod load;
mod look;
mod note;
mod shown;
mod stop;
mod unit;
mod units;

pub use load::{load_block, read_block};
pub use note::{ForkNote, GroupInodes};
pub use stop::PassStop;
pub use unit::UnitSeen;
pub use units::see_units;
