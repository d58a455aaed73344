//! The full check of a quiet image: the units of all groups in their phases, each with its entries.
#![tactic(auto)]

mod heads;
mod inodes;
mod lacks;
mod laws;
mod part;
mod space;
mod tally;

pub use heads::read_all_heads;
pub use inodes::check_inodes;
pub use lacks::{inodes_lacked, mappings_lacked};
pub use laws::{
    check_is_session, cut_is_session, passed_can_be_read, phases_are_session, phases_in_order,
};
pub use part::{Part, check_inode_part, check_space_part, groups_in};
pub use space::check_space;
pub use tally::Tally;
