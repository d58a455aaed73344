//! Files as writers change them: whether an inode is a file that can be changed, its core with the list
//! of its mappings, and a changed core in a transaction.
#![tactic(auto)]

mod asks;
mod cores;
mod files;
mod listed;
mod mapped;
mod puts;
mod reads;
mod stop;

pub use asks::check_file;
pub use files::{File, read_file};
pub use mapped::{are_fit, is_range_mapped};
pub use puts::put_file;
pub use stop::FileStop;
