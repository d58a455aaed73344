//! The check of a group's inodes on a quiet image: what its btrees and cores say, as verdict.
#![tactic(auto)]

mod chunks;
mod entries;
mod evidence;
mod faults;
mod inodes;
mod judge;
mod space;
mod units;

pub use chunks::chunks_of;
pub use entries::add_judged;
pub use evidence::{later_in, tree_evidence};
pub use faults::{add_counter, blocks_in, index_faults, inode_faults};
pub use inodes::check_inodes;
pub use judge::{InodesJudged, Judged, judge_inodes};
pub use space::{judge_counts, judge_free_space};
pub use units::{Listed, list_units};
