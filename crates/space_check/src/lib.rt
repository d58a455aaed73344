//! What a check of an image is made of: why it ends, its journal, and the faults of a group's free
//! space and reference counts, counters included, by what its reverse mappings give.
#![tactic(auto)]

mod faults;
mod halt;
mod journal;
mod judge;
mod reads;
mod stop;
mod trees;

pub use faults::{add_blocks, unreadable};
pub use halt::Halt;
pub use journal::{Journal, MAX_ENTRIES};
pub use judge::{judge_free, judge_shared};
pub use reads::{IndexRead, read_index};
pub use stop::CheckStop;
pub use trees::{bno_tree, cnt_tree, refc_tree, rmap_tree};
