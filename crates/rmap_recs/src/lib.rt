//! Reverse mapping records: their owners and offset words, their place in the blocks of their
//! btree, and the maximal runs of who owns which block.
#![tactic(auto)]

mod kind;
mod laws;
mod owner;
mod records;
mod tuples;
mod words;

pub use kind::RmapKind;
pub use laws::one_list;
pub use owner::Owner;
pub use records::{Key, RmapRec};
pub use tuples::{Memory, Tuple, runs};
pub use words::{ATTRIBUTE, FORK_TREE, OFFSETS, UNWRITTEN, does_word_go_on, is_fork_data};
