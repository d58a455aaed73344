//! The open unit of a group, from its btrees as they are read leaf by leaf and the claims on the group's
//! blocks to the evidence and the lists that follow, the comparison with its btrees, and a rebuild: the
//! blocks that are reserved, the new blocks that are staged on them, and what a switch then writes.
#![tactic(auto)]

mod choice;
mod claimed;
mod claims;
mod compare;
mod concluding;
mod cores;
mod derivation;
mod evidence;
mod final_lists;
mod gather;
mod judging;
mod laws;
mod leaf;
mod lists;
mod needed;
mod orderly;
mod passed;
mod readiness;
mod rebuild;
mod released;
mod reserve;
mod room;
mod stage;
mod staging;
mod switched;
mod totals;
mod tree;
mod trees;

pub use choice::{Choice, choose};
pub use claims::{put_group, put_limbo, put_owners};
pub use compare::{Place, compare_piece};
pub use concluding::{all_claims, conclude};
pub use cores::CORES_PIECE;
pub use final_lists::{after_switch, lost_blocks};
pub use gather::{Gathered, Gathering, begin, gather_piece};
pub use judging::{Concluded, Judging};
pub use laws::pieces_are_faults;
pub use leaf::{Leaf, gather_leaf};
pub use lists::Lists;
pub use passed::pass_bad;
pub use readiness::ready;
pub use rebuild::{Next, Rebuild, begin_rebuild, choose_next, take_next};
pub use released::{Staged, make_room, release, what_switches};
pub use reserve::Building;
pub use stage::Staging;
pub use staging::stage_piece;
pub use switched::switched_heads;
pub use tree::gather_tree;
pub use trees::{BadTree, BadTrees, first_trees, gather_kind, next_kind};
