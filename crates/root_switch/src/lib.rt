//! What the heads of a group are once the root of a rebuilt unit is switched: roots, levels and the
//! unit's counters; all else stays. No call reads a device or takes memory.
#![tactic(auto)]

mod heads;
mod totals;

pub use heads::{Heads, NewTree, Switch, heads_stand, put_heads, rooted};
pub use totals::{InodeTotals, SpaceTotals, blocks_beside_roots, inode_totals, space_totals};
