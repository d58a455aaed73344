// What a switch writes into the heads.
ghost use Rattle.std.specs.Prelude.{◌≡◌, ◌<◌, ◌^◌, length, IfSome, Some};
ghost use Rattle.core_units.specs.TreesFit.{HaveTotals};
ghost use Rattle.root_switch.specs.Rooted.{rooted_heads};
ghost use Rattle.root_switch.specs.Totals.{beside_roots};

use crate::Lists;
use ag_headers::{Agf, Agi};
use bulk_load::shape;
use group_trees::{GroupHeads, GroupTrees, TreeSeen};
use root_switch::{
    Heads, NewTree, Switch, blocks_beside_roots, inode_totals, rooted, space_totals,
};
use sblock::Kind;

// The new tree of so many records, which has the first blocks of these, and those that are left.
fn tree_on(kind: Kind, records: usize, reserve: &[u32]) -> Option<(NewTree, &[u32])>
    requires { length reserve.now < 2 ^ 32 }
    ensures few { IfSome result (λ made. length made.1.now < 2 ^ 32) }
{
    let form = shape(records as u64, kind);
    let blocks = form.blocks.min(reserve.len() as u64) as usize;
    let (own, rest) = reserve.split_at(blocks);
    let root = own.last()?;
    Some((
        NewTree {
            root: *root,
            levels: form.levels,
            blocks: blocks as u32,
        },
        rest,
    ))
}

// The number of a tree's blocks, if it can be read.
fn blocks_seen<R>(seen: &TreeSeen<R>) -> Option<u32> {
    match seen {
        TreeSeen::Whole(read) => u32::try_from(read.blocks.len()).ok(),
        TreeSeen::Bad { .. } => None,
    }
}

// The blocks of three beside their roots, where each has a root and all have a number.
fn beside_some(bno: u32, cnt: u32, rmap: u32) -> Option<u32>
    ensures { IfSome result (λ blocks. blocks ≡ beside_roots bno cnt rmap) }
{
    let all = u64::from(bno) + u64::from(cnt) + u64::from(rmap);
    if bno == 0 || cnt == 0 || rmap == 0 || all > u64::from(u32::MAX) {
        return None;
    }
    Some(blocks_beside_roots(bno, cnt, rmap))
}

// The blocks of the three beside their roots, where all can be read.
fn beside(bno: Option<u32>, cnt: Option<u32>, rmap: Option<u32>) -> Option<u32> {
    beside_some(bno?, cnt?, rmap?)
}

/// The new trees of a unit and its counters, on the first blocks of the reserve; the number of blocks
/// that are left of it is the second (XFS Online Fsck Design, "Writing the New Tree").
pub fn new_trees(
    counts_blocks: bool,
    trees: &GroupTrees,
    lists: &Lists,
    reserve: &[u32],
) -> Option<(Switch, usize)>
    requires few { length reserve.now < 2 ^ 32 }
    requires totals { HaveTotals lists.now }
{
    match lists {
        Lists::Inode { ino, fino } => {
            let (first, rest) = tree_on(Kind::Ino, ino.len(), reserve)?;
            let (second, rest) = tree_on(Kind::Fino, fino.len(), rest)?;
            let totals = inode_totals(ino.as_slice());
            let switch = Switch::Inode {
                ino: first,
                fino: second,
                count: totals.count,
                freecount: totals.freecount,
                counts_blocks,
            };
            Some((switch, rest.len()))
        }
        Lists::Rmap { rmap } => {
            let (first, rest) = tree_on(Kind::Rmap, rmap.len(), reserve)?;
            let bno = blocks_seen(&trees.bno);
            let cnt = blocks_seen(&trees.cnt);
            let switch = Switch::Rmap {
                rmap: first,
                btreeblks: beside(bno, cnt, Some(first.blocks)),
            };
            Some((switch, rest.len()))
        }
        Lists::Free { bno, cnt } => {
            let (first, rest) = tree_on(Kind::Bno, bno.len(), reserve)?;
            let (second, rest) = tree_on(Kind::Cnt, cnt.len(), rest)?;
            let totals = space_totals(cnt.as_slice());
            let rmap = blocks_seen(&trees.rmap);
            let switch = Switch::Free {
                bno: first,
                cnt: second,
                freeblks: totals.freeblks,
                longest: totals.longest,
                btreeblks: beside(Some(first.blocks), Some(second.blocks), rmap),
            };
            Some((switch, rest.len()))
        }
        Lists::Refc { refc } => {
            let (first, rest) = tree_on(Kind::Refc, refc.len(), reserve)?;
            Some((Switch::Refc { refc: first }, rest.len()))
        }
    }
}

/// The heads that a switch writes.
pub fn switched_heads(agf: Agf, agi: Agi, switch: &Switch) -> Heads
    ensures { result ≡ rooted_heads switch.now (record { agf = agf; agi = agi }) }
{
    rooted(&Heads { agf, agi }, switch)
}
