ghost use Rattle.std.specs.Prelude.{◌≡◌, ◌≢◌, ℕ, None};
ghost use Rattle.ag_headers.specs.Agf.{agf_of, agf_fault};
ghost use Rattle.ag_headers.specs.Agi.{agi_of, agi_fault};
ghost use Rattle.ag_headers.specs.Fields.{sector};
ghost use Rattle.geom.specs.Layout.{Layout};
ghost use Rattle.root_switch.specs.Standing.{HeadsStand};
ghost use Rattle.root_switch.specs.Rooted.{IsAgfOf, IsAgiOf, heads_put, rooted_heads, with_free, with_inodes, with_refc, with_rmap};

use ag_headers::{Agf, Agi};
use byte_fields::Block;

/// A new tree of a group: its root block, its levels, counted from 1 for a single leaf, and how many
/// blocks it has, its root included.
#[derive(Clone, Copy, Debug, PartialEq, Eq)]
pub struct NewTree {
    pub root: u32,
    pub levels: u32,
    pub blocks: u32,
}

/// The new trees of a unit, and the counters that follow from their records. `counts_blocks` tells
/// whether heads count the blocks of the two inode btrees. `btreeblks` are the blocks of free space
/// and reverse mappings without their three roots, where all three trees can be read; else it is
/// none, and the counter stays
/// (XFS Algorithms and Data Structures, "AG Free Space Block", "AG Inode Management").
#[derive(Clone, Copy, Debug, PartialEq, Eq)]
pub enum Switch {
    Inode {
        ino: NewTree,
        fino: NewTree,
        count: u32,
        freecount: u32,
        counts_blocks: bool,
    },
    Rmap {
        rmap: NewTree,
        btreeblks: Option<u32>,
    },
    Free {
        bno: NewTree,
        cnt: NewTree,
        freeblks: u32,
        longest: u32,
        btreeblks: Option<u32>,
    },
    Refc {
        refc: NewTree,
    },
}

/// The two heads of a group that name its trees. The third, the free list, isn't touched by a switch.
#[derive(Clone, Copy, Debug, PartialEq, Eq)]
pub struct Heads {
    pub agf: Agf,
    pub agi: Agi,
}

// The AGI with new inode btrees, and the numbers of their blocks where these are counted.
fn rooted_inodes(agi: &Agi, ino: &NewTree, fino: &NewTree, counts_blocks: bool) -> Agi
    ensures { result ≡ with_inodes ino.now fino.now counts_blocks agi.now }
{
    let mut new = Agi {
        root: ino.root,
        level: ino.levels,
        free_root: fino.root,
        free_level: fino.levels,
        ..*agi
    };
    if counts_blocks {
        new.iblocks = ino.blocks;
        new.fblocks = fino.blocks;
    }
    new
}

// The AGF with a new btree of reverse mappings.
fn rooted_rmap(agf: &Agf, rmap: &NewTree, btreeblks: Option<u32>) -> Agf
    ensures { result ≡ with_rmap rmap.now btreeblks agf.now }
{
    Agf {
        rmap_root: rmap.root,
        rmap_level: rmap.levels,
        rmap_blocks: rmap.blocks,
        btreeblks: btreeblks.unwrap_or(agf.btreeblks),
        ..*agf
    }
}

// The AGF with new btrees of free space.
fn rooted_free(agf: &Agf, bno: &NewTree, cnt: &NewTree, btreeblks: Option<u32>) -> Agf
    ensures { result ≡ with_free bno.now cnt.now btreeblks agf.now }
{
    Agf {
        bno_root: bno.root,
        bno_level: bno.levels,
        cnt_root: cnt.root,
        cnt_level: cnt.levels,
        btreeblks: btreeblks.unwrap_or(agf.btreeblks),
        ..*agf
    }
}

// The AGF with a new btree of reference counts.
fn rooted_refc(agf: &Agf, refc: &NewTree) -> Agf
    ensures { result ≡ with_refc refc.now agf.now }
{
    Agf {
        refcount_root: refc.root,
        refcount_level: refc.levels,
        refcount_blocks: refc.blocks,
        ..*agf
    }
}

/// The heads of a group once its new trees are switched to: the unit's roots, levels and counters;
/// every other field stays
/// (XFS Online Fsck Design, "Writing the New Tree").
pub fn rooted(heads: &Heads, switch: &Switch) -> Heads
    ensures { result ≡ rooted_heads switch.now heads.now }
{
    match switch {
        Switch::Inode {
            ino,
            fino,
            count,
            freecount,
            counts_blocks,
        } => Heads {
            agf: heads.agf,
            agi: Agi {
                count: *count,
                freecount: *freecount,
                ..rooted_inodes(&heads.agi, ino, fino, *counts_blocks)
            },
        },
        Switch::Rmap { rmap, btreeblks } => Heads {
            agf: rooted_rmap(&heads.agf, rmap, *btreeblks),
            agi: heads.agi,
        },
        Switch::Free {
            bno,
            cnt,
            freeblks,
            longest,
            btreeblks,
        } => Heads {
            agf: Agf {
                freeblks: *freeblks,
                longest: *longest,
                ..rooted_free(&heads.agf, bno, cnt, *btreeblks)
            },
            agi: heads.agi,
        },
        Switch::Refc { refc } => Heads {
            agf: rooted_refc(&heads.agf, refc),
            agi: heads.agi,
        },
    }
}

/// Writes both heads into their sectors of block 0 of the group, which is all that the batch of a
/// switch has; the sectors of the superblock's copy and of the free list stay
/// (XFS Algorithms and Data Structures, "AG Free Space Block", "AG Inode Management").
pub fn put_heads(heads: &Heads, block: &mut Block)
    ensures agf { agf_of block.new.bytes ≡ heads.now.agf }
    ensures agi { agi_of block.new.bytes ≡ heads.now.agi }
    ensures bytes { block.new.bytes ≡ heads_put heads.now block.old.bytes }
    ensures elsewhere { (k : ℕ) → k ≢ 1 → k ≢ 2 → sector k block.new.bytes ≡ sector k block.old.bytes }
    ensures agf_accepted { (at : Layout) (g : ℕ) → IsAgfOf at g heads.now.agf → agf_fault at g block.new.bytes ≡ None }
    ensures agi_accepted { (at : Layout) (g : ℕ) → IsAgiOf at g heads.now.agi → agi_fault at g block.new.bytes ≡ None }
{
    heads.agf.encode(block);
    heads.agi.encode(block);
}

/// A law: heads that were accepted name their group, and a switch leaves that, so that what `put_heads`
/// writes of them is accepted again
/// (XFS Algorithms and Data Structures, "AG Free Space Block", "AG Inode Management").
pub fn heads_stand()
    ensures { HeadsStand }
{}
