ghost use Rattle.std.specs.Prelude.{◌≡◌, List, ℕ, ◌+◌, ◌<◌, ◌≤◌, IfOk, IfErr, IfSome, OnOk, Some};
ghost use Rattle.blk_device.specs.Causes.{HasCause};
ghost use Rattle.tree_blocks.specs.Calls.{Reads};
ghost use Rattle.tree_blocks.specs.Meets.{IsNoMemory};
ghost use Rattle.tree_blocks.specs.Reading.{is_failed};
ghost use Rattle.tree_blocks.specs.Told.{WhereTold};
ghost use Rattle.tree_find.specs.Meets.{Meets};
ghost use Rattle.inode_scan.specs.Search.{Rise, search_below, reads_below, search_in, reads_in};

use crate::chunk::{CHUNK_INODES, first_in_leaf};
use ino_recs::{InoKey, InoKind};
use sblock::{BlockFault, count_of};
use tree_blocks::{Blocks, TreeAt, WalkFault, open_block, top_level};
use tree_defs::Site;
use tree_find::{child_in, start_for};

// Searches below a block of this level for the lowest allocated inode from `from` on and below `end`.
fn search_node<B: Blocks>(
    blocks: &mut B,
    site: &Site,
    level: u8,
    root: bool,
    p: u32,
    from: u32,
    end: u32,
) -> Result<Option<u32>, WalkFault>
    requires inside { p < site.now.bounds.length }
    requires here { B.place blocks.old ≡ site.now }
    ensures exact { (m : ℕ → List ℕ) → B.told blocks.old ≡ Some m → Meets (search_below site.now m from end level root p) result }
    ensures range { IfOk result (λ found. IfSome found (λ n. (from ≤ n) × (n < end))) }
    ensures no_memory { IfErr result IsNoMemory }
    ensures reading { Reads B.Blocks blocks.old blocks.new }
    ensures cause { HasCause is_failed (B.faults blocks.old) (B.faults blocks.new) result }
    ensures counted { (m : ℕ → List ℕ) → B.told blocks.old ≡ Some m → OnOk result (B.count blocks.new ≡ B.count blocks.old + reads_below site.now m from end level p) }
{
    let block = open_block::<InoKind, B>(blocks, site, level, root, p)?;
    if level == 0 {
        return Ok(first_in_leaf(&block, from, end));
    }
    let key = InoKey {
        startino: from.saturating_sub(CHUNK_INODES - 1),
    };
    let start = start_for::<InoKind>(&block, &Some(key));
    for i in start..count_of(&block) as usize {
        let child = child_in::<InoKind>(&block, i);
        let found = search_node::<B>(blocks, site, level - 1, false, child, from, end)?;
        if let Some(number) = found {
            return Ok(Some(number));
        }
    }
    Ok(None)
}

/// Searches the tree of this root and count of levels.
pub fn search_site<B: Blocks>(
    blocks: &mut B,
    site: &Site,
    tree: &TreeAt,
    from: u32,
    end: u32,
) -> Result<Option<u32>, WalkFault>
    requires here { B.place blocks.old ≡ site.now }
    ensures exact { (m : ℕ → List ℕ) → B.told blocks.old ≡ Some m → Meets (search_in site.now m from end tree.now.root tree.now.levels) result }
    ensures range { IfOk result (λ found. IfSome found (λ n. (from ≤ n) × (n < end))) }
    ensures no_memory { IfErr result IsNoMemory }
    ensures reading { Reads B.Blocks blocks.old blocks.new }
    ensures cause { HasCause is_failed (B.faults blocks.old) (B.faults blocks.new) result }
    ensures counted { WhereTold (B.told blocks.old) (λ m. Rise result (B.count blocks.old) (B.count blocks.new) (reads_in site.now m from end tree.now.root tree.now.levels)) }
{
    let root = tree.root;
    if root == 0 || root >= site.bounds.length {
        return Err(WalkFault::Bad {
            block: root,
            fault: BlockFault::Range,
        });
    }
    let level = top_level(tree.levels);
    search_node::<B>(blocks, site, level, true, root, from, end)
}
