ghost use Rattle.std.specs.Prelude.{◌≡◌, IfOk, length};
ghost use Rattle.core_parts.specs.Opens.Inodes.{are_trees, tree_of};
ghost use Rattle.inode_scan.specs.Cursor.{AllInoTrees};

use crate::GroupKept;
use sblock::Kind;
use std::alloc::{AllocError, Global};
use tree_blocks::TreeAt;

// Where the inode btree of group `g` is, by its heads.
fn ino_tree(kept: &GroupKept, g: u32) -> TreeAt
    ensures { result ≡ tree_of g kept.now }
{
    TreeAt {
        kind: Kind::Ino,
        group: g,
        root: kept.heads.agi.root,
        levels: kept.heads.agi.level,
        lsn: kept.heads.agf.lsn,
    }
}

/// Where the inode btree of each group is, in the groups' order: its root and levels, by the heads that are
/// kept (XFS Algorithms and Data Structures, "Inode B+trees").
pub fn ino_trees(alloc: Global, groups: &[GroupKept]) -> Result<Vec<TreeAt>, AllocError>
    ensures all { IfOk result (λ trees. length trees.items ≡ length groups.now) }
    ensures inodes { IfOk result (λ trees. AllInoTrees (length groups.now) trees.items) }
    ensures exact { IfOk result (λ trees. trees.items ≡ are_trees 0 groups.now) }
{
    // An image has at most 65,536 groups.
    if groups.len() > u32::MAX as usize {
        return Err(AllocError);
    }
    let mut trees = Vec::new(alloc);
    let mut rest = groups;
    let mut g: u32 = 0;
    while let Some((kept, later)) = rest.split_first() {
        let tree = ino_tree(kept, g);
        trees.push(tree)?;
        rest = later;
        g += 1;
    }
    Ok(trees)
}
