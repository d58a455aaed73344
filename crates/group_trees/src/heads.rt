ghost use Rattle.std.specs.Prelude.{◌≡◌, IfOk};
ghost use Rattle.ag_headers.specs.Ring.{entries};
ghost use Rattle.group_trees.specs.Heads.{heads_seen};
ghost use Rattle.fs_state.specs.Kinds.{level_of, root_of};

use ag_headers::{Agf, Agfl, Agi};
use sblock::Kind;
use std::alloc::{AllocError, Global};
use tree_walk::TreeAt;

/// The heads of a group: its AGF and AGI, and the blocks of its free list, group-relative, in the
/// order of the ring (XFS Algorithms and Data Structures, "Allocation Groups").
#[derive(Drop)]
pub struct GroupHeads {
    pub agf: Agf,
    pub agi: Agi,
    pub list: Vec<u32>,
}

/// The blocks of a free list, in the order of its ring
/// (XFS Algorithms and Data Structures, "AG Free List").
pub fn free_list(alloc: Global, list: &Agfl) -> Result<Vec<u32>, AllocError>
    ensures { IfOk result (λ blocks. blocks.items ≡ entries list.now) }
{
    let mut blocks = Vec::new(alloc);
    for i in 0..list.len() {
        blocks.push(list.entry(i))?;
    }
    Ok(blocks)
}

// At which block of the group a tree begins.
fn root_in(heads: &GroupHeads, kind: Kind) -> u32
    ensures { result ≡ root_of (heads_seen heads.now) kind }
{
    match kind {
        Kind::Bno => heads.agf.bno_root,
        Kind::Cnt => heads.agf.cnt_root,
        Kind::Rmap => heads.agf.rmap_root,
        Kind::Refc => heads.agf.refcount_root,
        Kind::Ino => heads.agi.root,
        Kind::Fino => heads.agi.free_root,
    }
}

// How many levels it has.
fn levels_in(heads: &GroupHeads, kind: Kind) -> u32
    ensures { result ≡ level_of (heads_seen heads.now) kind }
{
    match kind {
        Kind::Bno => heads.agf.bno_level,
        Kind::Cnt => heads.agf.cnt_level,
        Kind::Rmap => heads.agf.rmap_level,
        Kind::Refc => heads.agf.refcount_level,
        Kind::Ino => heads.agi.level,
        Kind::Fino => heads.agi.free_level,
    }
}

/// Where a btree of group `g` is, by its heads
/// (XFS Algorithms and Data Structures, "Allocation Groups").
pub fn tree_at(heads: &GroupHeads, g: u32, kind: Kind) -> TreeAt
    ensures kind { result.kind ≡ kind }
    ensures group { result.group ≡ g }
    ensures root { result.root ≡ root_of (heads_seen heads.now) kind }
    ensures levels { result.levels ≡ level_of (heads_seen heads.now) kind }
    ensures lsn { result.lsn ≡ heads.now.agf.lsn }
{
    TreeAt {
        kind,
        group: g,
        root: root_in(heads, kind),
        levels: levels_in(heads, kind),
        lsn: heads.agf.lsn,
    }
}
