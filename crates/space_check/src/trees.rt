//! Where the trees of a group are, as its AGF says.
ghost use Rattle.std.specs.Prelude.{◌≡◌};

use ag_headers::Agf;
use sblock::Kind;
use tree_walk::TreeAt;

/// The btree of free space by start of group `g`
/// (XFS Algorithms and Data Structures, "AG Free Space Block").
pub fn bno_tree(agf: &Agf, g: u32) -> TreeAt
    ensures { result ≡ record { kind = Kind.Bno; group = g; root = agf.now.bno_root; levels = agf.now.bno_level; lsn = agf.now.lsn } }
{
    TreeAt {
        kind: Kind::Bno,
        group: g,
        root: agf.bno_root,
        levels: agf.bno_level,
        lsn: agf.lsn,
    }
}

/// The btree of free space by count of group `g`
/// (XFS Algorithms and Data Structures, "AG Free Space Block").
pub fn cnt_tree(agf: &Agf, g: u32) -> TreeAt
    ensures { result ≡ record { kind = Kind.Cnt; group = g; root = agf.now.cnt_root; levels = agf.now.cnt_level; lsn = agf.now.lsn } }
{
    TreeAt {
        kind: Kind::Cnt,
        group: g,
        root: agf.cnt_root,
        levels: agf.cnt_level,
        lsn: agf.lsn,
    }
}

/// The reverse mapping btree of group `g`
/// (XFS Algorithms and Data Structures, "AG Free Space Block").
pub fn rmap_tree(agf: &Agf, g: u32) -> TreeAt
    ensures { result ≡ record { kind = Kind.Rmap; group = g; root = agf.now.rmap_root; levels = agf.now.rmap_level; lsn = agf.now.lsn } }
{
    TreeAt {
        kind: Kind::Rmap,
        group: g,
        root: agf.rmap_root,
        levels: agf.rmap_level,
        lsn: agf.lsn,
    }
}

/// The reference count btree of group `g`
/// (XFS Algorithms and Data Structures, "AG Free Space Block").
pub fn refc_tree(agf: &Agf, g: u32) -> TreeAt
    ensures { result ≡ record { kind = Kind.Refc; group = g; root = agf.now.refcount_root; levels = agf.now.refcount_level; lsn = agf.now.lsn } }
{
    TreeAt {
        kind: Kind::Refc,
        group: g,
        root: agf.refcount_root,
        levels: agf.refcount_level,
        lsn: agf.lsn,
    }
}
