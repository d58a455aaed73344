// Btrees that aren't read, since they are known to be bad.
ghost use Rattle.std.specs.Prelude.{◌≡◌, IsTrue, None, Some};
ghost use Rattle.core_units.specs.Standing.{IsBadTree};
ghost use Rattle.core_units.specs.Trees.{IsBadKind, Passes};

use crate::trees::next_kind;
use group_trees::{GroupTrees, TreeSeen};
use sblock::Kind;

// Whether the tree is bad.
fn is_bad<R>(seen: &TreeSeen<R>) -> bool
    ensures { IsTrue result → IsBadTree seen.now }
{
    match seen {
        TreeSeen::Whole(_) => false,
        TreeSeen::Bad { .. } => true,
    }
}

// The same of the tree of this kind.
fn is_bad_kind(trees: &GroupTrees, kind: Kind) -> bool
    ensures { IsTrue result → IsBadKind trees.now kind }
{
    match kind {
        Kind::Bno => is_bad(&trees.bno),
        Kind::Cnt => is_bad(&trees.cnt),
        Kind::Rmap => is_bad(&trees.rmap),
        Kind::Refc => is_bad(&trees.refc),
        Kind::Ino => is_bad(&trees.ino),
        Kind::Fino => is_bad(&trees.fino),
    }
}

// The tree behind this one, where this one is bad.
fn pass_kind(trees: &GroupTrees, kind: Kind) -> Option<Kind>
    ensures { Passes trees.now (Some kind) result }
{
    if is_bad_kind(trees, kind) {
        return next_kind(kind);
    }
    Some(kind)
}

// The same, where not all trees are read.
fn pass_one(trees: &GroupTrees, at: Option<Kind>) -> Option<Kind>
    ensures made { Passes trees.now at result }
    ensures none { at ≡ None → result ≡ None }
{
    match at {
        Some(kind) => pass_kind(trees, kind),
        None => None,
    }
}

/// The tree that is read next, from this one on; those that are bad are passed over
/// (XFS Algorithms and Data Structures, "Allocation Groups").
pub fn pass_bad(trees: &GroupTrees, reading: Option<Kind>) -> Option<Kind>
    ensures made { Passes trees.now reading result }
    ensures none { reading ≡ None → result ≡ None }
{
    let mut at = reading;
    for _ in 0..6u32 {
        at = pass_one(trees, at);
    }
    at
}
