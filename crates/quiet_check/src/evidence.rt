ghost use Rattle.std.specs.Prelude.{◌≡◌, None, if◌then◌else◌};
ghost use Rattle.fs_state.specs.Contradiction.{bad_block, later_fault as later_fault_of, later_in as later_of};
ghost use Rattle.fs_state.specs.State.{is_readable};
ghost use Rattle.group_trees.specs.Trees.{reading_of};
ghost use Rattle.quiet_check.specs.Units.{evidence_in};

use fs_model::Evidence;
use group_trees::{GroupTrees, TreeSeen};
use ino_recs::InoRec;
use rmap_recs::RmapRec;
use sblock::{BlockFault, Kind};

/// That a tree has a form that isn't supported yet, with the first block where that is
/// (XFS Algorithms and Data Structures, "Reference Count B+tree").
pub fn later_in<R>(kind: Kind, seen: &TreeSeen<R>) -> Option<Evidence>
    ensures { result ≡ later_of kind (reading_of seen.now) }
{
    match seen {
        TreeSeen::Whole(_) => None,
        TreeSeen::Bad { block, fault, .. } => later_fault(kind, *block, *fault),
    }
}

/// A block of a tree with a form that isn't supported yet
/// (XFS Algorithms and Data Structures, "Reference Count B+tree").
pub fn later_fault(kind: Kind, block: u32, fault: BlockFault) -> Option<Evidence>
    ensures { result ≡ later_fault_of kind block fault }
{
    match fault {
        BlockFault::Later => Some(Evidence::Later { kind, block }),
        _ => None,
    }
}

// The first bad block of the reverse mappings, where they can't be read.
fn bad_block_of(rmap: &TreeSeen<RmapRec>) -> Option<Evidence>
    ensures { result ≡ bad_block (reading_of rmap.now) }
{
    match rmap {
        TreeSeen::Whole(_) => None,
        TreeSeen::Bad { block, .. } => Some(Evidence::BadTree {
            kind: Kind::Rmap,
            block: *block,
        }),
    }
}

// Neither of the trees that list chunks can be read.
fn bad_tree(ino: &TreeSeen<InoRec>, rmap: &TreeSeen<RmapRec>) -> Option<Evidence>
    ensures { result ≡ (if is_readable (reading_of ino.now) then None else bad_block (reading_of rmap.now)) }
{
    match ino {
        TreeSeen::Whole(_) => None,
        TreeSeen::Bad { .. } => bad_block_of(rmap),
    }
}

/// What the btrees alone say against the derivation of the inodes of their group: one of the two
/// inode btrees has a form that isn't supported yet, or neither of the trees that list chunks can be
/// read (XFS Online Fsck Design, "Cross-Referencing Space Metadata").
pub fn tree_evidence(trees: &GroupTrees) -> Option<Evidence>
    ensures { result ≡ evidence_in trees.now }
{
    if let Some(found) = later_in(Kind::Ino, &trees.ino) {
        return Some(found);
    }
    if let Some(found) = later_in(Kind::Fino, &trees.fino) {
        return Some(found);
    }
    bad_tree(&trees.ino, &trees.rmap)
}
