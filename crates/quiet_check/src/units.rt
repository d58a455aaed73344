ghost use Rattle.std.specs.Prelude.{IfOk};
ghost use Rattle.derive_defs.specs.Mappings.{StartsRise, EndWithin as MappingsEndWithin};
ghost use Rattle.fs_state.specs.State.{recs_of as recs_in};
ghost use Rattle.group_trees.specs.Trees.{reading_of};
ghost use Rattle.quiet_check.specs.Units.{AreListed};
ghost use Rattle.run_sets.specs.Runs.{most};

use group_trees::{GroupTrees, recs_of};
use index_derive::listed_units;
use run_sets::Run;
use std::alloc::{AllocError, Global};

/// The units of a group that its btrees list, as maximal runs by their numbers: one of the two, the
/// inode btree by itself, and the reverse mappings by themselves
/// (XFS Online Fsck Design, "Case Study: Rebuilding the AG Inode Records").
#[derive(Drop)]
pub struct Listed {
    pub either: Vec<Run>,
    pub by_inodes: Vec<Run>,
    pub by_owners: Vec<Run>,
}

/// The units of a group of this length that its btrees list
/// (XFS Online Fsck Design, "Case Study: Rebuilding the AG Inode Records").
pub fn list_units(alloc: Global, length: u32, trees: &GroupTrees) -> Result<Listed, AllocError>
    requires rising { StartsRise (recs_in (reading_of trees.now.rmap)) }
    requires within { MappingsEndWithin most (recs_in (reading_of trees.now.rmap)) }
    ensures { IfOk result (AreListed length trees.now) }
{
    let ino = recs_of(&trees.ino);
    let rmap = recs_of(&trees.rmap);
    let either = listed_units(alloc, length, ino, rmap)?;
    let by_inodes = listed_units(alloc, length, ino, &[])?;
    let by_owners = listed_units(alloc, length, &[], rmap)?;
    Ok(Listed {
        either,
        by_inodes,
        by_owners,
    })
}
