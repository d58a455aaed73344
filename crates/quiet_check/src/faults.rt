ghost use Rattle.std.specs.Prelude.{◌≡◌, ◌%◌, ◌^◌, ◌++◌, IfOk, OnOk, sum_by};
ghost use Rattle.fs_state.specs.Faults.{counter_fault};
ghost use Rattle.ino_recs.specs.Chunks.{fino_form, ino_form};
ghost use Rattle.quiet_check.specs.Faults.{blocks_kept, counter_faults, faults_in, inode_faults as inode_faults_of};
ghost use Rattle.group_trees.specs.Trees.{RisesIfRead, reading_of};
ghost use Rattle.sblock.specs.Blocks.{IsRising};

use ag_headers::Agi;
use fs_model::{Counter, Fault};
use group_trees::{GroupTrees, TreeSeen};
use index_derive::free_records;
use ino_recs::{FinoKind, InoKind, InoRec};
use space_check::{add_blocks, unreadable};
use std::alloc::{AllocError, Global};
use xref_scrub::{Indexed, compare};

/// The faults of an index against what is derived: the one fault that it can't be read, or each
/// difference in key order (XFS Online Fsck Design, "Cross-Referencing Space Metadata").
pub fn index_faults<K: Indexed>(
    alloc: Global,
    index: &TreeSeen<K::Rec>,
    derived: &[K::Rec],
) -> Result<Vec<Fault>, AllocError>
    requires index { RisesIfRead K.form index.now }
    requires derived { IsRising K.form derived.now }
    ensures { IfOk result (λ faults. faults.items ≡ faults_in K.form K.shown derived.now (reading_of index.now)) }
{
    match index {
        TreeSeen::Whole(read) => compare::<K>(alloc, read.recs.as_slice(), derived),
        TreeSeen::Bad { block, fault, .. } => unreadable::<K>(alloc, *block, *fault),
    }
}

/// Adds the fault of a counter of the heads whose number isn't the one that is wanted; none where no
/// number is (XFS Algorithms and Data Structures, "AG Inode Management").
pub fn add_counter(
    faults: &mut Vec<Fault>,
    name: Counter,
    found: u32,
    wanted: Option<u32>,
) -> Result<(), AllocError>
    ensures { OnOk result (faults.new.items ≡ faults.old.items ++ counter_fault name found wanted) }
{
    add_blocks(faults, name, found, wanted)
}

/// How many blocks a tree that can be read has, as a counter of 32 bits, where the heads keep that
/// number (XFS Algorithms and Data Structures, "AG Inode Management").
pub fn blocks_in<R>(kept: bool, index: &TreeSeen<R>) -> Option<u32>
    ensures { result ≡ blocks_kept kept (reading_of index.now) }
{
    if !kept {
        return None;
    }
    match index {
        TreeSeen::Whole(read) => Some((read.blocks.len() % (1 << 32)) as u32),
        TreeSeen::Bad { .. } => None,
    }
}

// The inodes of chunks, as a number of 32 bits.
fn total_count(recs: &[InoRec]) -> u32
    ensures { result ≡ sum_by (λ r. r.count) recs.now % 2 ^ 32 }
{
    let mut total = 0u128;
    for rec in recs {
        total += u128::from(rec.count);
    }
    (total % (1 << 32)) as u32
}

// Those that are free.
fn total_free(recs: &[InoRec]) -> u32
    ensures { result ≡ sum_by (λ r. r.freecount) recs.now % 2 ^ 32 }
{
    let mut total = 0u128;
    for rec in recs {
        total += u128::from(rec.freecount);
    }
    (total % (1 << 32)) as u32
}

// Adds the faults of the four counters.
fn add_counters(
    faults: &mut Vec<Fault>,
    kept: bool,
    agi: &Agi,
    recs: &[InoRec],
    trees: &GroupTrees,
) -> Result<(), AllocError>
    ensures { OnOk result (faults.new.items ≡ faults.old.items ++ counter_faults kept agi.now recs.now (reading_of trees.now.ino) (reading_of trees.now.fino)) }
{
    let count = total_count(recs);
    add_counter(faults, Counter::Count, agi.count, Some(count))?;
    let free = total_free(recs);
    add_counter(faults, Counter::Freecount, agi.freecount, Some(free))?;
    let ino = blocks_in(kept, &trees.ino);
    add_counter(faults, Counter::Iblocks, agi.iblocks, ino)?;
    let fino = blocks_in(kept, &trees.fino);
    add_counter(faults, Counter::Fblocks, agi.fblocks, fino)
}

/// The faults of a group's inode btrees by the records of its chunks, which rise: those of the inode
/// btree, those of the btree of chunks with free inodes, and then those of the counters count,
/// freecount, iblocks and fblocks; the last two only where the heads keep them
/// (XFS Online Fsck Design, "Cross-Referencing Space Metadata").
#[tactic(auto, unfolding(crate::specs::Faults::inode_faults))]
pub fn inode_faults(
    alloc: Global,
    kept: bool,
    agi: &Agi,
    recs: &[InoRec],
    trees: &GroupTrees,
) -> Result<Vec<Fault>, AllocError>
    requires recs { IsRising ino_form recs.now }
    requires ino { RisesIfRead ino_form trees.now.ino }
    requires fino { RisesIfRead fino_form trees.now.fino }
    ensures { IfOk result (λ faults. faults.items ≡ inode_faults_of kept agi.now recs.now (reading_of trees.now.ino) (reading_of trees.now.fino)) }
{
    let with_free = free_records(alloc, recs)?;
    let mut faults = index_faults::<InoKind>(alloc, &trees.ino, recs)?;
    let further = index_faults::<FinoKind>(alloc, &trees.fino, with_free.as_slice())?;
    faults.extend_from_slice(further.as_slice())?;
    add_counters(&mut faults, kept, agi, recs, trees)?;
    Ok(faults)
}
