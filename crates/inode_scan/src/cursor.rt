ghost use Rattle.std.specs.Prelude.{◌≡◌, ◌+◌, ◌/◌, ◌^◌, ◌<◌, ◌≤◌, true, is_some, IfOk, IfErr, IfSome, OnOk};
ghost use Rattle.blk_cache.specs.Cache.{AgreesTold};
ghost use Rattle.blk_device.specs.Causes.{HasCause};
ghost use Rattle.blk_device.specs.Reading.{OnlyRead};
ghost use Rattle.blk_device.specs.declared.device.Region.TheVariants.{Image};
ghost use Rattle.geom.specs.Layout.{split_of};
ghost use Rattle.geom.specs.Places.{layout};
ghost use Rattle.sblock.specs.declared.kind.Kind.TheVariants.{Ino};
ghost use Rattle.tree_blocks.specs.Meets.{IsNoMemory};
ghost use Rattle.tree_blocks.specs.Reading.{is_failed};
ghost use Rattle.tree_find.specs.Meets.{Meets};
ghost use Rattle.inode_scan.specs.Search.{Rise};
ghost use Rattle.inode_scan.specs.NextInode.{IsRightNext};
ghost use Rattle.inode_scan.specs.Cursor.{is_visited, first_number as first_number_of, numbers_in as numbers_of, start_in as start_of, next_in_tree as next_of_tree, next_in_trees, reads_in_tree as reads_of_tree, reads_in_trees as all_reads, IsInoTree, AllInoTrees};

use crate::tree::next_in_group;
use blk_cache::BlkCache;
use blk_device::Device;
use byte_fields::Steps;
use geom::Geometry;
use std::sync::ledger::Ledger;
use tree_blocks::{TreeAt, WalkFault};

// How many inodes a block has.
const BLOCK_INODES: u32 = 8;

/// How far a scan of all inodes has come: the greatest number that it has passed
/// (XFS Online Fsck Design, "Live Inode Scans").
#[derive(Clone, Copy, Debug, PartialEq, Eq)]
pub struct Cursor {
    pub at: u64,
}

// The number of a group's first inode.
#[tactic(auto, using(geom::proofs::NumbersLemmas::shifted, geom::proofs::NumbersLemmas::number_fits), unfolding(crate::specs::Cursor::first_number))]
fn first_number(geo: &Geometry, group: u32) -> u64
    requires { group < geo.now.agcount }
    ensures value { result ≡ first_number_of (layout geo.now) group }
    ensures fits { result < 2 ^ 50 }
{
    (u64::from(group) << geo.agblklog) * u64::from(BLOCK_INODES)
}

// How many numbers a group's blocks have.
fn numbers_in(geo: &Geometry, group: u32) -> u32
    requires { group < geo.now.agcount }
    ensures { result ≡ numbers_of (layout geo.now) group }
{
    geo.group_len(group) * BLOCK_INODES
}

// The lowest number above the cursor, relative to a group that begins with inode `first`; none where
// that isn't below `end`.
#[tactic(auto, unfolding(crate::specs::Cursor::start_in))]
fn start_in(at: u64, first: u64, end: u32) -> Option<u32>
    requires { 1 ≤ end }
    ensures { result ≡ start_of at first end }
{
    if at < first {
        return Some(0);
    }
    let passed = at - first;
    if passed >= u64::from(end - 1) {
        return None;
    }
    Some((passed + 1) as u32)
}

// The next inode of one group.
fn next_in_tree<D: Device, L: Ledger>(
    at: u64,
    dev: &mut D,
    cache: &mut BlkCache,
    geo: &Geometry,
    tree: &TreeAt,
    steps: &mut Steps<L>,
) -> Result<Option<u64>, WalkFault>
    requires tree { IsInoTree geo.now.agcount tree.now }
    requires room { geo.now.dblocks ≤ D.blocks dev.old Image }
    requires agreed { AgreesTold cache.old (D.content dev.old) }
    ensures exact { IfSome (D.content dev.old) (λ m. Meets (next_of_tree (layout geo.now) (m Image) at tree.now) result) }
    ensures above { IfOk result (λ found. IfSome found (λ ino. at < ino)) }
    ensures place { IfOk result (λ found. IfSome found (λ ino. is_some (split_of (layout geo.now) (ino / 8)) ≡ true)) }
    ensures no_memory { IfErr result IsNoMemory }
    ensures reading { OnlyRead D.Device dev.old dev.new steps.old steps.new }
    ensures cause { HasCause is_failed (D.faults dev.old) (D.faults dev.new) result }
    ensures agrees { AgreesTold cache.new (D.content dev.new) }
    ensures counted { IfSome (D.content dev.old) (λ m. OnOk result (steps.new.reads ≡ steps.old.reads + reads_of_tree (layout geo.now) (m Image) at tree.now)) }
{
    let first = first_number(geo, tree.group);
    let end = numbers_in(geo, tree.group);
    let Some(from) = start_in(at, first, end) else {
        return Ok(None);
    };
    let found = next_in_group::<D, L>(dev, cache, geo, tree, from, end, steps)?;
    let Some(number) = found else {
        return Ok(None);
    };
    Ok(Some(first + u64::from(number)))
}

impl Cursor {
    /// Whether the scan has been at the inode.
    pub fn visited(&self, ino: u64) -> bool
        ensures { result ≡ is_visited self.now.at ino }
    {
        ino <= self.at
    }

    /// The least allocated inode above the cursor, by the inode btrees of all groups in their order;
    /// none where there is none. It takes no memory, reads nothing of groups that the cursor has
    /// passed, and of a tree each block on the way and each one that is passed once. The first block
    /// that fails its tests by itself is told with its fault
    /// (XFS Online Fsck Design, "Live Inode Scans").
    pub fn next_inode<D: Device, L: Ledger>(
        &self,
        dev: &mut D,
        cache: &mut BlkCache,
        geo: &Geometry,
        trees: &[TreeAt],
        steps: &mut Steps<L>,
    ) -> Result<Option<u64>, WalkFault>
        requires trees { AllInoTrees geo.now.agcount trees.now }
        requires room { geo.now.dblocks ≤ D.blocks dev.old Image }
        requires agreed { AgreesTold cache.old (D.content dev.old) }
        ensures exact { IfSome (D.content dev.old) (λ m. Meets (next_in_trees (layout geo.now) (m Image) self.now.at trees.now) result) }
        ensures right { IfSome (D.content dev.old) (λ m. IsRightNext (layout geo.now) (m Image) self.now.at trees.now result) }
        ensures above { IfOk result (λ found. IfSome found (λ ino. self.now.at < ino)) }
        ensures place { IfOk result (λ found. IfSome found (λ ino. is_some (split_of (layout geo.now) (ino / 8)) ≡ true)) }
        ensures no_memory { IfErr result IsNoMemory }
        ensures reading { OnlyRead D.Device dev.old dev.new steps.old steps.new }
        ensures cause { HasCause is_failed (D.faults dev.old) (D.faults dev.new) result }
        ensures agrees { AgreesTold cache.new (D.content dev.new) }
        ensures counted { IfSome (D.content dev.old)
            (λ m. Rise result steps.old.reads steps.new.reads (all_reads (layout geo.now) (m Image) self.now.at trees.now)) }
    {
        let at = self.at;
        let mut rest = trees;
        while let Some((tree, later)) = rest.split_first() {
            let found = next_in_tree::<D, L>(at, dev, cache, geo, tree, steps)?;
            if let Some(ino) = found {
                return Ok(Some(ino));
            }
            rest = later;
        }
        Ok(None)
    }
}
