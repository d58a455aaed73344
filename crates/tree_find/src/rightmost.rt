ghost use Rattle.std.specs.Prelude.{◌≡◌, List, ℕ, ◌+◌, ◌<◌, ◌≤◌, nat_le, if◌then◌else◌, Ok, IfOk, IfSome, IfErr, Some};
ghost use Rattle.blk_cache.specs.Cache.{AgreesTold};
ghost use Rattle.blk_device.specs.Reading.{OnlyRead};
ghost use Rattle.blk_device.specs.declared.device.Region.TheVariants.{Image};
ghost use Rattle.geom.specs.Places.{layout};
ghost use Rattle.sblock.specs.Blocks.{numrecs, records_of};
ghost use Rattle.sblock.specs.Kinds.{leaf_most_of};
ghost use Rattle.tree_defs.specs.Sites.{bounds_of};
ghost use Rattle.tree_blocks.specs.Told.{OfTree};
ghost use Rattle.tree_blocks.specs.Meets.{IsNoMemory};
ghost use Rattle.tree_blocks.specs.Calls.{Reads};
ghost use Rattle.blk_device.specs.Causes.{HasCause};
ghost use Rattle.tree_blocks.specs.Reading.{is_failed};
ghost use Rattle.tree_find.specs.Find.{way_of};
ghost use Rattle.tree_find.specs.Last.{last_of, last_below, last_in, IsSoundOne};
ghost use Rattle.tree_find.specs.Laws.{WhereHolds};
ghost use Rattle.tree_find.specs.Meets.{Meets};

use crate::next::child_in;
use blk_cache::BlkCache;
use blk_device::Device;
use byte_fields::{Block, Steps};
use geom::Geometry;
use sblock::{BlockFault, RecKind, count_of, data_area};
use std::sync::ledger::Ledger;
use tree_blocks::{Blocks, Cached, TreeAt, WalkFault, open_block, top_level};
use tree_defs::Site;

// The last record of a leaf.
fn last_record<K: RecKind>(block: &Block) -> Option<K::Rec>
    requires { numrecs block.now.bytes ≤ leaf_most_of K.form.kind }
    ensures { result ≡ last_of (records_of K.form block.now.bytes) }
{
    let n = count_of(block);
    if n == 0 {
        return None;
    }
    Some(K::record_at(data_area(block), n as usize - 1))
}

// The last record below a block of this level.
fn last_node<K: RecKind, B: Blocks>(
    blocks: &mut B,
    site: &Site,
    level: u8,
    root: bool,
    p: u32,
) -> Result<Option<K::Rec>, WalkFault>
    requires inside { p < site.now.bounds.length }
    requires here { B.place blocks.old ≡ site.now }
    ensures exact { (m : ℕ → List ℕ) → B.told blocks.old ≡ Some m → Meets (last_below K.form site.now m level root p) result }
    ensures sound { IfOk result (λ found. IfSome found (IsSoundOne K.form site.now.bounds)) }
    ensures no_memory { IfErr result IsNoMemory }
    ensures reading { Reads B.Blocks blocks.old blocks.new }
    ensures cause { HasCause is_failed (B.faults blocks.old) (B.faults blocks.new) result }
    ensures few { B.count blocks.new ≤ B.count blocks.old + (if nat_le level 8 then level + 1 else 1) }
{
    let block = open_block::<K, B>(blocks, site, level, root, p)?;
    if level == 0 {
        return Ok(last_record::<K>(&block));
    }
    let n = count_of(&block);
    let child = child_in::<K>(&block, (n as usize).saturating_sub(1));
    last_node::<K, B>(blocks, site, level - 1, false, child)
}

/// The last record in the tree of this root and count of levels.
pub fn last_site<K: RecKind, B: Blocks>(
    blocks: &mut B,
    site: &Site,
    tree: &TreeAt,
) -> Result<Option<K::Rec>, WalkFault>
    requires here { B.place blocks.old ≡ site.now }
    ensures exact { (m : ℕ → List ℕ) → B.told blocks.old ≡ Some m → Meets (last_in K.form site.now m tree.now.root tree.now.levels) result }
    ensures sound { IfOk result (λ found. IfSome found (IsSoundOne K.form site.now.bounds)) }
    ensures no_memory { IfErr result IsNoMemory }
    ensures reading { Reads B.Blocks blocks.old blocks.new }
    ensures cause { HasCause is_failed (B.faults blocks.old) (B.faults blocks.new) result }
    ensures few { B.count blocks.new ≤ B.count blocks.old + way_of tree.now.levels }
{
    let root = tree.root;
    if root == 0 || root >= site.bounds.length {
        return Err(WalkFault::Bad {
            block: root,
            fault: BlockFault::Range,
        });
    }
    let level = top_level(tree.levels);
    last_node::<K, B>(blocks, site, level, true, root)
}

/// The last record of a tree in key order, none of an empty tree. It is found by one way down, and
/// takes no memory. The first block on the way that fails its tests by itself is told with its
/// fault; a root outside the group is Range, and a count of levels that no tree has is Level at the
/// root, or Magic before it (XFS Algorithms and Data Structures, "Short Format B+trees").
pub fn last<K: RecKind, D: Device, L: Ledger>(
    dev: &mut D,
    cache: &mut BlkCache,
    geo: &Geometry,
    tree: &TreeAt,
    steps: &mut Steps<L>,
) -> Result<Option<K::Rec>, WalkFault>
    requires kind { tree.now.kind ≡ K.form.kind }
    requires group { tree.now.group < geo.now.agcount }
    requires room { geo.now.dblocks ≤ D.blocks dev.old Image }
    requires agreed { AgreesTold cache.old (D.content dev.old) }
    ensures exact { OfTree (layout geo.now) tree.now (D.content dev.old) (λ s m r n. Meets (last_in K.form s m r n) result) }
    ensures right { OfTree (layout geo.now) tree.now (D.content dev.old) (λ s m r n. WhereHolds K.form s m r n (λ recs. Meets (Ok (last_of recs)) result)) }
    ensures sound { IfOk result (λ found. IfSome found (IsSoundOne K.form (bounds_of (layout geo.now) tree.now.group))) }
    ensures no_memory { IfErr result IsNoMemory }
    ensures reading { OnlyRead D.Device dev.old dev.new steps.old steps.new }
    ensures cause { HasCause is_failed (D.faults dev.old) (D.faults dev.new) result }
    ensures agrees { AgreesTold cache.new (D.content dev.new) }
    ensures few { steps.new.reads ≤ steps.old.reads + way_of tree.now.levels }
{
    let site = Site::of_group(geo, tree.group);
    let mut blocks = Cached {
        dev,
        cache,
        site,
        steps,
    };
    last_site::<K, Cached<D, L>>(&mut blocks, &site, tree)
}
