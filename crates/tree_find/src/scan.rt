ghost use Rattle.std.specs.Prelude.{◌≡◌, List, ℕ, ◌+◌, ◌*◌, ◌<◌, ◌≤◌, [], IfOk, IfSome, IfNone, Some};
ghost use Rattle.blk_cache.specs.Cache.{AgreesTold};
ghost use Rattle.blk_device.specs.declared.device.Region.TheVariants.{Image};
ghost use Rattle.geom.specs.Places.{layout};
ghost use Rattle.tree_defs.specs.Sites.{bounds_of};
ghost use Rattle.tree_blocks.specs.Told.{OfTree};
ghost use Rattle.tree_blocks.specs.Calls.{Reads};
ghost use Rattle.blk_device.specs.Reading.{OnlyRead};
ghost use Rattle.blk_device.specs.Causes.{HasCause};
ghost use Rattle.tree_blocks.specs.Reading.{is_failed};
ghost use Rattle.tree_find.specs.Find.{way_of};
ghost use Rattle.tree_find.specs.Laws.{WhereHolds};
ghost use Rattle.tree_find.specs.Meets.{MeetsRecords, GivesNext};
ghost use Rattle.tree_find.specs.Next.{next_in, AreAbove};

use crate::next::next_node;
use blk_cache::BlkCache;
use blk_device::Device;
use byte_fields::Steps;
use geom::Geometry;
use sblock::{BlockFault, RecKind};
use std::alloc::Global;
use std::sync::ledger::Ledger;
use tree_blocks::{Blocks, Cached, TreeAt, WalkFault, top_level};
use tree_defs::Site;

// The records that were found, or none.
fn records_in<R: Drop>(alloc: Global, found: Option<Vec<R>>) -> Vec<R>
    ensures some { IfSome found (λ recs. result.items ≡ recs.items) }
    ensures none { IfNone found (result.items ≡ []) }
{
    match found {
        Some(recs) => recs,
        None => Vec::new(alloc),
    }
}

// The next leaf's records in the tree of this root and count of levels.
fn next_site<K: RecKind, B: Blocks>(
    alloc: Global,
    blocks: &mut B,
    site: &Site,
    tree: &TreeAt,
    after: &Option<K::Key>,
) -> Result<Vec<K::Rec>, WalkFault>
    requires here { B.place blocks.old ≡ site.now }
    ensures exact { (m : ℕ → List ℕ) → B.told blocks.old ≡ Some m → MeetsRecords (next_in K.form site.now m tree.now.root tree.now.levels after.now) result }
    ensures sound { IfOk result (λ recs. AreAbove K.form site.now.bounds after.now recs.items) }
    ensures reading { Reads B.Blocks blocks.old blocks.new }
    ensures cause { HasCause is_failed (B.faults blocks.old) (B.faults blocks.new) result }
    ensures few { B.count blocks.new ≤ B.count blocks.old + 2 * way_of tree.now.levels }
{
    let root = tree.root;
    if root == 0 || root >= site.bounds.length {
        return Err(WalkFault::Bad {
            block: root,
            fault: BlockFault::Range,
        });
    }
    let level = top_level(tree.levels);
    let found = next_node::<K, B>(alloc, blocks, site, level, true, root, after)?;
    Ok(records_in(alloc, found))
}

/// The records of a tree above a key, of the first leaf that has some; of the first leaf, where no
/// key is given. It is empty exactly where the tree has none. At most two blocks a level are read:
/// one way down, and another from where that one ends without a record. The first block that fails
/// its tests by itself is told with its fault; a root outside the group is Range, and a count of
/// levels that no tree has is Level at the root, or Magic before it
/// (XFS Algorithms and Data Structures, "Short Format B+trees").
pub fn next_leaf<K: RecKind, D: Device, L: Ledger>(
    alloc: Global,
    dev: &mut D,
    cache: &mut BlkCache,
    geo: &Geometry,
    tree: &TreeAt,
    after: Option<K::Key>,
    steps: &mut Steps<L>,
) -> Result<Vec<K::Rec>, WalkFault>
    requires kind { tree.now.kind ≡ K.form.kind }
    requires group { tree.now.group < geo.now.agcount }
    requires room { geo.now.dblocks ≤ D.blocks dev.old Image }
    requires agreed { AgreesTold cache.old (D.content dev.old) }
    ensures exact { OfTree (layout geo.now) tree.now (D.content dev.old) (λ s m r n. MeetsRecords (next_in K.form s m r n after) result) }
    ensures right { OfTree (layout geo.now) tree.now (D.content dev.old) (λ s m r n. WhereHolds K.form s m r n (λ recs. GivesNext K.form after recs result)) }
    ensures sound { IfOk result (λ recs. AreAbove K.form (bounds_of (layout geo.now) tree.now.group) after recs.items) }
    ensures reading { OnlyRead D.Device dev.old dev.new steps.old steps.new }
    ensures cause { HasCause is_failed (D.faults dev.old) (D.faults dev.new) result }
    ensures agrees { AgreesTold cache.new (D.content dev.new) }
    ensures few { steps.new.reads ≤ steps.old.reads + 2 * way_of tree.now.levels }
{
    let site = Site::of_group(geo, tree.group);
    let mut blocks = Cached {
        dev,
        cache,
        site,
        steps,
    };
    next_site::<K, Cached<D, L>>(alloc, &mut blocks, &site, tree, &after)
}
