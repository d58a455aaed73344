ghost use Rattle.std.specs.Prelude.{◌≡◌, List, ℕ, ◌+◌, ◌-◌, ◌<◌, ◌≤◌, true, length, IfOk, OnOk, Some};
ghost use Rattle.blk_cache.specs.Cache.{AgreesTold};
ghost use Rattle.blk_device.specs.declared.device.Region.TheVariants.{Image};
ghost use Rattle.geom.specs.Places.{layout};
ghost use Rattle.sblock.specs.Kinds.{node_most_of};
ghost use Rattle.tree_defs.specs.Sites.{bounds_of};
ghost use Rattle.tree_defs.specs.Tree.{entry_at, agrees, fresh, closed, read_node, read_tree};
ghost use Rattle.tree_blocks.specs.Told.{OfTree, WhereTold};
ghost use Rattle.tree_blocks.specs.Meets.{Refuses};
ghost use Rattle.tree_defs.specs.Walked.{walked_node, walked};
ghost use Rattle.tree_walk.specs.Meets.{MeetsBlock, MeetsTree, MeetsTreeAt, HasRead, CountedBy, CountsBlock, CountsTree};
ghost use Rattle.tree_blocks.specs.Calls.{Reads};
ghost use Rattle.blk_device.specs.Reading.{OnlyRead};
ghost use Rattle.blk_device.specs.Causes.{HasCause};
ghost use Rattle.tree_blocks.specs.Reading.{CauseOf, is_failed};
ghost use Rattle.tree_walk.specs.Trails.{trail_of, AreSound, LieInside};

use crate::enter::enter;
use crate::leaf::take_leaf;
use crate::seen::{Seen, fresh_seen, open_end_of};
use blk_cache::BlkCache;
use blk_device::Device;
use byte_fields::{Block, Steps, get_u32};
use geom::Geometry;
use sblock::{BlockFault, RecKind, Span, child_at, count_of, data_area, join_spans};
use std::alloc::Global;
use std::sync::ledger::Ledger;
use tree_blocks::{Blocks, Cached, TreeAt, TreeRead, WalkFault};
use tree_defs::Site;

fn do_keys_agree<K: RecKind>(low: &K::Key, high: &K::Key, span: &Span<K::Key>) -> bool
    ensures { result ≡ agrees K.form (record { low = low.now; high = high.now; child = 0 }) (Some span.now) }
{
    let is_low = !K::is_before(low, &span.low) && !K::is_before(&span.low, low);
    let is_high = !K::is_before(high, &span.high) && !K::is_before(&span.high, high);
    is_low && (!K::kind().has_high_keys() || is_high)
}

// Whether the keys of entry `i` are its subtree's.
fn does_agree<K: RecKind>(area: &[u8], i: usize, below: &Option<Span<K::Key>>) -> bool
    requires whole { length area.now ≡ 4040 }
    requires room { i < node_most_of K.form.kind }
    ensures { result ≡ agrees K.form (entry_at K.form area.now i) below.now }
{
    match below {
        None => false,
        Some(span) => do_keys_agree::<K>(&K::key_at(area, i), &K::high_key_at(area, i), span),
    }
}

// Reads a subtree: a block's own tests before its children, and the test of a child's keys after it.
fn walk_node<K: RecKind, B: Blocks>(
    blocks: &mut B,
    site: &Site,
    level: u8,
    root: bool,
    p: u32,
    seen: &mut Seen<K::Rec>,
) -> Result<Option<Span<K::Key>>, WalkFault>
    requires low { level < 9 }
    requires inside { p < site.now.bounds.length }
    requires here { B.place blocks.old ≡ site.now }
    ensures exact { MeetsBlock K.form site.now (B.told blocks.old) level root p (trail_of seen.old) result (trail_of seen.new) }
    ensures sound { AreSound K.form site.now.bounds seen.old.recs.items → OnOk result (AreSound K.form site.now.bounds seen.new.recs.items) }
    ensures lie { LieInside site.now.bounds.length seen.old.blocks.items → OnOk result (LieInside site.now.bounds.length seen.new.blocks.items) }
    ensures counted { CountsBlock K.form site.now (B.told blocks.old) level root p (trail_of seen.old) (B.count blocks.old) (B.count blocks.new) result }
    ensures reading { Reads B.Blocks blocks.old blocks.new }
    ensures cause { HasCause is_failed (B.faults blocks.old) (B.faults blocks.new) result }
    ensures each { OnOk result (B.count blocks.new + length seen.old.blocks.items ≡ B.count blocks.old + length seen.new.blocks.items) }
{
    let mut block = Block::zeroed();
    enter::<K, B>(blocks, site, level, root, p, seen, &mut block)?;
    if level == 0 {
        return take_leaf::<K>(&block, &site.bounds, seen);
    }
    let area = data_area(&block);
    let mut span = None;
    for i in 0..count_of(&block) {
        let child = child_at(K::kind(), area, i as usize);
        let below = walk_node::<K, B>(blocks, site, level - 1, false, child, seen)?;
        if !does_agree::<K>(area, i as usize, &below) {
            return Err(WalkFault::Bad {
                block: p,
                fault: BlockFault::Key,
            });
        }
        span = join_spans::<K>(span, below);
    }
    Ok(span)
}

// A root whose head has a count of levels that no tree has: Magic, or else Level.
fn refuse_levels<K: RecKind, B: Blocks>(blocks: &mut B, site: &Site, root: u32) -> WalkFault
    requires inside { root < site.now.bounds.length }
    requires here { B.place blocks.old ≡ site.now }
    ensures exact { (m : ℕ → List ℕ) → B.told blocks.old ≡ Some m → Refuses (read_node K.form site.now m 9 true root fresh) result }
    ensures counted { (m : ℕ → List ℕ) → B.told blocks.old ≡ Some m → CountedBy (B.count blocks.old) (walked_node K.form site.now m 9 true root fresh) (B.count blocks.new) result }
    ensures reading { Reads B.Blocks blocks.old blocks.new }
    ensures cause { CauseOf (B.faults blocks.old) (B.faults blocks.new) result }
{
    let block = match blocks.load(root) {
        Ok(block) => block,
        Err(fault) => return fault,
    };
    if get_u32(&block.bytes, 0) == K::kind().magic() {
        WalkFault::Bad {
            block: root,
            fault: BlockFault::Level,
        }
    } else {
        WalkFault::Bad {
            block: root,
            fault: BlockFault::Magic,
        }
    }
}

// Reads a tree of one to nine levels.
fn walk_levels<K: RecKind, B: Blocks>(
    alloc: Global,
    blocks: &mut B,
    site: &Site,
    root: u32,
    levels: u32,
) -> Result<TreeRead<K::Rec>, WalkFault>
    requires some { 1 ≤ levels }
    requires few { levels ≤ 9 }
    requires inside { root < site.now.bounds.length }
    requires here { B.place blocks.old ≡ site.now }
    ensures exact { (m : ℕ → List ℕ) → B.told blocks.old ≡ Some m → MeetsTree (closed levels (read_node K.form site.now m (levels - 1) true root fresh)) result }
    ensures sound { IfOk result (λ read. AreSound K.form site.now.bounds read.recs.items) }
    ensures lie { IfOk result (λ read. LieInside site.now.bounds.length read.blocks.items) }
    ensures counted { CountsBlock K.form site.now (B.told blocks.old) (levels - 1) true root fresh (B.count blocks.old) (B.count blocks.new) result }
    ensures reading { Reads B.Blocks blocks.old blocks.new }
    ensures cause { HasCause is_failed (B.faults blocks.old) (B.faults blocks.new) result }
    ensures each { IfOk result (λ read. B.count blocks.new ≡ B.count blocks.old + length read.blocks.items) }
{
    let mut seen = fresh_seen::<K::Rec>(alloc);
    let level = (levels - 1) as u8;
    walk_node::<K, B>(blocks, site, level, true, root, &mut seen)?;
    // Last of all: that another block follows is only wrong once the tree has ended without it.
    if let Some(block) = open_end_of(&seen, levels) {
        return Err(WalkFault::Bad {
            block,
            fault: BlockFault::Sibling,
        });
    }
    Ok(TreeRead {
        recs: seen.recs,
        blocks: seen.blocks,
    })
}

/// The records and blocks of a tree, or its first fault, read by any way of reading a group's blocks,
/// as through a transaction; `walk` is the same on a device.
pub fn walk_site<K: RecKind, B: Blocks>(
    alloc: Global,
    blocks: &mut B,
    site: &Site,
    tree: &TreeAt,
) -> Result<TreeRead<K::Rec>, WalkFault>
    requires here { B.place blocks.old ≡ site.now }
    ensures exact { WhereTold (B.told blocks.old) (λ m. MeetsTreeAt K.form site.now m tree.now result) }
    ensures sound { IfOk result (λ read. AreSound K.form site.now.bounds read.recs.items) }
    ensures lie { IfOk result (λ read. LieInside site.now.bounds.length read.blocks.items) }
    ensures counted { WhereTold (B.told blocks.old) (λ m.
        CountsTree K.form site.now m tree.now (B.count blocks.old) (B.count blocks.new) result) }
    ensures reading { Reads B.Blocks blocks.old blocks.new }
    ensures cause { HasCause is_failed (B.faults blocks.old) (B.faults blocks.new) result }
    ensures each { IfOk result (λ read. B.count blocks.new ≡ B.count blocks.old + length read.blocks.items) }
{
    let root = tree.root;
    // There is no block to show, and the number that was read is what helps.
    if root == 0 || root >= site.bounds.length {
        return Err(WalkFault::Bad {
            block: root,
            fault: BlockFault::Range,
        });
    }
    if tree.levels == 0 || tree.levels > 9 {
        return Err(refuse_levels::<K, B>(blocks, site, root));
    }
    walk_levels::<K, B>(alloc, blocks, site, root, tree.levels)
}

/// The records and blocks of a tree, or its first fault with the block where it is: the blocks are
/// read depth first from the root, each block's own tests before its children. A root outside the
/// group is Range; a count of levels that no tree has is Level at the root, or Magic before it
/// (XFS Algorithms and Data Structures, "Short Format B+trees").
pub fn walk<K: RecKind, D: Device, L: Ledger>(
    alloc: Global,
    dev: &mut D,
    cache: &mut BlkCache,
    geo: &Geometry,
    tree: &TreeAt,
    steps: &mut Steps<L>,
) -> Result<TreeRead<K::Rec>, WalkFault>
    requires kind { tree.now.kind ≡ K.form.kind }
    requires group { tree.now.group < geo.now.agcount }
    requires room { geo.now.dblocks ≤ D.blocks dev.old Image }
    requires agreed { AgreesTold cache.old (D.content dev.old) }
    ensures exact { OfTree (layout geo.now) tree.now (D.content dev.old) (λ s m r n. MeetsTree (read_tree K.form s m r n) result) }
    ensures sound { IfOk result (λ read. AreSound K.form (bounds_of (layout geo.now) tree.now.group) read.recs.items) }
    ensures lie { IfOk result (λ read. LieInside (bounds_of (layout geo.now) tree.now.group).length read.blocks.items) }
    ensures counted { OfTree (layout geo.now) tree.now (D.content dev.old) (λ s m r n. HasRead steps.old.reads (walked K.form s m r n) steps.new.reads result) }
    ensures reading { OnlyRead D.Device dev.old dev.new steps.old steps.new }
    ensures cause { HasCause is_failed (D.faults dev.old) (D.faults dev.new) result }
    ensures agrees { AgreesTold cache.new (D.content dev.new) }
    ensures each { IfOk result (λ read. steps.new.reads ≡ steps.old.reads + length read.blocks.items) }
{
    let site = Site::of_group(geo, tree.group);
    let mut blocks = Cached {
        dev,
        cache,
        site,
        steps,
    };
    walk_site::<K, Cached<D, L>>(alloc, &mut blocks, &site, tree)
}
