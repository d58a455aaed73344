ghost use Rattle.std.specs.Prelude.{◌≡◌, List, ℕ, ◌+◌, ◌*◌, ◌<◌, ◌≤◌, true, IfOk, IfErr, IfSome, Some};
ghost use Rattle.blk_cache.specs.Cache.{AgreesTold};
ghost use Rattle.blk_device.specs.declared.device.Region.TheVariants.{Image};
ghost use Rattle.geom.specs.Places.{layout};
ghost use Rattle.tree_defs.specs.Claims.{lone_fault};
ghost use Rattle.tree_defs.specs.Sites.{bounds_of};
ghost use Rattle.tree_blocks.specs.Told.{OfTree};
ghost use Rattle.tree_blocks.specs.Meets.{RefusesBlock, IsNoMemory};
ghost use Rattle.tree_blocks.specs.Calls.{Reads};
ghost use Rattle.blk_device.specs.Reading.{OnlyRead};
ghost use Rattle.blk_device.specs.Causes.{HasCause};
ghost use Rattle.tree_blocks.specs.Reading.{CauseOf, is_failed};
ghost use Rattle.tree_cover.specs.Answers.{AnswersReadable};
ghost use Rattle.tree_cover.specs.Covers.{IsSought};
ghost use Rattle.tree_cover.specs.Covering.{covering_in};
ghost use Rattle.tree_cover.specs.Found.{MeetsSearch};

use crate::covers::Covers;
use crate::leaf::Asked;
use crate::search::search;
use blk_cache::BlkCache;
use blk_device::Device;
use byte_fields::Steps;
use geom::Geometry;
use run_sets::Run;
use sblock::{BlockFault, RecKind};
use std::sync::ledger::Ledger;
use tree_blocks::{Blocks, Cached, TreeAt, WalkFault, open_block};
use tree_defs::Site;

// A root whose head has a count of levels that no tree has: Magic, or else Level.
fn refuse_levels<K: RecKind, B: Blocks>(blocks: &mut B, site: &Site, root: u32) -> WalkFault
    requires inside { root < site.now.bounds.length }
    requires here { B.place blocks.old ≡ site.now }
    ensures refused { (m : ℕ → List ℕ) → B.told blocks.old ≡ Some m → RefusesBlock root (lone_fault K.form site.now 9 true root (m root)) result }
    ensures no_memory { IsNoMemory result }
    ensures reading { Reads B.Blocks blocks.old blocks.new }
    ensures cause { CauseOf (B.faults blocks.old) (B.faults blocks.new) result }
    ensures one { B.count blocks.new ≡ B.count blocks.old + 1 }
{
    match open_block::<K, B>(blocks, site, 9, true, root) {
        Ok(_block) => unreachable!(),
        Err(fault) => fault,
    }
}

// Searches the tree of this root and count of levels.
fn search_site<K: RecKind, B: Blocks>(
    blocks: &mut B,
    site: &Site,
    tree: &TreeAt,
    asked: &Asked<K::Key>,
) -> Result<Option<K::Rec>, WalkFault>
    requires here { B.place blocks.old ≡ site.now }
    ensures exact { (m : ℕ → List ℕ) → B.told blocks.old ≡ Some m → MeetsSearch (covering_in K.form site.now m asked.now.run asked.now.after tree.now.root tree.now.levels) result }
    ensures sought { IfOk result (λ found. IfSome found (IsSought K.form site.now.bounds asked.now.run asked.now.after)) }
    ensures no_memory { IfErr result IsNoMemory }
    ensures reading { Reads B.Blocks blocks.old blocks.new }
    ensures cause { HasCause is_failed (B.faults blocks.old) (B.faults blocks.new) result }
    ensures few { B.count blocks.new ≤ B.count blocks.old + 18 }
    ensures two_a_level { 1 ≤ tree.now.levels → B.count blocks.new ≤ B.count blocks.old + 2 * tree.now.levels }
{
    let root = tree.root;
    if root == 0 || root >= site.bounds.length {
        return Err(WalkFault::Bad {
            block: root,
            fault: BlockFault::Range,
        });
    }
    if tree.levels == 0 || tree.levels > 9 {
        return Err(refuse_levels::<K, B>(blocks, site, root));
    }
    let level = (tree.levels - 1) as u8;
    search::<K, B>(blocks, site, level, true, root, None, asked)
}

/// The first record of a tree, above `after` in key order (of all, where it is None), that has a
/// block of the run (group-relative). It is found through the nodes' keys, in at most two blocks a
/// level, and takes no memory. The blocks that are read are tested by themselves, and the first
/// that fails is told: a root outside the group is Range, a count of levels that no tree has is
/// Level at the root, or Magic before it
/// (XFS Algorithms and Data Structures, "Reverse-Mapping B+tree").
pub fn covering<K: Covers, D: Device, L: Ledger>(
    dev: &mut D,
    cache: &mut BlkCache,
    geo: &Geometry,
    tree: &TreeAt,
    run: Run,
    after: Option<K::Key>,
    steps: &mut Steps<L>,
) -> Result<Option<K::Rec>, WalkFault>
    requires kind { tree.now.kind ≡ K.form.kind }
    requires group { tree.now.group < geo.now.agcount }
    requires room { geo.now.dblocks ≤ D.blocks dev.old Image }
    requires agreed { AgreesTold cache.old (D.content dev.old) }
    ensures exact { OfTree (layout geo.now) tree.now (D.content dev.old) (λ s m r n. MeetsSearch (covering_in K.form s m run after r n) result) }
    // On a readable tree it is the first record that has a block of the run, of the kinds without
    // high keys where no record has a block of the next one.
    ensures readable { OfTree (layout geo.now) tree.now (D.content dev.old) (λ s m r n. AnswersReadable K.form s m run after r n result) }
    ensures sought { IfOk result (λ found. IfSome found (IsSought K.form (bounds_of (layout geo.now) tree.now.group) run after)) }
    ensures no_memory { IfErr result IsNoMemory }
    ensures reading { OnlyRead D.Device dev.old dev.new steps.old steps.new }
    ensures cause { HasCause is_failed (D.faults dev.old) (D.faults dev.new) result }
    ensures agrees { AgreesTold cache.new (D.content dev.new) }
    ensures few { steps.new.reads ≤ steps.old.reads + 18 }
    ensures two_a_level { 1 ≤ tree.now.levels → steps.new.reads ≤ steps.old.reads + 2 * tree.now.levels }
{
    let site = Site::of_group(geo, tree.group);
    let asked = Asked { run, after };
    let mut blocks = Cached {
        dev,
        cache,
        site,
        steps,
    };
    search_site::<K, Cached<D, L>>(&mut blocks, &site, tree, &asked)
}
