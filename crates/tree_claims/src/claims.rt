ghost use Rattle.std.specs.Prelude.{◌≡◌, List, ℕ, ◌+◌, ◌*◌, ◌<◌, ◌≤◌, ◌==◌, true, if◌then◌else◌, IfOk, IfErr, OnOk, Some};
ghost use Rattle.blk_cache.specs.Cache.{AgreesTold};
ghost use Rattle.blk_device.specs.declared.device.Region.TheVariants.{Image};
ghost use Rattle.geom.specs.Layout.{group_len_of};
ghost use Rattle.geom.specs.Places.{layout};
ghost use Rattle.run_sets.specs.Runs.{most};
ghost use Rattle.run_sets.specs.Sets.{has};
ghost use Rattle.tree_defs.specs.Sites.{site_of};
ghost use Rattle.tree_blocks.specs.Told.{OfTree};
ghost use Rattle.tree_blocks.specs.Calls.{Reads};
ghost use Rattle.blk_device.specs.Reading.{OnlyRead};
ghost use Rattle.blk_device.specs.Causes.{HasCause};
ghost use Rattle.tree_blocks.specs.Reading.{is_failed};
ghost use Rattle.tree_claims.specs.Looks.{IsOutside, LieBelow};
ghost use Rattle.tree_claims.specs.Rows.{AreClaims, ReadsInGroup, ReadsRows};

use crate::frontier::look_level;
use crate::listed::{empty_set, one_block, set_of};
use blk_cache::BlkCache;
use blk_device::Device;
use byte_fields::Steps;
use geom::Geometry;
use run_sets::RunSet;
use sblock::RecKind;
use std::alloc::Global;
use std::sync::ledger::Ledger;
use tree_blocks::{Blocks, Cached, TreeAt, WalkFault, top_level};
use tree_defs::Site;

// How many levels there are to look at, from this one down. No block passes on level 9.
fn levels_below(top: u8) -> u8
    requires low { top ≤ 9 }
    ensures exact { result ≡ (if top == 9 then 1 else top + 1) }
{
    if top == 9 { 1 } else { top + 1 }
}

// Looks at a tree level by level, from a root in the group.
fn claimed_from<K: RecKind, B: Blocks>(
    alloc: Global,
    blocks: &mut B,
    site: &Site,
    root: u32,
    levels: u32,
) -> Result<RunSet, WalkFault>
    requires some { 1 ≤ root }
    requires inside { root < site.now.bounds.length }
    requires short { site.now.bounds.length ≤ most }
    requires here { B.place blocks.old ≡ site.now }
    ensures exact { (m : ℕ → List ℕ) → B.told blocks.old ≡ Some m → IfOk result (λ set. AreClaims K.form site.now m root levels (has set)) }
    ensures lies { IfOk result (λ set. LieBelow site.now.bounds.length (has set)) }
    ensures refused { IfErr result IsOutside }
    ensures reading { Reads B.Blocks blocks.old blocks.new }
    ensures cause { HasCause is_failed (B.faults blocks.old) (B.faults blocks.new) result }
    ensures few { B.count blocks.new ≤ B.count blocks.old + 9 * site.now.bounds.length }
    ensures each { (m : ℕ → List ℕ) → B.told blocks.old ≡ Some m → OnOk result (ReadsRows K.form site.now m root levels (B.count blocks.old) (B.count blocks.new)) }
{
    let mut claimed = Vec::new(alloc);
    let mut frontier = one_block(alloc, root)?;
    let top = top_level(levels);
    for depth in 0..levels_below(top) {
        let next = look_level::<K, B>(
            alloc,
            blocks,
            site,
            top - depth,
            depth == 0,
            &frontier,
            &mut claimed,
        )?;
        frontier = set_of(alloc, &next)?;
    }
    set_of(alloc, &claimed)
}

// The blocks that the tree of this root and count of levels claims.
fn claimed_at<K: RecKind, B: Blocks>(
    alloc: Global,
    blocks: &mut B,
    site: &Site,
    tree: &TreeAt,
) -> Result<RunSet, WalkFault>
    requires short { site.now.bounds.length ≤ most }
    requires here { B.place blocks.old ≡ site.now }
    ensures exact { (m : ℕ → List ℕ) → B.told blocks.old ≡ Some m → IfOk result (λ set. AreClaims K.form site.now m tree.now.root tree.now.levels (has set)) }
    ensures lies { IfOk result (λ set. LieBelow site.now.bounds.length (has set)) }
    ensures refused { IfErr result IsOutside }
    ensures reading { Reads B.Blocks blocks.old blocks.new }
    ensures cause { HasCause is_failed (B.faults blocks.old) (B.faults blocks.new) result }
    ensures few { B.count blocks.new ≤ B.count blocks.old + 9 * site.now.bounds.length }
    ensures each { (m : ℕ → List ℕ) → B.told blocks.old ≡ Some m → OnOk result (ReadsInGroup K.form site.now m tree.now.root tree.now.levels (B.count blocks.old) (B.count blocks.new)) }
{
    let root = tree.root;
    if root == 0 || root >= site.bounds.length {
        return empty_set(alloc);
    }
    claimed_from::<K, B>(alloc, blocks, site, root, tree.levels)
}

/// The blocks, group-relative, that a tree claims even where it can't be read: those that are
/// reached from its root through nodes that pass their own tests, whatever their siblings are, the
/// root included, and that have the magic number, place, owner and UUID of such a block. A root
/// outside the group claims nothing. It refuses only where the device fails or there is no memory
/// (XFS Algorithms and Data Structures, "Short Format B+trees").
#[tactic(auto, unfolding(tree_defs::specs::Sites::site_of))]
pub fn claimed<K: RecKind, D: Device, L: Ledger>(
    alloc: Global,
    dev: &mut D,
    cache: &mut BlkCache,
    geo: &Geometry,
    tree: &TreeAt,
    steps: &mut Steps<L>,
) -> Result<RunSet, WalkFault>
    requires kind { tree.now.kind ≡ K.form.kind }
    requires group { tree.now.group < geo.now.agcount }
    requires room { geo.now.dblocks ≤ D.blocks dev.old Image }
    requires agreed { AgreesTold cache.old (D.content dev.old) }
    ensures exact { OfTree (layout geo.now) tree.now (D.content dev.old) (λ s m r n. IfOk result (λ set. AreClaims K.form s m r n (has set))) }
    ensures inside { IfOk result (λ set. (b : ℕ) → has set b ≡ true → b < group_len_of (layout geo.now) tree.now.group) }
    ensures refused { IfErr result IsOutside }
    ensures reading { OnlyRead D.Device dev.old dev.new steps.old steps.new }
    ensures cause { HasCause is_failed (D.faults dev.old) (D.faults dev.new) result }
    ensures agrees { AgreesTold cache.new (D.content dev.new) }
    ensures few { steps.new.reads ≤ steps.old.reads + 9 * group_len_of (layout geo.now) tree.now.group }
    ensures each { OfTree (layout geo.now) tree.now (D.content dev.old) (λ s m r n. OnOk result (ReadsInGroup K.form s m r n steps.old.reads steps.new.reads)) }
{
    let site = Site::of_group(geo, tree.group);
    let mut blocks = Cached {
        dev,
        cache,
        site,
        steps,
    };
    claimed_at::<K, Cached<D, L>>(alloc, &mut blocks, &site, tree)
}
