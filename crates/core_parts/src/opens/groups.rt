ghost use Rattle.std.specs.Prelude.{◌≡◌, ◌<◌, ◌≤◌, IfErr, IfOk, Some};
ghost use Rattle.blk_cache.specs.Cache.{AgreesTold};
ghost use Rattle.blk_device.specs.Causes.{HasCause};
ghost use Rattle.blk_device.specs.Contents.{Contents};
ghost use Rattle.blk_device.specs.Reading.{OnlyRead};
ghost use Rattle.blk_device.specs.declared.device.Region.TheVariants.{Image};
ghost use Rattle.core_parts.specs.Opens.Groups.{AreBadOf, IsFresh, bad_said, trust_by};
ghost use Rattle.core_parts.specs.Opens.Heads.{IsHeadsOf, IsOutside, is_failed};
ghost use Rattle.core_edit.specs.Heads.{seen};
ghost use Rattle.core_units.specs.Trees.{AreKnown, IsKnown};
ghost use Rattle.fs_state.specs.Kinds.{heads_of};
ghost use Rattle.fs_state.specs.Read.{opened};
ghost use Rattle.geom.specs.Places.{layout};
ghost use Rattle.group_trees.specs.Group.{AreTrees};
ghost use Rattle.group_trees.specs.Heads.{heads_seen};
ghost use Rattle.group_trees.specs.Trees.{reading_of};

use crate::opens::heads::halted;
use crate::{GroupKept, Passed, Trusts};
use blk_cache::BlkCache;
use blk_device::Device;
use byte_fields::Steps;
use core_calls::OpenRefused;
use core_edit::EditHeads;
use core_units::{BadTree, BadTrees};
use fs_model::Trust;
use geom::Geometry;
use group_trees::{GroupHeads, GroupTrees, TreeSeen, free_list, read_trees};
use std::alloc::Global;
use std::sync::ledger::Ledger;

// The heads with the free list as its entries.
fn listed(alloc: Global, heads: &EditHeads) -> Result<GroupHeads, OpenRefused>
    ensures exact { IfOk result (λ all. heads_seen all ≡ seen heads.now) }
    ensures memory { IfErr result (λ stop. stop ≡ OpenRefused.Memory) }
{
    match free_list(alloc, &heads.list) {
        Ok(list) => Ok(GroupHeads {
            agf: heads.agf,
            agi: heads.agi,
            list,
        }),
        Err(_) => Err(OpenRefused::Memory),
    }
}

// What is kept of a tree that can't be read.
fn bad_of<R: Drop>(seen: TreeSeen<R>) -> Option<BadTree>
    ensures { IsKnown result (bad_said (reading_of seen)) }
{
    match seen {
        TreeSeen::Whole(_) => None,
        TreeSeen::Bad {
            block,
            fault,
            claims,
        } => Some(BadTree {
            block,
            fault,
            claims,
        }),
    }
}

fn bad_trees(trees: GroupTrees) -> BadTrees
    ensures { AreBadOf trees result }
{
    BadTrees {
        bno: bad_of(trees.bno),
        cnt: bad_of(trees.cnt),
        rmap: bad_of(trees.rmap),
        refc: bad_of(trees.refc),
        ino: bad_of(trees.ino),
        fino: bad_of(trees.fino),
    }
}

fn trust_of(bad: &Option<BadTree>) -> Trust
    ensures { result ≡ trust_by bad.now }
{
    match bad {
        Some(_) => Trust::Sick,
        None => Trust::Unknown,
    }
}

fn trusts_of(bad: &BadTrees) -> Trusts
    ensures { result ≡ record { bno = trust_by bad.now.bno; cnt = trust_by bad.now.cnt; rmap = trust_by bad.now.rmap; refc = trust_by bad.now.refc; ino = trust_by bad.now.ino; fino = trust_by bad.now.fino } }
{
    Trusts {
        bno: trust_of(&bad.bno),
        cnt: trust_of(&bad.cnt),
        rmap: trust_of(&bad.rmap),
        refc: trust_of(&bad.refc),
        ino: trust_of(&bad.ino),
        fino: trust_of(&bad.fino),
    }
}

// What is kept of a group whose trees were read so.
fn kept_of(alloc: Global, heads: &EditHeads, bad: BadTrees) -> GroupKept
    ensures heads { result.heads ≡ heads.now }
    ensures bad { result.bad ≡ bad }
    ensures fresh { IsFresh result }
{
    GroupKept {
        heads: *heads,
        trust: trusts_of(&bad),
        passed: Passed {
            inode: false,
            rmap: false,
            free: false,
            refc: false,
        },
        bad,
        limbo: Vec::new(alloc),
    }
}

// Reads the six trees of a group.
fn trees_of<D: Device, L: Ledger>(
    alloc: Global,
    dev: &mut D,
    cache: &mut BlkCache,
    geo: &Geometry,
    g: u32,
    heads: &GroupHeads,
    steps: &mut Steps<L>,
) -> Result<GroupTrees, OpenRefused>
    requires group { g < geo.now.agcount }
    requires room { geo.now.dblocks ≤ D.blocks dev.old Image }
    requires agreed { AgreesTold cache.old (D.content dev.old) }
    requires heads { (c : Contents) → D.content dev.old ≡ Some c → heads_seen heads.now ≡ heads_of (layout geo.now) (c Image) g }
    ensures exact { IfOk result (λ trees. (c : Contents) → D.content dev.old ≡ Some c → AreTrees (layout geo.now) (c Image) g trees) }
    ensures outside { IfErr result IsOutside }
    ensures reading { OnlyRead D.Device dev.old dev.new steps.old steps.new }
    ensures cause { HasCause is_failed (D.faults dev.old) (D.faults dev.new) result }
    ensures agrees { AgreesTold cache.new (D.content dev.new) }
{
    match read_trees(alloc, dev, cache, geo, g, heads, steps) {
        Ok(trees) => Ok(trees),
        Err(stop) => Err(halted(stop)),
    }
}

/// Reads the six btrees of group `g`, which has these heads. Of those that can't be read fault and claims
/// are kept, and they are sick (XFS Online Fsck Design, "Metadata Scrubbing").
pub(crate) fn read_group<D: Device, L: Ledger>(
    alloc: Global,
    dev: &mut D,
    cache: &mut BlkCache,
    geo: &Geometry,
    g: u32,
    heads: &EditHeads,
    steps: &mut Steps<L>,
) -> Result<GroupKept, OpenRefused>
    requires group { g < geo.now.agcount }
    requires room { geo.now.dblocks ≤ D.blocks dev.old Image }
    requires agreed { AgreesTold cache.old (D.content dev.old) }
    requires heads { (c : Contents) → D.content dev.old ≡ Some c → IsHeadsOf (layout geo.now) (c Image) g heads.now }
    ensures heads { IfOk result (λ kept. kept.heads ≡ heads.now) }
    ensures fresh { IfOk result IsFresh }
    ensures bad { IfOk result (λ kept. (c : Contents) → D.content dev.old ≡ Some c → AreKnown (opened (layout geo.now) (c Image)) g kept.bad) }
    ensures outside { IfErr result IsOutside }
    ensures reading { OnlyRead D.Device dev.old dev.new steps.old steps.new }
    ensures cause { HasCause is_failed (D.faults dev.old) (D.faults dev.new) result }
    ensures agrees { AgreesTold cache.new (D.content dev.new) }
{
    let all = listed(alloc, heads)?;
    let trees = trees_of(alloc, dev, cache, geo, g, &all, steps)?;
    let bad = bad_trees(trees);
    Ok(kept_of(alloc, heads, bad))
}
