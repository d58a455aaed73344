// What the open unit of a group has gathered.
ghost use Rattle.std.specs.Prelude.{◌≡◌, ℕ, ◌+◌, ◌*◌, ◌<◌, ◌≤◌, None, Some, IfErr, IfOk, if◌then◌else◌};
ghost use Rattle.blk_cache.specs.Cache.{AgreesTold};
ghost use Rattle.blk_device.specs.Causes.{HasCause};
ghost use Rattle.blk_device.specs.Contents.{Contents};
ghost use Rattle.blk_device.specs.Reading.{OnlyRead};
ghost use Rattle.blk_device.specs.declared.device.Region.TheVariants.{Image};
ghost use Rattle.core_units.specs.Orderly.{IsOrderly, IsWholeIf};
ghost use Rattle.core_units.specs.Trees.{AreFirm, AreKnown, AreMade, AreSeenSound};
ghost use Rattle.fs_state.specs.Kinds.{Heads as HeadsOf, Image as ImageOf};
ghost use Rattle.fs_state.specs.State.{Kept as KeptOf};
ghost use Rattle.geom.specs.Layout.{Layout};
ghost use Rattle.geom.specs.Places.{layout};
ghost use Rattle.group_trees.specs.Heads.{heads_seen};
ghost use Rattle.inode_pass.specs.Stops.{is_failed};

use crate::cores::{UnitPlace, gather_cores};
use crate::{BadTrees, first_trees, gather_kind, next_kind, pass_bad};
use blk_cache::BlkCache;
use blk_device::Device;
use byte_fields::Steps;
use fs_model::{Evidence, Unit};
use geom::Geometry;
use group_trees::{GroupHeads, GroupTrees, TreeSeen};
use inode_pass::{PassStop, UnitSeen};
use quiet_check::{Listed, list_units};
use rmap_recs::RmapRec;
use sblock::Kind;
use std::alloc::{AllocError, Global};
use std::sync::ledger::Ledger;

/// What the open unit has gathered so far: its group's btrees up to the one that is being read, then
/// the units that they list, and the cores of those that were seen; with the runs of the forks' owners
/// (XFS Online Fsck Design, "Cross-Referencing Space Metadata").
#[derive(Drop)]
pub struct Gathered {
    pub trees: GroupTrees,
    pub reading: Option<Kind>,
    pub listed: Option<Listed>,
    pub at: UnitPlace,
    pub seen: Vec<UnitSeen>,
    pub owners: Vec<RmapRec>,
}

/// What a piece of the gathering says: something is left, nothing is, or the unit can't be judged
/// (XFS Online Fsck Design, "Cross-Referencing Space Metadata").
#[derive(Clone, Copy, Debug, PartialEq, Eq)]
pub enum Gathering {
    More,
    Whole,
    GaveUp(Evidence),
}

/// Nothing gathered yet, of a group with these bad btrees. `owners` are the runs of the forks' owners as
/// a scan has them; none where the unit isn't that of reverse mappings
/// (XFS Online Fsck Design, "Cross-Referencing Space Metadata").
pub fn begin(alloc: Global, bad: &BadTrees, owners: Vec<RmapRec>) -> Result<Gathered, AllocError>
    ensures orderly { IfOk result (λ gathered. (at : Layout) (g : ℕ) → IsOrderly at g gathered) }
    ensures owners { IfOk result (λ gathered. gathered.owners ≡ owners) }
    ensures made { IfOk result (λ gathered. (at : Layout) (image : ImageOf) (kept : KeptOf) (heads : HeadsOf) (g : ℕ) → AreKnown kept g bad.now → AreMade at image kept heads g gathered.reading gathered.trees) }
{
    let trees = first_trees(alloc, bad)?;
    Ok(Gathered {
        trees,
        reading: Some(Kind::Bno),
        listed: None,
        at: UnitPlace { run: 0, passed: 0 },
        seen: Vec::new(alloc),
        owners,
    })
}

// The first bad block of the reverse mappings, for a unit that is derived from them.
fn lost_source(unit: Unit, trees: &GroupTrees) -> Option<Evidence> {
    if !matches!(unit, Unit::Free | Unit::Refc) {
        return None;
    }
    match &trees.rmap {
        TreeSeen::Whole(_) => None,
        TreeSeen::Bad { block, .. } => Some(Evidence::BadTree {
            kind: Kind::Rmap,
            block: *block,
        }),
    }
}

// One leaf more of the tree of this kind, and where the reading goes on.
fn gather_reading<D: Device, L: Ledger>(
    alloc: Global,
    dev: &mut D,
    cache: &mut BlkCache,
    geo: &Geometry,
    g: u32,
    heads: &GroupHeads,
    kind: Kind,
    trees: &mut GroupTrees,
    reading: &mut Option<Kind>,
    steps: &mut Steps<L>,
) -> Result<(), PassStop>
    requires group { g < geo.now.agcount }
    requires room { geo.now.dblocks ≤ D.blocks dev.old Image }
    requires agreed { AgreesTold cache.old (D.content dev.old) }
    requires kind { reading.old ≡ Some kind }
    ensures exact { (c : Contents) → D.content dev.old ≡ Some c → (kept : KeptOf) → AreFirm (layout geo.now) (c Image) kept (heads_seen heads.now) g
        → AreMade (layout geo.now) (c Image) kept (heads_seen heads.now) g reading.old trees.old
        → IfOk result (λ _. AreMade (layout geo.now) (c Image) kept (heads_seen heads.now) g reading.new trees.new) }
    ensures sound { AreSeenSound (layout geo.now) g trees.old → AreSeenSound (layout geo.now) g trees.new }
    ensures reading { OnlyRead D.Device dev.old dev.new steps.old steps.new }
    ensures cause { HasCause is_failed (D.faults dev.old) (D.faults dev.new) result }
    ensures agrees { AgreesTold cache.new (D.content dev.new) }
    ensures few { steps.new.reads ≤ steps.old.reads + 18 }
{
    if gather_kind(alloc, dev, cache, geo, g, heads, kind, trees, steps)? {
        *reading = next_kind(kind);
    }
    Ok(())
}

// What the trees that were read so far say of the unit.
fn go_on(unit: Unit, trees: &GroupTrees) -> Gathering
    ensures { result ≡ Gathering.Whole → ⊥ }
{
    match lost_source(unit, trees) {
        Some(found) => Gathering::GaveUp(found),
        None => Gathering::More,
    }
}

// The units that the btrees list, once these are read.
fn gather_listed(
    alloc: Global,
    geo: &Geometry,
    g: u32,
    gathered: &mut Gathered,
) -> Result<(), PassStop>
    requires group { g < geo.now.agcount }
    requires orderly { IsOrderly (layout geo.now) g gathered.old }
    requires read { gathered.old.reading ≡ None }
    ensures orderly { IsOrderly (layout geo.now) g gathered.new }
    ensures trees { gathered.new.trees ≡ gathered.old.trees }
    ensures owners { gathered.new.owners ≡ gathered.old.owners }
    ensures read { gathered.new.reading ≡ None }
    ensures memory { IfErr result (λ stop. stop ≡ PassStop.Memory) }
{
    match &gathered.listed {
        Some(_) => Ok(()),
        None => {
            let length = geo.group_len(g);
            let listed = list_units(alloc, length, &gathered.trees)?;
            gathered.listed = Some(listed);
            Ok(())
        }
    }
}

// Whether all is gathered.
fn whole_if(is_done: bool) -> Gathering
    ensures { result ≡ (if is_done then Gathering.Whole else Gathering.More) }
{
    if is_done {
        Gathering::Whole
    } else {
        Gathering::More
    }
}

// The cores of some units more.
fn gather_units<D: Device, L: Ledger>(
    alloc: Global,
    dev: &mut D,
    geo: &Geometry,
    g: u32,
    gathered: &mut Gathered,
    steps: &mut Steps<L>,
) -> Result<Gathering, PassStop>
    requires group { g < geo.now.agcount }
    requires room { geo.now.dblocks ≤ D.blocks dev.old Image }
    requires orderly { IsOrderly (layout geo.now) g gathered.old }
    requires read { gathered.old.reading ≡ None }
    ensures orderly { IsOrderly (layout geo.now) g gathered.new }
    ensures whole { IfOk result (IsWholeIf (layout geo.now) g gathered.new) }
    ensures trees { gathered.new.trees ≡ gathered.old.trees }
    ensures owners { gathered.new.owners ≡ gathered.old.owners }
    ensures read { gathered.new.reading ≡ None }
    ensures reading { OnlyRead D.Device dev.old dev.new steps.old steps.new }
    ensures cause { HasCause is_failed (D.faults dev.old) (D.faults dev.new) result }
    ensures few { steps.new.reads ≤ steps.old.reads + 800 }
{
    gather_listed(alloc, geo, g, gathered)?;
    let Some(listed) = &gathered.listed else {
        return Ok(Gathering::More);
    };
    let units = listed.either.as_slice();
    let at = &mut gathered.at;
    let seen = &mut gathered.seen;
    let is_done = gather_cores(alloc, dev, geo, g, units, at, seen, steps)?;
    Ok(whole_if(is_done))
}

// The same where the tree that is read isn't bad.
fn gather_next<D: Device, L: Ledger>(
    alloc: Global,
    dev: &mut D,
    cache: &mut BlkCache,
    geo: &Geometry,
    g: u32,
    heads: &GroupHeads,
    unit: Unit,
    gathered: &mut Gathered,
    steps: &mut Steps<L>,
) -> Result<Gathering, PassStop>
    requires group { g < geo.now.agcount }
    requires room { geo.now.dblocks ≤ D.blocks dev.old Image }
    requires agreed { AgreesTold cache.old (D.content dev.old) }
    requires orderly { IsOrderly (layout geo.now) g gathered.old }
    ensures orderly { IsOrderly (layout geo.now) g gathered.new }
    ensures whole { IfOk result (IsWholeIf (layout geo.now) g gathered.new) }
    ensures exact { (c : Contents) → D.content dev.old ≡ Some c → (kept : KeptOf) → AreFirm (layout geo.now) (c Image) kept (heads_seen heads.now) g
        → AreMade (layout geo.now) (c Image) kept (heads_seen heads.now) g gathered.old.reading gathered.old.trees
        → IfOk result (λ _. AreMade (layout geo.now) (c Image) kept (heads_seen heads.now) g gathered.new.reading gathered.new.trees) }
    ensures owners { gathered.new.owners ≡ gathered.old.owners }
    ensures reading { OnlyRead D.Device dev.old dev.new steps.old steps.new }
    ensures cause { HasCause is_failed (D.faults dev.old) (D.faults dev.new) result }
    ensures agrees { AgreesTold cache.new (D.content dev.new) }
    ensures few { steps.new.reads ≤ steps.old.reads + 800 }
{
    match gathered.reading {
        Some(kind) => {
            let trees = &mut gathered.trees;
            let reading = &mut gathered.reading;
            gather_reading(
                alloc, dev, cache, geo, g, heads, kind, trees, reading, steps,
            )?;
            Ok(go_on(unit, &gathered.trees))
        }
        None => gather_units(alloc, dev, geo, g, gathered, steps),
    }
}

/// Gathers some more of what the unit is judged by: one leaf of a btree of its group, or the cores of
/// at most 100 units of inodes. A btree that is known to be bad is passed over in the same call, so that
/// each call reads something; a unit that is derived from bad reverse mappings is given up at once
/// (XFS Online Fsck Design, "Cross-Referencing Space Metadata").
pub fn gather_piece<D: Device, L: Ledger>(
    alloc: Global,
    dev: &mut D,
    cache: &mut BlkCache,
    geo: &Geometry,
    g: u32,
    heads: &GroupHeads,
    unit: Unit,
    gathered: &mut Gathered,
    steps: &mut Steps<L>,
) -> Result<Gathering, PassStop>
    requires group { g < geo.now.agcount }
    requires room { geo.now.dblocks ≤ D.blocks dev.old Image }
    requires agreed { AgreesTold cache.old (D.content dev.old) }
    requires orderly { IsOrderly (layout geo.now) g gathered.old }
    ensures orderly { IsOrderly (layout geo.now) g gathered.new }
    ensures whole { IfOk result (IsWholeIf (layout geo.now) g gathered.new) }
    ensures exact { (c : Contents) → D.content dev.old ≡ Some c → (kept : KeptOf) → AreFirm (layout geo.now) (c Image) kept (heads_seen heads.now) g
        → AreMade (layout geo.now) (c Image) kept (heads_seen heads.now) g gathered.old.reading gathered.old.trees
        → IfOk result (λ _. AreMade (layout geo.now) (c Image) kept (heads_seen heads.now) g gathered.new.reading gathered.new.trees) }
    ensures owners { gathered.new.owners ≡ gathered.old.owners }
    ensures reading { OnlyRead D.Device dev.old dev.new steps.old steps.new }
    ensures cause { HasCause is_failed (D.faults dev.old) (D.faults dev.new) result }
    ensures agrees { AgreesTold cache.new (D.content dev.new) }
    ensures few { steps.new.reads ≤ steps.old.reads + 800 }
{
    if let Some(found) = lost_source(unit, &gathered.trees) {
        return Ok(Gathering::GaveUp(found));
    }
    gathered.reading = pass_bad(&gathered.trees, gathered.reading);
    gather_next(alloc, dev, cache, geo, g, heads, unit, gathered, steps)
}
