ghost use Rattle.std.specs.Prelude.{◌≡◌, ◌<◌, ◌≤◌, length, None, Some, IfErr};
ghost use Rattle.blk_device.specs.Causes.{HasCause};
ghost use Rattle.blk_device.specs.Contents.{Contents};
ghost use Rattle.blk_device.specs.Reading.{OnlyRead};
ghost use Rattle.blk_device.specs.declared.device.Region.TheVariants.{Image};
ghost use Rattle.check_phases.specs.Checks.{AreReadable, ChecksBoth, ChecksCounts, ChecksFree, ChecksSpace, ChecksSpaceOf, HasMappings};
ghost use Rattle.check_phases.specs.Kept.{KeepsBoth, KeepsCounts, KeepsFree, KeepsGroup};
ghost use Rattle.check_phases.specs.Parts.{AddsPart, AreGivenUp, AreSkipped, IsJudgedPart, IsSpacePart};
ghost use Rattle.check_phases.specs.Phases.{Space, lacks_mappings, lacks_nothing};
ghost use Rattle.fs_model.specs.declared.unit.Unit.TheVariants as units;
ghost use Rattle.fs_state.specs.Kinds.{heads_of};
ghost use Rattle.fs_state.specs.State.{State};
ghost use Rattle.geom.specs.Places.{layout};
ghost use Rattle.inode_pass.specs.Units.{opened_state};
ghost use Rattle.rmap_recs.specs.Rmap.{rmap_form};
ghost use Rattle.space_check.specs.Events.{most_entries};
ghost use Rattle.space_check.specs.Progress.{is_failed, IsOwn};
ghost use Rattle.tree_defs.specs.Sites.{bounds_of};
ghost use Rattle.tree_walk.specs.Trails.{AreSound};

use crate::lacks::mappings_lacked;
use crate::tally::Tally;
use ag_headers::Agf;
use blk_cache::BlkCache;
use blk_device::Device;
use byte_fields::Steps;
use fs_model::{Evidence, Unit};
use geom::Geometry;
use quiet_check::{Judged, judge_counts, judge_free_space};
use rmap_recs::{RmapKind, RmapRec};
use sblock::Kind;
use space_check::{Halt, IndexRead, read_index, rmap_tree};
use std::alloc::Global;
use std::sync::ledger::Ledger;
use tree_walk::TreeRead;

// Checks free space, which has begun, by the reverse mappings.
fn check_free<D: Device, L: Ledger>(
    alloc: Global,
    dev: &mut D,
    geo: &Geometry,
    g: u32,
    agf: &Agf,
    mapped: &TreeRead<RmapRec>,
    tally: &mut Tally,
    steps: &mut Steps<L>,
) -> Result<(), Halt>
    requires group { g < geo.now.agcount }
    requires sound { AreSound rmap_form (bounds_of (layout geo.now) g) mapped.now.recs.items }
    requires room { geo.now.dblocks ≤ D.blocks dev.old Image }
    requires begun { length tally.old.journal.entries.items < most_entries }
    ensures exact { (c : Contents) → D.content dev.old ≡ Some c → ChecksFree (layout geo.now) (c Image) g agf.now mapped.now tally.old tally.new result }
    ensures added { AddsPart (IsJudgedPart g units.Free) tally.old tally.new result }
    ensures inodes { tally.new.inodes ≡ tally.old.inodes }
    ensures kept { KeepsFree (layout geo.now) (D.content dev.old) g agf.now mapped.now tally.old steps.old.reads tally.new steps.new.reads result }
    ensures reading { OnlyRead D.Device dev.old dev.new steps.old steps.new }
    ensures cause { HasCause is_failed (D.faults dev.old) (D.faults dev.new) result }
{
    let judged = judge_free_space(alloc, dev, geo, g, agf, mapped, steps)?;
    tally.add(alloc, g, Unit::Free, &judged)
}

// Checks reference counts by the reverse mappings.
fn check_counts<D: Device, L: Ledger>(
    alloc: Global,
    dev: &mut D,
    geo: &Geometry,
    g: u32,
    agf: &Agf,
    mapped: &TreeRead<RmapRec>,
    tally: &mut Tally,
    steps: &mut Steps<L>,
) -> Result<(), Halt>
    requires group { g < geo.now.agcount }
    requires sound { AreSound rmap_form (bounds_of (layout geo.now) g) mapped.now.recs.items }
    requires room { geo.now.dblocks ≤ D.blocks dev.old Image }
    ensures exact { (c : Contents) → D.content dev.old ≡ Some c → ChecksCounts (layout geo.now) (c Image) g agf.now mapped.now tally.old tally.new result }
    ensures added { AddsPart (IsJudgedPart g units.Refc) tally.old tally.new result }
    ensures inodes { tally.new.inodes ≡ tally.old.inodes }
    ensures kept { KeepsCounts (layout geo.now) (D.content dev.old) g agf.now mapped.now tally.old steps.old.reads tally.new steps.new.reads result }
    ensures reading { OnlyRead D.Device dev.old dev.new steps.old steps.new }
    ensures cause { HasCause is_failed (D.faults dev.old) (D.faults dev.new) result }
{
    tally.begin()?;
    let judged = judge_counts(alloc, dev, geo, g, agf, mapped, steps)?;
    tally.add(alloc, g, Unit::Refc, &judged)
}

// Checks both by the reverse mappings.
fn check_both<D: Device, L: Ledger>(
    alloc: Global,
    dev: &mut D,
    geo: &Geometry,
    g: u32,
    agf: &Agf,
    mapped: &TreeRead<RmapRec>,
    tally: &mut Tally,
    steps: &mut Steps<L>,
) -> Result<(), Halt>
    requires group { g < geo.now.agcount }
    requires sound { AreSound rmap_form (bounds_of (layout geo.now) g) mapped.now.recs.items }
    requires room { geo.now.dblocks ≤ D.blocks dev.old Image }
    requires begun { length tally.old.journal.entries.items < most_entries }
    ensures exact { (c : Contents) → D.content dev.old ≡ Some c → ChecksBoth (layout geo.now) (c Image) g agf.now mapped.now tally.old tally.new result }
    ensures added { AddsPart (IsSpacePart g) tally.old tally.new result }
    ensures inodes { tally.new.inodes ≡ tally.old.inodes }
    ensures kept { KeepsBoth (layout geo.now) (D.content dev.old) g agf.now mapped.now tally.old steps.old.reads tally.new steps.new.reads result }
    ensures reading { OnlyRead D.Device dev.old dev.new steps.old steps.new }
    ensures cause { HasCause is_failed (D.faults dev.old) (D.faults dev.new) result }
{
    check_free(alloc, dev, geo, g, agf, mapped, tally, steps)?;
    check_counts(alloc, dev, geo, g, agf, mapped, tally, steps)
}

// Gives both up, since the reverse mappings, which passed, can't be read any more: the device changed
// in between.
fn give_up_both(alloc: Global, g: u32, block: u32, tally: &mut Tally) -> Result<(), Halt>
    requires begun { length tally.old.journal.entries.items < most_entries }
    ensures added { AddsPart (AreGivenUp block g) tally.old tally.new result }
    ensures inodes { tally.new.inodes ≡ tally.old.inodes }
    ensures own { IfErr result IsOwn }
{
    let judged = Judged::GaveUp(Evidence::BadTree {
        kind: Kind::Rmap,
        block,
    });
    tally.add(alloc, g, Unit::Free, &judged)?;
    tally.begin()?;
    tally.add(alloc, g, Unit::Refc, &judged)
}

// Checks both of a group whose reverse mappings passed.
fn check_mapped<D: Device, L: Ledger>(
    alloc: Global,
    dev: &mut D,
    geo: &Geometry,
    g: u32,
    agf: &Agf,
    tally: &mut Tally,
    steps: &mut Steps<L>,
) -> Result<(), Halt>
    requires group { g < geo.now.agcount }
    requires room { geo.now.dblocks ≤ D.blocks dev.old Image }
    requires head { (c : Contents) → D.content dev.old ≡ Some c → agf.now ≡ (heads_of (layout geo.now) (c Image) g).agf }
    requires readable { (c : Contents) → D.content dev.old ≡ Some c → HasMappings (opened_state (layout geo.now) (c Image)) g }
    ensures exact { (c : Contents) → D.content dev.old ≡ Some c → ChecksSpace (opened_state (layout geo.now) (c Image)) None g tally.old tally.new result }
    ensures added { AddsPart (IsSpacePart g) tally.old tally.new result }
    ensures inodes { tally.new.inodes ≡ tally.old.inodes }
    ensures kept { KeepsGroup (layout geo.now) (D.content dev.old) Space lacks_nothing g tally.old steps.old.reads tally.new steps.new.reads result }
    ensures reading { OnlyRead D.Device dev.old dev.new steps.old steps.new }
    ensures cause { HasCause is_failed (D.faults dev.old) (D.faults dev.new) result }
{
    tally.begin()?;
    let mut cache = BlkCache::new(alloc, 0)?;
    let tree = rmap_tree(agf, g);
    match read_index::<RmapKind, D, L>(alloc, dev, &mut cache, geo, &tree, steps)? {
        IndexRead::Whole(mapped) => check_both(alloc, dev, geo, g, agf, &mapped, tally, steps),
        IndexRead::Bad { block, .. } => give_up_both(alloc, g, block, tally),
    }
}

// Skips both, since a unit that they need didn't pass.
fn skip_both(g: u32, needed: (u32, Unit), tally: &mut Tally) -> Result<(), Halt>
    ensures exact { (a : State) → ChecksSpace a (Some needed) g tally.old tally.new result }
    ensures added { AddsPart (AreSkipped needed g) tally.old tally.new result }
    ensures inodes { tally.new.inodes ≡ tally.old.inodes }
    ensures own { IfErr result IsOwn }
{
    tally.begin()?;
    tally.skip(g, Unit::Free, needed)?;
    tally.begin()?;
    tally.skip(g, Unit::Refc, needed)
}

/// Checks free space and reference counts of group `g`, or skips both where its reverse mappings
/// didn't pass. A journal that is full, a device that failed and want of memory end it, each unit with
/// all its entries or none (XFS Online Fsck Design, "Cross-Referencing Space Metadata").
pub fn check_space<D: Device, L: Ledger>(
    alloc: Global,
    dev: &mut D,
    geo: &Geometry,
    g: u32,
    agf: &Agf,
    passed: &[bool],
    tally: &mut Tally,
    steps: &mut Steps<L>,
) -> Result<(), Halt>
    requires group { g < geo.now.agcount }
    requires room { geo.now.dblocks ≤ D.blocks dev.old Image }
    requires head { (c : Contents) → D.content dev.old ≡ Some c → agf.now ≡ (heads_of (layout geo.now) (c Image) g).agf }
    requires readable { (c : Contents) → D.content dev.old ≡ Some c → AreReadable (opened_state (layout geo.now) (c Image)) passed.now }
    ensures exact { (c : Contents) → D.content dev.old ≡ Some c → ChecksSpaceOf (layout geo.now) (c Image) passed.now g tally.old tally.new result }
    ensures added { AddsPart (IsSpacePart g) tally.old tally.new result }
    ensures inodes { tally.new.inodes ≡ tally.old.inodes }
    ensures kept { KeepsGroup (layout geo.now) (D.content dev.old) Space (lacks_mappings passed.now) g tally.old steps.old.reads tally.new steps.new.reads result }
    ensures reading { OnlyRead D.Device dev.old dev.new steps.old steps.new }
    ensures cause { HasCause is_failed (D.faults dev.old) (D.faults dev.new) result }
{
    match mappings_lacked(passed, g) {
        Some(needed) => skip_both(g, needed, tally),
        None => check_mapped(alloc, dev, geo, g, agf, tally, steps),
    }
}
