ghost use Rattle.std.specs.Prelude.{◌≡◌, ◌+◌, ◌++◌, ◌∷◌, [], ◌<◌, ◌≤◌, IfErr, IfOk, OnOk, Some, length};
ghost use Rattle.blk_cache.specs.Cache.{AgreesTold};
ghost use Rattle.blk_device.specs.Causes.{HasCause};
ghost use Rattle.blk_device.specs.Contents.{Contents};
ghost use Rattle.blk_device.specs.Reading.{OnlyRead};
ghost use Rattle.blk_device.specs.declared.device.Region.TheVariants.{Image};
ghost use Rattle.core_parts.specs.Opens.Groups.{IsBegun, IsOpened};
ghost use Rattle.core_parts.specs.Opens.Heads.{Each, IsFirstRefused, IsHeadsOf, IsOutside, PassBelow, is_failed};
ghost use Rattle.core_edit.specs.Stands.{AreOf};
ghost use Rattle.geom.specs.Places.{layout};

use crate::GroupKept;
use crate::opens::groups::read_group;
use crate::opens::heads::read_all_heads;
use blk_cache::BlkCache;
use blk_device::Device;
use byte_fields::Steps;
use core_calls::OpenRefused;
use core_edit::EditHeads;
use geom::Geometry;
use std::alloc::Global;
use std::sync::ledger::Ledger;

// Puts what is kept of a group behind what is kept of the groups before.
fn put_group(groups: &mut Vec<GroupKept>, kept: GroupKept) -> Result<(), OpenRefused>
    ensures put { OnOk result (groups.new.items ≡ groups.old.items ++ kept ∷ []) }
    ensures memory { IfErr result (λ stop. stop ≡ OpenRefused.Memory) }
{
    if groups.push(kept).is_err() {
        return Err(OpenRefused::Memory);
    }
    Ok(())
}

// Reads the trees of the group behind those that were read, by its heads among those of all groups.
fn next_group<D: Device, L: Ledger>(
    alloc: Global,
    dev: &mut D,
    cache: &mut BlkCache,
    geo: &Geometry,
    g: u32,
    all: &[EditHeads],
    groups: &mut Vec<GroupKept>,
    steps: &mut Steps<L>,
) -> Result<(), OpenRefused>
    requires group { g < geo.now.agcount }
    requires room { geo.now.dblocks ≤ D.blocks dev.old Image }
    requires agreed { AgreesTold cache.old (D.content dev.old) }
    requires all { length all.now ≡ geo.now.agcount }
    requires before { length groups.old.items ≡ g }
    requires told { (c : Contents) → D.content dev.old ≡ Some c → Each (IsHeadsOf (layout geo.now) (c Image)) 0 all.now }
    requires of_group { Each (AreOf (layout geo.now)) 0 all.now }
    ensures one { OnOk result (length groups.new.items ≡ length groups.old.items + 1) }
    ensures begun { OnOk result (Each (IsBegun (layout geo.now)) 0 groups.old.items → Each (IsBegun (layout geo.now)) 0 groups.new.items) }
    ensures told { OnOk result ((c : Contents) → D.content dev.old ≡ Some c → Each (IsOpened (layout geo.now) (c Image)) 0 groups.old.items → Each (IsOpened (layout geo.now) (c Image)) 0 groups.new.items) }
    ensures outside { IfErr result IsOutside }
    ensures reading { OnlyRead D.Device dev.old dev.new steps.old steps.new }
    ensures cause { HasCause is_failed (D.faults dev.old) (D.faults dev.new) result }
    ensures agrees { AgreesTold cache.new (D.content dev.new) }
{
    let heads = &all[g as usize];
    let kept = read_group(alloc, dev, cache, geo, g, heads, steps)?;
    put_group(groups, kept)?;
    Ok(())
}

// Reads the trees of all groups, which have these heads.
fn read_groups<D: Device, L: Ledger>(
    alloc: Global,
    dev: &mut D,
    cache: &mut BlkCache,
    geo: &Geometry,
    all: &[EditHeads],
    steps: &mut Steps<L>,
) -> Result<Vec<GroupKept>, OpenRefused>
    requires room { geo.now.dblocks ≤ D.blocks dev.old Image }
    requires agreed { AgreesTold cache.old (D.content dev.old) }
    requires all { length all.now ≡ geo.now.agcount }
    requires told { (c : Contents) → D.content dev.old ≡ Some c → Each (IsHeadsOf (layout geo.now) (c Image)) 0 all.now }
    requires of_group { Each (AreOf (layout geo.now)) 0 all.now }
    ensures all { IfOk result (λ groups. length groups.items ≡ geo.now.agcount) }
    ensures begun { IfOk result (λ groups. Each (IsBegun (layout geo.now)) 0 groups.items) }
    ensures told { IfOk result (λ groups. (c : Contents) → D.content dev.old ≡ Some c → Each (IsOpened (layout geo.now) (c Image)) 0 groups.items) }
    ensures outside { IfErr result IsOutside }
    ensures reading { OnlyRead D.Device dev.old dev.new steps.old steps.new }
    ensures cause { HasCause is_failed (D.faults dev.old) (D.faults dev.new) result }
    ensures agrees { AgreesTold cache.new (D.content dev.new) }
{
    let mut groups = Vec::new(alloc);
    for g in 0..geo.agcount {
        next_group(alloc, dev, cache, geo, g, all, &mut groups, steps)?;
    }
    Ok(groups)
}

/// What is kept of each group, as [`crate::opens::store::open_groups`] says, of a device with its cache.
pub(crate) fn read_all<D: Device, L: Ledger>(
    alloc: Global,
    dev: &mut D,
    cache: &mut BlkCache,
    geo: &Geometry,
    steps: &mut Steps<L>,
) -> Result<Vec<GroupKept>, OpenRefused>
    requires room { geo.now.dblocks ≤ D.blocks dev.old Image }
    requires agreed { AgreesTold cache.old (D.content dev.old) }
    ensures all { IfOk result (λ groups. length groups.items ≡ geo.now.agcount) }
    ensures begun { IfOk result (λ groups. Each (IsBegun (layout geo.now)) 0 groups.items) }
    ensures told { IfOk result (λ groups. (c : Contents) → D.content dev.old ≡ Some c → Each (IsOpened (layout geo.now) (c Image)) 0 groups.items) }
    ensures passed { IfOk result (λ _. (c : Contents) → D.content dev.old ≡ Some c → PassBelow (layout geo.now) (c Image) geo.now.agcount) }
    ensures refused { IfErr result (λ stop. (c : Contents) → D.content dev.old ≡ Some c → IsFirstRefused (layout geo.now) (c Image) stop) }
    ensures reading { OnlyRead D.Device dev.old dev.new steps.old steps.new }
    ensures cause { HasCause is_failed (D.faults dev.old) (D.faults dev.new) result }
    ensures agrees { AgreesTold cache.new (D.content dev.new) }
{
    let all = read_all_heads(alloc, dev, geo, steps)?;
    read_groups(alloc, dev, cache, geo, all.as_slice(), steps)
}
