ghost use Rattle.std.specs.Prelude.{◌≡◌, ◌+◌, ◌<◌, ◌≤◌, Some, IfErr, IfOk, OnOk, length};
ghost use Rattle.blk_device.specs.Causes.{HasCause};
ghost use Rattle.blk_device.specs.Contents.{Contents};
ghost use Rattle.blk_device.specs.Reading.{OnlyRead};
ghost use Rattle.blk_device.specs.declared.device.Region.TheVariants.{Image};
ghost use Rattle.check_phases.specs.Checks.{AreAccepted, AreHeads, IsHeadsOf};
ghost use Rattle.check_phases.specs.Heads.{HeadsGrow, StopsAtHead};
ghost use Rattle.geom.specs.Layout.{group_len_of};
ghost use Rattle.geom.specs.Places.{layout};
ghost use Rattle.group_trees.specs.Heads.{is_failed as is_failed_heads};
ghost use Rattle.space_check.specs.Checked.{LooksAtHeads, bad_head, heads_at};
ghost use Rattle.space_check.specs.Progress.{is_failed, IsNotFull, MeetsHead};
ghost use Rattle.tree_walk.specs.Trails.{LieInside};

use blk_device::Device;
use byte_fields::Steps;
use geom::Geometry;
use group_trees::{GroupHeads, HeadsStop, read_heads};
use space_check::Halt;
use std::alloc::Global;
use std::sync::ledger::Ledger;

// Why the heads of a group aren't answered.
fn halt_of(group: u32, stop: HeadsStop) -> Halt
    ensures failed { is_failed result ≡ is_failed_heads stop }
    ensures clear { IsNotFull result }
    ensures head { StopsAtHead group stop result }
{
    match stop {
        HeadsStop::Refused { head, fault } => Halt::Head { group, head, fault },
        HeadsStop::Failed => Halt::Failed,
        HeadsStop::Memory => Halt::Memory,
    }
}

// Reads the heads of one group.
fn read_group<D: Device, L: Ledger>(
    alloc: Global,
    dev: &mut D,
    geo: &Geometry,
    g: u32,
    steps: &mut Steps<L>,
) -> Result<GroupHeads, Halt>
    requires group { g < geo.now.agcount }
    requires room { geo.now.dblocks ≤ D.blocks dev.old Image }
    ensures exact { (c : Contents) → D.content dev.old ≡ Some c → MeetsHead g (bad_head (layout geo.now) g (heads_at (layout geo.now) (c Image) g)) result }
    ensures heads { IfOk result (λ heads. (c : Contents) → D.content dev.old ≡ Some c → IsHeadsOf (layout geo.now) (c Image) g heads) }
    ensures list { IfOk result (λ heads. LieInside (group_len_of (layout geo.now) g) heads.list.items) }
    ensures clear { IfErr result IsNotFull }
    ensures one { steps.new.reads ≡ steps.old.reads + 1 }
    ensures reading { OnlyRead D.Device dev.old dev.new steps.old steps.new }
    ensures cause { HasCause is_failed (D.faults dev.old) (D.faults dev.new) result }
{
    read_heads(alloc, dev, geo, g, steps).map_err(|stop| halt_of(g, stop))
}

// Reads the heads of one group, and puts them behind those of the groups before.
fn put_group<D: Device, L: Ledger>(
    alloc: Global,
    dev: &mut D,
    geo: &Geometry,
    g: u32,
    all: &mut Vec<GroupHeads>,
    steps: &mut Steps<L>,
) -> Result<(), Halt>
    requires group { g < geo.now.agcount }
    requires room { geo.now.dblocks ≤ D.blocks dev.old Image }
    requires before { length all.old.items ≡ g }
    ensures exact { (c : Contents) → D.content dev.old ≡ Some c → MeetsHead g (bad_head (layout geo.now) g (heads_at (layout geo.now) (c Image) g)) result }
    ensures heads { OnOk result (HeadsGrow (layout geo.now) (D.content dev.old) all.old.items all.new.items) }
    ensures accepted { OnOk result (AreAccepted (layout geo.now) 0 all.old.items → AreAccepted (layout geo.now) 0 all.new.items) }
    ensures one { OnOk result (length all.new.items ≡ length all.old.items + 1) }
    ensures clear { IfErr result IsNotFull }
    ensures counted { steps.new.reads ≡ steps.old.reads + 1 }
    ensures reading { OnlyRead D.Device dev.old dev.new steps.old steps.new }
    ensures cause { HasCause is_failed (D.faults dev.old) (D.faults dev.new) result }
{
    let heads = read_group(alloc, dev, geo, g, steps)?;
    all.push(heads)?;
    Ok(())
}

/// Reads the heads of all groups, in each the AGF, AGI and AGFL, and answers them in the groups' order;
/// the first head that is refused ends it. Block 0 of each group is read once
/// (XFS Algorithms and Data Structures, "Allocation Groups").
pub fn read_all_heads<D: Device, L: Ledger>(
    alloc: Global,
    dev: &mut D,
    geo: &Geometry,
    steps: &mut Steps<L>,
) -> Result<Vec<GroupHeads>, Halt>
    requires room { geo.now.dblocks ≤ D.blocks dev.old Image }
    ensures exact { (c : Contents) → D.content dev.old ≡ Some c → LooksAtHeads (layout geo.now) (c Image) steps.old.reads steps.new.reads result }
    ensures heads { IfOk result (λ all. (c : Contents) → D.content dev.old ≡ Some c → AreHeads (layout geo.now) (c Image) 0 all.items) }
    ensures accepted { IfOk result (λ all. AreAccepted (layout geo.now) 0 all.items) }
    ensures all { IfOk result (λ all. length all.items ≡ geo.now.agcount) }
    ensures clear { IfErr result IsNotFull }
    ensures reading { OnlyRead D.Device dev.old dev.new steps.old steps.new }
    ensures cause { HasCause is_failed (D.faults dev.old) (D.faults dev.new) result }
{
    let mut all = Vec::new(alloc);
    for g in 0..geo.agcount {
        put_group(alloc, dev, geo, g, &mut all, steps)?;
    }
    Ok(all)
}
