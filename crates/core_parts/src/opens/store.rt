ghost use Rattle.std.specs.Prelude.{◌≡◌, IfErr, IfOk, Some, length};
ghost use Rattle.blk_device.specs.Causes.{HasCause};
ghost use Rattle.blk_device.specs.Contents.{Contents};
ghost use Rattle.blk_device.specs.Reading.{OnlyRead};
ghost use Rattle.blk_device.specs.declared.device.Region.TheVariants.{Image};
ghost use Rattle.core_parts.specs.Opens.Groups.{IsBegun, IsOpened};
ghost use Rattle.core_parts.specs.Opens.Heads.{Each, IsFirstRefused, PassBelow, is_failed};
ghost use Rattle.core_edit.specs.Ready.{IsReady};
ghost use Rattle.geom.specs.Places.{layout};

use crate::GroupKept;
use crate::opens::open::read_all;
use blk_device::Device;
use byte_fields::Steps;
use core_calls::OpenRefused;
use core_edit::Store;
use std::alloc::Global;
use std::sync::ledger::Ledger;

/// Reads what is kept of each group, in the groups' order: first the heads of all, of which the first that
/// is refused ends it, then the six btrees of each. Of a btree that can't be read, which is sick, the first
/// fault and the claims are kept; nothing is known of the others, no unit has passed, and nothing is in
/// limbo (XFS Algorithms and Data Structures, "Allocation Groups").
pub fn open_groups<D: Device, L: Ledger>(
    alloc: Global,
    store: &mut Store<D>,
    steps: &mut Steps<L>,
) -> Result<Vec<GroupKept>, OpenRefused>
    requires ready { IsReady D.Device store.old }
    ensures all { IfOk result (λ groups. length groups.items ≡ store.old.geo.agcount) }
    ensures begun { IfOk result (λ groups. Each (IsBegun (layout store.old.geo)) 0 groups.items) }
    ensures told { IfOk result (λ groups. (c : Contents) → D.content store.old.dev ≡ Some c
        → Each (IsOpened (layout store.old.geo) (c Image)) 0 groups.items) }
    ensures passed { IfOk result (λ _. (c : Contents) → D.content store.old.dev ≡ Some c
        → PassBelow (layout store.old.geo) (c Image) store.old.geo.agcount) }
    ensures refused { IfErr result (λ stop. (c : Contents) → D.content store.old.dev ≡ Some c
        → IsFirstRefused (layout store.old.geo) (c Image) stop) }
    ensures geometry { store.new.geo ≡ store.old.geo }
    ensures edit { store.new.edit ≡ store.old.edit }
    ensures ready { IsReady D.Device store.new }
    ensures reading { OnlyRead D.Device store.old.dev store.new.dev steps.old steps.new }
    ensures cause { HasCause is_failed (D.faults store.old.dev) (D.faults store.new.dev) result }
{
    read_all(alloc, &mut store.dev, &mut store.cache, &store.geo, steps)
}
