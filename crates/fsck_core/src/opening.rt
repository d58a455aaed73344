ghost use Rattle.std.specs.Prelude.{◌≡◌, ◌≤◌, IfErr, IfOk};
ghost use Rattle.blk_device.specs.declared.device.Region.TheVariants.{Image, Redo};
ghost use Rattle.core_parts.specs.Safe.{IsSafe};
ghost use Rattle.core_edit.specs.Ready.{IsReady};
ghost use Rattle.fsck_core.specs.Opens.{AreBeside, IsBack, IsBegun};
ghost use Rattle.redo_area.specs.declared.TheConstants.{REDO_BLOCKS};

use crate::opened::{Beside, read_beside};
use blk_device::Device;
use byte_fields::Steps;
use core_calls::OpenRefused;
use core_edit::Store;
use core_parts::{Book, Desk, Parts};
use geom::Geometry;
use std::alloc::Global;
use std::sync::ledger::Ledger;

// The parts of a core right after opening, with an empty journal.
#[tactic(auto, using(crate::proofs::OpenLemmas::begun_safe))]
fn parts_of<D: Device>(alloc: Global, store: Store<D>, beside: Beside, begun: u64) -> Parts<D>
    requires ready { IsReady D.Device store }
    requires beside { AreBeside store.geo.agcount beside }
    requires calm { begun ≡ D.faults store.dev }
    ensures safe { IsSafe D.Device result }
    ensures begun { IsBegun D.Device store.dev store.geo result }
{
    let Beside {
        groups,
        units,
        drain,
        trees,
    } = beside;
    let book = Book {
        journal: Vec::new(alloc),
        begun,
        shut: None,
    };
    Parts {
        desk: Desk {
            store,
            book,
            drain,
            ino_trees: trees,
        },
        groups,
        units,
    }
}

// Opens a device that stands in its store; its count of faults is as it was before.
fn open_store<D: Device, L: Ledger>(
    alloc: Global,
    store: Store<D>,
    begun: u64,
    steps: &mut Steps<L>,
) -> Result<Parts<D>, (D, OpenRefused)>
    requires ready { IsReady D.Device store }
    requires calm { begun ≡ D.faults store.dev }
    ensures safe { IfOk result (IsSafe D.Device) }
    ensures begun { IfOk result (IsBegun D.Device store.dev store.geo) }
    ensures back { IfErr result (IsBack D.Device store.dev store.geo) }
{
    let mut store = store;
    match read_beside(alloc, &mut store, steps) {
        Ok(beside) => Ok(parts_of(alloc, store, beside, begun)),
        Err(refused) => Err((store.into_device(), refused)),
    }
}

/// Opens a device with this geometry: reads the heads of all groups, of which the first that is refused
/// ends it, and what can't be read of their btrees. Nothing is written, no unit is open, and the journal
/// is empty; a refusal hands the device back (XFS Algorithms and Data Structures, "Allocation Groups").
pub fn open<D: Device, L: Ledger>(
    alloc: Global,
    dev: D,
    geo: Geometry,
    steps: &mut Steps<L>,
) -> Result<Parts<D>, (D, OpenRefused)>
    requires image { geo.dblocks ≤ D.blocks dev Image }
    requires redo { REDO_BLOCKS ≤ D.blocks dev Redo }
    ensures safe { IfOk result (IsSafe D.Device) }
    ensures begun { IfOk result (IsBegun D.Device dev geo) }
    ensures back { IfErr result (IsBack D.Device dev geo) }
{
    let begun = dev.fault_count();
    match Store::new(alloc, dev, geo) {
        Ok(store) => open_store(alloc, store, begun, steps),
        Err((dev, _)) => Err((dev, OpenRefused::Memory)),
    }
}
