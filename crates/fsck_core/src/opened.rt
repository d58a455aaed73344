ghost use Rattle.std.specs.Prelude.{◌≡◌, ◌++◌, ◌∷◌, [], IfErr, IfOk, OnOk, None, length};
ghost use Rattle.blk_device.specs.Causes.{HasCause};
ghost use Rattle.core_parts.specs.Opens.Heads.{is_failed};
ghost use Rattle.core_parts.specs.Safe.{AreKept};
ghost use Rattle.core_edit.specs.Ready.{IsReady};
ghost use Rattle.fsck_core.specs.Opens.{AreBeside, NoneOpen, RefusesFirst};
ghost use Rattle.inode_scan.specs.Cursor.{AllInoTrees};
ghost use Rattle.intent_drain.specs.Drains.{gates_of};
ghost use Rattle.unit_trust.specs.Laws.{AllFresh};

use blk_device::Device;
use byte_fields::Steps;
use core_calls::OpenRefused;
use core_edit::Store;
use core_parts::opens::{ino_trees, open_groups};
use core_parts::{GroupKept, UnitState};
use intent_drain::Drain;
use std::alloc::Global;
use std::sync::ledger::Ledger;
use tree_blocks::TreeAt;

/// What a core has beside its store and its journal, right after opening.
#[derive(Drop)]
pub(crate) struct Beside {
    pub(crate) groups: Vec<GroupKept>,
    pub(crate) units: Vec<Option<UnitState>>,
    pub(crate) drain: Drain,
    pub(crate) trees: Vec<TreeAt>,
}

// One place more without a unit.
fn put_none(units: &mut Vec<Option<UnitState>>) -> Result<(), OpenRefused>
    ensures put { OnOk result (units.new.items ≡ units.old.items ++ None ∷ []) }
    ensures memory { IfErr result (λ stop. stop ≡ OpenRefused.Memory) }
{
    if units.push(None).is_err() {
        return Err(OpenRefused::Memory);
    }
    Ok(())
}

// A place for a unit in each group, and no unit in any.
#[tactic(auto, using(crate::proofs::OpenLemmas::one_none_more))]
fn no_units(alloc: Global, groups: u32) -> Result<Vec<Option<UnitState>>, OpenRefused>
    ensures all { IfOk result (λ units. length units.items ≡ groups) }
    ensures none { IfOk result (λ units. NoneOpen units.items) }
    ensures memory { IfErr result (λ stop. stop ≡ OpenRefused.Memory) }
{
    let mut units = Vec::new(alloc);
    for _g in 0..groups {
        put_none(&mut units)?;
    }
    Ok(units)
}

// No chain and no hold, and open gates.
fn new_drain(alloc: Global, groups: u32) -> Result<Drain, OpenRefused>
    ensures gates { IfOk result (λ drain. length (gates_of drain) ≡ groups) }
    ensures memory { IfErr result (λ stop. stop ≡ OpenRefused.Memory) }
{
    match Drain::new(alloc, groups) {
        Ok(drain) => Ok(drain),
        Err(_) => Err(OpenRefused::Memory),
    }
}

fn trees_of(alloc: Global, groups: &[GroupKept]) -> Result<Vec<TreeAt>, OpenRefused>
    ensures trees { IfOk result (λ trees. AllInoTrees (length groups.now) trees.items) }
    ensures memory { IfErr result (λ stop. stop ≡ OpenRefused.Memory) }
{
    match ino_trees(alloc, groups) {
        Ok(trees) => Ok(trees),
        Err(_) => Err(OpenRefused::Memory),
    }
}

// What a core has beside what was read of its groups.
fn beside_of(alloc: Global, groups: Vec<GroupKept>, count: u32) -> Result<Beside, OpenRefused>
    requires all { length groups.items ≡ count }
    requires kept { AreKept groups.items }
    requires fresh { AllFresh groups.items }
    ensures beside { IfOk result (AreBeside count) }
    ensures memory { IfErr result (λ stop. stop ≡ OpenRefused.Memory) }
{
    let units = no_units(alloc, count)?;
    let drain = new_drain(alloc, count)?;
    let trees = trees_of(alloc, groups.as_slice())?;
    Ok(Beside {
        groups,
        units,
        drain,
        trees,
    })
}

// Reads what is kept of each group.
#[tactic(auto, using(crate::proofs::OpenLemmas::all_kept))]
fn read_kept<D: Device, L: Ledger>(
    alloc: Global,
    store: &mut Store<D>,
    steps: &mut Steps<L>,
) -> Result<Vec<GroupKept>, OpenRefused>
    requires ready { IsReady D.Device store.old }
    ensures all { IfOk result (λ groups. length groups.items ≡ store.old.geo.agcount) }
    ensures kept { IfOk result (λ groups. AreKept groups.items) }
    ensures fresh { IfOk result (λ groups. AllFresh groups.items) }
    ensures refused { IfErr result (RefusesFirst (D.content store.old.dev) store.old.geo) }
    ensures same { D.content store.new.dev ≡ D.content store.old.dev }
    ensures geometry { store.new.geo ≡ store.old.geo }
    ensures ready { IsReady D.Device store.new }
    ensures sizes { D.blocks store.new.dev ≡ D.blocks store.old.dev }
    ensures cause { HasCause is_failed (D.faults store.old.dev) (D.faults store.new.dev) result }
{
    open_groups(alloc, store, steps)
}

/// Reads what a core has beside its store. The store is only read, and is ready still.
#[tactic(auto, using(crate::proofs::OpenLemmas::memory_first))]
pub(crate) fn read_beside<D: Device, L: Ledger>(
    alloc: Global,
    store: &mut Store<D>,
    steps: &mut Steps<L>,
) -> Result<Beside, OpenRefused>
    requires ready { IsReady D.Device store.old }
    ensures beside { IfOk result (AreBeside store.old.geo.agcount) }
    ensures refused { IfErr result (RefusesFirst (D.content store.old.dev) store.old.geo) }
    ensures same { D.content store.new.dev ≡ D.content store.old.dev }
    ensures geometry { store.new.geo ≡ store.old.geo }
    ensures ready { IsReady D.Device store.new }
    ensures sizes { D.blocks store.new.dev ≡ D.blocks store.old.dev }
    ensures cause { HasCause is_failed (D.faults store.old.dev) (D.faults store.new.dev) result }
{
    let groups = read_kept(alloc, store, steps)?;
    beside_of(alloc, groups, store.geo.agcount)
}
