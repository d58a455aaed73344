// What the btrees of a unit must hold, by what was gathered.
ghost use Rattle.std.specs.Prelude.{◌≡◌, ℕ, ◌<◌, ◌≤◌, ◌^◌, All, IfOk};
ghost use Rattle.core_units.specs.Judging.{AreDerived};
ghost use Rattle.core_units.specs.Promise.{AreListsOf};
ghost use Rattle.derive_defs.specs.Mappings.{EndWithin, StartsRise};
ghost use Rattle.fs_state.specs.Derive.{mappings};
ghost use Rattle.fs_model.specs.declared.unit.Unit.TheVariants as units;
ghost use Rattle.fs_state.specs.State.{State};
ghost use Rattle.geom.specs.Layout.{group_len_of};
ghost use Rattle.ino_recs.specs.Chunks.{ino_form};
ghost use Rattle.index_derive.specs.Inodes.{AreUnits, records_of};
ghost use Rattle.run_sets.specs.Runs.{most};
ghost use Rattle.sblock.specs.Blocks.{IsRising};

use crate::Lists;
use crate::room::have_room;
use crate::totals::do_totals_fit;
use derive_defs::{by_count, free_of, shared_of};
use fs_model::Unit;
use index_derive::{UnitCores, free_records, inode_records};
use rmap_recs::RmapRec;
use std::alloc::{AllocError, Global};
use unit_plan::ClaimSet;

// What the two inode btrees must hold, by what the cores say.
fn inode_lists(alloc: Global, cores: &[UnitCores]) -> Result<Lists, AllocError>
    requires small { All (λ c. c.unit < 2 ^ 26) cores.now }
    requires rising { IsRising ino_form (records_of cores.now) }
    ensures exact { IfOk result (λ lists. (a : State) (g : ℕ) → AreUnits a g cores.now → AreListsOf a g units.Inode lists) }
    ensures derived { IfOk result (AreDerived units.Inode) }
{
    let ino = inode_records(alloc, cores)?;
    let fino = free_records(alloc, ino.as_slice())?;
    // They always fit: a group has at most 2^28 blocks, with 8 inodes each.
    if !do_totals_fit(ino.as_slice()) {
        return Err(AllocError);
    }
    Ok(Lists::Inode { ino, fino })
}

// What the two btrees of free space must hold, by the reverse mappings.
#[tactic(auto, unfolding(fs_state::specs::Derive::bno_of, fs_state::specs::Derive::cnt_of))]
fn space_lists(alloc: Global, length: u32, mapped: &[RmapRec]) -> Result<Lists, AllocError>
    requires rising { StartsRise mapped.now }
    requires within { EndWithin length mapped.now }
    requires short { length ≤ most }
    ensures exact { IfOk result (λ lists. (a : State) (g : ℕ) → length ≡ group_len_of a.geometry g → mapped.now ≡ mappings a g → AreListsOf a g units.Free lists) }
    ensures derived { IfOk result (AreDerived units.Free) }
{
    let bno = free_of(alloc, length, mapped)?;
    let cnt = by_count(alloc, bno.as_slice())?;
    Ok(Lists::Free { bno, cnt })
}

// What the btree of reference counts must hold, by the reverse mappings.
#[tactic(auto, unfolding(fs_state::specs::Derive::refc_of))]
fn shared_list(alloc: Global, mapped: &[RmapRec]) -> Result<Lists, AllocError>
    requires { EndWithin most mapped.now }
    ensures exact { IfOk result (λ lists. (a : State) (g : ℕ) → mapped.now ≡ mappings a g → AreListsOf a g units.Refc lists) }
    ensures derived { IfOk result (AreDerived units.Refc) }
{
    let refc = shared_of(alloc, mapped)?;
    Ok(Lists::Refc { refc })
}

// What the btree of reverse mappings must hold, by all claims.
fn mapping_list(alloc: Global, set: ClaimSet) -> Result<Lists, AllocError>
    ensures { IfOk result (AreDerived units.Rmap) }
{
    let Ok(rmap) = set.into_mappings(alloc) else {
        return Err(AllocError);
    };
    // They always have it where the owners are those of good forks, whose offsets end below 2^54.
    if !have_room(rmap.as_slice()) {
        return Err(AllocError);
    }
    Ok(Lists::Rmap { rmap })
}

/// What the unit's btrees must hold, where no claims contradict each other: by the reverse mappings, by
/// the cores of all units of inodes, or by all claims
/// (XFS Online Fsck Design, "Cross-Referencing Space Metadata").
pub fn derived(
    alloc: Global,
    length: u32,
    unit: Unit,
    mapped: &[RmapRec],
    cores: &[UnitCores],
    set: ClaimSet,
) -> Result<Lists, AllocError>
    requires rising { StartsRise mapped.now }
    requires within { EndWithin length mapped.now }
    requires short { length ≤ most }
    requires ends { EndWithin most mapped.now }
    requires cores { All (λ c. c.unit < 2 ^ 26) cores.now }
    requires recs { IsRising ino_form (records_of cores.now) }
    ensures { IfOk result (AreDerived unit) }
{
    match unit {
        Unit::Inode => inode_lists(alloc, cores),
        Unit::Rmap => mapping_list(alloc, set),
        Unit::Free => space_lists(alloc, length, mapped),
        Unit::Refc => shared_list(alloc, mapped),
    }
}
