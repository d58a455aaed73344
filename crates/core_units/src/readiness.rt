// The lists as they will be loaded on the reserve, and tests of them. What was derived and reserved
// passes: its records rise, its counters are those of a group, and its need was met.
ghost use Rattle.std.specs.Prelude.{◌≡◌, ◌<◌, ◌≤◌, ◌^◌, ℕ, true, length, OnErr, OnOk};
ghost use Rattle.std.specs.List.{sum_by};
ghost use Rattle.core_units.specs.Rebuilt.{IsReady, IsRebuilding, IsReserved, IsSteady, KeepsRest};
ghost use Rattle.core_units.specs.Reserved.{IsBuilding};
ghost use Rattle.core_units.specs.Staged.{HasTree, HaveTrees, HaveTwo, IsAt};
ghost use Rattle.core_units.specs.Tested.{AreRising, FreeEnds};
ghost use Rattle.core_units.specs.declared.stage.Staging.TheVariants.{First};
ghost use Rattle.core_units.specs.TreesFit.{AreLoadable, CanTake, HaveTotals};
ghost use Rattle.geom.specs.Layout.{Layout};

use crate::Lists;
use crate::orderly::is_rising;
use crate::rebuild::Rebuild;
use crate::reserve::{Building, settle};
use bulk_load::shape;
use ino_recs::{FinoKind, InoKind, InoRec};
use rmap_recs::RmapKind;
use sblock::Kind;
use span_recs::{BnoKind, CntKind, RefcKind, SpanRec};
use std::alloc::{AllocError, Global};

// Whether each list rises.
fn are_rising(lists: &Lists) -> bool
    ensures { result ≡ true → AreRising lists.now }
{
    match lists {
        Lists::Inode { ino, fino } => {
            is_rising::<InoKind>(ino.as_slice()) && is_rising::<FinoKind>(fino.as_slice())
        }
        Lists::Rmap { rmap } => is_rising::<RmapKind>(rmap.as_slice()),
        Lists::Free { bno, cnt } => {
            is_rising::<BnoKind>(bno.as_slice()) && is_rising::<CntKind>(cnt.as_slice())
        }
        Lists::Refc { refc } => is_rising::<RefcKind>(refc.as_slice()),
    }
}

// Whether the blocks of free space can be counted.
fn spans_count(spans: &[SpanRec]) -> bool
    ensures { result ≡ true → sum_by (λ r. r.count) spans.now < 2 ^ 32 }
{
    let mut total: u64 = 0;
    let mut rest = spans;
    while let Some((span, later)) = rest.split_first() {
        total += u64::from(span.count);
        if total > u64::from(u32::MAX) {
            return false;
        }
        rest = later;
    }
    true
}

// Whether the inodes of all chunks can be counted.
fn inodes_count(recs: &[InoRec]) -> bool
    ensures { result ≡ true → sum_by (λ r. r.count) recs.now < 2 ^ 32 }
{
    let mut total: u64 = 0;
    let mut rest = recs;
    while let Some((rec, later)) = rest.split_first() {
        total += u64::from(rec.count);
        if total > u64::from(u32::MAX) {
            return false;
        }
        rest = later;
    }
    true
}

// Whether the free ones can.
fn free_inodes_count(recs: &[InoRec]) -> bool
    ensures { result ≡ true → sum_by (λ r. r.freecount) recs.now < 2 ^ 32 }
{
    let mut total: u64 = 0;
    let mut rest = recs;
    while let Some((rec, later)) = rest.split_first() {
        total += u64::from(rec.freecount);
        if total > u64::from(u32::MAX) {
            return false;
        }
        rest = later;
    }
    true
}

// Whether the unit's counters can be written.
fn have_totals(lists: &Lists) -> bool
    ensures { result ≡ true → HaveTotals lists.now }
{
    match lists {
        Lists::Inode { ino, .. } => {
            inodes_count(ino.as_slice()) && free_inodes_count(ino.as_slice())
        }
        Lists::Free { cnt, .. } => spans_count(cnt.as_slice()),
        Lists::Rmap { .. } | Lists::Refc { .. } => true,
    }
}

// Whether so many blocks are enough for a btree of so many records.
#[tactic(auto, using(crate::proofs::RebuildLemmas::tree_in))]
fn has_tree(kind: Kind, records: usize, many: u64) -> bool
    ensures { result ≡ true → HasTree kind records many }
{
    let form = shape(records as u64, kind);
    if form.blocks > many {
        return false;
    }
    true
}

// The same of two btrees, the second one's blocks after the first one's.
#[tactic(auto, using(crate::proofs::RebuildLemmas::two_in))]
fn have_two(first: Kind, second: Kind, records: (usize, usize), many: u64) -> bool
    ensures { result ≡ true → HaveTwo first second records.0 records.1 many }
{
    let form = shape(records.0 as u64, first);
    if form.blocks > many {
        return false;
    }
    has_tree(second, records.1, many - form.blocks)
}

// Whether so many blocks are enough for all btrees of the unit.
fn have_trees(lists: &Lists, many: u64) -> bool
    ensures { result ≡ true → HaveTrees lists.now many }
{
    match lists {
        Lists::Inode { ino, fino } => {
            have_two(Kind::Ino, Kind::Fino, (ino.len(), fino.len()), many)
        }
        Lists::Rmap { rmap } => has_tree(Kind::Rmap, rmap.len(), many),
        Lists::Free { bno, cnt } => { have_two(Kind::Bno, Kind::Cnt, (bno.len(), cnt.len()), many) }
        Lists::Refc { refc } => has_tree(Kind::Refc, refc.len(), many),
    }
}

// Whether the lists can be loaded on so many blocks, and their counters written.
#[tactic(auto, using(crate::proofs::RebuildLemmas::loadable))]
fn are_ready(lists: &Lists, many: u64) -> bool
    requires { CanTake lists.now }
    ensures loadable { result ≡ true → AreLoadable lists.now }
    ensures totals { result ≡ true → HaveTotals lists.now }
    ensures enough { result ≡ true → HaveTrees lists.now many }
{
    if !are_rising(lists) {
        return false;
    }
    if !have_totals(lists) {
        return false;
    }
    have_trees(lists, many)
}

// Makes the lists those that will be loaded, and tests them.
fn settle_all(alloc: Global, building: &mut Building) -> Result<(), AllocError>
    requires built { IsBuilding building.old }
    ensures loadable { OnOk result (AreLoadable building.new.lists) }
    ensures totals { OnOk result (HaveTotals building.new.lists) }
    ensures enough { OnOk result (HaveTrees building.new.lists (length building.new.reserve.items)) }
    ensures built { IsBuilding building.new }
    ensures ends { (limit : ℕ) → FreeEnds limit building.old.lists → FreeEnds limit building.new.lists }
    ensures reserve { building.new.reserve ≡ building.old.reserve }
    ensures unit { building.new.unit ≡ building.old.unit }
{
    settle(alloc, &mut building.lists)?;
    if !are_ready(&building.lists, building.reserve.len() as u64) {
        return Err(AllocError);
    }
    Ok(())
}

/// Makes the lists those that will be loaded, once the need is met: then the new blocks can be staged.
/// Memory is answered too where the lists don't rise, their counters don't fit, or the reserve isn't
/// enough; a rebuild whose need was met shows none of these
/// (XFS Online Fsck Design, "Reconstructing Metadata: Bulk Loading").
pub fn ready(alloc: Global, rebuild: &mut Rebuild) -> Result<(), AllocError>
    requires steady { IsSteady rebuild.old }
    ensures ready { OnOk result (IsReady rebuild.new) }
    ensures begins { OnOk result (IsAt rebuild.new.building.lists (First 0)) }
    ensures reserve { rebuild.new.building.reserve ≡ rebuild.old.building.reserve }
    ensures rest { KeepsRest rebuild.old rebuild.new }
    ensures steady { IsSteady rebuild.new }
    ensures rebuilding { (at : Layout) (g : ℕ) → IsRebuilding at g rebuild.old → IsRebuilding at g rebuild.new }
    ensures reserved { (at : Layout) (g : ℕ) → IsRebuilding at g rebuild.old → OnOk result (IsReserved at g rebuild.new) }
{
    settle_all(alloc, &mut rebuild.building)
}
