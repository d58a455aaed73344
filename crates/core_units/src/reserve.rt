// Blocks that are reserved one after the other.
ghost use Rattle.std.specs.Prelude.{◌≡◌, ◌++◌, ◌∷◌, ◌+◌, ◌<◌, ◌≤◌, ◌^◌, ℕ, [], true, length, All, IfOk, OnOk, OnErr};
ghost use Rattle.core_units.specs.Reserved.{IsBuilding, IsNoted, IsShort, IsTaken};
ghost use Rattle.core_units.specs.TreesFit.{CanTake};
ghost use Rattle.core_units.specs.Taken.{HasTaken, IsSettled, reserve_piece_of, without_front};
ghost use Rattle.core_units.specs.Tested.{FreeEnds};
ghost use Rattle.unit_plan.specs.Sets.{pieces_of};
ghost use Rattle.unit_plan.specs.Spans.{SpansFit};

use crate::Lists;
use crate::needed::need_for;
use block_reap::unit_owner;
use derive_defs::by_count;
use fs_model::{Claim, Reason, Unit};
use rmap_recs::RmapRec;
use run_edits::give;
use run_sets::Run;
use span_recs::SpanRec;
use std::alloc::{AllocError, Global};
use unit_plan::{ClaimSet, Piece};

/// What is reserved for a unit: the blocks in the order in which they were taken, the lists that a
/// switch would put into its btrees as the reserve is now, all claims, and how many blocks may still be
/// taken (XFS Online Fsck Design, "Reconstructing Metadata: Bulk Loading").
#[derive(Drop)]
pub struct Building {
    pub unit: Unit,
    pub reserve: Vec<u32>,
    pub lists: Lists,
    pub set: ClaimSet,
    pub left: u32,
}

/// Nothing reserved yet, in a group of this length.
pub fn begin_building(
    alloc: Global,
    unit: Unit,
    length: u32,
    lists: Lists,
    set: ClaimSet,
) -> Building
    requires { CanTake lists }
    ensures built { IsBuilding result }
    ensures reserve { result.reserve.items ≡ [] }
    ensures lists { result.lists ≡ lists }
    ensures set { result.set ≡ set }
    ensures unit { result.unit ≡ unit }
    ensures left { result.left ≡ length }
{
    Building {
        unit,
        reserve: Vec::new(alloc),
        lists,
        set,
        left: length,
    }
}

// Takes the lowest block of free space, which is the front of its first record.
fn take_front(bno: &mut Vec<SpanRec>)
    requires { SpansFit bno.old.items }
    ensures { bno.new.items ≡ without_front bno.old.items }
{
    if bno.is_empty() {
        return;
    }
    let first = bno[0];
    if first.count <= 1 {
        let _ = bno.remove(0);
        return;
    }
    bno[0] = SpanRec {
        start: first.start + 1,
        count: first.count - 1,
    };
}

// The lists with a spare block taken.
fn note_spare(unit: Unit, lists: &mut Lists, block: u32) -> Result<(), AllocError>
    requires fits { block + 1 < 2 ^ 32 }
    requires lists { CanTake lists.old }
    ensures taken { OnOk result (HasTaken unit block lists.old lists.new) }
    ensures lists { CanTake lists.new }
    ensures ends { (limit : ℕ) → FreeEnds limit lists.old → FreeEnds limit lists.new }
{
    match lists {
        Lists::Inode { .. } => Ok(()),
        Lists::Rmap { rmap } => give(
            rmap,
            &RmapRec {
                start: block,
                count: 1,
                owner: unit_owner(unit).number(),
                word: 0,
            },
        ),
        Lists::Free { bno, .. } => {
            take_front(bno);
            Ok(())
        }
        Lists::Refc { .. } => Ok(()),
    }
}

// Puts the claim of a block that free space gave.
fn put_reserved(set: &mut ClaimSet, unit: Unit, block: u32) -> Result<(), AllocError>
    ensures put { OnOk result (pieces_of set.new ≡ pieces_of set.old ++ reserve_piece_of unit block ∷ []) }
    ensures kept { OnErr result (pieces_of set.new ≡ pieces_of set.old) }
{
    set.put(Piece {
        claim: Claim::Reserve,
        run: Run {
            start: block,
            count: 1,
        },
        owner: unit_owner(unit).number(),
        word: 0,
    })
    .map_err(|_| AllocError)
}

// Notes a block that is taken, if free space gave it.
fn note(building: &mut Building, block: u32, spare: bool) -> Result<(), AllocError>
    requires fits { spare ≡ true → block + 1 < 2 ^ 32 }
    requires lists { CanTake building.old.lists }
    ensures noted { OnOk result (IsNoted building.old.unit block spare building.old building.new) }
    ensures lists { CanTake building.new.lists }
    ensures unit { building.new.unit ≡ building.old.unit }
    ensures reserve { building.new.reserve ≡ building.old.reserve }
    ensures left { building.new.left ≡ building.old.left }
    ensures ends { (limit : ℕ) → FreeEnds limit building.old.lists → FreeEnds limit building.new.lists }
{
    if !spare {
        return Ok(());
    }
    put_reserved(&mut building.set, building.unit, block)?;
    note_spare(building.unit, &mut building.lists, block)
}

/// Puts a block behind the reserve, and answers whether the need is met now. Without memory reserve and
/// lists stay; a spare block may be claimed then, so that it isn't chosen again.
pub(crate) fn take(building: &mut Building, block: u32, spare: bool) -> Result<bool, AllocError>
    requires fits { spare ≡ true → block + 1 < 2 ^ 32 }
    requires left { 0 < building.old.left }
    requires built { IsBuilding building.old }
    ensures taken { IfOk result (λ is_met. IsTaken block spare is_met building.old building.new) }
    ensures built { IsBuilding building.new }
    ensures kept { OnErr result (building.new.reserve.items ≡ building.old.reserve.items) }
    ensures inside { (limit : ℕ) → block < limit → All (λ b. b < limit) building.old.reserve.items → All (λ b. b < limit) building.new.reserve.items }
    ensures unit { building.new.unit ≡ building.old.unit }
    ensures ends { (limit : ℕ) → FreeEnds limit building.old.lists → FreeEnds limit building.new.lists }
{
    building.reserve.reserve(1)?;
    note(building, block, spare)?;
    building.reserve.push(block)?;
    building.left -= 1;
    let need = need_for(building.unit, &building.lists);
    Ok(need <= building.reserve.len() as u64)
}

/// No block could be taken.
pub(crate) fn no_space(building: &Building) -> Reason
    requires { IsBuilding building.now }
    ensures { IsShort building.now result }
{
    Reason::Space {
        reserve: building.reserve.len() as u32,
        need: need_for(building.unit, &building.lists),
    }
}

/// The lists as they will be loaded, once the need is met: the order by count follows that by start
/// (XFS Algorithms and Data Structures, "AG Free Space B+trees").
pub fn settle(alloc: Global, lists: &mut Lists) -> Result<(), AllocError>
    requires { CanTake lists.old }
    ensures exact { OnOk result (IsSettled lists.old lists.new) }
    ensures kept { OnErr result (lists.new ≡ lists.old) }
{
    match lists {
        Lists::Free { bno, cnt } => {
            *cnt = by_count(alloc, bno.as_slice())?;
            Ok(())
        }
        _ => Ok(()),
    }
}
