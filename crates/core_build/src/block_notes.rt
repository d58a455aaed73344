// What is noted once a block was reserved: in the journal, and of the group.
ghost use Rattle.std.specs.Prelude.{◌≡◌, ◌<◌, ◌≤◌, ◌+◌, ◌∷◌, [], Ok, false};
ghost use Rattle.std.specs.Vec.{vec_capacity, vec_len};
ghost use Rattle.block_reap.specs.Limbo.{IsLimbo};
ghost use Rattle.core_build.specs.Pieces.{IfMemory, MetBy, Notes};
ghost use Rattle.core_build.specs.Says.{IsUnnoted, reserved_of};
ghost use Rattle.core_parts.specs.Common.Asks.{Answers, IsUsable};
ghost use Rattle.core_parts.specs.Common.Entries.{HasMore};
ghost use Rattle.core_parts.specs.Common.Kinds.{with_trust};
ghost use Rattle.core_parts.specs.Common.Marks.{mark_of, marks_of, sick_by, sick_if};
ghost use Rattle.core_parts.specs.Safe.{IsKept};
ghost use Rattle.core_units.specs.declared.rebuild.Rebuild.{Rebuild};
ghost use Rattle.fs_model.specs.declared.entry.Entry.TheVariants as entries;
ghost use Rattle.fs_model.specs.declared.unit.Trust.{Trust};

use blk_device::Device;
use block_reap::{LimboRun, put};
use core_calls::ScrubFault;
use core_edit::{EditPlace, Freed, IndexesLeft};
use core_parts::common::{add_entry, mark_sick};
use core_parts::{Desk, GroupKept};
use core_units::{Rebuild, make_room};
use fs_model::{Cause, Entry};
use rmap_recs::Owner;
use sblock::Kind;

/// A block that goes into the reserve, whether it is a spare one, and which indexes were left.
#[derive(Clone, Copy)]
pub(crate) struct Taken {
    pub block: u32,
    pub is_spare: bool,
    pub left: IndexesLeft,
}

/// Room in limbo for the whole reserve with one block more, and for what the open edit freed
/// (XFS Online Fsck Design, "Reaping After Repairing Ondisk Metadata").
pub(crate) fn limbo_room<D: Device>(
    desk: &Desk<D>,
    kept: &mut GroupKept,
    rebuild: &Rebuild,
) -> Result<(), ScrubFault>
    ensures limbo { kept.new.limbo.items ≡ kept.old.limbo.items }
    ensures trust { kept.new.trust ≡ kept.old.trust }
    ensures passed { kept.new.passed ≡ kept.old.passed }
    ensures memory { IfMemory result }
{
    let freed = &desk.store.edit.freed;
    let more = rebuild
        .building
        .reserve
        .len()
        .saturating_add(1)
        .saturating_add(freed.ag.len())
        .saturating_add(freed.inobt.len())
        .saturating_add(freed.refc.len());
    match make_room(rebuild, &mut kept.limbo, more) {
        Ok(()) => Ok(()),
        Err(_) => Err(ScrubFault::Memory),
    }
}

// Puts a block into limbo. There always is room, and no group has a block of the greatest number.
fn put_one(limbo: &mut Vec<LimboRun>, block: u32, owner: u64)
    requires limbo { IsLimbo limbo.old.items }
    ensures limbo { IsLimbo limbo.new.items }
{
    if block == u32::MAX {
        return;
    }
    if limbo.len() >= limbo.capacity() {
        return;
    }
    put(limbo, block, owner);
}

// Puts blocks of trees with this owner into limbo.
fn put_freed(limbo: &mut Vec<LimboRun>, blocks: &[u32], owner: u64)
    requires limbo { IsLimbo limbo.old.items }
    ensures limbo { IsLimbo limbo.new.items }
{
    let mut rest = blocks;
    while let Some((block, later)) = rest.split_first() {
        put_one(limbo, *block, owner);
        rest = later;
    }
}

// Puts all that an edit freed, and for which the free list had no room, into limbo.
fn put_all_freed(limbo: &mut Vec<LimboRun>, freed: &Freed)
    requires limbo { IsLimbo limbo.old.items }
    ensures limbo { IsLimbo limbo.new.items }
{
    put_freed(limbo, freed.ag.as_slice(), Owner::Ag.number());
    put_freed(limbo, freed.inobt.as_slice(), Owner::Inobt.number());
    put_freed(limbo, freed.refc.as_slice(), Owner::Refc.number());
}

// Keeps what the commit left of the group: its heads, and what it freed.
fn keep_edited<D: Device>(desk: &Desk<D>, kept: &mut GroupKept)
    requires kept { IsKept kept.old }
    ensures kept { IsKept kept.new }
    ensures trust { kept.new.trust ≡ kept.old.trust }
    ensures passed { kept.new.passed ≡ kept.old.passed }
{
    kept.heads = desk.store.edit.heads;
    put_all_freed(&mut kept.limbo, &desk.store.edit.freed);
}

// Adds the mark of a btree, which is sick now.
fn mark<D: Device>(desk: &mut Desk<D>, kept: &mut GroupKept, group: u32, kind: Kind, cause: Cause)
    requires usable { IsUsable D.Device desk.old }
    requires room { vec_len desk.old.book.journal < vec_capacity desk.old.book.journal }
    ensures notes { Notes D.Device 1 desk.old desk.new }
    ensures limbo { kept.new.limbo ≡ kept.old.limbo }
    ensures more { HasMore desk.old desk.new (entries.Marked group kind cause ∷ []) }
    ensures trust { kept.new.trust ≡ with_trust kept.old.trust kind Trust.Sick }
    ensures passed { kept.new.passed ≡ kept.old.passed }
{
    mark_sick(kept, kind);
    add_entry(desk, Entry::Marked { group, kind, cause });
}

// Adds the mark of an index, where it was left.
fn mark_left<D: Device>(
    desk: &mut Desk<D>,
    kept: &mut GroupKept,
    group: u32,
    kind: Kind,
    cause: Option<Cause>,
)
    requires usable { IsUsable D.Device desk.old }
    requires room { vec_len desk.old.book.journal < vec_capacity desk.old.book.journal }
    ensures notes { Notes D.Device 1 desk.old desk.new }
    ensures limbo { kept.new.limbo ≡ kept.old.limbo }
    ensures more { HasMore desk.old desk.new (mark_of group kind cause) }
    ensures trust { kept.new.trust ≡ sick_if kind cause kept.old.trust }
    ensures passed { kept.new.passed ≡ kept.old.passed }
{
    if let Some(met) = cause {
        mark(desk, kept, group, kind, met);
    }
}

// Adds a mark for each index that was left.
fn mark_all<D: Device>(desk: &mut Desk<D>, kept: &mut GroupKept, group: u32, left: &IndexesLeft)
    requires usable { IsUsable D.Device desk.old }
    requires room { vec_len desk.old.book.journal + 3 ≤ vec_capacity desk.old.book.journal }
    ensures notes { Notes D.Device 3 desk.old desk.new }
    ensures limbo { kept.new.limbo ≡ kept.old.limbo }
    ensures more { HasMore desk.old desk.new (marks_of group left.now) }
    ensures trust { kept.new.trust ≡ sick_by left.now kept.old.trust }
    ensures passed { kept.new.passed ≡ kept.old.passed }
{
    mark_left(desk, kept, group, Kind::Bno, left.bno);
    mark_left(desk, kept, group, Kind::Cnt, left.cnt);
    mark_left(desk, kept, group, Kind::Rmap, left.rmap);
}

// Adds the entry of a block that was reserved.
fn note_reserved<D: Device>(desk: &mut Desk<D>, place: &EditPlace, taken: &Taken)
    requires usable { IsUsable D.Device desk.old }
    requires room { vec_len desk.old.book.journal < vec_capacity desk.old.book.journal }
    ensures notes { Notes D.Device 1 desk.old desk.new }
    ensures more { HasMore desk.old desk.new (entries.Reserved place.now.group place.now.unit
        taken.now.block taken.now.is_spare ∷ []) }
{
    add_entry(
        desk,
        Entry::Reserved {
            group: place.group,
            unit: place.unit,
            block: taken.block,
            spare: taken.is_spare,
        },
    );
}

/// Notes a block that was committed: the heads as they were written, its entry, and a mark for each index
/// that was left (XFS Online Fsck Design, "Reserving New B+Tree Blocks").
pub(crate) fn note_block<D: Device>(
    desk: &mut Desk<D>,
    kept: &mut GroupKept,
    place: &EditPlace,
    taken: &Taken,
)
    requires usable { IsUsable D.Device desk.old }
    requires kept { IsKept kept.old }
    requires room { vec_len desk.old.book.journal + 4 ≤ vec_capacity desk.old.book.journal }
    ensures notes { Notes D.Device 4 desk.old desk.new }
    ensures kept { IsKept kept.new }
    ensures more { HasMore desk.old desk.new (reserved_of place.now.group place.now.unit
        taken.now.block taken.now.is_spare taken.now.left) }
    ensures trust { kept.new.trust ≡ sick_by taken.now.left kept.old.trust }
    ensures passed { kept.new.passed ≡ kept.old.passed }
{
    keep_edited(desk, kept);
    note_reserved(desk, place, taken);
    mark_all(desk, kept, place.group, &taken.left);
}

/// No index would note a spare block, since reverse mappings met this: they are sick, and nothing else
/// changed (XFS Online Fsck Design, "Reserving New B+Tree Blocks").
pub(crate) fn note_unnoted<D: Device>(
    desk: &mut Desk<D>,
    kept: &mut GroupKept,
    group: u32,
    cause: Cause,
) -> Result<bool, ScrubFault>
    requires usable { IsUsable D.Device desk.old }
    requires kept { IsKept kept.old }
    requires room { vec_len desk.old.book.journal < vec_capacity desk.old.book.journal }
    ensures answers { Answers D.Device desk.old desk.new result }
    ensures kept { IsKept kept.new }
    ensures met { (r : Rebuild) → MetBy result r }
    ensures told { result ≡ Ok false }
    ensures unnoted { IsUnnoted group kept.old kept.new desk.old desk.new }
    ensures passed { kept.new.passed ≡ kept.old.passed }
{
    mark(desk, kept, group, Kind::Rmap, cause);
    Ok(false)
}
