// What is kept of a group after a commit, and the entries of it.
ghost use Rattle.std.specs.Prelude.{◌≡◌, ◌+◌, ◌≤◌, ◌<◌, ◌∷◌, [], Some};
ghost use Rattle.std.specs.Vec.{vec_capacity, vec_len};
ghost use Rattle.block_reap.specs.Limbo.{IsLimbo, next_of};
ghost use Rattle.core_parts.specs.Common.Asks.{Adds, IsUsable};
ghost use Rattle.core_parts.specs.Common.Entries.{HasMore};
ghost use Rattle.core_parts.specs.Common.Kinds.{with_trust};
ghost use Rattle.core_parts.specs.Common.Marks.{mark_of, marks_of, sick_by, sick_if};
ghost use Rattle.core_parts.specs.Keeps.{IsSteady};
ghost use Rattle.core_parts.specs.Safe.{IsKept};
ghost use Rattle.core_switch.specs.Marks.{IsLonger};
ghost use Rattle.core_switch.specs.Says.{ReapsRun};
ghost use Rattle.core_switch.specs.Switched.{IsRebuilt, SaysSwitched};
ghost use Rattle.fs_model.specs.declared.entry.Entry.TheVariants as entries;
ghost use Rattle.fs_model.specs.declared.unit.Trust.{Trust};
ghost use Rattle.fs_model.specs.declared.verdict.Verdict.TheVariants as verdicts;

use crate::freed::put_freed;
use blk_device::Device;
use block_reap::{LimboRun, take_off};
use core_edit::{Freed, IndexesLeft};
use core_parts::common::{add_entry, judged_good, mark_sick};
use core_parts::{Desk, GroupKept};
use core_units::{BadTrees, Staged};
use fs_model::{Cause, Entry, Extent, Unit, Verdict};
use sblock::Kind;

// The unit's btrees can be read from now on.
fn forget_bad(bad: &mut BadTrees, unit: Unit) {
    match unit {
        Unit::Inode => {
            bad.ino = None;
            bad.fino = None;
        }
        Unit::Rmap => bad.rmap = None,
        Unit::Free => {
            bad.bno = None;
            bad.cnt = None;
        }
        Unit::Refc => bad.refc = None,
    }
}

// The group is kept as the switch left it.
fn keep_switched<D: Device>(desk: &Desk<D>, kept: &mut GroupKept, unit: Unit, limbo: Vec<LimboRun>)
    requires limbo { IsLimbo limbo.items }
    ensures kept { IsKept kept.new }
    ensures is { IsRebuilt unit limbo.items kept.old kept.new }
{
    kept.heads = desk.store.edit.heads;
    kept.limbo = limbo;
    forget_bad(&mut kept.bad, unit);
    judged_good(kept, unit);
}

// The verdict of a unit that was switched.
fn rebuilt(group: u32, unit: Unit) -> Entry
    ensures { result ≡ entries.Verdict group unit verdicts.Rebuilt }
{
    let verdict = Verdict::Rebuilt;
    Entry::Verdict {
        group,
        unit,
        verdict,
    }
}

/// The group is kept as the switch left it: the heads that were written, the unit's btrees good, and what
/// the switch puts into limbo. The entries say so.
#[tactic(auto, using(core_parts::proofs::common::AskLemmas::adds_usable, core_parts::proofs::common::AskLemmas::adds_steady, core_parts::proofs::common::AskLemmas::steady_on))]
pub(crate) fn settle_switch<D: Device>(
    desk: &mut Desk<D>,
    kept: &mut GroupKept,
    group: u32,
    unit: Unit,
    staged: Staged,
)
    requires usable { IsUsable D.Device desk.old }
    requires room { vec_len desk.old.book.journal + 2 ≤ vec_capacity desk.old.book.journal }
    requires limbo { IsLimbo staged.limbo.items }
    ensures usable { IsUsable D.Device desk.new }
    ensures steady { IsSteady D.Device desk.old desk.new }
    ensures kept { IsKept kept.new }
    ensures is { IsRebuilt unit staged.limbo.items kept.old kept.new }
    ensures said { SaysSwitched group unit staged desk.old.book.journal.items desk.new.book.journal.items }
{
    let Staged {
        switch: _,
        root,
        second_root,
        limbo,
    } = staged;
    keep_switched(desk, kept, unit, limbo);
    add_entry(
        desk,
        Entry::Switched {
            group,
            unit,
            root,
            second_root,
        },
    );
    add_entry(desk, rebuilt(group, unit));
}

// Limbo without the run that was reaped, and with what the edits freed.
fn reaped_limbo(limbo: &mut Vec<LimboRun>, freed: &Freed, run: &LimboRun)
    requires limbo { IsLimbo limbo.old.items }
    requires next { next_of limbo.old.items ≡ Some run.now }
    ensures limbo { IsLimbo limbo.new.items }
{
    take_off(limbo, run);
    let _ = put_freed(freed, limbo);
}

// The entry of a mark.
fn marked(group: u32, kind: Kind, cause: Cause) -> Entry
    ensures { result ≡ entries.Marked group kind cause }
{
    Entry::Marked { group, kind, cause }
}

/// Marks a btree, in room that is there.
#[tactic(auto, using(core_parts::proofs::common::AskLemmas::adds_usable, core_parts::proofs::common::AskLemmas::adds_steady))]
pub(crate) fn mark<D: Device>(
    desk: &mut Desk<D>,
    kept: &mut GroupKept,
    group: u32,
    kind: Kind,
    cause: Cause,
)
    requires usable { IsUsable D.Device desk.old }
    requires room { vec_len desk.old.book.journal < vec_capacity desk.old.book.journal }
    ensures usable { IsUsable D.Device desk.new }
    ensures steady { IsSteady D.Device desk.old desk.new }
    ensures longer { IsLonger desk.old.book.journal desk.new.book.journal }
    ensures limbo { kept.new.limbo ≡ kept.old.limbo }
    ensures more { HasMore desk.old desk.new (entries.Marked group kind cause ∷ []) }
    ensures trust { kept.new.trust ≡ with_trust kept.old.trust kind Trust.Sick }
{
    mark_sick(kept, kind);
    add_entry(desk, marked(group, kind, cause));
}

// Marks a btree that was left, if it was.
#[tactic(auto, using(core_parts::proofs::common::AskLemmas::steady_self))]
fn mark_left<D: Device>(
    desk: &mut Desk<D>,
    kept: &mut GroupKept,
    group: u32,
    kind: Kind,
    left: Option<Cause>,
)
    requires usable { IsUsable D.Device desk.old }
    requires room { vec_len desk.old.book.journal < vec_capacity desk.old.book.journal }
    ensures usable { IsUsable D.Device desk.new }
    ensures steady { IsSteady D.Device desk.old desk.new }
    ensures longer { IsLonger desk.old.book.journal desk.new.book.journal }
    ensures limbo { kept.new.limbo ≡ kept.old.limbo }
    ensures more { HasMore desk.old desk.new (mark_of group kind left) }
    ensures trust { kept.new.trust ≡ sick_if kind left kept.old.trust }
{
    match left {
        Some(cause) => mark(desk, kept, group, kind, cause),
        None => {}
    }
}

// Marks each index that was left.
#[tactic(auto, using(core_parts::proofs::common::AskLemmas::steady_on))]
fn mark_all<D: Device>(desk: &mut Desk<D>, kept: &mut GroupKept, group: u32, left: IndexesLeft)
    requires usable { IsUsable D.Device desk.old }
    requires room { vec_len desk.old.book.journal + 3 ≤ vec_capacity desk.old.book.journal }
    ensures usable { IsUsable D.Device desk.new }
    ensures steady { IsSteady D.Device desk.old desk.new }
    ensures limbo { kept.new.limbo ≡ kept.old.limbo }
    ensures more { HasMore desk.old desk.new (marks_of group left) }
    ensures trust { kept.new.trust ≡ sick_by left kept.old.trust }
{
    mark_left(desk, kept, group, Kind::Bno, left.bno);
    mark_left(desk, kept, group, Kind::Cnt, left.cnt);
    mark_left(desk, kept, group, Kind::Rmap, left.rmap);
}

/// The group is kept as a reaped run left it, and the entries say so: that of the run, also where another
/// owner kept it from being freed, and a mark for each index that was left.
#[tactic(auto, using(core_parts::proofs::common::AskLemmas::adds_usable, core_parts::proofs::common::AskLemmas::adds_steady, core_parts::proofs::common::AskLemmas::steady_on))]
pub(crate) fn settle_reap<D: Device>(
    desk: &mut Desk<D>,
    kept: &mut GroupKept,
    group: u32,
    run: &LimboRun,
    left: IndexesLeft,
)
    requires usable { IsUsable D.Device desk.old }
    requires room { vec_len desk.old.book.journal + 4 ≤ vec_capacity desk.old.book.journal }
    requires kept { IsKept kept.old }
    requires next { next_of kept.old.limbo.items ≡ Some run.now }
    ensures usable { IsUsable D.Device desk.new }
    ensures steady { IsSteady D.Device desk.old desk.new }
    ensures kept { IsKept kept.new }
    ensures reaped { ReapsRun group run.now kept.old kept.new desk.old desk.new }
{
    kept.heads = desk.store.edit.heads;
    reaped_limbo(&mut kept.limbo, &desk.store.edit.freed, run);
    add_entry(
        desk,
        Entry::Reaped(Extent {
            group,
            block: run.start,
            count: run.count,
        }),
    );
    mark_all(desk, kept, group, left);
}
