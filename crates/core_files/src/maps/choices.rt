// Which run of free space a new mapping gets.
ghost use Rattle.std.specs.Prelude.{◌≡◌, ◌<◌, ◌≤◌, OnOk, length};
ghost use Rattle.core_parts.specs.Common.Asks.{IsUsable};
ghost use Rattle.core_chains.specs.Write.Writes.{WriteAnswers, WritesWell};
ghost use Rattle.intent_drain.specs.Drains.{gates_of};
ghost use Rattle.sblock.specs.declared.kind.Kind.TheVariants.{Cnt};

use crate::first::is_open;
use crate::maps::seeks::{cnt_tree, last_record, records_behind};
use blk_device::Device;
use byte_fields::Steps;
use core_calls::WriteFault;
use core_chains::write::is_sick;
use core_parts::{Desk, GroupKept};
use free_space::{GroupSpace, NoRun, Search, first_fit, group_tried};
use fs_model::{Cause, Extent};
use sblock::Kind;
use span_recs::SpanRec;
use std::alloc::Global;
use std::sync::ledger::Ledger;
use tree_blocks::TreeAt;

/// A choice over all groups: the run, or a group whose free space by count is to be marked for a cause.
#[derive(Clone, Copy)]
pub(crate) enum Choice {
    Run(Extent),
    Met(u32, Cause),
}

// A search, how many blocks it is for, and the group that it begins with.
#[derive(Clone, Copy)]
struct Hunt {
    search: Search,
    wanted: u32,
    own: u32,
}

// The first of these kinds that is sick.
fn sick_kind(kept: &GroupKept) -> Option<Kind> {
    for kind in [Kind::Bno, Kind::Cnt, Kind::Rmap] {
        if is_sick(kept, kind) {
            return Some(kind);
        }
    }
    None
}

// The first record by count that is long enough.
fn find_fit<D: Device, L: Ledger>(
    alloc: Global,
    desk: &mut Desk<D>,
    tree: &TreeAt,
    wanted: u32,
    steps: &mut Steps<L>,
) -> Result<Result<Option<SpanRec>, Cause>, WriteFault>
    requires usable { IsUsable D.Device desk.old }
    requires kind { tree.now.kind ≡ Cnt }
    requires group { tree.now.group < desk.old.store.geo.agcount }
    ensures answers { WriteAnswers D.Device desk.old desk.new result }
    ensures book { OnOk result (desk.new.book ≡ desk.old.book) }
    ensures items { desk.new.book.journal.items ≡ desk.old.book.journal.items }
    ensures geometry { desk.new.store.geo ≡ desk.old.store.geo }
{
    let key = SpanRec {
        start: u32::MAX,
        count: wanted.saturating_sub(1),
    };
    match records_behind(alloc, desk, tree, key, steps) {
        Ok(Ok(recs)) => Ok(Ok(first_fit(recs.as_slice(), wanted))),
        Ok(Err(cause)) => Ok(Err(cause)),
        Err(fault) => Err(fault),
    }
}

// What a group without free space that may be taken tells.
fn blank_space(g: u32, is_open: bool, sick: Option<Kind>) -> GroupSpace {
    GroupSpace {
        group: g,
        is_open,
        sick,
        is_large: false,
        fit: None,
        last: None,
    }
}

// What a usable group tells: the last record is asked for where none is long enough.
#[tactic(auto, using(core_chains::proofs::write::PartLemmas::answers_on))]
fn look_usable<D: Device, L: Ledger>(
    alloc: Global,
    desk: &mut Desk<D>,
    tree: &TreeAt,
    wanted: u32,
    steps: &mut Steps<L>,
) -> Result<Result<GroupSpace, Cause>, WriteFault>
    requires usable { IsUsable D.Device desk.old }
    requires kind { tree.now.kind ≡ Cnt }
    requires group { tree.now.group < desk.old.store.geo.agcount }
    ensures answers { WriteAnswers D.Device desk.old desk.new result }
    ensures book { OnOk result (desk.new.book ≡ desk.old.book) }
    ensures items { desk.new.book.journal.items ≡ desk.old.book.journal.items }
    ensures geometry { desk.new.store.geo ≡ desk.old.store.geo }
{
    let mut space = blank_space(tree.group, true, None);
    match find_fit(alloc, desk, tree, wanted, steps)? {
        Ok(fit) => space.fit = fit,
        Err(cause) => return Ok(Err(cause)),
    }
    if space.fit.is_some() {
        return Ok(Ok(space));
    }
    match last_record(desk, tree, steps)? {
        Ok(last) => {
            space.last = last;
            Ok(Ok(space))
        }
        Err(cause) => Ok(Err(cause)),
    }
}

// What a group tells.
#[tactic(auto, using(core_chains::proofs::write::PartLemmas::answers_self))]
fn look_group<D: Device, L: Ledger>(
    alloc: Global,
    desk: &mut Desk<D>,
    kept: &GroupKept,
    g: u32,
    wanted: u32,
    steps: &mut Steps<L>,
) -> Result<Result<GroupSpace, Cause>, WriteFault>
    requires usable { IsUsable D.Device desk.old }
    requires group { g < desk.old.store.geo.agcount }
    ensures answers { WriteAnswers D.Device desk.old desk.new result }
    ensures book { OnOk result (desk.new.book ≡ desk.old.book) }
    ensures items { desk.new.book.journal.items ≡ desk.old.book.journal.items }
    ensures geometry { desk.new.store.geo ≡ desk.old.store.geo }
{
    let gate = is_open(&desk.drain, g);
    let sick = sick_kind(kept);
    if !gate || sick.is_some() {
        return Ok(Ok(blank_space(g, gate, sick)));
    }
    look_usable(alloc, desk, &cnt_tree(kept, g), wanted, steps)
}

// The group that is tried with so many left.
fn next_group(own: u32, left: u32, groups: u32) -> u32
    requires own { own < groups }
    requires some { 0 < left }
    requires few { left ≤ groups }
    ensures { result < groups }
{
    group_tried(own, groups - left, groups)
}

// Looks at so many groups more, until one has a record that is long enough; answers where free space by
// count is to be marked.
#[tactic(auto, using(core_chains::proofs::write::PartLemmas::answers_self, core_chains::proofs::write::PartLemmas::answers_on))]
fn hunt_groups<D: Device, L: Ledger>(
    alloc: Global,
    desk: &mut Desk<D>,
    groups: &[GroupKept],
    hunt: &mut Hunt,
    left: u32,
    steps: &mut Steps<L>,
) -> Result<Option<(u32, Cause)>, WriteFault>
    requires usable { IsUsable D.Device desk.old }
    requires groups { length groups.now ≡ desk.old.store.geo.agcount }
    requires own { hunt.old.own < desk.old.store.geo.agcount }
    requires few { left ≤ desk.old.store.geo.agcount }
    ensures answers { WriteAnswers D.Device desk.old desk.new result }
    ensures book { OnOk result (desk.new.book ≡ desk.old.book) }
    ensures items { desk.new.book.journal.items ≡ desk.old.book.journal.items }
    ensures geometry { desk.new.store.geo ≡ desk.old.store.geo }
{
    if left == 0 || hunt.search.is_settled() {
        return Ok(None);
    }
    let g = next_group(hunt.own, left, desk.store.geo.agcount);
    match look_group(alloc, desk, &groups[g as usize], g, hunt.wanted, steps)? {
        Ok(space) => hunt.search.look(&space),
        Err(cause) => return Ok(Some((g, cause))),
    }
    hunt_groups(alloc, desk, groups, hunt, left - 1, steps)
}

// How a writer is told why no group gives a run.
fn answer_of<D: Device>(desk: &Desk<D>, search: &Search) -> Result<Choice, WriteFault>
    ensures reason { WritesWell desk.now result }
{
    match search.answer() {
        Ok(run) => Ok(Choice::Run(run)),
        Err(NoRun::Closing(g)) => Err(WriteFault::Closing(g)),
        Err(NoRun::Sick(sick)) => Err(WriteFault::Sick(sick.group, sick.kind)),
        Err(NoRun::TooLarge) => Err(WriteFault::TooLarge),
        Err(NoRun::NoSpace) => Err(WriteFault::NoSpace),
    }
}

/// Which run of so many blocks at most free space gives, over all groups from an inode's own upwards and
/// round: of those whose gate is open and of which neither free space nor reverse mappings are sick. Else
/// Closing, Sick or NoSpace (XFS Algorithms and Data Structures, "AG Free Space B+trees").
#[tactic(auto, using(core_chains::proofs::write::PartLemmas::answers_self))]
pub(crate) fn choose_run<D: Device, L: Ledger>(
    alloc: Global,
    desk: &mut Desk<D>,
    groups: &[GroupKept],
    own: u32,
    wanted: u32,
    steps: &mut Steps<L>,
) -> Result<Choice, WriteFault>
    requires usable { IsUsable D.Device desk.old }
    requires groups { length groups.now ≡ desk.old.store.geo.agcount }
    requires own { own < desk.old.store.geo.agcount }
    ensures answers { WriteAnswers D.Device desk.old desk.new result }
    ensures book { OnOk result (desk.new.book ≡ desk.old.book) }
    ensures items { desk.new.book.journal.items ≡ desk.old.book.journal.items }
    ensures geometry { desk.new.store.geo ≡ desk.old.store.geo }
{
    let mut hunt = Hunt {
        search: Search::new(wanted),
        wanted,
        own,
    };
    let left = desk.store.geo.agcount;
    match hunt_groups(alloc, desk, groups, &mut hunt, left, steps)? {
        Some((g, cause)) => Ok(Choice::Met(g, cause)),
        None => answer_of(desk, &hunt.search),
    }
}
