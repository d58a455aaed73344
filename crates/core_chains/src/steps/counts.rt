ghost use Rattle.std.specs.Prelude.{◌≡◌, ◌≤◌, ◌<◌, ◌+◌, ◌++◌, ◌∷◌, [], None, OnErr, OnOk, true};
ghost use Rattle.std.specs.Vec.{vec_capacity, vec_len};
ghost use Rattle.core_parts.specs.Common.Asks.{IsUsable};
ghost use Rattle.core_parts.specs.Keeps.{IsSteady};
ghost use Rattle.core_parts.specs.Safe.{IsKept, IsSafe};
ghost use Rattle.core_chains.specs.Steps.Counts.{IsDone, IsFound, IsPart};
ghost use Rattle.core_chains.specs.Steps.Entries.Counted.{Blocked, Stretched};
ghost use Rattle.core_chains.specs.Steps.Entries.{HasSaid, SaysRef, counted_on, is_more as is_more_of, ref_entry};
ghost use Rattle.core_chains.specs.Steps.Steps.{IsStep};
ghost use Rattle.core_chains.specs.Write.Writes.{IsGivenAll, IsGivenGroup, IsLeftAll, IsLeftGroup, WriteParts, WritesWell};
ghost use Rattle.defer_chain.specs.Steps.{is_less};
ghost use Rattle.defer_chain.specs.declared.kinds.StepKind.TheVariants.{Ref as RefStep};
ghost use Rattle.core_edit.specs.Opened.{IsOpen};

use crate::steps::asked::{Next, step_asked};
use crate::steps::stretch::{Sought, Span, span_over};
use crate::steps::writes::{mark_if_left, write_edit};
use crate::write::{
    begin_edit, chain_room, edit_refc, follow_moves, is_sick, mark_kind, put_chain,
};
use blk_device::Device;
use byte_fields::Steps;
use core_calls::WriteFault;
use core_parts::common::add_entry;
use core_parts::{Desk, GroupKept, Parts};
use defer_chain::{Chain, StepKind};
use fs_model::{Cause, Entry};
use fs_state::{Intent, IntentKind};
use rmap_recs::Owner;
use sblock::Kind;
use span_recs::SpanRec;
use std::alloc::Global;
use std::sync::ledger::Ledger;

/// A stretch that is done: so many blocks leave the intent, and are to be freed or not.
#[derive(Clone, Copy)]
pub(crate) struct Done {
    pub count: u32,
    pub frees: bool,
}

// Why each index was left, where it was.
#[derive(Clone, Copy)]
struct Left {
    refc: Option<Cause>,
    rmap: Option<Cause>,
}

// No index was left.
const NONE_LEFT: Left = Left {
    refc: None,
    rmap: None,
};

// Whether counts rise.
fn is_more(intent: &Intent) -> bool
    ensures { result ≡ is_more_of intent.now.kind }
{
    matches!(intent.kind, IntentKind::RefMore)
}

// Whether counts fall.
fn is_falling(intent: &Intent) -> bool
    ensures { result ≡ is_less intent.now.kind }
{
    matches!(intent.kind, IntentKind::RefLess)
}

// The chain without the stretch, and with what is to be freed.
fn finished(next: &Next, done: Done) -> Chain
    requires step { IsStep RefStep next.now }
    requires done { IsDone next.now.intent done }
{
    let mut rest = next.chain;
    rest.finish_stretch(done.count, done.frees);
    rest
}

// The entry of the step, and the chain without the stretch.
fn say_counted<D: Device>(desk: &mut Desk<D>, next: &Next, done: Done)
    requires usable { IsUsable D.Device desk.old }
    requires step { IsStep RefStep next.now }
    requires done { IsDone next.now.intent done }
    requires room { vec_len desk.old.book.journal < vec_capacity desk.old.book.journal }
    ensures usable { IsUsable D.Device desk.new }
    ensures steady { IsSteady D.Device desk.old desk.new }
    ensures longer { vec_len desk.new.book.journal ≡ vec_len desk.old.book.journal + 1 }
    ensures capacity { vec_capacity desk.new.book.journal ≡ vec_capacity desk.old.book.journal }
    ensures said { desk.new.book.journal.items ≡ desk.old.book.journal.items ++ ref_entry next.now.number next.now.intent done.count ∷ [] }
{
    add_entry(
        desk,
        Entry::RefDone {
            chain: next.number,
            group: next.intent.group,
            block: next.intent.block,
            count: done.count,
            more: is_more(&next.intent),
        },
    );
    put_chain(desk, next.number, Some(finished(next, done)));
}

// The entry of the step, a mark for each index that was left, and the chain without the stretch.
fn say_done<D: Device>(
    desk: &mut Desk<D>,
    kept: &mut GroupKept,
    next: &Next,
    done: Done,
    left: Left,
)
    requires given { IsGivenGroup D.Device desk.old kept.old next.now.intent.group }
    requires step { IsStep RefStep next.now }
    requires done { IsDone next.now.intent done }
    requires room { vec_len desk.old.book.journal + 3 ≤ vec_capacity desk.old.book.journal }
    ensures usable { IsUsable D.Device desk.new }
    ensures steady { IsSteady D.Device desk.old desk.new }
    ensures kept { IsKept kept.new }
    ensures said { desk.new.book.journal.items ≡ counted_on desk.old.book.journal.items next.now.number next.now.intent (Stretched done.count left.refc left.rmap) }
{
    say_counted(desk, next, done);
    mark_if_left(desk, kept, next.intent.group, Kind::Refc, left.refc);
    mark_if_left(desk, kept, next.intent.group, Kind::Rmap, left.rmap);
}

// The whole rest of the intent, of which nothing is freed.
fn whole_rest(intent: &Intent) -> Done
    requires { 0 < intent.now.count }
    ensures done { IsDone intent.now result }
    ensures whole { result.count ≡ intent.now.count }
{
    Done {
        count: intent.count,
        frees: false,
    }
}

// Counts aren't read any more: the rest of the intent is done.
fn pass_over<D: Device>(desk: &mut Desk<D>, kept: &mut GroupKept, next: &Next)
    requires given { IsGivenGroup D.Device desk.old kept.old next.now.intent.group }
    requires step { IsStep RefStep next.now }
    requires room { vec_len desk.old.book.journal + 3 ≤ vec_capacity desk.old.book.journal }
    ensures usable { IsUsable D.Device desk.new }
    ensures steady { IsSteady D.Device desk.old desk.new }
    ensures kept { IsKept kept.new }
    ensures said { desk.new.book.journal.items ≡ counted_on desk.old.book.journal.items next.now.number next.now.intent (Stretched next.now.intent.count None None) }
{
    say_counted(desk, next, whole_rest(&next.intent));
}

// Counts met a fault before it was known where the stretch ends: they are marked first, and then passed
// over.
fn pass_met<D: Device>(desk: &mut Desk<D>, kept: &mut GroupKept, next: &Next, cause: Cause)
    requires given { IsGivenGroup D.Device desk.old kept.old next.now.intent.group }
    requires step { IsStep RefStep next.now }
    requires room { vec_len desk.old.book.journal + 3 ≤ vec_capacity desk.old.book.journal }
    ensures usable { IsUsable D.Device desk.new }
    ensures steady { IsSteady D.Device desk.old desk.new }
    ensures kept { IsKept kept.new }
    ensures said { desk.new.book.journal.items ≡ counted_on desk.old.book.journal.items next.now.number next.now.intent (Blocked cause) }
{
    mark_kind(desk, kept, next.intent.group, Kind::Refc, cause);
    say_counted(desk, next, whole_rest(&next.intent));
}

// Reverse mappings follow the blocks that came to reference counts or left them, unless they are sick.
fn follow_sound<D: Device, L: Ledger>(
    alloc: Global,
    desk: &mut Desk<D>,
    kept: &GroupKept,
    g: u32,
    steps: &mut Steps<L>,
) -> Result<Option<Cause>, WriteFault>
    requires given { IsGivenGroup D.Device desk.old kept.now g }
    requires opened { IsOpen D.Device g desk.old.store }
    ensures left { IsLeftGroup D.Device desk.old desk.new kept.now result }
    ensures book { OnOk result (desk.new.book ≡ desk.old.book) }
    ensures items { desk.new.book.journal.items ≡ desk.old.book.journal.items }
    ensures opened { OnOk result (IsOpen D.Device g desk.new.store) }
{
    if is_sick(kept, Kind::Rmap) {
        return Ok(None);
    }
    follow_moves(alloc, desk, g, Owner::Refc, &kept.heads.list, steps)
}

// Writes the edit of counts, and why reverse mappings were left.
fn write_counted<D: Device, L: Ledger>(
    desk: &mut Desk<D>,
    kept: &mut GroupKept,
    g: u32,
    rmap: Option<Cause>,
    steps: &mut Steps<L>,
) -> Result<Left, WriteFault>
    requires given { IsGivenGroup D.Device desk.old kept.old g }
    requires opened { IsOpen D.Device g desk.old.store }
    ensures left { IsLeftGroup D.Device desk.old desk.new kept.new result }
    ensures book { OnOk result (desk.new.book ≡ desk.old.book) }
    ensures items { desk.new.book.journal.items ≡ desk.old.book.journal.items }
{
    match write_edit(desk, kept, g, steps) {
        Ok(()) => Ok(Left { refc: None, rmap }),
        Err(fault) => Err(fault),
    }
}

// Counts are edited: reverse mappings follow, and all is written.
fn follow_counted<D: Device, L: Ledger>(
    alloc: Global,
    desk: &mut Desk<D>,
    kept: &mut GroupKept,
    g: u32,
    steps: &mut Steps<L>,
) -> Result<Left, WriteFault>
    requires given { IsGivenGroup D.Device desk.old kept.old g }
    requires opened { IsOpen D.Device g desk.old.store }
    ensures left { IsLeftGroup D.Device desk.old desk.new kept.new result }
    ensures book { OnOk result (desk.new.book ≡ desk.old.book) }
    ensures items { desk.new.book.journal.items ≡ desk.old.book.journal.items }
{
    match follow_sound(alloc, desk, kept, g, steps) {
        Ok(rmap) => write_counted(desk, kept, g, rmap, steps),
        Err(fault) => Err(fault),
    }
}

// Changes the count of a run, in the group whose edit is open.
fn count_open<D: Device, L: Ledger>(
    alloc: Global,
    desk: &mut Desk<D>,
    kept: &mut GroupKept,
    intent: &Intent,
    count: u32,
    steps: &mut Steps<L>,
) -> Result<Left, WriteFault>
    requires given { IsGivenGroup D.Device desk.old kept.old intent.now.group }
    requires opened { IsOpen D.Device intent.now.group desk.old.store }
    ensures left { IsLeftGroup D.Device desk.old desk.new kept.new result }
    ensures book { OnOk result (desk.new.book ≡ desk.old.book) }
    ensures items { desk.new.book.journal.items ≡ desk.old.book.journal.items }
{
    let run = SpanRec {
        start: intent.block,
        count,
    };
    match edit_refc(alloc, desk, intent.group, &run, is_more(intent), steps) {
        Ok(None) => follow_counted(alloc, desk, kept, intent.group, steps),
        Ok(cause) => Ok(Left {
            refc: cause,
            rmap: None,
        }),
        Err(fault) => Err(fault),
    }
}

// Changes the count of the stretch.
fn count_span<D: Device, L: Ledger>(
    alloc: Global,
    desk: &mut Desk<D>,
    kept: &mut GroupKept,
    intent: &Intent,
    count: u32,
    steps: &mut Steps<L>,
) -> Result<Left, WriteFault>
    requires given { IsGivenGroup D.Device desk.old kept.old intent.now.group }
    ensures left { IsLeftGroup D.Device desk.old desk.new kept.new result }
    ensures book { OnOk result (desk.new.book ≡ desk.old.book) }
    ensures items { desk.new.book.journal.items ≡ desk.old.book.journal.items }
{
    match begin_edit(desk, kept, intent.group, None, steps) {
        Ok(()) => count_open(alloc, desk, kept, intent, count, steps),
        Err(fault) => Err(fault),
    }
}

// Changes the count of the stretch, unless there is nothing to change, or its record can't rise.
fn change_span<D: Device, L: Ledger>(
    alloc: Global,
    desk: &mut Desk<D>,
    kept: &mut GroupKept,
    intent: &Intent,
    span: Span,
    steps: &mut Steps<L>,
) -> Result<Left, WriteFault>
    requires given { IsGivenGroup D.Device desk.old kept.old intent.now.group }
    ensures left { IsLeftGroup D.Device desk.old desk.new kept.new result }
    ensures book { OnOk result (desk.new.book ≡ desk.old.book) }
    ensures items { desk.new.book.journal.items ≡ desk.old.book.journal.items }
{
    if is_falling(intent) && !span.counted {
        return Ok(NONE_LEFT);
    }
    // Only where records of counts overlap, or the content isn't known: a first event shares no block with
    // so many owners.
    if is_more(intent) && span.owners == u32::MAX {
        return Ok(Left {
            refc: Some(Cause::Missing),
            rmap: None,
        });
    }
    count_span(alloc, desk, kept, intent, span.count, steps)
}

// What is done of an intent by its stretch.
fn done_of(intent: &Intent, span: Span) -> Done
    requires { IsPart span.count intent.now.count }
    ensures { IsDone intent.now result }
{
    Done {
        count: span.count,
        frees: is_falling(intent) && !span.counted,
    }
}

// The step, once the stretch is known.
fn step_span<D: Device, L: Ledger>(
    alloc: Global,
    desk: &mut Desk<D>,
    kept: &mut GroupKept,
    next: &Next,
    span: Span,
    steps: &mut Steps<L>,
) -> Result<(), WriteFault>
    requires given { IsGivenGroup D.Device desk.old kept.old next.now.intent.group }
    requires step { IsStep RefStep next.now }
    requires part { IsPart span.count next.now.intent.count }
    requires room { vec_len desk.old.book.journal + 3 ≤ vec_capacity desk.old.book.journal }
    ensures left { IsLeftGroup D.Device desk.old desk.new kept.new result }
    ensures said { OnOk result (SaysRef next.now.number next.now.intent desk.old.book.journal.items desk.new.book.journal.items) }
    ensures unsaid { OnErr result (desk.new.book.journal.items ≡ desk.old.book.journal.items) }
{
    match change_span(alloc, desk, kept, &next.intent, span, steps) {
        Ok(left) => {
            say_done(desk, kept, next, done_of(&next.intent, span), left);
            Ok(())
        }
        Err(fault) => Err(fault),
    }
}

// The step, by what was found of the stretch.
fn step_sought<D: Device, L: Ledger>(
    alloc: Global,
    desk: &mut Desk<D>,
    kept: &mut GroupKept,
    next: &Next,
    sought: Sought,
    steps: &mut Steps<L>,
) -> Result<(), WriteFault>
    requires given { IsGivenGroup D.Device desk.old kept.old next.now.intent.group }
    requires step { IsStep RefStep next.now }
    requires found { IsFound next.now.intent.count sought }
    requires room { vec_len desk.old.book.journal + 3 ≤ vec_capacity desk.old.book.journal }
    ensures left { IsLeftGroup D.Device desk.old desk.new kept.new result }
    ensures said { OnOk result (SaysRef next.now.number next.now.intent desk.old.book.journal.items desk.new.book.journal.items) }
    ensures unsaid { OnErr result (desk.new.book.journal.items ≡ desk.old.book.journal.items) }
{
    match sought {
        Sought::Found(span) => step_span(alloc, desk, kept, next, span, steps),
        Sought::Met(cause) => {
            pass_met(desk, kept, next, cause);
            Ok(())
        }
    }
}

// The step, where counts aren't sick.
fn step_sound<D: Device, L: Ledger>(
    alloc: Global,
    desk: &mut Desk<D>,
    kept: &mut GroupKept,
    next: &Next,
    steps: &mut Steps<L>,
) -> Result<(), WriteFault>
    requires given { IsGivenGroup D.Device desk.old kept.old next.now.intent.group }
    requires step { IsStep RefStep next.now }
    requires room { vec_len desk.old.book.journal + 3 ≤ vec_capacity desk.old.book.journal }
    ensures left { IsLeftGroup D.Device desk.old desk.new kept.new result }
    ensures said { OnOk result (SaysRef next.now.number next.now.intent desk.old.book.journal.items desk.new.book.journal.items) }
    ensures unsaid { OnErr result (desk.new.book.journal.items ≡ desk.old.book.journal.items) }
{
    match span_over(desk, &kept.heads, &next.intent, steps) {
        Ok(sought) => step_sought(alloc, desk, kept, next, sought, steps),
        Err(fault) => Err(fault),
    }
}

// The step, where the journal has room for its entries.
fn step_roomy<D: Device, L: Ledger>(
    alloc: Global,
    desk: &mut Desk<D>,
    kept: &mut GroupKept,
    next: &Next,
    steps: &mut Steps<L>,
) -> Result<(), WriteFault>
    requires given { IsGivenGroup D.Device desk.old kept.old next.now.intent.group }
    requires step { IsStep RefStep next.now }
    requires room { vec_len desk.old.book.journal + 3 ≤ vec_capacity desk.old.book.journal }
    ensures left { IsLeftGroup D.Device desk.old desk.new kept.new result }
    ensures said { OnOk result (SaysRef next.now.number next.now.intent desk.old.book.journal.items desk.new.book.journal.items) }
    ensures unsaid { OnErr result (desk.new.book.journal.items ≡ desk.old.book.journal.items) }
{
    if is_sick(kept, Kind::Refc) {
        pass_over(desk, kept, next);
        return Ok(());
    }
    step_sound(alloc, desk, kept, next, steps)
}

// The step in its group.
fn step_in<D: Device, L: Ledger>(
    alloc: Global,
    desk: &mut Desk<D>,
    kept: &mut GroupKept,
    next: &Next,
    steps: &mut Steps<L>,
) -> Result<(), WriteFault>
    requires given { IsGivenGroup D.Device desk.old kept.old next.now.intent.group }
    requires step { IsStep RefStep next.now }
    ensures left { IsLeftGroup D.Device desk.old desk.new kept.new result }
    ensures said { OnOk result (SaysRef next.now.number next.now.intent desk.old.book.journal.items desk.new.book.journal.items) }
    ensures unsaid { OnErr result (desk.new.book.journal.items ≡ desk.old.book.journal.items) }
{
    match chain_room(desk, 3) {
        Ok(()) => step_roomy(alloc, desk, kept, next, steps),
        Err(fault) => Err(fault),
    }
}

// The step, with what is kept of its group among all groups.
fn step_among<D: Device, L: Ledger>(
    alloc: Global,
    desk: &mut Desk<D>,
    groups: &mut Vec<GroupKept>,
    next: &Next,
    steps: &mut Steps<L>,
) -> Result<(), WriteFault>
    requires given { IsGivenAll D.Device desk.old groups.old.items }
    requires inside { next.now.intent.group < desk.old.store.geo.agcount }
    requires step { IsStep RefStep next.now }
    ensures left { IsLeftAll D.Device desk.old desk.new groups.old.items groups.new.items }
    ensures reason { WritesWell desk.new result }
    ensures said { OnOk result (SaysRef next.now.number next.now.intent desk.old.book.journal.items desk.new.book.journal.items) }
    ensures unsaid { OnErr result (desk.new.book.journal.items ≡ desk.old.book.journal.items) }
{
    let kept = &mut groups[next.intent.group as usize];
    step_in(alloc, desk, kept, next, steps)
}

// The step, where its intent is one of the image.
fn step_asked_for<D: Device, L: Ledger>(
    alloc: Global,
    parts: &mut Parts<D>,
    next: &Next,
    steps: &mut Steps<L>,
) -> Result<(), WriteFault>
    requires safe { IsSafe D.Device parts.old }
    requires unshut { parts.old.desk.book.shut ≡ None }
    requires step { IsStep RefStep next.now }
    ensures left { WriteParts D.Device parts.old parts.new result }
    ensures said { OnOk result (SaysRef next.now.number next.now.intent parts.old.desk.book.journal.items parts.new.desk.book.journal.items) }
    ensures unsaid { OnErr result (parts.new.desk.book.journal.items ≡
        parts.old.desk.book.journal.items) }
{
    // Never: a first event puts intents of a group that is there.
    if next.intent.group >= parts.desk.store.geo.agcount {
        return Err(WriteFault::Memory);
    }
    step_among(alloc, &mut parts.desk, &mut parts.groups, next, steps)
}

/// The next step of a chain, where that is one of reference counts: the first stretch of its run that has
/// one count gets one owner more, or one fewer, in one commit; reverse mappings follow the blocks that move
/// by that. A stretch that loses its only owner has no record, and is to be freed next. Counts that are
/// sick are passed over, and nothing is freed; an index whose edit meets a fault is left and marked. In each
/// case the stretch is done. Refused with Shut where a fault of the device was noted, NoChain where no such
/// chain is open, and OtherStep where its next step is another
/// (XFS Online Fsck Design, "Eventual Consistency"; XFS Algorithms and Data Structures, "Reference Count
/// B+tree").
pub fn ref_step<D: Device, L: Ledger>(
    alloc: Global,
    parts: &mut Parts<D>,
    chain: u32,
    steps: &mut Steps<L>,
) -> Result<(), WriteFault>
    requires safe { IsSafe D.Device parts.old }
    ensures left { WriteParts D.Device parts.old parts.new result }
    ensures said { OnOk result (HasSaid SaysRef chain parts.old parts.new) }
    ensures unsaid { OnErr result (parts.new.desk.book.journal.items ≡
        parts.old.desk.book.journal.items) }
{
    match step_asked(&parts.desk, chain, StepKind::Ref) {
        Ok(next) => step_asked_for(alloc, parts, &next, steps),
        Err(fault) => Err(fault),
    }
}
