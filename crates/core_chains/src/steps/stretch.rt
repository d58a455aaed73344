// The stretch of a reference count that a step changes.
ghost use Rattle.std.specs.Prelude.{◌≡◌, ◌<◌, ◌≤◌, ◌+◌, ◌^◌, IfOk, IfSome, OnOk};
ghost use Rattle.core_parts.specs.Common.Asks.{IsUsable};
ghost use Rattle.core_chains.specs.Steps.Counts.{IsFound, IsPart};
ghost use Rattle.core_chains.specs.Write.Writes.{WriteAnswers};
ghost use Rattle.defer_chain.specs.Stretch.{Reaches};

use crate::steps::reads::{Counter, counter_over};
use blk_device::Device;
use byte_fields::Steps;
use core_calls::WriteFault;
use core_edit::EditHeads;
use core_parts::Desk;
use defer_chain::first_stretch;
use fs_model::Cause;
use fs_state::Intent;
use run_sets::Run;
use span_recs::{RefcKey, RefcRec};
use std::sync::ledger::Ledger;

/// The first blocks of an intent that have one count: so many, with so many owners each, and whether a
/// record counts them.
#[derive(Clone, Copy)]
pub(crate) struct Span {
    pub count: u32,
    pub owners: u32,
    pub counted: bool,
}

/// The stretch that a step takes, or what was met while it was looked for.
#[derive(Clone, Copy)]
pub(crate) enum Sought {
    Found(Span),
    Met(Cause),
}

// The record, where it has the block.
fn reaching(found: Option<RefcRec>, block: u32) -> Option<RefcRec>
    ensures { IfSome result (λ r. Reaches r block) }
{
    let rec = found?;
    let end = u64::from(rec.start) + u64::from(rec.count);
    // One that was found has the block, and lies in the group.
    if rec.start > block || end <= u64::from(block) || end >= 0x1_0000_0000 {
        return None;
    }
    Some(rec)
}

// Where the record begins, if that is behind the block.
fn start_behind(found: Option<RefcRec>, block: u32) -> Option<u32>
    ensures { IfSome result (λ s. block < s) }
{
    let rec = found?;
    // One that was found behind the block begins there.
    if rec.start <= block {
        return None;
    }
    Some(rec.start)
}

// The stretch by the record over its first block and the one that begins behind that.
#[tactic(auto, using(crate::proofs::steps::StretchLemmas::is_part))]
fn span_of(intent: &Intent, over: Option<RefcRec>, next: Option<RefcRec>) -> Span
    requires { 0 < intent.now.count }
    ensures { IsPart result.count intent.now.count }
{
    let over = reaching(over, intent.block);
    let next = start_behind(next, intent.block);
    let stretch = first_stretch(intent.block, intent.count, over, next);
    Span {
        count: stretch.count,
        owners: stretch.owners,
        counted: over.is_some(),
    }
}

// The stretch, once it is known which record has its first block.
fn span_behind<D: Device, L: Ledger>(
    desk: &mut Desk<D>,
    heads: &EditHeads,
    intent: &Intent,
    over: Option<RefcRec>,
    steps: &mut Steps<L>,
) -> Result<Sought, WriteFault>
    requires usable { IsUsable D.Device desk.old }
    requires group { intent.now.group < desk.old.store.geo.agcount }
    requires some { 0 < intent.now.count }
    requires fits { intent.now.block + intent.now.count < 2 ^ 32 }
    ensures answers { WriteAnswers D.Device desk.old desk.new result }
    ensures book { OnOk result (desk.new.book ≡ desk.old.book) }
    ensures items { desk.new.book.journal.items ≡ desk.old.book.journal.items }
    ensures part { IfOk result (IsFound intent.now.count) }
{
    let rest = Run {
        start: intent.block + 1,
        count: intent.count - 1,
    };
    let after = Some(RefcKey {
        start: intent.block,
    });
    match counter_over(desk, heads, intent.group, rest, after, steps) {
        Ok(Counter::Found(next)) => Ok(Sought::Found(span_of(intent, over, next))),
        Ok(Counter::Met(cause)) => Ok(Sought::Met(cause)),
        Err(fault) => Err(fault),
    }
}

/// The first stretch of an intent inside one record of reference counts, or outside of all: it ends with
/// the record that has its first block, and where the next one begins
/// (XFS Algorithms and Data Structures, "Reference Count B+tree").
pub(crate) fn span_over<D: Device, L: Ledger>(
    desk: &mut Desk<D>,
    heads: &EditHeads,
    intent: &Intent,
    steps: &mut Steps<L>,
) -> Result<Sought, WriteFault>
    requires usable { IsUsable D.Device desk.old }
    requires group { intent.now.group < desk.old.store.geo.agcount }
    requires some { 0 < intent.now.count }
    requires fits { intent.now.block + intent.now.count < 2 ^ 32 }
    ensures answers { WriteAnswers D.Device desk.old desk.new result }
    ensures book { OnOk result (desk.new.book ≡ desk.old.book) }
    ensures items { desk.new.book.journal.items ≡ desk.old.book.journal.items }
    ensures part { IfOk result (IsFound intent.now.count) }
{
    let first = Run {
        start: intent.block,
        count: 1,
    };
    match counter_over(desk, heads, intent.group, first, None, steps) {
        Ok(Counter::Found(over)) => span_behind(desk, heads, intent, over, steps),
        Ok(Counter::Met(cause)) => Ok(Sought::Met(cause)),
        Err(fault) => Err(fault),
    }
}
