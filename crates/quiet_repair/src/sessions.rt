ghost use Rattle.std.specs.Prelude.{◌≡◌, ◌↔◌, [], IsTrue, Some, if◌then◌else◌};
ghost use Rattle.core_parts.specs.Keeps.{IsSteady};
ghost use Rattle.core_parts.specs.Safe.{IsSafe};
ghost use Rattle.fsck_core.specs.Acts.{Acts};
ghost use Rattle.fsck_core.specs.Asks.{MayAsk, group_asked, phase_of_group};
ghost use Rattle.fsck_core.specs.Entries.{Says};
ghost use Rattle.quiet_repair.specs.Courses.{EndsBy, GoesBy, OnCourse};
ghost use Rattle.quiet_repair.specs.Sessions.{EndsFor, GoesOn, IsStopped, Stands};
ghost use Rattle.scrub_order.specs.Comes.{MayAnswer};
ghost use Rattle.scrub_order.specs.Course.{IsInOrder};
ghost use Rattle.scrub_order.specs.Orders.{ask_in, took_in};
ghost use Rattle.unit_trust.specs.Laws.{AllFresh};

use crate::forks::{Forks, advance_by, look_first};
use crate::telling::{tell_passed, tell_started};
use blk_device::Device;
use byte_fields::Steps;
use check_watch::Watch;
use core_calls::{Answer, Ask, Phase, ScrubFault};
use core_parts::Parts;
use fs_state::Plan;
use fsck_core::act;
use scrub_order::{Order, course_follows};
use std::alloc::Global;
use std::marker::Brand;
use std::sync::ledger::{Blank, Ledger};

/// The end of a session: why it stopped before its last unit, if it did.
#[derive(Clone, Copy, Debug, PartialEq, Eq)]
pub(crate) struct End {
    pub(crate) stop: Option<ScrubFault>,
}

/// The order takes an answer, where that may come; else it stays, and the answer is false
/// (XFS Online Fsck Design, "Metadata Scrubbing").
pub fn take_answer(order: &mut Order, answer: Answer, phase: Phase) -> bool
    ensures took { order.new ≡ (if result then took_in order.old answer phase else order.old) }
    ensures may { IsTrue result ↔ MayAnswer order.old.at answer phase }
{
    if !order.can_take(answer, phase) {
        return false;
    }
    order.took(answer, phase);
    true
}

// Does one event. A scan is moved on by the pass over all forks: nobody changes a file meanwhile.
fn answer_of<D: Device, L: Ledger>(
    alloc: Global,
    parts: &mut Parts<D>,
    forks: &mut Forks,
    ask: Ask,
    steps: &mut Steps<L>,
) -> (Answer, Phase)
    requires safe { IsSafe D.Device parts.old }
    requires asked { MayAsk parts.old.desk.store.geo.agcount ask }
    ensures acted { Acts D.Device parts.old parts.new result.0 }
    ensures says { Says ask parts.old parts.new result.0 }
    ensures phase { result.1 ≡ phase_of_group parts.new.units.items (group_asked ask) }
{
    match ask {
        Ask::Advance { group } => advance_by(alloc, parts, forks, group, steps),
        _ => act(alloc, parts, ask, steps),
    }
}

// Does the event that the order asks for, and tells the order what it answered. False where the answer
// isn't one that may come.
fn answer_once<D: Device, L: Ledger>(
    alloc: Global,
    parts: &mut Parts<D>,
    order: &mut Order,
    forks: &mut Forks,
    ask: Ask,
    steps: &mut Steps<L>,
) -> bool
    requires safe { IsSafe D.Device parts.old }
    requires asked { MayAsk parts.old.desk.store.geo.agcount ask }
    requires stands { Stands parts.old.desk order.old }
    requires course { OnCourse order.old.plan order.old.turns parts.old order.old }
    requires asks { ask_in order.old ≡ Some ask }
    ensures on { GoesOn D.Device parts.old parts.new order.new }
    ensures goes { GoesBy order.old.plan order.old.turns result parts.new order.new }
{
    // Whatever may be answered, the order takes it and follows the journal.
    course_follows();
    let told = answer_of(alloc, parts, forks, ask, steps);
    take_answer(order, told.0, told.1)
}

// The same, with a look at all forks before the first scan is moved on.
fn ask_once<D: Device, L: Ledger>(
    alloc: Global,
    parts: &mut Parts<D>,
    order: &mut Order,
    forks: &mut Forks,
    ask: Ask,
    steps: &mut Steps<L>,
) -> bool
    requires safe { IsSafe D.Device parts.old }
    requires asked { MayAsk parts.old.desk.store.geo.agcount ask }
    requires stands { Stands parts.old.desk order.old }
    requires course { OnCourse order.old.plan order.old.turns parts.old order.old }
    requires asks { ask_in order.old ≡ Some ask }
    ensures on { GoesOn D.Device parts.old parts.new order.new }
    ensures goes { GoesBy order.old.plan order.old.turns result parts.new order.new }
{
    look_first(alloc, parts, forks, ask, steps);
    answer_once(alloc, parts, order, forks, ask, steps)
}

// Asks one event, and tells whoever watches.
fn ask_watched<D: Device, L: Ledger, W: Watch>(
    alloc: Global,
    parts: &mut Parts<D>,
    order: &mut Order,
    forks: &mut Forks,
    ask: Ask,
    watch: &mut W,
    steps: &mut Steps<L>,
) -> bool
    requires safe { IsSafe D.Device parts.old }
    requires asked { MayAsk parts.old.desk.store.geo.agcount ask }
    requires stands { Stands parts.old.desk order.old }
    requires course { OnCourse order.old.plan order.old.turns parts.old order.old }
    requires asks { ask_in order.old ≡ Some ask }
    ensures on { GoesOn D.Device parts.old parts.new order.new }
    ensures goes { GoesBy order.old.plan order.old.turns result parts.new order.new }
{
    tell_started(watch, ask, parts.desk.store.geo.agcount);
    let before = order.units();
    let is_taken = ask_once(alloc, parts, order, forks, ask, steps);
    tell_passed(watch, before, order.units());
    is_taken
}

// The event that the order asks for, as one turn of a session. An answer that the order doesn't know, which
// doesn't come, ends it with Memory.
fn turn_asked<D: Device, L: Ledger, W: Watch>(
    alloc: Global,
    parts: &mut Parts<D>,
    order: &mut Order,
    forks: &mut Forks,
    ask: Ask,
    watch: &mut W,
    steps: &mut Steps<L>,
) -> Option<End>
    requires safe { IsSafe D.Device parts.old }
    requires asked { MayAsk parts.old.desk.store.geo.agcount ask }
    requires stands { Stands parts.old.desk order.old }
    requires course { OnCourse order.old.plan order.old.turns parts.old order.old }
    requires asks { ask_in order.old ≡ Some ask }
    ensures on { GoesOn D.Device parts.old parts.new order.new }
    ensures ends { EndsBy order.old.plan order.old.turns result parts.new order.new }
    ensures end { EndsFor parts.new.desk result }
{
    if ask_watched(alloc, parts, order, forks, ask, watch, steps) {
        return None;
    }
    Some(End {
        stop: Some(ScrubFault::Memory),
    })
}

// One turn of a session: the next event, or the end where the order asks nothing more.
fn turn<D: Device, L: Ledger, W: Watch>(
    alloc: Global,
    parts: &mut Parts<D>,
    order: &mut Order,
    forks: &mut Forks,
    watch: &mut W,
    steps: &mut Steps<L>,
) -> Option<End>
    requires safe { IsSafe D.Device parts.old }
    requires stands { Stands parts.old.desk order.old }
    requires course { OnCourse order.old.plan order.old.turns parts.old order.old }
    ensures on { GoesOn D.Device parts.old parts.new order.new }
    ensures end { EndsFor parts.new.desk result }
    ensures ends { EndsBy order.old.plan order.old.turns result parts.new order.new }
{
    // Where nothing is asked any more, all units have their verdict.
    course_follows();
    match order.ask() {
        Some(ask) => turn_asked(alloc, parts, order, forks, ask, watch, steps),
        None => Some(End { stop: order.stop() }),
    }
}

// A session over all units by its order, to its end. The count of turns has no end that is reached.
fn run_order<D: Device, L: Ledger, W: Watch>(
    alloc: Global,
    parts: &mut Parts<D>,
    order: Order,
    watch: &mut W,
    steps: &mut Steps<L>,
) -> Option<ScrubFault>
    requires safe { IsSafe D.Device parts.old }
    requires stands { Stands parts.old.desk order }
    requires course { OnCourse order.plan order.turns parts.old order }
    ensures safe { IsSafe D.Device parts.new }
    ensures steady { IsSteady D.Device parts.old.desk parts.new.desk }
    ensures stop { IsStopped parts.new.desk result }
    ensures order { IsInOrder parts.new.desk.store.geo.agcount order.plan order.turns result
        parts.new.desk.book.journal.items }
{
    // Wherever a session stops, its verdicts are the first of all.
    course_follows();
    let mut order = order;
    let mut forks = Forks::Unread;
    for _ in 0..u64::MAX {
        if let Some(end) = turn(alloc, parts, &mut order, &mut forks, watch, steps) {
            return end.stop;
        }
    }
    Some(ScrubFault::Memory)
}

// A session. The ledger is that of its steps.
fn session_counted<D: Device, L: Ledger, W: Watch>(
    alloc: Global,
    parts: &mut Parts<D>,
    order: Order,
    blank: Blank,
    watch: &mut W,
) -> Option<ScrubFault>
    requires safe { IsSafe D.Device parts.old }
    requires stands { Stands parts.old.desk order }
    requires course { OnCourse order.plan order.turns parts.old order }
    requires name { blank.name ≡ L.name }
    requires parts { blank.parts ≡ L.parts }
    requires three { blank.parts ≡ 3 }
    ensures safe { IsSafe D.Device parts.new }
    ensures steady { IsSteady D.Device parts.old.desk parts.new.desk }
    ensures stop { IsStopped parts.new.desk result }
    ensures order { IsInOrder parts.new.desk.store.geo.agcount order.plan order.turns result
        parts.new.desk.book.journal.items }
{
    let mut steps = Steps::<L>::new(blank);
    run_order(alloc, parts, order, watch, &mut steps)
}

/// Judges the units of all groups in their order, and rebuilds them as the plan says; of the turns no unit
/// loses one, since there are no writers. Answers why the session stopped before its last unit: a full
/// journal, a fault of the device, or want of memory; None where every unit has its verdict
/// (XFS Online Fsck Design, "Metadata Scrubbing" and "Metadata Repair").
pub fn session<D: Device, W: Watch>(
    alloc: Global,
    parts: &mut Parts<D>,
    plan: Plan,
    turns: u32,
    watch: &mut W,
) -> Option<ScrubFault>
    requires safe { IsSafe D.Device parts.old }
    requires fresh { AllFresh parts.old.groups.items }
    requires empty { parts.old.desk.book.journal.items ≡ [] }
    ensures safe { IsSafe D.Device parts.new }
    ensures steady { IsSteady D.Device parts.old.desk parts.new.desk }
    ensures stop { IsStopped parts.new.desk result }
    ensures order { IsInOrder parts.new.desk.store.geo.agcount plan turns result
        parts.new.desk.book.journal.items }
{
    // A new order follows the empty journal.
    course_follows();
    let order = Order::new(parts.desk.store.geo.agcount, plan, turns);
    let blank = Blank::new(3);
    session_counted::<D, Brand, W>(alloc, parts, order, blank, watch)
}
