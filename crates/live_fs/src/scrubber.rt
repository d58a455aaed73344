// The scrubber: all units in their order, a turn for each event.
ghost use Rattle.std.specs.Prelude.{◌≡◌, ◌<◌};
ghost use Rattle.fsck_core.specs.Asks.{MayAsk};
ghost use Rattle.live_fs.specs.Passes.{IsPassOf, PassOn};
ghost use Rattle.quiet_repair.specs.Sessions.{IsInside};

use crate::ends::ScrubEnd;
use crate::gate::Gate;
use crate::live::LiveFs;
use crate::shared::Shared;
use blk_device::Device;
use check_watch::{NoWatch, Watch};
use core_calls::{Answer, Ask, ScrubFault};
use fs_state::Plan;
use quiet_repair::{take_answer, tell_passed, tell_started};
use scrub_order::Order;
use std::alloc::Global;
use std::sync::Wait;
use std::thread;
use turn_lock::Pass;

fn units_of(order: &Order) -> u32 {
    u32::try_from(order.units()).unwrap_or(u32::MAX)
}

// How a scrub ends whose order asks nothing more.
fn end_of(order: &Order) -> ScrubEnd {
    ScrubEnd {
        units: units_of(order),
        stop: order.stop(),
    }
}

// How a scrub ends where an answer comes that the order doesn't know, which doesn't come.
fn end_unknown(order: &Order) -> ScrubEnd {
    ScrubEnd {
        units: units_of(order),
        stop: Some(ScrubFault::Memory),
    }
}

// Lets writers go on, where the same event is asked again behind them.
fn yield_behind(answer: Answer) {
    if let Answer::Scrub(ScrubFault::Busy(_) | ScrubFault::Draining(_, _)) = answer {
        thread::yield_now();
    }
}

// A turn with the event that the order asks for, and what it answered is told to the order. False where
// the answer isn't one that may come.
fn ask_once<D: Device, G: Gate, W: Wait>(
    live: &LiveFs<'_, D, G>,
    rt: &W,
    alloc: Global,
    pass: &mut Pass<Shared<D>>,
    order: &mut Order,
    ask: Ask,
) -> bool
    requires pass { IsPassOf live.now.lock live.now.origin pass.old }
    requires asked { MayAsk live.now.origin.geo.agcount ask }
    requires inside { IsInside live.now.origin.geo.agcount order.old }
    ensures on { PassOn live.now.lock live.now.origin pass.old pass.new }
    ensures inside { IsInside live.now.origin.geo.agcount order.new }
{
    let told = live.take_turn(rt, alloc, pass, 0, ask);
    yield_behind(told.0);
    take_answer(order, told.0, told.1.phase)
}

// The same, and whoever watches is told.
fn ask_watched<D: Device, G: Gate, W: Wait, Y: Watch>(
    live: &LiveFs<'_, D, G>,
    rt: &W,
    alloc: Global,
    pass: &mut Pass<Shared<D>>,
    order: &mut Order,
    ask: Ask,
    watch: &mut Y,
) -> Option<ScrubEnd>
    requires pass { IsPassOf live.now.lock live.now.origin pass.old }
    requires asked { MayAsk live.now.origin.geo.agcount ask }
    requires inside { IsInside live.now.origin.geo.agcount order.old }
    ensures on { PassOn live.now.lock live.now.origin pass.old pass.new }
    ensures inside { IsInside live.now.origin.geo.agcount order.new }
{
    tell_started(watch, ask, live.origin.geo.agcount);
    let before = order.units();
    let is_taken = ask_once(live, rt, alloc, pass, order, ask);
    tell_passed(watch, before, order.units());
    if is_taken {
        None
    } else {
        Some(end_unknown(order))
    }
}

// One turn of the scrubber, or its end where the order asks nothing more.
fn scrub_once<D: Device, G: Gate, W: Wait, Y: Watch>(
    live: &LiveFs<'_, D, G>,
    rt: &W,
    alloc: Global,
    pass: &mut Pass<Shared<D>>,
    order: &mut Order,
    watch: &mut Y,
) -> Option<ScrubEnd>
    requires pass { IsPassOf live.now.lock live.now.origin pass.old }
    requires inside { IsInside live.now.origin.geo.agcount order.old }
    ensures on { PassOn live.now.lock live.now.origin pass.old pass.new }
    ensures inside { IsInside live.now.origin.geo.agcount order.new }
{
    match order.ask() {
        Some(ask) => ask_watched(live, rt, alloc, pass, order, ask, watch),
        None => Some(end_of(order)),
    }
}

/// Judges the units of all groups, and whoever watches is told how far they are.
pub(crate) fn scrub_watched<D: Device, G: Gate, W: Wait, Y: Watch>(
    live: &LiveFs<'_, D, G>,
    rt: &W,
    alloc: Global,
    pass: &mut Pass<Shared<D>>,
    order: Order,
    watch: &mut Y,
) -> ScrubEnd
    requires pass { IsPassOf live.now.lock live.now.origin pass.old }
    requires inside { IsInside live.now.origin.geo.agcount order }
    ensures on { PassOn live.now.lock live.now.origin pass.old pass.new }
{
    let mut order = order;
    for _ in rt.forever() {
        if let Some(end) = scrub_once(live, rt, alloc, pass, &mut order, watch) {
            return end;
        }
    }
    unreachable!()
}

impl<D: Device, G: Gate> LiveFs<'_, D, G> {
    /// The order of the units of all groups.
    pub(crate) fn order(&self, plan: Plan, turns: u32) -> Order
        ensures { IsInside self.now.origin.geo.agcount result }
    {
        Order::new(self.origin.geo.agcount, plan, turns)
    }

    /// Judges the units of all groups in their order while writers run, and rebuilds them as the plan
    /// says, by turns at the core; a unit loses at most so many turns to writers
    /// (XFS Online Fsck Design, "Metadata Scrubbing" and "Metadata Repair").
    pub fn scrubber<W: Wait>(
        &self,
        rt: &W,
        alloc: Global,
        pass: &mut Pass<Shared<D>>,
        plan: Plan,
        turns: u32,
    ) -> ScrubEnd
        requires pass { IsPassOf self.now.lock self.now.origin pass.old }
        requires turns { 0 < turns }
        ensures on { PassOn self.now.lock self.now.origin pass.old pass.new }
    {
        let order = self.order(plan, turns);
        scrub_watched(self, rt, alloc, pass, order, &mut NoWatch)
    }
}
