ghost use Rattle.std.specs.Prelude.{◌≡◌, ◌<◌, ◌≤◌, ◌+◌, IfOk, Some, length};
ghost use Rattle.std.specs.Vec.{vec_capacity};
ghost use Rattle.intent_drain.specs.Drains.{SameGates, SameHolds, gates_of, holds_of};

use defer_chain::Chain;
use intent_drain::{Drain, Gate, Holder, MOST_CHAINS, Memory};
use std::alloc::Global;

// Puts the chains of one drain into another one.
fn copy_chains(from: &Drain, to: &mut Drain)
    ensures gates { SameGates to.old to.new }
    ensures holds { SameHolds to.old to.new }
{
    for number in 0..MOST_CHAINS as u32 {
        to.set_chain(number, from.chain(number));
    }
}

// Closes the gate of a group, where it isn't open in the other drain.
fn copy_gate(from: &Drain, to: &mut Drain, group: u32)
    requires from { group < length (gates_of from.now) }
    requires to { group < length (gates_of to.old) }
    ensures gates { length (gates_of to.new) ≡ length (gates_of to.old) }
    ensures holds { SameHolds to.old to.new }
{
    match from.gate(group) {
        Gate::Open => {}
        Gate::Closing | Gate::Closed => {
            let _ = to.close(group);
        }
    }
}

// Closes the gates that aren't open in the other drain. A closing one is closed where no chain has an
// intent there.
fn copy_gates(from: &Drain, to: &mut Drain, groups: u32)
    requires from { length (gates_of from.now) ≡ groups }
    requires to { length (gates_of to.old) ≡ groups }
    ensures gates { length (gates_of to.new) ≡ groups }
    ensures holds { SameHolds to.old to.new }
{
    for group in 0..groups {
        copy_gate(from, to, group);
    }
}

// Holds an inode, unless it is held.
fn hold_inode(drain: &mut Drain, ino: u64, number: u32)
    requires room { length (holds_of drain.old) < vec_capacity drain.old.holds }
    ensures gates { SameGates drain.old drain.new }
    ensures few { length (holds_of drain.new) ≤ length (holds_of drain.old) + 1 }
    ensures room { vec_capacity drain.new.holds ≡ vec_capacity drain.old.holds }
{
    if drain.holder(ino).is_none() {
        drain.hold(ino, Holder::Chain(number));
    }
}

// Holds the inodes of a chain.
fn hold_chain(drain: &mut Drain, chain: Option<Chain>, number: u32)
    requires room { length (holds_of drain.old) + 2 ≤ vec_capacity drain.old.holds }
    ensures gates { SameGates drain.old drain.new }
    ensures few { length (holds_of drain.new) ≤ length (holds_of drain.old) + 2 }
    ensures room { vec_capacity drain.new.holds ≡ vec_capacity drain.old.holds }
{
    let Some(chain) = chain else {
        return;
    };
    hold_inode(drain, chain.first().ino, number);
    if let Some(second) = chain.second() {
        hold_inode(drain, second.ino, number);
    }
}

// Holds the inodes of all chains.
fn hold_all(drain: &mut Drain)
    requires none { length (holds_of drain.old) ≡ 0 }
    requires room { 33 ≤ vec_capacity drain.old.holds }
    ensures gates { SameGates drain.old drain.new }
{
    for number in 0..MOST_CHAINS as u32 {
        let chain = drain.chain(number);
        hold_chain(drain, chain, number);
    }
}

/// The same gates, chains and holds with this chain under its number, in place of what was there, and with
/// its inodes held by it. No group has another gate, but for one that is closing and has no unfinished
/// intent: it is closed. It takes all its room now, so that putting it in place takes none
/// (XFS Online Fsck Design, "Intent Drains").
pub fn opened_drain(
    alloc: Global,
    drain: &Drain,
    groups: u32,
    number: u32,
    chain: Chain,
) -> Result<Drain, Memory>
    requires groups { length (gates_of drain.now) ≡ groups }
    requires number { number < 16 }
    ensures gates { IfOk result (λ opened. length (gates_of opened) ≡ groups) }
{
    let mut opened = Drain::new(alloc, groups)?;
    copy_chains(drain, &mut opened);
    opened.set_chain(number, Some(chain));
    copy_gates(drain, &mut opened, groups);
    hold_all(&mut opened);
    Ok(opened)
}
