// Lines that map, unmap, convert or share a range: piece by piece, a chain for each.
ghost use Rattle.std.specs.Prelude.{ℕ, IfSome};
ghost use Rattle.fsck_core.specs.Asks.{MayAsk};
ghost use Rattle.live_fs.specs.Passes.{IsPassOf, PassOn};
ghost use Rattle.live_fs.specs.Ranges.{IsFit};

use crate::chains::{
    Halt, Hold, ask_chain, close_chain, do_steps, end_chain, fill, halt_of, open_chain,
};
use crate::gate::Gate;
use crate::live::LiveFs;
use crate::shared::Shared;
use blk_device::Device;
use core_calls::{Answer, Ask, WriteFault};
use std::alloc::Global;
use std::sync::Wait;
use std::thread;
use turn_lock::Pass;

/// What is done with a range.
#[derive(Clone, Copy, Debug, PartialEq, Eq)]
pub(crate) enum Deed {
    Map,
    Unmap,
    Convert,
    Share,
}

/// What is left of a range of an inode's data fork: `count` blocks from `offset` on, which for Share go
/// to `to_offset` of another inode, or of the same one.
#[derive(Clone, Copy, Debug, PartialEq, Eq)]
pub(crate) struct Stretch {
    pub(crate) deed: Deed,
    pub(crate) inodes: (u64, Option<u64>),
    pub(crate) offset: u64,
    pub(crate) to_offset: u64,
    pub(crate) count: u32,
}

// The first event of a chain that goes on with a range.
fn first_ask(stretch: &Stretch, chain: u32) -> Ask
    requires { IsFit stretch.now }
    ensures { (n : ℕ) → MayAsk n result }
{
    let (offset, count) = (stretch.offset, stretch.count);
    match stretch.deed {
        Deed::Map => Ask::MapFirst {
            chain,
            offset,
            count,
        },
        Deed::Unmap => Ask::UnmapFirst {
            chain,
            offset,
            count,
        },
        Deed::Convert => Ask::ConvertFirst {
            chain,
            offset,
            count,
        },
        Deed::Share => Ask::ShareFirst {
            chain,
            offset,
            to_offset: stretch.to_offset,
            count,
        },
    }
}

// What is left behind a piece, if anything is.
fn left_behind(stretch: &Stretch, blocks: u32) -> Option<Stretch>
    requires { IsFit stretch.now }
    ensures { IfSome result IsFit }
{
    if blocks >= stretch.count {
        return None;
    }
    Some(Stretch {
        deed: stretch.deed,
        inodes: stretch.inodes,
        offset: stretch.offset + u64::from(blocks),
        to_offset: stretch.to_offset + u64::from(blocks),
        count: stretch.count - blocks,
    })
}

// What the first event did: so many blocks, none where the group is closing.
fn blocks_of(answer: Answer) -> Result<u32, Halt> {
    match answer {
        Answer::Blocks(blocks) => Ok(blocks),
        Answer::Write(WriteFault::Closing(_)) => Ok(0),
        other => Err(halt_of(other)),
    }
}

// The first event of a chain that is open.
fn first_event<D: Device, G: Gate, W: Wait>(
    live: &LiveFs<'_, D, G>,
    rt: &W,
    alloc: Global,
    pass: &mut Pass<Shared<D>>,
    hold: &mut Hold,
    stretch: &Stretch,
) -> Result<u32, Halt>
    requires pass { IsPassOf live.now.lock live.now.origin pass.old }
    requires fit { IsFit stretch.now }
    ensures on { PassOn live.now.lock live.now.origin pass.old pass.new }
{
    let ask = first_ask(stretch, hold.chain);
    blocks_of(ask_chain(live, rt, alloc, pass, hold, ask))
}

// The same, with the free list filled before it.
fn filled_first<D: Device, G: Gate, W: Wait>(
    live: &LiveFs<'_, D, G>,
    rt: &W,
    alloc: Global,
    pass: &mut Pass<Shared<D>>,
    hold: &mut Hold,
    stretch: &Stretch,
) -> Result<u32, Halt>
    requires pass { IsPassOf live.now.lock live.now.origin pass.old }
    requires fit { IsFit stretch.now }
    ensures on { PassOn live.now.lock live.now.origin pass.old pass.new }
{
    match fill(live, rt, alloc, pass, hold) {
        Ok(()) => first_event(live, rt, alloc, pass, hold, stretch),
        Err(halt) => Err(halt),
    }
}

// The steps behind a first event, and the end of the chain.
fn rest_of_chain<D: Device, G: Gate, W: Wait>(
    live: &LiveFs<'_, D, G>,
    rt: &W,
    alloc: Global,
    pass: &mut Pass<Shared<D>>,
    hold: &mut Hold,
) -> Result<(), Halt>
    requires pass { IsPassOf live.now.lock live.now.origin pass.old }
    ensures on { PassOn live.now.lock live.now.origin pass.old pass.new }
{
    match do_steps(live, rt, alloc, pass, hold) {
        Ok(()) => end_chain(live, rt, alloc, pass, hold),
        Err(halt) => Err(close_chain(live, rt, alloc, pass, hold, halt)),
    }
}

// Goes on with a range in a chain that is open, and ends it.
fn piece_in<D: Device, G: Gate, W: Wait>(
    live: &LiveFs<'_, D, G>,
    rt: &W,
    alloc: Global,
    pass: &mut Pass<Shared<D>>,
    hold: &mut Hold,
    stretch: &Stretch,
) -> Result<u32, Halt>
    requires pass { IsPassOf live.now.lock live.now.origin pass.old }
    requires fit { IsFit stretch.now }
    ensures on { PassOn live.now.lock live.now.origin pass.old pass.new }
{
    match filled_first(live, rt, alloc, pass, hold, stretch) {
        Ok(blocks) => match rest_of_chain(live, rt, alloc, pass, hold) {
            Ok(()) => Ok(blocks),
            Err(halt) => Err(halt),
        },
        Err(halt) => Err(close_chain(live, rt, alloc, pass, hold, halt)),
    }
}

// Goes on with a range by a chain of its own: how many blocks are done, none where the group is closing.
fn piece<D: Device, G: Gate, W: Wait>(
    live: &LiveFs<'_, D, G>,
    rt: &W,
    alloc: Global,
    pass: &mut Pass<Shared<D>>,
    writer: u32,
    stretch: &Stretch,
) -> Result<u32, Halt>
    requires pass { IsPassOf live.now.lock live.now.origin pass.old }
    requires fit { IsFit stretch.now }
    ensures on { PassOn live.now.lock live.now.origin pass.old pass.new }
{
    match open_chain(live, rt, alloc, pass, writer, stretch.inodes) {
        Ok(hold) => {
            let mut hold = hold;
            piece_in(live, rt, alloc, pass, &mut hold, stretch)
        }
        Err(halt) => Err(halt),
    }
}

/// Does a line over a range, as long as its blocks aren't done: those that a piece did are done, also
/// where a later one is refused.
pub(crate) fn do_stretch<D: Device, G: Gate, W: Wait>(
    live: &LiveFs<'_, D, G>,
    rt: &W,
    alloc: Global,
    pass: &mut Pass<Shared<D>>,
    writer: u32,
    stretch: Stretch,
) -> Result<(), Halt>
    requires pass { IsPassOf live.now.lock live.now.origin pass.old }
    requires fit { IsFit stretch }
    ensures on { PassOn live.now.lock live.now.origin pass.old pass.new }
{
    let mut left = stretch;
    for _ in rt.forever() {
        match piece(live, rt, alloc, pass, writer, &left) {
            Ok(0) => thread::yield_now(),
            Ok(blocks) => match left_behind(&left, blocks) {
                Some(more) => left = more,
                None => return Ok(()),
            },
            Err(halt) => return Err(halt),
        }
    }
    unreachable!()
}
