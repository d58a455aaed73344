// The line that removes an inode: its fork is stripped piece by piece, and then it is given back.
ghost use Rattle.std.specs.Prelude.{◌≡◌};
ghost use Rattle.live_fs.specs.Passes.{IsPassOf, PassOn};

use crate::chains::{
    Halt, Hold, ask_chain, close_chain, do_steps, end_chain, fill, halt_of, open_chain,
};
use crate::gate::Gate;
use crate::live::LiveFs;
use crate::shared::Shared;
use blk_device::Device;
use core_calls::{Answer, Ask, WriteFault};
use std::alloc::Global;
use std::sync::Wait;
use std::thread;
use turn_lock::Pass;

// What a chain of a removal came to: a piece was stripped, and another chain goes on; a group is closing,
// and the same is tried again; the fork is empty; or the inode is given back, and the chain with it.
#[derive(Clone, Copy, Debug, PartialEq, Eq)]
enum Stripped {
    Piece,
    Closing,
    Empty,
    Given,
}

fn stripped_by(answer: Answer) -> Result<Stripped, Halt> {
    match answer {
        Answer::Blocks(0) => Ok(Stripped::Empty),
        Answer::Blocks(_) => Ok(Stripped::Piece),
        Answer::Write(WriteFault::Closing(_)) => Ok(Stripped::Closing),
        other => Err(halt_of(other)),
    }
}

// A mapping that is left, which no other reads now, is stripped as well.
fn given_by(answer: Answer) -> Result<Stripped, Halt> {
    match answer {
        Answer::Done => Ok(Stripped::Given),
        Answer::Write(WriteFault::Occupied) => Ok(Stripped::Empty),
        Answer::Write(WriteFault::Closing(_)) => Ok(Stripped::Closing),
        other => Err(halt_of(other)),
    }
}

// Strips the first mapping of the chain's inode, with the free list filled before it.
fn strip<D: Device, G: Gate, W: Wait>(
    live: &LiveFs<'_, D, G>,
    rt: &W,
    alloc: Global,
    pass: &mut Pass<Shared<D>>,
    hold: &mut Hold,
) -> Result<Stripped, Halt>
    requires pass { IsPassOf live.now.lock live.now.origin pass.old }
    ensures on { PassOn live.now.lock live.now.origin pass.old pass.new }
{
    match fill(live, rt, alloc, pass, hold) {
        Ok(()) => {
            let ask = Ask::StripFirst { chain: hold.chain };
            stripped_by(ask_chain(live, rt, alloc, pass, hold, ask))
        }
        Err(halt) => Err(halt),
    }
}

// Gives the chain's inode back, whose fork is empty.
fn give<D: Device, G: Gate, W: Wait>(
    live: &LiveFs<'_, D, G>,
    rt: &W,
    alloc: Global,
    pass: &mut Pass<Shared<D>>,
    hold: &mut Hold,
) -> Result<Stripped, Halt>
    requires pass { IsPassOf live.now.lock live.now.origin pass.old }
    ensures on { PassOn live.now.lock live.now.origin pass.old pass.new }
{
    let ask = Ask::GiveInode { chain: hold.chain };
    given_by(ask_chain(live, rt, alloc, pass, hold, ask))
}

// Strips a piece with its steps, or gives the inode back where there is none.
fn strip_or_give<D: Device, G: Gate, W: Wait>(
    live: &LiveFs<'_, D, G>,
    rt: &W,
    alloc: Global,
    pass: &mut Pass<Shared<D>>,
    hold: &mut Hold,
) -> Result<Stripped, Halt>
    requires pass { IsPassOf live.now.lock live.now.origin pass.old }
    ensures on { PassOn live.now.lock live.now.origin pass.old pass.new }
{
    match strip(live, rt, alloc, pass, hold) {
        Ok(Stripped::Empty) => give(live, rt, alloc, pass, hold),
        Ok(Stripped::Piece) => match do_steps(live, rt, alloc, pass, hold) {
            Ok(()) => Ok(Stripped::Piece),
            Err(halt) => Err(halt),
        },
        other => other,
    }
}

// The same again, where an inode wasn't given back in whose fork a mapping is left.
fn work_in<D: Device, G: Gate, W: Wait>(
    live: &LiveFs<'_, D, G>,
    rt: &W,
    alloc: Global,
    pass: &mut Pass<Shared<D>>,
    hold: &mut Hold,
) -> Result<Stripped, Halt>
    requires pass { IsPassOf live.now.lock live.now.origin pass.old }
    ensures on { PassOn live.now.lock live.now.origin pass.old pass.new }
{
    for _ in rt.forever() {
        match strip_or_give(live, rt, alloc, pass, hold) {
            Ok(Stripped::Empty) => {}
            other => return other,
        }
    }
    unreachable!()
}

// Ends the chain, unless it ended with the inode: whether it did.
fn end_unless_given<D: Device, G: Gate, W: Wait>(
    live: &LiveFs<'_, D, G>,
    rt: &W,
    alloc: Global,
    pass: &mut Pass<Shared<D>>,
    hold: &mut Hold,
    stripped: Stripped,
) -> Result<bool, Halt>
    requires pass { IsPassOf live.now.lock live.now.origin pass.old }
    ensures on { PassOn live.now.lock live.now.origin pass.old pass.new }
{
    if stripped == Stripped::Given {
        return Ok(true);
    }
    match end_chain(live, rt, alloc, pass, hold) {
        Ok(()) => {
            if stripped == Stripped::Closing {
                thread::yield_now();
            }
            Ok(false)
        }
        Err(halt) => Err(halt),
    }
}

// Goes on with a removal in a chain that is open: whether the inode is given back.
fn remove_in<D: Device, G: Gate, W: Wait>(
    live: &LiveFs<'_, D, G>,
    rt: &W,
    alloc: Global,
    pass: &mut Pass<Shared<D>>,
    hold: &mut Hold,
) -> Result<bool, Halt>
    requires pass { IsPassOf live.now.lock live.now.origin pass.old }
    ensures on { PassOn live.now.lock live.now.origin pass.old pass.new }
{
    match work_in(live, rt, alloc, pass, hold) {
        Ok(stripped) => end_unless_given(live, rt, alloc, pass, hold, stripped),
        Err(halt) => Err(close_chain(live, rt, alloc, pass, hold, halt)),
    }
}

// Goes on with a removal by a chain of its own: whether the inode is given back.
fn remove_piece<D: Device, G: Gate, W: Wait>(
    live: &LiveFs<'_, D, G>,
    rt: &W,
    alloc: Global,
    pass: &mut Pass<Shared<D>>,
    writer: u32,
    ino: u64,
) -> Result<bool, Halt>
    requires pass { IsPassOf live.now.lock live.now.origin pass.old }
    ensures on { PassOn live.now.lock live.now.origin pass.old pass.new }
{
    match open_chain(live, rt, alloc, pass, writer, (ino, None)) {
        Ok(hold) => {
            let mut hold = hold;
            remove_in(live, rt, alloc, pass, &mut hold)
        }
        Err(halt) => Err(halt),
    }
}

/// Strips an inode's data fork and gives the inode back.
pub(crate) fn remove<D: Device, G: Gate, W: Wait>(
    live: &LiveFs<'_, D, G>,
    rt: &W,
    alloc: Global,
    pass: &mut Pass<Shared<D>>,
    writer: u32,
    ino: u64,
) -> Result<(), Halt>
    requires pass { IsPassOf live.now.lock live.now.origin pass.old }
    ensures on { PassOn live.now.lock live.now.origin pass.old pass.new }
{
    for _ in rt.forever() {
        match remove_piece(live, rt, alloc, pass, writer, ino) {
            Ok(false) => {}
            Ok(true) => return Ok(()),
            Err(halt) => return Err(halt),
        }
    }
    unreachable!()
}
