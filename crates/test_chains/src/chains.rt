ghost use Rattle.std.specs.Prelude.{◌≡◌, ◌<◌, IfSome, length};
ghost use Rattle.defer_chain.specs.Stretch.{Reaches};
ghost use Rattle.intent_drain.specs.Drains.{gates_of};

use super::same::same;
use defer_chain::{Chain, ChainInode, Stretch, first_stretch};
use fs_state::{Intent, IntentKind};
use intent_drain::{Drain, Gate, Holder};
use span_recs::RefcRec;
use std::alloc::Global;
use std::process::Abort;

const INODE: ChainInode = ChainInode { ino: 195, uid: 7 };

#[test]
fn a_new_chain_owes_nothing(rt: HostRuntime) {
    let chain = Chain::new(1, INODE, None);
    same(&rt, chain.writer(), 1);
    same(&rt, chain.first(), INODE);
    same(&rt, chain.second(), None);
    same(&rt, chain.next(), None);
    same(&rt, chain.next_kind(), None);
    same(&rt, chain.next_group(), None);
    same(&rt, chain.owes(0), 0);
}

// A drain of so many groups, which are all open.
fn new_drain(rt: &impl Abort, alloc: Global, groups: u32) -> Drain
    ensures { length (gates_of result) ≡ groups }
{
    Drain::new(alloc, groups).expect(rt, "memory is there")
}

// Closes a group, and compares the answer and its gate.
fn expect_close(rt: &impl Abort, drain: &mut Drain, group: u32, answer: Result<(), u32>, gate: Gate)
    requires { group < length (gates_of drain.old) }
    ensures { length (gates_of drain.new) ≡ length (gates_of drain.old) }
{
    same(rt, drain.close(group), answer);
    same(rt, drain.gate(group), gate);
}

#[test]
fn a_quiet_group_is_closed_at_once(rt: HostRuntime) {
    let mut drain = new_drain(&rt, rt.alloc(), 2);
    same(&rt, drain.gate(1), Gate::Open);
    same(&rt, drain.count(1), 0);
    expect_close(&rt, &mut drain, 1, Ok(()), Gate::Closed);
    same(&rt, drain.gate(0), Gate::Open);
    drain.open(1);
    same(&rt, drain.gate(1), Gate::Open);
}

#[test]
fn an_inode_has_one_holder(rt: HostRuntime) {
    let mut drain = Drain::new(rt.alloc(), 1).expect(&rt, "memory is there");
    same(&rt, drain.holder(195), None);
    drain.hold(195, Holder::Chain(3));
    same(&rt, drain.holder(195), Some(Holder::Chain(3)));
    same(&rt, drain.holder(196), None);
    drain.let_go(195);
    same(&rt, drain.holder(195), None);
}

// Opens chains until no number is free, and tells how many there were.
fn open_all(drain: &mut Drain) -> u32 {
    let mut opened = 0;
    for _ in 0..20 {
        if let Some(number) = drain.free_number() {
            drain.set_chain(number, Some(Chain::new(1, INODE, None)));
            opened = number + 1;
        }
    }
    opened
}

#[test]
fn sixteen_chains_are_open_at_most(rt: HostRuntime) {
    let mut drain = Drain::new(rt.alloc(), 1).expect(&rt, "memory is there");
    same(&rt, open_all(&mut drain), 16);
    same(&rt, drain.free_number(), None);
    drain.set_chain(4, None);
    drain.set_chain(9, None);
    same(&rt, drain.free_number(), Some(4));
    same(&rt, drain.chain(3).is_some(), true);
    same(&rt, drain.chain(16).is_none(), true);
}

// A chain that owes one reverse mapping to the group.
#[tactic(auto, unfolding(defer_chain::specs::Steps::in_order))]
fn owing(group: u32) -> Chain {
    let mut chain = Chain::new(1, INODE, None);
    chain.put(&[Intent {
        kind: IntentKind::RmapAdd,
        ino: 195,
        word: 0,
        group,
        block: 40,
        count: 1,
    }]);
    chain
}

#[test]
fn a_group_closes_once_no_chain_owes_it_anything(rt: HostRuntime) {
    let mut drain = new_drain(&rt, rt.alloc(), 65_536);
    drain.set_chain(15, Some(owing(65_535)));
    expect_close(&rt, &mut drain, 65_535, Err(1), Gate::Closing);
    expect_close(&rt, &mut drain, 0, Ok(()), Gate::Closed);
    drain.set_chain(0, Some(owing(65_535)));
    expect_close(&rt, &mut drain, 65_535, Err(2), Gate::Closing);
    drain.set_chain(15, None);
    drain.set_chain(0, None);
    expect_close(&rt, &mut drain, 65_535, Ok(()), Gate::Closed);
}

#[test]
fn the_scan_holds_an_inode_like_a_chain(rt: HostRuntime) {
    let mut drain = Drain::new(rt.alloc(), 1).expect(&rt, "memory is there");
    drain.hold(u64::MAX, Holder::Scan);
    same(&rt, drain.holder(u64::MAX), Some(Holder::Scan));
    same(&rt, drain.holder(0), None);
    drain.let_go(0);
    same(&rt, drain.holder(u64::MAX), Some(Holder::Scan));
}

// A record of a reference count.
fn counted(start: u32, count: u32, refcount: u32) -> RefcRec
    ensures { result ≡ record { start = start; count = count; refcount = refcount } }
{
    RefcRec {
        start,
        count,
        refcount,
    }
}

// Expects this first stretch of so many blocks from block 40 on.
fn expect_stretch(
    rt: &impl Abort,
    count: u32,
    over: Option<RefcRec>,
    next: Option<u32>,
    wanted: Stretch,
)
    requires over { IfSome over (λ r. Reaches r 40) }
    requires next { IfSome next (λ s. 40 < s) }
{
    same(rt, first_stretch(40, count, over, next), wanted);
}

#[test]
fn counts_below_at_and_above_the_cap_are_told(rt: HostRuntime) {
    for owners in [2, 4_294_967_199, 4_294_967_200, u32::MAX] {
        let over = Some(counted(40, 1, owners));
        expect_stretch(&rt, 1, over, None, Stretch { count: 1, owners });
    }
}

#[test]
fn a_stretch_ends_with_its_record_and_before_the_next(rt: HostRuntime) {
    for (count, stretch) in [(1, 1), (7, 7), (8, 8), (9, 8), (2_097_151, 8)] {
        let wanted = Stretch {
            count: stretch,
            owners: 1,
        };
        expect_stretch(&rt, count, None, Some(48), wanted);
        let wanted = Stretch {
            count: stretch,
            owners: 3,
        };
        expect_stretch(&rt, count, Some(counted(32, 16, 3)), None, wanted);
    }
}
