// A block of file 195 that is unmapped, step by step.
use super::same::same;
use defer_chain::{Chain, ChainInode, StepKind, Stretch, first_stretch};
use free_space::joined;
use fs_state::{Intent, IntentKind};
use span_recs::{RefcRec, SpanRec};

const INODE: ChainInode = ChainInode { ino: 195, uid: 7 };

const REMOVE: Intent = Intent {
    kind: IntentKind::RmapRemove,
    ino: 195,
    word: 5,
    group: 0,
    block: 40,
    count: 1,
};

const LESS: Intent = Intent {
    kind: IntentKind::RefLess,
    ino: 0,
    word: 0,
    group: 0,
    block: 40,
    count: 1,
};

const FREE: Intent = Intent {
    kind: IntentKind::Free,
    ..LESS
};

// A block with as many owners as a count may have; one more is refused.
const FULL: RefcRec = RefcRec {
    start: 40,
    count: 1,
    refcount: 4_294_967_200,
};

// A block that two files share.
const SHARED: RefcRec = RefcRec {
    start: 40,
    count: 1,
    refcount: 2,
};

#[test]
#[tactic(auto, unfolding(defer_chain::specs::Steps::in_order, defer_chain::specs::Steps::stretched))]
fn a_shared_block_that_is_unmapped_keeps_an_owner(rt: HostRuntime) {
    let mut chain = Chain::new(1, INODE, None);
    chain.put(&[REMOVE, LESS]);
    same(&rt, chain.next_kind(), Some(StepKind::Rmap));
    same(&rt, chain.owes(0), 2);
    chain.finish_rmap();
    same(&rt, chain.next(), Some(LESS));
    same(
        &rt,
        first_stretch(40, 1, Some(SHARED), None),
        Stretch {
            count: 1,
            owners: 2,
        },
    );
    chain.finish_stretch(1, false);
    same(&rt, chain.next(), None);
}

#[test]
#[tactic(auto, unfolding(defer_chain::specs::Steps::in_order, defer_chain::specs::Steps::stretched))]
fn the_last_owner_of_a_block_leaves_it_to_be_freed(rt: HostRuntime) {
    let mut chain = Chain::new(1, INODE, None);
    chain.put(&[REMOVE, LESS]);
    chain.finish_rmap();
    same(
        &rt,
        first_stretch(40, 1, None, None),
        Stretch {
            count: 1,
            owners: 1,
        },
    );
    chain.finish_stretch(1, true);
    same(&rt, chain.next(), Some(FREE));
    chain.finish_free();
    same(&rt, chain.next_kind(), None);
}

fn span(start: u32, count: u32) -> SpanRec {
    SpanRec { start, count }
}

#[test]
fn a_freed_block_joins_its_neighbours(rt: HostRuntime) {
    let before = SpanRec {
        start: 32,
        count: 8,
    };
    let behind = SpanRec {
        start: 41,
        count: 215,
    };
    let block = SpanRec {
        start: 40,
        count: 1,
    };
    same(
        &rt,
        joined(Some(before), &block, Some(behind)),
        span(32, 224),
    );
    same(&rt, joined(None, &block, Some(behind)), span(40, 216));
    same(&rt, joined(Some(before), &block, None), span(32, 9));
    same(&rt, joined(None, &block, None), block);
}

#[test]
fn a_count_at_the_cap_is_seen_whole(rt: HostRuntime) {
    same(
        &rt,
        first_stretch(40, 1, Some(FULL), None),
        Stretch {
            count: 1,
            owners: 4_294_967_200,
        },
    );
}
