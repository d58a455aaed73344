use super::same::same;
use defer_chain::{Stretch, first_stretch};
use span_recs::RefcRec;

// A record whose count can't rise.
const CAPPED: RefcRec = RefcRec {
    start: 100,
    count: 50,
    refcount: 4_294_967_295,
};

// The last block of the largest group.
const LAST: RefcRec = RefcRec {
    start: 268_435_455,
    count: 1,
    refcount: 4_294_967_200,
};

fn stretch(count: u32, owners: u32) -> Stretch {
    Stretch { count, owners }
}

#[test]
fn a_stretch_ends_with_its_record(rt: HostRuntime) {
    let cap = 4_294_967_295;
    same(
        &rt,
        first_stretch(100, 50, Some(CAPPED), Some(150)),
        stretch(50, cap),
    );
    same(
        &rt,
        first_stretch(100, 51, Some(CAPPED), Some(150)),
        stretch(50, cap),
    );
    same(
        &rt,
        first_stretch(120, 10, Some(CAPPED), None),
        stretch(10, cap),
    );
    same(
        &rt,
        first_stretch(149, 1024, Some(CAPPED), None),
        stretch(1, cap),
    );
    same(
        &rt,
        first_stretch(268_435_455, 1, Some(LAST), None),
        stretch(1, 4_294_967_200),
    );
}

#[test]
fn a_stretch_that_no_record_counts_ends_at_the_next(rt: HostRuntime) {
    same(&rt, first_stretch(99, 1024, None, Some(100)), stretch(1, 1));
    same(&rt, first_stretch(90, 10, None, Some(100)), stretch(10, 1));
    same(&rt, first_stretch(150, 1024, None, None), stretch(1024, 1));
}
