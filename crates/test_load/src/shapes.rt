// The shapes of new trees.
use super::same::same_in_row;
use bulk_load::{Shape, shape};
use sblock::Kind;

#[test]
fn shapes_go_up_to_one_block(rt: HostRuntime) {
    let rows = [
        (Kind::Bno, 0, 1, 1),
        (Kind::Bno, 1, 1, 1),
        (Kind::Bno, 505, 1, 1),
        (Kind::Bno, 506, 2, 3),
        (Kind::Bno, 505 * 336, 2, 337),
        (Kind::Bno, 505 * 336 + 1, 3, 340),
        (Kind::Cnt, 505, 1, 1),
        (Kind::Cnt, 506, 2, 3),
        (Kind::Cnt, 505 * 336, 2, 337),
        (Kind::Cnt, 505 * 336 + 1, 3, 340),
        (Kind::Rmap, 168, 1, 1),
        (Kind::Rmap, 169, 2, 3),
        (Kind::Rmap, 168 * 91, 2, 92),
        (Kind::Rmap, 168 * 91 + 1, 3, 95),
        (Kind::Refc, 336, 1, 1),
        (Kind::Refc, 337, 2, 3),
        (Kind::Refc, 336 * 505, 2, 506),
        (Kind::Refc, 336 * 505 + 1, 3, 509),
        (Kind::Ino, 252, 1, 1),
        (Kind::Ino, 253, 2, 3),
        (Kind::Ino, 252 * 505, 2, 506),
        (Kind::Ino, 252 * 505 + 1, 3, 509),
        (Kind::Fino, 252, 1, 1),
        (Kind::Fino, 253, 2, 3),
        (Kind::Fino, 252 * 505, 2, 506),
        (Kind::Fino, 252 * 505 + 1, 3, 509),
        (Kind::Rmap, 1_000_000, 3, 6020),
    ];
    for (kind, records, levels, blocks) in rows {
        let expected = Shape { levels, blocks };
        same_in_row(&rt, (kind, records), shape(records, kind), expected);
    }
}
