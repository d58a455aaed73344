ghost use Rattle.std.specs.Prelude.{◌≡◌};

use super::same::same;
use geom::Geometry;
use sblock::Bounds;
use tree_defs::Site;

// Three groups of 4,096 blocks, of which the last has 100.
fn three_groups() -> Geometry
    ensures { result.agcount ≡ 3 }
{
    Geometry {
        agblocks: 4096,
        agcount: 3,
        dblocks: 8292,
        agblklog: 12,
        uuid: [7; 16],
        log: None,
        kept: [192, 193, 194, 0, 0, 0],
        inobtcount: true,
    }
}

#[test]
fn the_last_group_is_shorter(rt: HostRuntime) {
    let geo = three_groups();
    let middle = Site::of_group(&geo, 1);
    let last = Site::of_group(&geo, 2);
    let bounds = Bounds {
        length: 100,
        agblocks: 4096,
        agcount: 3,
        last: 100,
        agblklog: 12,
    };
    same(&rt, [middle.first, last.first], [4096, 8192]);
    same(&rt, [middle.bounds.length, middle.bounds.last], [4096, 100]);
    same(&rt, last.bounds, bounds);
    same(&rt, last.group, 2);
    same(&rt, &last.uuid, &[7; 16]);
}
