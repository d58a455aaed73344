// Three groups, and a free list of the first one.
ghost use Rattle.std.specs.Prelude.{◌≡◌};

use ag_headers::Agfl;
use geom::Geometry;

/// The blocks of a group.
pub const LENGTH: u32 = 1_048_576;

/// The blocks of the redo area.
pub const REDO: u64 = 162;

const UUID: [u8; 16] = [1, 2, 3, 4, 5, 6, 7, 8, 9, 10, 11, 12, 13, 14, 15, 16];

/// Three groups of 1,048,576 blocks.
pub fn three_groups() -> Geometry
    ensures group { result.agcount ≡ 3 }
    ensures blocks { result.dblocks ≡ 3145728 }
{
    Geometry {
        agblocks: LENGTH,
        agcount: 3,
        dblocks: 3_145_728,
        agblklog: 20,
        uuid: UUID,
        log: None,
        kept: [192, 193, 194, 0, 0, 0],
        inobtcount: true,
    }
}

/// A free list of so many blocks, at most 119, from block 700 on.
pub fn free_list(count: u32) -> Agfl {
    let mut list = Agfl {
        seqno: 0,
        uuid: UUID,
        lsn: 0,
        numbers: [0; 119],
        first: 1,
        last: 0,
        count: 0,
    };
    for i in 0..count {
        if list.len() < 119 {
            list.put_last(i.saturating_add(700));
        }
    }
    list
}
