// A tree of some records, loaded whole into a group.
ghost use Rattle.std.specs.Prelude.{◌≡◌, ◌+◌, ◌*◌, ◌^◌, ◌<◌};

use byte_fields::{Block, Steps};
use geom::Geometry;
use load_trees::{Unfit, load_tree};
use sblock::RecKind;
use std::alloc::Global;
use std::marker::Brand;
use std::sync::ledger::{Blank, Ledger};
use tree_defs::Site;

/// The blocks of a group.
pub const LENGTH: u32 = 1_048_576;

/// The bytes 1 to 16.
pub const UUID: [u8; 16] = [1, 2, 3, 4, 5, 6, 7, 8, 9, 10, 11, 12, 13, 14, 15, 16];

/// Three groups of 1,048,576 blocks.
pub fn three_groups() -> Geometry
    ensures group { result.agcount ≡ 3 }
    ensures blocks { result.dblocks ≡ 3145728 }
{
    Geometry {
        agblocks: LENGTH,
        agcount: 3,
        dblocks: 3_145_728,
        agblklog: 20,
        uuid: UUID,
        log: None,
        kept: [192, 193, 194, 0, 0, 0],
        inobtcount: true,
    }
}

/// Group 0 of these.
pub fn large_group() -> Site
    ensures fits { 8 * (result.first + result.bounds.length) < 2 ^ 64 }
{
    Site::of_group(&three_groups(), 0)
}

/// The last of three groups of 19,200 blocks.
pub fn last_group() -> Site
    ensures fits { 8 * (result.first + result.bounds.length) < 2 ^ 64 }
{
    let geo = Geometry {
        agblocks: 19_200,
        agcount: 3,
        dblocks: 57_600,
        agblklog: 15,
        uuid: UUID,
        log: None,
        kept: [192, 193, 194, 0, 0, 0],
        inobtcount: true,
    };
    Site::of_group(&geo, 2)
}

fn loaded<K: RecKind, L: Ledger>(
    alloc: Global,
    list: &[K::Rec],
    site: &Site,
    claimed: &[u32],
    blank: Blank,
) -> Result<Vec<(u32, Block)>, Unfit>
    requires fits { 8 * (site.now.first + site.now.bounds.length) < 2 ^ 64 }
    requires name { blank.name ≡ L.name }
    requires parts { blank.parts ≡ L.parts }
    requires three { blank.parts ≡ 3 }
{
    let mut steps = Steps::<L>::new(blank);
    load_tree::<K, L>(
        alloc,
        list,
        site,
        0x1112_1314_1516_1718,
        claimed,
        &mut steps,
    )
}

/// The blocks of the tree of this list in these blocks of a group, for a caller that counts no steps.
pub fn tree_in<K: RecKind>(
    alloc: Global,
    list: &[K::Rec],
    site: &Site,
    claimed: &[u32],
) -> Result<Vec<(u32, Block)>, Unfit>
    requires { 8 * (site.now.first + site.now.bounds.length) < 2 ^ 64 }
{
    let blank = Blank::new(3);
    loaded::<K, Brand>(alloc, list, site, claimed, blank)
}
