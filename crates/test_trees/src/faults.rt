// A tree of reverse mappings with three levels, one word of which is another: a root at block 1,
// nodes at blocks 2 and 3, and the leaves 100 to 144 and 145 to 189 below them.
use super::same::same;
use crate::build::{Blocks, RMAP, device_of, put_block_sum, put_word, three_levels};
use crate::read::{NO_RUN, claims_of, first_runs, read_tree};
use blk_device::MemDevice;
use byte_fields::Block;
use rmap_recs::RmapKind;
use run_sets::Run;
use sblock::BlockFault;
use std::alloc::{AllocError, Global};
use std::process::Abort;
use std::test::Fail;
use tree_walk::WalkFault;

// A block, a place in it and the word there.
type Change = (u64, usize, u32);

// Where the first and the second pointer of a node stand.
const FIRST: usize = 3696;

const SECOND: usize = 3700;

// The block with this word in this place, and its checksum made right or left as it was.
fn with_change(mut block: Block, place: usize, word: u32, summed: bool) -> Block {
    put_word(&mut block, place, word);
    if summed {
        put_block_sum(&mut block);
    }
    block
}

// Changes a block of the tree, where it is there.
fn put_change(blocks: &mut Blocks, change: Change, summed: bool) -> Result<(), AllocError> {
    let (at, place, word) = change;
    if let Some(found) = blocks.get(&at) {
        let block = with_change(*found, place, word, summed);
        blocks.insert(at, block)?;
    }
    Ok(())
}

// A device with the tree of three levels and this change.
fn changed(alloc: Global, change: Change, summed: bool) -> Result<MemDevice, AllocError> {
    let mut blocks = three_levels(alloc, &RMAP)?;
    put_change(&mut blocks, change, summed)?;
    device_of(alloc, blocks)
}

fn fault_of(alloc: Global, device: &mut MemDevice) -> Option<WalkFault> {
    read_tree::<RmapKind>(alloc, device, 3).err()
}

const fn bad(block: u32, fault: BlockFault) -> Option<WalkFault> {
    Some(WalkFault::Bad { block, fault })
}

const fn run(start: u32, count: u32) -> Run {
    Run { start, count }
}

// What the whole tree has.
const WHOLE: [Run; 4] = [
    Run { start: 1, count: 3 },
    Run {
        start: 100,
        count: 90,
    },
    NO_RUN,
    NO_RUN,
];

// The same without the leaves below the second node.
const LEFT_HALF: [Run; 4] = [
    Run { start: 1, count: 3 },
    Run {
        start: 100,
        count: 45,
    },
    NO_RUN,
    NO_RUN,
];

// The same without the first leaf below the second node.
const WITHOUT_145: [Run; 4] = [
    Run { start: 1, count: 3 },
    Run {
        start: 100,
        count: 45,
    },
    Run {
        start: 146,
        count: 44,
    },
    NO_RUN,
];

const ROOT_ALONE: [Run; 4] = [Run { start: 1, count: 1 }, NO_RUN, NO_RUN, NO_RUN];

// What the tree with this root and so many levels claims.
fn expect_claims(
    rt: &impl Abort,
    alloc: Global,
    device: &mut MemDevice,
    root: u32,
    levels: u32,
    expected: [Run; 4],
) -> Result<(), WalkFault> {
    let claims = claims_of::<RmapKind>(alloc, device, root, levels)?;
    same(rt, first_runs(&claims), expected);
    Ok(())
}

// What a walk of the tree answers, and what the tree claims.
fn expect_walk(
    rt: &impl Abort,
    alloc: Global,
    mut device: MemDevice,
    fault: Option<WalkFault>,
    claims: [Run; 4],
) -> Result<(), WalkFault> {
    same(rt, fault_of(alloc, &mut device), fault);
    expect_claims(rt, alloc, &mut device, 1, 3, claims)
}

// The same, of the tree with each of these changes.
fn expect_changes(
    rt: &impl Abort,
    alloc: Global,
    rows: &[(Change, Option<WalkFault>, [Run; 4])],
) -> Result<(), WalkFault> {
    for (change, fault, claims) in rows {
        expect_walk(rt, alloc, changed(alloc, *change, true)?, *fault, *claims)?;
    }
    Ok(())
}

#[test]
fn wrong_keys_and_siblings_take_no_claim(rt: HostRuntime) -> Result<(), Fail> {
    let alloc = rt.alloc();
    let rows = [
        // The first key of the root and of a node, and the high key of the root's first entry.
        ((1, 56, 3), bad(1, BlockFault::Key)),
        ((2, 56, 3), bad(2, BlockFault::Key)),
        ((1, 76, 5), bad(1, BlockFault::Key)),
        // A left sibling that isn't the block before, on each level.
        ((1, 8, 2), bad(1, BlockFault::Sibling)),
        ((3, 8, 0xffff_ffff), bad(3, BlockFault::Sibling)),
        ((145, 8, 143), bad(145, BlockFault::Sibling)),
        // A right sibling that isn't the block behind, and one behind the last on each level.
        ((2, 12, 4), bad(3, BlockFault::Sibling)),
        ((144, 12, 146), bad(145, BlockFault::Sibling)),
        ((1, 12, 2), bad(1, BlockFault::Sibling)),
        ((3, 12, 4), bad(3, BlockFault::Sibling)),
        ((189, 12, 190), bad(189, BlockFault::Sibling)),
        // A leaf that begins with the last record of the leaf before.
        ((145, 56, 7560), bad(145, BlockFault::Order)),
    ];
    for (change, expected) in rows {
        expect_walk(&rt, alloc, changed(alloc, change, true)?, expected, WHOLE)?;
    }
    Ok(())
}

#[test]
fn what_lies_below_a_refused_node_is_not_claimed(rt: HostRuntime) -> Result<(), Fail> {
    let alloc = rt.alloc();
    let right_half = [run(1, 3), run(145, 45), NO_RUN, NO_RUN];
    let rows = [
        // Another level, on each level; a leaf is claimed for its name all the same.
        ((1, 4, 0x0001_0002), bad(1, BlockFault::Level), ROOT_ALONE),
        ((3, 4, 0x0002_002d), bad(3, BlockFault::Level), LEFT_HALF),
        ((189, 4, 0x0001_0054), bad(189, BlockFault::Level), WHOLE),
        // A pointer less than the least number, keys that don't rise, a pointer out of the group.
        ((2, 4, 0x0001_002c), bad(2, BlockFault::Count), right_half),
        ((1, 96, 2), bad(1, BlockFault::Order), ROOT_ALONE),
        ((1, SECOND, 0), bad(1, BlockFault::Range), ROOT_ALONE),
        ((3, FIRST, 1_048_576), bad(3, BlockFault::Range), LEFT_HALF),
        // Blocks that name another owner, place or file system.
        ((145, 48, 1), bad(145, BlockFault::Owner), WITHOUT_145),
        (
            (3, 20, 16),
            bad(3, BlockFault::Place),
            [run(1, 2), run(100, 45), NO_RUN, NO_RUN],
        ),
        (
            (1, 32, 0),
            bad(1, BlockFault::Uuid),
            [NO_RUN, NO_RUN, NO_RUN, NO_RUN],
        ),
        (
            (2, 0, 0x4142_3342),
            bad(2, BlockFault::Magic),
            [run(1, 1), run(3, 1), run(145, 45), NO_RUN],
        ),
    ];
    expect_changes(&rt, alloc, &rows)?;
    Ok(())
}

#[test]
fn a_block_without_its_checksum_leads_nowhere(rt: HostRuntime) -> Result<(), Fail> {
    let alloc = rt.alloc();
    let node = changed(alloc, (3, 24, 9), false)?;
    expect_walk(&rt, alloc, node, bad(3, BlockFault::Checksum), LEFT_HALF)?;
    let leaf = changed(alloc, (145, 24, 9), false)?;
    expect_walk(&rt, alloc, leaf, bad(145, BlockFault::Checksum), WHOLE)?;
    Ok(())
}

#[test]
fn pointers_to_blocks_of_the_tree_are_claimed_once(rt: HostRuntime) -> Result<(), Fail> {
    let alloc = rt.alloc();
    let without_100 = [run(1, 3), run(101, 89), NO_RUN, NO_RUN];
    let rows = [
        // A root that points to itself, and a node that points to the root and to itself.
        (
            (1, SECOND, 1),
            bad(1, BlockFault::Level),
            [run(1, 2), run(100, 45), NO_RUN, NO_RUN],
        ),
        ((2, FIRST, 1), bad(1, BlockFault::Level), without_100),
        ((2, FIRST, 2), bad(2, BlockFault::Level), without_100),
        // Two nodes that share a child, and a pointer to a block of zeros.
        ((3, FIRST, 144), bad(144, BlockFault::Sibling), WITHOUT_145),
        ((3, FIRST, 600), bad(600, BlockFault::Magic), WITHOUT_145),
    ];
    expect_changes(&rt, alloc, &rows)?;
    Ok(())
}

#[test]
fn heads_that_no_tree_has_claim_the_root_at_most(rt: HostRuntime) -> Result<(), Fail> {
    let alloc = rt.alloc();
    let none = [NO_RUN, NO_RUN, NO_RUN, NO_RUN];
    let rows = [
        ((1, 0), ROOT_ALONE),
        ((1, 10), ROOT_ALONE),
        ((1, 2), ROOT_ALONE),
        ((0, 3), none),
        ((1_048_576, 3), none),
        ((600, 3), none),
    ];
    for ((root, levels), expected) in rows {
        let mut device = device_of(alloc, three_levels(alloc, &RMAP)?)?;
        expect_claims(&rt, alloc, &mut device, root, levels, expected)?;
    }
    Ok(())
}
