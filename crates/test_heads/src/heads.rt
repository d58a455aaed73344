ghost use Rattle.std.specs.Prelude.{◌≡◌};

use super::same::same;
use ag_headers::{Agfl, HeadFault, decode_agf, decode_agfl, decode_agi};
use byte_fields::{Block, get_sum, put_sum, put_u32, sum_at};
use geom::Geometry;
use std::alloc::AllocError;

const ONES: u32 = u32::MAX;

// One group of 256 blocks.
fn geometry() -> Geometry
    ensures { result.agcount ≡ 1 }
{
    Geometry {
        agblocks: 256,
        agcount: 1,
        dblocks: 256,
        agblklog: 8,
        uuid: [1, 2, 3, 4, 5, 6, 7, 8, 9, 10, 11, 12, 13, 14, 15, 16],
        log: None,
        kept: [192, 193, 194, 0, 0, 0],
        inobtcount: true,
    }
}

fn put_at(block: &mut Block, at: usize, number: u32) {
    if at <= 4092 {
        put_u32(&mut block.bytes, at, number);
    }
}

// The block with these numbers at these places.
fn with(mut block: Block, numbers: &[(usize, u32)]) -> Block {
    for (at, number) in numbers {
        put_at(&mut block, *at, *number);
    }
    block
}

// The block with so many numbers from a place on, each one more than the one before it.
fn counted(mut block: Block, from: usize, many: u32, start: u32) -> Block {
    if from > 2048 || many > 119 || start > 1000 {
        return block;
    }
    for i in 0..many {
        put_at(&mut block, from + 4 * i as usize, start + i);
    }
    block
}

// The block with the checksum of its sector from this byte on.
fn summed(mut block: Block, from: usize, at: usize) -> Block {
    if from <= 3584 && at <= 508 {
        let sum = sum_at(&block.bytes[from..from + 512], at);
        put_sum(&mut block.bytes, from + at, sum);
    }
    block
}

fn mended(block: Block) -> Block {
    let block = summed(block, 512, 216);
    let block = summed(block, 1024, 312);
    summed(block, 1536, 32)
}

fn with_uuid(block: Block, at: usize) -> Block {
    if at > 4000 {
        return block;
    }
    with(
        block,
        &[
            (at, 0x0102_0304),
            (at + 4, 0x0506_0708),
            (at + 8, 0x090a_0b0c),
            (at + 12, 0x0d0e_0f10),
        ],
    )
}

fn agf_numbers(block: Block) -> Block {
    let block = with(
        block,
        &[
            (512, 0x5841_4746),
            (516, 1),
            (524, 256),
            (528, 1),
            (532, 2),
            (536, 5),
            (540, 1),
            (544, 1),
            (548, 1),
        ],
    );
    with(
        block,
        &[
            (556, 11),
            (560, 12),
            (564, 229),
            (568, 224),
            (592, 1),
            (596, 1),
            (600, 6),
            (604, 1),
        ],
    )
}

fn agi_numbers(mut block: Block) -> Block {
    for i in 0..65usize {
        put_at(&mut block, 1060 + 4 * i, ONES);
    }
    with(
        block,
        &[
            (1024, 0x5841_4749),
            (1028, 1),
            (1036, 256),
            (1040, 64),
            (1044, 3),
            (1048, 1),
            (1052, 61),
            (1056, 192),
            (1352, 4),
            (1356, 1),
            (1360, 1),
            (1364, 1),
        ],
    )
}

// The heads of a new group of 256 blocks: its list is the blocks 7 to 18.
fn heads() -> Block {
    let block = with_uuid(agf_numbers(Block::zeroed()), 576);
    let block = with_uuid(agi_numbers(block), 1320);
    let block = with_uuid(with(block, &[(1536, 0x5841_464c)]), 1544);
    mended(counted(block, 1572, 12, 7))
}

// The same heads with block 7 + i at each place i of the ring, of which this part is in use.
fn ring_of(first: u32, last: u32, count: u32) -> Block {
    let block = counted(heads(), 1572, 119, 7);
    mended(with(block, &[(552, first), (556, last), (560, count)]))
}

// The block with this number at a place of the ring.
fn with_place(mut block: Block, place: usize, number: u32) -> Block {
    if place < 119 {
        put_at(&mut block, 1572 + 4 * place, number);
    }
    mended(block)
}

fn agf_fault(block: &Block) -> Option<HeadFault> {
    decode_agf(block, &geometry(), 0).err()
}

fn agi_fault(block: &Block) -> Option<HeadFault> {
    decode_agi(block, &geometry(), 0).err()
}

fn agfl_fault(block: &Block) -> Option<HeadFault> {
    decode_agfl(block, &geometry(), 0).err()
}

#[test]
fn each_fault_is_that_of_one_head(rt: HostRuntime) -> Result<(), AllocError> {
    for (at, number, fault, word) in [
        (0, 0x5841_464c, HeadFault::Magic, "magic"),
        (4, 2, HeadFault::Version, "version"),
        (8, 1, HeadFault::Seqno, "seqno"),
        (12, 255, HeadFault::Length, "length"),
        (64, 0x0102_0305, HeadFault::Uuid, "uuid"),
    ] {
        let block = mended(with(heads(), &[(512 + at, number)]));
        same(&rt, agf_fault(&block), Some(fault));
        same(&rt, agi_fault(&block), None);
        same(&rt, agfl_fault(&block), None);
        let shown = format!(in rt.alloc(); "{fault}")?;
        same(&rt, shown.as_str(), word);
    }
    let block = with(heads(), &[(1020, 1)]);
    same(&rt, agf_fault(&block), Some(HeadFault::Checksum));
    same(&rt, agi_fault(&block), None);
    Ok(())
}

#[test]
fn faults_of_an_agi_and_an_agfl(rt: HostRuntime) -> Result<(), AllocError> {
    for (at, number, fault) in [
        (0, 0x5841_4746, HeadFault::Magic),
        (4, 0, HeadFault::Version),
        (8, 1, HeadFault::Seqno),
        (12, 257, HeadFault::Length),
        (308, 0, HeadFault::Uuid),
    ] {
        let block = mended(with(heads(), &[(1024 + at, number)]));
        same(&rt, agi_fault(&block), Some(fault));
        same(&rt, agf_fault(&block), None);
    }
    for (at, number, fault) in [
        (0, 0x5841_4746, HeadFault::Magic),
        (4, 1, HeadFault::Seqno),
        (20, 0, HeadFault::Uuid),
        (44, 0, HeadFault::FreeList(2)),
    ] {
        let block = mended(with(heads(), &[(1536 + at, number)]));
        same(&rt, agfl_fault(&block), Some(fault));
        same(&rt, agf_fault(&block), None);
    }
    let block = with(heads(), &[(1532, 1), (2044, 1)]);
    same(&rt, agi_fault(&block), Some(HeadFault::Checksum));
    same(&rt, agfl_fault(&block), Some(HeadFault::Checksum));
    let shown = format!(in rt.alloc(); "{} {}", HeadFault::Checksum, HeadFault::FreeList(3))?;
    same(&rt, shown.as_str(), "checksum freelist 3");
    Ok(())
}

#[test]
fn the_free_list_and_its_ring(rt: HostRuntime) {
    for (first, last, count, place, number, fault) in [
        // A block twice, at places 2 and 3.
        (0, 11, 12, 3, 9, Some(3)),
        // An empty list, as kernels write it, and a full one.
        (1, 0, 0, 0, 0, None),
        (0, 118, 119, 0, 7, None),
        // The last block of the group, the one behind it, block 0, and one that isn't in use.
        (0, 11, 12, 5, 255, None),
        (0, 11, 12, 5, 256, Some(5)),
        (0, 11, 12, 0, 0, Some(0)),
        (0, 11, 12, 12, 0, None),
        // A ring of the places 117, 118, 0 to 3.
        (117, 3, 6, 0, 7, None),
        (117, 3, 6, 0, 124, Some(0)),
        (117, 3, 6, 117, 10, Some(3)),
        (117, 2, 6, 0, 7, Some(119)),
        // Places and counts that the ring doesn't have, or that don't fit together.
        (119, 11, 12, 0, 7, Some(119)),
        (1, 119, 0, 0, 7, Some(119)),
        (0, 0, 120, 0, 7, Some(119)),
        (ONES, 0, 0, 0, 7, Some(119)),
        (0, 10, 12, 0, 7, Some(119)),
    ] {
        let block = with_place(ring_of(first, last, count), place, number);
        same(&rt, agfl_fault(&block), fault.map(HeadFault::FreeList));
    }
}

#[test]
fn what_is_written_is_read_again(rt: HostRuntime) {
    let block = heads();
    let geo = geometry();
    let agf = decode_agf(&block, &geo, 0).expect(&rt, "the AGF is sound");
    let agi = decode_agi(&block, &geo, 0).expect(&rt, "the AGI is sound");
    let list = decode_agfl(&block, &geo, 0).expect(&rt, "the free list is sound");
    same(&rt, (agf.rmap_root, agf.flcount, agf.longest), (5, 12, 224));
    same(&rt, (agi.count, agi.newino, agi.fblocks), (64, 192, 1));
    same(&rt, agi.unlinked[63], ONES);
    same(&rt, (list.first(), list.last(), list.len()), (0, 11, 12));

    let mut copy = Block::zeroed();
    agf.encode(&mut copy);
    agi.encode(&mut copy);
    list.encode(&mut copy);
    same(&rt, copy, block);
    // As another program summed the same bytes.
    same(&rt, get_sum(&copy.bytes, 728), 0xb54c_56b1);
    same(&rt, get_sum(&copy.bytes, 1336), 0x49d9_ea51);
    same(&rt, get_sum(&copy.bytes, 1568), 0xb874_3d31);
}

// Puts a block behind the last one, where there is room.
fn put(list: &mut Agfl, block: u32) {
    if list.len() < 119 {
        list.put_last(block);
    }
}

fn entry(list: &Agfl, i: u32) -> Option<u32> {
    if i < list.len() {
        Some(list.entry(i))
    } else {
        None
    }
}

fn ends(list: &Agfl) -> (u32, u32, u32) {
    (list.first(), list.last(), list.len())
}

#[test]
fn blocks_are_taken_in_front_and_put_behind(rt: HostRuntime) {
    let geo = geometry();
    let mut list = decode_agfl(&ring_of(117, 118, 2), &geo, 0).expect(&rt, "two entries");
    put(&mut list, 50);
    same(&rt, ends(&list), (117, 0, 3));
    same(
        &rt,
        (entry(&list, 1), entry(&list, 2)),
        (Some(125), Some(50)),
    );
    same(&rt, list.take_first(), Some(124));
    same(&rt, list.take_first(), Some(125));
    same(&rt, ends(&list), (0, 0, 1));
    same(&rt, list.take_first(), Some(50));
    same(&rt, list.take_first(), None);
    same(&rt, ends(&list), (1, 0, 0));
    put(&mut list, 60);
    same(&rt, ends(&list), (1, 1, 1));
    same(&rt, entry(&list, 0), Some(60));

    // An empty list whose places say nothing of each other begins where the block is put.
    let mut list = decode_agfl(&ring_of(5, 77, 0), &geo, 0).expect(&rt, "no entry");
    put(&mut list, 60);
    same(&rt, ends(&list), (78, 78, 1));
}
