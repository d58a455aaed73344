use super::same::{same, same_in_row};
use crate::pieces::geometry;
use byte_fields::{put_sum, put_u16, put_u32, put_u64, sum_at};
use dinode_core::{
    Core3, CoreFault, Fork, ForkError, ForkFault, Mapping, decode_core, encode_core, fork_room,
    fork_size, inline_fork, inline_is_whole, is_in_btree, mapping_at, mapping_count, pack, unpack,
};
use std::alloc::{AllocError, Global};
use std::fmt::Display;

const UUID: [u8; 16] = [1, 2, 3, 4, 5, 6, 7, 8, 9, 10, 11, 12, 13, 14, 15, 16];

// The core of an inode whose fields all differ.
const CORE: Core3 = Core3 {
    mode: 0x81a4,
    format: 2,
    uid: 1000,
    nlink: 1,
    big_nextents: 0x0102_0304_0506_0708,
    nblocks: 0x1112_1314_1516_1718,
    nextents: 0x2122_2324,
    anextents: 0x3132,
    forkoff: 20,
    aformat: 1,
    flags: 0x4142,
    next_unlinked: 0xffff_ffff,
    changecount: 0x5152_5354_5556_5758,
    lsn: 0x6162_6364_6566_6768,
    flags2: 0x7172_7374_7576_7778,
    ino: 195,
    uuid: UUID,
    literal: [0xaa; 336],
};

// The inode with that core, field by field; the bytes that no field has are aa in hexadecimal.
fn inode() -> [u8; 512] {
    let mut bytes = [0xaa; 512];
    put_u32(&mut bytes, 0, 0x494e_81a4);
    put_u16(&mut bytes, 4, 0x0302);
    put_u32(&mut bytes, 8, 1000);
    put_u32(&mut bytes, 16, 1);
    put_u64(&mut bytes, 24, 0x0102_0304_0506_0708);
    put_u64(&mut bytes, 64, 0x1112_1314_1516_1718);
    put_u32(&mut bytes, 76, 0x2122_2324);
    put_u32(&mut bytes, 80, 0x3132_1401);
    put_u16(&mut bytes, 90, 0x4142);
    bytes
}

fn whole_inode() -> [u8; 512] {
    let mut bytes = inode();
    put_u32(&mut bytes, 96, 0xffff_ffff);
    put_u64(&mut bytes, 104, 0x5152_5354_5556_5758);
    put_u64(&mut bytes, 112, 0x6162_6364_6566_6768);
    put_u64(&mut bytes, 120, 0x7172_7374_7576_7778);
    put_u64(&mut bytes, 152, 195);
    put_u64(&mut bytes, 160, 0x0102_0304_0506_0708);
    put_u64(&mut bytes, 168, 0x090a_0b0c_0d0e_0f10);
    put_sum(&mut bytes, 100, 0x80a2_2259);
    bytes
}

#[test]
fn fields_stand_in_their_places(rt: HostRuntime) {
    let bytes = whole_inode();
    same(&rt, decode_core(&bytes, 195, &UUID), Ok(CORE));
    let mut written = [0xaa; 512];
    encode_core(&CORE, &mut written);
    same(&rt, written, bytes);
}

// Which fault an inode has with a byte changed, and the sum made right again or not.
fn fault_with(at: usize, value: u8, mend: bool) -> Option<CoreFault> {
    let mut bytes = whole_inode();
    if at < 512 {
        bytes[at] = value;
    }
    if mend {
        let sum = sum_at(&bytes, 100);
        put_sum(&mut bytes, 100, sum);
    }
    decode_core(&bytes, 195, &UUID).err()
}

fn shown(alloc: Global, fault: &impl Display) -> Result<String, AllocError> {
    format!(in alloc; "{fault}")
}

#[test]
fn each_core_fault_has_an_inode_and_a_word(rt: HostRuntime) -> Result<(), AllocError> {
    for (at, value, mend, fault, word) in [
        (0, 0x4a, true, CoreFault::Magic, "magic"),
        (4, 2, true, CoreFault::Version, "version"),
        (159, 194, true, CoreFault::Number, "number"),
        (152, 1, true, CoreFault::Number, "number"),
        (511, 0, false, CoreFault::Checksum, "checksum"),
        (6, 0, false, CoreFault::Checksum, "checksum"),
        (175, 17, true, CoreFault::Uuid, "uuid"),
    ] {
        same_in_row(&rt, at, fault_with(at, value, mend), Some(fault));
        same(&rt, shown(rt.alloc(), &fault)?.as_str(), word);
    }
    // A byte that no field has, and the sum after it.
    same(&rt, fault_with(6, 0, true), None);
    Ok(())
}

#[test]
fn packed_mappings(rt: HostRuntime) {
    let written = Mapping {
        offset: 5,
        block: 40,
        count: 1,
        unwritten: false,
    };
    let packed = [0, 0, 0, 0, 0, 0, 0x0a, 0, 0, 0, 0, 0, 5, 0, 0, 1];
    same(&rt, pack(&written), packed);
    same(&rt, unpack(&packed), written);
    let unwritten = Mapping {
        offset: 5,
        block: 40,
        count: 1,
        unwritten: true,
    };
    let packed = [0x80, 0, 0, 0, 0, 0, 0x0a, 0, 0, 0, 0, 0, 5, 0, 0, 1];
    same(&rt, pack(&unwritten), packed);
    same(&rt, unpack(&packed), unwritten);
    let most = Mapping {
        offset: (1 << 54) - 1,
        block: (1 << 52) - 1,
        count: (1 << 21) - 1,
        unwritten: true,
    };
    same(&rt, pack(&most), [0xff; 16]);
    same(&rt, unpack(&[0xff; 16]), most);
    let mut three = [0; 48];
    three[16..32].copy_from_slice(&packed);
    same(&rt, mapping_at(&three, 1), unwritten);
    same(&rt, mapping_at(&three, 2).count, 0);
}

fn fault_of(alloc: Global, core: &Core3, fork: Fork) -> Option<ForkError> {
    inline_fork(alloc, core, fork, &geometry()).err()
}

// What is wrong with the data fork and with the attribute fork.
fn faults_of(alloc: Global, core: &Core3) -> [Option<ForkError>; 2] {
    [
        fault_of(alloc, core, Fork::Data),
        fault_of(alloc, core, Fork::Attr),
    ]
}

// A core with no mappings: a data fork and an attribute fork in extents format.
fn empty_core(forkoff: u8) -> Core3 {
    Core3 {
        aformat: 2,
        flags2: 0,
        nextents: 0,
        anextents: 0,
        forkoff,
        literal: [0; 336],
        ..CORE
    }
}

#[test]
fn counts_and_formats_at_their_ends(rt: HostRuntime) {
    let format = Some(ForkError::Fault(ForkFault::Format));
    let count = Some(ForkError::Fault(ForkFault::Count));
    // The room is there, but mappings of zeros have one offset.
    let order = Some(ForkError::Fault(ForkFault::Order));
    for (forkoff, formats, counts, data, attr) in [
        (0, (2, 2), (0, 0), None, None),
        (0, (2, 9), (21, 9), order, None),
        (0, (2, 2), (22, 0), count, None),
        (1, (2, 2), (0, 20), None, order),
        (1, (2, 2), (1, 21), count, count),
        (41, (2, 2), (20, 0), order, None),
        (41, (2, 2), (21, 1), count, count),
        (42, (2, 2), (0, 0), format, format),
        (42, (1, 1), (0, 0), format, format),
        (21, (0, 0), (9, 9), None, format),
        (21, (1, 1), (9, 9), None, None),
        (21, (4, 4), (9, 9), format, format),
        // Roots of level 0.
        (21, (3, 3), (9, 9), format, format),
    ] {
        let mut core = empty_core(forkoff);
        (core.format, core.aformat) = formats;
        (core.nextents, core.anextents) = counts;
        same_in_row(&rt, forkoff, faults_of(rt.alloc(), &core), [data, attr]);
    }
}

#[test]
fn large_counts_are_other_fields(rt: HostRuntime) {
    let count = Some(ForkError::Fault(ForkFault::Count));
    let mut core = empty_core(21);
    core.flags2 = 16;
    core.big_nextents = 11;
    core.nextents = 0;
    core.anextents = 11;
    same(&rt, mapping_count(&core, Fork::Data), 11);
    same(&rt, mapping_count(&core, Fork::Attr), 0);
    same(&rt, fork_room(&core, Fork::Data), 10);
    same(&rt, fork_size(&core, Fork::Attr), 168);
    same(&rt, fault_of(rt.alloc(), &core, Fork::Data), count);
    same(&rt, fault_of(rt.alloc(), &core, Fork::Attr), None);
    core.big_nextents = 0;
    core.nextents = 11;
    same(&rt, fault_of(rt.alloc(), &core, Fork::Data), None);
    same(&rt, fault_of(rt.alloc(), &core, Fork::Attr), count);
}

#[test]
fn roots_of_btrees_are_judged(rt: HostRuntime) {
    let format = Some(ForkError::Fault(ForkFault::Format));
    let count = Some(ForkError::Fault(ForkFault::Count));
    for (level, keys, fault) in [
        (0, 0, format),
        (1, 20, None),
        (1, 21, count),
        (9, 0, None),
        (10, 21, format),
    ] {
        let mut core = empty_core(0);
        core.format = 3;
        put_u16(&mut core.literal, 0, level);
        put_u16(&mut core.literal, 2, keys);
        let found = fault_of(rt.alloc(), &core, Fork::Data);
        same_in_row(&rt, level, found, fault);
    }
}

// The bytes of a mapping whose numbers fit them.
fn bytes_of(m: &Mapping) -> [u8; 16] {
    if m.offset < 1 << 54 && m.block < 1 << 52 && m.count < 1 << 21 {
        pack(m)
    } else {
        [0; 16]
    }
}

// An inode whose data fork and attribute fork both have these two mappings.
fn with_two(first: &Mapping, second: &Mapping) -> Core3 {
    let mut core = empty_core(21);
    core.nextents = 2;
    core.anextents = 2;
    core.literal[0..16].copy_from_slice(&bytes_of(first));
    core.literal[16..32].copy_from_slice(&bytes_of(second));
    core.literal[168..184].copy_from_slice(&bytes_of(first));
    core.literal[184..200].copy_from_slice(&bytes_of(second));
    core
}

fn mapped(offset: u64, block: u64, count: u32) -> Mapping {
    Mapping {
        offset,
        block,
        count,
        unwritten: false,
    }
}

#[test]
fn each_bad_mapping_has_its_fault(rt: HostRuntime) {
    let end = 1 << 54;
    for (first, second, fault) in [
        (mapped(0, 20, 4), mapped(4, 40, 1), None),
        (mapped(4, 20, 1), mapped(4, 40, 1), Some(ForkFault::Order)),
        (mapped(5, 20, 0), mapped(4, 40, 1), Some(ForkFault::Order)),
        (mapped(0, 20, 5), mapped(4, 40, 1), Some(ForkFault::Overlap)),
        (
            mapped(0, 253, 5),
            mapped(4, 40, 1),
            Some(ForkFault::Overlap),
        ),
        (mapped(0, 20, 0), mapped(4, 40, 1), Some(ForkFault::Range)),
        (mapped(0, 20, 1), mapped(4, 40, 0), Some(ForkFault::Range)),
        // To a group's end and one block further; the same of the last group; behind it.
        (mapped(0, 252, 4), mapped(4, 316, 4), None),
        (mapped(0, 253, 4), mapped(4, 316, 4), Some(ForkFault::Range)),
        (mapped(0, 252, 4), mapped(4, 317, 4), Some(ForkFault::Range)),
        (mapped(0, 252, 4), mapped(4, 320, 1), Some(ForkFault::Range)),
        (mapped(0, 252, 4), mapped(4, 512, 1), Some(ForkFault::Range)),
        (mapped(0, 252, 4), mapped(end - 4, 40, 4), None),
        (
            mapped(0, 252, 4),
            mapped(end - 3, 40, 4),
            Some(ForkFault::Range),
        ),
    ] {
        let core = with_two(&first, &second);
        let wanted = fault.map(ForkError::Fault);
        let found = faults_of(rt.alloc(), &core);
        same_in_row(&rt, (first, second), found, [wanted, wanted]);
    }
}

#[test]
fn mappings_are_read_in_order(rt: HostRuntime) -> Result<(), ForkError> {
    let first = mapped(0, 20, 4);
    let mut second = mapped(9, 300, 1);
    second.unwritten = true;
    let core = with_two(&first, &second);
    let data = inline_fork(rt.alloc(), &core, Fork::Data, &geometry())?;
    same(&rt, data.as_slice(), [first, second].as_slice());
    // Unwritten blocks are allowed in the data fork alone.
    let range = Some(ForkError::Fault(ForkFault::Range));
    same(&rt, fault_of(rt.alloc(), &core, Fork::Attr), range);
    assert!(rt; !is_in_btree(&core, Fork::Data));
    inline_is_whole(&core, Fork::Data, &geometry());
    Ok(())
}

#[test]
fn faults_of_forks_have_words(rt: HostRuntime) -> Result<(), AllocError> {
    for (fault, word) in [
        (ForkFault::Format, "format"),
        (ForkFault::Count, "count"),
        (ForkFault::Order, "order"),
        (ForkFault::Overlap, "overlap"),
        (ForkFault::Range, "range"),
        (ForkFault::Block, "block"),
    ] {
        same(&rt, shown(rt.alloc(), &fault)?.as_str(), word);
        let error = ForkError::Fault(fault);
        same(&rt, shown(rt.alloc(), &error)?.as_str(), word);
    }
    Ok(())
}
