ghost use Rattle.std.specs.Prelude.{◌≡◌};

use super::same::same;
use crate::blocks::{altered, block_of, expect_faults, want_of};
use ino_recs::{FinoKind, InoKind, InoRec};
use sblock::{BlockFault, Bounds, Kind, RecKind, do_meet};
use span_recs::{BnoKind, CntKind, RefcKind, RefcRec, SpanRec};
use std::process::Abort;

// A group of 256 blocks, the only one.
const BOUNDS: Bounds = Bounds {
    length: 256,
    agblocks: 256,
    agcount: 1,
    last: 256,
    agblklog: 8,
};

// A chunk whose first three inodes are taken.
const FIRST: InoRec = InoRec {
    startino: 192,
    holemask: 0,
    count: 64,
    freecount: 61,
    free: 0xffff_ffff_ffff_fff8,
};

fn span(start: u32, count: u32) -> SpanRec {
    SpanRec { start, count }
}

fn shared(start: u32, count: u32, refcount: u32) -> RefcRec {
    RefcRec {
        start,
        count,
        refcount,
    }
}

#[test]
fn free_space_lies_in_the_group(rt: HostRuntime) {
    let rows = [
        (1, 1, true),
        (1, 255, true),
        (255, 1, true),
        (0, 1, false),
        (1, 0, false),
        (1, 256, false),
        (255, 2, false),
        (0xffff_ffff, 0xffff_ffff, false),
    ];
    for (start, count, wanted) in &rows {
        let rec = SpanRec {
            start: *start,
            count: *count,
        };
        same(&rt, BnoKind::is_in_range(&rec, &BOUNDS), *wanted);
        same(&rt, CntKind::is_in_range(&rec, &BOUNDS), *wanted);
    }
}

#[test]
fn shared_blocks_lie_in_the_group(rt: HostRuntime) {
    let rows = [
        (1, 255, 2, true),
        (255, 1, 0xffff_ffff, true),
        (0, 1, 2, false),
        (1, 0, 2, false),
        (255, 2, 2, false),
        (1, 1, 1, false),
    ];
    for (start, count, refcount, wanted) in &rows {
        let rec = RefcRec {
            start: *start,
            count: *count,
            refcount: *refcount,
        };
        same(&rt, RefcKind::is_in_range(&rec, &BOUNDS), *wanted);
        same(&rt, RefcKind::is_supported(&rec), true);
        same(&rt, RefcKind::length_of(&rec), *count);
    }
    // Staging is of a form that isn't supported yet.
    let rec = shared(0x8000_0020, 3, 1);
    same(&rt, RefcKind::is_supported(&rec), false);
    same(
        &rt,
        RefcKind::block_of(&RefcKind::key_of(&rec)),
        0x8000_0020,
    );
    same(&rt, RefcKind::length_of(&rec), 3);
}

#[test]
fn records_meet_in_a_block_or_by_their_keys(rt: HostRuntime) {
    let rows = [
        ((5, 3), (7, 2), true, false),
        ((7, 2), (5, 3), true, false),
        ((5, 3), (5, 1), true, false),
        ((5, 3), (8, 2), false, false),
        ((5, 3), (6, 0), false, false),
        ((5, 3), (5, 3), true, true),
        ((5, 0), (5, 0), false, true),
    ];
    for ((start, count), (other, length), in_a_block, by_key) in rows {
        let (a, b) = (span(start, count), span(other, length));
        same(&rt, do_meet::<BnoKind>(&a, &b), in_a_block);
        same(&rt, do_meet::<CntKind>(&a, &b), by_key);
    }
    let staging = shared(0x8000_0020, 3, 1);
    let apart = do_meet::<RefcKind>(&staging, &shared(0x20, 3, 2));
    let together = do_meet::<RefcKind>(&staging, &shared(0x8000_0022, 1, 1));
    same(&rt, [apart, together], [false, true]);
    let taken = InoRec {
        freecount: 60,
        free: 0xffff_ffff_ffff_fff0,
        ..FIRST
    };
    same(&rt, do_meet::<InoKind>(&FIRST, &taken), true);
    same(&rt, InoKind::is_same(&FIRST, &taken), false);
    same(&rt, InoKind::is_same(&FIRST, &FIRST), true);
}

// The faults of a root that is a leaf with these numbers, and of it with each of these words changed.
fn expect_leaf_faults<K: RecKind>(
    rt: &impl Abort,
    kind: Kind,
    magic: u32,
    words: &[u32],
    own: &[(usize, u32, BlockFault)],
)
    requires { kind ≡ K.form.kind }
{
    let leaf = block_of(magic, 0, 2, words);
    expect_faults::<K>(rt, &want_of(kind, 0, BOUNDS), &leaf, own);
}

// The same of a root that is a node with these keys, and with the pointers 2 and 3 from this byte on.
fn expect_node_faults<K: RecKind>(
    rt: &impl Abort,
    kind: Kind,
    magic: u32,
    keys: &[u32],
    at: u16,
    own: &[(usize, u32, BlockFault)],
)
    requires { kind ≡ K.form.kind }
{
    let at = usize::from(at);
    let node = block_of(magic, 1, 2, keys);
    let node = altered(altered(node, at, 2), at + 4, 3);
    expect_faults::<K>(rt, &want_of(kind, 1, BOUNDS), &node, own);
}

// Roots of free space and of reference counts.
fn expect_faults_of_span_leaves(rt: &impl Abort) {
    let own = [
        (4, 0x0001_0002, BlockFault::Level),
        (4, 506, BlockFault::Count),
        (64, 19, BlockFault::Order),
        (56, 0, BlockFault::Range),
        (68, 225, BlockFault::Range),
    ];
    expect_leaf_faults::<BnoKind>(rt, Kind::Bno, 0x4142_3342, &[19, 5, 32, 224], &own);
    let own = [
        (4, 0x0001_0002, BlockFault::Level),
        (4, 506, BlockFault::Count),
        (64, 19, BlockFault::Order),
        (68, 4, BlockFault::Order),
        (68, 225, BlockFault::Range),
    ];
    expect_leaf_faults::<CntKind>(rt, Kind::Cnt, 0x4142_3343, &[19, 5, 32, 5], &own);
    let own = [
        (4, 0x0001_0002, BlockFault::Level),
        (4, 337, BlockFault::Count),
        (68, 19, BlockFault::Order),
        (64, 1, BlockFault::Range),
        (72, 225, BlockFault::Range),
        (68, 0x8000_0000, BlockFault::Later),
    ];
    expect_leaf_faults::<RefcKind>(rt, Kind::Refc, 0x5233_4643, &[19, 5, 2, 32, 1, 3], &own);
}

fn expect_faults_of_span_nodes(rt: &impl Abort) {
    // The pointers are behind the room of 336 keys of 8 bytes and of 505 of 4.
    let own = [
        (4, 2, BlockFault::Level),
        (4, 0x0001_0000, BlockFault::Count),
        (64, 19, BlockFault::Order),
        (2744, 0, BlockFault::Range),
        (2748, 256, BlockFault::Range),
    ];
    expect_node_faults::<BnoKind>(rt, Kind::Bno, 0x4142_3342, &[19, 5, 32, 224], 2744, &own);
    let own = [
        (4, 2, BlockFault::Level),
        (4, 0x0001_0151, BlockFault::Count),
        (68, 4, BlockFault::Order),
        (2748, 256, BlockFault::Range),
    ];
    expect_node_faults::<CntKind>(rt, Kind::Cnt, 0x4142_3343, &[19, 5, 32, 5], 2744, &own);
    let own = [
        (4, 2, BlockFault::Level),
        (4, 0x0001_01fa, BlockFault::Count),
        (60, 19, BlockFault::Order),
        (2076, 0, BlockFault::Range),
    ];
    expect_node_faults::<RefcKind>(rt, Kind::Refc, 0x5233_4643, &[19, 32], 2076, &own);
}

// Two chunks; of the second one inode is free.
const CHUNKS: [u32; 8] = [
    192,
    0x0000_403d,
    0xffff_ffff,
    0xffff_fff8,
    256,
    0x0000_4001,
    0,
    1,
];

// Roots of inode chunks.
fn expect_faults_of_chunk_leaves(rt: &impl Abort) {
    let own = [
        (4, 0x0001_0002, BlockFault::Level),
        (4, 253, BlockFault::Count),
        (72, 192, BlockFault::Order),
        (72, 2048, BlockFault::Range),
        (76, 0x0000_4002, BlockFault::Range),
        // The holes come after the range of all other records.
        (60, 0xff00_201d, BlockFault::Later),
    ];
    expect_leaf_faults::<InoKind>(rt, Kind::Ino, 0x4941_4233, &CHUNKS, &own);
    expect_leaf_faults::<FinoKind>(rt, Kind::Fino, 0x4649_4233, &CHUNKS, &own);
}

fn expect_faults_of_chunk_nodes(rt: &impl Abort) {
    let own = [
        (4, 2, BlockFault::Level),
        (4, 0x0001_01fa, BlockFault::Count),
        (60, 192, BlockFault::Order),
        (2076, 0, BlockFault::Range),
        (2080, 256, BlockFault::Range),
    ];
    // The pointers are behind the room of 505 keys of 4 bytes.
    expect_node_faults::<InoKind>(rt, Kind::Ino, 0x4941_4233, &[192, 256], 2076, &own);
    expect_node_faults::<FinoKind>(rt, Kind::Fino, 0x4649_4233, &[192, 256], 2076, &own);
}

#[test]
fn each_fault_of_a_leaf_is_found(rt: HostRuntime) {
    expect_faults_of_span_leaves(&rt);
    expect_faults_of_chunk_leaves(&rt);
}

#[test]
fn each_fault_of_a_node_is_found(rt: HostRuntime) {
    expect_faults_of_span_nodes(&rt);
    expect_faults_of_chunk_nodes(&rt);
}

fn expect_bytes_of_spans(rt: &impl Abort) {
    let mut area = [0u8; 4040];
    let span = SpanRec {
        start: 32,
        count: 224,
    };
    BnoKind::put_record(&mut area, 504, &span);
    same(rt, &area[4032..], [0, 0, 0, 32, 0, 0, 0, 224].as_slice());
    same(rt, BnoKind::record_at(&area, 504), span);
    CntKind::put_keys(&mut area, 335, &span, &span);
    same(rt, CntKind::key_at(&area, 335), span);
    let shared = RefcRec {
        start: 32,
        count: 1,
        refcount: 2,
    };
    RefcKind::put_record(&mut area, 335, &shared);
    same(
        rt,
        &area[4020..4032],
        [0, 0, 0, 32, 0, 0, 0, 1, 0, 0, 0, 2].as_slice(),
    );
    same(rt, RefcKind::record_at(&area, 335), shared);
    let key = RefcKind::key_of(&shared);
    RefcKind::put_keys(&mut area, 504, &key, &key);
    same(rt, RefcKind::high_key_at(&area, 504), key);
}

fn expect_bytes_of_chunks(rt: &impl Abort) {
    let mut area = [0u8; 4040];
    InoKind::put_record(&mut area, 1, &FIRST);
    let wanted = [
        0, 0, 0, 0xc0, 0, 0, 0x40, 0x3d, 0xff, 0xff, 0xff, 0xff, 0xff, 0xff, 0xff, 0xf8,
    ];
    same(rt, &area[16..32], wanted.as_slice());
    same(rt, FinoKind::record_at(&area, 1), FIRST);
    let key = InoKind::high_key_of(&FIRST);
    FinoKind::put_keys(&mut area, 504, &key, &key);
    same(rt, &area[2016..2020], [0, 0, 0, 0xc0].as_slice());
    same(rt, InoKind::key_at(&area, 504), key);
}

#[test]
fn what_is_written_is_read_again(rt: HostRuntime) {
    expect_bytes_of_spans(&rt);
    expect_bytes_of_chunks(&rt);
}

#[test]
fn chunks_are_aligned_and_their_counts_are_those_of_the_mask(rt: HostRuntime) {
    let some = 0xffff_ffff_ffff_fff8;
    let rows = [
        (64, 64, 61, some, true, true),
        (192, 64, 61, some, true, true),
        (1984, 64, 61, some, true, true),
        (0, 64, 61, some, false, false),
        (32, 64, 61, some, false, false),
        (96, 64, 61, some, false, false),
        // Its last block would be block 256.
        (1992, 64, 61, some, false, false),
        (2048, 64, 61, some, false, false),
        (0xffff_ffc0, 64, 61, some, false, false),
        (192, 64, 64, 0xffff_ffff_ffff_ffff, true, true),
        (192, 64, 1, 0x8000_0000_0000_0000, true, true),
        (192, 64, 0, 0, true, false),
        (192, 64, 60, some, false, false),
        (192, 63, 61, some, false, false),
    ];
    for (startino, count, freecount, free, in_ino, in_fino) in &rows {
        let rec = InoRec {
            startino: *startino,
            holemask: 0,
            count: *count,
            freecount: *freecount,
            free: *free,
        };
        same(&rt, InoKind::is_in_range(&rec, &BOUNDS), *in_ino);
        same(&rt, FinoKind::is_in_range(&rec, &BOUNDS), *in_fino);
    }
}

#[test]
fn chunks_with_holes_are_not_supported(rt: HostRuntime) {
    let holed = InoRec {
        holemask: 0xff00,
        ..FIRST
    };
    same(&rt, InoKind::is_supported(&FIRST), true);
    same(&rt, InoKind::is_supported(&holed), false);
    same(&rt, InoKind::block_of(&InoKind::key_of(&FIRST)), 24);
    same(&rt, FinoKind::length_of(&FIRST), 8);
    same(&rt, FinoKind::length_of(&holed), 0);
}
