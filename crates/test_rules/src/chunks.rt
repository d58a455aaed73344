use super::same::same;
use ino_recs::InoRec;
use inode_table::{CHUNK_INODES, fino_record, fresh_chunk, give, lowest_free, take};

// The chunk of the worked image, of which the first three inodes are allocated.
const CHUNK: InoRec = InoRec {
    startino: 192,
    holemask: 0,
    count: 64,
    freecount: 61,
    free: 0xffff_ffff_ffff_fff8,
};

#[test]
fn the_lowest_free_inode_of_a_chunk(rt: HostRuntime) {
    let rows = [
        (0xffff_ffff_ffff_fff8, Some(3)),
        (0, None),
        (1, Some(0)),
        (0x8000_0000_0000_0000, Some(63)),
        (u64::MAX, Some(0)),
    ];
    for (free, lowest) in rows {
        same(&rt, lowest_free(&InoRec { free, ..CHUNK }), lowest);
    }
}

#[test]
fn a_chunk_without_free_inodes_is_in_one_tree(rt: HostRuntime) {
    let full = InoRec {
        freecount: 0,
        free: 0,
        ..CHUNK
    };
    let last = InoRec {
        freecount: 1,
        free: 0x8000_0000_0000_0000,
        ..CHUNK
    };
    same(&rt, fino_record(&CHUNK), Some(CHUNK));
    same(&rt, fino_record(&last), Some(last));
    same(&rt, fino_record(&full), None);
}

// The mask and the count once an inode is given back to a full chunk; none where there is no such place.
fn given(slot: u8) -> Option<(u64, u8)> {
    if slot >= CHUNK_INODES {
        return None;
    }
    let full = InoRec {
        freecount: 0,
        free: 0,
        ..CHUNK
    };
    let rec = give(&full, slot);
    Some((rec.free, rec.freecount))
}

#[test]
fn a_given_inode_is_the_only_free_one(rt: HostRuntime) {
    let rows = [
        (0, Some((1, 1))),
        (31, Some((0x8000_0000, 1))),
        (63, Some((0x8000_0000_0000_0000, 1))),
        (64, None),
    ];
    for (slot, rec) in rows {
        same(&rt, given(slot), rec);
    }
}

// And once the lowest free one is taken.
fn taken(free: u64, freecount: u8) -> Option<(u64, u8)> {
    let rec = InoRec {
        freecount,
        free,
        ..CHUNK
    };
    let slot = lowest_free(&rec)?;
    if freecount == 0 {
        return None;
    }
    let rec = take(&rec, slot);
    Some((rec.free, rec.freecount))
}

#[test]
fn the_lowest_free_inode_is_taken_and_none_of_a_full_chunk(rt: HostRuntime) {
    let rows = [
        (u64::MAX, 64, Some((0xffff_ffff_ffff_fffe, 63))),
        (0xffff_ffff_ffff_fff8, 61, Some((0xffff_ffff_ffff_fff0, 60))),
        (0x8000_0000_0000_0000, 1, Some((0, 0))),
        (0, 0, None),
    ];
    for (free, freecount, rec) in rows {
        same(&rt, taken(free, freecount), rec);
    }
}

#[test]
fn a_fresh_chunk_is_all_free(rt: HostRuntime) {
    let fresh = InoRec {
        freecount: 64,
        free: u64::MAX,
        ..CHUNK
    };
    same(&rt, fresh_chunk(24), fresh);
    same(&rt, fresh_chunk(268_435_448).startino, 2_147_483_584);
}
