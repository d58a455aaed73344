use index_derive::{UnitCores, free_mask, free_records, inode_records};
use ino_recs::InoRec;
use std::test::Fail;

// The mask of a new group's first chunk: its first three inodes are allocated.
const FIRST_CHUNK: u64 = 0xffff_ffff_ffff_fff8;

fn record(startino: u32, freecount: u8, free: u64) -> InoRec {
    InoRec {
        startino,
        holemask: 0,
        count: 64,
        freecount,
        free,
    }
}

#[test]
fn modes_make_a_mask(rt: HostRuntime) -> Result<(), Fail> {
    let mut modes = [Some(0u16); 64];
    assert_eq!(rt; free_mask(&modes), Some(u64::MAX));
    modes[0] = Some(0x41ed);
    modes[1] = Some(0x8000);
    modes[2] = Some(0x8000);
    assert_eq!(rt; free_mask(&modes), Some(FIRST_CHUNK));
    modes[63] = None;
    assert_eq!(rt; free_mask(&modes), None);
    Ok(())
}

#[test]
fn chunks_become_records(rt: HostRuntime) -> Result<(), Fail> {
    let units = [
        UnitCores {
            unit: 3,
            free: Some(FIRST_CHUNK),
        },
        UnitCores {
            unit: 4,
            free: None,
        },
        UnitCores {
            unit: 5,
            free: Some(0),
        },
        UnitCores {
            unit: 67_108_863,
            free: Some(u64::MAX),
        },
    ];
    let full = record(320, 0, 0);
    let first = record(192, 61, FIRST_CHUNK);
    let last = record(4_294_967_232, 64, u64::MAX);
    let ino = inode_records(rt.alloc(), &units)?;
    assert_eq!(rt; ino.as_slice(), [first, full, last].as_slice());
    let fino = free_records(rt.alloc(), ino.as_slice())?;
    assert_eq!(rt; fino.as_slice(), [first, last].as_slice());
    Ok(())
}
