use index_derive::{has_unit, joined_runs, listed_units};
use ino_recs::InoRec;
use rmap_recs::RmapRec;
use run_sets::Run;
use std::test::Fail;

const INODES: u64 = 0xffff_ffff_ffff_fff9;

fn chunk(startino: u32) -> InoRec {
    InoRec {
        startino,
        holemask: 0,
        count: 64,
        freecount: 0,
        free: 0,
    }
}

const OWNED: [RmapRec; 5] = [
    RmapRec {
        start: 16,
        count: 8,
        owner: 195,
        word: 0,
    },
    RmapRec {
        start: 40,
        count: 4,
        owner: INODES,
        word: 0,
    },
    RmapRec {
        start: 44,
        count: 5,
        owner: INODES,
        word: 0,
    },
    RmapRec {
        start: 65,
        count: 15,
        owner: INODES,
        word: 0,
    },
    RmapRec {
        start: 247,
        count: 20,
        owner: INODES,
        word: 0,
    },
];

#[test]
fn both_trees_list_units(rt: HostRuntime) -> Result<(), Fail> {
    let ino = [chunk(192), chunk(250), chunk(256), chunk(100_000)];
    let units = listed_units(rt.alloc(), 256, &ino, &OWNED)?;
    let wanted = [
        Run { start: 3, count: 3 },
        Run { start: 9, count: 1 },
        Run {
            start: 31,
            count: 1,
        },
    ];
    assert_eq!(rt; units.as_slice(), wanted.as_slice());
    for unit in 0..40u32 {
        let listed = matches!(unit, 3..=5 | 9 | 31);
        assert_eq!(rt; has_unit(units.as_slice(), unit), listed, "{unit}");
    }
    let none = listed_units(rt.alloc(), 256, &[], &[])?;
    assert_eq!(rt; none.as_slice(), [].as_slice());
    Ok(())
}

#[test]
fn runs_are_joined(rt: HostRuntime) -> Result<(), Fail> {
    let runs = [
        Run { start: 0, count: 0 },
        Run { start: 2, count: 5 },
        Run { start: 3, count: 1 },
        Run { start: 7, count: 2 },
        Run { start: 9, count: 0 },
        Run {
            start: 10,
            count: 0,
        },
        Run {
            start: 11,
            count: 4_000_000_000,
        },
    ];
    let wanted = [
        Run { start: 2, count: 7 },
        Run {
            start: 11,
            count: 4_000_000_000,
        },
    ];
    let found = joined_runs(rt.alloc(), &runs)?;
    assert_eq!(rt; found.as_slice(), wanted.as_slice());
    Ok(())
}
