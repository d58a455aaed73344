use super::same::same;
use ag_headers::{Agf, Agi};
use ino_recs::InoRec;
use root_switch::{
    Heads, InodeTotals, NewTree, SpaceTotals, Switch, blocks_beside_roots, inode_totals, rooted,
    space_totals,
};
use span_recs::SpanRec;

#[test]
fn counters_of_the_worked_image(rt: HostRuntime) {
    let free = [
        SpanRec {
            start: 19,
            count: 5,
        },
        SpanRec {
            start: 32,
            count: 224,
        },
    ];
    let space = SpaceTotals {
        freeblks: 229,
        longest: 224,
    };
    same(&rt, space_totals(&free), space);
    same(
        &rt,
        space_totals(&[]),
        SpaceTotals {
            freeblks: 0,
            longest: 0,
        },
    );
    let chunk = InoRec {
        startino: 192,
        holemask: 0,
        count: 64,
        freecount: 61,
        free: 0xffff_ffff_ffff_fff8,
    };
    let inodes = InodeTotals {
        count: 64,
        freecount: 61,
    };
    same(&rt, inode_totals(&[chunk]), inodes);
    same(&rt, blocks_beside_roots(1, 1, 1), 0);
    same(&rt, blocks_beside_roots(3, 3, 26), 29);
}

const OLD: Heads = Heads {
    agf: Agf {
        seqno: 0,
        length: 256,
        bno_root: 1,
        cnt_root: 2,
        rmap_root: 5,
        bno_level: 1,
        cnt_level: 1,
        rmap_level: 1,
        flfirst: 0,
        fllast: 11,
        flcount: 12,
        freeblks: 229,
        longest: 224,
        btreeblks: 7,
        uuid: [0; 16],
        rmap_blocks: 1,
        refcount_blocks: 1,
        refcount_root: 6,
        refcount_level: 1,
        lsn: 0,
    },
    agi: Agi {
        seqno: 0,
        length: 256,
        count: 64,
        root: 3,
        level: 1,
        freecount: 61,
        newino: 192,
        dirino: u32::MAX,
        unlinked: [u32::MAX; 64],
        uuid: [0; 16],
        lsn: 0,
        free_root: 4,
        free_level: 1,
        iblocks: 8,
        fblocks: 9,
    },
};

const TREE: NewTree = NewTree {
    root: 40,
    levels: 2,
    blocks: 4,
};

// The counter of three trees' blocks after a switch of reverse mappings.
fn beside(btreeblks: Option<u32>) -> u32 {
    let switch = Switch::Rmap {
        rmap: TREE,
        btreeblks,
    };
    rooted(&OLD, &switch).agf.btreeblks
}

// The blocks of both inode btrees as the heads have them after their switch.
fn counted(counts_blocks: bool) -> (u32, u32) {
    let switch = Switch::Inode {
        ino: TREE,
        fino: TREE,
        count: 64,
        freecount: 61,
        counts_blocks,
    };
    let agi = rooted(&OLD, &switch).agi;
    (agi.iblocks, agi.fblocks)
}

#[test]
fn a_counter_that_nothing_tells_stays(rt: HostRuntime) {
    same(&rt, beside(None), 7);
    same(&rt, beside(Some(0)), 0);
    same(&rt, beside(Some(u32::MAX)), u32::MAX);
    same(&rt, counted(false), (8, 9));
    same(&rt, counted(true), (4, 4));
}
