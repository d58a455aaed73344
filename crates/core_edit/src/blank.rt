// An edit of nothing, and its heads.
ghost use Rattle.std.specs.Prelude.{IfOk};
ghost use Rattle.core_edit.specs.Open.{IsEmpty};

use crate::heads::EditHeads;
use crate::open::{Freed, FreedLens, OpenEdit};
use ag_headers::{Agf, Agfl, Agi};
use blk_cache::Memory;
use meta_txn::Txn;
use std::alloc::Global;

fn blank_agf() -> Agf {
    Agf {
        seqno: 0,
        length: 0,
        bno_root: 0,
        cnt_root: 0,
        rmap_root: 0,
        bno_level: 0,
        cnt_level: 0,
        rmap_level: 0,
        flfirst: 0,
        fllast: 0,
        flcount: 0,
        freeblks: 0,
        longest: 0,
        btreeblks: 0,
        uuid: [0; 16],
        rmap_blocks: 0,
        refcount_blocks: 0,
        refcount_root: 0,
        refcount_level: 0,
        lsn: 0,
    }
}

fn blank_agi() -> Agi {
    Agi {
        seqno: 0,
        length: 0,
        count: 0,
        root: 0,
        level: 0,
        freecount: 0,
        newino: 0,
        dirino: 0,
        unlinked: [0; 64],
        uuid: [0; 16],
        lsn: 0,
        free_root: 0,
        free_level: 0,
        iblocks: 0,
        fblocks: 0,
    }
}

fn blank_list() -> Agfl {
    Agfl {
        seqno: 0,
        uuid: [0; 16],
        lsn: 0,
        numbers: [0; 119],
        first: 0,
        last: 0,
        count: 0,
    }
}

// Heads that no group has: all numbers are 0.
fn blank_heads() -> EditHeads {
    EditHeads {
        agf: blank_agf(),
        agi: blank_agi(),
        list: blank_list(),
    }
}

impl OpenEdit {
    /// An edit of nothing, with room for a whole batch and for its mark. Its heads are blank; `open`
    /// begins an edit of a group.
    pub fn new(alloc: Global) -> Result<Self, Memory>
        ensures { IfOk result IsEmpty }
    {
        let heads = blank_heads();
        Ok(OpenEdit {
            group: 0,
            heads,
            txn: Txn::new(alloc)?,
            freed: Freed {
                ag: Vec::new(alloc),
                inobt: Vec::new(alloc),
                refc: Vec::new(alloc),
            },
            marked: heads,
            lens: FreedLens {
                ag: 0,
                inobt: 0,
                refc: 0,
            },
        })
    }
}
