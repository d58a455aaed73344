//! The lines of the report.
use super::same::same;
use dinode_core::{CoreFault, ForkFault};
use fs_model::{
    AnyRec, Cause, Claim, Counter, Entry, Evidence, Extent, Fault, Reason, Unit, Verdict,
};
use ino_recs::InoRec;
use rmap_recs::RmapRec;
use run_text::line;
use sblock::{BlockFault, Kind};
use span_recs::{RefcRec, SpanRec};
use std::alloc::Global;
use std::process::Abort;
use std::test::Fail;

const SPAN: SpanRec = SpanRec {
    start: 32,
    count: 224,
};

const CHUNK: InoRec = InoRec {
    startino: 192,
    holemask: 0,
    count: 64,
    freecount: 61,
    free: 0xffff_ffff_ffff_fff8,
};

const INODES: RmapRec = RmapRec {
    start: 24,
    count: 8,
    owner: 0xffff_ffff_ffff_fff9,
    word: 0,
};

// A block of an attribute fork's btree.
const FORK_BLOCK: RmapRec = RmapRec {
    start: 40,
    count: 1,
    owner: 195,
    word: 0xc000_0000_0000_0000,
};

const UNWRITTEN: RmapRec = RmapRec {
    start: 40,
    count: 1,
    owner: 195,
    word: 0x2000_0000_0000_0005,
};

const COUNTED: RefcRec = RefcRec {
    start: 32,
    count: 1,
    refcount: 2,
};

const fn found(unit: Unit, fault: Fault) -> Entry {
    Entry::Fault {
        group: 0,
        unit,
        fault,
    }
}

const fn ends(unit: Unit, verdict: Verdict) -> Entry {
    Entry::Verdict {
        group: 0,
        unit,
        verdict,
    }
}

const fn marked(kind: Kind, cause: Cause) -> Entry {
    Entry::Marked {
        group: 2,
        kind,
        cause,
    }
}

const fn gives_up(unit: Unit, reason: Reason) -> Entry {
    ends(unit, Verdict::GaveUp(reason))
}

// Each entry has the line beside it.
fn expect_lines(rt: &impl Abort, alloc: Global, cases: &[(Entry, &str)]) -> Result<(), Fail> {
    for (entry, expected) in cases {
        same(rt, line(alloc, entry)?.as_str(), *expected);
    }
    Ok(())
}

#[test]
fn faults_have_their_lines(rt: HostRuntime) -> Result<(), Fail> {
    let unreadable = Fault::Block {
        kind: Kind::Bno,
        block: 1,
        fault: BlockFault::Checksum,
    };
    let longest = Fault::Counter {
        name: Counter::Longest,
        found: 223,
        wanted: 224,
    };
    let cases = [
        (found(Unit::Free, unreadable), "0 bno block 1 checksum\n"),
        (
            found(Unit::Free, Fault::Missing(AnyRec::Bno(SPAN))),
            "0 bno missing 32 224\n",
        ),
        (
            found(Unit::Free, Fault::Extra(AnyRec::Cnt(SPAN))),
            "0 cnt extra 32 224\n",
        ),
        (
            found(Unit::Rmap, Fault::Missing(AnyRec::Rmap(INODES))),
            "0 rmap missing 24 8 inodes 0 -\n",
        ),
        (
            found(Unit::Rmap, Fault::Extra(AnyRec::Rmap(FORK_BLOCK))),
            "0 rmap extra 40 1 195 0 at\n",
        ),
        (
            found(Unit::Rmap, Fault::Extra(AnyRec::Rmap(UNWRITTEN))),
            "0 rmap extra 40 1 195 5 u\n",
        ),
        (
            found(Unit::Refc, Fault::Extra(AnyRec::Refc(COUNTED))),
            "0 refc extra 32 1 2\n",
        ),
        (
            found(Unit::Inode, Fault::Missing(AnyRec::Ino(CHUNK))),
            "0 ino missing 192 0 64 61 fffffffffffffff8\n",
        ),
        (
            found(Unit::Free, longest),
            "0 free counter longest 223 224\n",
        ),
    ];
    expect_lines(&rt, rt.alloc(), &cases)
}

#[test]
fn verdicts_have_their_lines(rt: HostRuntime) -> Result<(), Fail> {
    let overlap = Evidence::Overlap {
        block: 0,
        first: Claim::Heads,
        second: Claim::Data(195),
    };
    let trees = Evidence::Overlap {
        block: 9,
        first: Claim::Tree(Kind::Fino),
        second: Claim::ForkTree(7),
    };
    let chunk = Evidence::BadChunk {
        block: 24,
        fault: CoreFault::Checksum,
    };
    let fork = Evidence::BadFork {
        ino: 195,
        fault: ForkFault::Order,
    };
    let space = Reason::Space {
        reserve: 0,
        need: 2,
    };
    let cases = [
        (ends(Unit::Refc, Verdict::Good), "0 refc good\n"),
        (ends(Unit::Free, Verdict::Faulty(2)), "0 free faulty 2\n"),
        (ends(Unit::Inode, Verdict::Rebuilt), "0 inode rebuilt\n"),
        (
            ends(Unit::Free, Verdict::Skipped(0, Unit::Rmap)),
            "0 free skipped 0 rmap\n",
        ),
        (gives_up(Unit::Free, space), "0 free gaveup space 0 2\n"),
        (
            gives_up(Unit::Rmap, Reason::TurnLimit(1)),
            "0 rmap gaveup turns 1\n",
        ),
        (
            gives_up(Unit::Rmap, Reason::Contradiction(overlap)),
            "0 rmap gaveup overlap 0 heads data 195\n",
        ),
        (
            gives_up(Unit::Rmap, Reason::Contradiction(trees)),
            "0 rmap gaveup overlap 9 tree-fino forktree 7\n",
        ),
        (
            gives_up(Unit::Inode, Reason::Contradiction(chunk)),
            "0 inode gaveup badchunk 24 checksum\n",
        ),
        (
            gives_up(Unit::Rmap, Reason::Contradiction(fork)),
            "0 rmap gaveup badfork 195 order\n",
        ),
    ];
    expect_lines(&rt, rt.alloc(), &cases)
}

#[test]
fn marks_have_lines_and_changes_have_none(rt: HostRuntime) -> Result<(), Fail> {
    let bad = Cause::Block {
        block: 5,
        fault: BlockFault::Key,
    };
    let freed = Entry::Reaped(Extent {
        group: 0,
        block: 1,
        count: 2,
    });
    let cases = [
        (marked(Kind::Rmap, bad), "2 rmap marked block 5 key\n"),
        (marked(Kind::Bno, Cause::Owner), "2 bno marked owner\n"),
        (
            marked(Kind::Cnt, Cause::Short { have: 0, need: 2 }),
            "2 cnt marked short 0 2\n",
        ),
        (
            marked(Kind::Refc, Cause::Large(161)),
            "2 refc marked large 161\n",
        ),
        (freed, ""),
    ];
    expect_lines(&rt, rt.alloc(), &cases)
}
