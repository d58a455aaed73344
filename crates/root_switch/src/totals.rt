ghost use Rattle.std.specs.Prelude.{◌≡◌, ◌<◌, ◌≤◌, ◌+◌, ◌^◌, sum_by, reverse, length};
ghost use Rattle.root_switch.specs.Totals.{beside_roots, last_count};

use ino_recs::InoRec;
use span_recs::SpanRec;

/// The counters of a group's free space: its free blocks, and those of its longest run
/// (`agf_freeblks`, `agf_longest`).
#[derive(Clone, Copy, Debug, PartialEq, Eq)]
pub struct SpaceTotals {
    pub freeblks: u32,
    pub longest: u32,
}

/// The counters of a group's inodes: those of its chunks, and the free ones among them
/// (`agi_count`, `agi_freecount`).
#[derive(Clone, Copy, Debug, PartialEq, Eq)]
pub struct InodeTotals {
    pub count: u32,
    pub freecount: u32,
}

// How many blocks the last record has.
fn last_count_of(recs: &[SpanRec]) -> u32
    ensures { result ≡ last_count recs.now }
{
    match recs.last().copied() {
        Some(rec) => rec.count,
        None => 0,
    }
}

/// The counters of free space, of its records by count: the last one is the longest, and none has
/// 0 (XFS Algorithms and Data Structures, "AG Free Space Block").
pub fn space_totals(recs: &[SpanRec]) -> SpaceTotals
    requires { sum_by (λ r. r.count) recs.now < 2 ^ 32 }
    ensures freeblks { result.freeblks ≡ sum_by (λ r. r.count) recs.now }
    ensures longest { result.longest ≡ last_count recs.now }
{
    SpaceTotals {
        freeblks: recs.iter().map(|r| r.count).sum(),
        longest: last_count_of(recs),
    }
}

/// The counters of inodes, of the records of all chunks
/// (XFS Algorithms and Data Structures, "AG Inode Management").
pub fn inode_totals(recs: &[InoRec]) -> InodeTotals
    requires count { sum_by (λ r. r.count) recs.now < 2 ^ 32 }
    requires freecount { sum_by (λ r. r.freecount) recs.now < 2 ^ 32 }
    ensures count { result.count ≡ sum_by (λ r. r.count) recs.now }
    ensures freecount { result.freecount ≡ sum_by (λ r. r.freecount) recs.now }
{
    InodeTotals {
        count: recs.iter().map(|r| u32::from(r.count)).sum(),
        freecount: recs.iter().map(|r| u32::from(r.freecount)).sum(),
    }
}

/// The blocks of the btrees of free space and reverse mappings without their roots, of the numbers
/// of all their blocks (`agf_btreeblks`).
pub fn blocks_beside_roots(bno: u32, cnt: u32, rmap: u32) -> u32
    requires bno { 0 < bno }
    requires cnt { 0 < cnt }
    requires rmap { 0 < rmap }
    requires fits { bno + cnt + rmap < 2 ^ 32 }
    ensures { result ≡ beside_roots bno cnt rmap }
{
    (bno - 1) + (cnt - 1) + (rmap - 1)
}
