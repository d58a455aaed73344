ghost use Rattle.std.specs.Prelude.{◌≡◌, ◌<◌, ◌≤◌, ◌+◌, ◌^◌, ◌⊎◌, ◌&&◌, ℕ, Bool, IfSome, IfNone, find, min, nat_le};
ghost use Rattle.free_space.specs.Spans.{IsAlignedIn, IsInside, before_in, behind_in, count_in, does_meet, front_of, start_in};

use span_recs::SpanRec;

/// The greatest number of blocks of one mapping, which has 21 bits for it
/// (XFS Algorithms and Data Structures, "Extent List").
pub const MOST_MAPPED: u32 = 2_097_151;

/// The blocks of a chunk of 64 inodes; a new chunk begins at a multiple of it
/// (XFS Algorithms and Data Structures, "Inode Allocation").
pub const CHUNK_BLOCKS: u32 = 8;

/// What of a record isn't a run's: the blocks before it and the blocks behind it, in the group.
#[derive(Clone, Copy, Debug, PartialEq, Eq)]
pub struct Rest {
    pub before: Option<SpanRec>,
    pub behind: Option<SpanRec>,
}

/// How many blocks are looked for where `count` are asked for: one mapping's at most
/// (XFS Algorithms and Data Structures, "Extent List").
pub fn wanted_count(count: u32) -> u32
    ensures { result ≡ min count MOST_MAPPED }
{
    count.min(MOST_MAPPED)
}

/// The first of the records, which are given by count, with at least `wanted` blocks; None where
/// each has fewer (XFS Algorithms and Data Structures, "AG Free Space B+trees").
pub fn first_fit(recs: &[SpanRec], wanted: u32) -> Option<SpanRec>
    ensures { result ≡ find (λ r. nat_le wanted r.count) recs.now }
{
    let mut rest = recs;
    while let Some((first, later)) = rest.split_first() {
        if wanted <= first.count {
            return Some(*first);
        }
        rest = later;
    }
    None
}

/// The front of a record: its first `wanted` blocks, or all where it has fewer
/// (XFS Algorithms and Data Structures, "AG Free Space B+trees").
pub fn front(rec: &SpanRec, wanted: u32) -> SpanRec
    ensures { result ≡ front_of rec.now wanted }
{
    SpanRec {
        start: rec.start,
        count: rec.count.min(wanted),
    }
}

// What of the record lies before the run.
fn before(rec: &SpanRec, run: &SpanRec) -> Option<SpanRec>
    ensures { result ≡ before_in rec.now run.now }
{
    if rec.start < run.start {
        return Some(SpanRec {
            start: rec.start,
            count: run.start - rec.start,
        });
    }
    None
}

// And behind it.
fn behind(rec: &SpanRec, run: &SpanRec) -> Option<SpanRec>
    requires inside { IsInside run.now rec.now }
    requires end { rec.now.start + rec.now.count < 2 ^ 32 }
    ensures { result ≡ behind_in rec.now run.now }
{
    let end = run.start + run.count;
    let whole = rec.start + rec.count;
    if end < whole {
        return Some(SpanRec {
            start: end,
            count: whole - end,
        });
    }
    None
}

/// What is left of a record of free space once a run inside it is taken
/// (XFS Algorithms and Data Structures, "AG Free Space B+trees").
pub fn rest_of(rec: &SpanRec, run: &SpanRec) -> Rest
    requires inside { IsInside run.now rec.now }
    requires end { rec.now.start + rec.now.count < 2 ^ 32 }
    ensures { result ≡ record { before = before_in rec.now run.now; behind = behind_in rec.now run.now } }
{
    Rest {
        before: before(rec, run),
        behind: behind(rec, run),
    }
}

// The run with the record that ends where it begins.
fn with_before(before: Option<SpanRec>, run: &SpanRec) -> SpanRec
    requires { count_in before + run.now.count < 2 ^ 32 }
    ensures { result ≡ record { start = start_in before run.now; count = count_in before + run.now.count } }
{
    match before {
        Some(rec) => SpanRec {
            start: rec.start,
            count: rec.count + run.count,
        },
        None => *run,
    }
}

/// A run that becomes free, as one record with the record that ends where it begins and the one that
/// begins where it ends (XFS Algorithms and Data Structures, "AG Free Space B+trees").
pub fn joined(before: Option<SpanRec>, run: &SpanRec, behind: Option<SpanRec>) -> SpanRec
    requires meet { does_meet before run.now behind }
    requires fits { count_in before + run.now.count + count_in behind < 2 ^ 32 }
    ensures { result ≡ record { start = start_in before run.now; count = count_in before + run.now.count + count_in behind } }
{
    let whole = with_before(before, run);
    match behind {
        Some(rec) => SpanRec {
            start: whole.start,
            count: whole.count + rec.count,
        },
        None => whole,
    }
}

/// The lowest block of a record at which a chunk of inodes fits: a multiple of 8, with 8 blocks of
/// the record from there on; None exactly where there is none. The record ends in its group
/// (XFS Algorithms and Data Structures, "Inode Allocation").
pub fn aligned_run(rec: &SpanRec) -> Option<u32>
    requires { rec.now.start + rec.now.count < 2 ^ 32 }
    ensures found { IfSome result (λ b. IsAlignedIn rec.now b) }
    ensures lowest { IfSome result (λ b. (k : ℕ) → IsAlignedIn rec.now k → b ≤ k) }
    ensures none { (k : ℕ) → IfNone result (IsAlignedIn rec.now k → ⊥) }
{
    let over = rec.start % CHUNK_BLOCKS;
    let skipped = if over == 0 { 0 } else { CHUNK_BLOCKS - over };
    if rec.count < skipped || rec.count - skipped < CHUNK_BLOCKS {
        return None;
    }
    Some(rec.start + skipped)
}
