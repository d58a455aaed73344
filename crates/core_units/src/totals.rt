// How many inodes chunks have.
ghost use Rattle.std.specs.Prelude.{◌≡◌, ◌<◌, ◌^◌, IsTrue, sum_by};
ghost use Rattle.quiet_check.specs.Faults.{low};

use ino_recs::InoRec;

// The inodes of chunks.
fn inodes_in(recs: &[InoRec]) -> u128
    ensures { result ≡ sum_by (λ r. r.count) recs.now }
{
    let mut total = 0u128;
    for rec in recs {
        total += u128::from(rec.count);
    }
    total
}

// Those that are free.
fn free_in(recs: &[InoRec]) -> u128
    ensures { result ≡ sum_by (λ r. r.freecount) recs.now }
{
    let mut total = 0u128;
    for rec in recs {
        total += u128::from(rec.freecount);
    }
    total
}

/// The inodes of chunks, as a number of 32 bits
/// (XFS Algorithms and Data Structures, "Inode Btrees").
pub fn total_count(recs: &[InoRec]) -> u32
    ensures { result ≡ low (sum_by (λ r. r.count) recs.now) }
{
    (inodes_in(recs) % (1 << 32)) as u32
}

/// Those that are free (XFS Algorithms and Data Structures, "Inode Btrees").
pub fn total_free(recs: &[InoRec]) -> u32
    ensures { result ≡ low (sum_by (λ r. r.freecount) recs.now) }
{
    (free_in(recs) % (1 << 32)) as u32
}

/// Whether a head has room for both numbers
/// (XFS Algorithms and Data Structures, "AG Inode Management").
pub fn do_totals_fit(recs: &[InoRec]) -> bool
    ensures count { IsTrue result → sum_by (λ r. r.count) recs.now < 2 ^ 32 }
    ensures free { IsTrue result → sum_by (λ r. r.freecount) recs.now < 2 ^ 32 }
{
    inodes_in(recs) < 1 << 32 && free_in(recs) < 1 << 32
}
