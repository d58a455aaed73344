ghost use Rattle.std.specs.Prelude.{◌≡◌, ◌<◌, ◌^◌};
ghost use Rattle.sblock.specs.Blocks.{IsRising};
ghost use Rattle.span_recs.specs.Spans.{cnt_form};
ghost use Rattle.derive_defs.specs.ByCount.{greatest};
ghost use Rattle.derive_defs.specs.Free.{block_count};

use span_recs::SpanRec;

/// How many blocks the records of free space have together, which is what the head's number of free
/// blocks must be (XFS Algorithms and Data Structures, "AG Free Space Block").
pub fn free_blocks(free: &[SpanRec]) -> u32
    requires fits { block_count free.now < 2 ^ 32 }
    ensures { result ≡ block_count free.now }
{
    let mut blocks = 0;
    for span in free {
        blocks += span.count;
    }
    blocks
}

/// The greatest count of these records, which is what the head's longest run must be: 0 where there
/// is none. Their condition is that they are in the order of the btree by count
/// (XFS Algorithms and Data Structures, "AG Free Space Block").
pub fn longest(by_count: &[SpanRec]) -> u32
    requires { IsRising cnt_form by_count.now }
    ensures { result ≡ greatest by_count.now }
{
    match by_count {
        [] => 0,
        // In the order by count the last record is the longest run.
        [.., last] => last.count,
    }
}
