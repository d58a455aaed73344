ghost use Rattle.std.specs.Prelude.{◌≡◌, IfOk};
ghost use Rattle.sblock.specs.Blocks.{IsRising};
ghost use Rattle.span_recs.specs.Spans.{bno_form};
ghost use Rattle.derive_defs.specs.ByCount.{AreByCount, KeepInside, ordered_by_count};

use span_recs::SpanRec;
use std::alloc::{AllocError, Global};

/// The records of free space ordered by count, and of equal counts by start, as the btree by count
/// has them. Their condition is that they rise by start
/// (XFS Algorithms and Data Structures, "AG Free Space B+trees").
pub fn by_count(alloc: Global, free: &[SpanRec]) -> Result<Vec<SpanRec>, AllocError>
    requires rising { IsRising bno_form free.now }
    ensures value { IfOk result (λ recs. recs.items ≡ ordered_by_count free.now) }
    ensures exact { IfOk result (λ recs. AreByCount free.now recs.items) }
    ensures inside { IfOk result (λ recs. KeepInside free.now recs.items) }
{
    let mut sorted = Vec::from_slice(alloc, free)?;
    sorted.sort_by_key(|span| (span.count, span.start))?;
    Ok(sorted)
}
