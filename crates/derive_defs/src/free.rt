ghost use Rattle.std.specs.Prelude.{◌≡◌, ◌≤◌, IfOk};
ghost use Rattle.sblock.specs.Blocks.{IsRising};
ghost use Rattle.span_recs.specs.Spans.{bno_form};
ghost use Rattle.derive_defs.specs.Mappings.{StartsRise, EndWithin};
ghost use Rattle.derive_defs.specs.Free.{AreFree, LieInside, block_count, free_space};

use rmap_recs::RmapRec;
use span_recs::SpanRec;
use std::alloc::{AllocError, Global};

/// The free space of a group of `length` blocks: the maximal runs of blocks that lie in none of the
/// records of its reverse mapping btree, in the order of their blocks, all group-relative. Records
/// may overlap, and one of no block covers none
/// (XFS Online Fsck Design, "Case Study: Rebuilding the Free Space Indices").
pub fn free_of(alloc: Global, length: u32, mappings: &[RmapRec]) -> Result<Vec<SpanRec>, AllocError>
    requires rising { StartsRise mappings.now }
    requires within { EndWithin length mappings.now }
    ensures value { IfOk result (λ free. free.items ≡ free_space length mappings.now) }
    ensures exact { IfOk result (λ free. AreFree length mappings.now free.items) }
    ensures rising { IfOk result (λ free. IsRising bno_form free.items) }
    ensures inside { IfOk result (λ free. LieInside length mappings.now free.items) }
    ensures fits { IfOk result (λ free. block_count free.items ≤ length) }
{
    let mut free = Vec::new(alloc);
    let mut from = 0;
    for mapping in mappings {
        // Records in range have a block at least, but the conditions ask for order and ends alone.
        if mapping.count == 0 {
            continue;
        }
        if from < mapping.start {
            free.push(SpanRec {
                start: from,
                count: mapping.start - from,
            })?;
        }
        from = from.max(mapping.start + mapping.count);
    }
    if from < length {
        free.push(SpanRec {
            start: from,
            count: length - from,
        })?;
    }
    Ok(free)
}
