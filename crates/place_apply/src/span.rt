// The keys of the records of a block, or of what is below it.
ghost use Rattle.std.specs.Prelude.{◌≤◌};
ghost use Rattle.sblock.specs.Blocks.{numrecs};
ghost use Rattle.sblock.specs.Kinds.{leaf_most_of, node_most_of};
ghost use Rattle.place_plan.specs.Counts.{most_at};

use byte_fields::Block;
use sblock::{BlockFault, Bounds, RecKind, Span, count_of, data_area, join_spans, span_of_record};

// The keys of a leaf's records, which must be in range.
fn span_of_leaf<K: RecKind>(
    block: &Block,
    bounds: &Bounds,
) -> Result<Option<Span<K::Key>>, BlockFault>
    requires { numrecs block.now.bytes ≤ leaf_most_of K.form.kind }
{
    let area = data_area(block);
    let _length = bounds.length;
    let mut span = None;
    for i in 0..count_of(block) {
        let rec = K::record_at(area, usize::from(i));
        if !K::is_in_range(&rec, bounds) {
            return Err(BlockFault::Range);
        }
        span = join_spans::<K>(span, Some(span_of_record::<K>(&rec)));
    }
    Ok(span)
}

// The keys of what is below a node.
fn span_of_node<K: RecKind>(block: &Block) -> Option<Span<K::Key>>
    requires { numrecs block.now.bytes ≤ node_most_of K.form.kind }
{
    let area = data_area(block);
    let mut span = None;
    for i in 0..count_of(block) {
        let below = Span {
            low: K::key_at(area, usize::from(i)),
            high: K::high_key_at(area, usize::from(i)),
        };
        span = join_spans::<K>(span, Some(below));
    }
    span
}

// The keys that stand for a block of a level in the node above it.
pub(crate) fn span_of_block<K: RecKind>(
    block: &Block,
    level: u8,
    bounds: &Bounds,
) -> Result<Option<Span<K::Key>>, BlockFault>
    requires { numrecs block.now.bytes ≤ most_at K.form.kind level }
{
    if level == 0 {
        return span_of_leaf::<K>(block, bounds);
    }
    Ok(span_of_node::<K>(block))
}
