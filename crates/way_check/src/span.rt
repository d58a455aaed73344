// The keys of a block, by its own records or entries.
ghost use Rattle.std.specs.Prelude.{◌≡◌, ◌≤◌, ℕ, suc, Some};
ghost use Rattle.sblock.specs.Blocks.{numrecs, records_of};
ghost use Rattle.sblock.specs.Kinds.{leaf_most_of, node_most_of};
ghost use Rattle.sblock.specs.Spans.{span_of};
ghost use Rattle.sblock.specs.declared.spans.Span.{Span as GhostSpan};
ghost use Rattle.place_plan.specs.Counts.{most_at};
ghost use Rattle.way_check.specs.Way.{block_span};

use byte_fields::Block;
use sblock::{Bounds, RecKind, Span, count_of, data_area, join_spans, span_of_record};

// The keys of a leaf's records; none where one isn't in range.
fn span_of_leaf<K: RecKind>(block: &Block, bounds: &Bounds) -> Option<Span<K::Key>>
    requires { numrecs block.now.bytes ≤ leaf_most_of K.form.kind }
    ensures { (s : GhostSpan K.Key) → result ≡ Some s → block_span K.form 0 block.now.bytes ≡ Some s }
{
    let area = data_area(block);
    let _length = bounds.length;
    let mut span = None;
    for i in 0..usize::from(count_of(block)) {
        let rec = K::record_at(area, i);
        if !K::is_in_range(&rec, bounds) {
            return None;
        }
        span = join_spans::<K>(span, Some(span_of_record::<K>(&rec)));
    }
    span
}

// The keys of a node's entries.
fn span_of_node<K: RecKind>(block: &Block) -> Option<Span<K::Key>>
    requires { numrecs block.now.bytes ≤ node_most_of K.form.kind }
    ensures { (level : ℕ) (s : GhostSpan K.Key) → result ≡ Some s → block_span K.form (suc level) block.now.bytes ≡ Some s }
{
    let area = data_area(block);
    let mut span = None;
    for i in 0..usize::from(count_of(block)) {
        let below = Span {
            low: K::key_at(area, i),
            high: K::high_key_at(area, i),
        };
        span = join_spans::<K>(span, Some(below));
    }
    span
}

// The keys of a block of a level.
pub(crate) fn span_of_block<K: RecKind>(
    block: &Block,
    level: u8,
    bounds: &Bounds,
) -> Option<Span<K::Key>>
    requires { numrecs block.now.bytes ≤ most_at K.form.kind level }
    ensures { (s : GhostSpan K.Key) → result ≡ Some s → block_span K.form level block.now.bytes ≡ Some s }
{
    if level == 0 {
        return span_of_leaf::<K>(block, bounds);
    }
    span_of_node::<K>(block)
}
