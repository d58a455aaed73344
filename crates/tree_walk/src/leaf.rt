ghost use Rattle.std.specs.Prelude.{◌≡◌, ◌≤◌, true, IfOk, IfErr, OnOk};
ghost use Rattle.sblock.specs.Blocks.{numrecs, records_of, AllInside};
ghost use Rattle.sblock.specs.Kinds.{leaf_most_of};
ghost use Rattle.sblock.specs.Spans.{span_of, span_of_one};
ghost use Rattle.tree_defs.specs.Tree.{with_recs};
ghost use Rattle.tree_blocks.specs.Meets.{IsMemory};
ghost use Rattle.tree_walk.specs.Trails.{trail_of};

use crate::seen::Seen;
use byte_fields::Block;
use sblock::{Bounds, RecKind, Span, count_of, data_area, join_spans, span_of_record};
use tree_blocks::WalkFault;

// The keys of a record in range.
fn span_in_range<K: RecKind>(rec: &K::Rec, bounds: &Bounds) -> Span<K::Key>
    requires { K.form.is_in_range bounds.now rec.now ≡ true }
    ensures { result ≡ span_of_one K.form rec.now }
{
    let _length = bounds.length;
    span_of_record::<K>(rec)
}

/// Takes the records of a leaf, and answers their keys.
pub fn take_leaf<K: RecKind>(
    block: &Block,
    bounds: &Bounds,
    seen: &mut Seen<K::Rec>,
) -> Result<Option<Span<K::Key>>, WalkFault>
    requires room { numrecs block.now.bytes ≤ leaf_most_of K.form.kind }
    requires inside { AllInside K.form bounds.now (records_of K.form block.now.bytes) }
    ensures span { IfOk result (λ span. span ≡ span_of K.form (records_of K.form block.now.bytes)) }
    ensures trail { OnOk result (trail_of seen.new ≡ with_recs (trail_of seen.old) (records_of K.form block.now.bytes)) }
    ensures memory { IfErr result IsMemory }
    ensures blocks { seen.new.blocks.items ≡ seen.old.blocks.items }
{
    let area = data_area(block);
    let mut span = None;
    for i in 0..count_of(block) {
        let rec = K::record_at(area, i as usize);
        span = join_spans::<K>(span, Some(span_in_range::<K>(&rec, bounds)));
        seen.recs.push(rec)?;
    }
    Ok(span)
}
