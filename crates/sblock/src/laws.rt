ghost use Rattle.sblock.specs.Meets.{SharesABlock};
ghost use Rattle.sblock.specs.Spans.{SpansJoin, NodeSpansJoin};

use crate::rec_kind::RecKind;

/// A law: the keys of two lists of records, one behind the other, are those of both, joined.
pub fn spans_join<K: RecKind>()
    ensures { SpansJoin K.form }
{}

/// A law: so are the keys of two lists of subtrees.
pub fn node_spans_join<K: RecKind>()
    ensures { NodeSpansJoin K.form }
{}

/// A law: two records share a block exactly where some block is covered by both.
pub fn shares_a_block<K: RecKind>()
    ensures { SharesABlock K.form }
{}
