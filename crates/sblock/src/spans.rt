ghost use Rattle.std.specs.Prelude.{◌≡◌, true, All};
ghost use Rattle.sblock.specs.Spans.{join, span_of_one, span_of, span_over};

use crate::rec_kind::RecKind;

/// The keys that stand for some records in the node above them: the least and the greatest
/// (XFS Algorithms and Data Structures, "Reverse-Mapping B+tree"). A kind without high keys has
/// there only the first.
#[derive(Clone, Copy, Debug, PartialEq, Eq)]
pub struct Span<K> {
    pub low: K,
    pub high: K,
}

/// The keys of one record, whose greatest key has numbers that fit, as those of a record in range
/// do.
pub fn span_of_record<K: RecKind>(rec: &K::Rec) -> Span<K::Key>
    requires { K.form.has_end rec.now ≡ true }
    ensures { result ≡ span_of_one K.form rec.now }
{
    Span {
        low: K::key_of(rec),
        high: K::high_key_of(rec),
    }
}

fn join_two<K: RecKind>(a: Span<K::Key>, b: Span<K::Key>) -> Option<Span<K::Key>>
    ensures { result ≡ join K.form (Some a) (Some b) }
{
    let high = if K::is_before(&a.high, &b.high) {
        b.high
    } else {
        a.high
    };
    Some(Span { low: a.low, high })
}

/// The keys of two parts, one behind the other; a part without records has none.
pub fn join_spans<K: RecKind>(
    a: Option<Span<K::Key>>,
    b: Option<Span<K::Key>>,
) -> Option<Span<K::Key>>
    ensures { result ≡ join K.form a b }
{
    match (a, b) {
        (None, b) => b,
        (Some(a), None) => Some(a),
        (Some(a), Some(b)) => join_two::<K>(a, b),
    }
}

/// The keys of a leaf's records in their order; none of no records.
#[tactic(auto, using(crate::proofs::SpanLemmas::record_taken), unfolding(crate::specs::Spans::span_of))]
pub fn span_of_records<K: RecKind>(recs: &[K::Rec]) -> Option<Span<K::Key>>
    requires { All (λ r. K.form.has_end r ≡ true) recs.now }
    ensures { result ≡ span_of K.form recs.now }
{
    let mut span = None;
    for rec in recs {
        span = join_spans::<K>(span, Some(span_of_record::<K>(rec)));
    }
    span
}

/// The keys of a node from those of its subtrees in their order; none of no subtrees.
#[tactic(auto, using(crate::proofs::SpanLemmas::subtree_taken), unfolding(crate::specs::Spans::span_over))]
pub fn span_of_subtrees<K: RecKind>(spans: &[Span<K::Key>]) -> Option<Span<K::Key>>
    ensures { result ≡ span_over K.form spans.now }
{
    let mut span = None;
    for below in spans {
        span = join_spans::<K>(span, Some(*below));
    }
    span
}
