use ino_recs::InoRec;
use rmap_recs::RmapRec;
use span_recs::{RefcRec, SpanRec};

/// A record of a short-form btree, by the kind of its tree
/// (XFS Algorithms and Data Structures, "Allocation Groups").
#[derive(Clone, Copy, Debug, PartialEq, Eq)]
pub enum AnyRec {
    Bno(SpanRec),
    Cnt(SpanRec),
    Rmap(RmapRec),
    Refc(RefcRec),
    Ino(InoRec),
    Fino(InoRec),
}
