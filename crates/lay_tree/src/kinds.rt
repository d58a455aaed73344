// The records of each kind from the numbers of a line.
use crate::given::{Row, narrow};
use ino_recs::{FinoKind, InoKind, InoRec};
use rmap_recs::{RmapKind, RmapRec};
use sblock::RecKind;
use span_recs::{BnoKind, CntKind, RefcKind, RefcRec, SpanRec};

/// A kind whose records are read from the numbers of a line.
pub trait Named: RecKind {
    /// The record of these numbers, each cut to what its field can have.
    fn rec_of(row: &Row) -> Self::Rec;
}

fn span_of(row: &Row) -> SpanRec {
    SpanRec {
        start: narrow(row[0]),
        count: narrow(row[1]),
    }
}

fn chunk_of(row: &Row) -> InoRec {
    InoRec {
        startino: narrow(row[0]),
        holemask: u16::try_from(row[1]).unwrap_or(u16::MAX),
        count: u8::try_from(row[2]).unwrap_or(u8::MAX),
        freecount: u8::try_from(row[3]).unwrap_or(u8::MAX),
        free: row[4],
    }
}

impl Named for BnoKind {
    fn rec_of(row: &Row) -> SpanRec {
        span_of(row)
    }
}

impl Named for CntKind {
    fn rec_of(row: &Row) -> SpanRec {
        span_of(row)
    }
}

impl Named for RmapKind {
    fn rec_of(row: &Row) -> RmapRec {
        RmapRec {
            start: narrow(row[0]),
            count: narrow(row[1]),
            owner: row[2],
            word: row[3],
        }
    }
}

impl Named for RefcKind {
    fn rec_of(row: &Row) -> RefcRec {
        RefcRec {
            start: narrow(row[0]),
            count: narrow(row[1]),
            refcount: narrow(row[2]),
        }
    }
}

impl Named for InoKind {
    fn rec_of(row: &Row) -> InoRec {
        chunk_of(row)
    }
}

impl Named for FinoKind {
    fn rec_of(row: &Row) -> InoRec {
        chunk_of(row)
    }
}
