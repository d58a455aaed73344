use crate::indexed::Indexed;
use fs_model::AnyRec;
use ino_recs::{FinoKind, InoKind, InoRec};
use rmap_recs::{RmapKind, RmapRec};
use span_recs::{BnoKind, CntKind, RefcKind, RefcRec, SpanRec};

impl Indexed for BnoKind {
    ghost use Rattle.xref_scrub.specs.Shown.{bno_shown};

    ghost shown = { bno_shown };

    fn any(rec: &SpanRec) -> AnyRec {
        AnyRec::Bno(*rec)
    }
}

impl Indexed for CntKind {
    ghost use Rattle.xref_scrub.specs.Shown.{cnt_shown};

    ghost shown = { cnt_shown };

    fn any(rec: &SpanRec) -> AnyRec {
        AnyRec::Cnt(*rec)
    }
}

impl Indexed for RmapKind {
    ghost use Rattle.xref_scrub.specs.Shown.{rmap_shown};

    ghost shown = { rmap_shown };

    fn any(rec: &RmapRec) -> AnyRec {
        AnyRec::Rmap(*rec)
    }
}

impl Indexed for RefcKind {
    ghost use Rattle.xref_scrub.specs.Shown.{refc_shown};

    ghost shown = { refc_shown };

    fn any(rec: &RefcRec) -> AnyRec {
        AnyRec::Refc(*rec)
    }
}

impl Indexed for InoKind {
    ghost use Rattle.xref_scrub.specs.Shown.{ino_shown};

    ghost shown = { ino_shown };

    fn any(rec: &InoRec) -> AnyRec {
        AnyRec::Ino(*rec)
    }
}

impl Indexed for FinoKind {
    ghost use Rattle.xref_scrub.specs.Shown.{fino_shown};

    ghost shown = { fino_shown };

    fn any(rec: &InoRec) -> AnyRec {
        AnyRec::Fino(*rec)
    }
}
