ghost use Rattle.kind_laws.specs.Laws.{WritesEach, CoversOne, BarsAsItMeets};
ghost use Rattle.span_recs.specs.Spans.{bno_form, cnt_form};
ghost use Rattle.span_recs.specs.Refcounts.{refc_form};
ghost use Rattle.rmap_recs.specs.Rmap.{rmap_form};
ghost use Rattle.ino_recs.specs.Chunks.{ino_form, fino_form};

/// A record of each of the six kinds is written as it stands, so that it is read again
/// (XFS Algorithms and Data Structures, "Short Format B+trees").
pub fn records_are_written()
    ensures bno { WritesEach bno_form }
    ensures cnt { WritesEach cnt_form }
    ensures rmap { WritesEach rmap_form }
    ensures refc { WritesEach refc_form }
    ensures ino { WritesEach ino_form }
    ensures fino { WritesEach fino_form }
{}

/// A record in range of free space, of reverse mappings or of reference counts covers one block at
/// least (XFS Algorithms and Data Structures, "AG Free Space B+trees").
pub fn records_cover_blocks()
    ensures bno { CoversOne bno_form }
    ensures cnt { CoversOne cnt_form }
    ensures rmap { CoversOne rmap_form }
    ensures refc { CoversOne refc_form }
{}

/// Of records in range exactly those can't be beside a new one that meet it: in the trees of free
/// space by start and of reference counts equal keys mean a common block, and in the others they are
/// what meets (XFS Algorithms and Data Structures, "Short Format B+trees").
pub fn bars_are_meets()
    ensures bno { BarsAsItMeets bno_form }
    ensures cnt { BarsAsItMeets cnt_form }
    ensures rmap { BarsAsItMeets rmap_form }
    ensures refc { BarsAsItMeets refc_form }
    ensures ino { BarsAsItMeets ino_form }
    ensures fino { BarsAsItMeets fino_form }
{}
