use ino_recs::{FinoKind, InoKind};
use rmap_recs::RmapKind;
use sblock::RecKind;
use span_recs::{BnoKind, RefcKind};

/// The kinds whose records are ordered by the blocks that they cover: all but free space by count.
/// The blocks are those from the record's key on: of a record of copy-on-write staging blocks from
/// 2^31 on, where no group has any; of a chunk of inodes with holes none
/// (XFS Algorithms and Data Structures, "Allocation Groups").
pub trait Covers: RecKind {
    ghost use Rattle.tree_cover.specs.Covers.{CoversBlocks};

    /// Later keys begin at later blocks, and each record in range covers some.
    ghost covers: { CoversBlocks Self.form };
}

impl Covers for RmapKind {
    ghost use Rattle.tree_cover.specs.KindLaws.{covers_rmap};

    ghost covers = { covers_rmap };
}

impl Covers for BnoKind {
    ghost use Rattle.tree_cover.specs.KindLaws.{covers_bno};

    ghost covers = { covers_bno };
}

impl Covers for RefcKind {
    ghost use Rattle.tree_cover.specs.KindLaws.{covers_refc};

    ghost covers = { covers_refc };
}

impl Covers for InoKind {
    ghost use Rattle.tree_cover.specs.KindLaws.{covers_ino};

    ghost covers = { covers_ino };
}

impl Covers for FinoKind {
    ghost use Rattle.tree_cover.specs.KindLaws.{covers_fino};

    ghost covers = { covers_fino };
}
