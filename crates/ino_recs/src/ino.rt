use crate::chunk::{
    InoKey, InoRec, blocks_of, first_block, is_chunk, is_whole, put_chunk, put_key, read_chunk,
    read_key,
};
use sblock::{Bounds, Kind, RecKind};

/// The btree of a group's inode chunks, ordered by their first inode. A chunk with holes is of a form
/// that isn't supported yet, and covers no block
/// (XFS Algorithms and Data Structures, "Inode B+trees").
pub struct InoKind {}

impl RecKind for InoKind {
    ghost use Rattle.ino_recs.specs.Chunks.{ino_form};
    ghost use Rattle.ino_recs.specs.ChunkLaws.{lawful_ino};

    type Rec = InoRec;

    type Key = InoKey;

    ghost form = { ino_form };

    ghost lawful = { lawful_ino };

    fn kind() -> Kind {
        Kind::Ino
    }

    fn record_at(area: &[u8], i: usize) -> InoRec {
        read_chunk(area, i)
    }

    fn put_record(area: &mut [u8], i: usize, rec: &InoRec) {
        put_chunk(area, i, rec);
    }

    fn key_at(area: &[u8], i: usize) -> InoKey {
        read_key(area, i)
    }

    fn high_key_at(area: &[u8], i: usize) -> InoKey {
        read_key(area, i)
    }

    #[tactic(auto, using(crate::proofs::ChunkLemmas::ino_same, crate::proofs::ChunkLemmas::ino_pointers_stay))]
    fn put_keys(area: &mut [u8], i: usize, low: &InoKey, _high: &InoKey) {
        put_key(area, i, low);
    }

    fn key_of(rec: &InoRec) -> InoKey {
        InoKey {
            startino: rec.startino,
        }
    }

    fn high_key_of(rec: &InoRec) -> InoKey {
        InoKey {
            startino: rec.startino,
        }
    }

    fn is_before(a: &InoKey, b: &InoKey) -> bool {
        a.startino < b.startino
    }

    fn is_in_range(rec: &InoRec, bounds: &Bounds) -> bool {
        is_chunk(rec, bounds)
    }

    fn is_supported(rec: &InoRec) -> bool {
        is_whole(rec)
    }

    fn is_written(_rec: &InoRec) -> bool {
        true
    }

    fn is_same(a: &InoRec, b: &InoRec) -> bool {
        a == b
    }

    fn block_of(key: &InoKey) -> u32 {
        first_block(key)
    }

    fn length_of(rec: &InoRec) -> u32 {
        blocks_of(rec)
    }
}
