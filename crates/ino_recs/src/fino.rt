use crate::chunk::{
    InoKey, InoRec, blocks_of, first_block, is_chunk, is_whole, put_chunk, put_key, read_chunk,
    read_key,
};
use sblock::{Bounds, Kind, RecKind};

/// The btree of the inode chunks in which some inode is free, in the form of the btree of all
/// chunks (XFS Algorithms and Data Structures, "Free Inode B+tree").
pub struct FinoKind {}

impl RecKind for FinoKind {
    ghost use Rattle.ino_recs.specs.Chunks.{fino_form};
    ghost use Rattle.ino_recs.specs.ChunkLaws.{lawful_fino};

    type Rec = InoRec;

    type Key = InoKey;

    ghost form = { fino_form };

    ghost lawful = { lawful_fino };

    fn kind() -> Kind {
        Kind::Fino
    }

    fn record_at(area: &[u8], i: usize) -> InoRec {
        read_chunk(area, i)
    }

    fn put_record(area: &mut [u8], i: usize, rec: &InoRec) {
        put_chunk(area, i, rec);
    }

    fn key_at(area: &[u8], i: usize) -> InoKey {
        read_key(area, i)
    }

    fn high_key_at(area: &[u8], i: usize) -> InoKey {
        read_key(area, i)
    }

    #[tactic(auto, using(crate::proofs::ChunkLemmas::fino_same, crate::proofs::ChunkLemmas::fino_pointers_stay))]
    fn put_keys(area: &mut [u8], i: usize, low: &InoKey, _high: &InoKey) {
        put_key(area, i, low);
    }

    fn key_of(rec: &InoRec) -> InoKey {
        InoKey {
            startino: rec.startino,
        }
    }

    fn high_key_of(rec: &InoRec) -> InoKey {
        InoKey {
            startino: rec.startino,
        }
    }

    fn is_before(a: &InoKey, b: &InoKey) -> bool {
        a.startino < b.startino
    }

    #[tactic(auto, unfolding(crate::specs::Chunks::is_fino_in_range))]
    fn is_in_range(rec: &InoRec, bounds: &Bounds) -> bool {
        is_chunk(rec, bounds) && rec.freecount != 0
    }

    fn is_supported(rec: &InoRec) -> bool {
        is_whole(rec)
    }

    fn is_written(_rec: &InoRec) -> bool {
        true
    }

    fn is_same(a: &InoRec, b: &InoRec) -> bool {
        a == b
    }

    fn block_of(key: &InoKey) -> u32 {
        first_block(key)
    }

    fn length_of(rec: &InoRec) -> u32 {
        blocks_of(rec)
    }
}
