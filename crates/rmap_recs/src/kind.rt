ghost use Rattle.std.specs.Prelude.{◌≡◌, ◌+◌, ◌<◌, ◌≤◌, ◌/◌, ◌%◌, ◌^◌, true, length};
ghost use Rattle.rmap_recs.specs.Rmap.{rec_in, with_rec, key_in, with_key, cleared, has_end, offset_growth as offset_growth_of, is_in_group as is_in_group_of, has_place as has_place_of, is_owner_right as is_owner_right_of};

use crate::owner::{OWN_FS, is_inode};
use crate::records::{Key, RmapRec};
use crate::words::{is_fork_data, is_word_right, key_bits};
use byte_fields::{get_u32, get_u64, put_u32, put_u64};
use sblock::{Bounds, Kind, RecKind};

#[tactic(auto, unfolding(crate::specs::Rmap::rec_in))]
fn get_rec(area: &[u8], place: usize) -> RmapRec
    requires { place + 24 ≤ length area.now }
    ensures { result ≡ rec_in area.now place }
{
    RmapRec {
        start: get_u32(area, place),
        count: get_u32(area, place + 4),
        owner: get_u64(area, place + 8),
        word: get_u64(area, place + 16),
    }
}

#[tactic(auto, unfolding(crate::specs::Rmap::with_rec))]
fn put_rec(area: &mut [u8], place: usize, rec: &RmapRec)
    requires { place + 24 ≤ length area.old }
    ensures { area.new ≡ with_rec area.old place rec.now }
{
    put_u32(area, place, rec.start);
    put_u32(area, place + 4, rec.count);
    put_u64(area, place + 8, rec.owner);
    put_u64(area, place + 16, rec.word);
}

#[tactic(auto, unfolding(crate::specs::Rmap::key_in))]
fn get_key(area: &[u8], place: usize) -> Key
    requires { place + 20 ≤ length area.now }
    ensures { result ≡ key_in area.now place }
{
    Key {
        start: get_u32(area, place),
        owner: get_u64(area, place + 4),
        word: key_bits(get_u64(area, place + 12)),
    }
}

#[tactic(auto, using(crate::proofs::PlaceLemmas::key_in_taken), unfolding(crate::specs::Rmap::with_key))]
fn put_key(area: &mut [u8], place: usize, key: &Key)
    requires { place + 20 ≤ length area.old }
    ensures written { area.new ≡ with_key area.old place key.now }
    ensures taken { key_in area.new place ≡ cleared key.now }
{
    put_u32(area, place, key.start);
    put_u64(area, place + 4, key.owner);
    put_u64(area, place + 12, key_bits(key.word));
}

// How far the offset of a record's last block is above the first one's.
#[tactic(auto, using(crate::proofs::EndLemmas::some_blocks, crate::proofs::EndLemmas::last_word))]
fn offset_growth(rec: &RmapRec) -> u32
    requires { has_end rec.now ≡ true }
    ensures growth { result ≡ offset_growth_of rec.now }
    ensures fits { rec.now.word + result < 2 ^ 64 }
{
    if is_fork_data(rec.owner, rec.word) {
        return rec.count - 1;
    }
    0
}

// Whether these are blocks, at least one, that all lie in the group.
fn is_in_group(start: u32, count: u32, bounds: &Bounds) -> bool
    ensures { result ≡ is_in_group_of bounds.now start count }
{
    count >= 1 && u64::from(start) + u64::from(count) <= u64::from(bounds.length)
}

// The group of a file system block number and the block in it, whether they exist or not.
#[tactic(auto, using(std::proofs::lemmas::Nat::one_shl, crate::proofs::WordLemmas::no_group, crate::proofs::WordLemmas::same_block))]
fn split(fs_block: u64, agblklog: u8) -> (u64, u64)
    ensures group { result.0 ≡ fs_block / 2 ^ agblklog }
    ensures block { result.1 ≡ fs_block % 2 ^ agblklog }
{
    if agblklog >= 64 {
        return (0, fs_block);
    }
    let room = 1u64 << agblklog;
    (fs_block / room, fs_block % room)
}

// Whether the block that an inode of this number lies in exists.
#[tactic(auto, unfolding(crate::specs::Rmap::has_place))]
fn has_place(bounds: &Bounds, ino: u64) -> bool
    ensures { result ≡ has_place_of bounds.now ino }
{
    let (group, block) = split(ino / 8, bounds.agblklog);
    let len = if group + 1 == u64::from(bounds.agcount) {
        bounds.last
    } else {
        bounds.agblocks
    };
    group < u64::from(bounds.agcount) && block < u64::from(len)
}

// Whether the owner is one, and the word fits it.
#[tactic(auto, unfolding(crate::specs::Rmap::is_owner_right))]
fn is_owner_right(bounds: &Bounds, rec: &RmapRec) -> bool
    ensures { result ≡ is_owner_right_of bounds.now rec.now }
{
    if is_inode(rec.owner) {
        return has_place(bounds, rec.owner) && is_word_right(rec.count, rec.word);
    }
    rec.owner <= OWN_FS && rec.word == 0
}

/// The reverse mapping btree: ordered by start, owner and offset word, and with high keys, since
/// the blocks of its records may overlap
/// (XFS Algorithms and Data Structures, "Reverse-Mapping B+tree").
pub struct RmapKind {}

impl RecKind for RmapKind {
    ghost use Rattle.rmap_recs.specs.Rmap.{rmap_form};
    ghost use Rattle.rmap_recs.specs.RmapLaws.{lawful_rmap};

    type Rec = RmapRec;

    type Key = Key;

    ghost form = { rmap_form };

    ghost lawful = { lawful_rmap };

    fn kind() -> Kind {
        Kind::Rmap
    }

    fn record_at(area: &[u8], i: usize) -> RmapRec {
        get_rec(area, 24 * i)
    }

    #[tactic(auto, using(crate::proofs::PlaceLemmas::rec_taken, crate::proofs::PlaceLemmas::rec_others))]
    fn put_record(area: &mut [u8], i: usize, rec: &RmapRec) {
        put_rec(area, 24 * i, rec);
    }

    fn key_at(area: &[u8], i: usize) -> Key {
        get_key(area, 40 * i)
    }

    fn high_key_at(area: &[u8], i: usize) -> Key {
        get_key(area, 40 * i + 20)
    }

    #[tactic(auto, using(crate::proofs::PlaceLemmas::key_length))]
    fn put_keys(area: &mut [u8], i: usize, low: &Key, high: &Key) {
        put_key(area, 40 * i, low);
        put_key(area, 40 * i + 20, high);
    }

    fn key_of(rec: &RmapRec) -> Key {
        Key {
            start: rec.start,
            owner: rec.owner,
            word: key_bits(rec.word),
        }
    }

    #[tactic(auto, using(crate::proofs::EndLemmas::some_blocks, crate::proofs::EndLemmas::last_block))]
    fn high_key_of(rec: &RmapRec) -> Key {
        Key {
            start: rec.start + (rec.count - 1),
            owner: rec.owner,
            word: key_bits(rec.word + u64::from(offset_growth(rec))),
        }
    }

    #[tactic(auto, unfolding(crate::specs::Rmap::is_key_before))]
    fn is_before(a: &Key, b: &Key) -> bool {
        if a.start != b.start {
            return a.start < b.start;
        }
        if a.owner != b.owner {
            return a.owner < b.owner;
        }
        key_bits(a.word) < key_bits(b.word)
    }

    fn is_in_range(rec: &RmapRec, bounds: &Bounds) -> bool {
        is_in_group(rec.start, rec.count, bounds) && is_owner_right(bounds, rec)
    }

    fn is_supported(_rec: &RmapRec) -> bool {
        true
    }

    fn is_written(_rec: &RmapRec) -> bool {
        true
    }

    fn is_same(a: &RmapRec, b: &RmapRec) -> bool {
        a == b
    }

    fn block_of(key: &Key) -> u32 {
        key.start
    }

    fn length_of(rec: &RmapRec) -> u32 {
        rec.count
    }
}
