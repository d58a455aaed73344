ghost use Rattle.std.specs.Prelude.{◌≡◌, ◌≢◌, ◌<◌, ℕ, true, length};
ghost use Rattle.sblock.specs.Area.{child_of};
ghost use Rattle.sblock.specs.Form.{Form, IsLawful, same_key};
ghost use Rattle.sblock.specs.Kinds.{leaf_most_of, node_most_of, has_high_keys_of};

use crate::block::Bounds;
use crate::kind::Kind;

/// A kind of tree: its records and keys, how a block holds them, their order and their range.
/// An `area` is the 4,040 bytes of a block behind its header; records and entries are counted
/// from 0 (XFS Algorithms and Data Structures, "Short Format B+trees").
pub trait RecKind {
    /// Its records.
    type Rec: Copy;

    /// Its keys.
    type Key: Copy;

    /// What the kind means.
    ghost form: { Form Self.Rec Self.Key };

    /// Which kind it is.
    fn kind() -> Kind
        ensures { result ≡ form.kind };

    /// Record `i` of a leaf.
    fn record_at(area: &[u8], i: usize) -> Self::Rec
        requires whole { length area.now ≡ 4040 }
        requires room { i < leaf_most_of form.kind }
        ensures { result ≡ form.record_at area.now i };

    /// Writes record `i` of a leaf. A record that is written as it stands is read again, and the
    /// others stay.
    fn put_record(area: &mut [u8], i: usize, rec: &Self::Rec)
        requires whole { length area.old ≡ 4040 }
        requires room { i < leaf_most_of form.kind }
        ensures written { area.new ≡ form.with_record area.old i rec.now }
        ensures taken { form.is_written rec.now ≡ true → form.record_at area.new i ≡ rec.now }
        ensures others { (j : ℕ) → j < leaf_most_of form.kind → j ≢ i → form.record_at area.new j ≡ form.record_at area.old j };

    /// The key of entry `i` of a node: the least one of its subtree.
    fn key_at(area: &[u8], i: usize) -> Self::Key
        requires whole { length area.now ≡ 4040 }
        requires room { i < node_most_of form.kind }
        ensures { result ≡ form.key_at area.now i };

    /// The high key of entry `i` of a node: the greatest one of its subtree. A kind without high
    /// keys answers the key.
    fn high_key_at(area: &[u8], i: usize) -> Self::Key
        requires whole { length area.now ≡ 4040 }
        requires room { i < node_most_of form.kind }
        ensures { result ≡ form.high_key_at area.now i };

    /// Writes the keys of entry `i` of a node; a kind without high keys writes the low one alone.
    /// Keys that compare as equal are read again, and the other entries and all pointers stay.
    fn put_keys(area: &mut [u8], i: usize, low: &Self::Key, high: &Self::Key)
        requires whole { length area.old ≡ 4040 }
        requires room { i < node_most_of form.kind }
        ensures written { area.new ≡ form.with_keys area.old i low.now high.now }
        ensures taken { same_key form (form.key_at area.new i) low.now ≡ true }
        ensures high_taken { has_high_keys_of form.kind ≡ true → same_key form (form.high_key_at area.new i) high.now ≡ true }
        ensures others { (j : ℕ) → j < node_most_of form.kind → j ≢ i → form.key_at area.new j ≡ form.key_at area.old j }
        ensures high_others { (j : ℕ) → j < node_most_of form.kind → j ≢ i → form.high_key_at area.new j ≡ form.high_key_at area.old j }
        ensures pointers { (j : ℕ) → j < node_most_of form.kind → child_of form.kind area.new j ≡ child_of form.kind area.old j };

    /// The least key of a record.
    fn key_of(rec: &Self::Rec) -> Self::Key
        ensures { result ≡ form.key_of rec.now };

    /// The greatest key of a record; a kind without high keys answers its key. The condition is
    /// that the numbers of that key fit, as they do for a record in range.
    fn high_key_of(rec: &Self::Rec) -> Self::Key
        requires { form.has_end rec.now ≡ true }
        ensures { result ≡ form.high_key_of rec.now };

    /// Whether the first key comes before the second. Two keys are equal where neither does.
    fn is_before(a: &Self::Key, b: &Self::Key) -> bool
        ensures { result ≡ form.is_before a.now b.now };

    /// Whether the record's numbers are in range.
    fn is_in_range(rec: &Self::Rec, bounds: &Bounds) -> bool
        ensures { result ≡ form.is_in_range bounds.now rec.now };

    /// Whether the record is of a form that this program knows in full. A form that isn't
    /// supported yet has no range.
    fn is_supported(rec: &Self::Rec) -> bool
        ensures { result ≡ form.is_supported rec.now };

    /// Whether the record is written as it stands. One that isn't has bits that mean nothing, and
    /// they are read as the format wants them.
    fn is_written(rec: &Self::Rec) -> bool
        ensures { result ≡ form.is_written rec.now };

    /// Whether two records are one, in all their numbers.
    fn is_same(a: &Self::Rec, b: &Self::Rec) -> bool
        ensures { result ≡ form.is_same a.now b.now };

    /// The group-relative block at which the key begins.
    fn block_of(key: &Self::Key) -> u32
        ensures { result ≡ form.block_of key.now };

    /// How many blocks the record covers from the block of its key on; 0 for one that covers
    /// none.
    fn length_of(rec: &Self::Rec) -> u32
        ensures { result ≡ form.length_of rec.now };

    /// The order is one, high keys lie where they should, and pointers leave keys alone.
    ghost lawful: { IsLawful form };
}
