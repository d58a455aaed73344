ghost use Rattle.std.specs.Prelude.{◌≡◌, ◌+◌, ◌<◌, ◌≤◌, ℕ, length, slice_index, None};
ghost use Rattle.std.specs.List.{splice};
ghost use Rattle.byteorder.specs.Endian.{big_bytes};
ghost use Rattle.dinode_core.specs.Core.{core_fault, core_of};
ghost use Rattle.dinode_core.specs.Encoded.{kind_pieces, count_pieces, change_pieces, name_pieces, filled, encoded, IsSpare, KindsFit, CountsFit, ChangesFit, NamesFit};
ghost use Rattle.dinode_core.specs.Pieces.{with_pieces};

use crate::inode::{Core3, MAGIC, VERSION};
use byte_fields::{put_sum, put_u16, put_u32, put_u64, sum_at};

fn put_u8(bytes: &mut [u8], at: usize, value: u8)
    requires { at < length bytes.old }
    ensures { bytes.new ≡ splice bytes.old at (at + 1) (big_bytes 1 value) }
{
    bytes[at..at + 1].copy_from_slice(&[value]);
}

fn put_bytes<const N: usize>(bytes: &mut [u8], at: usize, piece: &[u8; N])
    requires { at + N ≤ length bytes.old }
    ensures { bytes.new ≡ splice bytes.old at (at + N) piece.now }
{
    bytes[at..at + N].copy_from_slice(piece);
}

#[tactic(auto, unfolding(crate::specs::Encoded::kind_pieces))]
fn put_kinds(core: &Core3, bytes: &mut [u8])
    requires { length bytes.old ≡ 512 }
    ensures bytes { bytes.new ≡ with_pieces (kind_pieces core.now) bytes.old }
    ensures fits { KindsFit core.now }
{
    put_u16(bytes, 0, MAGIC);
    put_u16(bytes, 2, core.mode);
    put_u8(bytes, 4, VERSION);
    put_u8(bytes, 5, core.format);
    put_u32(bytes, 8, core.uid);
    put_u32(bytes, 16, core.nlink);
}

#[tactic(auto, unfolding(crate::specs::Encoded::count_pieces))]
fn put_counts(core: &Core3, bytes: &mut [u8])
    requires { length bytes.old ≡ 512 }
    ensures bytes { bytes.new ≡ with_pieces (count_pieces core.now) bytes.old }
    ensures fits { CountsFit core.now }
{
    put_u64(bytes, 24, core.big_nextents);
    put_u64(bytes, 64, core.nblocks);
    put_u32(bytes, 76, core.nextents);
    put_u16(bytes, 80, core.anextents);
    put_u8(bytes, 82, core.forkoff);
    put_u8(bytes, 83, core.aformat);
}

#[tactic(auto, unfolding(crate::specs::Encoded::change_pieces))]
fn put_changes(core: &Core3, bytes: &mut [u8])
    requires { length bytes.old ≡ 512 }
    ensures bytes { bytes.new ≡ with_pieces (change_pieces core.now) bytes.old }
    ensures fits { ChangesFit core.now }
{
    put_u16(bytes, 90, core.flags);
    put_u32(bytes, 96, core.next_unlinked);
    put_u64(bytes, 104, core.changecount);
    put_u64(bytes, 112, core.lsn);
    put_u64(bytes, 120, core.flags2);
}

#[tactic(auto, unfolding(crate::specs::Encoded::name_pieces))]
fn put_names(core: &Core3, bytes: &mut [u8])
    requires { length bytes.old ≡ 512 }
    ensures bytes { bytes.new ≡ with_pieces (name_pieces core.now) bytes.old }
    ensures fits { NamesFit core.now }
{
    put_u64(bytes, 152, core.ino);
    put_bytes(bytes, 160, &core.uuid);
    put_bytes(bytes, 176, &core.literal);
}

// Every field but the checksum.
#[tactic(auto, using(crate::proofs::EncodedLemmas::filled_in_parts))]
fn put_fields(core: &Core3, bytes: &mut [u8])
    requires { length bytes.old ≡ 512 }
    ensures bytes { bytes.new ≡ filled core.now bytes.old }
    ensures kinds { KindsFit core.now }
    ensures counts { CountsFit core.now }
    ensures changes { ChangesFit core.now }
    ensures names { NamesFit core.now }
{
    put_kinds(core, bytes);
    put_counts(core, bytes);
    put_changes(core, bytes);
    put_names(core, bytes);
}

/// Writes a core over the 512 bytes of its inode: each field, the magic number, the version and the
/// checksum. The core that is read of them again is this one, and each byte that no field has stays
/// (XFS Algorithms and Data Structures, "On-disk Inode").
#[tactic(auto, unfolding(crate::specs::Encoded::encoded))]
pub fn encode_core(core: &Core3, bytes: &mut [u8])
    requires { length bytes.old ≡ 512 }
    ensures exact { bytes.new ≡ encoded core.now bytes.old }
    ensures sound { core_fault bytes.new core.now.ino core.now.uuid ≡ None }
    ensures again { core_of bytes.new ≡ core.now }
    ensures spare { (i : ℕ) → IsSpare core.now i → slice_index bytes.new i ≡ slice_index bytes.old i }
{
    put_fields(core, bytes);
    let sum = sum_at(bytes, 100);
    put_sum(bytes, 100, sum);
}

/// A core that was read, written over the bytes that it was read from, leaves them as they are.
/// (XFS Algorithms and Data Structures, "On-disk Inode".)
pub fn writes_back(bytes: &[u8], ino: u64, uuid: &[u8; 16])
    requires long { length bytes.now ≡ 512 }
    requires sound { core_fault bytes.now ino uuid.now ≡ None }
    ensures { encoded (core_of bytes.now) bytes.now ≡ bytes.now }
{}
