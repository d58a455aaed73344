ghost use Rattle.std.specs.Prelude.{◌≡◌, length, take, drop, Some, None, IfOk};
ghost use Rattle.byte_fields.specs.FirstFailing.{Decodes};
ghost use Rattle.dinode_core.specs.Core.{core_fault, core_of};
ghost use Rattle.dinode_core.specs.Parts.{kinds_of, counts_of, changes_of};

use crate::inode::{Core3, CoreFault, MAGIC, VERSION};
use byte_fields::{get_u16, get_u32, get_u64, is_summed, is_uuid_at};

// What the inode is and whose.
#[derive(Clone, Copy)]
struct Kinds {
    mode: u16,
    format: u8,
    uid: u32,
    nlink: u32,
    flags: u16,
    next_unlinked: u32,
}

// How much it has, and where its attribute fork begins.
#[derive(Clone, Copy)]
struct Counts {
    big_nextents: u64,
    nblocks: u64,
    nextents: u32,
    anextents: u16,
    forkoff: u8,
    aformat: u8,
}

// When it changed, and its name.
#[derive(Clone, Copy)]
struct Changes {
    changecount: u64,
    lsn: u64,
    flags2: u64,
    ino: u64,
}

#[tactic(auto, unfolding(crate::specs::Parts::kinds_of))]
fn kinds_in(bytes: &[u8]) -> Kinds
    requires { length bytes.now ≡ 512 }
    ensures { result ≡ kinds_of bytes.now }
{
    Kinds {
        mode: get_u16(bytes, 2),
        format: bytes[5],
        uid: get_u32(bytes, 8),
        nlink: get_u32(bytes, 16),
        flags: get_u16(bytes, 90),
        next_unlinked: get_u32(bytes, 96),
    }
}

#[tactic(auto, unfolding(crate::specs::Parts::counts_of))]
fn counts_in(bytes: &[u8]) -> Counts
    requires { length bytes.now ≡ 512 }
    ensures { result ≡ counts_of bytes.now }
{
    Counts {
        big_nextents: get_u64(bytes, 24),
        nblocks: get_u64(bytes, 64),
        nextents: get_u32(bytes, 76),
        anextents: get_u16(bytes, 80),
        forkoff: bytes[82],
        aformat: bytes[83],
    }
}

#[tactic(auto, unfolding(crate::specs::Parts::changes_of))]
fn changes_in(bytes: &[u8]) -> Changes
    requires { length bytes.now ≡ 512 }
    ensures { result ≡ changes_of bytes.now }
{
    Changes {
        changecount: get_u64(bytes, 104),
        lsn: get_u64(bytes, 112),
        flags2: get_u64(bytes, 120),
        ino: get_u64(bytes, 152),
    }
}

fn uuid_in(bytes: &[u8]) -> [u8; 16]
    requires { length bytes.now ≡ 512 }
    ensures { result ≡ take 16 (drop 160 bytes.now) }
{
    let (_, rest) = bytes.split_at(160);
    let Some(uuid) = rest.first_chunk::<16>() else {
        unreachable!();
    };
    *uuid
}

fn literal_in(bytes: &[u8]) -> [u8; 336]
    requires { length bytes.now ≡ 512 }
    ensures { result ≡ take 336 (drop 176 bytes.now) }
{
    let (_, rest) = bytes.split_at(176);
    let Some(literal) = rest.first_chunk::<336>() else {
        unreachable!();
    };
    *literal
}

/// What the fields of an inode's 512 bytes say, whatever they are: nothing is tested. It is for a core that
/// was verified before, as by [`decode_core`] (XFS Algorithms and Data Structures, "On-disk Inode").
#[tactic(auto, unfolding(crate::specs::Core::core_of, crate::specs::Parts::kinds_of, crate::specs::Parts::counts_of, crate::specs::Parts::changes_of))]
pub fn read_core(bytes: &[u8]) -> Core3
    requires { length bytes.now ≡ 512 }
    ensures { result ≡ core_of bytes.now }
{
    let kinds = kinds_in(bytes);
    let counts = counts_in(bytes);
    let changes = changes_in(bytes);
    let uuid = uuid_in(bytes);
    let literal = literal_in(bytes);
    Core3 {
        mode: kinds.mode,
        format: kinds.format,
        uid: kinds.uid,
        nlink: kinds.nlink,
        big_nextents: counts.big_nextents,
        nblocks: counts.nblocks,
        nextents: counts.nextents,
        anextents: counts.anextents,
        forkoff: counts.forkoff,
        aformat: counts.aformat,
        flags: kinds.flags,
        next_unlinked: kinds.next_unlinked,
        changecount: changes.changecount,
        lsn: changes.lsn,
        flags2: changes.flags2,
        ino: changes.ino,
        uuid,
        literal,
    }
}

// The first test that fails.
#[tactic(auto, unfolding(crate::specs::Core::core_fault))]
fn first_fault(bytes: &[u8], ino: u64, uuid: &[u8; 16]) -> Option<CoreFault>
    requires { length bytes.now ≡ 512 }
    ensures { result ≡ core_fault bytes.now ino uuid.now }
{
    if get_u16(bytes, 0) != MAGIC {
        return Some(CoreFault::Magic);
    }
    if bytes[4] != VERSION {
        return Some(CoreFault::Version);
    }
    if get_u64(bytes, 152) != ino {
        return Some(CoreFault::Number);
    }
    if !is_summed(bytes, 100) {
        return Some(CoreFault::Checksum);
    }
    if !is_uuid_at(bytes, 160, uuid) {
        return Some(CoreFault::Uuid);
    }
    None
}

/// Reads the 512 bytes of the inode with number `ino` in the file system with this UUID. An error is
/// the first of the core's tests that fails, in the order of [`CoreFault`]; what the fields say isn't
/// tested (XFS Algorithms and Data Structures, "On-disk Inode").
#[tactic(auto, using(crate::proofs::CoreLemmas::named))]
pub fn decode_core(bytes: &[u8], ino: u64, uuid: &[u8; 16]) -> Result<Core3, CoreFault>
    requires { length bytes.now ≡ 512 }
    ensures exact { Decodes (core_fault bytes.now ino uuid.now) (λ core. core ≡ core_of bytes.now) result }
    ensures named { IfOk result (λ core. (core.ino ≡ ino) × (core.uuid ≡ uuid.now)) }
{
    match first_fault(bytes, ino, uuid) {
        Some(fault) => Err(fault),
        None => Ok(read_core(bytes)),
    }
}
