// The blocks of the one chunk of inodes.
ghost use Rattle.std.specs.Prelude.{◌≡◌, ◌+◌, ◌^◌, ◌<◌, ◌≤◌, length, replicate};
ghost use Rattle.std.specs.List.{splice};
ghost use Rattle.dinode_core.specs.Encoded.{encoded};
ghost use Rattle.fresh_image.specs.Fresh.{mode_of as mode_is, format_of as format_is, fresh_core, with_inodes, fresh_inodes};

use crate::superblock::UUID;
use byte_fields::Block;
use dinode_core::{Core3, encode_core};

// Bytes of an inode.
const INODE: usize = 512;

// The root directory, and the last of the two files of the realtime device.
const ROOT: u64 = 192;

const LAST_FILE: u64 = 194;

fn mode_of(ino: u64) -> u16
    ensures { result ≡ mode_is ino }
{
    if ino == ROOT {
        return 0x41ed;
    }
    if ino <= LAST_FILE { 0x8000 } else { 0 }
}

fn format_of(ino: u64) -> u8
    ensures { result ≡ format_is ino }
{
    if ino == ROOT {
        return 1;
    }
    if ino <= LAST_FILE { 2 } else { 0 }
}

#[tactic(auto, unfolding(crate::specs::Fresh::fresh_core))]
fn core_of(ino: u64) -> Core3
    ensures { result ≡ fresh_core ino }
{
    Core3 {
        mode: mode_of(ino),
        format: format_of(ino),
        uid: 0,
        nlink: 0,
        big_nextents: 0,
        nblocks: 0,
        nextents: 0,
        anextents: 0,
        forkoff: 0,
        aformat: 0,
        flags: 0,
        next_unlinked: 0xffff_ffff,
        changecount: 0,
        lsn: 0,
        flags2: 0,
        ino,
        uuid: UUID,
        literal: [0; 336],
    }
}

fn inode(ino: u64) -> [u8; 512]
    ensures { result ≡ encoded (fresh_core ino) (replicate 512 0) }
{
    let mut bytes = [0; INODE];
    encode_core(&core_of(ino), &mut bytes);
    bytes
}

fn put_inode(bytes: &mut [u8], at: usize, ino: u64)
    requires { at + 512 ≤ length bytes.old }
    ensures { bytes.new ≡ splice bytes.old at (at + 512) (encoded (fresh_core ino) (replicate 512 0)) }
{
    bytes[at..at + INODE].copy_from_slice(&inode(ino));
}

// Writes eight inodes from this number on.
fn put_inodes(bytes: &mut [u8], first: u64)
    requires long { length bytes.old ≡ 4096 }
    requires first { first < 2 ^ 32 }
    ensures { bytes.new ≡ with_inodes 8 first bytes.old }
{
    for slot in 0..8u32 {
        put_inode(bytes, INODE * slot as usize, first + u64::from(slot));
    }
}

/// Block `k` of the chunk, which has eight.
#[tactic(auto, unfolding(crate::specs::Fresh::fresh_inodes))]
pub fn inodes(k: u32) -> Block
    requires { k < 8 }
    ensures { result.bytes ≡ fresh_inodes k }
{
    let mut block = Block::zeroed();
    put_inodes(&mut block.bytes, ROOT + 8 * u64::from(k));
    block
}
