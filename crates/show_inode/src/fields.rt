use byte_fields::{get_u16, get_u32};
use dinode_core::Core3;
use std::io;

// A field in decimal.
fn show_number<R: Print>(rt: &R, name: &str, value: u64) -> io::Result<()> {
    println!(rt; "{name} {value}")
}

// A field in hexadecimal.
fn show_bits<R: Print>(rt: &R, name: &str, value: u64) -> io::Result<()> {
    println!(rt; "{name} {value:x}")
}

// The kind of file in octal, as it is usually written.
fn show_kinds<R: Print>(rt: &R, core: &Core3) -> io::Result<()> {
    println!(rt; "mode {:o}", core.mode)?;
    show_number(rt, "format", u64::from(core.format))?;
    show_number(rt, "uid", u64::from(core.uid))?;
    show_number(rt, "nlink", u64::from(core.nlink))
}

fn show_counts<R: Print>(rt: &R, core: &Core3) -> io::Result<()> {
    show_number(rt, "big_nextents", core.big_nextents)?;
    show_number(rt, "nblocks", core.nblocks)?;
    show_number(rt, "nextents", u64::from(core.nextents))?;
    show_number(rt, "anextents", u64::from(core.anextents))?;
    show_number(rt, "forkoff", u64::from(core.forkoff))?;
    show_number(rt, "aformat", u64::from(core.aformat))
}

// The log's sequence number and both fields of flags in hexadecimal.
fn show_changes<R: Print>(rt: &R, core: &Core3) -> io::Result<()> {
    show_bits(rt, "flags", u64::from(core.flags))?;
    show_number(rt, "next_unlinked", u64::from(core.next_unlinked))?;
    show_number(rt, "changecount", core.changecount)?;
    show_bits(rt, "lsn", core.lsn)?;
    show_bits(rt, "flags2", core.flags2)
}

// The UUID in its five groups of hexadecimal digits.
fn show_names<R: Print>(rt: &R, core: &Core3) -> io::Result<()> {
    show_number(rt, "ino", core.ino)?;
    let uuid = &core.uuid;
    print!(rt; "uuid {:08x}-{:04x}", get_u32(uuid, 0), get_u16(uuid, 4))?;
    print!(rt; "-{:04x}-{:04x}", get_u16(uuid, 6), get_u16(uuid, 8))?;
    println!(rt; "-{:04x}{:08x}", get_u16(uuid, 10), get_u32(uuid, 12))
}

/// Shows each field of a core but the literal area, a line `NAME VALUE` for each.
/// (XFS Algorithms and Data Structures, "On-disk Inode".)
pub fn show_fields<R: Print>(rt: &R, core: &Core3) -> io::Result<()> {
    show_kinds(rt, core)?;
    show_counts(rt, core)?;
    show_changes(rt, core)?;
    show_names(rt, core)
}
