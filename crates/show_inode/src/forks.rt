use byte_fields::get_u16;
use dinode_core::{
    Core3, Fork, Format, Mapping, fork_area, fork_format, is_fork_absent, mapping_count, unpack,
};
use std::io;

/// The name of a fork in what is shown.
pub fn name_of(fork: Fork) -> &'static str {
    match fork {
        Fork::Data => "data",
        Fork::Attr => "attr",
    }
}

fn word_of(format: Format) -> &'static str {
    match format {
        Format::Dev => "dev",
        Format::Local => "local",
        Format::Extents => "extents",
        Format::Btree => "btree",
    }
}

/// Shows a mapping of a fork.
pub fn show_mapping<R: Print>(rt: &R, name: &str, m: &Mapping) -> io::Result<()> {
    let flag = u8::from(m.unwritten);
    println!(rt; "{name} map {} {} {} {flag}", m.offset, m.block, m.count)
}

// The first mappings of an area: so many, or as many as it has room for.
fn show_mappings<R: Print>(rt: &R, name: &str, area: &[u8], count: u64) -> io::Result<()> {
    let mut rest = area;
    for _ in 0..count {
        if rest.len() < 16 {
            break;
        }
        let (record, tail) = rest.split_at(16);
        let mut bytes = [0; 16];
        bytes.copy_from_slice(record);
        show_mapping(rt, name, &unpack(&bytes))?;
        rest = tail;
    }
    Ok(())
}

// The first two numbers of an area, of 16 bits each: in the root of a btree the level and the number
// of keys, in a local fork the beginning of what it has.
fn show_front<R: Print>(rt: &R, name: &str, area: &[u8]) -> io::Result<()> {
    if area.len() < 4 {
        return Ok(());
    }
    println!(rt; "{name} front {} {}", get_u16(area, 0), get_u16(area, 2))
}

/// Shows a fork: its format and the number of its mappings, then in extents format the mappings, and
/// in local and in btree format the numbers that it begins with.
/// (XFS Algorithms and Data Structures, "Data Fork" and "Attribute Fork".)
pub fn show_fork<R: Print>(rt: &R, core: &Core3, fork: Fork) -> io::Result<()> {
    let name = name_of(fork);
    if is_fork_absent(core, fork) {
        return println!(rt; "{name} absent");
    }
    let Some(format) = fork_format(core, fork) else {
        return println!(rt; "{name} unknown");
    };
    let count = mapping_count(core, fork);
    println!(rt; "{name} {} {count}", word_of(format))?;
    if core.forkoff > 42 {
        return Ok(());
    }
    let area = fork_area(core, fork);
    match format {
        Format::Dev => Ok(()),
        Format::Local | Format::Btree => show_front(rt, name, area),
        Format::Extents => show_mappings(rt, name, area, count),
    }
}
