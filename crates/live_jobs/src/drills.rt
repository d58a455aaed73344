// The script of a drill.
ghost use Rattle.std.specs.Prelude.{IfOk};
ghost use Rattle.script_defs.specs.Shape.{IsScript};

use blk_device::MemSource;
use script_defs::Script;
use script_read::read_script;
use std::alloc::{AllocError, Global};

// How many blocks the writer maps in its file at its place.
fn blocks_at(number: u32, writer: u32, file: u32, place: u32) -> u32 {
    let sum = u64::from(number) + u64::from(writer) + u64::from(file) + u64::from(place);
    1 + (sum % 8) as u32
}

fn put_text(text: &mut String, line: Result<String, AllocError>) -> Result<(), AllocError> {
    let line = line?;
    text.push_str(line.as_str())?;
    Ok(())
}

// The lines that map five ranges of a file.
fn put_maps(
    alloc: Global,
    text: &mut String,
    number: u32,
    writer: u32,
    file: u32,
) -> Result<(), AllocError> {
    for place in 0..5 {
        let count = blocks_at(number, writer, file, place);
        let offset = 16 * u64::from(place);
        put_text(text, format!(in alloc; "map f{file} {offset} {count}\n"))?;
    }
    Ok(())
}

// The lines of a file: it is made, mapped, one range of it converted and shared within it, another
// unmapped.
fn put_file(
    alloc: Global,
    text: &mut String,
    number: u32,
    writer: u32,
    file: u32,
) -> Result<(), AllocError> {
    let uid = 1000 + u64::from(writer);
    put_text(text, format!(in alloc; "create f{file} {uid}\n"))?;
    put_maps(alloc, text, number, writer, file)?;
    let first = blocks_at(number, writer, file, 0);
    let second = blocks_at(number, writer, file, 1);
    put_text(text, format!(in alloc; "convert f{file} 0 {first}\n"))?;
    put_text(
        text,
        format!(in alloc; "share f{file} 0 {first} f{file} 1000\n"),
    )?;
    put_text(text, format!(in alloc; "unmap f{file} 16 {second}\n"))
}

// The section of a writer: four files, of which it removes the last.
fn put_writer(
    alloc: Global,
    text: &mut String,
    number: u32,
    writer: u32,
) -> Result<(), AllocError> {
    put_text(text, format!(in alloc; "writer {writer}\n"))?;
    for file in 0..4 {
        put_file(alloc, text, number, writer, file)?;
    }
    text.push_str("remove f3\n")?;
    Ok(())
}

// The text of a drill's script.
fn text_of(alloc: Global, number: u32) -> Result<Vec<u8>, AllocError> {
    let mut text = String::new(alloc);
    for writer in 1..5 {
        put_writer(alloc, &mut text, number, writer)?;
    }
    Ok(text.into_bytes())
}

/// The script of a drill: what its four writers do. Without memory there is none.
pub(crate) fn drill_script(alloc: Global, number: u32) -> Result<Script, AllocError>
    ensures { IfOk result IsScript }
{
    let bytes = text_of(alloc, number)?;
    let mut src = MemSource::new(bytes, Vec::new(alloc));
    match read_script(alloc, &mut src) {
        Ok(script) => Ok(script),
        Err(_) => Err(AllocError),
    }
}
