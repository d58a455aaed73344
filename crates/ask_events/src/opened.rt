// The image and its redo file.
use blk_device::FileDevice;
use redo_area::REDO_BLOCKS;
use std::alloc::Global;
use std::fs::OpenOptions;
use std::io::{self, Seek, SeekFrom};
use std::rt::Files;

fn open_file<R: Files>(rt: &R, name: &str) -> io::Result<R::File> {
    OpenOptions::new().read(true).write(true).open(rt, name)
}

/// Opens an image with the redo file beside it, both to be changed. Both have to be there.
pub fn open_device<R: Files>(
    rt: &R,
    alloc: Global,
    image: &str,
    redo: &str,
) -> io::Result<FileDevice<R::File>> {
    let mut file = open_file(rt, image)?;
    let blocks = file.seek(SeekFrom::End(0))? / 4096;
    let redo = open_file(rt, redo)?;
    Ok(FileDevice::new(alloc, file, Some(redo), blocks, REDO_BLOCKS))
}
