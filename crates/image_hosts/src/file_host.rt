//! The host of the program: images are files, and the report goes to standard output.
ghost use Rattle.std.specs.Prelude.{◌≡◌, ◌/◌, [], None, IsNone, IfOk, false};
ghost use Rattle.image_hosts.specs.Stored.{HasRoomFor, Lent, redo_asked};

use crate::advice::{NamedFile, explain, explain_change, tell_failure};
use crate::asked::{DeviceAsked, count_failed, count_fault, keep_request};
use crate::host::{Host, OpenFault, Purpose, Watched};
use crate::progress::Progress;
use crate::script_host::ScriptHost;
use blk_device::{
    Device, FileDevice, FileSource, ReadAhead, ReaderQueue, Region, Sink, SinkFailed, Source,
};
use redo_area::REDO_BLOCKS;
use std::alloc::Global;
use std::fs::{Metadata, OpenFile, OpenOptions};
use std::io::{ErrorKind, Seek, SeekFrom, Write};
use std::os::unix::fs::{FileTypeExt, MetadataExt, OpenOptionsExt};
use std::path::Path;
use std::rt::{Clock, Files};
use std::{fs, io};

const BLOCK_BYTES: u64 = 4096;

// A redo file is its maker's alone: it has blocks of the image.
const REDO_MODE: u32 = 0o600;

/// Opens files for devices and prints the report; beside it, on standard error, it says what failed
/// and what a refusal means. It tells nothing of what a file holds, nor of what standard output took.
#[derive(Drop)]
pub struct FileHost<'a, R: Files + Print + Eprint + Clock> {
    rt: &'a R,
    is_watched: bool,
    readers: Option<ReaderQueue<R::File>>,
    asked: Vec<DeviceAsked>,
    sink_faults: u64,
    host_faults: u64,
    dev_faults: u64,
    script_faults: u64,
}

impl<'a, R: Files + Print + Eprint + Clock> FileHost<'a, R> {
    /// A host that was asked nothing yet. Where somebody watches, standard error shows how far a check
    /// is.
    pub fn new(alloc: Global, rt: &'a R, is_watched: bool) -> Self
        ensures asked { result.asked.items ≡ [] }
        ensures host { result.host_faults ≡ 0 }
        ensures devices { result.dev_faults ≡ 0 }
        ensures sink { result.sink_faults ≡ 0 }
    {
        FileHost {
            rt,
            is_watched,
            readers: None,
            asked: Vec::new(alloc),
            sink_faults: 0,
            host_faults: 0,
            dev_faults: 0,
            script_faults: 0,
        }
    }

    /// Whether the last device that was asked for was one to be changed.
    pub fn is_changing(&self) -> bool {
        match self.asked.last() {
            Some(asked) => asked.purpose == Purpose::Change,
            None => false,
        }
    }

    /// The same host, which hands each image that is only checked to a thread that reads ahead.
    pub fn with_readers(self, readers: ReaderQueue<R::File>) -> Self
        ensures asked { result.asked.items ≡ self.entry.asked.items }
        ensures host { result.host_faults ≡ self.entry.host_faults }
        ensures devices { result.dev_faults ≡ self.entry.dev_faults }
        ensures sink { result.sink_faults ≡ self.entry.sink_faults }
    {
        FileHost {
            readers: Some(readers),
            ..self
        }
    }
}

// How many whole blocks so many bytes are.
fn whole_blocks(bytes: u64) -> u64
    ensures { result ≡ bytes / 4096 }
{
    bytes / BLOCK_BYTES
}

// How many whole blocks a file has. The end is sought, which also tells the size of a block
// device.
fn blocks_of<F: Seek>(file: &mut F) -> io::Result<u64> {
    // A block device has no size in its metadata; its end can be sought as a file's can.
    Ok(whole_blocks(file.seek(SeekFrom::End(0))?))
}

// How many blocks the image of a device has that is opened for this. A new image has as many as are wanted,
// or it couldn't be made: a block device, say, keeps its size.
fn blocks_for<F: Seek>(file: &mut F, purpose: Purpose) -> io::Result<u64>
    ensures { IfOk result (HasRoomFor purpose) }
{
    let blocks = blocks_of(file)?;
    match purpose {
        Purpose::Check => Ok(blocks),
        Purpose::Change => Ok(blocks),
        Purpose::Make(wanted) => {
            if blocks == wanted {
                return Ok(blocks);
            }
            Err(io::Error::new(ErrorKind::InvalidInput, "its size can't be changed"))
        }
    }
}

// Refuses a pipe: it would wait for a writer, and has no blocks.
fn refuse_pipe<R: Files>(rt: &R, name: &str) -> io::Result<()> {
    if fs::metadata(rt, name)?.file_type().is_fifo() {
        return Err(io::Error::new(ErrorKind::Unsupported, "a pipe has no blocks"));
    }
    Ok(())
}

fn open_to_read<R: Files>(rt: &R, name: &str) -> io::Result<R::File> {
    refuse_pipe(rt, name)?;
    fs::open(rt, name)
}

// Opens a file that is there to be read and written. The system refuses a directory, and a file that may
// only be read.
fn open_to_change<R: Files>(rt: &R, name: &str) -> io::Result<R::File> {
    refuse_pipe(rt, name)?;
    OpenOptions::new().read(true).write(true).open(rt, name)
}

fn open_image<R: Files>(rt: &R, name: &str, purpose: Purpose) -> io::Result<R::File> {
    match purpose {
        Purpose::Check => open_to_read(rt, name),
        Purpose::Change => open_to_change(rt, name),
        Purpose::Make(blocks) => {
            let file = OpenOptions::new()
                .read(true)
                .write(true)
                .create(true)
                // A name that a person types for a new image is one that may be written.
                .truncate(true)
                .open(rt, name)?;
            file.set_len(blocks.saturating_mul(BLOCK_BYTES))?;
            Ok(file)
        }
    }
}

// Makes a redo file of zeros, which a crash doesn't take away again.
fn make_redo<R: Files>(rt: &R, name: &str) -> io::Result<R::File> {
    let file = OpenOptions::new()
        .read(true)
        .write(true)
        .create_new(true)
        .mode(REDO_MODE)
        .open(rt, name)?;
    file.set_len(REDO_BLOCKS * BLOCK_BYTES)?;
    file.sync_all()?;
    keep_name(rt, name)?;
    Ok(file)
}

// The folder of a name.
fn folder_of(name: &str) -> &str {
    match Path::new(name).parent() {
        Some(folder) if !folder.as_os_str().is_empty() => folder.as_os_str(),
        _ => ".",
    }
}

// Makes the name of a new file durable, where its folder can be opened.
fn keep_name<R: Files>(rt: &R, name: &str) -> io::Result<()> {
    match fs::open(rt, folder_of(name)) {
        Ok(folder) => folder.sync_all(),
        Err(_) => Ok(()),
    }
}

// Opens a redo file, for a check to be read alone, and makes one of zeros where there is none.
fn open_redo<R: Files>(rt: &R, name: &str, purpose: Purpose) -> io::Result<R::File> {
    if let Err(fault) = fs::metadata(rt, name) {
        if fault.kind() == ErrorKind::NotFound {
            return make_redo(rt, name);
        }
        return Err(fault);
    }
    match purpose {
        Purpose::Check => open_to_read(rt, name),
        Purpose::Change | Purpose::Make(_) => open_to_change(rt, name),
    }
}

// Whether these are one file, or one block device, under whatever names.
fn are_same(one: &Metadata, other: &Metadata) -> bool {
    if one.file_type().is_block_device() && other.file_type().is_block_device() {
        return one.rdev() == other.rdev();
    }
    one.dev() == other.dev() && one.ino() == other.ino()
}

// Opens the redo file of an image that was opened. The image itself is refused, by whatever name.
fn open_apart<R: Files, F: OpenFile>(
    rt: &R,
    image: &F,
    name: &str,
    purpose: Purpose,
) -> io::Result<R::File> {
    let redo = open_redo(rt, name, purpose)?;
    if are_same(&image.metadata()?, &redo.metadata()?) {
        return Err(io::Error::new(ErrorKind::InvalidInput, "it is the image itself"));
    }
    Ok(redo)
}

// A file that was opened, with its name for what is told of it; or what failed is told.
fn named<'a, R: Files + Eprint>(
    alloc: Global,
    rt: &'a R,
    name: &str,
    opened: io::Result<R::File>,
) -> io::Result<NamedFile<'a, R>> {
    match opened {
        Ok(file) => Ok(NamedFile::new(rt, String::from_str(alloc, name)?, file)),
        Err(fault) => {
            tell_failure(rt, name, &fault);
            Err(fault)
        }
    }
}

// Hands an image that was opened to be checked to a thread that reads it ahead, if there is one. For one
// that is changed there is none: what was read ahead would no longer be what the file holds.
fn begin_ahead<F: OpenFile + Drop>(
    alloc: Global,
    readers: &mut Option<ReaderQueue<F>>,
    opened: &io::Result<F>,
    purpose: Purpose,
) -> Option<ReadAhead> {
    match (purpose, readers, opened) {
        (Purpose::Check, Some(queue), Ok(file)) => queue.begin(alloc, file.try_clone().ok()?),
        _ => None,
    }
}

// A device over an image that was opened, and over the redo file of that name.
fn device_over<'a, R: Files + Eprint>(
    alloc: Global,
    rt: &'a R,
    image: &str,
    opened: io::Result<R::File>,
    redo: Option<&str>,
    purpose: Purpose,
) -> io::Result<FileDevice<NamedFile<'a, R>>>
    ensures redo_blocks { IsNone redo.entry →
        IfOk result (λ d. ⟦<FileDevice<NamedFile<'a, R>> as Device>⟧.blocks d Region.Redo ≡ REDO_BLOCKS) }
    ensures fresh { IfOk result (λ d. ⟦<FileDevice<NamedFile<'a, R>> as Device>⟧.faults d ≡ 0) }
    ensures told { IfOk result (Lent ⟦<FileDevice<NamedFile<'a, R>> as Device>⟧ purpose false None (redo_asked (λ n. None) redo.entry)) }
{
    let mut image = named(alloc, rt, image, opened)?;
    let image_blocks = blocks_for(&mut image, purpose)?;
    let Some(name) = redo else {
        return Ok(FileDevice::new(alloc, image, None, image_blocks, REDO_BLOCKS));
    };
    let opened = open_apart(rt, &image, name, purpose);
    let mut redo = named(alloc, rt, name, opened)?;
    let redo_blocks = blocks_of(&mut redo)?;
    Ok(FileDevice::new(alloc, image, Some(redo), image_blocks, redo_blocks))
}

fn open_device<'a, R: Files + Eprint>(
    alloc: Global,
    rt: &'a R,
    image: &str,
    redo: Option<&str>,
    purpose: Purpose,
    readers: &mut Option<ReaderQueue<R::File>>,
) -> io::Result<FileDevice<NamedFile<'a, R>>>
    ensures redo_blocks { IsNone redo.entry →
        IfOk result (λ d. ⟦<FileDevice<NamedFile<'a, R>> as Device>⟧.blocks d Region.Redo ≡ REDO_BLOCKS) }
    ensures fresh { IfOk result (λ d. ⟦<FileDevice<NamedFile<'a, R>> as Device>⟧.faults d ≡ 0) }
    ensures told { IfOk result (Lent ⟦<FileDevice<NamedFile<'a, R>> as Device>⟧ purpose false None (redo_asked (λ n. None) redo.entry)) }
{
    let opened = open_image(rt, image, purpose);
    let ahead = begin_ahead(alloc, readers, &opened, purpose);
    let device = device_over(alloc, rt, image, opened, redo, purpose)?;
    Ok(device.with_ahead(ahead))
}

impl<R: Files + Print + Eprint + Clock> Sink for FileHost<'_, R> {
    ghost use Rattle.std.specs.Prelude.{map};
    ghost use Rattle.std.proofs.Common.{rules};
    ghost use Rattle.image_hosts.specs.Asked.{request_of};

    ghost taken = { λ h. None };

    ghost sink_faults = { λ h. h.sink_faults };

    ghost kept = { λ a b. (b.host_faults ≡ a.host_faults) × (b.dev_faults ≡ a.dev_faults)
        × (map request_of b.asked.items ≡ map request_of a.asked.items) };

    ghost kept_at_rest = { λ a. Prim.search rules };

    ghost kept_by_both = { λ a b c first second. Prim.search rules };

    fn put(&mut self, piece: &[u8]) -> Result<usize, SinkFailed> {
        match io::writer(self.rt).write(piece) {
            Ok(taken) if taken > 0 || piece.is_empty() => {
                explain(self.rt, piece);
                if self.is_changing() {
                    explain_change(self.rt, piece);
                }
                return Ok(taken);
            }
            Ok(_) => {}
            Err(fault) => tell_failure(self.rt, "standard output", &fault),
        }
        count_fault(&mut self.sink_faults);
        Err(SinkFailed)
    }
}

impl<'a, R: Files + Print + Eprint + Clock> Watched for FileHost<'a, R> {
    type Eye = Progress<'a, R>;

    fn watch(&self) -> Progress<'a, R> {
        Progress::new(self.rt, self.is_watched)
    }
}

impl<'a, R: Files + Print + Eprint + Clock + Sync> Host for FileHost<'a, R>
where
    R::File: Send,
{
    type Dev = FileDevice<NamedFile<'a, R>>;

    ghost use Rattle.std.specs.Prelude.{map};
    ghost use Rattle.std.proofs.Common.{rules};
    ghost use Rattle.image_hosts.specs.Asked.{request_of};

    ghost tells = { λ h. false };

    ghost stored = { λ h n. None };

    ghost redo_files = { λ h n. None };

    ghost awaits = { λ h n. Unit {0} };

    ghost asked = { λ h. map request_of h.asked.items };

    ghost loans = { λ h. None };

    ghost host_faults = { λ h. h.host_faults };

    ghost dev_faults = { λ h. h.dev_faults };

    ghost report_keeps = { λ a b kept. Prim.search rules };

    fn device(
        &mut self,
        image: &str,
        redo: Option<&str>,
        purpose: Purpose,
    ) -> Result<FileDevice<NamedFile<'a, R>>, OpenFault> {
        let alloc = *self.asked.allocator();
        keep_request(alloc, &mut self.asked, image, redo, purpose)?;
        match open_device(alloc, self.rt, image, redo, purpose, &mut self.readers) {
            Ok(dev) => Ok(dev),
            Err(fault) if fault.kind() == ErrorKind::OutOfMemory => Err(OpenFault::Memory),
            Err(_) => {
                count_fault(&mut self.host_faults);
                Err(OpenFault::Failed)
            }
        }
    }

    fn put_back(&mut self, _image: &str, dev: FileDevice<NamedFile<'a, R>>) {
        count_failed(&mut self.dev_faults, dev.fault_count());
    }
}

// Opens a script, which tells its failures under its name.
fn open_script<'a, R: Files + Eprint>(
    alloc: Global,
    rt: &'a R,
    name: &str,
) -> io::Result<FileSource<NamedFile<'a, R>>>
    ensures { IfOk result (λ src. ⟦<FileSource<NamedFile<'a, R>> as Source>⟧.source_faults src ≡ 0) }
{
    let opened = open_to_read(rt, name);
    let file = named(alloc, rt, name, opened)?;
    Ok(FileSource::new(file))
}

impl<'a, R: Files + Print + Eprint + Clock + Sync> ScriptHost for FileHost<'a, R>
where
    R::File: Send,
{
    type Src = FileSource<NamedFile<'a, R>>;

    ghost scripts = { λ h n. None };

    ghost script_faults = { λ h. h.script_faults };

    fn script(&mut self, name: &str) -> Result<FileSource<NamedFile<'a, R>>, OpenFault> {
        let alloc = *self.asked.allocator();
        match open_script(alloc, self.rt, name) {
            Ok(src) => Ok(src),
            Err(fault) if fault.kind() == ErrorKind::OutOfMemory => Err(OpenFault::Memory),
            Err(_) => {
                count_fault(&mut self.host_faults);
                Err(OpenFault::Failed)
            }
        }
    }

    fn script_back(&mut self, src: FileSource<NamedFile<'a, R>>) {
        count_failed(&mut self.script_faults, src.fault_count());
    }
}
