ghost use Rattle.std.specs.Prelude.{◌≡◌, ℕ, None, Some, IfSome, true, if◌then◌else◌};
ghost use Rattle.blk_device.specs.Window.{block_in};

use crate::ahead::ReadAhead;
use crate::counted::answer;
use crate::device::{Device, DeviceFailed, Region};
use crate::tally::block_or_zeros;
use crate::window::{READ_AHEAD_BLOCKS, Window};
use byte_fields::Block;
use std::alloc::Global;
use std::collections::BTreeMap;
use std::fs::OpenFile;
use std::io::{Read, Seek, SeekFrom, Write};
use std::mem;

// An open file, and the byte at which it stands, where that is known.
#[derive(Drop)]
struct Placed<F: Drop> {
    file: F,
    place: Option<u64>,
}

// The image's file, with the blocks that were read of it at once, whether these were asked for to the
// last one, the block behind the one that was last asked for, and what another thread reads, if one does.
#[derive(Drop)]
struct ImageFile<F: Drop> {
    placed: Placed<F>,
    window: Window,
    is_used_up: bool,
    next: Option<u64>,
    ahead: Option<ReadAhead>,
}

// Where the redo region lies: in a file, or in memory, where no file keeps it.
#[derive(Drop)]
enum RedoPlace<F: Drop> {
    Kept(Placed<F>),
    Unkept(BTreeMap<u64, Block>),
}

/// A device over two open files, the image and the redo file beside it. It tells nothing of what
/// they hold, and a crash may leave anything: what the system does with a file is no part of a
/// proof.
#[derive(Drop)]
pub struct FileDevice<F: Read + Write + Seek + OpenFile + Drop> {
    image: ImageFile<F>,
    redo: RedoPlace<F>,
    image_blocks: u64,
    redo_blocks: u64,
    faults: u64,
    reads: u64,
}

impl<F: Read + Write + Seek + OpenFile + Drop> FileDevice<F> {
    ghost use Rattle.blk_device.specs.Contents.{same_region, Contents};
    ghost use Rattle.blk_device.specs.declared.device.Region.{Region};
    ghost use Rattle.blk_device.specs.declared.device.Region.TheVariants.{Image};

    /// A device over an image file and a redo file of so many blocks. Without a redo file the
    /// redo region begins as zeros, and ends with the device.
    pub fn new(
        alloc: Global,
        image: F,
        redo: Option<F>,
        image_blocks: u64,
        redo_blocks: u64,
    ) -> Self
        ensures sizes { (r : Region) → ⟦<FileDevice<F> as Device>⟧.blocks result r ≡ (if same_region r Image then image_blocks else redo_blocks) }
        ensures any_crash { (c : Contents) → ⟦<FileDevice<F> as Device>⟧.may_hold_now result c }
        ensures faults { ⟦<FileDevice<F> as Device>⟧.faults result ≡ 0 }
        ensures reads { ⟦<FileDevice<F> as Device>⟧.reads result ≡ 0 }
    {
        let redo = match redo {
            Some(file) => RedoPlace::Kept(unplaced(file)),
            None => RedoPlace::Unkept(BTreeMap::new(alloc)),
        };
        let image = ImageFile {
            placed: unplaced(image),
            window: Window::new(alloc),
            is_used_up: true,
            next: None,
            ahead: None,
        };
        FileDevice {
            image,
            redo,
            image_blocks,
            redo_blocks,
            faults: 0,
            reads: 0,
        }
    }

    /// The same device, for which another thread reads ahead what `will_read` tells, until the image is
    /// written.
    pub fn with_ahead(self, ahead: Option<ReadAhead>) -> Self
        ensures sizes { ⟦<FileDevice<F> as Device>⟧.blocks result ≡ ⟦<FileDevice<F> as Device>⟧.blocks self }
        ensures any_crash { (c : Contents) → ⟦<FileDevice<F> as Device>⟧.may_hold_now result c }
        ensures faults { ⟦<FileDevice<F> as Device>⟧.faults result ≡ ⟦<FileDevice<F> as Device>⟧.faults self }
        ensures reads { ⟦<FileDevice<F> as Device>⟧.reads result ≡ ⟦<FileDevice<F> as Device>⟧.reads self }
    {
        let mut device = self;
        device.image.ahead = ahead;
        device
    }
}

// A file that stands wherever who opened it left it.
fn unplaced<F: Drop>(file: F) -> Placed<F> {
    Placed { file, place: None }
}

// Where a block begins; none behind the last byte that a number names.
fn place_of(at: u64) -> Option<u64> {
    at.checked_mul(4096)
}

// Brings a file to a block. Blocks are mostly asked for in their order, and then it stands there.
fn seek_to<F: Seek + Drop>(file: &mut Placed<F>, at: u64) -> bool {
    match place_of(at) {
        Some(place) => {
            file.place == Some(place) || file.file.seek(SeekFrom::Start(place)).is_ok()
        }
        None => false,
    }
}

// Takes note of where a file stands behind a block; after a failure it may stand anywhere.
fn stand_behind<F: Drop>(file: &mut Placed<F>, at: u64, is_moved: bool) {
    file.place = match at.checked_add(1) {
        Some(next) if is_moved => place_of(next),
        _ => None,
    };
}

fn read_block<F: Read + Seek + Drop>(file: &mut Placed<F>, at: u64, into: &mut Block) -> bool {
    let is_read = seek_to(file, at) && file.file.read_exact(&mut into.bytes).is_ok();
    stand_behind(file, at, is_read);
    is_read
}

fn write_block<F: Write + Seek + Drop>(file: &mut Placed<F>, at: u64, from: &Block) -> bool {
    let is_written = seek_to(file, at) && file.file.write_all(&from.bytes).is_ok();
    stand_behind(file, at, is_written);
    is_written
}

// How many blocks there are from this one on to the next multiple of eight.
fn blocks_ahead(at: u64) -> u64 {
    READ_AHEAD_BLOCKS as u64 - at % READ_AHEAD_BLOCKS as u64
}

// Reads blocks of the image into its window, from this one on up to a multiple of eight or the end.
fn read_ahead<F: Read + Seek + Drop>(image: &mut ImageFile<F>, at: u64, end: u64) {
    if image.window.has_room() && seek_to(&mut image.placed, at) {
        let most = blocks_ahead(at).min(end.saturating_sub(at));
        let stands = image.window.fill(&mut image.placed.file, at, most);
        image.placed.place = stands.and_then(place_of);
        image.is_used_up = false;
    }
}

// Whether the blocks behind this one are worth reading with it: it was asked for in its order, or a
// chunk of inodes may begin here, whose blocks are asked for one after the other. Blocks of btrees lie
// at such places too, so that is believed only where what was read at once last was asked for.
fn begins_run<F: Drop>(image: &ImageFile<F>, at: u64) -> bool {
    let may_be_chunk = image.is_used_up && at % READ_AHEAD_BLOCKS as u64 == 0;
    image.next == Some(at) || may_be_chunk
}

// Copies a block that was read ahead, if it was.
fn copy_held<F: Drop>(image: &mut ImageFile<F>, at: u64, into: &mut Block) -> bool
    ensures held { block_in image.old.window at ≡ (if result then Some into.new.bytes else None) }
    ensures window { image.new.window ≡ image.old.window }
{
    let is_held = image.window.get(at, into);
    image.is_used_up |= is_held && image.window.ends_with(at);
    is_held
}

// Takes the window that holds a block from the thread that reads ahead, if it is there, in place of the
// one before.
fn take_ahead<F: Drop>(image: &mut ImageFile<F>, at: u64) {
    let Some(ahead) = &mut image.ahead else {
        return;
    };
    if let Some(window) = ahead.take(at) {
        let before = mem::replace(&mut image.window, window);
        ahead.give_back(before);
        image.is_used_up = false;
    }
}

// Copies a block that was read ahead, by this thread or by another one, if it was.
fn copy_ahead<F: Drop>(image: &mut ImageFile<F>, at: u64, into: &mut Block) -> bool
    ensures held { IfSome (block_in image.old.window at) (λ bytes. (result ≡ true) × (into.new.bytes ≡ bytes)) }
    ensures taken { block_in image.new.window at ≡ (if result then Some into.new.bytes else None) }
{
    if copy_held(image, at, into) {
        return true;
    }
    take_ahead(image, at);
    copy_held(image, at, into)
}

// Reads a block of the image, out of the window if it is there. Blocks that are asked for in their
// order are read at once; where that fails, this one is read alone, since what ails a block behind
// it is no fault of this one.
fn read_image<F: Read + Seek + Drop>(
    image: &mut ImageFile<F>,
    at: u64,
    end: u64,
    into: &mut Block,
) -> bool
    ensures held { IfSome (block_in image.old.window at) (λ bytes. (result ≡ true) × (into.new.bytes ≡ bytes)) }
{
    let is_run = begins_run(image, at);
    image.next = at.checked_add(1);
    if copy_ahead(image, at, into) {
        return true;
    }
    if is_run {
        read_ahead(image, at, end);
    }
    copy_held(image, at, into) || read_block(&mut image.placed, at, into)
}

// Writes a block of the image. Whatever the answer, the window may no longer be what the file holds, nor
// what another thread reads.
fn write_image<F: Write + Seek + Drop>(image: &mut ImageFile<F>, at: u64, from: &Block) -> bool
    ensures held { (b : ℕ) → block_in image.new.window b ≡ None }
    ensures ahead { image.new.ahead ≡ None }
{
    image.window.empty();
    image.ahead = None;
    write_block(&mut image.placed, at, from)
}

fn read_redo<F: Read + Seek + Drop>(redo: &mut RedoPlace<F>, at: u64, into: &mut Block) -> bool {
    match redo {
        RedoPlace::Kept(file) => read_block(file, at, into),
        RedoPlace::Unkept(blocks) => {
            *into = block_or_zeros(blocks, at);
            true
        }
    }
}

fn write_redo<F: Write + Seek + Drop>(redo: &mut RedoPlace<F>, at: u64, from: &Block) -> bool {
    match redo {
        RedoPlace::Kept(file) => write_block(file, at, from),
        RedoPlace::Unkept(blocks) => blocks.insert(at, *from).is_ok(),
    }
}

fn sync_redo<F: OpenFile + Drop>(redo: &RedoPlace<F>) -> bool {
    match redo {
        RedoPlace::Kept(kept) => kept.file.sync_all().is_ok(),
        RedoPlace::Unkept(_) => true,
    }
}

impl<F: Read + Write + Seek + OpenFile + Drop> Device for FileDevice<F> {
    ghost use Rattle.std.specs.Prelude.{⊤};
    ghost use Rattle.blk_device.specs.Contents.{same_region};
    ghost use Rattle.blk_device.specs.declared.device.Region.TheVariants.{Image};

    ghost content = { λ d. None };

    ghost may_hold_now = { λ d c. ⊤ };

    ghost clock = { λ d. 0 };

    ghost may_have_held_since = { λ d t c. ⊤ };

    ghost faults = { λ d. d.faults };

    ghost reads = { λ d. d.reads };

    ghost blocks = { λ d r. if same_region r Image then d.image_blocks else d.redo_blocks };

    ghost only_now = { λ d c held. held };

    ghost counts_now = { λ d t c before now. now };

    ghost told_now = { λ d. tt };

    ghost whole_blocks = { λ d. tt };

    fn size(&self, region: Region) -> u64 {
        match region {
            Region::Image => self.image_blocks,
            Region::Redo => self.redo_blocks,
        }
    }

    fn fault_count(&self) -> u64 {
        self.faults
    }

    fn read(&mut self, region: Region, at: u64, into: &mut Block) -> Result<(), DeviceFailed> {
        self.reads = self.reads.saturating_add(1);
        let is_read = match region {
            Region::Image => read_image(&mut self.image, at, self.image_blocks, into),
            Region::Redo => read_redo(&mut self.redo, at, into),
        };
        answer(is_read, &mut self.faults)
    }

    fn will_read(&mut self, region: Region, at: u64, count: u64) {
        if let (Region::Image, Some(ahead)) = (region, &mut self.image.ahead) {
            ahead.tell(at, count);
        }
    }

    fn write(&mut self, region: Region, at: u64, from: &Block) -> Result<(), DeviceFailed> {
        let is_written = match region {
            Region::Image => write_image(&mut self.image, at, from),
            Region::Redo => write_redo(&mut self.redo, at, from),
        };
        answer(is_written, &mut self.faults)
    }

    fn sync(&mut self, region: Region) -> Result<(), DeviceFailed> {
        let is_synced = match region {
            Region::Image => self.image.placed.file.sync_all().is_ok(),
            Region::Redo => sync_redo(&self.redo),
        };
        answer(is_synced, &mut self.faults)
    }
}
