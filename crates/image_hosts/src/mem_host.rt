//! A host in memory, for tests.
ghost use Rattle.std.specs.Prelude.{◌≡◌, ◌<◌, ◌≤◌, ℕ, List, [], Some, None, IsSome, IsNone, IfOk, IfSome, OnOk, map, true, if◌then◌else◌};
ghost use Rattle.std.specs.BTreeMap.{get_by_text};
ghost use Rattle.std.specs.Str.{bytes_eq};
ghost use Rattle.blk_device.specs.Contents.{Holds, map_told};
ghost use Rattle.blk_device.specs.Memory.{calls_asked, failing_calls};
ghost use Rattle.blk_device.specs.Stored.{stored};
ghost use Rattle.redo_area.specs.Counts.{raised};
ghost use Rattle.image_hosts.specs.MemFiles.{HasDue, calls_for_redo, calls_to_open, due_bytes, file_of, file_named, failing_named, redo_file_named, redo_of, redo_told, with_redo};
ghost use Rattle.image_hosts.specs.Stored.{FollowsRedo, HoldsRedo, IsNew, Lent, Opened, due_by, name_of, no_redo, redo_asked, redo_held, stored_redo, stored_with};

use crate::asked::{DeviceAsked, count_failed, count_fault, keep_request};
use crate::host::{Host, OpenFault, Purpose, Watched};
use crate::script_host::ScriptHost;
use blk_device::{Device, DeviceFailed, MemDevice, MemSource, Region, Sink, SinkFailed, Source};
use byte_fields::Block;
use check_watch::NoWatch;
use redo_area::REDO_BLOCKS;
use std::alloc::{AllocError, Global};
use std::collections::BTreeMap;

/// An image of so many blocks, zeros where there is none, and the numbers of the calls of its device
/// that are to fail, counted from 0 each time that it is opened.
#[derive(Drop)]
pub struct MemImage {
    pub size: u64,
    pub blocks: BTreeMap<u64, Block>,
    pub failing: Vec<u64>,
}

/// A redo file of so many blocks, zeros where there is none; or one that was lost, since it couldn't be
/// kept whole.
#[derive(Drop)]
pub struct MemRedo {
    pub size: u64,
    pub blocks: BTreeMap<u64, Block>,
    pub is_lost: bool,
}

/// Images and redo files by name, what was asked, and the report. Calls of `put` are numbered from 0, and those
/// of chosen numbers fail; an image that isn't there is a fault of the host, also where it is to be
/// made: a new image takes the place of one that is there. A redo file that isn't there is 162 blocks of
/// zeros. Where there is one, a device's calls are counted from the first behind its opening on. The redo
/// region of a device that was changed is read when it comes back; where a read of it fails or memory is
/// short, that redo file is lost, and no device is handed out with it any more. `due` is its name. A script
/// that isn't there is a fault of the host.
#[derive(Drop)]
pub struct MemHost {
    pub images: BTreeMap<String, MemImage>,
    pub redos: BTreeMap<String, MemRedo>,
    pub scripts: BTreeMap<String, Vec<u8>>,
    pub due: Option<String>,
    pub failing_puts: Vec<u64>,
    pub asked: Vec<DeviceAsked>,
    pub report: Vec<u8>,
    pub puts: u64,
    pub sink_faults: u64,
    pub host_faults: u64,
    pub dev_faults: u64,
    pub script_faults: u64,
}

impl MemHost {
    /// A host with these images, no redo file and no script.
    pub fn new(alloc: Global, images: BTreeMap<String, MemImage>, failing_puts: Vec<u64>) -> Self
        ensures images { result.images ≡ images }
        ensures redos { (n : List ℕ) → redo_file_named result.redos n ≡ Some no_redo }
        ensures failing { result.failing_puts ≡ failing_puts }
        ensures asked { result.asked.items ≡ [] }
        ensures report { result.report.items ≡ [] }
        ensures puts { result.puts ≡ 0 }
        ensures host { result.host_faults ≡ 0 }
        ensures devices { result.dev_faults ≡ 0 }
        ensures sink { result.sink_faults ≡ 0 }
    {
        MemHost {
            images,
            redos: BTreeMap::new(alloc),
            scripts: BTreeMap::new(alloc),
            due: None,
            failing_puts,
            asked: Vec::new(alloc),
            report: Vec::new(alloc),
            puts: 0,
            sink_faults: 0,
            host_faults: 0,
            dev_faults: 0,
            script_faults: 0,
        }
    }
}

impl Sink for MemHost {
    ghost use Rattle.std.proofs.Common.{rules};
    ghost use Rattle.std.specs.Prelude.{length, take, OnErr, IsErr, Contains};
    ghost use Rattle.blk_device.specs.Causes.{HasCause, any_error, one_more};
    ghost use Rattle.blk_device.specs.Taken.{Takes};
    ghost use Rattle.image_hosts.specs.MemHost.{KeepsFiles};

    ghost taken = { λ h. Some h.report.items };

    ghost sink_faults = { λ h. h.sink_faults };

    ghost kept = { KeepsFiles };

    ghost kept_at_rest = { λ a. Prim.search rules };

    ghost kept_by_both = { λ a b c first second. Prim.search rules };

    /// Takes the whole piece. Fails where this call's number is one of those that are chosen, and
    /// where memory is refused.
    fn put(&mut self, piece: &[u8]) -> Result<usize, SinkFailed>
        ensures bound { IfOk result (λ n. n ≤ length piece.now) }
        ensures progress { IfOk result (λ n. 0 < length piece.now → 0 < n) }
        ensures bytes { IfOk result (λ n. Takes (take n piece.now) (Some self.old.report.items) (Some self.new.report.items)) }
        ensures none { OnErr result (Some self.new.report.items ≡ Some self.old.report.items) }
        ensures rest { KeepsFiles self.old self.new }
        ensures cause { HasCause any_error self.old.sink_faults self.new.sink_faults result }
        ensures chosen { Contains self.old.failing_puts.items self.old.puts → IsErr result }
        ensures whole { IfOk result (λ n. n ≡ length piece.now) }
        ensures asked { self.new.puts ≡ one_more self.old.puts }
        ensures choice { self.new.failing_puts ≡ self.old.failing_puts }
    {
        let call = self.puts;
        self.puts = self.puts.saturating_add(1);
        if self.failing_puts.contains(&call) {
            count_fault(&mut self.sink_faults);
            return Err(SinkFailed);
        }
        match self.report.extend_from_slice(piece) {
            Ok(()) => Ok(piece.len()),
            Err(_) => {
                count_fault(&mut self.sink_faults);
                Err(SinkFailed)
            }
        }
    }
}

fn copy_of(blocks: &BTreeMap<u64, Block>) -> Result<BTreeMap<u64, Block>, AllocError>
    ensures { IfOk result (λ copy. copy.entries ≡ blocks.now.entries) }
{
    blocks.clone()
}

// Puts these blocks in the place of those of the named image.
fn replace_image(
    images: &mut BTreeMap<String, MemImage>,
    name: &str,
    size: u64,
    blocks: BTreeMap<u64, Block>,
)
    requires { IsSome (get_by_text images.old name.now) }
    ensures image { (n : List ℕ) → file_named images.new n
        ≡ stored_with name.now (Some (record { size = size; at = stored blocks })) (file_named images.old) n }
    ensures failing { (n : List ℕ) → failing_named images.new n ≡ failing_named images.old n }
{
    if let Some(file) = images.get_mut(name) {
        file.size = size;
        file.blocks = blocks;
    }
}

// The name of the redo file in which a device opened for this is kept when it comes back.
fn due_for(
    alloc: Global,
    purpose: Purpose,
    redo: Option<&str>,
) -> Result<Option<String>, AllocError>
    ensures { IfOk result (λ due. due_bytes due ≡ due_by purpose (name_of redo.entry)) }
{
    match (purpose, redo) {
        (Purpose::Change, Some(name)) => Ok(Some(String::from_str(alloc, name)?)),
        _ => Ok(None),
    }
}

// Makes a redo file of zeros where there is none of that name.
fn make_redo(
    alloc: Global,
    redos: &mut BTreeMap<String, MemRedo>,
    name: &str,
) -> Result<(), AllocError>
    ensures same { (n : List ℕ) → redo_file_named redos.new n ≡ redo_file_named redos.old n }
    ensures there { OnOk result (IsSome (get_by_text redos.new name.now)) }
{
    if redos.contains_key(name) {
        return Ok(());
    }
    let redo = MemRedo {
        size: REDO_BLOCKS,
        blocks: BTreeMap::new(alloc),
        is_lost: false,
    };
    redos.insert(String::from_str(alloc, name)?, redo)?;
    Ok(())
}

// Makes the redo file that is due, where it isn't there.
fn make_due(
    alloc: Global,
    redos: &mut BTreeMap<String, MemRedo>,
    due: &Option<String>,
) -> Result<(), AllocError>
    ensures same { (n : List ℕ) → redo_file_named redos.new n ≡ redo_file_named redos.old n }
    ensures there { OnOk result (HasDue redos.new due.now) }
{
    match due {
        Some(name) => make_redo(alloc, redos, name.as_str()),
        None => Ok(()),
    }
}

// Reads a block of a device's redo region.
fn redo_block(dev: &mut MemDevice, at: u64) -> Result<Block, DeviceFailed>
    requires room { at < ⟦<MemDevice as Device>⟧.blocks dev.old Region.Redo }
    ensures bytes { IfOk result (λ block. Holds Region.Redo at block.bytes (⟦<MemDevice as Device>⟧.content dev.old)) }
    ensures same { ⟦<MemDevice as Device>⟧.content dev.new ≡ ⟦<MemDevice as Device>⟧.content dev.old }
    ensures sizes { ⟦<MemDevice as Device>⟧.blocks dev.new ≡ ⟦<MemDevice as Device>⟧.blocks dev.old }
{
    let mut block = Block::zeroed();
    dev.read(Region::Redo, at, &mut block)?;
    Ok(block)
}

// What the redo region of a device holds; nothing where a read fails or memory is short.
fn redo_read(alloc: Global, dev: &mut MemDevice) -> Option<BTreeMap<u64, Block>>
    ensures held { IfSome result (λ held. IfSome (⟦<MemDevice as Device>⟧.content dev.old) (λ c. (b : ℕ)
        → b < ⟦<MemDevice as Device>⟧.blocks dev.old Region.Redo → stored held b ≡ c Region.Redo b)) }
    ensures same { ⟦<MemDevice as Device>⟧.content dev.new ≡ ⟦<MemDevice as Device>⟧.content dev.old }
    ensures sizes { ⟦<MemDevice as Device>⟧.blocks dev.new ≡ ⟦<MemDevice as Device>⟧.blocks dev.old }
{
    let mut held = BTreeMap::new(alloc);
    let count = dev.size(Region::Redo);
    for at in 0..count {
        let Ok(block) = redo_block(dev, at) else {
            return None;
        };
        let Ok(_) = held.insert(at, block) else {
            return None;
        };
    }
    Some(held)
}

// A redo file of so many blocks, as they were read; or a lost one.
fn redo_over(alloc: Global, size: u64, read: Option<BTreeMap<u64, Block>>) -> MemRedo
    ensures lost { IsNone read → redo_told result ≡ None }
    ensures held { IfSome read (λ blocks. redo_told result ≡ Some (redo_held size (stored blocks))) }
{
    match read {
        Some(blocks) => MemRedo {
            size,
            blocks,
            is_lost: false,
        },
        None => MemRedo {
            size,
            blocks: BTreeMap::new(alloc),
            is_lost: true,
        },
    }
}

// Puts a redo file in the place of the one of that name.
fn replace_redo(redos: &mut BTreeMap<String, MemRedo>, name: &str, redo: MemRedo)
    requires { IsSome (get_by_text redos.old name.now) }
    ensures { (n : List ℕ) → redo_file_named redos.new n
        ≡ stored_with name.now (redo_told redo) (redo_file_named redos.old) n }
{
    if let Some(file) = redos.get_mut(name) {
        file.size = redo.size;
        file.blocks = redo.blocks;
        file.is_lost = redo.is_lost;
    }
}

// Keeps the redo region of a device that comes back in the redo file of that name.
fn keep_redo(alloc: Global, redos: &mut BTreeMap<String, MemRedo>, name: &str, dev: &mut MemDevice)
    requires { IsSome (get_by_text redos.old name.now) }
    ensures kept { HoldsRedo name.now (stored_redo (⟦<MemDevice as Device>⟧.content dev.old) (⟦<MemDevice as Device>⟧.blocks dev.old))
        (redo_file_named redos.old) (redo_file_named redos.new) }
    ensures same { ⟦<MemDevice as Device>⟧.content dev.new ≡ ⟦<MemDevice as Device>⟧.content dev.old }
    ensures sizes { ⟦<MemDevice as Device>⟧.blocks dev.new ≡ ⟦<MemDevice as Device>⟧.blocks dev.old }
{
    let size = dev.size(Region::Redo);
    let read = redo_read(alloc, dev);
    let redo = redo_over(alloc, size, read);
    replace_redo(redos, name, redo);
}

// Keeps the redo region of a device that comes back in the redo file that is due, if one is.
fn keep_due(
    alloc: Global,
    redos: &mut BTreeMap<String, MemRedo>,
    due: &Option<String>,
    dev: &mut MemDevice,
)
    requires { HasDue redos.old due.now }
    ensures kept { FollowsRedo (due_bytes due.now) (stored_redo (⟦<MemDevice as Device>⟧.content dev.old) (⟦<MemDevice as Device>⟧.blocks dev.old))
        (redo_file_named redos.old) (redo_file_named redos.new) }
    ensures same { ⟦<MemDevice as Device>⟧.content dev.new ≡ ⟦<MemDevice as Device>⟧.content dev.old }
    ensures sizes { ⟦<MemDevice as Device>⟧.blocks dev.new ≡ ⟦<MemDevice as Device>⟧.blocks dev.old }
{
    if let Some(name) = due {
        keep_redo(alloc, redos, name.as_str(), dev);
    }
}

// A device over a copy of the image, of whose calls those that are chosen will fail.
fn open_copy(alloc: Global, image: &MemImage) -> Result<MemDevice, AllocError>
    ensures told { IfOk result (Opened ⟦<MemDevice as Device>⟧ (Some (file_of image.now)) (Some no_redo)) }
    ensures redo_blocks { IfOk result (λ d. ⟦<MemDevice as Device>⟧.blocks d Region.Redo ≡ REDO_BLOCKS) }
    ensures fresh { IfOk result (λ d. ⟦<MemDevice as Device>⟧.faults d ≡ 0) }
    ensures failing { IfOk result (λ d. failing_calls d ≡ image.now.failing.items) }
    ensures asked { IfOk result (λ d. calls_asked d ≡ 0) }
{
    let blocks = copy_of(&image.blocks)?;
    let failing = image.failing.clone()?;
    let dev = MemDevice::with_image(alloc, image.size, REDO_BLOCKS, blocks, failing)?;
    Ok(dev)
}

// A device over a new image, of whose calls those that are chosen for the image in whose place it comes
// will fail.
fn open_new(alloc: Global, image: &MemImage, blocks: u64) -> Result<MemDevice, AllocError>
    ensures told { IfOk result (λ d. IsNew true blocks
        (⟦<MemDevice as Device>⟧.content d) (⟦<MemDevice as Device>⟧.blocks d)) }
    ensures redo_blocks { IfOk result (λ d. ⟦<MemDevice as Device>⟧.blocks d Region.Redo ≡ REDO_BLOCKS) }
    ensures fresh { IfOk result (λ d. ⟦<MemDevice as Device>⟧.faults d ≡ 0) }
    ensures failing { IfOk result (λ d. failing_calls d ≡ image.now.failing.items) }
    ensures asked { IfOk result (λ d. calls_asked d ≡ 0) }
{
    let failing = image.failing.clone()?;
    let dev = MemDevice::new(alloc, blocks, REDO_BLOCKS, failing);
    Ok(dev)
}

// Puts the blocks of a redo file on a device, one after the other, by as many calls.
fn put_redo(dev: &mut MemDevice, redo: &MemRedo) -> Result<(), DeviceFailed>
    requires room { redo.now.size ≤ ⟦<MemDevice as Device>⟧.blocks dev.old Region.Redo }
    requires unasked { calls_asked dev.old ≡ 0 }
    ensures written { OnOk result (⟦<MemDevice as Device>⟧.content dev.new ≡ map_told (with_redo (stored redo.now.blocks) redo.now.size) (⟦<MemDevice as Device>⟧.content dev.old)) }
    ensures sizes { ⟦<MemDevice as Device>⟧.blocks dev.new ≡ ⟦<MemDevice as Device>⟧.blocks dev.old }
    ensures calm { OnOk result (⟦<MemDevice as Device>⟧.faults dev.new ≡ ⟦<MemDevice as Device>⟧.faults dev.old) }
    ensures failing { failing_calls dev.new ≡ failing_calls dev.old }
    ensures asked { OnOk result (calls_asked dev.new ≡ redo.now.size) }
{
    let count = redo.size;
    for at in 0..count {
        let block = block_of(&redo.blocks, at);
        dev.write(Region::Redo, at, &block)?;
    }
    Ok(())
}

// The block that a map has there, or zeros.
fn block_of(blocks: &BTreeMap<u64, Block>, at: u64) -> Block
    ensures { result.bytes ≡ stored blocks.now at }
{
    match blocks.get(&at) {
        Some(block) => *block,
        None => Block::zeroed(),
    }
}

// The number of a call behind so many others. At 2^64 - 1 the count stays there.
fn call_behind(call: u64, others: u64) -> u64
    ensures { result ≡ raised call others }
{
    call.saturating_add(others)
}

// The numbers of these calls behind so many others.
fn calls_behind(alloc: Global, calls: &[u64], others: u64) -> Result<Vec<u64>, AllocError>
    ensures { IfOk result (λ behind. behind.items ≡ map (λ call. raised call others) calls.now) }
{
    calls
        .iter()
        .map(|call| call_behind(*call, others))
        .collect(alloc)
}

// A device over a copy of the image and of a redo file. Its first calls put the redo file there; of those
// behind them the chosen ones will fail.
fn open_beside(alloc: Global, image: &MemImage, redo: &MemRedo) -> Result<MemDevice, AllocError>
    ensures told { IfOk result (Opened ⟦<MemDevice as Device>⟧ (Some (file_of image.now)) (Some (redo_of redo.now))) }
    ensures fresh { IfOk result (λ d. ⟦<MemDevice as Device>⟧.faults d ≡ 0) }
    ensures failing { IfOk result (λ d. failing_calls d ≡ map (λ call. raised call redo.now.size) image.now.failing.items) }
    ensures asked { IfOk result (λ d. calls_asked d ≡ redo.now.size) }
{
    let blocks = copy_of(&image.blocks)?;
    let failing = calls_behind(alloc, image.failing.as_slice(), redo.size)?;
    let mut dev = MemDevice::with_image(alloc, image.size, redo.size, blocks, failing)?;
    match put_redo(&mut dev, redo) {
        Ok(()) => Ok(dev),
        Err(_) => Err(AllocError),
    }
}

// A device over a copy of the image and of a redo file, unless that was lost.
fn open_kept(alloc: Global, image: &MemImage, redo: &MemRedo) -> Result<MemDevice, AllocError>
    ensures told { IfOk result (Opened ⟦<MemDevice as Device>⟧ (Some (file_of image.now)) (redo_told redo.now)) }
    ensures fresh { IfOk result (λ d. ⟦<MemDevice as Device>⟧.faults d ≡ 0) }
    ensures failing { IfOk result (λ d. failing_calls d ≡ map (λ call. raised call redo.now.size) image.now.failing.items) }
    ensures asked { IfOk result (λ d. calls_asked d ≡ redo.now.size) }
{
    if redo.is_lost {
        return Err(AllocError);
    }
    open_beside(alloc, image, redo)
}

// A device over a copy of the image, with its redo region.
fn open_stored(
    alloc: Global,
    image: &MemImage,
    redos: &BTreeMap<String, MemRedo>,
    redo: Option<&str>,
) -> Result<MemDevice, AllocError>
    ensures told { IfOk result (Opened ⟦<MemDevice as Device>⟧ (Some (file_of image.now)) (redo_asked (redo_file_named redos.now) redo.entry)) }
    ensures redo_blocks { IsNone redo.entry → IfOk result (λ d. ⟦<MemDevice as Device>⟧.blocks d Region.Redo ≡ REDO_BLOCKS) }
    ensures fresh { IfOk result (λ d. ⟦<MemDevice as Device>⟧.faults d ≡ 0) }
    ensures failing { IfOk result (λ d. failing_calls d ≡ map (λ call. raised call (calls_for_redo redos.now redo.entry)) image.now.failing.items) }
    ensures asked { IfOk result (λ d. calls_asked d ≡ calls_for_redo redos.now redo.entry) }
{
    let Some(name) = redo else {
        return open_copy(alloc, image);
    };
    match redos.get(name) {
        Some(file) => open_kept(alloc, image, file),
        None => open_copy(alloc, image),
    }
}

// A device over this image, or over a new one in its place.
fn open_for(
    alloc: Global,
    image: &MemImage,
    redos: &BTreeMap<String, MemRedo>,
    redo: Option<&str>,
    purpose: Purpose,
) -> Result<MemDevice, AllocError>
    ensures told { IfOk result (Lent ⟦<MemDevice as Device>⟧ purpose true (Some (file_of image.now)) (redo_asked (redo_file_named redos.now) redo.entry)) }
    ensures redo_blocks { IsNone redo.entry → IfOk result (λ d. ⟦<MemDevice as Device>⟧.blocks d Region.Redo ≡ REDO_BLOCKS) }
    ensures fresh { IfOk result (λ d. ⟦<MemDevice as Device>⟧.faults d ≡ 0) }
    ensures failing { IfOk result (λ d. failing_calls d ≡ map (λ call. raised call (calls_to_open purpose redos.now redo.entry)) image.now.failing.items) }
    ensures asked { IfOk result (λ d. calls_asked d ≡ calls_to_open purpose redos.now redo.entry) }
{
    match purpose {
        Purpose::Check => open_stored(alloc, image, redos, redo),
        Purpose::Change => open_stored(alloc, image, redos, redo),
        Purpose::Make(blocks) => open_new(alloc, image, blocks),
    }
}

impl Watched for MemHost {
    type Eye = NoWatch;

    fn watch(&self) -> NoWatch {
        NoWatch
    }
}

impl Host for MemHost {
    type Dev = MemDevice;

    ghost use Rattle.std.specs.Prelude.{◌==◌, ◌∷◌, IsErrOf, OnErr, false};
    ghost use Rattle.blk_device.specs.Causes.{Rose, one_more};
    ghost use Rattle.image_hosts.specs.MemHost.{stored_by, redo_files_by, Awaits, asked_of, failing_behind, failing_by, loans_of};
    ghost use Rattle.image_hosts.specs.Stored.{Out, Back, Lends, IsAskedFor, asks, due_of, image_of};

    ghost tells = { λ h. true };

    ghost stored = { stored_by };

    ghost redo_files = { redo_files_by };

    ghost awaits = { Awaits };

    ghost asked = { asked_of };

    ghost loans = { loans_of };

    ghost host_faults = { λ h. h.host_faults };

    ghost dev_faults = { λ h. h.dev_faults };

    ghost report_keeps = { λ a b kept. kept };

    /// Opens a copy of the image, or a new one, on which the calls that are chosen for this image will
    /// fail, counted behind those that put a redo file there, one for each of its blocks. The host
    /// fails exactly where there is no image of that name.
    fn device(
        &mut self,
        image: &str,
        redo: Option<&str>,
        purpose: Purpose,
    ) -> Result<MemDevice, OpenFault>
        ensures told { IfOk result (Lent ⟦<MemDevice as Device>⟧ purpose true (stored_by self.old image.now)
            (redo_asked (redo_files_by self.old) redo.entry)) }
        ensures redo_blocks { IsNone redo.entry → IfOk result (λ dev. ⟦<MemDevice as Device>⟧.blocks dev Region.Redo ≡ REDO_BLOCKS) }
        ensures fresh { IfOk result (λ dev. ⟦<MemDevice as Device>⟧.faults dev ≡ 0) }
        ensures lent { IfOk result (λ dev. Lends (Out dev ∷ []) (loans_of self.old) (loans_of self.new)) }
        ensures unlent { OnErr result (loans_of self.new ≡ loans_of self.old) }
        ensures place { OnOk result (Awaits self.new image.now) }
        ensures others { (n : List ℕ) → bytes_eq n image.now ≡ false
            → stored_by self.new n ≡ stored_by self.old n }
        ensures none { OnErr result ((n : List ℕ) → stored_by self.new n ≡ stored_by self.old n) }
        ensures redo { (n : List ℕ) → redo_files_by self.new n ≡ redo_files_by self.old n }
        ensures failed { IsErrOf result OpenFault.Failed → Rose self.old.host_faults self.new.host_faults }
        ensures calm { OnOk result (self.new.host_faults ≡ self.old.host_faults) }
        ensures later { self.old.host_faults ≤ self.new.host_faults }
        ensures memory { IsErrOf result OpenFault.Memory → self.new.host_faults ≡ self.old.host_faults }
        ensures asked { IsAskedFor (IsErrOf result OpenFault.Memory)
            (asks image.now (name_of redo.entry) purpose) (asked_of self.old) (asked_of self.new) }
        ensures devices { self.new.dev_faults ≡ self.old.dev_faults }
        ensures report { Some self.new.report.items ≡ Some self.old.report.items }
        ensures sink { self.new.sink_faults ≡ self.old.sink_faults }
        ensures missing { IsErrOf result OpenFault.Failed → IsNone (failing_by self.old image.now) }
        ensures failing { IfOk result (λ dev. failing_behind (calls_to_open purpose self.old.redos redo.entry) self.old image.now ≡ Some (failing_calls dev)) }
        ensures first { IfOk result (λ dev. calls_asked dev ≡ calls_to_open purpose self.old.redos redo.entry) }
        ensures kept { (n : List ℕ) → failing_by self.new n ≡ failing_by self.old n }
    {
        let alloc = *self.asked.allocator();
        keep_request(alloc, &mut self.asked, image, redo, purpose)?;
        let Some(file) = self.images.get(image) else {
            count_fault(&mut self.host_faults);
            return Err(OpenFault::Failed);
        };
        // A copy: where there is no memory for it, the image is still there.
        let dev = open_for(alloc, file, &self.redos, redo, purpose)?;
        let due = due_for(alloc, purpose, redo)?;
        make_due(alloc, &mut self.redos, &due)?;
        self.due = due;
        Ok(dev)
    }

    /// Keeps the device's image under this name, and with it which calls are to fail; and where it was
    /// asked for to be changed, its redo region in the redo file.
    fn put_back(&mut self, image: &str, dev: MemDevice)
        requires { Awaits self.old image.now }
        ensures lent { Lends (Back dev ∷ []) (loans_of self.old) (loans_of self.new) }
        ensures image { (n : List ℕ) → stored_by self.new n ≡ stored_with image.now
            (image_of ⟦<MemDevice as Device>⟧ dev) (stored_by self.old) n }
        ensures redo { FollowsRedo (due_of (asked_of self.old))
            (stored_redo (⟦<MemDevice as Device>⟧.content dev) (⟦<MemDevice as Device>⟧.blocks dev))
            (redo_files_by self.old) (redo_files_by self.new) }
        ensures host { self.new.host_faults ≡ self.old.host_faults }
        ensures devices { self.new.dev_faults ≡ (if ⟦<MemDevice as Device>⟧.faults dev == 0
            then self.old.dev_faults
            else one_more self.old.dev_faults) }
        ensures asked { asked_of self.new ≡ asked_of self.old }
        ensures report { Some self.new.report.items ≡ Some self.old.report.items }
        ensures sink { self.new.sink_faults ≡ self.old.sink_faults }
        ensures kept { (n : List ℕ) → failing_by self.new n ≡ failing_by self.old n }
    {
        let mut dev = dev;
        count_failed(&mut self.dev_faults, dev.fault_count());
        let alloc = *self.asked.allocator();
        keep_due(alloc, &mut self.redos, &self.due, &mut dev);
        let size = dev.size(Region::Image);
        let blocks = dev.into_image();
        replace_image(&mut self.images, image, size, blocks);
    }
}

// A source over a copy of a script.
fn open_source(alloc: Global, bytes: &Vec<u8>) -> Result<MemSource, AllocError>
    ensures told { IfOk result (λ src. ⟦<MemSource as Source>⟧.bytes_left src ≡ Some bytes.now.items) }
    ensures fresh { IfOk result (λ src. ⟦<MemSource as Source>⟧.source_faults src ≡ 0) }
{
    let copy = bytes.clone()?;
    Ok(MemSource::new(copy, Vec::new(alloc)))
}

impl ScriptHost for MemHost {
    type Src = MemSource;

    ghost use Rattle.image_hosts.specs.MemHost.{script_by};

    ghost scripts = { script_by };

    ghost script_faults = { λ h. h.script_faults };

    fn script(&mut self, name: &str) -> Result<MemSource, OpenFault> {
        let alloc = *self.asked.allocator();
        let Some(bytes) = self.scripts.get(name) else {
            count_fault(&mut self.host_faults);
            return Err(OpenFault::Failed);
        };
        Ok(open_source(alloc, bytes)?)
    }

    fn script_back(&mut self, src: MemSource) {
        count_failed(&mut self.script_faults, src.fault_count());
    }
}
