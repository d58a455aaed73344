ghost use Rattle.std.specs.Prelude.{◌≡◌, ◌+◌, ◌<◌, ◌≤◌, [], IfErr, IfOk, IfSome};
ghost use Rattle.blk_device.specs.Contents.{Holds};
ghost use Rattle.blk_device.specs.Reading.{EachBlock, Keeps};
ghost use Rattle.blk_device.specs.Taken.{IsFront};
ghost use Rattle.geom.specs.Places.{layout};
ghost use Rattle.image_check.specs.Image.{ReadsForEvents, image_checked, image_events as groups_events};
ghost use Rattle.xscrub.specs.Image.{checked_outcome};
ghost use Rattle.xscrub.specs.Judged.{HasFrontOf, IsJudged, JudgeCause, ReadsForImage, Says, SaysStop, TellsOfImage, journal_at, journal_in, judgement_outcome};
ghost use Rattle.xscrub.specs.Units.{HasFirstUnits};

use crate::last_lines::LastLine;
use blk_device::{Device, Region};
use byte_fields::{Block, Steps};
use check_watch::Watch;
use fs_model::Entry;
use geom::{Geometry, ImageFault, try_geometry};
use image_check::check_image;
use space_check::{CheckStop, Halt};
use std::alloc::Global;
use std::marker::Brand;
use std::sync::ledger::{Blank, Ledger};
use thiserror::Error;

/// What a device holds: an image that was judged, with its journal; one whose journal was full
/// before the last unit, with the entries that it kept; or one that is refused, with the line that
/// says why.
#[derive(Debug, PartialEq, Eq, Drop)]
pub enum Judgement {
    Judged(Vec<Entry>),
    Full(Vec<Entry>),
    Refused(LastLine),
}

/// Why an image wasn't judged: the device failed, and its count of faults rose, or there is no
/// memory. The journal so far goes with it.
#[derive(Debug, PartialEq, Eq, Drop, Error)]
pub enum JudgeFault {
    #[error("device failed")]
    Device(Vec<Entry>),
    #[error("memory")]
    Memory(Vec<Entry>),
}

// What a check that was stopped says of the image.
fn judgement_at(stop: CheckStop) -> Result<Judgement, JudgeFault>
    ensures { SaysStop stop result }
{
    let CheckStop { cause, journal } = stop;
    match cause {
        Halt::Head { group, head, fault } => {
            Ok(Judgement::Refused(LastLine::Head { group, head, fault }))
        }
        Halt::Full => Ok(Judgement::Full(journal)),
        Halt::Failed => Err(JudgeFault::Device(journal)),
        Halt::Memory => Err(JudgeFault::Memory(journal)),
    }
}

// What the check of an image's groups says of the image.
fn judgement_of(checked: Result<Vec<Entry>, CheckStop>) -> Result<Judgement, JudgeFault>
    ensures { Says checked result }
{
    match checked {
        Ok(journal) => Ok(Judgement::Judged(journal)),
        Err(stop) => judgement_at(stop),
    }
}

// Judges the groups of an image. The ledger is that of its steps.
fn judge_counted<D: Device, L: Ledger, W: Watch>(
    alloc: Global,
    dev: &mut D,
    geo: &Geometry,
    blank: Blank,
    watch: &mut W,
) -> Result<Judgement, JudgeFault>
    requires room { geo.now.dblocks ≤ D.blocks dev.old Region.Image }
    requires name { blank.name ≡ L.name }
    requires parts { blank.parts ≡ L.parts }
    requires three { blank.parts ≡ 3 }
    ensures told { IfOk result (λ found. IfSome (D.content dev.old)
        (λ m. judgement_outcome found ≡ checked_outcome (image_checked (layout geo.now) (m Region.Image)))) }
    ensures line { IfOk result TellsOfImage }
    ensures front { IfErr result (λ fault. IfSome (D.content dev.old)
        (λ m. IsFront (journal_at fault) (checked_outcome (image_checked (layout geo.now) (m Region.Image))).journal)) }
    ensures kept { IfSome (D.content dev.old)
        (λ m. ReadsForEvents (groups_events (layout geo.now) (m Region.Image)) (D.reads dev.old) (D.reads dev.new) (journal_in result)) }
    ensures units { IfErr result (λ fault. HasFirstUnits (journal_at fault)) }
    ensures same { D.content dev.new ≡ D.content dev.old }
    ensures sizes { D.blocks dev.new ≡ D.blocks dev.old }
    ensures crash { Keeps D.Device EachBlock dev.old dev.new }
    ensures cause { JudgeCause (D.faults dev.old) (D.faults dev.new) result }
{
    let mut steps = Steps::<L>::new(blank);
    let checked = check_image(alloc, dev, geo, &mut steps, watch);
    judgement_of(checked)
}

// Judges the groups of an image, for a caller that counts no steps.
fn judge_groups<D: Device, W: Watch>(
    alloc: Global,
    dev: &mut D,
    geo: &Geometry,
    watch: &mut W,
) -> Result<Judgement, JudgeFault>
    requires room { geo.now.dblocks ≤ D.blocks dev.old Region.Image }
    ensures told { IfOk result (λ found. IfSome (D.content dev.old)
        (λ m. judgement_outcome found ≡ checked_outcome (image_checked (layout geo.now) (m Region.Image)))) }
    ensures line { IfOk result TellsOfImage }
    ensures front { IfErr result (λ fault. IfSome (D.content dev.old)
        (λ m. IsFront (journal_at fault) (checked_outcome (image_checked (layout geo.now) (m Region.Image))).journal)) }
    ensures kept { IfSome (D.content dev.old)
        (λ m. ReadsForEvents (groups_events (layout geo.now) (m Region.Image)) (D.reads dev.old) (D.reads dev.new) (journal_in result)) }
    ensures units { IfErr result (λ fault. HasFirstUnits (journal_at fault)) }
    ensures same { D.content dev.new ≡ D.content dev.old }
    ensures sizes { D.blocks dev.new ≡ D.blocks dev.old }
    ensures crash { Keeps D.Device EachBlock dev.old dev.new }
    ensures cause { JudgeCause (D.faults dev.old) (D.faults dev.new) result }
{
    let blank = Blank::new(3);
    judge_counted::<D, Brand, W>(alloc, dev, geo, blank, watch)
}

// Reads block 0 of the image.
fn first_block<D: Device>(alloc: Global, dev: &mut D) -> Result<Block, JudgeFault>
    requires { 0 < D.blocks dev.old Region.Image }
    ensures bytes { IfOk result (λ block. Holds Region.Image 0 block.bytes (D.content dev.old)) }
    ensures none { IfErr result (λ fault. journal_at fault ≡ []) }
    ensures one { D.reads dev.new ≤ D.reads dev.old + 1 }
    ensures same { D.content dev.new ≡ D.content dev.old }
    ensures sizes { D.blocks dev.new ≡ D.blocks dev.old }
    ensures crash { Keeps D.Device EachBlock dev.old dev.new }
    ensures cause { JudgeCause (D.faults dev.old) (D.faults dev.new) result }
{
    let mut first = Block::zeroed();
    match dev.read(Region::Image, 0, &mut first) {
        Ok(()) => Ok(first),
        Err(_) => Err(JudgeFault::Device(Vec::new(alloc))),
    }
}

/// Judges the image of a device: its superblock, the heads of all groups, and then all units of each
/// group. The first fault of a superblock or a head refuses the image, and a full journal is told as
/// that. Where the device fails or memory is short, what was judged until then is kept. How far it is
/// is told to `watch`. Nothing is written (XFS Online Fsck Design, "Cross-Referencing Space Metadata").
pub fn judge<D: Device, W: Watch>(
    alloc: Global,
    dev: &mut D,
    watch: &mut W,
) -> Result<Judgement, JudgeFault>
    ensures told { IfOk result (λ found. IsJudged (D.content dev.old) (D.blocks dev.old Region.Image) found) }
    ensures line { IfOk result TellsOfImage }
    ensures front { IfErr result (HasFrontOf (D.content dev.old) (D.blocks dev.old Region.Image)) }
    ensures kept { ReadsForImage (D.content dev.old) (D.blocks dev.old Region.Image) (D.reads dev.old) (D.reads dev.new) result }
    ensures units { IfErr result (λ fault. HasFirstUnits (journal_at fault)) }
    ensures same { D.content dev.new ≡ D.content dev.old }
    ensures sizes { D.blocks dev.new ≡ D.blocks dev.old }
    ensures crash { Keeps D.Device EachBlock dev.old dev.new }
    ensures cause { JudgeCause (D.faults dev.old) (D.faults dev.new) result }
{
    let blocks = dev.size(Region::Image);
    if blocks == 0 {
        return Ok(Judgement::Refused(LastLine::Image(ImageFault::DeviceShort)));
    }
    let first = first_block(alloc, dev)?;
    let geo = match try_geometry(&first, blocks) {
        Ok(geo) => geo,
        Err(fault) => return Ok(Judgement::Refused(LastLine::Image(fault))),
    };
    judge_groups(alloc, dev, &geo, watch)
}
