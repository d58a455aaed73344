ghost use Rattle.std.specs.Prelude.{◌≡◌, IfOk, IfSome, is_some, string_bytes};
ghost use Rattle.xscrub.specs.LastLines.{head_name as head_name_of, head_fault_text as head_fault_text_of, last_line_of, is_fixed};

use ag_headers::HeadFault;
use fs_model::Head;
use geom::ImageFault;
use std::alloc::{AllocError, Global};

/// Why a check refuses a redo file: it has fewer blocks than a batch may need, or a batch waits in it.
#[derive(Clone, Copy, Debug, PartialEq, Eq)]
pub enum RedoRefusal {
    Short,
    Waiting,
}

/// Why a repair refuses the change that waits in a redo file: for its count of blocks, for the size of the
/// image that it is of, or for the place of a block.
#[derive(Clone, Copy, Debug, PartialEq, Eq)]
pub enum BatchRefusal {
    Count,
    Size,
    Place,
}

/// What a run says last where it ended before its last verdict: the words are wrong or ask for
/// a job that isn't built yet, the redo file, the change in it or the image is refused, the journal was
/// full, or device, host or memory failed.
#[derive(Clone, Copy, Debug, PartialEq, Eq)]
pub enum LastLine {
    Usage,
    Unbuilt,
    Redo(RedoRefusal),
    Batch(BatchRefusal),
    Image(ImageFault),
    Head {
        group: u32,
        head: Head,
        fault: HeadFault,
    },
    DeviceFailed,
    HostFailed,
    JournalFull,
    Memory,
}

fn head_name(head: Head) -> &'static str
    ensures { result.now ≡ head_name_of head }
{
    match head {
        Head::Agf => "agf",
        Head::Agi => "agi",
        Head::Agfl => "agfl",
    }
}

fn head_fault_text(alloc: Global, fault: HeadFault) -> Result<String, AllocError>
    ensures { IfOk result (λ text. string_bytes text ≡ head_fault_text_of fault) }
{
    match fault {
        HeadFault::Magic => String::from_str(alloc, "magic"),
        HeadFault::Version => String::from_str(alloc, "version"),
        HeadFault::Seqno => String::from_str(alloc, "seqno"),
        HeadFault::Length => String::from_str(alloc, "length"),
        HeadFault::Checksum => String::from_str(alloc, "checksum"),
        HeadFault::Uuid => String::from_str(alloc, "uuid"),
        HeadFault::FreeList(place) => format!(in alloc; "freelist {place}"),
    }
}

/// The last line that needs no memory, with its line feed: each but those of a feature's bit and
/// of a group's head, which have a number in them.
#[tactic(auto, unfolding(crate::specs::LastLines::last_line_of))]
pub fn fixed_line(line: &LastLine) -> Option<&'static str>
    ensures exact { IfSome result (λ text. text.now ≡ last_line_of line.now) }
    ensures which { is_some result ≡ is_fixed line.now }
{
    match *line {
        LastLine::Usage => Some(
            "usage: xscrub JOB TARGET [--redo FILE] [--script FILE] [--rebuild] [--turns N]\n",
        ),
        LastLine::Unbuilt => Some("unbuilt job\n"),
        LastLine::Redo(refusal) => Some(redo_line(refusal)),
        LastLine::Batch(refusal) => Some(batch_line(refusal)),
        LastLine::Image(fault) => fixed_image_line(fault),
        LastLine::Head { .. } => None,
        LastLine::DeviceFailed => Some("device failed\n"),
        LastLine::HostFailed => Some("host failed\n"),
        LastLine::JournalFull => Some("journal full\n"),
        LastLine::Memory => Some("memory\n"),
    }
}

#[tactic(auto, unfolding(crate::specs::LastLines::last_line_of))]
fn redo_line(refusal: RedoRefusal) -> &'static str
    ensures { result.now ≡ last_line_of (LastLine.Redo refusal) }
{
    match refusal {
        RedoRefusal::Short => "redo short\n",
        RedoRefusal::Waiting => "redo waiting\n",
    }
}

#[tactic(auto, unfolding(crate::specs::LastLines::last_line_of))]
fn batch_line(refusal: BatchRefusal) -> &'static str
    ensures { result.now ≡ last_line_of (LastLine.Batch refusal) }
{
    match refusal {
        BatchRefusal::Count => "redo count\n",
        BatchRefusal::Size => "redo size\n",
        BatchRefusal::Place => "redo place\n",
    }
}

#[tactic(auto, unfolding(crate::specs::LastLines::last_line_of))]
fn fixed_image_line(fault: ImageFault) -> Option<&'static str>
    ensures exact { IfSome result (λ text. text.now ≡ last_line_of (LastLine.Image fault)) }
    ensures which { is_some result ≡ is_fixed (LastLine.Image fault) }
{
    match fault {
        ImageFault::Magic => Some("image magic\n"),
        ImageFault::Version => Some("image version\n"),
        ImageFault::Sizes => Some("image sizes\n"),
        ImageFault::Feature(_) => None,
        ImageFault::Realtime => Some("image realtime\n"),
        ImageFault::Checksum => Some("image checksum\n"),
        ImageFault::Counts => Some("image counts\n"),
        ImageFault::DeviceShort => Some("image deviceshort\n"),
    }
}

/// Any last line, with its line feed.
#[tactic(auto, unfolding(crate::specs::LastLines::last_line_of))]
pub fn last_line(alloc: Global, line: &LastLine) -> Result<String, AllocError>
    ensures { IfOk result (λ text. string_bytes text ≡ last_line_of line.now) }
{
    match *line {
        LastLine::Image(ImageFault::Feature(bit)) => format!(in alloc; "image feature {bit}\n"),
        LastLine::Head { group, head, fault } => {
            let head = head_name(head);
            let fault = head_fault_text(alloc, fault)?;
            format!(in alloc; "group {group} {head} {fault}\n")
        }
        _ => String::from_str(alloc, fixed_line(line).unwrap_or("")),
    }
}
