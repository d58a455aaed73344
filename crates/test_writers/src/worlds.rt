// A core over the small image with two empty files, and its events.
ghost use Rattle.std.specs.Prelude.{IsTrue, ◌≡◌, ◌≤◌, ◌↔◌};
ghost use Rattle.blk_device.specs.declared.device.Region.TheVariants.{Image};
ghost use Rattle.core_parts.specs.Safe.{IsSafe};
ghost use Rattle.fsck_core.specs.Asks.{MayAsk};

use super::same::same;
use blk_device::{Device, MemDevice, Region};
use byte_fields::{Block, Steps};
use core_calls::{Answer, Ask, Glance, Phase};
use defer_chain::StepKind;
use dinode_core::{Core3, encode_core};
use fresh_image::fresh_block;
use fs_model::{Entry, Verdict};
use fs_state::Plan;
use fsck_core::{Core, into_device, open, run_event, with_notes};
use geom::{Geometry, try_geometry};
use image_hosts::MemImage;
use scrub_order::Order;
use small_images::{
    Group, Stretch, altered, at, bno_leaf, cnt_leaf, file_core, heads_of, mapped, mended,
    mended_heads, rmap_leaf, run, small_group, small_owned, small_with, written,
};
use std::alloc::Global;
use std::marker::Brand;
use std::process::Abort;
use std::sync::ledger::{Blank, Ledger};

pub(crate) const FITS: &str = "memory is there";

const READS: &str = "it can be read";

// Block 24 with regular files in the places of inodes 195, which has these blocks, and 196, which is
// empty.
pub(crate) fn chunk(blocks: &[Stretch], count: u64) -> Block {
    let mut block = fresh_block(1, 256, 24);
    let first = Core3 {
        nblocks: count,
        ..file_core(blocks)
    };
    let mut bytes = [0; 512];
    encode_core(&first, &mut bytes);
    block.bytes[1536..2048].copy_from_slice(&bytes);
    let second = Core3 {
        ino: 196,
        nblocks: 0,
        ..file_core(&[])
    };
    encode_core(&second, &mut bytes);
    block.bytes[2048..2560].copy_from_slice(&bytes);
    block
}

// A leaf of one of the two inode btrees, with these two inodes taken.
pub(crate) fn leaf(number: u8) -> Block {
    let block = fresh_block(1, 256, u64::from(number));
    mended(altered(altered(block, 60, 0x0000_403b), 68, 0xffff_ffe0))
}

// Block 0 of a group with these two inodes taken.
pub(crate) fn heads(group: &Group) -> Block {
    mended_heads(altered(heads_of(group), 1052, 59))
}

/// The small image with the empty regular files 195 and 196.
pub(crate) fn two_files(rt: &impl Abort, alloc: Global) -> MemImage {
    small_with(
        alloc,
        &[
            (0, heads(&small_group())),
            (3, leaf(3)),
            (4, leaf(4)),
            (24, chunk(&[], 0)),
        ],
    )
    .expect(rt, FITS)
}

/// The same, where the blocks 40 to 49 are the first ten of file 195.
pub(crate) fn full_file(rt: &impl Abort, alloc: Global) -> MemImage {
    let group = Group {
        freeblks: 219,
        longest: 206,
        ..small_group()
    };
    let by_start = [run(19, 5), run(32, 8), run(50, 206)];
    let mut owners = small_owned().to_vec(alloc).expect(rt, FITS);
    owners.push(mapped(40, 10, 195, 0)).expect(rt, FITS);
    small_with(
        alloc,
        &[
            (0, heads(&group)),
            (1, bno_leaf(at(1), &by_start)),
            (2, cnt_leaf(at(2), &by_start)),
            (3, leaf(3)),
            (4, leaf(4)),
            (5, rmap_leaf(at(5), owners.as_slice())),
            (24, chunk(&[written(0, 40, 10)], 10)),
        ],
    )
    .expect(rt, FITS)
}

// A device over an image with a redo file beside it.
fn device_of(rt: &impl Abort, alloc: Global, image: MemImage) -> MemDevice {
    let MemImage {
        size,
        blocks,
        failing,
    } = image;
    MemDevice::with_image(alloc, size, 162, blocks, failing).expect(rt, FITS)
}

// The geometry that a device's image states.
fn geometry_of<D: Device>(rt: &impl Abort, dev: &mut D) -> Geometry
    ensures image { result.dblocks ≤ D.blocks dev.new Image }
    ensures sizes { D.blocks dev.new ≡ D.blocks dev.old }
{
    let size = dev.size(Region::Image);
    assert!(rt; size > 0, "it has a block");
    let mut first = Block::zeroed();
    dev.read(Region::Image, 0, &mut first).expect(rt, READS);
    try_geometry(&first, size).expect(rt, READS)
}

// A core over a device.
fn opened<D: Device + Drop, L: Ledger>(
    rt: &impl Abort,
    alloc: Global,
    dev: D,
    steps: &mut Steps<L>,
) -> Core<D>
    ensures safe { IsSafe D.Device result.parts }
{
    let mut dev = dev;
    let geo = geometry_of(rt, &mut dev);
    assert!(rt; dev.size(Region::Redo) >= 162, "a batch has room");
    match open(alloc, dev, geo, steps) {
        Ok(parts) => with_notes(parts),
        Err(_) => panic!(rt; "it can be opened"),
    }
}

// A core over an image.
pub(crate) fn core_over<L: Ledger>(
    rt: &impl Abort,
    alloc: Global,
    image: MemImage,
    steps: &mut Steps<L>,
) -> Core<MemDevice>
    ensures safe { IsSafe ⟦<MemDevice as Device>⟧ result.parts }
{
    let dev = device_of(rt, alloc, image);
    opened(rt, alloc, dev, steps)
}

// Whether an event may be asked of a core with so many groups.
fn may_ask(groups: u32, ask: Ask) -> bool
    ensures { IsTrue result ↔ MayAsk groups ask }
{
    match ask {
        Ask::Refill { group } => group < groups,
        Ask::Start { group, .. } => group < groups,
        Ask::Advance { group } => group < groups,
        Ask::ScanPiece { group } => group < groups,
        Ask::Close { group } => group < groups,
        Ask::GatherPiece { group } => group < groups,
        Ask::ComparePiece { group } => group < groups,
        Ask::ReservePiece { group } => group < groups,
        Ask::StagePiece { group } => group < groups,
        Ask::Switch { group } => group < groups,
        Ask::ReapPiece { group } => group < groups,
        Ask::Reopen { group } => group < groups,
        _ => true,
    }
}

// One event.
pub(crate) fn asked<D: Device, L: Ledger>(
    rt: &impl Abort,
    alloc: Global,
    core: &mut Core<D>,
    ask: Ask,
    steps: &mut Steps<L>,
) -> (Answer, Glance)
    requires safe { IsSafe D.Device core.old.parts }
    ensures safe { IsSafe D.Device core.new.parts }
{
    let groups = core.parts.desk.store.geo.agcount;
    assert!(rt; may_ask(groups, ask), "there is such a group");
    run_event(alloc, core, ask, steps)
}

// The step of chain 0 that is next.
fn step_of(next: Option<StepKind>) -> Option<Ask> {
    match next {
        Some(StepKind::Rmap) => Some(Ask::RmapStep { chain: 0 }),
        Some(StepKind::Ref) => Some(Ask::RefStep { chain: 0 }),
        Some(StepKind::Free) => Some(Ask::FreeStep { chain: 0 }),
        None => None,
    }
}

// One event, and then all steps that chain 0 owes; what the event answered.
fn done<D: Device, L: Ledger>(
    rt: &impl Abort,
    alloc: Global,
    core: &mut Core<D>,
    ask: Ask,
    steps: &mut Steps<L>,
) -> Answer
    requires safe { IsSafe D.Device core.old.parts }
    ensures safe { IsSafe D.Device core.new.parts }
{
    let (answer, glance) = asked(rt, alloc, core, ask, steps);
    let mut next = glance.next;
    for _ in 0..1000u32 {
        let Some(step) = step_of(next) else {
            return answer;
        };
        let (answered, glance) = asked(rt, alloc, core, step, steps);
        same(rt, answered, Answer::Done);
        next = glance.next;
    }
    panic!(rt; "steps end")
}

// Does these events with all their steps, each of which is to answer so.
fn all_done<D: Device, L: Ledger>(
    rt: &impl Abort,
    alloc: Global,
    core: &mut Core<D>,
    rows: &[(Ask, Answer)],
    steps: &mut Steps<L>,
)
    requires safe { IsSafe D.Device core.old.parts }
    ensures safe { IsSafe D.Device core.new.parts }
{
    for (ask, wanted) in rows {
        let answer = done(rt, alloc, core, *ask, steps);
        same(rt, (*ask, answer), (*ask, *wanted));
    }
}

// The order takes an answer, which may come.
fn take(rt: &impl Abort, order: &mut Order, answer: Answer, phase: Phase) {
    assert!(rt; order.can_take(answer, phase), "it may answer so");
    order.took(answer, phase);
}

// Judges all units, and answers how many were good and how many weren't.
fn judged<D: Device, L: Ledger>(
    rt: &impl Abort,
    alloc: Global,
    core: &mut Core<D>,
    steps: &mut Steps<L>,
) -> (u32, u32)
    requires safe { IsSafe D.Device core.old.parts }
{
    let mut order = Order::new(1, Plan::Check, 3);
    for _ in 0..1000u32 {
        let Some(ask) = order.ask() else {
            return verdicts(core.parts.desk.book.journal.as_slice());
        };
        let (answer, glance) = asked(rt, alloc, core, ask, steps);
        take(rt, &mut order, answer, glance.phase);
    }
    panic!(rt; "the order ends")
}

// How many verdicts are good, and how many aren't.
fn verdicts(journal: &[Entry]) -> (u32, u32) {
    let mut good = 0u32;
    let mut other = 0u32;
    for entry in journal {
        if let Entry::Verdict { verdict, .. } = entry {
            if *verdict == Verdict::Good {
                good = good.saturating_add(1);
            } else {
                other = other.saturating_add(1);
            }
        }
    }
    (good, other)
}

// The last entry of the journal.
fn last_entry<D: Device>(core: &Core<D>) -> Option<Entry> {
    core.parts.desk.book.journal.last().copied()
}

// Ends the core.
fn end<D: Device + Drop>(core: Core<D>) {
    let Core { parts, notes: _ } = core;
    let _ = into_device(parts);
}

// What these events leave: the last entry, and how many units a scrubber then finds good, and how many
// it doesn't.
fn left<L: Ledger>(
    rt: &impl Abort,
    alloc: Global,
    image: MemImage,
    rows: &[(Ask, Answer)],
    blank: Blank,
) -> (Option<Entry>, (u32, u32))
    requires name { blank.name ≡ L.name }
    requires parts { blank.parts ≡ L.parts }
    requires three { blank.parts ≡ 3 }
{
    let mut steps = Steps::<L>::new(blank);
    let mut core = core_over(rt, alloc, image, &mut steps);
    all_done(rt, alloc, &mut core, rows, &mut steps);
    let last = last_entry(&core);
    let found = judged(rt, alloc, &mut core, &mut steps);
    end(core);
    (last, found)
}

/// Does these events, each of which is to answer so, on a core over this image, asserts that a scrubber
/// finds all four units good after them, and answers the last entry of their journal.
pub(crate) fn expect_rows(
    rt: &impl Abort,
    alloc: Global,
    image: MemImage,
    rows: &[(Ask, Answer)],
) -> Option<Entry> {
    let blank = Blank::new(3);
    let (last, found) = left::<Brand>(rt, alloc, image, rows, blank);
    same(rt, found, (4, 0));
    last
}
