// Lists of events, asked one by one of a core over an image, and what they leave.
ghost use Rattle.std.specs.Prelude.{◌≡◌};
ghost use Rattle.core_parts.specs.Safe.{IsSafe};

use super::same::same;
use super::worlds::{FITS, asked, core_over};
use blk_device::{Device, MemDevice};
use byte_fields::{Block, Steps, get_u32};
use core_calls::{Answer, Ask};
use core_parts::{Parts, Work};
use fs_model::Entry;
use fsck_core::{Core, into_device};
use image_hosts::MemImage;
use std::alloc::Global;
use std::collections::BTreeMap;
use std::marker::Brand;
use std::process::Abort;
use std::sync::ledger::{Blank, Ledger};

/// An event with its answer, or one that is asked again until it answers that all is done.
#[derive(Clone, Copy)]
pub(crate) enum Act {
    Once(Ask, Answer),
    Whole(Ask),
}

/// A run that a scan has heard of: its first block, how many there are, the inode, and its word.
pub(crate) type Heard = (u32, u32, u64, u64);

/// What a list of events leaves: the image's blocks, how often each of the first 256 was read, the
/// journal, and what the scan of group 0 has heard.
#[derive(Drop)]
pub(crate) struct Played {
    pub blocks: BTreeMap<u64, Block>,
    pub reads: Vec<u64>,
    pub journal: Vec<Entry>,
    pub heard: Vec<Heard>,
}

// Asks for an event until all is done.
fn whole<D: Device, L: Ledger>(
    rt: &impl Abort,
    alloc: Global,
    core: &mut Core<D>,
    ask: Ask,
    steps: &mut Steps<L>,
)
    requires safe { IsSafe D.Device core.old.parts }
    ensures safe { IsSafe D.Device core.new.parts }
{
    for _ in 0..1000u32 {
        let (answer, _) = asked(rt, alloc, core, ask, steps);
        if answer == Answer::Part(true) {
            return;
        }
        same(rt, (ask, answer), (ask, Answer::Part(false)));
    }
    panic!(rt; "pieces end")
}

// Asks for an event, and asserts what it answers.
fn once<D: Device, L: Ledger>(
    rt: &impl Abort,
    alloc: Global,
    core: &mut Core<D>,
    row: (Ask, Answer),
    steps: &mut Steps<L>,
)
    requires safe { IsSafe D.Device core.old.parts }
    ensures safe { IsSafe D.Device core.new.parts }
{
    let (ask, wanted) = row;
    let (answer, _) = asked(rt, alloc, core, ask, steps);
    same(rt, (ask, answer), (ask, wanted));
}

fn do_act<D: Device, L: Ledger>(
    rt: &impl Abort,
    alloc: Global,
    core: &mut Core<D>,
    act: Act,
    steps: &mut Steps<L>,
)
    requires safe { IsSafe D.Device core.old.parts }
    ensures safe { IsSafe D.Device core.new.parts }
{
    match act {
        Act::Once(ask, wanted) => once(rt, alloc, core, (ask, wanted), steps),
        Act::Whole(ask) => whole(rt, alloc, core, ask, steps),
    }
}

fn act_all<D: Device, L: Ledger>(
    rt: &impl Abort,
    alloc: Global,
    core: &mut Core<D>,
    acts: &[Act],
    steps: &mut Steps<L>,
)
    requires safe { IsSafe D.Device core.old.parts }
    ensures safe { IsSafe D.Device core.new.parts }
{
    for one in acts {
        do_act(rt, alloc, core, *one, steps);
    }
}

fn act_lists<D: Device, L: Ledger>(
    rt: &impl Abort,
    alloc: Global,
    core: &mut Core<D>,
    lists: &[&[Act]],
    steps: &mut Steps<L>,
)
    requires safe { IsSafe D.Device core.old.parts }
    ensures safe { IsSafe D.Device core.new.parts }
{
    for list in lists {
        act_all(rt, alloc, core, *list, steps);
    }
}

// What the scan of group 0, or the one that has ended there, has heard.
fn heard_by<D: Device>(rt: &impl Abort, alloc: Global, parts: &Parts<D>) -> Vec<Heard> {
    let mut heard = Vec::new(alloc);
    let Some(Some(unit)) = parts.units.first() else {
        return heard;
    };
    let runs = match &unit.work {
        Work::Scanning(scan) => scan.shadow.runs(),
        Work::Open(list) => list.as_slice(),
        _ => &[],
    };
    for run in runs {
        heard
            .push((run.start, run.count, run.owner, run.word))
            .expect(rt, FITS);
    }
    heard
}

fn reads_of(rt: &impl Abort, alloc: Global, dev: &MemDevice) -> Vec<u64> {
    let mut reads = Vec::new(alloc);
    for at in 0..256u64 {
        reads.push(dev.reads_at(at)).expect(rt, FITS);
    }
    reads
}

fn play_counted<L: Ledger>(
    rt: &impl Abort,
    alloc: Global,
    image: MemImage,
    lists: &[&[Act]],
    blank: Blank,
) -> Played
    requires name { blank.name ≡ L.name }
    requires parts { blank.parts ≡ L.parts }
    requires three { blank.parts ≡ 3 }
{
    let mut steps = Steps::<L>::new(blank);
    let mut core = core_over(rt, alloc, image, &mut steps);
    act_lists(rt, alloc, &mut core, lists, &mut steps);
    let heard = heard_by(rt, alloc, &core.parts);
    let Core { parts, notes: _ } = core;
    let (dev, journal) = into_device(parts);
    let reads = reads_of(rt, alloc, &dev);
    Played {
        blocks: dev.into_image(),
        reads,
        journal,
        heard,
    }
}

/// Asks for all events of these lists of a core over this image, each of which is to answer so.
pub(crate) fn play(rt: &impl Abort, alloc: Global, image: MemImage, lists: &[&[Act]]) -> Played {
    let blank = Blank::new(3);
    play_counted::<Brand>(rt, alloc, image, lists, blank)
}

// The number in the four bytes at this place, or 0 where they don't lie in the block.
fn word_in(block: &Block, at: usize) -> u32 {
    if at <= 4092 {
        return get_u32(&block.bytes, at);
    }
    0
}

// How many bytes a record has in a leaf with this magic number.
fn size_in(magic: u32) -> usize {
    match magic {
        0x524d_4233 => 24,
        0x5233_4643 => 12,
        0x4941_4233 | 0x4649_4233 => 16,
        _ => 8,
    }
}

// The first place behind the records of a leaf.
fn end_of(leaf: &Block) -> usize {
    let records = (word_in(leaf, 4) % 65536) as usize;
    size_in(word_in(leaf, 0))
        .saturating_mul(records)
        .saturating_add(56)
}

// Whether a place of a leaf belongs to its kind, its level, the count of its records, or these.
fn is_said(leaf: &Block, at: usize) -> bool {
    at < 8 || at >= 56 && at < end_of(leaf)
}

// The first place at which a leaf has another kind or another record than the wanted one.
fn differs_at(found: &Block, wanted: &Block) -> Option<usize> {
    for i in 0..1024usize {
        let at = i.saturating_mul(4);
        if is_said(wanted, at) && word_in(found, at) != word_in(wanted, at) {
            return Some(at);
        }
    }
    None
}

// A block of the image; zeros where it holds none.
fn block_of(played: &Played, number: u64) -> Block {
    match played.blocks.get(&number) {
        Some(block) => *block,
        None => Block::zeroed(),
    }
}

/// Asserts that these blocks are leaves with the records of these.
pub(crate) fn expect_leaves(rt: &impl Abort, played: &Played, leaves: &[(u64, Block)]) {
    for (number, wanted) in leaves {
        let found = block_of(played, *number);
        same(rt, (*number, differs_at(&found, wanted)), (*number, None));
    }
}

/// Asserts numbers of four bytes, each with its block and its place there.
pub(crate) fn expect_words(rt: &impl Abort, played: &Played, words: &[(u64, usize, u32)]) {
    for (number, at, wanted) in words {
        let found = word_in(&block_of(played, *number), *at);
        same(rt, (*number, *at, found), (*number, *at, *wanted));
    }
}

/// Asserts what the journal holds.
pub(crate) fn expect_journal(rt: &impl Abort, played: &Played, wanted: &[Entry]) {
    same(rt, played.journal.as_slice(), wanted);
}

/// Asserts what the scan of group 0 has heard.
pub(crate) fn expect_heard(rt: &impl Abort, played: &Played, wanted: &[Heard]) {
    same(rt, played.heard.as_slice(), wanted);
}

/// Asserts that all blocks are as they were in this image.
pub(crate) fn expect_untouched(rt: &impl Abort, played: &Played, before: &MemImage) {
    for number in 0..256u64 {
        let wanted = match before.blocks.get(&number) {
            Some(block) => *block,
            None => Block::zeroed(),
        };
        let is_same = block_of(played, number) == wanted;
        same(rt, (number, is_same), (number, true));
    }
}
