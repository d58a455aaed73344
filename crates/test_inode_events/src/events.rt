// Inodes taken and given back, and free lists filled and trimmed.
ghost use Rattle.std.specs.Prelude.{◌≡◌};
ghost use Rattle.core_parts.specs.Safe.{IsSafe};

use crate::same::same;
use crate::worlds::{FITS, core_fresh, core_over, ended, list_of, with_list};
use ag_headers::Agfl;
use blk_device::Device;
use byte_fields::Steps;
use core_calls::WriteFault;
use core_chains::chains::end;
use core_chains::refill::refill;
use core_files::inodes::{give_inode, take_inode};
use core_parts::Parts;
use fs_model::{Cause, Entry, Extent};
use image_hosts::MemImage;
use rmap_recs::RmapRec;
use sblock::Kind;
use small_images::{
    Group, at, bno_leaf, cnt_leaf, heads_of, image_of, owned, refc_leaf, rmap_leaf, run,
    small_group, small_owned,
};
use span_recs::SpanRec;
use std::alloc::Global;
use std::marker::Brand;
use std::process::Abort;
use std::sync::ledger::{Blank, Ledger};

fn taken(ino: u64, chunk: Option<u32>) -> Entry {
    Entry::Taken {
        writer: 1,
        ino,
        uid: 7,
        chunk,
    }
}

// Takes an inode, and ends its chain.
fn take_one<D: Device, L: Ledger>(
    rt: &impl Abort,
    alloc: Global,
    parts: &mut Parts<D>,
    steps: &mut Steps<L>,
) -> u64
    requires safe { IsSafe D.Device parts.old }
    ensures safe { IsSafe D.Device parts.new }
{
    let (ino, chain) = take_inode(alloc, parts, 1, 7, steps).expect(rt, "an inode is free");
    end(parts, chain).expect(rt, "it owes nothing");
    ino
}

// Takes so many inodes, and ends their chains.
fn take_many<D: Device, L: Ledger>(
    rt: &impl Abort,
    alloc: Global,
    parts: &mut Parts<D>,
    count: u32,
    steps: &mut Steps<L>,
) -> u64
    requires safe { IsSafe D.Device parts.old }
    ensures safe { IsSafe D.Device parts.new }
{
    let mut last = 0;
    for _ in 0..count {
        last = take_one(rt, alloc, parts, steps);
    }
    last
}

fn two_taken<D: Device, L: Ledger>(
    rt: &impl Abort,
    alloc: Global,
    parts: &mut Parts<D>,
    steps: &mut Steps<L>,
)
    requires safe { IsSafe D.Device parts.old }
    ensures safe { IsSafe D.Device parts.new }
{
    let first = take_inode(alloc, parts, 1, 7, steps);
    same(rt, first, Ok((195, 0)));
    same(rt, parts.desk.drain.holder(195).is_some(), true);
    let second = take_inode(alloc, parts, 1, 7, steps);
    same(rt, second, Ok((196, 1)));
    same(rt, give_inode(alloc, parts, 0, steps), Ok(()));
    same(rt, parts.desk.drain.holder(195).is_none(), true);
    let again = give_inode(alloc, parts, 0, steps);
    same(rt, again, Err(WriteFault::NoChain));
}

fn lowest<L: Ledger>(rt: &impl Abort, alloc: Global, steps: &mut Steps<L>) {
    let mut parts = core_fresh(rt, alloc, steps);
    two_taken(rt, alloc, &mut parts, steps);
    let (journal, bad) = ended(rt, alloc, parts, steps);
    let wanted = [
        taken(195, None),
        taken(196, None),
        Entry::Given {
            writer: 1,
            ino: 195,
        },
    ];
    same(rt, journal.as_slice(), &wanted[..]);
    same(rt, bad, 0);
}

fn one_chunk_more<D: Device, L: Ledger>(
    rt: &impl Abort,
    alloc: Global,
    parts: &mut Parts<D>,
    steps: &mut Steps<L>,
)
    requires safe { IsSafe D.Device parts.old }
    ensures safe { IsSafe D.Device parts.new }
{
    same(rt, take_many(rt, alloc, parts, 61, steps), 255);
    let made = take_inode(alloc, parts, 1, 7, steps);
    same(rt, made, Ok((256, 0)));
    same(rt, take_many(rt, alloc, parts, 2, steps), 258);
    same(rt, give_inode(alloc, parts, 0, steps), Ok(()));
}

fn chunk<L: Ledger>(rt: &impl Abort, alloc: Global, steps: &mut Steps<L>) {
    let mut parts = core_fresh(rt, alloc, steps);
    one_chunk_more(rt, alloc, &mut parts, steps);
    let (journal, bad) = ended(rt, alloc, parts, steps);
    same(rt, journal.len(), 65);
    same(rt, journal.get(61).copied(), Some(taken(256, Some(32))));
    same(rt, bad, 0);
}

fn sixteen_taken<D: Device, L: Ledger>(
    rt: &impl Abort,
    alloc: Global,
    parts: &mut Parts<D>,
    steps: &mut Steps<L>,
)
    requires safe { IsSafe D.Device parts.old }
    ensures safe { IsSafe D.Device parts.new }
{
    for i in 0..16u32 {
        let found = take_inode(alloc, parts, 1, 7, steps);
        same(rt, found, Ok((u64::from(i).saturating_add(195), i)));
    }
    let found = take_inode(alloc, parts, 1, 7, steps);
    same(rt, found, Err(WriteFault::Crowded));
}

fn crowd<L: Ledger>(rt: &impl Abort, alloc: Global, steps: &mut Steps<L>) {
    let mut parts = core_fresh(rt, alloc, steps);
    sixteen_taken(rt, alloc, &mut parts, steps);
    let (journal, bad) = ended(rt, alloc, parts, steps);
    same(rt, journal.len(), 16);
    same(rt, bad, 0);
}

// The owners of the small image's blocks, and these.
fn owners_with(rt: &impl Abort, alloc: Global, owners: &[RmapRec]) -> Vec<RmapRec> {
    let mut all = small_owned().to_vec(alloc).expect(rt, FITS);
    for rec in owners {
        all.push(*rec).expect(rt, FITS);
    }
    all
}

// The one group with these free runs, of which the last is the longest.
fn group_with(free: &[SpanRec]) -> Group {
    let mut freeblks = 0u32;
    let mut longest = 0;
    for rec in free {
        freeblks = freeblks.saturating_add(rec.count);
        longest = rec.count;
    }
    Group {
        freeblks,
        longest,
        ..small_group()
    }
}

// The small image with these owners beside those of the group, and these free runs.
fn image_with(rt: &impl Abort, alloc: Global, owners: &[RmapRec], free: &[SpanRec]) -> MemImage {
    let all = owners_with(rt, alloc, owners);
    let group = group_with(free);
    image_of(
        alloc,
        256,
        &[
            (0, heads_of(&group)),
            (1, bno_leaf(at(1), free)),
            (2, cnt_leaf(at(2), free)),
            (5, rmap_leaf(at(5), all.as_slice())),
            (6, refc_leaf(at(6), &[])),
        ],
    )
    .expect(rt, FITS)
}

// Fills or trims the free list of group 0.
fn refilled<D: Device, L: Ledger>(
    rt: &impl Abort,
    alloc: Global,
    parts: &mut Parts<D>,
    steps: &mut Steps<L>,
) -> Result<u32, WriteFault>
    requires safe { IsSafe D.Device parts.old }
    ensures safe { IsSafe D.Device parts.new }
{
    if parts.desk.store.geo.agcount == 0 {
        panic!(rt; "a group is there");
    }
    refill(alloc, parts, 0, steps)
}

// The free list of group 0 loses its first three blocks.
fn three_fewer<D: Device>(rt: &impl Abort, parts: &mut Parts<D>)
    requires safe { IsSafe D.Device parts.old }
    ensures safe { IsSafe D.Device parts.new }
{
    let mut list = list_of(rt, parts);
    let _ = list.take_first();
    let _ = list.take_first();
    let _ = list.take_first();
    with_list(parts, list);
}

// The entry of a list, where it has so many.
fn entry_of(list: &Agfl, i: u32) -> Option<u32> {
    if i < list.len() {
        return Some(list.entry(i));
    }
    None
}

fn list_filled<D: Device, L: Ledger>(
    rt: &impl Abort,
    alloc: Global,
    parts: &mut Parts<D>,
    steps: &mut Steps<L>,
)
    requires safe { IsSafe D.Device parts.old }
    ensures safe { IsSafe D.Device parts.new }
{
    same(rt, refilled(rt, alloc, parts, steps), Ok(0));
    three_fewer(rt, parts);
    same(rt, refilled(rt, alloc, parts, steps), Ok(7));
    let list = list_of(rt, parts);
    same(rt, list.len(), 16);
    same(rt, entry_of(&list, 9), Some(32));
}

fn fill<L: Ledger>(rt: &impl Abort, alloc: Global, steps: &mut Steps<L>) {
    let mut parts = core_fresh(rt, alloc, steps);
    list_filled(rt, alloc, &mut parts, steps);
    let (journal, _) = ended(rt, alloc, parts, steps);
    let wanted = [Entry::Refilled(Extent {
        group: 0,
        block: 32,
        count: 7,
    })];
    same(rt, journal.as_slice(), &wanted[..]);
}

// The list with the blocks from 40 to 99 behind its own, as far as they fit.
fn longer(list: Agfl) -> Agfl {
    let mut list = list;
    for block in 40..100u32 {
        if list.len() < 119 {
            list.put_last(block);
        }
    }
    list
}

fn list_trimmed<D: Device, L: Ledger>(
    rt: &impl Abort,
    alloc: Global,
    parts: &mut Parts<D>,
    steps: &mut Steps<L>,
)
    requires safe { IsSafe D.Device parts.old }
    ensures safe { IsSafe D.Device parts.new }
{
    let list = longer(list_of(rt, parts));
    with_list(parts, list);
    same(rt, refilled(rt, alloc, parts, steps), Ok(56));
    same(rt, list_of(rt, parts).len(), 16);
}

fn trimmed(block: u32, count: u32) -> Entry {
    Entry::Trimmed(Extent {
        group: 0,
        block,
        count,
    })
}

fn trim<L: Ledger>(rt: &impl Abort, alloc: Global, steps: &mut Steps<L>) {
    let free = [run(19, 5), run(32, 8), run(100, 156)];
    let image = image_with(rt, alloc, &[owned(40, 60, 5)], &free);
    let mut parts = core_over(rt, alloc, image, steps);
    list_trimmed(rt, alloc, &mut parts, steps);
    let (journal, bad) = ended(rt, alloc, parts, steps);
    let wanted = [trimmed(7, 12), trimmed(40, 44)];
    same(rt, journal.as_slice(), &wanted[..]);
    same(rt, bad, 0);
}

fn marked(kind: Kind) -> Entry {
    Entry::Marked {
        group: 0,
        kind,
        cause: Cause::Owner,
    }
}

fn list_refused<D: Device, L: Ledger>(
    rt: &impl Abort,
    alloc: Global,
    parts: &mut Parts<D>,
    steps: &mut Steps<L>,
)
    requires safe { IsSafe D.Device parts.old }
    ensures safe { IsSafe D.Device parts.new }
{
    let sick = WriteFault::Sick(0, Kind::Bno);
    three_fewer(rt, parts);
    same(rt, refilled(rt, alloc, parts, steps), Err(sick));
    same(rt, refilled(rt, alloc, parts, steps), Err(sick));
}

fn owner<L: Ledger>(rt: &impl Abort, alloc: Global, steps: &mut Steps<L>) {
    let free = [run(19, 5), run(32, 224)];
    let image = image_with(rt, alloc, &[owned(33, 1, 5)], &free);
    let mut parts = core_over(rt, alloc, image, steps);
    list_refused(rt, alloc, &mut parts, steps);
    let (journal, _) = ended(rt, alloc, parts, steps);
    let wanted = [marked(Kind::Bno), marked(Kind::Cnt)];
    same(rt, journal.as_slice(), &wanted[..]);
}

// What a test does.
enum Row {
    Lowest,
    Chunk,
    Crowd,
    Fill,
    Trim,
    Owner,
}

fn play_counted<L: Ledger>(rt: &impl Abort, alloc: Global, row: Row, blank: Blank)
    requires name { blank.name ≡ L.name }
    requires parts { blank.parts ≡ L.parts }
    requires three { blank.parts ≡ 3 }
{
    let mut steps = Steps::<L>::new(blank);
    match row {
        Row::Lowest => lowest(rt, alloc, &mut steps),
        Row::Chunk => chunk(rt, alloc, &mut steps),
        Row::Crowd => crowd(rt, alloc, &mut steps),
        Row::Fill => fill(rt, alloc, &mut steps),
        Row::Trim => trim(rt, alloc, &mut steps),
        Row::Owner => owner(rt, alloc, &mut steps),
    }
}

// The same, for a caller that counts no steps.
fn play(rt: &impl Abort, alloc: Global, row: Row) {
    let blank = Blank::new(3);
    play_counted::<Brand>(rt, alloc, row, blank);
}

#[test]
fn the_lowest_free_inode_is_taken_and_given_back(rt: HostRuntime) {
    play(&rt, rt.alloc(), Row::Lowest);
}

#[test]
fn a_chunk_is_made_where_no_inode_is_free(rt: HostRuntime) {
    play(&rt, rt.alloc(), Row::Chunk);
}

#[test]
fn sixteen_chains_are_a_crowd(rt: HostRuntime) {
    play(&rt, rt.alloc(), Row::Crowd);
}

#[test]
fn a_list_of_twelve_is_left_and_a_shorter_one_filled(rt: HostRuntime) {
    play(&rt, rt.alloc(), Row::Fill);
}

#[test]
fn a_long_list_is_trimmed_to_its_last_sixteen(rt: HostRuntime) {
    play(&rt, rt.alloc(), Row::Trim);
}

#[test]
fn a_run_with_an_owner_isnt_taken(rt: HostRuntime) {
    play(&rt, rt.alloc(), Row::Owner);
}
