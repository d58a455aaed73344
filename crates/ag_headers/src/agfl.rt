ghost use Rattle.std.specs.Prelude.{◌≡◌, ℕ, ◌<◌, ◌≤◌, ◌==◌, List, length, if◌then◌else◌, true, false, Some, None, IfOk, MatchOption, MatchResult};
ghost use Rattle.std.specs.Bool.{OnTrue};
ghost use Rattle.byte_fields.specs.FirstFailing.{Decodes};
ghost use Rattle.byte_fields.specs.Fields.{field};
ghost use Rattle.geom.specs.Layout.{Layout};
ghost use Rattle.geom.specs.Places.{layout};
ghost use Rattle.ag_headers.specs.Agfl.{agfl_form, agfl_fault, agfl_of, ring_in, own_fault, ring_fault, entry_fault, agfl_table, agfl_written, IsListOf, StatesRing, NamesRing};
ghost use Rattle.ag_headers.specs.Agf.{agf_of};
ghost use Rattle.ag_headers.specs.Fields.{with_table, AllFit};
ghost use Rattle.ag_headers.specs.Ring.{IsRing, ring_fits, entries, is_new, differ, entry_fits};

use crate::fault::HeadFault;
use crate::head::{Form, put_stamp};
use crate::sector::{get_numbers, get_uuid, put_numbers, put_sector, sector_copy, sector_in};
use byte_fields::{Block, get_u32, get_u64, is_summed, is_uuid_at, put_u32};
use geom::Geometry;
use std::marker::Model;

// "XAFL", and the places of `agfl_uuid`, `agfl_lsn` and `agfl_crc`.
const AGFL: Form = Form {
    magic: 0x5841_464c,
    uuid_at: 8,
    lsn_at: 24,
    sum_at: 32,
};

// The place of `agfl_bno`.
const NUMBERS: usize = 36;

// Places of the ring.
const PLACES: u32 = 119;

/// The AGFL, the list of blocks that a group keeps free for its own trees, with the part of the
/// AGF that belongs to it. It is a ring of 119 places, which contracts see beside the list of its
/// entries; blocks are counted from the group's start. Blocks are taken from its front and put
/// behind its end, and no call writes a place that isn't in use but the one that it puts a block into
/// (XFS Algorithms and Data Structures, "AG Free List").
#[derive(Clone, Copy, Debug, PartialEq, Eq)]
pub struct Agfl {
    /// The group.
    pub seqno: u32,
    /// The file system's UUID.
    pub uuid: [u8; 16],
    /// The log sequence number of the last write.
    pub lsn: u64,
    /// The block numbers at all places, those that aren't in use included.
    pub numbers: [u32; 119],
    /// The place of the first entry (`agf_flfirst`).
    pub first: u32,
    /// The place of the last entry (`agf_fllast`).
    pub last: u32,
    /// How many entries there are (`agf_flcount`).
    pub count: u32,
}

impl Model for Agfl {
    ghost use Rattle.std.specs.Prelude.{◌≡◌, length};
    ghost use Rattle.ag_headers.specs.Ring.{FreeRing, IsRing};

    ghost Value = { FreeRing };

    ghost view = { λ a. record { seqno = a.seqno; uuid = a.uuid; lsn = a.lsn; numbers = a.numbers; first = a.first; last = a.last; count = a.count } };

    ghost invariant = { λ a. IsRing a.first a.last a.count };

    ghost inverse = { λ r. record { seqno = r.seqno; uuid = r.uuid; lsn = r.lsn; numbers = r.numbers; first = r.first; last = r.last; count = r.count } };
}

// Whether these are the places of the first and the last of so many entries.
#[tactic(auto, unfolding(crate::specs::Ring::ring_fits))]
fn does_ring_fit(first: u32, last: u32, count: u32) -> bool
    ensures exact { result ≡ ring_fits first last count }
    ensures ring { OnTrue result (IsRing first last count) }
{
    if first >= PLACES || last >= PLACES || count > PLACES {
        return false;
    }
    count == 0 || last == (first + count + 118) % PLACES
}

// Where the ring begins once a block was put into a place of it.
fn first_after(first: u32, count: u32, place: u32) -> u32
    ensures { result ≡ (if count == 0 then place else first) }
{
    if count == 0 {
        return place;
    }
    first
}

impl Agfl {
    ghost use Rattle.std.specs.Prelude.{◌≡◌, ◌≢◌, ℕ, ◌++◌, [], ◌∷◌, ◌<◌, ◌≤◌, None, length, slice_index, drop};
    ghost use Rattle.geom.specs.Layout.{Layout};
    ghost use Rattle.ag_headers.specs.Agf.{agf_of};
    ghost use Rattle.ag_headers.specs.Agfl.{agfl_of, agfl_fault, agfl_written, IsListOf, NamesRing};
    ghost use Rattle.ag_headers.specs.Fields.{sector, with_sector};
    ghost use Rattle.std.specs.List.{slice_get};
    ghost use Rattle.ag_headers.specs.Ring.{IsRing, entries, without_first, with_last};

    /// How many entries the list has: 119 at most.
    #[tactic(auto, using(crate::proofs::RingLemmas::length_of_entries))]
    pub fn len(&self) -> u32
        ensures exact { result ≡ length (entries self.now) }
        ensures count { result ≡ self.now.count }
        ensures most { result ≤ 119 }
    {
        self.count
    }

    /// The block at number `i` of the list, counted from 0.
    #[tactic(auto, using(crate::proofs::RingLemmas::length_of_entries, crate::proofs::RingLemmas::entry_is))]
    pub fn entry(&self, i: u32) -> u32
        requires { i < length (entries self.now) }
        ensures { result ≡ slice_index (entries self.now) i }
    {
        self.numbers[((self.first + i) % PLACES) as usize]
    }

    /// The place of the first entry, which belongs into `agf_flfirst`. Of an empty list it is the
    /// place behind the last one, or what was read.
    pub fn first(&self) -> u32
        ensures exact { result ≡ self.now.first }
        ensures inside { result < 119 }
    {
        self.first
    }

    /// The place of the last entry, which belongs into `agf_fllast`; of an empty list, the place where
    /// the last entry was.
    #[tactic(auto, using(crate::proofs::RingLemmas::length_of_entries))]
    pub fn last(&self) -> u32
        ensures exact { result ≡ self.now.last }
        ensures ring { IsRing self.now.first self.now.last (length (entries self.now)) }
    {
        self.last
    }

    /// Takes the first block out of the list; none exactly where the list is empty.
    #[tactic(auto, using(crate::proofs::RingLemmas::first_is, crate::proofs::RingLemmas::rest_is, crate::proofs::RingLemmas::none_is, crate::proofs::RingLemmas::empty_stays))]
    pub fn take_first(&mut self) -> Option<u32>
        ensures taken { result ≡ slice_get (entries self.old) 0 }
        ensures rest { entries self.new ≡ drop 1 (entries self.old) }
        ensures ring { self.new ≡ without_first self.old }
    {
        if self.count == 0 {
            return None;
        }
        let block = self.numbers[self.first as usize];
        self.first = (self.first + 1) % PLACES;
        self.count -= 1;
        Some(block)
    }

    /// Puts a block behind the last one, into the place after `last`. Every other place keeps its
    /// number.
    #[tactic(auto, using(crate::proofs::RingLemmas::length_of_entries, crate::proofs::RingLemmas::put_is_ring, crate::proofs::RingLemmas::put_is))]
    pub fn put_last(&mut self, block: u32)
        requires { length (entries self.old) < 119 }
        ensures list { entries self.new ≡ entries self.old ++ block ∷ [] }
        ensures ring { self.new ≡ with_last self.old block }
    {
        let place = (self.last + 1) % PLACES;
        self.numbers[place as usize] = block;
        // Into an empty list the ring begins here: its two old places may say nothing of each other.
        self.first = first_after(self.first, self.count, place);
        self.last = place;
        self.count += 1;
    }

    /// Writes the AGFL into its sector of block 0 of a group, with its checksum. All other sectors
    /// stay, also that of the AGF: `first`, `last` and `len` are for its caller to put there
    /// (XFS Algorithms and Data Structures, "AG Free List").
    pub fn encode(&self, block: &mut Block)
        ensures bytes { block.new.bytes ≡ with_sector 3 block.old.bytes (agfl_written self.now (sector 3 block.old.bytes)) }
        ensures elsewhere { (k : ℕ) → k ≢ 3 → sector k block.new.bytes ≡ sector k block.old.bytes }
        ensures again { NamesRing (agf_of block.old.bytes) self.now → agfl_of block.new.bytes ≡ self.now }
        ensures accepted { (at : Layout) (g : ℕ) → NamesRing (agf_of block.old.bytes) self.now → IsListOf at g self.now
            → agfl_fault at g block.new.bytes ≡ None }
    {
        let mut sector = sector_copy::<3>(block);
        put_agfl(&mut sector, self);
        put_sector::<3>(block, &sector);
    }
}

// Whether entry `j` is another block than entry `i`.
#[tactic(auto, unfolding(crate::specs::Ring::differ))]
fn do_entries_differ(list: &Agfl, i: u32, j: u32) -> bool
    requires first { i < length (entries list.now) }
    requires second { j < length (entries list.now) }
    ensures { result ≡ differ (entries list.now) i j }
{
    list.entry(j) != list.entry(i)
}

// Whether entry `i` isn't one of those before it.
#[tactic(auto, using(byte_fields::proofs::BelowLemmas::one_more_passes, byte_fields::proofs::BelowLemmas::none_below), unfolding(crate::specs::Ring::is_new))]
fn is_entry_new(list: &Agfl, i: u32) -> bool
    requires { i < length (entries list.now) }
    ensures { result ≡ is_new (entries list.now) i }
{
    for j in 0..i {
        if !do_entries_differ(list, i, j) {
            return false;
        }
    }
    true
}

// Whether entry `i` is one of the group's `blocks`, not its block 0, and not one of those before it.
#[tactic(auto, unfolding(crate::specs::Ring::entry_fits))]
fn does_entry_fit(list: &Agfl, blocks: u32, i: u32) -> bool
    requires { i < length (entries list.now) }
    ensures { result ≡ entry_fits blocks (entries list.now) i }
{
    let block = list.entry(i);
    1 <= block && block < blocks && is_entry_new(list, i)
}

// The first entry that doesn't fit, by its place.
#[tactic(auto, using(crate::proofs::AgflLemmas::faults_start, crate::proofs::AgflLemmas::faults_next, crate::proofs::AgflLemmas::faults_here, crate::proofs::AgflLemmas::faults_end, crate::proofs::RingLemmas::length_of_entries))]
fn first_entry_fault(list: &Agfl, blocks: u32) -> Option<HeadFault>
    ensures { result ≡ entry_fault blocks list.now }
{
    for i in 0..list.len() {
        if !does_entry_fit(list, blocks, i) {
            return Some(HeadFault::FreeList((list.first() + i) % PLACES));
        }
    }
    None
}

// The first test that the AGFL of group `g`, given as its sector, fails by itself.
#[tactic(auto, unfolding(crate::specs::Agfl::own_fault))]
fn first_own_fault(agfl: &[u8], geo: &Geometry, g: u32) -> Option<HeadFault>
    requires whole { length agfl.now ≡ 512 }
    requires group { g < geo.now.agcount }
    ensures { result ≡ own_fault (layout geo.now) g agfl.now }
{
    if get_u32(agfl, 0) != AGFL.magic {
        return Some(HeadFault::Magic);
    }
    if get_u32(agfl, 4) != g {
        return Some(HeadFault::Seqno);
    }
    if !is_summed(agfl, AGFL.sum_at) {
        return Some(HeadFault::Checksum);
    }
    if !is_uuid_at(agfl, AGFL.uuid_at, &geo.uuid) {
        return Some(HeadFault::Uuid);
    }
    None
}

// The ring that the two sectors state, where its places fit.
#[tactic(auto, unfolding(crate::specs::Agfl::ring_in))]
fn ring_at(agf: &[u8], agfl: &[u8]) -> Option<Agfl>
    requires agf { length agf.now ≡ 512 }
    requires agfl { length agfl.now ≡ 512 }
    ensures { MatchOption result
        (ring_fits (field 4 agf.now 40) (field 4 agf.now 44) (field 4 agf.now 48) ≡ false)
        (λ list. (ring_fits (field 4 agf.now 40) (field 4 agf.now 44) (field 4 agf.now 48) ≡ true) × (list ≡ ring_in agf.now agfl.now)) }
{
    let first = get_u32(agf, 40);
    let last = get_u32(agf, 44);
    let count = get_u32(agf, 48);
    if !does_ring_fit(first, last, count) {
        return None;
    }
    Some(Agfl {
        seqno: get_u32(agfl, 4),
        uuid: get_uuid(agfl, AGFL.uuid_at),
        lsn: get_u64(agfl, AGFL.lsn_at),
        numbers: get_numbers::<119>(agfl, NUMBERS),
        first,
        last,
        count,
    })
}

// The same list, or the first fault of its entries.
fn tested_entries(list: Agfl, blocks: u32) -> Result<Agfl, HeadFault>
    ensures { MatchResult result
        (λ same. (entry_fault blocks list ≡ None) × (same ≡ list))
        (λ fault. entry_fault blocks list ≡ Some fault) }
{
    match first_entry_fault(&list, blocks) {
        Some(fault) => Err(fault),
        None => Ok(list),
    }
}

// The ring that the two sectors state in a group of so many blocks, or the first fault of the two together.
fn tested_ring(agf: &[u8], agfl: &[u8], blocks: u32) -> Result<Agfl, HeadFault>
    requires agf { length agf.now ≡ 512 }
    requires agfl { length agfl.now ≡ 512 }
    ensures { MatchResult result
        (λ list. (ring_fault blocks (ring_in agf.now agfl.now) ≡ None) × (list ≡ ring_in agf.now agfl.now))
        (λ fault. ring_fault blocks (ring_in agf.now agfl.now) ≡ Some fault) }
{
    match ring_at(agf, agfl) {
        None => Err(HeadFault::FreeList(PLACES)),
        Some(list) => tested_entries(list, blocks),
    }
}

/// The free list of group `g`, read from block 0 of the group, where the AGFL lies, and the AGF that
/// says which part of the ring is in use. An error is the first of the AGFL's tests that fails:
/// magic, seqno, checksum, UUID, and then that the ring fits and each entry is one of the group's
/// blocks, not its block 0, and listed once. The AGF's own tests aren't made
/// (XFS Algorithms and Data Structures, "AG Free List").
pub fn decode_agfl(block: &Block, geo: &Geometry, g: u32) -> Result<Agfl, HeadFault>
    requires { g < geo.now.agcount }
    ensures exact { Decodes (agfl_fault (layout geo.now) g block.now.bytes) (λ list. list ≡ agfl_of block.now.bytes) result }
    ensures of_group { IfOk result (λ list. IsListOf (layout geo.now) g list) }
    ensures named { IfOk result (λ list. NamesRing (agf_of block.now.bytes) list) }
{
    let agfl = sector_in::<3>(&block.bytes);
    match first_own_fault(agfl, geo, g) {
        Some(fault) => Err(fault),
        None => tested_ring(sector_in::<1>(&block.bytes), agfl, geo.group_len(g)),
    }
}

fn put_own(sector: &mut [u8], list: &Agfl)
    requires { length sector.old ≡ 512 }
    ensures bytes { sector.new ≡ with_table (agfl_table list.now) sector.old }
    ensures fits { AllFit (agfl_table list.now) }
{
    put_u32(sector, 0, AGFL.magic);
    put_u32(sector, 4, list.seqno);
}

fn put_agfl(sector: &mut [u8], list: &Agfl)
    requires { length sector.old ≡ 512 }
    ensures bytes { sector.new ≡ agfl_written list.now sector.old }
    ensures again { (agf : List ℕ) → StatesRing agf list.now → ring_in agf sector.new ≡ list.now }
    ensures accepted { (at : Layout) (g : ℕ) → list.now.seqno ≡ g → list.now.uuid ≡ at.uuid → own_fault at g sector.new ≡ None }
    ensures ring { IsRing list.now.first list.now.last list.now.count }
{
    put_own(sector, list);
    put_numbers::<119>(sector, NUMBERS, &list.numbers);
    put_stamp(&AGFL, sector, &list.uuid, list.lsn);
}
