ghost use Rattle.std.specs.Prelude.{◌≡◌, ◌+◌, ◌^◌, ◌<◌, ◌≤◌, ◌==◌, length, Some, None, IfOk};
ghost use Rattle.byte_fields.specs.FirstFailing.{Decodes};
ghost use Rattle.sblock.specs.Area.{area_of};
ghost use Rattle.sblock.specs.Blocks.{most_of, least_of, level_fits, count_fits, header_of, key_in, rises_at, is_rising, is_child_inside, is_record_inside, is_inside, are_inside, is_supported_at, are_supported, block_fault, records_of, keys_of, children_of, AreKeysRising, IsRising, AllInside, AllSupported, AreBlocks};
ghost use Rattle.sblock.specs.Kinds.{leaf_most_of, node_most_of};

use crate::area::data_area;
use crate::block::{BlockFault, Bounds, Header, Want};
use crate::header::{count_of, left_of, level_of, owner_of, place_of, right_of};
use crate::kind::Kind;
use crate::pointers::child_at;
use crate::rec_kind::RecKind;
use byte_fields::{Block, get_u32, get_u64, is_summed, is_uuid_at};

// Whether a block of this level is wanted, and is there.
#[tactic(auto, unfolding(crate::specs::Blocks::level_fits))]
fn does_level_fit(wanted: u8, level: u16) -> bool
    ensures { result ≡ level_fits wanted level }
{
    wanted <= 8 && level == u16::from(wanted)
}

fn most(kind: Kind, leaf: bool) -> u16
    ensures { result ≡ most_of kind leaf }
{
    if leaf {
        kind.leaf_most()
    } else {
        kind.node_most()
    }
}

// The least number of records or pointers; a root leaf may have none.
fn least(kind: Kind, leaf: bool, root: bool) -> u16
    ensures { result ≡ least_of kind leaf root }
{
    match (leaf, root) {
        (true, true) => 0,
        (false, true) => 1,
        (true, false) => kind.leaf_least(),
        (false, false) => kind.node_least(),
    }
}

// Whether a block may have so many records or pointers.
#[tactic(auto, unfolding(crate::specs::Blocks::count_fits))]
fn does_count_fit(kind: Kind, leaf: bool, root: bool, count: u16) -> bool
    ensures { result ≡ count_fits kind leaf root count }
{
    least(kind, leaf, root) <= count && count <= most(kind, leaf)
}

#[tactic(auto, unfolding(crate::specs::Blocks::key_in))]
fn key_in_block<K: RecKind>(area: &[u8], leaf: bool, i: usize) -> K::Key
    requires whole { length area.now ≡ 4040 }
    requires room { i < most_of K.form.kind leaf }
    ensures { result ≡ key_in K.form leaf area.now i }
{
    if leaf {
        K::key_of(&K::record_at(area, i))
    } else {
        K::key_at(area, i)
    }
}

// Whether record or entry `i` comes before the next one.
#[tactic(auto, unfolding(crate::specs::Blocks::rises_at))]
fn does_rise_at<K: RecKind>(area: &[u8], leaf: bool, i: u16) -> bool
    requires whole { length area.now ≡ 4040 }
    requires room { i + 1 < most_of K.form.kind leaf }
    requires fits { i + 1 < 2 ^ 16 }
    ensures { result ≡ rises_at K.form leaf area.now i }
{
    let here = key_in_block::<K>(area, leaf, i as usize);
    let next = key_in_block::<K>(area, leaf, i as usize + 1);
    K::is_before(&here, &next)
}

#[tactic(auto, using(byte_fields::proofs::BelowLemmas::one_more_passes, byte_fields::proofs::BelowLemmas::none_below), unfolding(crate::specs::Blocks::is_rising))]
fn do_entries_rise<K: RecKind>(area: &[u8], leaf: bool, count: u16) -> bool
    requires whole { length area.now ≡ 4040 }
    requires room { count ≤ most_of K.form.kind leaf }
    ensures { result ≡ is_rising K.form leaf area.now count }
{
    if count == 0 {
        return true;
    }
    for i in 0..count - 1 {
        if !does_rise_at::<K>(area, leaf, i) {
            return false;
        }
    }
    true
}

#[tactic(auto, unfolding(crate::specs::Blocks::is_child_inside))]
fn does_child_lie_inside(kind: Kind, area: &[u8], bounds: &Bounds, i: u16) -> bool
    requires whole { length area.now ≡ 4040 }
    requires room { i < node_most_of kind }
    ensures { result ≡ is_child_inside kind bounds.now area.now i }
{
    let child = child_at(kind, area, i as usize);
    child >= 1 && child < bounds.length
}

// Whether record `i` is in range, where its form is supported.
#[tactic(auto, unfolding(crate::specs::Blocks::is_record_inside))]
fn does_record_lie_inside<K: RecKind>(area: &[u8], bounds: &Bounds, i: u16) -> bool
    requires whole { length area.now ≡ 4040 }
    requires room { i < leaf_most_of K.form.kind }
    ensures { result ≡ is_record_inside K.form bounds.now area.now i }
{
    let rec = K::record_at(area, i as usize);
    // Were it Range, a sound tree would count as unreadable, and be made anew without these records.
    !K::is_supported(&rec) || K::is_in_range(&rec, bounds)
}

#[tactic(auto, unfolding(crate::specs::Blocks::is_inside))]
fn does_entry_lie_inside<K: RecKind>(area: &[u8], leaf: bool, bounds: &Bounds, i: u16) -> bool
    requires whole { length area.now ≡ 4040 }
    requires room { i < most_of K.form.kind leaf }
    ensures { result ≡ is_inside K.form leaf bounds.now area.now i }
{
    if leaf {
        does_record_lie_inside::<K>(area, bounds, i)
    } else {
        does_child_lie_inside(K::kind(), area, bounds, i)
    }
}

#[tactic(auto, using(byte_fields::proofs::BelowLemmas::one_more_passes, byte_fields::proofs::BelowLemmas::none_below), unfolding(crate::specs::Blocks::are_inside))]
fn do_entries_lie_inside<K: RecKind>(area: &[u8], leaf: bool, bounds: &Bounds, count: u16) -> bool
    requires whole { length area.now ≡ 4040 }
    requires room { count ≤ most_of K.form.kind leaf }
    ensures { result ≡ are_inside K.form leaf bounds.now area.now count }
{
    for i in 0..count {
        if !does_entry_lie_inside::<K>(area, leaf, bounds, i) {
            return false;
        }
    }
    true
}

#[tactic(auto, unfolding(crate::specs::Blocks::is_supported_at))]
fn is_record_supported<K: RecKind>(area: &[u8], i: u16) -> bool
    requires whole { length area.now ≡ 4040 }
    requires room { i < leaf_most_of K.form.kind }
    ensures { result ≡ is_supported_at K.form area.now i }
{
    K::is_supported(&K::record_at(area, i as usize))
}

#[tactic(auto, using(byte_fields::proofs::BelowLemmas::one_more_passes, byte_fields::proofs::BelowLemmas::none_below), unfolding(crate::specs::Blocks::are_supported))]
fn are_entries_supported<K: RecKind>(area: &[u8], leaf: bool, count: u16) -> bool
    requires whole { length area.now ≡ 4040 }
    requires room { count ≤ most_of K.form.kind leaf }
    ensures { result ≡ are_supported K.form leaf area.now count }
{
    if !leaf {
        return true;
    }
    for i in 0..count {
        if !is_record_supported::<K>(area, i) {
            return false;
        }
    }
    true
}

// The first test that fails.
#[tactic(auto, unfolding(crate::specs::Blocks::block_fault, crate::specs::Blocks::count_fits))]
fn first_fault<K: RecKind>(block: &Block, want: &Want) -> Option<BlockFault>
    requires kind { want.now.kind ≡ K.form.kind }
    ensures { result ≡ block_fault K.form block.now.bytes want.now }
{
    let bytes = &block.bytes;
    let area = data_area(block);
    let leaf = want.level == 0;
    let count = count_of(block);
    if get_u32(bytes, 0) != want.kind.magic() {
        return Some(BlockFault::Magic);
    }
    if !does_level_fit(want.level, level_of(block)) {
        return Some(BlockFault::Level);
    }
    if !does_count_fit(want.kind, leaf, want.root, count) {
        return Some(BlockFault::Count);
    }
    if left_of(block) != want.left {
        return Some(BlockFault::Sibling);
    }
    if place_of(block) != want.place {
        return Some(BlockFault::Place);
    }
    if owner_of(block) != want.group {
        return Some(BlockFault::Owner);
    }
    if !is_uuid_at(bytes, 32, &want.uuid) {
        return Some(BlockFault::Uuid);
    }
    if !is_summed(bytes, 52) {
        return Some(BlockFault::Checksum);
    }
    if !do_entries_rise::<K>(area, leaf, count) {
        return Some(BlockFault::Order);
    }
    if !do_entries_lie_inside::<K>(area, leaf, &want.bounds, count) {
        return Some(BlockFault::Range);
    }
    if !are_entries_supported::<K>(area, leaf, count) {
        return Some(BlockFault::Later);
    }
    None
}

/// Tests one block against what it is to be, and reads its header. An error is the first of its
/// tests that fails, in the order of `BlockFault`; a block of a level above 8 is never wanted.
/// That a node's keys are those of the subtrees is not tested here
/// (XFS Algorithms and Data Structures, "Short Format B+trees").
#[tactic(auto, using(crate::proofs::BlockLemmas::has_level, crate::proofs::BlockLemmas::has_room, crate::proofs::BlockLemmas::records_rise, crate::proofs::BlockLemmas::records_lie_inside, crate::proofs::BlockLemmas::records_are_supported, crate::proofs::BlockLemmas::keys_rise, crate::proofs::BlockLemmas::children_lie_inside))]
pub fn verify<K: RecKind>(block: &Block, want: &Want) -> Result<Header, BlockFault>
    requires { want.now.kind ≡ K.form.kind }
    ensures exact { Decodes (block_fault K.form block.now.bytes want.now) (λ header. header ≡ header_of block.now.bytes) result }
    ensures level { IfOk result (λ header. (header.level ≡ want.now.level) × (header.level ≤ 8)) }
    ensures count { IfOk result (λ header. header.numrecs ≤ most_of K.form.kind (want.now.level == 0)) }
    ensures rising { IfOk result (λ header. want.now.level ≡ 0 → IsRising K.form (records_of K.form block.now.bytes)) }
    ensures inside { IfOk result (λ header. want.now.level ≡ 0 → AllInside K.form want.now.bounds (records_of K.form block.now.bytes)) }
    ensures supported { IfOk result (λ header. want.now.level ≡ 0 → AllSupported K.form (records_of K.form block.now.bytes)) }
    ensures keys { IfOk result (λ header. 0 < want.now.level → AreKeysRising K.form (keys_of K.form block.now.bytes)) }
    ensures children { IfOk result (λ header. 0 < want.now.level → AreBlocks want.now.bounds.length (children_of K.form block.now.bytes)) }
{
    let bytes = &block.bytes;
    if let Some(fault) = first_fault::<K>(block, want) {
        return Err(fault);
    }
    Ok(Header {
        level: want.level,
        numrecs: count_of(block),
        left: left_of(block),
        right: right_of(block),
        lsn: get_u64(bytes, 24),
    })
}
