ghost use Rattle.std.specs.Prelude.{◌≡◌, ◌<◌, ◌≤◌, ◌+◌, ◌/◌, ◌^◌, ◌⊎◌, true, IfSome, find, min};
ghost use Rattle.fork_change.specs.Lists.{AllFit, Fits, is_same_flag, meets as meets_is, joined as joined_is, with_before as with_before_is, with_after as with_after_is, maps as maps_is, piece_in, front_of, back_of, overlaps as overlaps_is};

use dinode_core::Mapping;
use geom::Geometry;

/// The greatest number of blocks of one mapping, which has 21 bits for it
/// (XFS Algorithms and Data Structures, "Extent List").
pub const MOST_MAPPED: u32 = 2_097_151;

// The number of the group that has a block of the file system.
#[tactic(auto, using(geom::proofs::NumbersLemmas::shifted))]
fn group_of(geo: &Geometry, block: u64) -> u64
    ensures { result ≡ block / 2 ^ geo.now.agblklog }
{
    let room = 1u64 << geo.agblklog;
    block / room
}

fn is_same_state(first: bool, second: bool) -> bool
    ensures { result ≡ is_same_flag first second }
{
    if first { second } else { !second }
}

/// Whether the second mapping goes on where the first ends, in one group, both written or both not,
/// and one mapping has room for both.
pub fn meets(geo: &Geometry, first: &Mapping, second: &Mapping) -> bool
    requires first { Fits first.now }
    requires second { Fits second.now }
    ensures { result ≡ meets_is geo.now.agblklog first.now second.now }
{
    first.offset + u64::from(first.count) == second.offset
        && first.block + u64::from(first.count) == second.block
        && group_of(geo, first.block) == group_of(geo, second.block)
        && is_same_state(first.unwritten, second.unwritten)
        && first.count + second.count <= MOST_MAPPED
}

// Two mappings that meet, as one.
#[tactic(auto, using(crate::proofs::FitLemmas::joined_fits))]
fn joined(geo: &Geometry, first: &Mapping, second: &Mapping) -> Mapping
    requires first { Fits first.now }
    requires second { Fits second.now }
    requires meet { meets_is geo.now.agblklog first.now second.now ≡ true }
    ensures value { result ≡ joined_is first.now second.now }
    ensures fits { Fits result }
{
    Mapping {
        count: first.count + second.count,
        ..*first
    }
}

// The mapping of the list that this one goes on from.
fn mapping_before(geo: &Geometry, list: &[Mapping], m: &Mapping) -> Option<Mapping>
    requires list { AllFit list.now }
    requires fits { Fits m.now }
    ensures value { result ≡ find (λ p. meets_is geo.now.agblklog p m.now) list.now }
    ensures fits { IfSome result (λ p. Fits p) }
    ensures meets { IfSome result (λ p. meets_is geo.now.agblklog p m.now ≡ true) }
{
    let mut rest = list;
    while let Some((first, later)) = rest.split_first() {
        if meets(geo, first, m) {
            return Some(*first);
        }
        rest = later;
    }
    None
}

// And the one that goes on from it.
fn mapping_after(geo: &Geometry, list: &[Mapping], m: &Mapping) -> Option<Mapping>
    requires list { AllFit list.now }
    requires fits { Fits m.now }
    ensures value { result ≡ find (λ q. meets_is geo.now.agblklog m.now q) list.now }
    ensures fits { IfSome result (λ q. Fits q) }
    ensures meets { IfSome result (λ q. meets_is geo.now.agblklog m.now q ≡ true) }
{
    let mut rest = list;
    while let Some((first, later)) = rest.split_first() {
        if meets(geo, m, first) {
            return Some(*first);
        }
        rest = later;
    }
    None
}

/// A mapping with the one of the list that it goes on from, where there is one.
pub fn with_before(geo: &Geometry, list: &[Mapping], m: &Mapping) -> Mapping
    requires list { AllFit list.now }
    requires fits { Fits m.now }
    ensures value { result ≡ with_before_is geo.now.agblklog m.now list.now }
    ensures fits { Fits result }
{
    match mapping_before(geo, list, m) {
        Some(p) => joined(geo, &p, m),
        None => *m,
    }
}

/// A mapping with the one of the list that goes on from it, where there is one.
pub fn with_after(geo: &Geometry, list: &[Mapping], m: &Mapping) -> Mapping
    requires list { AllFit list.now }
    requires fits { Fits m.now }
    ensures value { result ≡ with_after_is geo.now.agblklog m.now list.now }
    ensures fits { Fits result }
{
    match mapping_after(geo, list, m) {
        Some(q) => joined(geo, m, &q),
        None => *m,
    }
}

/// Whether the mapping has this offset.
pub fn maps(m: &Mapping, offset: u64) -> bool
    requires { Fits m.now }
    ensures { result ≡ maps_is offset m.now }
{
    m.offset <= offset && offset < m.offset + u64::from(m.count)
}

/// Whether two mappings have an offset in common.
pub fn overlaps(first: &Mapping, second: &Mapping) -> bool
    requires first { Fits first.now }
    requires second { Fits second.now }
    ensures { result ≡ overlaps_is first.now second.now }
{
    first.offset < second.offset + u64::from(second.count)
        && second.offset < first.offset + u64::from(first.count)
}

/// What the mapping has from an offset on that it maps, `count` blocks at most.
pub fn piece_of(m: &Mapping, offset: u64, count: u32) -> Mapping
    requires fits { Fits m.now }
    requires mapped { maps_is offset m.now ≡ true }
    requires some { 0 < count }
    ensures value { result ≡ piece_in offset count m.now }
    ensures fits { Fits result }
{
    let skipped = offset - m.offset;
    let left = u64::from(m.count) - skipped;
    Mapping {
        offset,
        block: m.block + skipped,
        count: u64::from(count).min(left) as u32,
        unwritten: m.unwritten,
    }
}

/// What of the mapping lies before an offset that it maps.
pub fn front(m: &Mapping, offset: u64) -> Option<Mapping>
    requires fits { Fits m.now }
    requires mapped { maps_is offset m.now ≡ true }
    ensures value { result ≡ front_of offset m.now }
    ensures fits { IfSome result (λ p. Fits p) }
{
    if m.offset < offset {
        return Some(Mapping {
            count: (offset - m.offset) as u32,
            ..*m
        });
    }
    None
}

/// And behind so many blocks from there on.
pub fn back(m: &Mapping, offset: u64, count: u32) -> Option<Mapping>
    requires fits { Fits m.now }
    requires mapped { maps_is offset m.now ≡ true }
    ensures value { result ≡ back_of offset count m.now }
    ensures fits { IfSome result (λ p. Fits p) }
{
    let end = m.offset + u64::from(m.count);
    let from = offset + u64::from(count);
    if from < end {
        return Some(Mapping {
            offset: from,
            block: m.block + (from - m.offset),
            count: (end - from) as u32,
            unwritten: m.unwritten,
        });
    }
    None
}
