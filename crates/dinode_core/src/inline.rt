ghost use Rattle.std.specs.Prelude.{◌≡◌, ◌*◌, ◌≤◌, ◌<◌, ℕ, List, [], length, None, OnOk, false};
ghost use Rattle.byte_fields.specs.FirstFailing.{DecodesOr};
ghost use Rattle.geom.specs.Layout.{split_of};
ghost use Rattle.geom.specs.Places.{layout};
ghost use Rattle.dinode_core.specs.Shape.{area_of, format_of, is_absent};
ghost use Rattle.dinode_core.specs.ForkTree.{is_tree, fork_fault, met_of};
ghost use Rattle.dinode_core.specs.Inline.{has_root_level, keys_fit, mappings_fit, has_form, has_room, is_extents, is_attr, form_fault as form_fault_of, mappings_in, inline_mappings, rises, clears, ends_in_group, in_range, mapping_fault as mapping_fault_of, first_bad as first_bad_of, inline_fault, Refuses};

use crate::inode::Core3;
use crate::mapping::{Fork, ForkError, ForkFault, Mapping};
use crate::packed::unpack_front;
use crate::shape::{
    Format, fork_area, fork_format, fork_room, fork_size, is_fork_absent, mapping_count,
};
use byte_fields::get_u16;
use geom::Geometry;
use std::alloc::{AllocError, Global};

// No mapping ends above this offset.
const END: u64 = 1 << 54;

// Whether the root of a btree has a level that a root may have.
#[tactic(auto, using(crate::proofs::InlineLemmas::eight_bytes), unfolding(crate::specs::Inline::has_root_level))]
fn is_level_right(core: &Core3, fork: Fork) -> bool
    requires inside { core.now.forkoff < 42 }
    requires present { is_absent core.now fork ≡ false }
    ensures { result ≡ has_root_level (area_of core.now fork) }
{
    let level = get_u16(fork_area(core, fork), 0);
    1 <= level && level <= 9
}

// Whether the root of a btree has no more keys than the fork has room for.
#[tactic(auto, using(crate::proofs::InlineLemmas::eight_bytes), unfolding(crate::specs::Inline::keys_fit))]
fn do_keys_fit(core: &Core3, fork: Fork) -> bool
    requires inside { core.now.forkoff < 42 }
    requires present { is_absent core.now fork ≡ false }
    ensures { result ≡ keys_fit core.now fork }
{
    let keys = get_u16(fork_area(core, fork), 2);
    usize::from(keys) <= (fork_size(core, fork) - 4) / 16
}

#[tactic(auto, unfolding(crate::specs::Inline::mappings_fit))]
fn do_mappings_fit(core: &Core3, fork: Fork) -> bool
    ensures { result ≡ mappings_fit core.now fork }
{
    mapping_count(core, fork) <= fork_room(core, fork) as u64
}

// Whether the format is one that such a fork has, a root's level included.
fn is_form_right(core: &Core3, fork: Fork) -> bool
    requires inside { core.now.forkoff < 42 }
    requires present { is_absent core.now fork ≡ false }
    ensures { result ≡ has_form (format_of core.now fork) (area_of core.now fork) }
{
    let Some(format) = fork_format(core, fork) else {
        return false;
    };
    match format {
        Format::Dev | Format::Local | Format::Extents => true,
        Format::Btree => is_level_right(core, fork),
    }
}

// Whether what the inode holds of the fork fits it.
fn is_room_enough(core: &Core3, fork: Fork) -> bool
    requires inside { core.now.forkoff < 42 }
    requires present { is_absent core.now fork ≡ false }
    ensures { result ≡ has_room (format_of core.now fork) core.now fork }
{
    let Some(format) = fork_format(core, fork) else {
        return true;
    };
    match format {
        Format::Dev | Format::Local => true,
        Format::Extents => do_mappings_fit(core, fork),
        Format::Btree => do_keys_fit(core, fork),
    }
}

#[tactic(auto, unfolding(crate::specs::Inline::form_fault))]
fn form_fault(core: &Core3, fork: Fork) -> Option<ForkFault>
    ensures { result ≡ form_fault_of core.now fork }
{
    if is_fork_absent(core, fork) {
        return None;
    }
    // From 42 on the attribute fork would begin behind the inode, and the data fork would pass its end.
    if core.forkoff >= 42 {
        return Some(ForkFault::Format);
    }
    if !is_form_right(core, fork) {
        return Some(ForkFault::Format);
    }
    if !is_room_enough(core, fork) {
        return Some(ForkFault::Count);
    }
    None
}

fn is_in_extents(core: &Core3, fork: Fork) -> bool
    ensures { result ≡ is_extents (format_of core.now fork) }
{
    let Some(format) = fork_format(core, fork) else {
        return false;
    };
    match format {
        Format::Extents => true,
        Format::Dev | Format::Local | Format::Btree => false,
    }
}

// So many mappings, one behind the other, in place of what the list held.
#[tactic(auto, using(crate::proofs::InlineLemmas::one_more, crate::proofs::InlineLemmas::none_left))]
fn read_mappings(area: &[u8], count: usize, into: &mut Vec<Mapping>) -> Result<(), AllocError>
    requires { 16 * count ≤ length area.now }
    ensures { OnOk result (into.new.items ≡ mappings_in count area.now) }
{
    into.clear();
    let mut rest = area;
    let mut left = count;
    while left > 0 {
        into.push(unpack_front(rest))?;
        let (_, tail) = rest.split_at(16);
        rest = tail;
        left -= 1;
    }
    Ok(())
}

#[tactic(auto, using(crate::proofs::InlineLemmas::room_enough), unfolding(crate::specs::Inline::inline_mappings))]
fn mappings_of(core: &Core3, fork: Fork, into: &mut Vec<Mapping>) -> Result<(), AllocError>
    requires { form_fault_of core.now fork ≡ None }
    ensures { OnOk result (into.new.items ≡ inline_mappings core.now fork) }
{
    if is_fork_absent(core, fork) {
        into.clear();
        return Ok(());
    }
    if !is_in_extents(core, fork) {
        into.clear();
        return Ok(());
    }
    let count = mapping_count(core, fork) as usize;
    read_mappings(fork_area(core, fork), count, into)
}

#[tactic(auto, unfolding(crate::specs::Inline::rises))]
fn does_rise(m: &Mapping, rest: &[Mapping]) -> bool
    ensures { result ≡ rises m.now rest.now }
{
    match rest {
        [] => true,
        [next, ..] => m.offset < next.offset,
    }
}

#[tactic(auto, unfolding(crate::specs::Inline::clears))]
fn does_clear(m: &Mapping, rest: &[Mapping]) -> bool
    ensures { result ≡ clears m.now rest.now }
{
    match rest {
        [] => true,
        [next, ..] => { m.offset <= next.offset && u64::from(m.count) <= next.offset - m.offset }
    }
}

fn ends_in(geo: &Geometry, m: &Mapping) -> bool
    ensures { result ≡ ends_in_group (layout geo.now) (split_of (layout geo.now) m.now.block) m.now.count }
{
    let Some((group, block)) = geo.split_fs_block(m.block) else {
        return false;
    };
    u64::from(block) + u64::from(m.count) <= u64::from(geo.group_len(group))
}

fn is_attribute(fork: Fork) -> bool
    ensures { result ≡ is_attr fork }
{
    match fork {
        Fork::Data => false,
        Fork::Attr => true,
    }
}

#[tactic(auto, unfolding(crate::specs::Inline::in_range))]
fn is_in_range(geo: &Geometry, fork: Fork, m: &Mapping) -> bool
    ensures { result ≡ in_range (layout geo.now) fork m.now }
{
    1 <= m.count
        && ends_in(geo, m)
        && m.offset <= END - u64::from(m.count)
        && !(m.unwritten && is_attribute(fork))
}

// The first test of a mapping that fails, where these follow it.
#[tactic(auto, unfolding(crate::specs::Inline::mapping_fault))]
fn mapping_fault(geo: &Geometry, fork: Fork, m: &Mapping, rest: &[Mapping]) -> Option<ForkFault>
    ensures { result ≡ mapping_fault_of (layout geo.now) fork m.now rest.now }
{
    if !does_rise(m, rest) {
        return Some(ForkFault::Order);
    }
    if !does_clear(m, rest) {
        return Some(ForkFault::Overlap);
    }
    if !is_in_range(geo, fork, m) {
        return Some(ForkFault::Range);
    }
    None
}

/// The fault of the first of these mappings that is bad, each judged against the one after it.
/// (XFS Algorithms and Data Structures, "Data Extents".)
#[tactic(auto, using(crate::proofs::InlineLemmas::good_first, crate::proofs::InlineLemmas::bad_first, crate::proofs::InlineLemmas::none_bad))]
pub fn first_bad(geo: &Geometry, fork: Fork, mappings: &[Mapping]) -> Option<ForkFault>
    ensures { result ≡ first_bad_of (layout geo.now) fork mappings.now }
{
    let mut rest = mappings;
    while let Some((first, tail)) = rest.split_first() {
        // Order and overlap are the earlier mapping's, so each is judged against the one behind it.
        if let Some(fault) = mapping_fault(geo, fork, first, tail) {
            return Some(fault);
        }
        rest = tail;
    }
    None
}

/// What the inode itself shows of a fork, in place of what the list held. In extents format its
/// mappings, in their order; no mapping for a fork in device or local format and for one that isn't
/// there. In btree format the form alone is judged, with the root's level and its number of keys: the
/// mappings stand in blocks. An error is the first fault that is met so, and then the list may be any.
/// (XFS Algorithms and Data Structures, "Data Fork" and "Attribute Fork".)
#[tactic(auto, unfolding(crate::specs::Inline::inline_fault))]
pub fn inline_fork_into(
    core: &Core3,
    fork: Fork,
    geo: &Geometry,
    into: &mut Vec<Mapping>,
) -> Result<(), ForkError>
    ensures { DecodesOr Refuses (inline_fault (layout geo.now) core.now fork)
        (λ _. into.new.items ≡ inline_mappings core.now fork) result }
{
    if let Some(fault) = form_fault(core, fork) {
        return Err(ForkError::Fault(fault));
    }
    let Ok(_) = mappings_of(core, fork, into) else {
        return Err(ForkError::Memory);
    };
    if let Some(fault) = first_bad(geo, fork, into) {
        return Err(ForkError::Fault(fault));
    }
    Ok(())
}

/// The same as [`inline_fork_into`], in a list of its own.
/// (XFS Algorithms and Data Structures, "Data Fork" and "Attribute Fork".)
pub fn inline_fork(
    alloc: Global,
    core: &Core3,
    fork: Fork,
    geo: &Geometry,
) -> Result<Vec<Mapping>, ForkError>
    ensures { DecodesOr Refuses (inline_fault (layout geo.now) core.now fork)
        (λ v. v.items ≡ inline_mappings core.now fork) result }
{
    let mut mappings = Vec::new(alloc);
    inline_fork_into(core, fork, geo, &mut mappings)?;
    Ok(mappings)
}

/// Whether a fork is there and in btree format.
/// (XFS Algorithms and Data Structures, "Data Fork" and "Attribute Fork".)
#[tactic(auto, unfolding(crate::specs::ForkTree::is_tree))]
pub fn is_in_btree(core: &Core3, fork: Fork) -> bool
    ensures { result ≡ is_tree core.now fork }
{
    if is_fork_absent(core, fork) {
        return false;
    }
    let Some(format) = fork_format(core, fork) else {
        return false;
    };
    match format {
        Format::Btree => true,
        Format::Dev | Format::Local | Format::Extents => false,
    }
}

/// For a fork that isn't in btree format, what the inode itself shows is the whole of it, whatever the
/// blocks of the device hold. (XFS Algorithms and Data Structures, "Data Fork".)
#[tactic(auto, unfolding(crate::specs::Inline::inline_fault, crate::specs::ForkTree::fork_fault, crate::specs::ForkTree::walk_fault, crate::specs::ForkTree::met_of))]
pub fn inline_is_whole(core: &Core3, fork: Fork, geo: &Geometry)
    requires { is_tree core.now fork ≡ false }
    ensures fault { (image : ℕ → List ℕ) → fork_fault (layout geo.now) image core.now fork ≡ inline_fault (layout geo.now) core.now fork }
    ensures mappings { (image : ℕ → List ℕ) → (met_of (layout geo.now) image core.now fork).mappings ≡ inline_mappings core.now fork }
    ensures blocks { (image : ℕ → List ℕ) → (met_of (layout geo.now) image core.now fork).blocks ≡ [] }
{}
