ghost use Rattle.std.specs.Prelude.{◌≡◌, ◌++◌, ◌∷◌, [], true, false, not, ◌||◌, IfOk, IfSome, OnOk, filter, find, option_to_list};
ghost use Rattle.std.specs.List.{flat_map, list_any};
ghost use Rattle.fork_change.specs.Lists.{AllFit, Fits, added as added_is, is_side, maps as maps_is, overlaps as overlaps_is, rest_of, taken as taken_is};

use crate::joins::{back, front, maps, meets, overlaps, with_after, with_before};
use dinode_core::Mapping;
use geom::Geometry;
use std::alloc::{AllocError, Global};

/// The mapping of the list that has this offset.
pub fn mapping_at(list: &[Mapping], offset: u64) -> Option<Mapping>
    requires { AllFit list.now }
    ensures value { result ≡ find (maps_is offset) list.now }
    ensures fits { IfSome result (λ m. Fits m) }
    ensures maps { IfSome result (λ m. maps_is offset m ≡ true) }
{
    let mut rest = list;
    while let Some((first, later)) = rest.split_first() {
        if maps(first, offset) {
            return Some(*first);
        }
        rest = later;
    }
    None
}

/// Whether an offset of the mapping is mapped by the list.
pub fn is_occupied(list: &[Mapping], m: &Mapping) -> bool
    requires list { AllFit list.now }
    requires fits { Fits m.now }
    ensures { result ≡ list_any (overlaps_is m.now) list.now }
{
    let mut rest = list;
    while let Some((first, later)) = rest.split_first() {
        if overlaps(m, first) {
            return true;
        }
        rest = later;
    }
    false
}

// Whether the mapping isn't joined, and lies on this side of what was made.
fn is_on_side(geo: &Geometry, added: &Mapping, grown: &Mapping, before: bool, p: &Mapping) -> bool
    requires added { Fits added.now }
    requires grown { Fits grown.now }
    requires fits { Fits p.now }
    ensures { result ≡ is_side geo.now.agblklog added.now grown.now before p.now }
{
    if meets(geo, p, added) || meets(geo, grown, p) {
        return false;
    }
    if before {
        p.offset < grown.offset
    } else {
        p.offset >= grown.offset
    }
}

// Adds the mappings of one side.
#[tactic(auto, using(crate::proofs::ListLemmas::kept_one, crate::proofs::ListLemmas::left_one, crate::proofs::ListLemmas::all_done))]
fn push_side(
    new: &mut Vec<Mapping>,
    geo: &Geometry,
    list: &[Mapping],
    added: &Mapping,
    grown: &Mapping,
    before: bool,
) -> Result<(), AllocError>
    requires list { AllFit list.now }
    requires added { Fits added.now }
    requires grown { Fits grown.now }
    ensures { OnOk result (new.new.items ≡ new.old.items ++ filter (is_side geo.now.agblklog added.now grown.now before) list.now) }
{
    let mut rest = list;
    while let Some((first, later)) = rest.split_first() {
        if is_on_side(geo, added, grown, before, first) {
            new.push(*first)?;
        }
        rest = later;
    }
    Ok(())
}

/// The list with a mapping added, joined with its neighbours.
pub fn added(
    alloc: Global,
    geo: &Geometry,
    list: &[Mapping],
    m: &Mapping,
) -> Result<Vec<Mapping>, AllocError>
    requires list { AllFit list.now }
    requires fits { Fits m.now }
    ensures value { IfOk result (λ new. new.items ≡ added_is geo.now.agblklog m.now list.now) }
    ensures fits { IfOk result (λ new. AllFit new.items) }
{
    let grown = with_before(geo, list, m);
    let mut new = Vec::new(alloc);
    push_side(&mut new, geo, list, m, &grown, true)?;
    new.push(with_after(geo, list, &grown))?;
    push_side(&mut new, geo, list, m, &grown, false)?;
    Ok(new)
}

// Adds what of a mapping isn't of the piece.
#[tactic(auto, using(crate::proofs::ListLemmas::fits_both))]
fn push_rest(new: &mut Vec<Mapping>, m: &Mapping, offset: u64, count: u32) -> Result<(), AllocError>
    requires { Fits m.now }
    ensures value { OnOk result (new.new.items ≡ new.old.items ++ rest_of offset count m.now) }
    ensures fits { AllFit new.old.items → OnOk result (AllFit new.new.items) }
{
    if !maps(m, offset) {
        new.push(*m)?;
        return Ok(());
    }
    if let Some(part) = front(m, offset) {
        new.push(part)?;
    }
    if let Some(part) = back(m, offset, count) {
        new.push(part)?;
    }
    Ok(())
}

/// The list without the `count` blocks of a mapping from an offset on.
#[tactic(auto, using(crate::proofs::ListLemmas::rest_one, crate::proofs::ListLemmas::all_done), unfolding(crate::specs::Lists::taken))]
pub fn taken(
    alloc: Global,
    list: &[Mapping],
    offset: u64,
    count: u32,
) -> Result<Vec<Mapping>, AllocError>
    requires { AllFit list.now }
    ensures value { IfOk result (λ new. new.items ≡ taken_is offset count list.now) }
    ensures fits { IfOk result (λ new. AllFit new.items) }
{
    let mut new = Vec::new(alloc);
    let mut rest = list;
    while let Some((first, later)) = rest.split_first() {
        push_rest(&mut new, first, offset, count)?;
        rest = later;
    }
    Ok(new)
}
