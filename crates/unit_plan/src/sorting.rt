// Pieces in the order of their first blocks. They come almost so: the forks of a group's inodes one behind
// the other, and its metadata last.
ghost use Rattle.std.specs.Prelude.{◌≡◌, ℕ, ◌<◌, ◌≤◌, ◌+◌, length};
ghost use Rattle.std.specs.List.Sorted.{IsNonDecreasingBy, IsPermutation};
ghost use Rattle.unit_plan.specs.Rising.{RiseBetween};

use crate::piece::Piece;

// Strays are taken to their places where their number times its root is at most so many times that of all
// pieces: that many moves it takes.
const WORTH: usize = 8;

// The first of the pieces that rise up to the one at the place.
fn rise_from(pieces: &[Piece], at: usize) -> usize
    requires { at < length pieces.now }
    ensures within { result ≤ at }
    ensures rises { RiseBetween pieces.now result at }
{
    let mut first = at;
    while first > 0 && pieces[first - 1].run.start <= pieces[first].run.start {
        first -= 1;
    }
    first
}

// The last of the pieces that rise from the one at the place on.
fn rise_to(pieces: &[Piece], at: usize) -> usize
    requires { at < length pieces.now }
    ensures within { (at ≤ result) × (result < length pieces.now) }
    ensures rises { RiseBetween pieces.now at result }
{
    let mut last = at;
    while last + 1 < pieces.len() && pieces[last].run.start <= pieces[last + 1].run.start {
        last += 1;
    }
    last
}

// How many of the pieces of a part begin before the block, where they rise.
fn how_many_before(pieces: &[Piece], from: usize, to: usize, block: u32) -> usize
    requires { (from ≤ to) × (to ≤ length pieces.now) }
    ensures { from + result ≤ to }
{
    pieces[from..to].partition_point(|piece| piece.run.start < block)
}

// How many of the pieces from the second place on begin before the one at the first: all where the places
// are one.
fn how_many_ahead(pieces: &[Piece], next: usize, from: usize) -> usize
    requires { (next ≤ from) × (from ≤ length pieces.now) }
    ensures { from + result ≤ length pieces.now }
{
    if next == from {
        return pieces.len() - from;
    }
    how_many_before(pieces, from, pieces.len(), pieces[next].run.start)
}

fn sort_first(pieces: &mut [Piece], count: usize)
    requires { count ≤ length pieces.old }
    ensures long { length pieces.new ≡ length pieces.old }
    ensures kept { IsPermutation pieces.old pieces.new }
{
    pieces[..count].sort_unstable_by_key(|piece| piece.run.start);
}

// Exchanges two neighbouring parts, of which the first begins at a place.
fn exchange(pieces: &mut [Piece], from: usize, first: usize, second: usize)
    requires { from + (first + second) ≤ length pieces.old }
    ensures long { length pieces.new ≡ length pieces.old }
    ensures kept { IsPermutation pieces.old pieces.new }
{
    pieces[from..from + (first + second)].rotate_left(first);
}

// Takes so many pieces of a part, which rise, one by one to their places among those behind them.
fn merge_each(pieces: &mut [Piece], from: usize, count: usize, to: usize)
    requires { (from + count ≤ to) × (to ≤ length pieces.old) }
    ensures long { length pieces.new ≡ length pieces.old }
    ensures kept { IsPermutation pieces.old pieces.new }
{
    let mut at = from;
    let mut left = count;
    while left > 0 {
        let ahead = how_many_before(pieces, at + left, to, pieces[at].run.start);
        exchange(pieces, at, left, ahead);
        at += ahead + 1;
        left -= 1;
    }
}

// The same of the first of all pieces, which are taken along in bundles and then one by one.
fn merge_first(pieces: &mut [Piece], count: usize, bundle: usize)
    requires { (count ≤ length pieces.old) × (0 < bundle) }
    ensures { IsPermutation pieces.old pieces.new }
{
    let mut at = 0;
    let mut left = count;
    while left > 0 {
        let some = bundle.min(left);
        let ahead = how_many_ahead(pieces, at + some, at + left);
        exchange(pieces, at + some, left - some, ahead);
        merge_each(pieces, at, some, at + some + ahead);
        at += some + ahead;
        left -= some;
    }
}

// Brings the pieces near their order where few stray from the long row of them that ends before a place.
fn gather(pieces: &mut [Piece], end: usize, strays: usize)
    requires end { end ≤ length pieces.old }
    requires strays { strays ≤ length pieces.old }
    ensures { IsPermutation pieces.old pieces.new }
{
    let bundle = strays.isqrt().max(1);
    if strays / WORTH > pieces.len() / bundle {
        return;
    }
    pieces.rotate_left(end);
    sort_first(pieces, strays);
    merge_first(pieces, strays, bundle);
}

/// Sorts pieces by their first blocks. Where they rise already, or few of them stray from one long row,
/// that costs little more than to walk along them.
pub fn sort_by_start(pieces: &mut Vec<Piece>)
    ensures kept { IsPermutation pieces.old.items pieces.new.items }
    ensures rising { IsNonDecreasingBy (λ p. p.run.start) pieces.new.items }
{
    let middle = pieces.len() / 2;
    if middle == 0 {
        return;
    }
    let first = rise_from(pieces.as_slice(), middle);
    let end = rise_to(pieces.as_slice(), middle) + 1;
    let strays = pieces.len() - (end - first);
    if strays == 0 {
        return;
    }
    gather(pieces.as_mut_slice(), end, strays);
    pieces.sort_unstable_by_key(|piece| piece.run.start);
}
