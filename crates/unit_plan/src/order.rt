ghost use Rattle.std.specs.Prelude.{◌≡◌, take};
ghost use Rattle.unit_plan.specs.Order.{place as place_is, inode as inode_is, is_first as is_first_of, comes_before as comes_before_of, put};
ghost use Rattle.unit_plan.specs.Firsts.{listed, shown_of};

use fs_model::{Claim, Evidence};
use sblock::Kind;

/// The first two of some claims.
#[derive(Clone, Copy)]
pub enum Firsts {
    Nothing,
    One(Claim),
    Two(Claim, Claim),
}

fn place_of_tree(kind: Kind) -> u8
    ensures { result ≡ place_is (Claim.Tree kind) }
{
    match kind {
        Kind::Bno => 3,
        Kind::Cnt => 4,
        Kind::Rmap => 5,
        Kind::Refc => 6,
        Kind::Ino => 7,
        Kind::Fino => 8,
    }
}

// The place of the claim's sort among all sorts.
fn place_of(claim: Claim) -> u8
    ensures { result ≡ place_is claim }
{
    match claim {
        Claim::Heads => 0,
        Claim::Log => 1,
        Claim::List => 2,
        Claim::Tree(kind) => place_of_tree(kind),
        Claim::Reserve => 9,
        Claim::Limbo => 10,
        Claim::Chunk => 11,
        Claim::Data(_) => 12,
        Claim::Attr(_) => 13,
        Claim::ForkTree(_) => 14,
        Claim::Staging => 15,
    }
}

fn inode_of(claim: Claim) -> u64
    ensures { result ≡ inode_is claim }
{
    match claim {
        Claim::Data(ino) => ino,
        Claim::Attr(ino) => ino,
        Claim::ForkTree(ino) => ino,
        _ => 0,
    }
}

#[tactic(auto, unfolding(crate::specs::Order::is_first))]
fn is_first(place: u8, inode: u64, other_place: u8, other_inode: u64) -> bool
    ensures { result ≡ is_first_of place inode other_place other_inode }
{
    if place == other_place {
        inode < other_inode
    } else {
        place < other_place
    }
}

/// Whether the claim is shown before the other.
pub fn comes_before(claim: Claim, other: Claim) -> bool
    ensures { result ≡ comes_before_of claim other }
{
    let place = place_of(claim);
    let inode = inode_of(claim);
    let other_place = place_of(other);
    let other_inode = inode_of(other);
    is_first(place, inode, other_place, other_inode)
}

/// The first two of these claims and one more.
pub fn with_claim(firsts: Firsts, claim: Claim) -> Firsts
    ensures { listed result ≡ take 2 (put claim (listed firsts)) }
{
    match firsts {
        Firsts::Nothing => Firsts::One(claim),
        Firsts::One(first) => {
            if comes_before(first, claim) {
                Firsts::Two(first, claim)
            } else {
                Firsts::Two(claim, first)
            }
        }
        Firsts::Two(first, second) => with_two(first, second, claim),
    }
}

fn with_two(first: Claim, second: Claim, claim: Claim) -> Firsts
    ensures { listed result ≡ take 2 (put claim (listed (Firsts.Two first second))) }
{
    if !comes_before(first, claim) {
        return Firsts::Two(claim, first);
    }
    if comes_before(second, claim) {
        return Firsts::Two(first, second);
    }
    Firsts::Two(first, claim)
}

/// What is shown of a block with these first two claims.
pub fn shown(firsts: Firsts, block: u32) -> Option<Evidence>
    ensures { result ≡ shown_of block firsts }
{
    match firsts {
        Firsts::Two(first, second) => Some(Evidence::Overlap {
            block,
            first,
            second,
        }),
        _ => None,
    }
}
