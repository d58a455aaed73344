ghost use Rattle.std.specs.Prelude.{◌≡◌, ℕ};
ghost use Rattle.sblock.specs.Meets.{parts_blocks, first_of, covers, both_cover, share_block, meets};

use crate::kind::Kind;
use crate::rec_kind::RecKind;

// Whether no block belongs to two records of a tree of this kind.
fn are_blocks_parted(kind: Kind) -> bool
    ensures { result ≡ parts_blocks kind }
{
    match kind {
        Kind::Bno | Kind::Refc => true,
        Kind::Cnt | Kind::Rmap | Kind::Ino | Kind::Fino => false,
    }
}

fn first_block<K: RecKind>(rec: &K::Rec) -> u32
    ensures { result ≡ first_of K.form rec.now }
{
    K::block_of(&K::key_of(rec))
}

fn does_cover<K: RecKind>(rec: &K::Rec, block: u32) -> bool
    ensures { result ≡ covers K.form rec.now block }
{
    let first = first_block::<K>(rec);
    first <= block && u64::from(block) < u64::from(first) + u64::from(K::length_of(rec))
}

fn do_both_cover<K: RecKind>(a: &K::Rec, b: &K::Rec, block: u32) -> bool
    ensures { result ≡ both_cover K.form a.now b.now block }
{
    does_cover::<K>(a, block) && does_cover::<K>(b, block)
}

#[tactic(auto, unfolding(crate::specs::Meets::share_block))]
fn do_share_block<K: RecKind>(a: &K::Rec, b: &K::Rec) -> bool
    ensures { result ≡ share_block K.form a.now b.now }
{
    do_both_cover::<K>(a, b, first_block::<K>(a)) || do_both_cover::<K>(a, b, first_block::<K>(b))
}

/// Whether two records can't both be in a tree: in the trees of free space by start and of
/// reference counts those with a common block, in the others those with equal keys
/// (XFS Algorithms and Data Structures, "Allocation Groups").
pub fn do_meet<K: RecKind>(a: &K::Rec, b: &K::Rec) -> bool
    ensures { result ≡ meets K.form a.now b.now }
{
    if are_blocks_parted(K::kind()) {
        return do_share_block::<K>(a, b);
    }
    let (one, other) = (K::key_of(a), K::key_of(b));
    !K::is_before(&one, &other) && !K::is_before(&other, &one)
}
