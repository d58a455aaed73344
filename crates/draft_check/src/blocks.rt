ghost use Rattle.std.specs.Prelude.{◌≡◌, ◌⊎◌, ℕ, true};
ghost use Rattle.tree_defs.specs.Lists.{In, is_in};
ghost use Rattle.join_blocks.specs.Joins.{placed_in};

use byte_fields::Block;

// Whether the block stands in the list.
fn is_among(block: u32, list: &[u32]) -> bool
    ensures { result ≡ is_in block list.now }
{
    let mut rest = list;
    while let Some((first, later)) = rest.split_first() {
        if *first == block {
            return true;
        }
        rest = later;
    }
    false
}

// Whether a block with this number was made.
fn is_made(block: u32, placed: &[(u32, Block)]) -> bool
    ensures { result ≡ is_in block (placed_in placed.now) }
{
    let mut rest = placed;
    while let Some(((first, _), later)) = rest.split_first() {
        if *first == block {
            return true;
        }
        rest = later;
    }
    false
}

// Whether the tree had the block, or took it.
fn is_theirs(block: u32, before: &[u32], taken: &[u32]) -> bool
    ensures { result ≡ true → In block before.now ⊎ In block taken.now }
{
    // Blocks of the tree are many, and those that it took are few.
    is_among(block, taken) || is_among(block, before)
}

/// Whether each block that was made is one that the tree had or one that it took
/// (XFS Algorithms and Data Structures, "AG Free List").
pub fn are_theirs(placed: &[(u32, Block)], before: &[u32], taken: &[u32]) -> bool
    ensures { result ≡ true → (b : ℕ) → In b (placed_in placed.now) → In b before.now ⊎ In b taken.now }
{
    let mut rest = placed;
    while let Some(((block, _), later)) = rest.split_first() {
        if !is_theirs(*block, before, taken) {
            return false;
        }
        rest = later;
    }
    true
}

/// Whether none of the blocks that the tree left was made anew
/// (XFS Algorithms and Data Structures, "AG Free List").
pub fn none_of(placed: &[(u32, Block)], left: &[u32]) -> bool
    ensures { result ≡ true → (b : ℕ) → In b left.now → In b (placed_in placed.now) → ⊥ }
{
    let mut rest = left;
    while let Some((block, later)) = rest.split_first() {
        if is_made(*block, placed) {
            return false;
        }
        rest = later;
    }
    true
}

/// Whether each block that the tree took was made
/// (XFS Algorithms and Data Structures, "AG Free List").
pub fn all_placed(taken: &[u32], placed: &[(u32, Block)]) -> bool
    ensures { result ≡ true → (b : ℕ) → In b taken.now → In b (placed_in placed.now) }
{
    let mut rest = taken;
    while let Some((block, later)) = rest.split_first() {
        if !is_made(*block, placed) {
            return false;
        }
        rest = later;
    }
    true
}
