ghost use Rattle.std.specs.Prelude.{ℕ, List};
ghost use Rattle.tree_defs.specs.declared.site.Site.{Site};
ghost use Rattle.inode_scan.specs.Least.{FirstIsLeast};
ghost use Rattle.inode_scan.specs.Reads.{ReadsFew, ReadsInBounds};
ghost use Rattle.inode_scan.specs.Search.{FindsFirst};

/// A law: in a readable tree a search finds the lowest allocated inode of the range.
pub fn finds_first()
    ensures { (site : Site) (m : ℕ → List ℕ) (from end : ℕ) → FindsFirst site m from end }
{}

/// A law: of chunks in the order and the range of their btree, the first allocated inode that is found
/// is the least of the range, and none is found where there is none.
pub fn first_is_least()
    ensures { FirstIsLeast }
{}

/// A law: in a readable tree a search reads at most two blocks a level, and 2 for each 251 chunks that
/// it passes.
pub fn reads_few()
    ensures { (site : Site) (m : ℕ → List ℕ) (from end : ℕ) → ReadsFew site m from end }
{}

/// A law: in a group of at most 2^28 blocks a search that passes at most 32,068,764 chunks reads at
/// most 1,024 blocks, and one more for each 126 chunks that it passes.
pub fn reads_in_bounds()
    ensures { (site : Site) (m : ℕ → List ℕ) (from end : ℕ) → ReadsInBounds site m from end }
{}
