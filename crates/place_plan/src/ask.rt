use byte_fields::Block;
use list_edit::Edit;
use tree_defs::Site;

/// What is done to the tree of a group: where the tree lies, the edit, and its record
/// (XFS Algorithms and Data Structures, "Short Format B+trees").
#[derive(Clone, Copy)]
pub struct Ask<R> {
    pub site: Site,
    pub how: Edit,
    pub rec: R,
}

/// A block of a tree by its number in the group, its level (a leaf's is 0), and whether it is the root.
#[derive(Clone, Copy)]
pub struct Spot {
    pub level: u8,
    pub root: bool,
    pub block: u32,
}

/// A block of the tree as it was read.
#[derive(Clone, Copy)]
pub struct Seen {
    pub spot: Spot,
    pub block: Block,
}

// An entry of a node, and how many records or entries its child has afterwards.
#[derive(Clone, Copy)]
pub(crate) struct Below {
    pub entry: usize,
    pub has: u16,
}
