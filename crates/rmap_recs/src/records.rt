ghost use Rattle.std.specs.Prelude.{◌≡◌};

use crate::owner::is_inode;
use crate::words::{ATTRIBUTE, FORK_TREE, UNWRITTEN, does_word_go_on};

/// A reverse mapping: `count` blocks of the group from block `start` on belong to the owner with
/// this number. The offset word has bit 63 for an attribute fork, bit 62 for a block of the
/// fork's own btree, bit 61 for blocks that aren't written, and the offset in the file in its
/// low 54 bits (XFS Algorithms and Data Structures, "Reverse-Mapping B+tree").
#[derive(Clone, Copy, Debug, PartialEq, Eq)]
pub struct RmapRec {
    pub start: u32,
    pub count: u32,
    pub owner: u64,
    pub word: u64,
}

/// What a reverse mapping is ordered by: start, owner and offset word. The word's unwritten flag,
/// bit 61, doesn't count.
#[derive(Clone, Copy, Debug, PartialEq, Eq)]
pub struct Key {
    pub start: u32,
    pub owner: u64,
    pub word: u64,
}

impl RmapRec {
    ghost use Rattle.rmap_recs.specs.Rmap.{can_join as can_join_of, is_shareable as is_shareable_of};

    /// Whether this record and the next one can be one: the next begins where this one ends, with
    /// the same owner and flags, and for blocks that a fork maps at the offset that comes then.
    pub fn can_join(&self, next: &RmapRec) -> bool
        ensures { result ≡ can_join_of self.now next.now }
    {
        u64::from(next.start) == u64::from(self.start) + u64::from(self.count)
            && next.owner == self.owner
            && does_word_go_on(self.owner, self.word, self.count, next.word)
    }

    /// Whether other files may have these blocks too: they are mapped by an inode's data fork,
    /// and written.
    #[tactic(auto, unfolding(crate::specs::Rmap::is_shareable))]
    pub fn is_shareable(&self) -> bool
        ensures { result ≡ is_shareable_of self.now }
    {
        is_inode(self.owner)
            && !(self.word & ATTRIBUTE > 0)
            && !(self.word & FORK_TREE > 0)
            && !(self.word & UNWRITTEN > 0)
    }
}
