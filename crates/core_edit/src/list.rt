// The free list of an open edit.
ghost use Rattle.ag_headers.specs.Ring.{entries};
ghost use Rattle.core_edit.specs.Edited.{GainsLast, LosesFirst};
ghost use Rattle.core_edit.specs.Open.{AtMark};
ghost use Rattle.std.specs.Prelude.{◌≡◌, ◌<◌, length};

use crate::open::OpenEdit;

impl OpenEdit {
    /// Takes the first block off the free list, as one edit; none exactly where the list is empty. The
    /// edit holds it no more (XFS Algorithms and Data Structures, "AG Free List").
    pub fn take_block(&mut self) -> Option<u32>
        ensures lost { LosesFirst result self.old self.new }
        ensures group { self.new.group ≡ self.old.group }
        ensures joined { self.new.txn.blocks ≡ self.old.txn.blocks }
        ensures marked { AtMark self.new }
    {
        let _ = self.heads.list.len();
        let block = self.heads.list.take_first();
        self.mark();
        block
    }

    /// Puts a block behind the last one of the free list, as one edit: the edit holds it from then on,
    /// and may write it (XFS Algorithms and Data Structures, "AG Free List").
    pub fn give_block(&mut self, block: u32)
        requires room { length (entries self.old.heads.list) < 119 }
        ensures gained { GainsLast block self.old self.new }
        ensures group { self.new.group ≡ self.old.group }
        ensures joined { self.new.txn.blocks ≡ self.old.txn.blocks }
        ensures marked { AtMark self.new }
    {
        self.heads.list.put_last(block);
        self.mark();
    }
}
