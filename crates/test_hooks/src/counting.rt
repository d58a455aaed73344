// A listener that counts.
use live_hooks::{GroupRec, Listener};
use rmap_recs::Memory;

/// Counts visited inodes, and the blocks that were told of all groups.
#[derive(Drop)]
pub struct Counts {
    pub inodes: u64,
    pub blocks: u64,
}

impl Listener for Counts {
    ghost use Rattle.live_hooks.specs.Silent.{StandsForAll, all_room, any_order_of_all};

    ghost stands_for = { λ x vs os. StandsForAll };

    ghost room_of = { λ x. all_room };

    ghost any_order = { λ x. any_order_of_all };

    fn inode(&mut self, _ino: u64, _uid: u32, taken: bool) -> Result<(), Memory> {
        self.inodes = if taken {
            self.inodes.saturating_add(1)
        } else {
            self.inodes.saturating_sub(1)
        };
        Ok(())
    }

    fn piece(&mut self, _ino: u64, _uid: u32, rec: &GroupRec) -> Result<(), Memory> {
        self.blocks = self.blocks.saturating_add(u64::from(rec.rec.count));
        Ok(())
    }

    fn delta(&mut self, _ino: u64, _uid: u32, rec: &GroupRec, add: bool) -> Result<(), Memory> {
        let count = u64::from(rec.rec.count);
        self.blocks = if add {
            self.blocks.saturating_add(count)
        } else {
            self.blocks.saturating_sub(count)
        };
        Ok(())
    }

    fn room(&mut self, _n: u32) -> Result<(), Memory> {
        Ok(())
    }

    fn clear(&mut self) {
        self.inodes = 0;
        self.blocks = 0;
    }
}
