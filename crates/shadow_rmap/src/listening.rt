use crate::shadow::Shadow;
use live_hooks::{GroupRec, Listener};
use rmap_recs::Memory;

/// A shadow hears of all inodes, and keeps what they own in its own group.
impl Listener for Shadow {
    ghost use Rattle.shadow_rmap.specs.Told.{KeepsOwn};
    ghost use Rattle.shadow_rmap.specs.ToldLaws.{any_order_of_own};

    ghost stands_for = { λ s vs os. KeepsOwn s os };

    ghost room_of = { λ s. s.room };

    ghost any_order = { λ s. any_order_of_own s };

    fn inode(&mut self, _ino: u64, _uid: u32, _taken: bool) -> Result<(), Memory> {
        Ok(())
    }

    fn piece(&mut self, _ino: u64, _uid: u32, rec: &GroupRec) -> Result<(), Memory> {
        if rec.group != self.group() {
            return Ok(());
        }
        self.add(&rec.rec)
    }

    fn delta(&mut self, _ino: u64, _uid: u32, rec: &GroupRec, add: bool) -> Result<(), Memory> {
        if rec.group != self.group() {
            return Ok(());
        }
        if add {
            return self.add(&rec.rec);
        }
        self.remove(&rec.rec)
    }

    fn room(&mut self, n: u32) -> Result<(), Memory> {
        Shadow::room(self, n)
    }

    fn clear(&mut self) {
        Shadow::clear(self);
    }
}
