use crate::listener::Listener;
use crate::records::GroupRec;
use rmap_recs::Memory;

/// The listener that ignores all. It stands for every two lists, and needs no room.
#[derive(Clone, Copy, Debug, Drop, PartialEq, Eq)]
pub struct NoListener;

impl Listener for NoListener {
    ghost use Rattle.live_hooks.specs.Silent.{StandsForAll, all_room, any_order_of_all};

    ghost stands_for = { λ x vs os. StandsForAll };

    ghost room_of = { λ x. all_room };

    ghost any_order = { λ x. any_order_of_all };

    fn inode(&mut self, _ino: u64, _uid: u32, _taken: bool) -> Result<(), Memory> {
        Ok(())
    }

    fn piece(&mut self, _ino: u64, _uid: u32, _rec: &GroupRec) -> Result<(), Memory> {
        Ok(())
    }

    fn delta(&mut self, _ino: u64, _uid: u32, _rec: &GroupRec, _add: bool) -> Result<(), Memory> {
        Ok(())
    }

    fn room(&mut self, _n: u32) -> Result<(), Memory> {
        Ok(())
    }

    fn clear(&mut self) {}
}
