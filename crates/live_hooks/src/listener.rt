ghost use Rattle.std.specs.Prelude.{◌≡◌, ◌≤◌, ◌+◌, ℕ, List, [], true, OnOk, OnErr};
ghost use Rattle.run_edits.specs.Edits.{HasRoom};
ghost use Rattle.live_hooks.specs.Heard.{Inode, Owned, owned_by};
ghost use Rattle.live_hooks.specs.Meaning.{Stays, MovesInode, MovesOwned, AnyOrder};

use crate::records::GroupRec;
use rmap_recs::Memory;

/// Who hears of the inodes that a scan has visited, and of the blocks that they own. Only `room` and
/// `clear` are called while no scan is open. Without memory a listener still stands for what it stood
/// for (XFS Online Fsck Design, "Filesystem Hooks", "Live Inode Scans").
pub trait Listener {
    /// What it stands for: visited inodes with their users, and the blocks that inodes own. It may
    /// stand for many lists.
    ghost stands_for: { Self → List Inode → List Owned → Type 0 };

    /// So many calls of `inode`, `piece` and `delta` can't answer Memory.
    ghost room_of: { Self → ℕ };

    /// An inode is visited from now on or, where it isn't taken, no inode any more. `uid` is its user.
    fn inode(&mut self, ino: u64, uid: u32, taken: bool) -> Result<(), Memory>
        ensures told { OnOk result (MovesInode (stands_for self.old) (stands_for self.new) taken (record { ino = ino; uid = uid })) }
        ensures refused { OnErr result (Stays (stands_for self.old) (stands_for self.new)) }
        ensures room { room_of self.old ≤ room_of self.new + 1 }
        ensures full { OnErr result (room_of self.old ≡ 0) };

    /// The scan found a mapping or a block of a fork's btree of the inode that it holds.
    fn piece(&mut self, ino: u64, uid: u32, rec: &GroupRec) -> Result<(), Memory>
        requires { HasRoom rec.now.rec }
        ensures told { OnOk result (MovesOwned (stands_for self.old) (stands_for self.new) true (owned_by (record { ino = ino; uid = uid }) rec.now)) }
        ensures refused { OnErr result (Stays (stands_for self.old) (stands_for self.new)) }
        ensures room { room_of self.old ≤ room_of self.new + 1 }
        ensures full { OnErr result (room_of self.old ≡ 0) };

    /// A finished step gave the inode these blocks, or else took them from it.
    fn delta(&mut self, ino: u64, uid: u32, rec: &GroupRec, add: bool) -> Result<(), Memory>
        requires { HasRoom rec.now.rec }
        ensures told { OnOk result (MovesOwned (stands_for self.old) (stands_for self.new) add (owned_by (record { ino = ino; uid = uid }) rec.now)) }
        ensures refused { OnErr result (Stays (stands_for self.old) (stands_for self.new)) }
        ensures room { room_of self.old ≤ room_of self.new + 1 }
        ensures full { OnErr result (room_of self.old ≡ 0) };

    /// Takes room, so that from now on `n` calls of `inode`, `piece` and `delta` can't answer Memory.
    /// `n` is for all calls that are due, so that a second call doesn't add to the first.
    fn room(&mut self, n: u32) -> Result<(), Memory>
        ensures same { Stays (stands_for self.old) (stands_for self.new) }
        ensures room { OnOk result (n ≤ room_of self.new) }
        ensures kept { room_of self.old ≤ room_of self.new }
        ensures full { OnErr result (room_of self.old + 1 ≤ n) };

    /// Forgets all, and keeps the room.
    fn clear(&mut self)
        ensures empty { stands_for self.new [] [] }
        ensures room { room_of self.old ≤ room_of self.new };

    /// The order of the lists says nothing.
    ghost any_order: { (x : Self) → AnyOrder (stands_for x) };
}
