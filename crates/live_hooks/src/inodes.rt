ghost use Rattle.std.specs.Prelude.{◌≡◌, ◌≤◌, ◌+◌, OnOk, OnErr};
ghost use Rattle.live_hooks.specs.Meaning.{Stays};
ghost use Rattle.live_hooks.specs.Scan.{HearsInode, HearsLast};

use crate::hooks::want;
use crate::listener::Listener;
use rmap_recs::Memory;

/// Tells a listener that all of the inode which the scan holds was given: from now on the cursor is
/// its number.
pub fn tell_last<L: Listener>(listener: &mut L, ino: u64, uid: u32) -> Result<(), Memory>
    ensures heard { OnOk result (HearsLast (L.stands_for listener.old) (L.stands_for listener.new) (record { ino = ino; uid = uid })) }
    ensures refused { OnErr result (Stays (L.stands_for listener.old) (L.stands_for listener.new)) }
    ensures room { L.room_of listener.old ≤ L.room_of listener.new + 1 }
    ensures full { OnErr result (L.room_of listener.old ≡ 0) }
{
    listener.inode(ino, uid, true)
}

/// Tells a listener of an inode that was made or, where it isn't taken, given back. One behind the
/// cursor counts as visited: the scan won't come to it any more. A new one owns nothing yet, and one
/// that is given back nothing any more, so that no block is spoken of.
pub fn tell_inode<L: Listener>(
    listener: &mut L,
    cursor: u64,
    ino: u64,
    uid: u32,
    taken: bool,
) -> Result<(), Memory>
    ensures heard { OnOk result (HearsInode (L.stands_for listener.old) (L.stands_for listener.new) cursor taken (record { ino = ino; uid = uid })) }
    ensures refused { OnErr result (Stays (L.stands_for listener.old) (L.stands_for listener.new)) }
    ensures room { L.room_of listener.old ≤ L.room_of listener.new + 1 }
    ensures full { OnErr result (L.room_of listener.old ≡ 0) }
{
    if !want(cursor, ino) {
        return Ok(());
    }
    listener.inode(ino, uid, taken)
}
