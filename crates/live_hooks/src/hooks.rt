ghost use Rattle.std.specs.Prelude.{◌≡◌, ◌≤◌, ◌+◌, OnOk, OnErr};
ghost use Rattle.run_edits.specs.Edits.{HasRoom};
ghost use Rattle.live_hooks.specs.Meaning.{Stays};
ghost use Rattle.live_hooks.specs.Scan.{is_visited, HearsDelta, HearsPiece};

use crate::listener::Listener;
use crate::records::GroupRec;
use rmap_recs::Memory;

/// Whether a scan has been at the inode, so that its listener hears of what changes there. The cursor
/// is the last number that was passed (XFS Online Fsck Design, "Live Inode Scans").
pub fn want(cursor: u64, ino: u64) -> bool
    ensures { result ≡ is_visited cursor ino }
{
    ino <= cursor
}

/// Tells a listener of a mapping, or a block of a fork's btree, that was found in the inode which the
/// scan holds.
pub fn tell_piece<L: Listener>(
    listener: &mut L,
    ino: u64,
    uid: u32,
    rec: &GroupRec,
) -> Result<(), Memory>
    requires { HasRoom rec.now.rec }
    ensures heard { OnOk result (HearsPiece (L.stands_for listener.old) (L.stands_for listener.new) (record { ino = ino; uid = uid }) rec.now) }
    ensures refused { OnErr result (Stays (L.stands_for listener.old) (L.stands_for listener.new)) }
    ensures room { L.room_of listener.old ≤ L.room_of listener.new + 1 }
    ensures full { OnErr result (L.room_of listener.old ≡ 0) }
{
    listener.piece(ino, uid, rec)
}

/// Tells a listener of a finished step, which gave an inode blocks or took them from it. Where the
/// scan hasn't been at the inode, nobody hears of it: the scan will find what it left. The scan holds
/// another inode, or none.
pub fn tell_delta<L: Listener>(
    listener: &mut L,
    cursor: u64,
    ino: u64,
    uid: u32,
    rec: &GroupRec,
    add: bool,
) -> Result<(), Memory>
    requires { HasRoom rec.now.rec }
    ensures heard { OnOk result (HearsDelta (L.stands_for listener.old) (L.stands_for listener.new) cursor add (record { ino = ino; uid = uid }) rec.now) }
    ensures refused { OnErr result (Stays (L.stands_for listener.old) (L.stands_for listener.new)) }
    ensures room { L.room_of listener.old ≤ L.room_of listener.new + 1 }
    ensures full { OnErr result (L.room_of listener.old ≡ 0) }
{
    if !want(cursor, ino) {
        return Ok(());
    }
    listener.delta(ino, uid, rec, add)
}
