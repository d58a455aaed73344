ghost use Rattle.std.specs.Prelude.{◌≡◌, ◌==◌, ◌<◌, ◌+◌, ◌++◌, [], ◌∷◌, IsNone, filter, find, not, option_map};
ghost use Rattle.std.specs.Vec.{vec_capacity, vec_len};
ghost use Rattle.intent_drain.specs.Holds.{holder_in, is_hold_of};

/// So many inodes are held at most: two by each chain, and one by the scan.
pub const MOST_HOLDS: usize = 33;

/// Who holds an inode: the chain of this number, or the scan
/// (XFS Online Fsck Design, "Inode Scans").
#[derive(Clone, Copy, Debug, PartialEq, Eq)]
pub enum Holder {
    Chain(u32),
    Scan,
}

/// An inode that is held.
#[derive(Clone, Copy, Debug, PartialEq, Eq)]
pub struct Hold {
    pub ino: u64,
    pub holder: Holder,
}

/// Who holds the inode.
pub fn holder_of(holds: &[Hold], ino: u64) -> Option<Holder>
    ensures { result ≡ holder_in holds.now ino }
{
    let mut rest = holds;
    while let Some((first, later)) = rest.split_first() {
        if first.ino == ino {
            return Some(first.holder);
        }
        rest = later;
    }
    None
}

/// Notes one hold more, in room that is there.
pub fn put_hold(holds: &mut Vec<Hold>, hold: Hold)
    requires { vec_len holds.old < vec_capacity holds.old }
    ensures items { holds.new.items ≡ holds.old.items ++ hold ∷ [] }
    ensures capacity { vec_capacity holds.new ≡ vec_capacity holds.old }
{
    let place = holds.len();
    let _ = holds.insert(place, hold);
}

// Whether the hold is one of this inode.
fn is_of(hold: &Hold, ino: u64) -> bool
    ensures { result ≡ is_hold_of ino hold.now }
{
    hold.ino == ino
}

/// Forgets who holds the inode.
pub fn leave_hold(holds: &mut Vec<Hold>, ino: u64)
    ensures items { holds.new.items ≡ filter (λ h. not (is_hold_of ino h)) holds.old.items }
    ensures capacity { vec_capacity holds.new ≡ vec_capacity holds.old }
{
    holds.retain(|hold| !is_of(hold, ino));
}
