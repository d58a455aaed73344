ghost use Rattle.std.specs.Prelude.{◌≡◌, ◌<◌, ◌≤◌, ◌+◌, ◌++◌, ◌∷◌, [], OnOk};
ghost use Rattle.std.specs.Vec.{vec_capacity, vec_len};

use fs_model::Entry;

/// So many entries make a journal full: no event begins that would add one.
pub const MOST_ENTRIES: usize = 1_048_576;

/// The journal of what was found and done, in order; the device's count of faults when the core was
/// opened, and that at the event that met the first fault since.
#[derive(Drop)]
pub struct Book {
    pub journal: Vec<Entry>,
    pub begun: u64,
    pub shut: Option<u64>,
}

/// Adds an entry, in room that is there.
pub fn put_entry(journal: &mut Vec<Entry>, entry: Entry)
    requires { vec_len journal.old < vec_capacity journal.old }
    ensures items { journal.new.items ≡ journal.old.items ++ entry ∷ [] }
    ensures capacity { vec_capacity journal.new ≡ vec_capacity journal.old }
{
    let place = journal.len();
    let _ = journal.insert(place, entry);
}
