// What a locked value has.
ghost use Rattle.std.specs.Prelude.{List, ℕ, ◌≡◌, length};

/// How many actors there are: number 0, and writers 1 to 16.
pub const ACTORS: u32 = 17;

/// A value with one journal. Beside it are its origin, which no turn changes, and what it keeps
/// for each actor, which only a turn for that actor changes.
pub trait Recorded {
    type Entry;

    type Origin;

    type Kept;

    ghost journal: { Self → List Self.Entry };

    ghost origin: { Self → Self.Origin };

    ghost kept: { Self → ℕ → Self.Kept };

    /// The number of entries in the journal.
    fn entries(&self) -> u64
        ensures { result ≡ length (journal self.now) };
}
