ghost use Rattle.std.specs.Prelude.{◌≡◌, ◌+◌, ◌<◌};
ghost use Rattle.byte_fields.specs.Steps.{StepCount};

use std::marker::Model;
use std::sync::ledger::{Blank, Book, Ledger, Share};

/// How many blocks were read and written and how many records were moved, three counts apart
/// that no other call changes. It is counted in proofs alone: it takes no bytes and does
/// nothing when it runs.
#[derive(Drop)]
pub struct Steps<L: Ledger> {
    book: Book<L>,
    reads: Share<L>,
    writes: Share<L>,
    moves: Share<L>,
}

impl<L: Ledger> Model for Steps<L> {
    ghost Value = { StepCount };

    ghost view = { λ s. record { reads = s.reads.amount; writes = s.writes.amount; moves = s.moves.amount } };

    ghost invariant = { λ s. (0 < s.reads.parts) × (0 < s.writes.parts) × (0 < s.moves.parts) };
}

impl<L: Ledger> Steps<L> {
    /// Three counts at zero, out of a new ledger of three parts. A caller that counts nothing
    /// makes the blank and passes it to a function over `L`, called with `Brand`.
    pub fn new(blank: Blank) -> Self
        requires name { blank.name ≡ L.name }
        requires parts { blank.parts ≡ L.parts }
        requires three { blank.parts ≡ 3 }
        ensures { result ≡ record { reads = 0; writes = 0; moves = 0 } }
    {
        let (book, mut reads) = blank.open::<L>();
        let writes = reads.split_off(1, 0);
        let moves = reads.split_off(1, 0);
        Steps {
            book,
            reads,
            writes,
            moves,
        }
    }

    /// Counts that one block was read.
    pub fn block_read(&mut self)
        ensures { self.new ≡ record self.old { reads = self.old.reads + 1 } }
    {
        self.book.add(&mut self.reads, 1);
    }

    /// Counts that one block was written.
    pub fn block_written(&mut self)
        ensures { self.new ≡ record self.old { writes = self.old.writes + 1 } }
    {
        self.book.add(&mut self.writes, 1);
    }

    /// Counts that one record was moved to another place in its block or to another block.
    pub fn record_moved(&mut self)
        ensures { self.new ≡ record self.old { moves = self.old.moves + 1 } }
    {
        self.book.add(&mut self.moves, 1);
    }
}
