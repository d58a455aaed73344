// Blocks of an image that were read at once.
ghost use Rattle.std.specs.Prelude.{◌≡◌, ◌<◌, ◌≤◌, ◌+◌, ◌*◌, ◌/◌, ◌-◌, ◌↔◌, IsTrue, ℕ, false, None, Some, IfOk, IfSome, is_some, if◌then◌else◌, take, drop, length, nat_le, vec_len};

use byte_fields::Block;
use std::alloc::Global;
use std::io;
use std::io::{ErrorKind, Read};
use std::os::unix::fs::FileExt;

/// How many blocks are read at once, where blocks are asked for in their order.
pub const READ_AHEAD_BLOCKS: usize = 8;

/// Some blocks in a row, as a file gave them. Its memory is taken once; where there was none, it
/// never holds a block.
#[derive(Drop)]
pub struct Window {
    bytes: Vec<u8>,
    first: u64,
    held: u64,
    ghost within: { held * 4096 ≤ vec_len bytes },
}

impl Window {
    ghost use Rattle.blk_device.specs.Window.{block_among, block_in, room_of, HoldsOf, HoldsUpTo, IsLastIn};

    /// Holds no block.
    pub fn new(alloc: Global) -> Self
        ensures { (b : ℕ) → block_in result b ≡ None }
    {
        let bytes = Vec::from_elem(alloc, 0, READ_AHEAD_BLOCKS * 4096);
        Window {
            bytes: bytes.unwrap_or(Vec::new(alloc)),
            first: 0,
            held: 0,
        }
    }

    /// Forgets its blocks, where the file may have changed.
    pub fn empty(&mut self)
        ensures none { (b : ℕ) → block_in self.new b ≡ None }
        ensures room { room_of self.new ≡ room_of self.old }
    {
        self.held = 0;
    }

    /// Whether it has room for a block.
    pub fn has_room(&self) -> bool
        ensures { result ≡ nat_le 4096 (room_of self.now) }
    {
        self.bytes.len() >= 4096
    }

    /// Whether the block of that number is the last one that it holds.
    pub fn ends_with(&self, at: u64) -> bool
        ensures { IsTrue result ↔ IsLastIn self.now at }
    {
        at >= self.first && self.held > 0 && at - self.first == self.held - 1
    }

    /// Whether it holds the block of that number.
    pub fn holds(&self, at: u64) -> bool
        ensures { result ≡ is_some (block_in self.now at) }
    {
        at >= self.first && at - self.first < self.held
    }

    /// Whether it was read from that block on or from one before.
    pub fn begins_by(&self, at: u64) -> bool
        ensures { IsTrue result ↔ (self.now.first ≤ at) }
    {
        self.first <= at
    }

    /// Copies the block of that number, if it holds it.
    pub fn get(&self, at: u64, into: &mut Block) -> bool
        ensures held { block_in self.now at ≡ (if result then Some into.new.bytes else None) }
        ensures left { result ≡ false → into.new ≡ into.old }
    {
        if at < self.first || at - self.first >= self.held {
            return false;
        }
        let begin = (at - self.first) * 4096;
        let (_, rest) = self.bytes.split_at(begin as usize);
        let (block, _) = rest.split_at(4096);
        into.bytes.copy_from_slice(block);
        true
    }

    /// Reads blocks at once, at most so many, from a file that stands before the block `at`; a last
    /// block that came in part isn't held. Answers the block before which the file then stands,
    /// where that is known.
    pub fn fill<F: Read>(&mut self, file: &mut F, at: u64, most: u64) -> Option<u64>
        ensures bytes { IfSome (F.remaining file.old) (λ left. HoldsOf at left self.new) }
        ensures held { IfSome result (λ next. HoldsUpTo at next self.new) }
        ensures stands { IfSome result (λ next. IfSome (F.remaining file.old) (λ left. F.remaining file.new ≡ Some (drop ((next - at) * 4096) left))) }
        ensures most { IfSome result (λ next. (at ≤ next) × (next ≤ at + most)) }
        ensures behind { (b : ℕ) → at + most ≤ b → block_in self.new b ≡ None }
        ensures room { room_of self.new ≡ room_of self.old }
    {
        self.held = 0;
        let room = self.bytes.len() / 4096;
        let wanted = most.min(room as u64) * 4096;
        let read = read_front(file, &mut self.bytes, wanted as usize)?;
        self.keep(at, read)
    }

    /// Reads blocks at once as `fill` does, from the file's block `at` on, wherever the file stands. Where
    /// that fails it holds none.
    pub fn fill_from<F: FileExt>(&mut self, file: &F, at: u64, most: u64)
        ensures from { self.new.first ≡ at }
        ensures within { (b : ℕ) → b < at → block_in self.new b ≡ None }
        ensures behind { (b : ℕ) → at + most ≤ b → block_in self.new b ≡ None }
        ensures room { room_of self.new ≡ room_of self.old }
    {
        self.first = at;
        self.held = 0;
        let room = self.bytes.len() / 4096;
        let wanted = most.min(room as u64) * 4096;
        if let Ok(read) = read_place(file, &mut self.bytes, wanted as usize, at) {
            let _ = self.keep(at, read);
        }
    }

    // Holds the blocks that stand whole in the bytes that were read, from the block `at` on.
    // Answers the one behind them, if no byte is behind them.
    fn keep(&mut self, at: u64, read: usize) -> Option<u64>
        requires { read ≤ vec_len self.old.bytes }
        ensures bytes { self.new.bytes ≡ self.old.bytes }
        ensures from { self.new.first ≡ at }
        ensures held { (b : ℕ) → block_in self.new b ≡ block_among at (read / 4096) self.old.bytes.items b }
        ensures next { IfSome result (λ next. (next ≡ at + read / 4096) × (read ≡ (next - at) * 4096)) }
    {
        self.first = at;
        self.held = (read / 4096) as u64;
        if read % 4096 != 0 {
            return None;
        }
        at.checked_add(self.held)
    }
}

// One read into the first bytes, at most so many. Answers how many came, or none where it failed.
fn read_front<F: Read>(file: &mut F, bytes: &mut [u8], most: usize) -> Option<usize>
    requires { most ≤ length bytes.old }
    ensures len { length bytes.new ≡ length bytes.old }
    ensures most { IfSome result (λ n. n ≤ most) }
    ensures taken { IfSome result (λ n. IfSome (F.remaining file.old) (λ left. F.remaining file.new ≡ Some (drop n left))) }
    ensures bytes { IfSome result (λ n. IfSome (F.remaining file.old) (λ left. take n bytes.new ≡ take n left)) }
{
    file.read(&mut bytes[..most]).ok()
}

// One read of a file from a block on into the first bytes, at most so many. Answers how many came.
fn read_place<F: FileExt>(file: &F, bytes: &mut [u8], most: usize, at: u64) -> io::Result<usize>
    requires { most ≤ length bytes.old }
    ensures len { length bytes.new ≡ length bytes.old }
    ensures most { IfOk result (λ n. n ≤ most) }
{
    let Some(place) = at.checked_mul(4096) else {
        return Err(ErrorKind::InvalidInput.into());
    };
    file.read_at(&mut bytes[..most], place)
}
