// Sources of bytes in memory and in a file.
ghost use Rattle.std.specs.Prelude.{◌≡◌, ◌<◌, ◌≤◌, ◌↔◌, Some, IsErr, OnErr, IfOk, length, take, drop};
ghost use Rattle.blk_device.specs.Causes.{HasCause, any_error};

use crate::source::{Source, SourceFailed};
use std::io::Read;

/// A source in memory, which gives its bytes from the front. Its calls of `take` are numbered from
/// 0, and those of chosen numbers fail and give nothing.
#[derive(Drop)]
pub struct MemSource {
    bytes: Vec<u8>,
    at: usize,
    failing: Vec<u64>,
    asked: u64,
    faults: u64,
    ghost inside: { at ≤ length bytes.items },
}

impl MemSource {
    ghost use Rattle.blk_device.specs.Sources.{calls_taken, failing_takes, FailsToGive, TakenOnce};

    /// A source of these bytes, of which the calls of these numbers will fail.
    pub fn new(bytes: Vec<u8>, failing: Vec<u64>) -> Self
        ensures left { ⟦<MemSource as Source>⟧.bytes_left result ≡ Some bytes.items }
        ensures faults { ⟦<MemSource as Source>⟧.source_faults result ≡ 0 }
        ensures asked { calls_taken result ≡ 0 }
        ensures failing { failing_takes result ≡ failing.items }
    {
        MemSource {
            bytes,
            at: 0,
            failing,
            asked: 0,
            faults: 0,
        }
    }

    // Counts a call, and fails it if its number is one of those that fail.
    fn ask(&mut self) -> Result<(), SourceFailed>
        ensures bytes { (self.new.bytes ≡ self.old.bytes) × (self.new.at ≡ self.old.at) }
        ensures asked { TakenOnce self.old self.new }
        ensures cause { HasCause any_error self.old.faults self.new.faults result }
        ensures fails { IsErr result ↔ FailsToGive self.old }
    {
        let call = self.asked;
        self.asked = self.asked.saturating_add(1);
        if self.failing.contains(&call) {
            self.faults = self.faults.saturating_add(1);
            return Err(SourceFailed);
        }
        Ok(())
    }
}

// Copies as many bytes as both have room for, and answers how many.
fn copy_some(from: &[u8], into: &mut [u8]) -> usize
    ensures bound { result ≤ length into.new }
    ensures most { result ≤ length from.now }
    ensures bytes { take result into.new ≡ take result from.now }
    ensures none { result ≡ 0 → 0 < length into.new → length from.now ≡ 0 }
{
    let n = from.len().min(into.len());
    into[..n].copy_from_slice(&from[..n]);
    n
}

impl Source for MemSource {
    ghost use Rattle.blk_device.specs.Sources.{left_in, FailsToGive, TakenOnce};
    ghost use Rattle.blk_device.specs.Taken.{Gives, IsSpent};

    ghost bytes_left = { left_in };

    ghost source_faults = { λ s. s.faults };

    fn fault_count(&self) -> u64 {
        self.faults
    }

    /// Fails exactly where this call's number is one of those that fail.
    fn take(&mut self, into: &mut [u8]) -> Result<usize, SourceFailed>
        ensures bound { IfOk result (λ n. n ≤ length into.new) }
        ensures bytes { IfOk result (λ n. Gives (take n into.new) (left_in self.old) (left_in self.new)) }
        ensures end { IfOk result (λ n. n ≡ 0 → 0 < length into.new → IsSpent (left_in self.old)) }
        ensures none { OnErr result (left_in self.new ≡ left_in self.old) }
        ensures cause { HasCause any_error self.old.faults self.new.faults result }
        ensures fails { IsErr result ↔ FailsToGive self.old }
        ensures asked { TakenOnce self.old self.new }
    {
        self.ask()?;
        let n = copy_some(&self.bytes[self.at..], into);
        self.at += n;
        Ok(n)
    }
}

/// A source over an open file. It tells nothing of what is left: what the system does with a file
/// is no part of a proof.
#[derive(Drop)]
pub struct FileSource<F: Read + Drop> {
    file: F,
    faults: u64,
}

impl<F: Read + Drop> FileSource<F> {
    /// A source of what the file still has.
    pub fn new(file: F) -> Self
        ensures { ⟦<FileSource<F> as Source>⟧.source_faults result ≡ 0 }
    {
        FileSource { file, faults: 0 }
    }
}

impl<F: Read + Drop> Source for FileSource<F> {
    ghost use Rattle.std.specs.Prelude.{None};

    ghost bytes_left = { λ s. None };

    ghost source_faults = { λ s. s.faults };

    fn fault_count(&self) -> u64 {
        self.faults
    }

    fn take(&mut self, into: &mut [u8]) -> Result<usize, SourceFailed> {
        match self.file.read(into) {
            Ok(n) => Ok(n),
            Err(_) => {
                self.faults = self.faults.saturating_add(1);
                Err(SourceFailed)
            }
        }
    }
}
