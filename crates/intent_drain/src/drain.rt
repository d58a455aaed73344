ghost use Rattle.std.specs.Prelude.{◌≡◌, length};

use crate::chains::{MOST_CHAINS, count_of};
use crate::gates::Gate;
use crate::holds::{Hold, Holder, MOST_HOLDS, holder_of, leave_hold, put_hold};
use defer_chain::Chain;
use std::alloc::{AllocError, Global};
use thiserror::Error;

/// There was no memory for the drain.
#[derive(Clone, Copy, Debug, PartialEq, Eq, Error)]
#[error("memory")]
pub struct Memory;

impl From<AllocError> for Memory {
    ghost from_gives = { λ _ e. e ≡ record {} };

    fn from(_: AllocError) -> Self {
        Memory
    }
}

/// The open chains by their numbers, the gates of all groups, and the inodes that are held, each by
/// one holder (XFS Online Fsck Design, "Intent Drains").
#[derive(Drop)]
pub struct Drain {
    gates: Vec<Gate>,
    holds: Vec<Hold>,
    chains: Vec<Option<Chain>>,
    ghost places: { length chains.items ≡ 16 },
}

impl Drain {
    ghost use Rattle.std.specs.Prelude.{◌≡◌, ◌≢◌, ◌<◌, ◌≤◌, ◌==◌, ◌↔◌, ◌++◌, [], ◌∷◌, ℕ, true, false, IfOk, IfErr, IsOk, IsNone, IfSome, IfNone, Some, None, length, replicate, slice_set, position, is_none, if◌then◌else◌, MatchResult};
    ghost use Rattle.std.specs.List.{slice_get};
    ghost use Rattle.std.specs.Vec.{vec_capacity, vec_len};
    ghost use Rattle.intent_drain.specs.Chains.{count_in, chain_at};
    ghost use Rattle.intent_drain.specs.Drains.{gates_of, holds_of, chains_of, SameGates, SameHolds, SameChains};
    ghost use Rattle.intent_drain.specs.Holds.{holder_in, without};
    ghost use Rattle.intent_drain.specs.declared.gates.Gate.TheVariants.{Open, Closing, Closed};

    /// No chain, no hold, and open gates of so many groups.
    pub fn new(alloc: Global, groups: u32) -> Result<Drain, Memory>
        ensures gates { IfOk result (λ d. gates_of d ≡ replicate groups Open) }
        ensures holds { IfOk result (λ d. holds_of d ≡ []) }
        ensures chains { IfOk result (λ d. chains_of d ≡ replicate 16 None) }
        ensures room { IfOk result (λ d. MOST_HOLDS ≤ vec_capacity d.holds) }
    {
        let gates = vec![in alloc; Gate::Open; groups as usize]?;
        let holds = Vec::with_capacity(alloc, MOST_HOLDS)?;
        let chains = vec![in alloc; None; MOST_CHAINS]?;
        Ok(Drain {
            gates,
            holds,
            chains,
        })
    }

    /// The gate of a group.
    pub fn gate(&self, group: u32) -> Gate
        requires { group < length (gates_of self.now) }
        ensures { slice_get (gates_of self.now) group ≡ Some result }
    {
        self.gates[group as usize]
    }

    /// Opens the gate of a group.
    pub fn open(&mut self, group: u32)
        requires { group < length (gates_of self.old) }
        ensures gates { gates_of self.new ≡ slice_set (gates_of self.old) group Open }
        ensures holds { SameHolds self.old self.new }
        ensures chains { SameChains self.old self.new }
    {
        self.gates[group as usize] = Gate::Open;
    }

    /// Closes the gate of a group: at once where no chain has an unfinished intent of it, and else
    /// it is closing, with their number.
    pub fn close(&mut self, group: u32) -> Result<(), u32>
        requires { group < length (gates_of self.old) }
        ensures quiet { IsOk result ↔ (count_in group (chains_of self.old) ≡ 0) }
        ensures number { IfErr result (λ n. n ≡ count_in group (chains_of self.old)) }
        ensures gates { gates_of self.new ≡ slice_set (gates_of self.old) group (if count_in group (chains_of self.old) == 0 then Closed else Closing) }
        ensures holds { SameHolds self.old self.new }
        ensures chains { SameChains self.old self.new }
    {
        let count = self.count(group);
        if count > 0 {
            self.gates[group as usize] = Gate::Closing;
            return Err(count);
        }
        self.gates[group as usize] = Gate::Closed;
        Ok(())
    }

    /// How many unfinished intents of a group all open chains have
    /// (XFS Online Fsck Design, "Intent Drains").
    pub fn count(&self, group: u32) -> u32
        ensures { result ≡ count_in group (chains_of self.now) }
    {
        count_of(&self.chains, group)
    }

    /// Who holds the inode.
    pub fn holder(&self, ino: u64) -> Option<Holder>
        ensures { result ≡ holder_in (holds_of self.now) ino }
    {
        holder_of(&self.holds, ino)
    }

    /// Notes that this holder has the inode, which nobody holds.
    pub fn hold(&mut self, ino: u64, holder: Holder)
        requires free { holder_in (holds_of self.old) ino ≡ None }
        requires room { length (holds_of self.old) < vec_capacity self.old.holds }
        ensures held { holds_of self.new ≡ holds_of self.old ++ record { ino = ino; holder = holder } ∷ [] }
        ensures exact { (i : ℕ) → holder_in (holds_of self.new) i ≡ (if i == ino then Some holder else holder_in (holds_of self.old) i) }
        ensures room { vec_capacity self.new.holds ≡ vec_capacity self.old.holds }
        ensures gates { SameGates self.old self.new }
        ensures chains { SameChains self.old self.new }
    {
        put_hold(&mut self.holds, Hold { ino, holder });
    }

    /// Lets go of an inode.
    pub fn let_go(&mut self, ino: u64)
        ensures left { holds_of self.new ≡ without (holds_of self.old) ino }
        ensures exact { (i : ℕ) → holder_in (holds_of self.new) i ≡ (if i == ino then None else holder_in (holds_of self.old) i) }
        ensures room { vec_capacity self.new.holds ≡ vec_capacity self.old.holds }
        ensures gates { SameGates self.old self.new }
        ensures chains { SameChains self.old self.new }
    {
        leave_hold(&mut self.holds, ino);
    }

    /// The chain of this number; none where no such chain is open.
    pub fn chain(&self, number: u32) -> Option<Chain>
        ensures { result ≡ chain_at (chains_of self.now) number }
    {
        if number as usize >= MOST_CHAINS {
            return None;
        }
        self.chains[number as usize]
    }

    /// The lowest number that no open chain has; none exactly where 16 chains are open.
    pub fn free_number(&self) -> Option<u32>
        ensures free { IfSome result (λ n. (n < 16) × (is_none (chain_at (chains_of self.now) n) ≡ true)) }
        ensures lowest { IfSome result (λ n. (k : ℕ) → k < n → is_none (chain_at (chains_of self.now) k) ≡ false) }
        ensures none { (k : ℕ) → k < 16 → IfNone result (is_none (chain_at (chains_of self.now) k) ≡ false) }
    {
        for number in 0..MOST_CHAINS as u32 {
            if self.chain(number).is_none() {
                return Some(number);
            }
        }
        None
    }

    /// Puts a chain under its number, in place of what it was; none ends it.
    pub fn set_chain(&mut self, number: u32, chain: Option<Chain>)
        requires { number < 16 }
        ensures chains { chains_of self.new ≡ slice_set (chains_of self.old) number chain }
        ensures gates { SameGates self.old self.new }
        ensures holds { SameHolds self.old self.new }
    {
        self.chains[number as usize] = chain;
    }
}
