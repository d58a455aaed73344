ghost use Rattle.std.specs.Prelude.{◌≡◌, option_map};
ghost use Rattle.std.specs.List.{slice_get};
ghost use Rattle.defer_chain.specs.Steps.{step_of};
ghost use Rattle.fsck_core.specs.Glances.{asker_by, asker_in, chain_asked as chain_asked_of, chain_behind as chain_behind_of, chain_named, chain_told as chain_told_of, first_owed as first_owed_of, glance_by, glance_of, list_in_place, list_of_group};
ghost use Rattle.intent_drain.specs.Drains.{chains_of};

use crate::asks::{group_of, phase_behind};
use blk_device::Device;
use core_calls::{Answer, Ask, Glance};
use core_notes::Asker;
use core_parts::{GroupKept, Parts};
use defer_chain::{Chain, ChainInode, StepKind, step_kind};
use fs_state::Intent;
use intent_drain::Drain;

// The chain that an event is asked for.
fn chain_asked(ask: Ask) -> Option<u32>
    ensures { result ≡ chain_asked_of ask }
{
    match ask {
        Ask::MapFirst { chain, .. } => Some(chain),
        Ask::UnmapFirst { chain, .. } => Some(chain),
        Ask::StripFirst { chain } => Some(chain),
        Ask::ShareFirst { chain, .. } => Some(chain),
        Ask::ConvertFirst { chain, .. } => Some(chain),
        Ask::RmapStep { chain } => Some(chain),
        Ask::RefStep { chain } => Some(chain),
        Ask::FreeStep { chain } => Some(chain),
        Ask::GiveInode { chain } => Some(chain),
        Ask::End { chain } => Some(chain),
        _ => None,
    }
}

// The chain that an event has opened.
fn chain_told(answer: Answer) -> Option<u32>
    ensures { result ≡ chain_told_of answer }
{
    match answer {
        Answer::Chain(chain) => Some(chain),
        Answer::Taken(_, chain) => Some(chain),
        _ => None,
    }
}

fn chain_behind(ask: Ask, answer: Answer) -> Option<u32>
    ensures { result ≡ chain_behind_of ask answer }
{
    chain_asked(ask).or(chain_told(answer))
}

fn find_chain(drain: &Drain, number: Option<u32>) -> Option<Chain>
    ensures { result ≡ chain_named (chains_of drain.now) number }
{
    match number {
        Some(number) => drain.chain(number),
        None => None,
    }
}

// The first of what a chain owes.
fn first_owed(chain: Option<Chain>) -> Option<Intent>
    ensures { result ≡ first_owed_of chain }
{
    match chain {
        Some(chain) => chain.next(),
        None => None,
    }
}

fn next_step(next: Option<Intent>) -> Option<StepKind>
    ensures { result ≡ option_map (λ i. step_of i.kind) next }
{
    match next {
        Some(intent) => Some(step_kind(intent.kind)),
        None => None,
    }
}

fn next_group(next: Option<Intent>) -> Option<u32>
    ensures { result ≡ option_map (λ i. i.group) next }
{
    match next {
        Some(intent) => Some(intent.group),
        None => None,
    }
}

fn list_at(groups: &[GroupKept], group: u32) -> u32
    ensures { result ≡ list_in_place (slice_get groups.now group) }
{
    match groups.get(group as usize) {
        Some(kept) => kept.heads.list.len(),
        None => 0,
    }
}

fn list_behind(groups: &[GroupKept], group: Option<u32>) -> u32
    ensures { result ≡ list_of_group groups.now group }
{
    match group {
        Some(group) => list_at(groups, group),
        None => 0,
    }
}

/// How many blocks the free list of a group has; 0 where there is no such group
/// (XFS Algorithms and Data Structures, "AG Free List").
pub fn list_len<D: Device>(parts: &Parts<D>, group: u32) -> u32
    ensures { result ≡ list_in_place (slice_get parts.now.groups.items group) }
{
    list_at(parts.groups.as_slice(), group)
}

// What is told by a chain's first intent and the event's own group.
fn glance_at<D: Device>(parts: &Parts<D>, next: Option<Intent>, group: Option<u32>) -> Glance
    ensures { result ≡ glance_by parts.now next group }
{
    let behind = next_group(next);
    Glance {
        next: next_step(next),
        group: behind,
        list: list_behind(parts.groups.as_slice(), behind.or(group)),
        phase: phase_behind(parts.units.as_slice(), group),
    }
}

/// What is told behind an event with this answer: the chain's next step, the length of a free list, and how
/// far a unit is (XFS Online Fsck Design, "Eventual Consistency").
pub fn glance<D: Device>(parts: &Parts<D>, ask: Ask, answer: Answer) -> Glance
    ensures { result ≡ glance_of parts.now ask answer }
{
    let chain = find_chain(&parts.desk.drain, chain_behind(ask, answer));
    glance_at(parts, first_owed(chain), group_of(ask))
}

fn number_of(inode: Option<ChainInode>) -> Option<u64>
    ensures { result ≡ option_map (λ i. i.ino) inode }
{
    match inode {
        Some(inode) => Some(inode.ino),
        None => None,
    }
}

// The writer of a chain, with the chain's inodes.
fn chain_asker(chain: Option<Chain>) -> Asker
    ensures { result ≡ asker_by chain }
{
    match chain {
        Some(chain) => Asker {
            writer: chain.writer(),
            first: chain.first().ino,
            second: number_of(chain.second()),
        },
        None => Asker {
            writer: 0,
            first: 0,
            second: None,
        },
    }
}

/// The writer that asks for an event, with the inodes that it asks for, or those of its chain.
pub(crate) fn asker_of(drain: &Drain, ask: Ask) -> Asker
    ensures { result ≡ asker_in (chains_of drain.now) ask }
{
    match ask {
        Ask::Begin {
            writer,
            first,
            second,
        } => Asker {
            writer,
            first,
            second,
        },
        Ask::TakeInode { writer, uid: _ } => Asker {
            writer,
            first: 0,
            second: None,
        },
        _ => chain_asker(find_chain(drain, chain_asked(ask))),
    }
}
