// Reads of a group's btrees, as the kept heads name them.
ghost use Rattle.std.specs.Prelude.{◌≡◌, ◌<◌, ◌≤◌, ◌+◌, IfOk, IfSome, OnOk};
ghost use Rattle.std.specs.Vec.{vec_capacity, vec_len};
ghost use Rattle.core_parts.specs.Common.Asks.{IsUsable};
ghost use Rattle.core_parts.specs.Keeps.{IsAsked, failed_by};
ghost use Rattle.core_chains.specs.Refill.Halts.{Halts};
ghost use Rattle.sblock.specs.declared.kind.Kind.TheVariants.{Rmap};
ghost use Rattle.tree_blocks.specs.Reading.{is_failed};

use crate::refill::halts::{Halt, halt_at};
use blk_device::Device;
use byte_fields::Steps;
use core_parts::Desk;
use rmap_recs::{RmapKind, RmapRec};
use run_sets::Run;
use sblock::RecKind;
use span_recs::SpanRec;
use std::alloc::Global;
use std::sync::ledger::Ledger;
use tree_blocks::{TreeAt, WalkFault};
use tree_walk::{covering, find, last, next_leaf};

// The records above a key, in the first leaf that has some.
#[tactic(auto, using(crate::proofs::refill::HaltLemmas::read_asked))]
fn ask_next<K: RecKind, D: Device, L: Ledger>(
    alloc: Global,
    desk: &mut Desk<D>,
    tree: &TreeAt,
    after: Option<K::Key>,
    steps: &mut Steps<L>,
) -> Result<Vec<K::Rec>, WalkFault>
    requires usable { IsUsable D.Device desk.old }
    requires kind { tree.now.kind ≡ K.form.kind }
    requires group { tree.now.group < desk.old.store.geo.agcount }
    ensures asked { IsAsked D.Device (failed_by is_failed result) desk.old desk.new }
    ensures book { desk.new.book ≡ desk.old.book }
{
    let store = &mut desk.store;
    next_leaf::<K, D, L>(
        alloc,
        &mut store.dev,
        &mut store.cache,
        &store.geo,
        tree,
        after,
        steps,
    )
}

// The last record.
#[tactic(auto, using(crate::proofs::refill::HaltLemmas::read_asked))]
fn ask_last<K: RecKind, D: Device, L: Ledger>(
    desk: &mut Desk<D>,
    tree: &TreeAt,
    steps: &mut Steps<L>,
) -> Result<Option<K::Rec>, WalkFault>
    requires usable { IsUsable D.Device desk.old }
    requires kind { tree.now.kind ≡ K.form.kind }
    requires group { tree.now.group < desk.old.store.geo.agcount }
    ensures asked { IsAsked D.Device (failed_by is_failed result) desk.old desk.new }
    ensures book { desk.new.book ≡ desk.old.book }
{
    let store = &mut desk.store;
    last::<K, D, L>(&mut store.dev, &mut store.cache, &store.geo, tree, steps)
}

// The record with a key.
#[tactic(auto, using(crate::proofs::refill::HaltLemmas::read_asked))]
fn ask_one<K: RecKind, D: Device, L: Ledger>(
    desk: &mut Desk<D>,
    tree: &TreeAt,
    key: K::Key,
    steps: &mut Steps<L>,
) -> Result<Option<K::Rec>, WalkFault>
    requires usable { IsUsable D.Device desk.old }
    requires kind { tree.now.kind ≡ K.form.kind }
    requires group { tree.now.group < desk.old.store.geo.agcount }
    ensures asked { IsAsked D.Device (failed_by is_failed result) desk.old desk.new }
    ensures book { desk.new.book ≡ desk.old.book }
{
    let store = &mut desk.store;
    find::<K, D, L>(
        &mut store.dev,
        &mut store.cache,
        &store.geo,
        tree,
        key,
        steps,
    )
}

// The first reverse mapping that has a block of a run.
#[tactic(auto, using(crate::proofs::refill::HaltLemmas::read_asked))]
fn ask_owner<D: Device, L: Ledger>(
    desk: &mut Desk<D>,
    tree: &TreeAt,
    run: &SpanRec,
    steps: &mut Steps<L>,
) -> Result<Option<RmapRec>, WalkFault>
    requires usable { IsUsable D.Device desk.old }
    requires kind { tree.now.kind ≡ Rmap }
    requires group { tree.now.group < desk.old.store.geo.agcount }
    ensures asked { IsAsked D.Device (failed_by is_failed result) desk.old desk.new }
    ensures book { desk.new.book ≡ desk.old.book }
{
    let asked = Run {
        start: run.start,
        count: run.count,
    };
    let store = &mut desk.store;
    covering::<RmapKind, D, L>(
        &mut store.dev,
        &mut store.cache,
        &store.geo,
        tree,
        asked,
        None,
        steps,
    )
}

/// The records of a btree above a key, of the first leaf that has some; it is empty exactly where there
/// are none (XFS Algorithms and Data Structures, "Short Format B+trees").
#[tactic(auto, using(crate::proofs::refill::HaltLemmas::asked_halts, crate::proofs::refill::HaltLemmas::halted_halts))]
pub fn next_records<K: RecKind, D: Device, L: Ledger>(
    alloc: Global,
    desk: &mut Desk<D>,
    tree: &TreeAt,
    after: Option<K::Key>,
    steps: &mut Steps<L>,
) -> Result<Vec<K::Rec>, Halt>
    requires usable { IsUsable D.Device desk.old }
    requires room { vec_len desk.old.book.journal + 2 ≤ vec_capacity desk.old.book.journal }
    requires kind { tree.now.kind ≡ K.form.kind }
    requires group { tree.now.group < desk.old.store.geo.agcount }
    ensures halts { Halts D.Device desk.old desk.new result }
    ensures book { OnOk result (desk.new.book ≡ desk.old.book) }
    ensures items { desk.new.book.journal.items ≡ desk.old.book.journal.items }
{
    match ask_next::<K, D, L>(alloc, desk, tree, after, steps) {
        Ok(recs) => Ok(recs),
        Err(fault) => Err(halt_at(desk, tree.group, tree.kind, fault)),
    }
}

/// The last record of a btree; none exactly where it has none
/// (XFS Algorithms and Data Structures, "Short Format B+trees").
#[tactic(auto, using(crate::proofs::refill::HaltLemmas::asked_halts, crate::proofs::refill::HaltLemmas::halted_halts))]
pub fn last_record<K: RecKind, D: Device, L: Ledger>(
    desk: &mut Desk<D>,
    tree: &TreeAt,
    steps: &mut Steps<L>,
) -> Result<Option<K::Rec>, Halt>
    requires usable { IsUsable D.Device desk.old }
    requires room { vec_len desk.old.book.journal + 2 ≤ vec_capacity desk.old.book.journal }
    requires kind { tree.now.kind ≡ K.form.kind }
    requires group { tree.now.group < desk.old.store.geo.agcount }
    ensures halts { Halts D.Device desk.old desk.new result }
    ensures book { OnOk result (desk.new.book ≡ desk.old.book) }
    ensures items { desk.new.book.journal.items ≡ desk.old.book.journal.items }
{
    match ask_last::<K, D, L>(desk, tree, steps) {
        Ok(found) => Ok(found),
        Err(fault) => Err(halt_at(desk, tree.group, tree.kind, fault)),
    }
}

/// The record of a btree with an equal key; none exactly where there is none
/// (XFS Algorithms and Data Structures, "Short Format B+trees").
#[tactic(auto, using(crate::proofs::refill::HaltLemmas::asked_halts, crate::proofs::refill::HaltLemmas::halted_halts))]
pub fn found_record<K: RecKind, D: Device, L: Ledger>(
    desk: &mut Desk<D>,
    tree: &TreeAt,
    key: K::Key,
    steps: &mut Steps<L>,
) -> Result<Option<K::Rec>, Halt>
    requires usable { IsUsable D.Device desk.old }
    requires room { vec_len desk.old.book.journal + 2 ≤ vec_capacity desk.old.book.journal }
    requires kind { tree.now.kind ≡ K.form.kind }
    requires group { tree.now.group < desk.old.store.geo.agcount }
    ensures halts { Halts D.Device desk.old desk.new result }
    ensures book { OnOk result (desk.new.book ≡ desk.old.book) }
    ensures items { desk.new.book.journal.items ≡ desk.old.book.journal.items }
{
    match ask_one::<K, D, L>(desk, tree, key, steps) {
        Ok(found) => Ok(found),
        Err(fault) => Err(halt_at(desk, tree.group, tree.kind, fault)),
    }
}

/// The first reverse mapping that has a block of a run, by this btree of them; none where there is none
/// (XFS Algorithms and Data Structures, "Reverse-Mapping B+tree").
#[tactic(auto, using(crate::proofs::refill::HaltLemmas::asked_halts, crate::proofs::refill::HaltLemmas::halted_halts))]
pub fn owner_record<D: Device, L: Ledger>(
    desk: &mut Desk<D>,
    tree: &TreeAt,
    run: &SpanRec,
    steps: &mut Steps<L>,
) -> Result<Option<RmapRec>, Halt>
    requires usable { IsUsable D.Device desk.old }
    requires room { vec_len desk.old.book.journal + 2 ≤ vec_capacity desk.old.book.journal }
    requires kind { tree.now.kind ≡ Rmap }
    requires group { tree.now.group < desk.old.store.geo.agcount }
    ensures halts { Halts D.Device desk.old desk.new result }
    ensures book { OnOk result (desk.new.book ≡ desk.old.book) }
    ensures items { desk.new.book.journal.items ≡ desk.old.book.journal.items }
{
    match ask_owner(desk, tree, run, steps) {
        Ok(found) => Ok(found),
        Err(fault) => Err(halt_at(desk, tree.group, tree.kind, fault)),
    }
}
