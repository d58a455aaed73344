// Records of an open edit's trees, put in, taken out or changed.
ghost use Rattle.std.specs.Prelude.{◌≡◌, ◌<◌, ◌≤◌, [], ◌∷◌, Some, OnOk, OnErr, IfOk, IfErr};
ghost use Rattle.blk_cache.specs.Cache.{AgreesTold};
ghost use Rattle.blk_device.specs.Causes.{HasCause};
ghost use Rattle.blk_device.specs.declared.device.Region.TheVariants.{Image};
ghost use Rattle.blk_device.specs.Reading.{OnlyRead};
ghost use Rattle.geom.specs.Places.{layout};
ghost use Rattle.sblock.specs.declared.kind.Kind.TheVariants.{Cnt};
ghost use Rattle.list_edit.specs.declared.edits.Edit.TheVariants.{Change as IsChange, Insert as IsInsert, Remove as IsRemove};
ghost use Rattle.meta_txn.specs.Joined.{AreBelow};
ghost use Rattle.tree_edit.specs.Device.{IsLeft};
ghost use Rattle.core_edit.specs.Edited.{EditsRow, FitRow, FitsMaybe, StepsMaybe, StepsRow, StopsMaybe, StopsRow};
ghost use Rattle.core_edit.specs.One.{Fits, Grows, IsKept, SameEdit, SameMark, StayJoined, StepsAs, Stops, StopsStep, TalliesAs, TellsLast, kind_of};
ghost use Rattle.core_edit.specs.Open.{AtMark, is_device};

use crate::heads::{last_count_of, tally, tree_of};
use crate::one::edit_one;
use crate::open::OpenEdit;
use crate::stop::Stop;
use crate::walk::records;
use blk_cache::BlkCache;
use blk_device::Device;
use byte_fields::Steps;
use fs_model::AnyRec;
use geom::Geometry;
use ino_recs::{FinoKind, InoKind};
use list_edit::Edit;
use rmap_recs::RmapKind;
use sblock::Kind;
use span_recs::{BnoKind, CntKind, RefcKind};
use std::alloc::Global;
use std::sync::ledger::Ledger;

// Edits one record of one tree; nothing is marked. After a refusal all is as it was, but where the
// device failed.
#[tactic(auto, unfolding(fs_state::specs::Kinds::form_of))]
fn tree_step<D: Device, L: Ledger>(
    alloc: Global,
    dev: &mut D,
    cache: &mut BlkCache,
    geo: &Geometry,
    edit: &mut OpenEdit,
    how: Edit,
    rec: AnyRec,
    steps: &mut Steps<L>,
) -> Result<(), Stop>
    requires group { edit.old.group < geo.now.agcount }
    requires room { geo.now.dblocks ≤ D.blocks dev.old Image }
    requires fits { Fits (layout geo.now) edit.old.group how rec }
    requires agreed { AgreesTold cache.old (D.content dev.old) }
    ensures edited { OnOk result (StepsAs (layout geo.now) how rec (D.content dev.old) edit.old edit.new) }
    ensures refused { IfErr result (Stops (layout geo.now) how rec (D.content dev.old) edit.old) }
    ensures kept { IfErr result (IsKept edit.old edit.new) }
    ensures mark { SameMark edit.old edit.new }
    ensures grows { Grows edit.old.freed edit.new.freed }
    ensures joined { OnOk result (StayJoined edit.old.txn.blocks edit.new.txn.blocks) }
    ensures below { AreBelow (D.blocks dev.old Image) edit.old.txn.blocks → OnOk result (AreBelow (D.blocks dev.old Image) edit.new.txn.blocks) }
    ensures left { IsLeft D.Device dev.old dev.new steps.old steps.new }
    ensures cause { HasCause is_device (D.faults dev.old) (D.faults dev.new) result }
    ensures agrees { AgreesTold cache.new (D.content dev.new) }
{
    let g = edit.group;
    match rec {
        AnyRec::Bno(r) => edit_one::<BnoKind, D, L>(
            alloc,
            dev,
            cache,
            geo,
            g,
            &mut edit.heads,
            &mut edit.txn,
            &mut edit.freed.ag,
            how,
            r,
            steps,
        ),
        AnyRec::Cnt(r) => edit_one::<CntKind, D, L>(
            alloc,
            dev,
            cache,
            geo,
            g,
            &mut edit.heads,
            &mut edit.txn,
            &mut edit.freed.ag,
            how,
            r,
            steps,
        ),
        AnyRec::Rmap(r) => edit_one::<RmapKind, D, L>(
            alloc,
            dev,
            cache,
            geo,
            g,
            &mut edit.heads,
            &mut edit.txn,
            &mut edit.freed.ag,
            how,
            r,
            steps,
        ),
        AnyRec::Refc(r) => edit_one::<RefcKind, D, L>(
            alloc,
            dev,
            cache,
            geo,
            g,
            &mut edit.heads,
            &mut edit.txn,
            &mut edit.freed.refc,
            how,
            r,
            steps,
        ),
        AnyRec::Ino(r) => edit_one::<InoKind, D, L>(
            alloc,
            dev,
            cache,
            geo,
            g,
            &mut edit.heads,
            &mut edit.txn,
            &mut edit.freed.inobt,
            how,
            r,
            steps,
        ),
        AnyRec::Fino(r) => edit_one::<FinoKind, D, L>(
            alloc,
            dev,
            cache,
            geo,
            g,
            &mut edit.heads,
            &mut edit.txn,
            &mut edit.freed.inobt,
            how,
            r,
            steps,
        ),
    }
}

// How many blocks the longest free run has, as the heads tell it after an edit of this record's tree:
// the last record by count, where it was that index. For now the index is walked whole.
#[tactic(auto, unfolding(fs_state::specs::Kinds::form_of))]
fn longest_after<D: Device, L: Ledger>(
    alloc: Global,
    dev: &mut D,
    cache: &mut BlkCache,
    geo: &Geometry,
    edit: &mut OpenEdit,
    rec: &AnyRec,
    steps: &mut Steps<L>,
) -> Result<u32, Stop>
    requires group { edit.old.group < geo.now.agcount }
    requires room { geo.now.dblocks ≤ D.blocks dev.old Image }
    requires agreed { AgreesTold cache.old (D.content dev.old) }
    ensures last { IfOk result (TellsLast (layout geo.now) (kind_of rec.now) (D.content dev.old) edit.old) }
    ensures which { OnErr result (kind_of rec.now ≡ Cnt) }
    ensures same { edit.new ≡ edit.old }
    ensures reading { OnlyRead D.Device dev.old dev.new steps.old steps.new }
    ensures cause { HasCause is_device (D.faults dev.old) (D.faults dev.new) result }
    ensures agrees { AgreesTold cache.new (D.content dev.new) }
{
    match rec {
        AnyRec::Cnt(_) => {
            let tree = tree_of(&edit.heads, edit.group, Kind::Cnt);
            let recs = records::<CntKind, D, L>(
                alloc,
                dev,
                cache,
                geo,
                &mut edit.txn,
                &tree,
                steps,
            )?;
            Ok(last_count_of(&recs))
        }
        AnyRec::Bno(_) | AnyRec::Rmap(_) | AnyRec::Refc(_) | AnyRec::Ino(_) | AnyRec::Fino(_) => Ok(
            edit.heads.agf.longest,
        ),
    }
}

// Edits one record of one tree, and counters of records follow; nothing is marked.
pub(crate) fn step<D: Device, L: Ledger>(
    alloc: Global,
    dev: &mut D,
    cache: &mut BlkCache,
    geo: &Geometry,
    edit: &mut OpenEdit,
    how: Edit,
    rec: AnyRec,
    steps: &mut Steps<L>,
) -> Result<(), Stop>
    requires group { edit.old.group < geo.now.agcount }
    requires room { geo.now.dblocks ≤ D.blocks dev.old Image }
    requires fits { Fits (layout geo.now) edit.old.group how rec }
    requires agreed { AgreesTold cache.old (D.content dev.old) }
    ensures edited { OnOk result (TalliesAs (layout geo.now) how rec (D.content dev.old) edit.old edit.new) }
    ensures refused { IfErr result (StopsStep (layout geo.now) how rec (D.content dev.old) edit.old) }
    ensures mark { SameMark edit.old edit.new }
    ensures grows { Grows edit.old.freed edit.new.freed }
    ensures joined { OnOk result (StayJoined edit.old.txn.blocks edit.new.txn.blocks) }
    ensures below { AreBelow (D.blocks dev.old Image) edit.old.txn.blocks → OnOk result (AreBelow (D.blocks dev.old Image) edit.new.txn.blocks) }
    ensures left { IsLeft D.Device dev.old dev.new steps.old steps.new }
    ensures cause { HasCause is_device (D.faults dev.old) (D.faults dev.new) result }
    ensures agrees { AgreesTold cache.new (D.content dev.new) }
{
    tree_step(alloc, dev, cache, geo, edit, how, rec, steps)?;
    let longest = longest_after(alloc, dev, cache, geo, edit, &rec, steps)?;
    tally(&mut edit.heads, how, &rec, longest);
    Ok(())
}

// Edits one record, where there is one.
fn maybe<D: Device, L: Ledger>(
    alloc: Global,
    dev: &mut D,
    cache: &mut BlkCache,
    geo: &Geometry,
    edit: &mut OpenEdit,
    one: Option<(Edit, AnyRec)>,
    steps: &mut Steps<L>,
) -> Result<(), Stop>
    requires group { edit.old.group < geo.now.agcount }
    requires room { geo.now.dblocks ≤ D.blocks dev.old Image }
    requires fits { FitsMaybe (layout geo.now) edit.old.group one }
    requires agreed { AgreesTold cache.old (D.content dev.old) }
    ensures edited { OnOk result (StepsMaybe (layout geo.now) (D.content dev.old) one edit.old edit.new) }
    ensures refused { IfErr result (StopsMaybe (layout geo.now) (D.content dev.old) one edit.old) }
    ensures mark { SameMark edit.old edit.new }
    ensures grows { Grows edit.old.freed edit.new.freed }
    ensures joined { OnOk result (StayJoined edit.old.txn.blocks edit.new.txn.blocks) }
    ensures below { AreBelow (D.blocks dev.old Image) edit.old.txn.blocks → OnOk result (AreBelow (D.blocks dev.old Image) edit.new.txn.blocks) }
    ensures left { IsLeft D.Device dev.old dev.new steps.old steps.new }
    ensures cause { HasCause is_device (D.faults dev.old) (D.faults dev.new) result }
    ensures agrees { AgreesTold cache.new (D.content dev.new) }
{
    match one {
        Some((how, rec)) => step(alloc, dev, cache, geo, edit, how, rec, steps),
        None => Ok(()),
    }
}

// Edits records one after the other, as long as none is refused; nothing is marked.
pub(crate) fn run_row<D: Device, L: Ledger>(
    alloc: Global,
    dev: &mut D,
    cache: &mut BlkCache,
    geo: &Geometry,
    edit: &mut OpenEdit,
    row: &[Option<(Edit, AnyRec)>],
    steps: &mut Steps<L>,
) -> Result<(), Stop>
    requires group { edit.old.group < geo.now.agcount }
    requires room { geo.now.dblocks ≤ D.blocks dev.old Image }
    requires fits { FitRow (layout geo.now) edit.old.group row.now }
    requires agreed { AgreesTold cache.old (D.content dev.old) }
    ensures edited { OnOk result (StepsRow (layout geo.now) (D.content dev.old) row.now edit.old edit.new) }
    ensures refused { IfErr result (StopsRow (layout geo.now) (D.content dev.old) row.now edit.old) }
    ensures mark { SameMark edit.old edit.new }
    ensures grows { Grows edit.old.freed edit.new.freed }
    ensures joined { OnOk result (StayJoined edit.old.txn.blocks edit.new.txn.blocks) }
    ensures below { AreBelow (D.blocks dev.old Image) edit.old.txn.blocks → OnOk result (AreBelow (D.blocks dev.old Image) edit.new.txn.blocks) }
    ensures left { IsLeft D.Device dev.old dev.new steps.old steps.new }
    ensures cause { HasCause is_device (D.faults dev.old) (D.faults dev.new) result }
    ensures agrees { AgreesTold cache.new (D.content dev.new) }
{
    let mut rest = row;
    while let Some((first, later)) = rest.split_first() {
        maybe(alloc, dev, cache, geo, edit, *first, steps)?;
        rest = later;
    }
    Ok(())
}

impl OpenEdit {
    /// Takes records out of trees, puts others in or in their places, one after the other, as one edit
    /// of an index: either all of it is done and marked, or one was refused, and all is as at the last
    /// mark, whatever the stop is.
    pub fn edit_records<D: Device, L: Ledger>(
        &mut self,
        alloc: Global,
        dev: &mut D,
        cache: &mut BlkCache,
        geo: &Geometry,
        row: &[Option<(Edit, AnyRec)>],
        steps: &mut Steps<L>,
    ) -> Result<(), Stop>
        requires marked { AtMark self.old }
        requires group { self.old.group < geo.now.agcount }
        requires room { geo.now.dblocks ≤ D.blocks dev.old Image }
        requires fits { FitRow (layout geo.now) self.old.group row.now }
        requires agreed { AgreesTold cache.old (D.content dev.old) }
        ensures edited { OnOk result (EditsRow (layout geo.now) (D.content dev.old) row.now self.old self.new) }
        ensures refused { IfErr result (StopsRow (layout geo.now) (D.content dev.old) row.now self.old) }
        ensures kept { OnErr result (SameEdit self.old self.new) }
        ensures marked { AtMark self.new }
        ensures group { self.new.group ≡ self.old.group }
        ensures joined { StayJoined self.old.txn.blocks self.new.txn.blocks }
        ensures below { AreBelow (D.blocks dev.old Image) self.old.txn.blocks → AreBelow (D.blocks dev.old Image) self.new.txn.blocks }
        ensures left { IsLeft D.Device dev.old dev.new steps.old steps.new }
        ensures cause { HasCause is_device (D.faults dev.old) (D.faults dev.new) result }
        ensures agrees { AgreesTold cache.new (D.content dev.new) }
    {
        match run_row(alloc, dev, cache, geo, self, row, steps) {
            Ok(()) => {
                self.mark();
                Ok(())
            }
            Err(stop) => {
                self.back();
                Err(stop)
            }
        }
    }

    /// Puts one record into its tree.
    pub fn put<D: Device, L: Ledger>(
        &mut self,
        alloc: Global,
        dev: &mut D,
        cache: &mut BlkCache,
        geo: &Geometry,
        rec: AnyRec,
        steps: &mut Steps<L>,
    ) -> Result<(), Stop>
        requires marked { AtMark self.old }
        requires group { self.old.group < geo.now.agcount }
        requires room { geo.now.dblocks ≤ D.blocks dev.old Image }
        requires fits { Fits (layout geo.now) self.old.group IsInsert rec }
        requires agreed { AgreesTold cache.old (D.content dev.old) }
        ensures edited { OnOk result (EditsRow (layout geo.now) (D.content dev.old) (Some (IsInsert, rec) ∷ []) self.old self.new) }
        ensures refused { IfErr result (StopsStep (layout geo.now) IsInsert rec (D.content dev.old) self.old) }
        ensures kept { OnErr result (SameEdit self.old self.new) }
        ensures marked { AtMark self.new }
        ensures group { self.new.group ≡ self.old.group }
        ensures joined { StayJoined self.old.txn.blocks self.new.txn.blocks }
        ensures below { AreBelow (D.blocks dev.old Image) self.old.txn.blocks → AreBelow (D.blocks dev.old Image) self.new.txn.blocks }
        ensures left { IsLeft D.Device dev.old dev.new steps.old steps.new }
        ensures cause { HasCause is_device (D.faults dev.old) (D.faults dev.new) result }
        ensures agrees { AgreesTold cache.new (D.content dev.new) }
    {
        self.edit_records(alloc, dev, cache, geo, &[Some((Edit::Insert, rec))], steps)
    }

    /// Takes one record out of its tree.
    pub fn cut<D: Device, L: Ledger>(
        &mut self,
        alloc: Global,
        dev: &mut D,
        cache: &mut BlkCache,
        geo: &Geometry,
        rec: AnyRec,
        steps: &mut Steps<L>,
    ) -> Result<(), Stop>
        requires marked { AtMark self.old }
        requires group { self.old.group < geo.now.agcount }
        requires room { geo.now.dblocks ≤ D.blocks dev.old Image }
        requires fits { Fits (layout geo.now) self.old.group IsRemove rec }
        requires agreed { AgreesTold cache.old (D.content dev.old) }
        ensures edited { OnOk result (EditsRow (layout geo.now) (D.content dev.old) (Some (IsRemove, rec) ∷ []) self.old self.new) }
        ensures refused { IfErr result (StopsStep (layout geo.now) IsRemove rec (D.content dev.old) self.old) }
        ensures kept { OnErr result (SameEdit self.old self.new) }
        ensures marked { AtMark self.new }
        ensures group { self.new.group ≡ self.old.group }
        ensures joined { StayJoined self.old.txn.blocks self.new.txn.blocks }
        ensures below { AreBelow (D.blocks dev.old Image) self.old.txn.blocks → AreBelow (D.blocks dev.old Image) self.new.txn.blocks }
        ensures left { IsLeft D.Device dev.old dev.new steps.old steps.new }
        ensures cause { HasCause is_device (D.faults dev.old) (D.faults dev.new) result }
        ensures agrees { AgreesTold cache.new (D.content dev.new) }
    {
        self.edit_records(alloc, dev, cache, geo, &[Some((Edit::Remove, rec))], steps)
    }

    /// Takes one record out of its tree and puts another in, as one edit: so a record is changed whose
    /// number a counter has, since only the record that goes tells by how much it differs.
    pub fn exchange<D: Device, L: Ledger>(
        &mut self,
        alloc: Global,
        dev: &mut D,
        cache: &mut BlkCache,
        geo: &Geometry,
        old: AnyRec,
        rec: AnyRec,
        steps: &mut Steps<L>,
    ) -> Result<(), Stop>
        requires marked { AtMark self.old }
        requires group { self.old.group < geo.now.agcount }
        requires room { geo.now.dblocks ≤ D.blocks dev.old Image }
        requires gone { Fits (layout geo.now) self.old.group IsRemove old }
        requires fits { Fits (layout geo.now) self.old.group IsInsert rec }
        requires agreed { AgreesTold cache.old (D.content dev.old) }
        ensures edited { OnOk result (EditsRow (layout geo.now) (D.content dev.old) (Some (IsRemove, old) ∷ Some (IsInsert, rec) ∷ []) self.old self.new) }
        ensures refused { IfErr result (StopsRow (layout geo.now) (D.content dev.old) (Some (IsRemove, old) ∷ Some (IsInsert, rec) ∷ []) self.old) }
        ensures kept { OnErr result (SameEdit self.old self.new) }
        ensures marked { AtMark self.new }
        ensures group { self.new.group ≡ self.old.group }
        ensures joined { StayJoined self.old.txn.blocks self.new.txn.blocks }
        ensures below { AreBelow (D.blocks dev.old Image) self.old.txn.blocks → AreBelow (D.blocks dev.old Image) self.new.txn.blocks }
        ensures left { IsLeft D.Device dev.old dev.new steps.old steps.new }
        ensures cause { HasCause is_device (D.faults dev.old) (D.faults dev.new) result }
        ensures agrees { AgreesTold cache.new (D.content dev.new) }
    {
        self.edit_records(
            alloc,
            dev,
            cache,
            geo,
            &[Some((Edit::Remove, old)), Some((Edit::Insert, rec))],
            steps,
        )
    }

    /// Puts one record in the place of that with its key.
    pub fn swap<D: Device, L: Ledger>(
        &mut self,
        alloc: Global,
        dev: &mut D,
        cache: &mut BlkCache,
        geo: &Geometry,
        rec: AnyRec,
        steps: &mut Steps<L>,
    ) -> Result<(), Stop>
        requires marked { AtMark self.old }
        requires group { self.old.group < geo.now.agcount }
        requires room { geo.now.dblocks ≤ D.blocks dev.old Image }
        requires fits { Fits (layout geo.now) self.old.group IsChange rec }
        requires agreed { AgreesTold cache.old (D.content dev.old) }
        ensures edited { OnOk result (EditsRow (layout geo.now) (D.content dev.old) (Some (IsChange, rec) ∷ []) self.old self.new) }
        ensures refused { IfErr result (StopsStep (layout geo.now) IsChange rec (D.content dev.old) self.old) }
        ensures kept { OnErr result (SameEdit self.old self.new) }
        ensures marked { AtMark self.new }
        ensures group { self.new.group ≡ self.old.group }
        ensures joined { StayJoined self.old.txn.blocks self.new.txn.blocks }
        ensures below { AreBelow (D.blocks dev.old Image) self.old.txn.blocks → AreBelow (D.blocks dev.old Image) self.new.txn.blocks }
        ensures left { IsLeft D.Device dev.old dev.new steps.old steps.new }
        ensures cause { HasCause is_device (D.faults dev.old) (D.faults dev.new) result }
        ensures agrees { AgreesTold cache.new (D.content dev.new) }
    {
        self.edit_records(alloc, dev, cache, geo, &[Some((Edit::Change, rec))], steps)
    }
}
