ghost use Rattle.std.specs.Prelude.{◌≡◌, ◌≤◌, [], Some, IfSome};
ghost use Rattle.blk_device.specs.Causes.{HasCause};
ghost use Rattle.blk_device.specs.Contents.{Contents};
ghost use Rattle.blk_device.specs.Reading.{OnlyRead};
ghost use Rattle.blk_device.specs.declared.device.Region.TheVariants.{Image};
ghost use Rattle.geom.specs.Places.{layout};
ghost use Rattle.image_check.specs.Image.{MeetsEnd, ReadsForEvents, image_checked, image_events, journal_in};
ghost use Rattle.image_check.specs.Kept.{KeepsImage};
ghost use Rattle.image_check.specs.Units.{EndsInSession, IsSession};
ghost use Rattle.space_check.specs.Checked.{CheckCause, MeetsCheck};
ghost use Rattle.space_check.specs.Progress.{is_failed};

use crate::image::check_units;
use blk_device::Device;
use byte_fields::Steps;
use check_phases::{Tally, read_all_heads};
use check_watch::Watch;
use fs_model::Entry;
use geom::Geometry;
use space_check::{CheckStop, Halt};
use std::alloc::Global;
use std::sync::ledger::Ledger;

// The check, with the tally that it fills.
fn check_into<D: Device, L: Ledger, W: Watch>(
    alloc: Global,
    dev: &mut D,
    geo: &Geometry,
    tally: &mut Tally,
    steps: &mut Steps<L>,
    watch: &mut W,
) -> Result<(), Halt>
    requires room { geo.now.dblocks ≤ D.blocks dev.old Image }
    requires empty { tally.old.journal.entries.items ≡ [] }
    requires begun { tally.old.passed.items ≡ [] }
    requires fresh { tally.old.inodes.items ≡ [] }
    ensures exact { (c : Contents) → D.content dev.old ≡ Some c → MeetsEnd (image_checked (layout geo.now) (c Image)) tally.new.journal.entries.items result }
    ensures session { EndsInSession geo.now.agcount tally.new.journal.entries.items result }
    ensures kept { KeepsImage (layout geo.now) (D.content dev.old) steps.old.reads steps.new.reads tally.new.journal.entries.items }
    ensures reading { OnlyRead D.Device dev.old dev.new steps.old steps.new }
    ensures cause { HasCause is_failed (D.faults dev.old) (D.faults dev.new) result }
{
    // Before any unit: a head that is refused says that the image isn't what it seems.
    let heads = read_all_heads(alloc, dev, geo, steps)?;
    check_units(alloc, dev, geo, heads.as_slice(), tally, steps, watch)
}

/// Checks all units of all groups of an image: first the heads of all groups are read, and the first
/// that is refused ends the check; then the units are judged or skipped in the order of a session. A
/// journal that is full, a device that fails and want of memory end it, and the journal so far is handed
/// back. Nothing is written (XFS Online Fsck Design, "Metadata Scrubbing").
pub fn check_image<D: Device, L: Ledger, W: Watch>(
    alloc: Global,
    dev: &mut D,
    geo: &Geometry,
    steps: &mut Steps<L>,
    watch: &mut W,
) -> Result<Vec<Entry>, CheckStop>
    requires room { geo.now.dblocks ≤ D.blocks dev.old Image }
    ensures exact { IfSome (D.content dev.old) (λ c. MeetsCheck (image_checked (layout geo.now) (c Image)) result) }
    ensures session { IsSession geo.now.agcount result }
    ensures kept { IfSome (D.content dev.old) (λ c. ReadsForEvents (image_events (layout geo.now) (c Image)) steps.old.reads steps.new.reads (journal_in result)) }
    ensures reading { OnlyRead D.Device dev.old dev.new steps.old steps.new }
    ensures cause { CheckCause (D.faults dev.old) (D.faults dev.new) result }
{
    let mut tally = Tally::new(alloc);
    match check_into(alloc, dev, geo, &mut tally, steps, watch) {
        Ok(()) => Ok(tally.journal.entries),
        Err(cause) => Err(CheckStop {
            cause,
            journal: tally.journal.entries,
        }),
    }
}
