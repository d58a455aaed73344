ghost use Rattle.std.specs.Prelude.{◌≡◌};
ghost use Rattle.core_parts.specs.Common.Kinds.{is_sick as is_sick_of};
ghost use Rattle.fsck_core.specs.Sick.{are_some_sick, is_one_sick as is_one_sick_of};

use blk_device::Device;
use core_parts::{Book, Desk, GroupKept, Parts, Trusts};
use fs_model::{Entry, Trust};

fn is_sick(trust: Trust) -> bool
    ensures { result ≡ is_sick_of trust }
{
    matches!(trust, Trust::Sick)
}

fn is_one_sick(trusts: &Trusts) -> bool
    ensures { result ≡ is_one_sick_of trusts.now }
{
    is_sick(trusts.bno)
        || is_sick(trusts.cnt)
        || is_sick(trusts.rmap)
        || is_sick(trusts.refc)
        || is_sick(trusts.ino)
        || is_sick(trusts.fino)
}

fn are_some_sick_of(groups: &[GroupKept]) -> bool
    ensures { result ≡ are_some_sick groups.now }
{
    groups.iter().any(|kept| is_one_sick(&kept.trust))
}

/// Whether one of the btrees of a group is sick: a fault of it was met, and it wasn't rebuilt since
/// (XFS Online Fsck Design, "Metadata Repair").
pub fn any_sick<D: Device>(parts: &Parts<D>) -> bool
    ensures { result ≡ are_some_sick parts.now.groups.items }
{
    are_some_sick_of(parts.groups.as_slice())
}

/// Ends the core: the device and the journal come out of it. What wasn't committed is let go
/// (XFS Online Fsck Design, "Metadata Repair").
pub fn into_device<D: Device>(parts: Parts<D>) -> (D, Vec<Entry>)
    ensures device { result.0 ≡ parts.desk.store.dev }
    ensures journal { result.1 ≡ parts.desk.book.journal }
{
    let Parts {
        desk,
        groups: _,
        units: _,
    } = parts;
    let Desk {
        store,
        book,
        drain: _,
        ino_trees: _,
    } = desk;
    let Book {
        journal,
        begun: _,
        shut: _,
    } = book;
    (store.into_device(), journal)
}
