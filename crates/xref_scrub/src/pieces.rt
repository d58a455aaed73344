ghost use Rattle.std.specs.Prelude.{◌≡◌, ◌++◌, IfOk};
ghost use Rattle.std.specs.Option.{option_to_list};
ghost use Rattle.sblock.specs.Blocks.{IsRising};
ghost use Rattle.xref_scrub.specs.Differences.{differences, piece};

use crate::cursors::{Cursors, is_some_left, pass};
use crate::indexed::Indexed;
use crate::numbers::seek;
use fs_model::Fault;
use std::alloc::{AllocError, Global};

// The records of a piece.
const PIECE: u32 = 512;

// Keeps what a record shows, where it shows something.
fn keep(faults: &mut Vec<Fault>, fault: Option<Fault>) -> Result<(), AllocError>
    ensures { IfOk result (λ _. faults.new.items ≡ faults.old.items ++ option_to_list fault) }
{
    let Some(found) = fault else {
        return Ok(());
    };
    faults.push(found)?;
    Ok(())
}

/// The faults of the 512 records from number `from` on, or of those that are left, of an index and
/// its derivation merged in key order. A derived record that the index lacks is missing, a record
/// of the index that isn't derived is extra. A record of both lists counts twice, so that they have
/// as many numbers as records; the derived one comes first, at equal keys too. No memory is the one
/// refusal (XFS Online Fsck Design, "Cross-Referencing Space Metadata").
pub fn compare_piece<K: Indexed>(
    alloc: Global,
    index: &[K::Rec],
    derived: &[K::Rec],
    from: u64,
) -> Result<Vec<Fault>, AllocError>
    requires index { IsRising K.form index.now }
    requires derived { IsRising K.form derived.now }
    ensures { IfOk result (λ faults. faults.items ≡ piece K.form K.shown index.now derived.now from) }
{
    // By halving: to count from the front would make all pieces together quadratic.
    let mut at = seek::<K>(index, derived, from);
    let mut faults = Vec::new(alloc);
    let mut left = PIECE;
    'piece: while left > 0 {
        if !is_some_left::<K>(index, derived, at) {
            return Ok(faults);
        }
        let fault = pass::<K>(index, derived, &mut at);
        keep(&mut faults, fault)?;
        left -= 1;
    }
    Ok(faults)
}

/// All faults of an index against its derivation, in key order: what is missing, and what is
/// extra; at equal keys the missing one comes first. Both lists rise in the order of their kind.
/// No memory is the one refusal (XFS Online Fsck Design, "Cross-Referencing Space Metadata").
pub fn compare<K: Indexed>(
    alloc: Global,
    index: &[K::Rec],
    derived: &[K::Rec],
) -> Result<Vec<Fault>, AllocError>
    requires index { IsRising K.form index.now }
    requires derived { IsRising K.form derived.now }
    ensures { IfOk result (λ faults. faults.items ≡ differences K.form K.shown index.now derived.now) }
{
    let mut at = Cursors {
        derived: 0,
        index: 0,
    };
    let mut faults = Vec::new(alloc);
    'records: while is_some_left::<K>(index, derived, at) {
        let fault = pass::<K>(index, derived, &mut at);
        keep(&mut faults, fault)?;
    }
    Ok(faults)
}
