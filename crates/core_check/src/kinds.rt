ghost use Rattle.std.specs.Prelude.{◌≡◌};
ghost use Rattle.fs_state.specs.Faults.{kind_of_fault as kind_of_fault_of, kind_of_record as kind_of_record_of};
ghost use Rattle.fs_state.specs.Records.{kind_of_counter as kind_of_counter_of};

use fs_model::{AnyRec, Counter, Fault};
use sblock::Kind;

fn kind_of_record(rec: &AnyRec) -> Kind
    ensures { result ≡ kind_of_record_of rec.now }
{
    match rec {
        AnyRec::Bno(_) => Kind::Bno,
        AnyRec::Cnt(_) => Kind::Cnt,
        AnyRec::Rmap(_) => Kind::Rmap,
        AnyRec::Refc(_) => Kind::Refc,
        AnyRec::Ino(_) => Kind::Ino,
        AnyRec::Fino(_) => Kind::Fino,
    }
}

fn kind_of_counter(counter: Counter) -> Kind
    ensures { result ≡ kind_of_counter_of counter }
{
    match counter {
        Counter::Count => Kind::Ino,
        Counter::Freecount => Kind::Ino,
        Counter::Iblocks => Kind::Ino,
        Counter::Fblocks => Kind::Fino,
        Counter::RmapBlocks => Kind::Rmap,
        Counter::Freeblks => Kind::Bno,
        Counter::Longest => Kind::Cnt,
        Counter::Btreeblks => Kind::Bno,
        Counter::RefcountBlocks => Kind::Refc,
    }
}

/// The btree to which a fault belongs: its own, or the one that a counter tells of
/// (XFS Online Fsck Design, "Cross-Referencing Space Metadata").
pub fn kind_of_fault(fault: &Fault) -> Kind
    ensures { result ≡ kind_of_fault_of fault.now }
{
    match fault {
        Fault::Block { kind, .. } => *kind,
        Fault::Missing(rec) => kind_of_record(rec),
        Fault::Extra(rec) => kind_of_record(rec),
        Fault::Counter { name, .. } => kind_of_counter(*name),
    }
}
