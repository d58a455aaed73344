//! An index against what is derived.
ghost use Rattle.std.specs.Prelude.{◌≡◌};
ghost use Rattle.sblock.specs.Blocks.{IsRising};

use super::same::same;
use fs_model::{AnyRec, Fault};
use ino_recs::{FinoKind, InoKind, InoRec};
use rmap_recs::{RmapKind, RmapRec};
use span_recs::{BnoKind, CntKind, RefcKind, RefcRec, SpanRec};
use std::alloc::Global;
use std::process::Abort;
use std::test::Fail;
use xref_scrub::{Indexed, compare, compare_piece};

// The whole comparison finds these faults.
fn expect_all<K: Indexed>(
    rt: &impl Abort,
    alloc: Global,
    index: &[K::Rec],
    derived: &[K::Rec],
    wanted: &[Fault],
) -> Result<(), Fail>
    requires index { IsRising K.form index.now }
    requires derived { IsRising K.form derived.now }
{
    let all = compare::<K>(alloc, index, derived)?;
    same(rt, all.as_slice(), wanted);
    Ok(())
}

// The piece from this number on has these faults.
fn expect_piece<K: Indexed>(
    rt: &impl Abort,
    alloc: Global,
    index: &[K::Rec],
    derived: &[K::Rec],
    from: u64,
    wanted: &[Fault],
) -> Result<(), Fail>
    requires index { IsRising K.form index.now }
    requires derived { IsRising K.form derived.now }
{
    let piece = compare_piece::<K>(alloc, index, derived, from)?;
    same(rt, piece.as_slice(), wanted);
    Ok(())
}

fn span_of(start: u32, count: u32) -> SpanRec {
    SpanRec { start, count }
}

#[test]
fn a_free_run_that_is_too_short_is_missing_and_extra(rt: HostRuntime) -> Result<(), Fail> {
    let index = [span_of(32, 223)];
    let derived = [span_of(32, 224)];
    let missing = Fault::Missing(AnyRec::Bno(derived[0]));
    let extra = Fault::Extra(AnyRec::Bno(index[0]));
    let alloc = rt.alloc();
    expect_all::<BnoKind>(&rt, alloc, &index, &derived, &[missing, extra])?;
    expect_piece::<BnoKind>(&rt, alloc, &index, &derived, 0, &[missing, extra])?;
    expect_piece::<BnoKind>(&rt, alloc, &index, &derived, 1, &[extra])?;
    expect_piece::<BnoKind>(&rt, alloc, &index, &derived, 2, &[])
}

#[test]
fn runs_of_one_count_are_told_by_their_starts(rt: HostRuntime) -> Result<(), Fail> {
    let extra = Fault::Extra(AnyRec::Cnt(span_of(40, 8)));
    let missing = Fault::Missing(AnyRec::Cnt(span_of(60, 8)));
    let index = [span_of(40, 8)];
    let derived = [span_of(60, 8)];
    expect_all::<CntKind>(&rt, rt.alloc(), &index, &derived, &[extra, missing])
}

#[test]
fn a_shared_run_that_nobody_shares_is_extra(rt: HostRuntime) -> Result<(), Fail> {
    let rec = RefcRec {
        start: 32,
        count: 1,
        refcount: 2,
    };
    let extra = Fault::Extra(AnyRec::Refc(rec));
    expect_all::<RefcKind>(&rt, rt.alloc(), &[rec], &[], &[extra])
}

#[test]
fn a_mapping_that_differs_in_a_flag_alone_is_another(rt: HostRuntime) -> Result<(), Fail> {
    let mapping_of = |word| RmapRec {
        start: 24,
        count: 2,
        owner: 195,
        word,
    };
    let written = mapping_of(7);
    let unwritten = mapping_of(0x2000_0000_0000_0007);
    let missing = Fault::Missing(AnyRec::Rmap(written));
    let extra = Fault::Extra(AnyRec::Rmap(unwritten));
    expect_all::<RmapKind>(&rt, rt.alloc(), &[unwritten], &[written], &[missing, extra])
}

#[test]
fn an_index_that_is_its_derivation_has_no_faults(rt: HostRuntime) -> Result<(), Fail> {
    let chunk = InoRec {
        startino: 64,
        holemask: 0,
        count: 64,
        freecount: 1,
        free: 1 << 63,
    };
    let missing = Fault::Missing(AnyRec::Fino(chunk));
    expect_all::<InoKind>(&rt, rt.alloc(), &[chunk], &[chunk], &[])?;
    expect_all::<FinoKind>(&rt, rt.alloc(), &[], &[chunk], &[missing])
}
