ghost use Rattle.std.specs.Prelude.{◌≡◌};
ghost use Rattle.run_edits.specs.Needed.{rec_of as rec_is};

use super::same::same;
use rmap_recs::RmapRec;
use run_edits::{give, join_pieces, take};
use std::test::Fail;

const AG: u64 = 0xffff_ffff_ffff_fffb;

fn rec_of(start: u32, count: u32, owner: u64, word: u64) -> RmapRec
    ensures { result ≡ rec_is start count owner word }
{
    RmapRec {
        start,
        count,
        owner,
        word,
    }
}

#[test]
fn a_run_joins_both_sides_across_another_owner(rt: HostRuntime) -> Result<(), Fail> {
    let mut list = Vec::from_array(
        rt.alloc(),
        [
            rec_of(0, 4, AG, 0),
            rec_of(1, 1, 133, 0),
            rec_of(6, 1, AG, 0),
        ],
    )?;
    give(&mut list, &rec_of(4, 2, AG, 0))?;
    same(
        &rt,
        list.as_slice(),
        [rec_of(0, 7, AG, 0), rec_of(1, 1, 133, 0)].as_slice(),
    );
    Ok(())
}

#[test]
fn a_run_is_cut_from_the_middle(rt: HostRuntime) -> Result<(), Fail> {
    let mut list = Vec::from_array(rt.alloc(), [rec_of(0, 9, 133, 10), rec_of(1, 1, 134, 0)])?;
    take(&mut list, &rec_of(3, 2, 133, 13))?;
    same(
        &rt,
        list.as_slice(),
        [
            rec_of(0, 3, 133, 10),
            rec_of(1, 1, 134, 0),
            rec_of(5, 4, 133, 15),
        ]
        .as_slice(),
    );
    Ok(())
}

#[test]
fn pieces_are_joined_across_another_owner(rt: HostRuntime) -> Result<(), Fail> {
    let pieces = [
        rec_of(4, 2, AG, 0),
        rec_of(5, 1, 195, 7),
        rec_of(6, 2, 195, 8),
        rec_of(6, 1, AG, 0),
    ];
    let found = join_pieces(rt.alloc(), &pieces)?;
    same(
        &rt,
        found.as_slice(),
        [rec_of(4, 3, AG, 0), rec_of(5, 3, 195, 7)].as_slice(),
    );
    Ok(())
}
