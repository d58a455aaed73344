ghost use Rattle.std.specs.Prelude.{◌≡◌};
ghost use Rattle.run_edits.specs.Needed.{rec_of as rec_is};

use index_derive::{count_mappings, reverse_mappings};
use rmap_recs::RmapRec;
use std::test::Fail;

const AG: u64 = 0xffff_ffff_ffff_fffb;

fn rec_of(start: u32, count: u32, owner: u64, word: u64) -> RmapRec
    ensures { result ≡ rec_is start count owner word }
{
    RmapRec {
        start,
        count,
        owner,
        word,
    }
}

#[test]
fn pieces_become_the_runs_of_their_owners(rt: HostRuntime) -> Result<(), Fail> {
    let pieces = [
        rec_of(4, 2, AG, 0),
        rec_of(5, 1, 195, 7),
        rec_of(6, 2, 195, 8),
        rec_of(6, 1, AG, 0),
    ];
    let found = reverse_mappings(rt.alloc(), &pieces)?;
    let count = count_mappings(&pieces);
    assert_eq!(rt; count, 2);
    assert_eq!(rt;
        found.as_slice(),
        [rec_of(4, 3, AG, 0), rec_of(5, 3, 195, 7)].as_slice()
    );
    Ok(())
}
