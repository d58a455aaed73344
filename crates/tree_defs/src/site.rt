use geom::Geometry;
use sblock::Bounds;

/// Where the blocks of a group's trees lie: the group, the device block of its block 0 (`first`),
/// the numbers of its range tests, and the file system's UUID
/// (XFS Algorithms and Data Structures, "Short Format B+trees").
#[derive(Clone, Copy, Debug, PartialEq, Eq)]
pub struct Site {
    pub group: u32,
    pub first: u64,
    pub bounds: Bounds,
    pub uuid: [u8; 16],
}

impl Site {
    ghost use Rattle.std.specs.Prelude.{◌≡◌, ◌+◌, ◌*◌, ◌^◌, ◌<◌, ◌≤◌};
    ghost use Rattle.geom.specs.Places.{layout};
    ghost use Rattle.tree_defs.specs.Sites.{site_of};

    /// That of group `g`, all of which lies in the image.
    #[tactic(auto, using(crate::proofs::SiteLemmas::has_first, crate::proofs::SiteLemmas::lies, crate::proofs::SiteLemmas::is_short, crate::proofs::SiteLemmas::places_fit), unfolding(crate::specs::Sites::site_of))]
    pub fn of_group(geo: &Geometry, g: u32) -> Self
        requires { g < geo.now.agcount }
        ensures exact { result ≡ site_of (layout geo.now) g }
        ensures inside { result.first + result.bounds.length ≤ geo.now.dblocks }
        ensures short { result.bounds.length ≤ 268435456 }
        ensures fits { 8 * (result.first + result.bounds.length) < 2 ^ 64 }
    {
        let uuid = geo.uuid;
        let bounds = Bounds {
            length: geo.group_len(g),
            agblocks: geo.agblocks,
            agcount: geo.agcount,
            last: geo.group_len(geo.agcount - 1),
            agblklog: geo.agblklog,
        };
        Site {
            group: g,
            first: geo.device_block(g, 0),
            bounds,
            uuid,
        }
    }
}
