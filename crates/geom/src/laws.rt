ghost use Rattle.geom.specs.Layout.{Layout};
ghost use Rattle.geom.specs.Apart.{HasFitting, Splits, GroupsDiffer, BlocksDiffer, LiesInside};

/// In an image whose groups have lengths that this program knows, a block's number leads back to
/// its place, two different blocks of groups are different blocks of the device, and each is below
/// the number of the image's blocks. (XFS Algorithms and Data Structures, "Allocation Groups".)
pub fn blocks_lie_apart()
    ensures splits { (at : Layout) → HasFitting at → Splits at }
    ensures groups { (at : Layout) → HasFitting at → GroupsDiffer at }
    ensures blocks { (at : Layout) → BlocksDiffer at }
    ensures inside { (at : Layout) → HasFitting at → LiesInside at }
{}
