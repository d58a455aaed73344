// What an edit takes from the free list and gives back.
ghost use Rattle.std.specs.Prelude.{◌≡◌, ◌≤◌, ◌++◌, length, drop};
ghost use Rattle.std.specs.Vec.{vec_capacity};
ghost use Rattle.ag_headers.specs.Ring.{entries};
ghost use Rattle.edit_blocks.specs.Choice.{for_list, for_limbo, IsSameList, HasRoomFor};

use ag_headers::Agfl;
use edit_blocks::{give_back, take_from};

// Takes so many of the list's first blocks off it, and puts these at its end, or into limbo where it is
// full.
pub(crate) fn settle(list: &mut Agfl, limbo: &mut Vec<u32>, need: u32, left: &[u32])
    requires enough { need ≤ length (entries list.old) }
    requires room { HasRoomFor limbo.old (for_limbo (drop need (entries list.old)) left.now) }
    ensures list { entries list.new ≡ drop need (entries list.old) ++ for_list (drop need (entries list.old)) left.now }
    ensures limbo { limbo.new.items ≡ limbo.old.items ++ for_limbo (drop need (entries list.old)) left.now }
    ensures capacity { vec_capacity limbo.new ≡ vec_capacity limbo.old }
    ensures same { IsSameList list.old list.new }
{
    take_from(list, need);
    give_back(list, limbo, left);
}
