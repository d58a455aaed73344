ghost use Rattle.std.specs.Prelude.{◌≡◌, ◌<◌, ◌≤◌, ◌*◌, Ok, Err, Some, IfOk, IfErr, length};
ghost use Rattle.dinode_core.specs.Frame.{OwnParts};
ghost use Rattle.dinode_core.specs.Packed.{packed};
ghost use Rattle.dinode_core.specs.Shape.{format_of, has_large_counts as large, room_of};
ghost use Rattle.dinode_core.specs.declared.mapping.Fork.TheVariants.{Attr, Data};
ghost use Rattle.dinode_core.specs.declared.shape.Format.TheVariants.{Extents};
ghost use Rattle.fork_change.specs.Lists.{AllFit, Fits};
ghost use Rattle.fork_change.specs.Sound.{SoundFits};
ghost use Rattle.fork_change.specs.Written.{ReadsAs, laid, numbered, put_answer, with_list};

use crate::change::ForkChange;
use dinode_core::{Core3, Fork, Mapping, fork_room, pack};

// Bytes of a packed mapping.
const PACKED: usize = 16;

// Bit 4 of di_flags2: the numbers of mappings have 64 and 32 bits.
fn has_large_counts(core: &Core3) -> bool
    ensures { result ≡ large core.now }
{
    core.flags2 / 16 % 2 == 1
}

// Packs the mappings from the front on.
#[tactic(auto, using(crate::proofs::WrittenLemmas::is_packed), unfolding(crate::specs::Written::laid))]
fn lay(area: &mut [u8], list: &[Mapping])
    requires list { AllFit list.now }
    requires room { 16 * length list.now ≤ length area.old }
    ensures laid { area.new ≡ laid list.now area.old }
{
    let Some((first, later)) = list.split_first() else {
        return;
    };
    let (front, rest) = area.split_at_mut(PACKED);
    front.copy_from_slice(&pack(first));
    lay(rest, later);
}

// The core with this number of mappings in its data fork.
fn put_number(core: &mut Core3, number: u32)
    ensures { core.new ≡ numbered (large core.old) number core.old }
{
    if has_large_counts(core) {
        core.big_nextents = u64::from(number);
    } else {
        core.nextents = number;
    }
}

// The core with this list, which has room.
#[tactic(auto, using(crate::proofs::WrittenLemmas::room_bound))]
fn place(core: &mut Core3, list: &[Mapping])
    requires inside { core.old.forkoff < 42 }
    requires list { AllFit list.now }
    requires room { length list.now ≤ room_of core.old Data }
    ensures exact { core.new ≡ with_list list.now core.old }
{
    put_number(core, list.len() as u32);
    lay(&mut core.literal, list);
}

// So it reads as that list.
fn put_all(core: &mut Core3, list: &[Mapping])
    requires extents { format_of core.old Data ≡ Some Extents }
    requires inside { core.old.forkoff < 42 }
    requires list { AllFit list.now }
    requires room { length list.now ≤ room_of core.old Data }
    ensures exact { core.new ≡ with_list list.now core.old }
    ensures read { ReadsAs core.new list.now }
    ensures attributes { OwnParts Attr core.old core.new }
{
    place(core, list);
}

/// Writes a list of mappings into the inode whose data fork it is: packed one behind the other from
/// the front of the fork on, with their number in the core. All other fields stay, and so do the
/// bytes behind the list, an attribute fork among them. Full exactly where the fork has no room for
/// the list; then the inode stays
/// (XFS Algorithms and Data Structures, "On-disk Inode", "Data Extents").
#[tactic(auto, unfolding(crate::specs::Written::put_answer))]
pub fn put_list(core: &mut Core3, list: &[Mapping]) -> Result<(), ForkChange>
    requires extents { format_of core.old Data ≡ Some Extents }
    requires inside { core.old.forkoff < 42 }
    requires list { AllFit list.now }
    ensures done { IfOk result (λ u. put_answer list.now core.old ≡ Ok core.new) }
    ensures refused { IfErr result (λ e. put_answer list.now core.old ≡ Err e) }
    ensures unchanged { IfErr result (λ e. core.new ≡ core.old) }
    ensures read { IfOk result (λ u. ReadsAs core.new list.now) }
    ensures attributes { IfOk result (λ u. OwnParts Attr core.old core.new) }
{
    if list.len() > fork_room(core, Fork::Data) {
        return Err(ForkChange::Full(list.len() as u64));
    }
    put_all(core, list);
    Ok(())
}

/// A law: where an inode shows no fault of a fork, the mappings that stand in it fit, so that they can be
/// changed (XFS Algorithms and Data Structures, "Data Extents").
pub fn sound_fits()
    ensures { SoundFits }
{}
