ghost use Rattle.std.specs.Prelude.{◌≡◌, ◌≤◌, ℕ, List, Some};
ghost use Rattle.xscrub.specs.Command.{make_of};
ghost use Rattle.xscrub.specs.Ending.{Finds, FindsBy, IsAsked, IsOfMake, IsShort, IsUnopened, LeavesStored};
ghost use Rattle.xscrub.specs.Outcome.{made_outcome};

use crate::ending::Finding;
use blk_device::DeviceFailed;
use fresh_image::write_fresh;
use image_hosts::{Host, OpenFault, Purpose};
use std::alloc::Global;

// A new image has one group.
const NEW_GROUPS: u32 = 1;

// The blocks of that group, and so of the image.
const NEW_LENGTH: u32 = 256;

const NEW_BLOCKS: u64 = 256;

/// Makes a new image under this name, and makes it durable. The device that is handed out for it is
/// always given back.
pub fn make<H: Host>(alloc: Global, host: &mut H, image: &str) -> Finding
    ensures found { Finds H.Host.own (Some made_outcome) host.old host.new result }
    ensures words { IsOfMake result }
    ensures device { FindsBy H.Dev.Device (make_of image.now) (H.stored host.old) (H.redo_files host.old)
        (H.stored host.new) (H.redo_files host.new) (H.loans host.old) (H.loans host.new) result }
    ensures stored { LeavesStored (make_of image.now) (H.tells host.old)
        (result ≡ Finding.Made) (IsUnopened result) (H.stored host.old) (H.stored host.new) }
    ensures redo { (n : List ℕ) → H.redo_files host.new n ≡ H.redo_files host.old n }
    ensures asked { IsAsked (make_of image.now) (IsShort result) (H.asked host.old) (H.asked host.new) }
    ensures report { H.taken host.new ≡ H.taken host.old }
    ensures sink { H.sink_faults host.new ≡ H.sink_faults host.old }
{
    let mut dev = match host.device(image, None, Purpose::Make(NEW_BLOCKS)) {
        Ok(dev) => dev,
        Err(OpenFault::Failed) => return Finding::HostFailed,
        Err(OpenFault::Memory) => return Finding::Memory(Vec::new(alloc)),
    };
    let written = write_fresh(&mut dev, NEW_GROUPS, NEW_LENGTH);
    host.put_back(image, dev);
    match written {
        Ok(()) => Finding::Made,
        Err(DeviceFailed) => Finding::DeviceFailed(Vec::new(alloc)),
    }
}
