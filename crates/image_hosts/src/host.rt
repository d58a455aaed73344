ghost use Rattle.std.specs.Prelude.{◌≡◌, ◌≤◌, ◌==◌, ◌+◌, ℕ, Bool, List, [], ◌∷◌, Option, OnOk, OnErr, IfOk, IsErrOf, IsNone, false, if◌then◌else◌};
ghost use Rattle.std.specs.Str.{bytes_eq};
ghost use Rattle.blk_device.specs.Causes.{Rose, one_more};
ghost use Rattle.redo_area.specs.declared.TheConstants.{REDO_BLOCKS};
ghost use Rattle.image_hosts.specs.Stored.{Stored, Request, Loan, Out, Back, Lends, FollowsRedo, IsAskedFor, Lent, asks, due_of, name_of, redo_asked, stored_image, stored_redo, stored_with};

use blk_device::{Device, Region, Sink};
use check_watch::Watch;
use std::alloc::AllocError;
use thiserror::Error;

/// What a device is opened for: to be read alone, to be changed, or to be made anew with so many
/// blocks.
#[derive(Clone, Copy, Debug, PartialEq, Eq)]
pub enum Purpose {
    Check,
    Change,
    Make(u64),
}

/// Why no device is handed out: the host failed, and its count of faults rose, or there is no
/// memory.
#[derive(Clone, Copy, Debug, PartialEq, Eq, Error)]
pub enum OpenFault {
    #[error("host failed")]
    Failed,
    #[error("memory")]
    Memory,
}

impl From<AllocError> for OpenFault {
    ghost use Rattle.image_hosts.specs.declared.host.OpenFault.TheVariants.{Memory};

    ghost from_gives = { λ _ e. e ≡ Memory };

    fn from(_: AllocError) -> Self {
        OpenFault::Memory
    }
}

/// What lets somebody see how far a check is, if anybody looks. No clause speaks of what is seen.
pub trait Watched {
    /// What hears how far it is.
    type Eye: Watch + Drop;

    /// Looks from now on.
    fn watch(&self) -> Self::Eye;
}

/// What hands out devices by name and takes the report. A device can't be dropped: whoever is
/// handed one gives it back.
pub trait Host: Sink + Watched {
    /// The devices that it hands out.
    type Dev: Device + Send;

    /// Whether it tells what its images hold.
    ghost tells: { Self → Bool };

    /// The image of each name, where the host tells it.
    ghost stored: { Self → List ℕ → Option Stored };

    /// The redo file of each name, where the host tells it; one that isn't there is as it would be made,
    /// 162 blocks of zeros.
    ghost redo_files: { Self → List ℕ → Option Stored };

    /// The host has a place for a device that comes back under this name.
    ghost awaits: { Self → List ℕ → Type 0 };

    /// What was asked of it so far, in order.
    ghost asked: { Self → List Request };

    /// The devices that it handed out and those that came back, in order, each as it was then, where
    /// the host tells them.
    ghost loans: { Self → Option (List (Loan Self.Dev)) };

    /// How often the host itself has failed. At 2^64 - 1 the count stays there.
    ghost host_faults: { Self → ℕ };

    /// How often a device came back that had failed. At 2^64 - 1 the count stays there.
    ghost dev_faults: { Self → ℕ };

    /// Opens an image, with a redo file or, without one, with 162 redo blocks of zeros that no
    /// file keeps; or makes one of so many blocks of zeros in the place of what has its name. At
    /// Failed the host's own count rose.
    fn device(
        &mut self,
        image: &str,
        redo: Option<&str>,
        purpose: Purpose,
    ) -> Result<Self::Dev, OpenFault>
        ensures told { IfOk result (Lent Self.Dev.Device purpose (tells self.old)
            (stored self.old image.now) (redo_asked (redo_files self.old) redo.entry)) }
        ensures redo_blocks { IsNone redo.entry → IfOk result (λ dev. Self.Dev.blocks dev Region.Redo ≡ REDO_BLOCKS) }
        ensures fresh { IfOk result (λ dev. Self.Dev.faults dev ≡ 0) }
        ensures lent { IfOk result (λ dev. Lends (Out dev ∷ []) (loans self.old) (loans self.new)) }
        ensures unlent { OnErr result (loans self.new ≡ loans self.old) }
        ensures place { OnOk result (awaits self.new image.now) }
        ensures others { (n : List ℕ) → bytes_eq n image.now ≡ false
            → stored self.new n ≡ stored self.old n }
        ensures none { OnErr result ((n : List ℕ) → stored self.new n ≡ stored self.old n) }
        ensures redo { (n : List ℕ) → redo_files self.new n ≡ redo_files self.old n }
        ensures failed { IsErrOf result OpenFault.Failed → Rose (host_faults self.old) (host_faults self.new) }
        ensures calm { OnOk result (host_faults self.new ≡ host_faults self.old) }
        ensures later { host_faults self.old ≤ host_faults self.new }
        ensures memory { IsErrOf result OpenFault.Memory → host_faults self.new ≡ host_faults self.old }
        ensures asked { IsAskedFor (IsErrOf result OpenFault.Memory)
            (asks image.now (name_of redo.entry) purpose) (asked self.old) (asked self.new) }
        ensures devices { dev_faults self.new ≡ dev_faults self.old }
        ensures report { Self.taken self.new ≡ Self.taken self.old }
        ensures sink { Self.sink_faults self.new ≡ Self.sink_faults self.old };

    /// Takes a device back under the name by which it was handed out. The count of devices that
    /// failed rises exactly where this one did. Where the last request was for a change, its redo file
    /// then has the device's redo region, or isn't told any more; all others stay.
    fn put_back(&mut self, image: &str, dev: Self::Dev)
        requires { awaits self.old image.now }
        ensures lent { Lends (Back dev ∷ []) (loans self.old) (loans self.new) }
        ensures image { (n : List ℕ) → stored self.new n
            ≡ stored_with image.now (stored_image (Self.Dev.content dev) (Self.Dev.blocks dev)) (stored self.old) n }
        ensures redo { FollowsRedo (due_of (asked self.old))
            (stored_redo (Self.Dev.content dev) (Self.Dev.blocks dev)) (redo_files self.old) (redo_files self.new) }
        ensures host { host_faults self.new ≡ host_faults self.old }
        ensures devices { dev_faults self.new ≡ (if Self.Dev.faults dev == 0
            then dev_faults self.old
            else one_more (dev_faults self.old)) }
        ensures asked { asked self.new ≡ asked self.old }
        ensures report { Self.taken self.new ≡ Self.taken self.old }
        ensures sink { Self.sink_faults self.new ≡ Self.sink_faults self.old };

    /// The report changes no image, no count of the host, and nothing of what it was asked and of its
    /// loans.
    ghost report_keeps: { (a b : Self) → Self.kept a b
        → (host_faults b ≡ host_faults a) × (dev_faults b ≡ dev_faults a) × (asked b ≡ asked a)
        × ((n : List ℕ) → stored b n ≡ stored a n) × (loans b ≡ loans a)
        × ((n : List ℕ) → redo_files b n ≡ redo_files a n) };
}
