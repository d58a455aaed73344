//! Scripts of writers, by name.
ghost use Rattle.std.specs.Prelude.{◌≡◌, ◌≤◌, ◌==◌, ℕ, List, Option, OnOk, OnErr, IfOk, IsErrOf, if◌then◌else◌};
ghost use Rattle.blk_device.specs.Causes.{Rose, one_more};

use crate::host::{Host, OpenFault};
use blk_device::Source;

/// A host that hands out scripts too. A source is given back like a device, so that its faults are
/// counted.
pub trait ScriptHost: Host {
    /// The scripts that it hands out.
    type Src: Source + Drop;

    /// The bytes of each script, where the host tells them.
    ghost scripts: { Self → List ℕ → Option (List ℕ) };

    /// How often a script came back that had failed. At 2^64 - 1 the count stays there.
    ghost script_faults: { Self → ℕ };

    /// Opens a script, from its first byte on. At Failed the host's own count rose. Nothing else of
    /// the host changes.
    fn script(&mut self, name: &str) -> Result<Self::Src, OpenFault>
        ensures told { IfOk result (λ src. Self.Src.bytes_left src ≡ scripts self.old name.now) }
        ensures fresh { IfOk result (λ src. Self.Src.source_faults src ≡ 0) }
        ensures failed { IsErrOf result OpenFault.Failed → Rose (Self.host_faults self.old) (Self.host_faults self.new) }
        ensures calm { OnOk result (Self.host_faults self.new ≡ Self.host_faults self.old) }
        ensures later { Self.host_faults self.old ≤ Self.host_faults self.new }
        ensures memory { IsErrOf result OpenFault.Memory → Self.host_faults self.new ≡ Self.host_faults self.old }
        ensures scripts { (n : List ℕ) → scripts self.new n ≡ scripts self.old n }
        ensures sources { script_faults self.new ≡ script_faults self.old }
        ensures tells { Self.tells self.new ≡ Self.tells self.old }
        ensures stored { (n : List ℕ) → Self.stored self.new n ≡ Self.stored self.old n }
        ensures redo { (n : List ℕ) → Self.redo_files self.new n ≡ Self.redo_files self.old n }
        ensures loans { Self.loans self.new ≡ Self.loans self.old }
        ensures asked { Self.asked self.new ≡ Self.asked self.old }
        ensures devices { Self.dev_faults self.new ≡ Self.dev_faults self.old }
        ensures report { Self.taken self.new ≡ Self.taken self.old }
        ensures sink { Self.sink_faults self.new ≡ Self.sink_faults self.old };

    /// Takes a script back. The count of scripts that failed rises exactly where this one did, and nothing
    /// else changes.
    fn script_back(&mut self, src: Self::Src)
        ensures sources { script_faults self.new ≡ (if Self.Src.source_faults src == 0
            then script_faults self.old
            else one_more (script_faults self.old)) }
        ensures host { Self.host_faults self.new ≡ Self.host_faults self.old }
        ensures scripts { (n : List ℕ) → scripts self.new n ≡ scripts self.old n }
        ensures tells { Self.tells self.new ≡ Self.tells self.old }
        ensures stored { (n : List ℕ) → Self.stored self.new n ≡ Self.stored self.old n }
        ensures redo { (n : List ℕ) → Self.redo_files self.new n ≡ Self.redo_files self.old n }
        ensures loans { Self.loans self.new ≡ Self.loans self.old }
        ensures asked { Self.asked self.new ≡ Self.asked self.old }
        ensures devices { Self.dev_faults self.new ≡ Self.dev_faults self.old }
        ensures report { Self.taken self.new ≡ Self.taken self.old }
        ensures sink { Self.sink_faults self.new ≡ Self.sink_faults self.old };
}
