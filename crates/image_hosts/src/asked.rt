ghost use Rattle.std.specs.Prelude.{◌≡◌, ◌≤◌, ◌==◌, OnOk, OnErr, if◌then◌else◌};
ghost use Rattle.std.specs.Option.{option_map};
ghost use Rattle.blk_device.specs.Causes.{one_more};
ghost use Rattle.image_hosts.specs.Asked.{AddsRequest};
ghost use Rattle.image_hosts.specs.Stored.{asks};

use crate::host::Purpose;
use std::alloc::{AllocError, Global};

/// One call of a host's `device`.
#[derive(Drop)]
pub struct DeviceAsked {
    pub image: String,
    pub redo: Option<String>,
    pub purpose: Purpose,
}

/// Adds a call to what was asked of a host. Without memory for it, nothing changes.
pub fn keep_request(
    alloc: Global,
    asked: &mut Vec<DeviceAsked>,
    image: &str,
    redo: Option<&str>,
    purpose: Purpose,
) -> Result<(), AllocError>
    ensures ok { OnOk result (AddsRequest (asks image.now (option_map (λ s. s.now) redo.entry) purpose)
        asked.old.items asked.new.items) }
    ensures err { OnErr result (asked.new.items ≡ asked.old.items) }
{
    let redo = match redo {
        Some(name) => Some(String::from_str(alloc, name)?),
        None => None,
    };
    let image = String::from_str(alloc, image)?;
    asked.push(DeviceAsked {
        image,
        redo,
        purpose,
    })?;
    Ok(())
}

/// Counts a fault. At 2^64 - 1 the count stays there.
pub fn count_fault(faults: &mut u64)
    ensures count { faults.new ≡ one_more faults.old }
    ensures later { faults.old ≤ faults.new }
{
    *faults = faults.saturating_add(1);
}

/// Counts a device that came back, if it had failed.
pub fn count_failed(faults: &mut u64, device_faults: u64)
    ensures { faults.new ≡ (if device_faults == 0 then faults.old else one_more faults.old) }
{
    if device_faults != 0 {
        count_fault(faults);
    }
}
