// What a call answers, and the count of those that failed.
ghost use Rattle.std.specs.Prelude.{◌≡◌, ◌≤◌, is_ok};
ghost use Rattle.blk_device.specs.Causes.{HasCause, any_error};

use crate::device::DeviceFailed;

/// Ok where the call was good; otherwise a fault is counted.
pub fn answer(is_good: bool, faults: &mut u64) -> Result<(), DeviceFailed>
    ensures cause { HasCause any_error faults.old faults.new result }
    ensures exact { is_ok result ≡ is_good }
{
    if is_good {
        return Ok(());
    }
    *faults = faults.saturating_add(1);
    Err(DeviceFailed)
}
