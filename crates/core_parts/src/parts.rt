use crate::desk::Desk;
use crate::groups::GroupKept;
use crate::units::UnitState;
use blk_device::Device;

/// All parts of a core: the desk; what is kept of each group; and the units that are open, one at most in
/// each group.
pub struct Parts<D: Device> {
    pub desk: Desk<D>,
    pub groups: Vec<GroupKept>,
    pub units: Vec<Option<UnitState>>,
}
