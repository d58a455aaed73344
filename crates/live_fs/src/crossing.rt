// The shared core moves between threads, and what is shared of it is shared by them, wherever the device
// may move.
use crate::gate::Gate;
use crate::live::LiveFs;
use crate::shared::Shared;
use blk_device::Device;
use turn_lock::Pass;

fn is_shared<X: Sync>(_: &X) {}

fn is_moved<X: Send>(_: &X) {}

pub(crate) fn cross_threads<D: Device + Send, G: Gate + Sync>(
    live: &LiveFs<'_, D, G>,
    pass: &Pass<Shared<D>>,
) {
    is_shared(live);
    is_moved(pass);
}
