// The lock is shared by threads, and passes move between them, wherever the value may move.
use crate::lock::TurnLock;
use crate::pass::Pass;
use crate::recorded::Recorded;

fn is_shared<X: Sync>(_: &X) {}

fn is_moved<X: Send>(_: &X) {}

pub(crate) fn cross_threads<T: Recorded + Send>(lock: &TurnLock<T>, pass: &Pass<T>) {
    is_shared(lock);
    is_moved(lock);
    is_moved(pass);
}
