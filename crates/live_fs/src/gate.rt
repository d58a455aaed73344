use fs_model::EventKind;

/// An event that was answered: whose it was, 0 for the scrubber and 1 to 16 for writers, and of which
/// kind it is (XFS Online Fsck Design, "Live Updates").
#[derive(Clone, Copy, Debug, PartialEq, Eq)]
pub struct Point {
    pub actor: u32,
    pub event: EventKind,
}

/// Is told of each event, behind it and outside of the lock, by the thread of the actor that made it. A
/// gate of a test may hold the thread for a while (XFS Online Fsck Design, "Live Updates").
pub trait Gate {
    fn pause(&self, point: Point);
}

/// The gate that holds nobody (XFS Online Fsck Design, "Live Updates").
#[derive(Clone, Copy, Debug, PartialEq, Eq)]
pub struct NoGate;

impl Gate for NoGate {
    fn pause(&self, _point: Point) {}
}
