use geom::Geometry;

/// What no event changes of a core: its geometry, the device's count of faults at its opening, and the
/// sizes of the device's two regions, in blocks (XFS Online Fsck Design, "Live Updates").
#[derive(Clone, Copy, Debug)]
pub struct Origin {
    pub geo: Geometry,
    pub begun: u64,
    pub image_blocks: u64,
    pub redo_blocks: u64,
}
