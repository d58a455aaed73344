ghost use Rattle.std.specs.Prelude.{◌≡◌, length};
ghost use Rattle.byte_fields.specs.Zeros.{zeros};

/// One block of a device: 4,096 bytes, the one block size that this program knows
/// (superblock field `sb_blocksize`; XFS Algorithms and Data Structures, "Superblocks").
#[derive(Clone, Copy, Debug, PartialEq, Eq)]
pub struct Block {
    pub bytes: [u8; 4096],
    pub ghost whole: { length bytes ≡ 4096 },
}

impl Block {
    /// A block of zeros.
    #[tactic(auto, unfolding(crate::specs::Zeros::zeros))]
    pub fn zeroed() -> Self
        ensures { result.bytes ≡ zeros }
    {
        Block { bytes: [0; 4096] }
    }
}
