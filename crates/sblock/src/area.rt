ghost use Rattle.std.specs.Prelude.{◌≡◌, length};
ghost use Rattle.sblock.specs.Area.{area_of};

use byte_fields::Block;

// What stands behind the header in these bytes.
fn behind_header(bytes: &[u8]) -> &[u8]
    requires { length bytes.now ≡ 4096 }
    ensures shows { result.now ≡ area_of bytes.now }
    ensures whole { length result.now ≡ 4040 }
{
    let (_, area) = bytes.split_at(56);
    area
}

/// The 4,040 bytes of a block behind its header, where its records or its keys and pointers are
/// (XFS Algorithms and Data Structures, "Short Format B+trees").
pub fn data_area(block: &Block) -> &[u8]
    ensures shows { result.now ≡ area_of block.now.bytes }
    ensures whole { length result.now ≡ 4040 }
{
    behind_header(&block.bytes)
}
