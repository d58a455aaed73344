// The map of bounded size in which blocks are kept.
ghost use Rattle.std.specs.Prelude.{◌≡◌, ◌≤◌, ◌<◌, None, IfSome, IfNone, length, nat_eq};
ghost use Rattle.std.specs.Map.{lookup};
ghost use Rattle.blk_cache.specs.Entries.{in_front, KeepsIn};

use byte_fields::Block;
use lru::LruCache;

/// Copies a block that is kept, and makes it the most recently used.
pub fn copy_kept(blocks: &mut LruCache<u64, Block>, at: u64) -> Option<Block>
    ensures value { result ≡ lookup (nat_eq at) blocks.old.entries }
    ensures capacity { blocks.new.cap ≡ blocks.old.cap }
    ensures front { IfSome result (λ block. blocks.new.entries ≡ in_front at block blocks.old.cap blocks.old.entries) }
    ensures none { IfNone result (blocks.new.entries ≡ blocks.old.entries) }
{
    blocks.get(&at).copied()
}

/// Keeps a block in front. Without memory, one of which nothing is kept stays so.
pub fn keep(blocks: &mut LruCache<u64, Block>, at: u64, block: &Block)
    ensures capacity { blocks.new.cap ≡ blocks.old.cap }
    ensures front { KeepsIn at block.now blocks.old.cap blocks.old.entries blocks.new.entries }
{
    let _ = blocks.put(at, *block);
}
