use crate::book::Book;
use blk_device::Device;
use core_edit::Store;
use intent_drain::Drain;
use tree_blocks::TreeAt;

/// What every event works with: the device with its cache and open edit, the journal, the gates, chains
/// and holds of writers, and where the inode btree of each group is.
pub struct Desk<D: Device> {
    pub store: Store<D>,
    pub book: Book,
    pub drain: Drain,
    pub ino_trees: Vec<TreeAt>,
}
