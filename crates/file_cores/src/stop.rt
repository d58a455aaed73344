/// Why an inode isn't read as a file to be changed: it is none, its data fork has no list of mappings,
/// the device failed, or memory is wanting.
#[derive(Clone, Copy, Debug, PartialEq, Eq)]
pub enum FileStop {
    NoFile,
    TreeFork,
    Failed,
    Memory,
}
