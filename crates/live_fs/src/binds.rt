use core_calls::WriteFault;
use script_defs::Name;
use std::alloc::Global;
use std::collections::BTreeMap;

/// What the names of a section stand for; one that isn't bound stands for inode 0
/// (XFS Algorithms and Data Structures, "Inode Numbers").
#[derive(Drop)]
pub(crate) struct Binds {
    inodes: BTreeMap<Name, u64>,
}

impl Binds {
    /// No name is bound.
    pub(crate) fn new(alloc: Global) -> Self {
        Binds {
            inodes: BTreeMap::new(alloc),
        }
    }

    /// The inode that a name stands for.
    pub(crate) fn inode(&self, name: &Name) -> u64 {
        match self.inodes.get(name) {
            Some(ino) => *ino,
            None => 0,
        }
    }

    /// Makes a place for a name, so that it can be bound without memory.
    pub(crate) fn make_place(&mut self, name: Name) -> Result<(), WriteFault> {
        if self.inodes.contains_key(&name) {
            return Ok(());
        }
        match self.inodes.insert(name, 0) {
            Ok(_) => Ok(()),
            Err(_) => Err(WriteFault::Memory),
        }
    }

    /// Binds a name that has a place.
    pub(crate) fn bind(&mut self, name: Name, ino: u64) {
        let _ = self.inodes.insert(name, ino);
    }

    /// The name stands for no inode any more.
    pub(crate) fn unbind(&mut self, name: Name) {
        if self.inodes.contains_key(&name) {
            let _ = self.inodes.insert(name, 0);
        }
    }
}
