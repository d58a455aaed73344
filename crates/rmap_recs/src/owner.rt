ghost use Rattle.std.specs.Prelude.{◌≡◌, ◌-◌, ◌^◌, ◌≤◌, ◌↔◌, Some, true, IfSome, IsNone};
ghost use Rattle.rmap_recs.specs.Owners.{number_of, owner_of, is_owner, is_inode as is_inode_of, owner_text};

use std::fmt;

/// The number of the superblock and heads as an owner, -3 in two's complement; the numbers of the
/// other owners that aren't inodes are the six below it.
pub const OWN_FS: u64 = 0xffff_ffff_ffff_fffd;

const OWN_LOG: u64 = 0xffff_ffff_ffff_fffc;

const OWN_AG: u64 = 0xffff_ffff_ffff_fffb;

const OWN_INOBT: u64 = 0xffff_ffff_ffff_fffa;

const OWN_INODES: u64 = 0xffff_ffff_ffff_fff9;

const OWN_REFC: u64 = 0xffff_ffff_ffff_fff8;

const OWN_COW: u64 = 0xffff_ffff_ffff_fff7;

/// Who a block belongs to: the superblock and heads of the group, the log, the group's space
/// btrees and free list, its inode btrees, inode chunks, its refcount btree, copy-on-write
/// staging, or an inode by its number
/// (XFS Algorithms and Data Structures, "Reverse-Mapping B+tree").
#[derive(Clone, Copy, Debug, PartialEq, Eq)]
pub enum Owner {
    Fs,
    Log,
    Ag,
    Inobt,
    Inodes,
    Refc,
    Cow,
    Inode(u64),
}

impl Owner {
    /// The owner with this number in a record. Nobody has -1 and -2, which stand for no owner
    /// and for an unknown one; -3 to -9 are the seven that aren't inodes, as two's complement.
    #[tactic(auto, unfolding(crate::specs::Owners::owner_of))]
    pub fn from_number(number: u64) -> Option<Owner>
        ensures value { result ≡ owner_of number }
        ensures back { IfSome result (λ owner. number_of owner ≡ number) }
        ensures right { IfSome result (λ owner. is_owner owner ≡ true) }
        ensures none { IsNone result ↔ (2 ^ 64 - 2 ≤ number) }
    {
        match number {
            OWN_FS => Some(Owner::Fs),
            OWN_LOG => Some(Owner::Log),
            OWN_AG => Some(Owner::Ag),
            OWN_INOBT => Some(Owner::Inobt),
            OWN_INODES => Some(Owner::Inodes),
            OWN_REFC => Some(Owner::Refc),
            OWN_COW => Some(Owner::Cow),
            _ if number < OWN_COW => Some(Owner::Inode(number)),
            _ => None,
        }
    }

    /// The owner's number in a record. It is read again as the owner, where an inode has an
    /// inode number.
    #[tactic(auto, unfolding(crate::specs::Owners::owner_of))]
    pub fn number(self) -> u64
        ensures value { result ≡ number_of self }
        ensures read { is_owner self ≡ true → owner_of result ≡ Some self }
    {
        match self {
            Owner::Fs => OWN_FS,
            Owner::Log => OWN_LOG,
            Owner::Ag => OWN_AG,
            Owner::Inobt => OWN_INOBT,
            Owner::Inodes => OWN_INODES,
            Owner::Refc => OWN_REFC,
            Owner::Cow => OWN_COW,
            Owner::Inode(ino) => ino,
        }
    }
}

/// The word of the report: `fs`, `log`, `ag`, `inobt`, `inodes`, `refc` or `cow`, or the inode
/// number in decimal.
impl fmt::Display for Owner {
    ghost output = { λ owner. Some (owner_text owner) };

    fn fmt<W: fmt::Write>(&self, f: &mut fmt::Formatter<W>) -> fmt::Result {
        match *self {
            Owner::Fs => write!(f, "fs"),
            Owner::Log => write!(f, "log"),
            Owner::Ag => write!(f, "ag"),
            Owner::Inobt => write!(f, "inobt"),
            Owner::Inodes => write!(f, "inodes"),
            Owner::Refc => write!(f, "refc"),
            Owner::Cow => write!(f, "cow"),
            Owner::Inode(ino) => write!(f, "{ino}"),
        }
    }
}

/// Whether an owner with this number is an inode.
pub fn is_inode(number: u64) -> bool
    ensures { result ≡ is_inode_of number }
{
    number < OWN_COW
}
