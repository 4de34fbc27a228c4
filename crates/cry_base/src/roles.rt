//! What a key is for, and which keys lead to which.
use crate::{FileId, FolderId, HolderId};

/// What a key is for. Roles are ordered by the place of the variant in this list, and then by id.
#[derive(Clone, Copy, Debug, PartialEq, Eq, PartialOrd, Ord, Hash)]
pub enum Role {
    /// The owner's key. It seals each holder's key.
    Owner,
    /// A holder's key.
    Holder(HolderId),
    /// The key that grants hand out. A number below 2^31 is a folder's; 2^31 + x, x's clearance number, stands for file x.
    Clear(FolderId),
    /// Leads to all below the folder.
    Sub(FolderId),
    /// Leads to the folder's name and to the folders above it.
    Back(FolderId),
    /// Leads to the files in the folder.
    Files(FolderId),
    /// Seals the folder's name.
    Data(FolderId),
    /// Seals the file's name and bytes.
    File(FileId),
}

/// A folder or a file.
#[derive(Clone, Copy, Debug, PartialEq, Eq, PartialOrd, Ord, Hash)]
pub enum Node {
    /// A folder.
    Folder(FolderId),
    /// A file.
    File(FileId),
}

/// Who has the key of `from` can compute the key of `to`. `kind` is 1 to 11 (docs/FORMAT.md, "Kinds of links").
#[derive(Clone, Copy, Debug, PartialEq, Eq, PartialOrd, Ord, Hash)]
pub struct Edge {
    pub kind: u8,
    pub from: Role,
    pub to: Role,
}
