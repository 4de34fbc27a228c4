//! What a reader is handed, and what it shows.
use crate::{HolderId, Node, Text};

/// A key with whose it is: what opens a store to a reader.
#[derive(Clone, Copy, PartialEq, Eq)]
pub enum Bundle {
    /// The owner's key, which opens everything.
    Owner { key: [u8; 32] },
    /// A holder's key, which opens what is granted to the holder.
    Holder { holder: HolderId, key: [u8; 32] },
}

/// One line of a view.
#[derive(Debug, Drop, PartialEq, Eq)]
pub enum Line {
    /// A folder above one that is shown, by its path.
    Ancestor { path: Text },
    /// A folder that is shown with all in it.
    Folder { path: Text },
    /// A file that is shown.
    File { path: Text, bytes: Text },
}

/// What an audit shows: a name that a bundle's key leads to, or a file's name and bytes, and the batch that wrote it.
#[derive(Debug, Drop, PartialEq, Eq)]
pub struct Seen {
    /// The number of the batch, from 1.
    pub batch: u32,
    /// The folder or the file.
    pub node: Node,
    pub name: Text,
    /// The bytes of the file; of a folder none.
    pub bytes: Text,
}
