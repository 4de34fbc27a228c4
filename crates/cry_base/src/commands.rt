//! What the owner asks for, and why it may be refused.
ghost use Rattle.std.specs.Prelude.{◌≡◌};
ghost use Rattle.cry_base.specs.Refusals.{word_of};

use crate::{HolderId, Text};

/// One change that the owner asks for. Paths and names are bytes as they were given, in form or not.
#[derive(Debug, Drop)]
pub enum Command {
    /// Makes the next holder, under a key that is drawn.
    AddHolder,
    /// Makes a folder.
    MakeFolder { path: Text },
    /// Makes the file, or gives the file there new bytes.
    WriteFile { path: Text, bytes: Text },
    /// Removes the file, or the empty folder, with all grants on it.
    Remove { path: Text },
    /// Gives the folder or file a new name.
    Rename { path: Text, name: Text },
    /// Puts the folder or file into another folder, under its old name.
    Relocate { path: Text, into: Text },
    /// Lets the holder read the folder and all below it, or the file alone.
    Grant { holder: HolderId, path: Text },
    /// Takes that grant back, and no other.
    Revoke { holder: HolderId, path: Text },
}

/// What a command is answered.
#[derive(Clone, Copy, PartialEq, Eq)]
pub enum Reply {
    /// It was done.
    Done,
    /// A holder was made, with the 32 bytes of the holder's key.
    Made { holder: HolderId, key: [u8; 32] },
    /// It was refused, and nothing changed.
    Refused { why: Refusal },
}

/// Why a command was refused, in the order in which the causes are tested.
#[derive(Clone, Copy, Debug, PartialEq, Eq, PartialOrd, Ord, Hash)]
pub enum Refusal {
    /// A path isn't of path form, or the new name isn't a name.
    BadName,
    /// A path finds nothing, or the folder that is to have the new node isn't there.
    NoPath,
    /// The root is asked to be made, written, removed, renamed or moved.
    IsRoot,
    /// A file stands where a folder is due. A store of version 1 knows grants on folders alone, so there a file's path in a grant or a
    /// revocation is refused so too.
    NotFolder,
    /// A folder stands where bytes are to be written.
    IsFolder,
    /// The name is taken in that folder.
    Exists,
    /// The folder to be removed has a child.
    NotEmpty,
    /// A folder is to be moved into itself or below itself.
    InsideItself,
    /// A node would stand more than 64 names below the root.
    TooDeep,
    /// No holder has that number.
    NoHolder,
    /// The holder has that grant already.
    HasGrant,
    /// The holder doesn't have that grant.
    NoGrant,
    /// The file would have more bytes than a file may.
    TooLong,
    /// The store file would have more bytes than it may.
    Full,
}

impl Refusal {
    /// The word that a reply gives for it.
    pub fn word(self) -> &'static str
        ensures { result.now ≡ word_of self }
    {
        match self {
            Refusal::BadName => "bad-name",
            Refusal::NoPath => "no-path",
            Refusal::IsRoot => "is-root",
            Refusal::NotFolder => "not-folder",
            Refusal::IsFolder => "is-folder",
            Refusal::Exists => "exists",
            Refusal::NotEmpty => "not-empty",
            Refusal::InsideItself => "inside-itself",
            Refusal::TooDeep => "too-deep",
            Refusal::NoHolder => "no-holder",
            Refusal::HasGrant => "has-grant",
            Refusal::NoGrant => "no-grant",
            Refusal::TooLong => "too-long",
            Refusal::Full => "full",
        }
    }
}
