//! What everyone may see of the keys that a step gives and of the records that it publishes.
use cry_base::{Edge, List, Role, Serial};
use std::marker::Model;

/// The serial of a role's key.
#[derive(Clone, Copy, Debug, PartialEq, Eq)]
pub struct KeyHead {
    /// What the key is for.
    pub role: Role,
    /// The key's number.
    pub serial: Serial,
}

impl Model for KeyHead {
    ghost use Rattle.std.specs.Prelude.{ℕ};
    ghost use Rattle.cry_base.specs.declared.roles.Role.{Role};

    ghost Value = { Role × ℕ };

    ghost view = { λ h. (h.role, h.serial.0) };

    ghost inverse = { λ key. record { role = key.0; serial = record { 0 = key.1 } } };
}

/// A link, without the sealed key and its tag.
#[derive(Clone, Copy, Debug, PartialEq, Eq)]
pub struct LinkHead {
    /// Whose key is sealed under whose.
    pub edge: Edge,
    /// The number of the sealing key.
    pub from_serial: Serial,
    /// The number of the sealed key.
    pub to_serial: Serial,
    /// The number of the stream that the key is sealed with.
    pub nonce: u64,
}

impl Model for LinkHead {
    ghost use Rattle.public_fold.specs.Records.{Link};

    ghost Value = { Link };

    ghost view = { λ h. record { edge = h.edge; from_serial = h.from_serial.0; to_serial = h.to_serial.0; nonce = h.nonce } };

    ghost inverse = { λ l. record {
      edge = l.edge;
      from_serial = record { 0 = l.from_serial };
      to_serial = record { 0 = l.to_serial };
      nonce = l.nonce;
    } };
}

/// A content, without the sealed text and its tag.
#[derive(Clone, Copy, Debug, PartialEq, Eq)]
pub struct ContentHead {
    /// 1 a folder's name, 2 a file's name and bytes, 3 a holder's key.
    pub kind: u8,
    /// The number of the folder, file or holder.
    pub object: u32,
    /// The number of the sealing key.
    pub key_serial: Serial,
    /// The number of the stream that the text is sealed with.
    pub nonce: u64,
}

/// What a note's command gives and publishes, by serials and without any secret.
#[derive(Debug, Drop)]
pub struct Skeleton {
    /// The keys that are given: those renewed, and then those of new roles.
    pub keys: List<KeyHead>,
    /// The links in the order of their edges.
    pub links: List<LinkHead>,
    /// What is sealed: a name, a file, a holder's key, or nothing.
    pub contents: List<ContentHead>,
}
