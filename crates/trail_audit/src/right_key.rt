//! A key to which right links lead.
ghost use Rattle.std.specs.Prelude.{◌≡◌, ◌↔◌, IsTrue};
ghost use Rattle.trail_audit.specs.Grouped.{key_source};
ghost use Rattle.trail_audit.specs.Trails.{BeginsAt};

use crate::grouped::Source;
use chacha_seal::{HolderK, Key};
use cry_base::{HolderId, Serial};
use record_format::LinkRecord;
use std::marker::Model;

/// A key of a role whose kind isn't told: a forged link may lead to any bytes under any number and serial.
#[derive(Clone, Copy)]
pub(crate) struct RightKey {
    /// The number of the folder, file or holder; 0 for the owner.
    pub(crate) id: u32,
    pub(crate) serial: Serial,
    pub(crate) bytes: [u8; 32],
}

impl Model for RightKey {
    ghost use Rattle.chacha_seal.specs.Keys.{KeyParts};

    ghost Value = { KeyParts };

    ghost view = { λ key. record { id = key.id; serial = key.serial.0; bytes = key.bytes } };

    ghost inverse = { λ key. record { id = key.id; serial = record { 0 = key.serial }; bytes = key.bytes } };
}

impl RightKey {
    /// Whether number, serial and bytes are the same.
    pub(crate) fn equals(&self, other: &RightKey) -> bool
        ensures { IsTrue result ↔ (self.now ≡ other.now) }
    {
        self.id == other.id && self.serial.0 == other.serial.0 && self.bytes == other.bytes
    }

    /// What it is looked for by.
    pub(crate) fn source(&self) -> Source
        ensures { result ≡ key_source self.now }
    {
        Source {
            id: self.id,
            serial: self.serial.0,
        }
    }

    /// The key to open records with, for which its kind is of no account. Each call derives what it opens with.
    pub(crate) fn opener(&self) -> Key<HolderK>
        ensures { result ≡ self.now }
    {
        Key::holder(HolderId(self.id), self.serial, self.bytes)
    }
}

/// Whether the link says that it begins at the key.
pub(crate) fn begins_at(link: &LinkRecord, key: &Key<HolderK>) -> bool
    ensures { IsTrue result ↔ BeginsAt link.now key.now }
{
    link.from_id == key.id() && link.from_serial.0 == key.serial().0
}

/// What a key is looked for by.
pub(crate) fn source_of_key(key: &Key<HolderK>) -> Source
    ensures { result ≡ key_source key.now }
{
    Source {
        id: key.id(),
        serial: key.serial().0,
    }
}
