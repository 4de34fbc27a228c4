//! Keys, and keys whose serial isn't settled yet.
ghost use Rattle.std.specs.Prelude.{◌≡◌, length};

use crate::kept::Kept;
use crate::{HolderK, Nonce, OwnerK};
use cry_base::{HolderId, Serial};
use std::alloc::Global;
use std::cell::Cell;
use std::fmt;
use std::marker::{Model, PhantomData};

/// 32 secret bytes of one kind, with the number of the folder, file or holder whose key they are (0
/// for the owner's), and with the key's serial. What it seals and tags with is derived for each use, unless the key was told to keep
/// that.
pub struct Key<K> {
    id: u32,
    serial: Serial,
    bytes: [u8; 32],
    kept: Cell<Kept>,
    kind: PhantomData<K>,
}

impl<K> Model for Key<K> {
    ghost use Rattle.std.specs.Prelude.{◌≡◌, length};
    ghost use Rattle.chacha_seal.specs.Keys.{KeyParts};

    ghost Value = { KeyParts };

    ghost view = { λ key. record { id = key.id; serial = key.serial.0; bytes = key.bytes } };

    ghost invariant = { λ key. length key.bytes ≡ 32 };
}

impl Key<OwnerK> {
    /// The owner's key. It has the id 0 and the serial 0.
    pub fn owner(bytes: [u8; 32]) -> Key<OwnerK>
        ensures { result ≡ record { id = 0; serial = 0; bytes = bytes } }
    {
        Key::of_parts(0, Serial(0), bytes)
    }
}

impl Key<HolderK> {
    /// A holder's key, as a bundle has it.
    pub fn holder(holder: HolderId, serial: Serial, bytes: [u8; 32]) -> Key<HolderK>
        ensures { result ≡ record { id = holder.0; serial = serial.0; bytes = bytes } }
    {
        Key::of_parts(holder.0, serial, bytes)
    }
}

impl<K> Key<K> {
    pub(crate) fn of_parts(id: u32, serial: Serial, bytes: [u8; 32]) -> Key<K>
        ensures { result ≡ record { id = id; serial = serial.0; bytes = bytes } }
    {
        Key {
            id,
            serial,
            bytes,
            kept: Cell::new(Kept::Nothing),
            kind: PhantomData,
        }
    }

    /// The number of the folder, file or holder whose key this is. The owner's has 0.
    pub fn id(&self) -> u32
        ensures { result ≡ self.now.id }
    {
        self.id
    }

    /// The serial that the key was made with. The owner's has 0.
    pub fn serial(&self) -> Serial
        ensures { result.0 ≡ self.now.serial }
    {
        self.serial
    }

    /// Derives what it seals with, and keeps that for all later uses. Where there is no memory, each use derives it anew.
    pub fn keep_derived(&self, alloc: Global) {
        let kept = self.take_kept().with_derived(alloc, &self.bytes);
        self.put_back(kept);
    }

    /// The same, but keeps what tags begin with, which is two thirds of it, from the second call on.
    pub fn keep_seal_keys(&self, alloc: Global) {
        let kept = self.take_kept().with_use(alloc, &self.bytes);
        self.put_back(kept);
    }

    /// Takes out what is kept, to be put back behind its use.
    pub(crate) fn take_kept(&self) -> Kept {
        self.kept.replace(Kept::Nothing)
    }

    /// Keeps it.
    pub(crate) fn put_back(&self, kept: Kept) {
        self.kept.set(kept);
    }

    /// The secret bytes.
    pub fn bytes(&self) -> &[u8; 32]
        ensures bytes { result.now ≡ self.now.bytes }
        ensures long { length self.now.bytes ≡ 32 }
    {
        &self.bytes
    }
}

// By hand, so that a drop of whatever has keys in it tells nothing of what they keep.
impl<K> Drop for Key<K> {
    fn drop(self) {
        let Key {
            id: _,
            serial: _,
            bytes: _,
            kept,
            kind: _,
        } = self;
        drop(kept);
    }
}

// The secret bytes are not shown.
impl<K> fmt::Debug for Key<K> {
    fn fmt<W: fmt::Write>(&self, f: &mut fmt::Formatter<W>) -> fmt::Result {
        write!(
            f,
            "Key {{ id: {}, serial: {}, .. }}",
            self.id, self.serial.0
        )
    }
}

/// A key that is drawn for a role and must be settled there, or discarded. It is not `Drop`.
pub struct FreshKey<K> {
    id: u32,
    serial: u64,
    bytes: [u8; 32],
    kind: PhantomData<K>,
}

impl<K> Model for FreshKey<K> {
    ghost use Rattle.chacha_seal.specs.Keys.{KeyParts};

    ghost Value = { KeyParts };

    ghost view = { λ key. record { id = key.id; serial = key.serial; bytes = key.bytes } };
}

impl<K> FreshKey<K> {
    /// A key of bytes that were drawn at random. It spends the serial.
    pub fn from_draw(id: u32, nonce: Nonce, bytes: [u8; 32]) -> FreshKey<K>
        ensures { result ≡ record { id = id; serial = nonce; bytes = bytes } }
    {
        FreshKey {
            id,
            serial: nonce.spend(),
            bytes,
            kind: PhantomData,
        }
    }

    /// The key of its role from now on.
    pub fn settle(self) -> Key<K>
        ensures { result ≡ self }
    {
        let FreshKey {
            id,
            serial,
            bytes,
            kind: _,
        } = self;
        Key::of_parts(id, Serial(serial), bytes)
    }

    /// Gives the key up, and its serial with it.
    pub fn discard(self) {
        let FreshKey {
            id: _,
            serial: _,
            bytes: _,
            kind: _,
        } = self;
    }
}
