//! What is derived from a key by HMAC. The first byte of each message says what for.
ghost use Rattle.std.specs.Prelude.{◌≡◌};
ghost use Rattle.chacha_seal.specs.Sealing as spec;

use crate::{Key, OwnerK};
use hmac_seal::{Hmac, hmac};
use std::marker::Model;

const FOR_CIPHER: u8 = 1;

const FOR_TAG: u8 = 2;

const FOR_CHECK: u8 = 4;

const FOR_OWNER_TAG: u8 = 5;

/// The two keys that a key's bytes derive, one for the stream and one for tags. Contracts see the bytes.
#[derive(Drop)]
pub(crate) struct SealKeys {
    bytes: [u8; 32],
    cipher: [u8; 32],
    tag: [u8; 32],
}

impl Model for SealKeys {
    ghost use Rattle.std.specs.Prelude.{◌≡◌, ℕ, List};
    ghost use Rattle.chacha_seal.specs.Sealing.{cipher_key, tag_key};

    ghost Value = { List ℕ };

    ghost view = { λ keys. keys.bytes };

    ghost invariant = { λ keys. (keys.cipher ≡ cipher_key keys.bytes) × (keys.tag ≡ tag_key keys.bytes) };
}

impl SealKeys {
    /// Derives both keys from one start, since HMAC takes the key in first.
    #[tactic(auto, unfolding(crate::specs::Sealing::cipher_key, crate::specs::Sealing::tag_key))]
    pub(crate) fn of(bytes: &[u8; 32]) -> SealKeys
        ensures { result ≡ bytes.now }
    {
        let key = Hmac::start(bytes);
        SealKeys {
            bytes: *bytes,
            cipher: key.end_with(&[FOR_CIPHER], &[]),
            tag: key.end_with(&[FOR_TAG], &[]),
        }
    }

    /// The bytes that they were derived of.
    pub(crate) fn bytes(&self) -> &[u8; 32]
        ensures { result.now ≡ self.now }
    {
        &self.bytes
    }

    /// What the key seals with, its tags begun.
    pub(crate) fn begun(&self) -> Derived
        ensures { result ≡ self.now }
    {
        Derived {
            bytes: self.bytes,
            cipher: self.cipher,
            tag: Hmac::start(&self.tag),
        }
    }
}

/// What the bytes of a key are sealed with. Contracts see the bytes.
#[derive(Drop)]
pub(crate) struct Derived {
    bytes: [u8; 32],
    cipher: [u8; 32],
    tag: Hmac,
}

impl Model for Derived {
    ghost use Rattle.std.specs.Prelude.{◌≡◌, ℕ, List, []};
    ghost use Rattle.hmac_seal.specs.Holding.{Holds};
    ghost use Rattle.chacha_seal.specs.Sealing.{cipher_key, tag_key};

    ghost Value = { List ℕ };

    ghost view = { λ derived. derived.bytes };

    ghost invariant = { λ derived. (derived.cipher ≡ cipher_key derived.bytes) × Holds derived.tag (tag_key derived.bytes) [] };
}

impl Derived {
    /// The bytes that it was derived of.
    pub(crate) fn bytes(&self) -> &[u8; 32]
        ensures { result.now ≡ self.now }
    {
        &self.bytes
    }

    /// The key of the stream that one seals with.
    pub(crate) fn cipher(&self) -> [u8; 32]
        ensures { result ≡ spec.cipher_key self.now }
    {
        self.cipher
    }

    /// The tag of a header and the cipher bytes behind it.
    #[tactic(auto, unfolding(crate::specs::Sealing::seal_tag))]
    pub(crate) fn tag(&self, header: &[u8], cipher: &[u8]) -> [u8; 32]
        ensures { result ≡ spec.seal_tag self.now header.now cipher.now }
    {
        self.tag.end_with(header, cipher)
    }
}

/// What is published of an owner's or a holder's key, to tell a wrong one by (docs/FORMAT.md).
#[tactic(auto, unfolding(crate::specs::Sealing::check_of))]
pub fn check_of(key: &[u8; 32]) -> [u8; 32]
    ensures { result ≡ spec.check_of key.now }
{
    hmac(key, &[FOR_CHECK], &[])
}

/// The key of the tags that chain the batches (docs/FORMAT.md).
#[tactic(auto, unfolding(crate::specs::Sealing::owner_tag_key))]
pub(crate) fn owner_tag_key(owner: &Key<OwnerK>) -> [u8; 32]
    ensures { result ≡ spec.owner_tag_key owner.now.bytes }
{
    hmac(owner.bytes(), &[FOR_OWNER_TAG], &[])
}
