//! An owner's key as a log uses it.
ghost use Rattle.std.specs.Prelude.{◌≡◌, [], ◌∷◌, ◌++◌};
ghost use Rattle.std.specs.Int.{w32, to_be_bytes};
ghost use Rattle.hmac_seal.specs.Holding.{Holds};
ghost use Rattle.chacha_seal.specs.Sealing.{owner_tag_key, veil_of};

use crate::derived::owner_tag_key;
use crate::{Key, OwnerK};
use cry_base::Epoch;
use hmac_seal::Hmac;
use std::marker::Model;

const FOR_VEIL: u8 = 3;

/// An owner's key, with what its veil keys and its owner tags begin with: each batch of a log takes both. Contracts see the key.
#[derive(Drop)]
pub struct LogKey {
    key: Key<OwnerK>,
    veils: Hmac,
    tags: Hmac,
}

impl Model for LogKey {
    ghost use Rattle.std.specs.Prelude.{[]};
    ghost use Rattle.hmac_seal.specs.Holding.{Holds};
    ghost use Rattle.chacha_seal.specs.Keys.{KeyParts};
    ghost use Rattle.chacha_seal.specs.Sealing.{owner_tag_key};

    ghost Value = { KeyParts };

    ghost view = { λ k. k.key };

    ghost invariant = { λ k. Holds k.veils k.key.bytes [] × Holds k.tags (owner_tag_key k.key.bytes) [] };
}

impl LogKey {
    /// That of an owner's key.
    pub fn of(owner: &Key<OwnerK>) -> LogKey
        ensures { result ≡ owner.now }
    {
        LogKey {
            key: Key::of_parts(owner.id(), owner.serial(), *owner.bytes()),
            veils: Hmac::start(owner.bytes()),
            tags: Hmac::start(&owner_tag_key(owner)),
        }
    }

    /// The secret bytes.
    pub fn bytes(&self) -> &[u8; 32]
        ensures { result.now ≡ self.now.bytes }
    {
        self.key.bytes()
    }

    /// The start of a tag by which the owner chains a batch to those before it (docs/FORMAT.md).
    pub fn tag_start(&self) -> Hmac
        ensures { Holds result (owner_tag_key self.now.bytes) [] }
    {
        self.tags.copy()
    }

    /// The key that the payload of batch `number` is masked under, in this epoch (docs/FORMAT.md).
    #[tactic(auto, unfolding(crate::specs::Sealing::veil_of))]
    pub fn veil_key(&self, epoch: Epoch, number: u32) -> [u8; 32]
        ensures { result ≡ veil_of self.now.bytes epoch.0 number }
    {
        self.veils.end_with(&veil_message(epoch, number), &[])
    }
}

/// The message whose HMAC under an owner's key is a veil key. It is added whole, since each part that is added costs a call.
fn veil_message(epoch: Epoch, number: u32) -> [u8; 9]
    ensures { result ≡ 3 ∷ to_be_bytes w32 epoch.0 ++ to_be_bytes w32 number }
{
    let mut message = [FOR_VEIL; 9];
    message[1..5].copy_from_slice(&epoch.0.to_be_bytes());
    message[5..].copy_from_slice(&number.to_be_bytes());
    message
}
