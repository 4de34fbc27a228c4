//! Sealing under a key, and masking under a veil.
ghost use Rattle.std.specs.Prelude.{◌≡◌, ℕ, List};
ghost use Rattle.chacha_seal.specs.Sealing.{sealed, seal_tag, masked};

use crate::derived::Derived;
use crate::stream::xor_stream;
use crate::{Key, Nonce};

/// Makes the text its cipher bytes, and answers the tag of `header` and these (docs/FORMAT.md). It
/// spends the nonce.
pub fn seal_in_place<K>(key: &Key<K>, nonce: Nonce, header: &[u8], text: &mut [u8]) -> [u8; 32]
    ensures cipher { text.new ≡ sealed key.now.bytes nonce text.old }
    ensures tag { result ≡ seal_tag key.now.bytes header.now text.new }
{
    let nonce = nonce.spend();
    let kept = key.take_kept();
    let tag = match kept.derived(key.bytes()) {
        Some(derived) => seal_with(derived, nonce, header, text),
        None => seal_with(&kept.derive(key.bytes()), nonce, header, text),
    };
    key.put_back(kept);
    tag
}

/// The same, by what was derived from the key.
#[tactic(auto, unfolding(crate::specs::Sealing::sealed))]
fn seal_with(derived: &Derived, nonce: u64, header: &[u8], text: &mut [u8]) -> [u8; 32]
    ensures cipher { text.new ≡ sealed derived.now nonce text.old }
    ensures tag { result ≡ seal_tag derived.now header.now text.new }
{
    xor_stream(derived.cipher(), nonce, text);
    derived.tag(header, text)
}

/// Lays the veil over a payload, or takes it away (docs/FORMAT.md): it is its own inverse.
#[tactic(auto, unfolding(crate::specs::Sealing::masked))]
pub fn mask_in_place(veil: &[u8; 32], text: &mut [u8])
    ensures masked { text.new ≡ masked veil.now text.old }
    ensures inverse { (payload : List ℕ) → text.old ≡ masked veil.now payload → text.new ≡ payload }
{
    xor_stream(*veil, 0, text);
}
