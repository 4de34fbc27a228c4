//! Opening what was sealed.
ghost use Rattle.std.specs.Prelude.{◌≡◌, ℕ, List, ◌↔◌, IsOk, IfOk, OnOk, OnErr};
ghost use Rattle.chacha_seal.specs.Sealing.{sealed, seal_tag};

use crate::Key;
use crate::derived::Derived;
use crate::stream::xor_stream;
use cry_base::Serial;
use hmac_seal::tags_equal;
use thiserror::Error;

/// The tag isn't the one that the key makes of the header and the cipher bytes.
#[derive(Clone, Copy, Debug, PartialEq, Eq, Error)]
#[error("bad tag")]
pub struct BadTag;

/// Makes cipher bytes the text that was sealed, where `tag` is the one of `header` and these
/// (docs/FORMAT.md). `BadTag` comes exactly where it isn't; the bytes are then as they were.
pub fn open_in_place<K>(
    key: &Key<K>,
    nonce: u64,
    header: &[u8],
    text: &mut [u8],
    tag: &[u8; 32],
) -> Result<(), BadTag>
    ensures authentic { IsOk result ↔ (tag.now ≡ seal_tag key.now.bytes header.now text.old) }
    ensures opened { OnOk result (text.new ≡ sealed key.now.bytes nonce text.old) }
    ensures inverse { (plain : List ℕ) → text.old ≡ sealed key.now.bytes nonce plain
        → OnOk result (text.new ≡ plain) }
    ensures bad_tag { OnErr result (text.new ≡ text.old) }
{
    let kept = key.take_kept();
    let opened = match kept.derived(key.bytes()) {
        Some(derived) => open_with(derived, nonce, header, text, tag),
        None => open_with(&kept.derive(key.bytes()), nonce, header, text, tag),
    };
    key.put_back(kept);
    opened
}

/// The same, by what was derived from the key.
#[tactic(auto, unfolding(crate::specs::Sealing::sealed))]
fn open_with(
    derived: &Derived,
    nonce: u64,
    header: &[u8],
    text: &mut [u8],
    tag: &[u8; 32],
) -> Result<(), BadTag>
    ensures authentic { IsOk result ↔ (tag.now ≡ seal_tag derived.now header.now text.old) }
    ensures opened { OnOk result (text.new ≡ sealed derived.now nonce text.old) }
    ensures inverse { (plain : List ℕ) → text.old ≡ sealed derived.now nonce plain
        → OnOk result (text.new ≡ plain) }
    ensures bad_tag { OnErr result (text.new ≡ text.old) }
{
    if !tags_equal(&derived.tag(header, text), tag) {
        return Err(BadTag);
    }
    xor_stream(derived.cipher(), nonce, text);
    Ok(())
}

/// The key with this id and serial whose bytes were sealed under the key `from` (docs/FORMAT.md).
/// `BadTag` comes exactly where `tag` isn't the one of `header` and the cipher bytes.
pub fn open_key<A, B>(
    from: &Key<A>,
    nonce: u64,
    header: &[u8],
    cipher: [u8; 32],
    tag: &[u8; 32],
    id: u32,
    serial: Serial,
) -> Result<Key<B>, BadTag>
    ensures authentic { IsOk result ↔ (tag.now ≡ seal_tag from.now.bytes header.now cipher) }
    ensures opened { IfOk result (λ key. key
        ≡ record { id = id; serial = serial.0; bytes = sealed from.now.bytes nonce cipher }) }
    ensures inverse { (bytes : List ℕ) → cipher ≡ sealed from.now.bytes nonce bytes
        → IfOk result (λ key. key.bytes ≡ bytes) }
{
    let mut bytes = cipher;
    open_in_place(from, nonce, header, &mut bytes, tag)?;
    Ok(Key::of_parts(id, serial, bytes))
}
