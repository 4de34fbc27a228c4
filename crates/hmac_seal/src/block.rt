//! The key as HMAC uses it: one block of the hash.
ghost use Rattle.std.specs.Prelude.{◌≡◌, ◌≤◌, ◌-◌, ◌++◌, length, replicate};
ghost use Rattle.hmac_seal.specs.Hmac.{block_key, xor_each};

use sha2::{Digest, Sha256};

/// The bytes that SHA-256 takes at a time.
pub(crate) const BLOCK: usize = 64;

/// The key, hashed where it is longer than a block, with zero bytes behind it up to a block.
#[tactic(auto, unfolding(crate::specs::Hmac::block_key))]
pub(crate) fn key_block(key: &[u8]) -> [u8; BLOCK]
    ensures { result ≡ block_key key.now }
{
    if key.len() > BLOCK {
        zero_filled(&Sha256::digest(key))
    } else {
        zero_filled(key)
    }
}

fn zero_filled(key: &[u8]) -> [u8; BLOCK]
    requires { length key.now ≤ 64 }
    ensures { result ≡ key.now ++ replicate (64 - length key.now) 0 }
{
    let mut block = [0; BLOCK];
    block[..key.len()].copy_from_slice(key);
    block
}

/// The block with each byte xored with `pad`.
pub(crate) fn padded(mut block: [u8; BLOCK], pad: u8) -> [u8; BLOCK]
    ensures { result ≡ xor_each pad block }
{
    for byte in block.iter_mut() {
        *byte ^= pad;
    }
    block
}
