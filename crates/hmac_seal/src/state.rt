//! The HMAC of a message that comes in parts.
ghost use Rattle.std.specs.Prelude.{◌≡◌, ℕ, List, [], ◌++◌};
ghost use Rattle.hmac_seal.specs.Hmac.{hmac};
ghost use Rattle.hmac_seal.specs.Holding.{Holds};
ghost use Rattle.sha2.specs.Hashers.{Holds256};

use crate::block::{key_block, padded};
use sha2::{Digest, Sha256};

const INNER_PAD: u8 = 0x36;

const OUTER_PAD: u8 = 0x5c;

/// A key and the part of a message that was added so far. It takes no memory.
#[derive(Drop)]
pub struct Hmac {
    inner: Sha256,
    outer: Sha256,
}

impl Hmac {
    /// The key and an empty message.
    pub fn start(key: &[u8]) -> Hmac
        ensures { Holds result key.now [] }
    {
        let block = key_block(key);
        let mut inner = Sha256::new();
        inner.update(padded(block, INNER_PAD));
        let mut outer = Sha256::new();
        outer.update(padded(block, OUTER_PAD));
        Hmac { inner, outer }
    }

    /// The same key and the same message so far, once more.
    pub fn copy(&self) -> Hmac
        ensures { (key message : List ℕ) → Holds self.now key message → Holds result key message }
    {
        Hmac {
            inner: same(&self.inner),
            outer: same(&self.outer),
        }
    }

    /// Adds `part` at the end of the message.
    pub fn add(&mut self, part: &[u8])
        ensures { (key message : List ℕ) → Holds self.old key message
            → Holds self.new key (message ++ part.now) }
    {
        self.inner.update(part);
    }

    /// The HMAC of the message under the key.
    pub fn end(self) -> [u8; 32]
        ensures { (key message : List ℕ) → Holds self key message → result ≡ hmac key message }
    {
        let mut outer = self.outer;
        outer.update(self.inner.finalize());
        outer.finalize()
    }

    /// The HMAC of the message with `a` and then `b` behind it. The message so far stays, and no more of the state is copied than
    /// the hashes write on.
    pub fn end_with(&self, a: &[u8], b: &[u8]) -> [u8; 32]
        ensures { (key message : List ℕ) → Holds self.now key message → result ≡ hmac key (message ++ (a.now ++ b.now)) }
    {
        let mut inner = same(&self.inner);
        inner.update(a);
        extend(&mut inner, b);
        let mut outer = same(&self.outer);
        outer.update(inner.finalize());
        outer.finalize()
    }
}

/// The hash as it stands, once more. A copy takes no memory, so that it can't fail.
fn same(hash: &Sha256) -> Sha256
    ensures { result ≡ hash.now }
{
    match hash.clone() {
        Ok(copy) => copy,
        Err(_) => unreachable!(),
    }
}

/// Adds the part to what is hashed. An update costs as much where there is nothing to add.
fn extend(hash: &mut Sha256, part: &[u8])
    ensures { (message : List ℕ) → Holds256 hash.old message → Holds256 hash.new (message ++ part.now) }
{
    if !part.is_empty() {
        hash.update(part);
    }
}
