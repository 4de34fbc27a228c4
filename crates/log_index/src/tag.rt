//! The tag by which an owner knows a checkpoint as its own.
ghost use Rattle.std.specs.Prelude.{◌≡◌, ◌↔◌, ◌++◌, length, IsTrue};
ghost use Rattle.hmac_seal.specs.Hmac as spec;
ghost use Rattle.log_index.specs.Plain.{index_tag_key};

use chacha_seal::{Key, OwnerK};
use hmac_seal::{hmac, tags_equal};

const FOR_INDEX: u8 = 6;

/// The tag of a file's head and its body, which is what stands before it.
#[tactic(auto, unfolding(crate::specs::Plain::index_tag_key))]
pub(crate) fn index_tag(owner: &Key<OwnerK>, head: &[u8], body: &[u8]) -> [u8; 32]
    ensures { result ≡ spec.hmac (index_tag_key owner.now.bytes) (head.now ++ body.now) }
{
    hmac(&hmac(owner.bytes(), &[FOR_INDEX], &[]), head, body)
}

/// Whether the bytes are the tag of a file's head and its body.
pub(crate) fn is_tagged(owner: &Key<OwnerK>, head: &[u8], body: &[u8], tag: &[u8]) -> bool
    requires { length tag.now ≡ 32 }
    ensures { IsTrue result ↔ (tag.now ≡ spec.hmac (index_tag_key owner.now.bytes) (head.now ++ body.now)) }
{
    let mut found = [0; 32];
    found.copy_from_slice(tag);
    tags_equal(&found, &index_tag(owner, head, body))
}
