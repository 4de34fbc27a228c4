//! The hashes of the tree, and its shape (RFC 6962, section 2.1).
ghost use Rattle.std.specs.Prelude.{◌≡◌, ◌<◌};
ghost use Rattle.head_tree.specs.Hashing as spec;
ghost use Rattle.head_tree.specs.Hashing.{IsSplit};

use sha2::{Digest, Sha256};

/// The byte before a leaf that is hashed, so that no leaf's text is a node's.
const LEAF: u8 = 0;

/// The byte before the two hashes of a node.
const NODE: u8 = 1;

/// The hash of a leaf's bytes (RFC 6962, section 2.1).
#[tactic(auto, unfolding(crate::specs::Hashing::leaf_hash, crate::specs::Hashing::leaf_text))]
pub fn leaf_hash(leaf: &[u8]) -> [u8; 32]
    ensures { result ≡ spec.leaf_hash leaf.now }
{
    let mut hash = Sha256::new();
    hash.update([LEAF]);
    hash.update(leaf);
    hash.finalize()
}

/// The hash of a node over two hashes.
#[tactic(auto, unfolding(crate::specs::Hashing::node_hash, crate::specs::Hashing::node_text))]
pub(crate) fn node_hash(left: &[u8; 32], right: &[u8; 32]) -> [u8; 32]
    ensures { result ≡ spec.node_hash left.now right.now }
{
    let mut hash = Sha256::new();
    hash.update([NODE]);
    hash.update(*left);
    hash.update(*right);
    hash.finalize()
}

/// The largest power of two below a number of leaves: how many of them stand below the root's left child.
pub(crate) fn split_of(leaves: u64) -> u64
    requires { 1 < leaves }
    ensures { IsSplit result leaves }
{
    let mut split = 1;
    while split < leaves - split {
        split *= 2;
    }
    split
}
