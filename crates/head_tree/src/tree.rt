//! The tree over a log's leaves, kept as the hash of each leaf.
ghost use Rattle.std.specs.Prelude.{◌≡◌, ◌+◌, ◌<◌, ◌≤◌, ℕ, List, [], ◌∷◌, ◌++◌, length, OnOk, OnErr, IfOk};
ghost use Rattle.head_tree.specs.Hashing.{tree_hash};
ghost use Rattle.head_tree.specs.Proving.{part_proof, tree_proof};
ghost use Rattle.head_tree.specs.Heads.{IsHead, LeadsOn};

use crate::Head;
use crate::hashing::{node_hash, split_of};
use cry_base::{List, Mem};
use std::alloc::Global;
use std::marker::Model;

/// The hashes of a log's leaves in order.
#[derive(Drop)]
pub struct LogTree {
    leaves: List<[u8; 32]>,
}

impl Model for LogTree {
    ghost Value = { List (List ℕ) };

    ghost view = { λ t. t.leaves.items };
}

impl LogTree {
    /// A tree without leaves. It takes no memory.
    pub fn new(alloc: Global) -> LogTree
        ensures { result ≡ [] }
    {
        LogTree {
            leaves: List::new(alloc),
        }
    }

    /// Adds the hash of the next leaf. At `Err` the tree is as it was.
    pub fn push(&mut self, leaf: [u8; 32]) -> Mem<()>
        ensures added { OnOk result (self.new ≡ self.old ++ leaf ∷ []) }
        ensures err { OnErr result (self.new ≡ self.old) }
    {
        self.leaves.push(leaf)
    }

    /// The head over the first `batches` batches. It takes no memory, and hashes each pair of nodes once.
    pub fn head(&self, batches: u32) -> Head
        requires { batches < length self.now }
        ensures { IsHead result batches self.now }
    {
        let leaves = self.leaves.as_slice();
        let root = root_of(&leaves[..batches as usize + 1]);
        Head { batches, root }
    }

    /// The proof that the log begins with its first `batches` batches, for one who has the head over these (RFC 6962, section 2.1.2).
    #[tactic(auto, unfolding(crate::specs::Proving::tree_proof))]
    pub fn prove(&self, alloc: Global, batches: u32) -> Mem<List<[u8; 32]>>
        requires { batches < length self.now }
        ensures exact { IfOk result (λ proof. proof.items ≡ tree_proof (batches + 1) self.now) }
        ensures accepted { IfOk result (λ proof. LeadsOn self.now batches proof.items) }
    {
        let mut proof = List::new(alloc);
        add_proof(
            &mut proof,
            batches as usize + 1,
            self.leaves.as_slice(),
            true,
        )?;
        Ok(proof)
    }
}

/// The root over the leaves' hashes.
fn root_of(leaves: &[[u8; 32]]) -> [u8; 32]
    requires { 0 < length leaves.now }
    ensures { result ≡ tree_hash leaves.now }
{
    if leaves.len() == 1 {
        return leaves[0];
    }
    let split = split_of(leaves.len() as u64) as usize;
    let (left, right) = leaves.split_at(split);
    node_hash(&root_of(left), &root_of(right))
}

/// Adds the proof for the first `count` of the leaves. They are `whole` where they begin the log, so that the reader has the root over
/// all of them.
fn add_proof(proof: &mut List<[u8; 32]>, count: usize, leaves: &[[u8; 32]], whole: bool) -> Mem<()>
    requires positive { 0 < count }
    requires within { count ≤ length leaves.now }
    ensures { OnOk result (proof.new.items ≡ proof.old.items ++ part_proof count leaves.now whole) }
{
    if count == leaves.len() {
        if !whole {
            proof.push(root_of(leaves))?;
        }
        return Ok(());
    }
    let split = split_of(leaves.len() as u64) as usize;
    let (left, right) = leaves.split_at(split);
    if count <= split {
        add_proof(proof, count, left, whole)?;
        proof.push(root_of(right))?;
    } else {
        add_proof(proof, count - split, right, false)?;
        proof.push(root_of(left))?;
    }
    Ok(())
}
