//! What the leaves of a log tell of the proof that it begins with its first batches, as they come one by one.
ghost use Rattle.std.specs.Prelude.{◌≡◌, ◌+◌, ◌<◌, ℕ, List, [], ◌∷◌, ◌++◌, IfOk};
ghost use Rattle.head_tree.specs.Hashing as spec;
ghost use Rattle.log_heads.specs.Proving.{IsProofSoFar, IsPublished};

use crate::published::PublishedProof;
use cry_base::Mem;
use head_tree::{GrowingProof, leaf_hash};
use std::alloc::Global;

/// The proof behind so many batches.
#[derive(Drop)]
pub(crate) struct ProofSoFar {
    growing: GrowingProof,
    batches: u32,
    wanted: u32,
}

impl ProofSoFar {
    /// Before the first batch. The proof is for whoever has the head over the first `wanted` batches.
    pub(crate) fn new(alloc: Global, wanted: u32, front: &[u8]) -> Mem<ProofSoFar>
        ensures so_far { IfOk result (λ proof. IsProofSoFar proof (spec.leaf_hash front.now ∷ [])) }
        ensures wanted { IfOk result (λ proof. proof.wanted ≡ wanted) }
        ensures batches { IfOk result (λ proof. proof.batches ≡ 0) }
    {
        let mut growing = GrowingProof::new(alloc, wanted)?;
        growing.push(leaf_hash(front));
        Ok(ProofSoFar {
            growing,
            batches: 0,
            wanted,
        })
    }

    /// One batch more, of this leaf.
    pub(crate) fn push(&mut self, leaf: &[u8])
        requires few { self.old.batches < 4294967295 }
        requires known { (hashes : List (List ℕ)) × IsProofSoFar self.old hashes }
        ensures so_far { (hashes : List (List ℕ)) → IsProofSoFar self.old hashes
            → IsProofSoFar self.new (hashes ++ spec.leaf_hash leaf.now ∷ []) }
        ensures wanted { self.new.wanted ≡ self.old.wanted }
        ensures batches { self.new.batches ≡ self.old.batches + 1 }
    {
        self.growing.push(leaf_hash(leaf));
        self.batches += 1;
    }

    /// What is told, where the log has no batch more.
    pub(crate) fn published(self, alloc: Global) -> PublishedProof
        requires known { (hashes : List (List ℕ)) × IsProofSoFar self hashes }
        ensures { (hashes : List (List ℕ)) → IsProofSoFar self hashes → IsPublished result self.wanted hashes }
    {
        let ProofSoFar {
            growing,
            batches,
            wanted,
        } = self;
        if batches < wanted {
            return PublishedProof {
                batches,
                proof: None,
            };
        }
        PublishedProof {
            batches,
            proof: Some(growing.proof(alloc)),
        }
    }
}
