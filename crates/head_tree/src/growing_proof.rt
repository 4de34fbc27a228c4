//! The proof that a log begins with its first leaves, while its leaves come one by one. None of them is kept.
ghost use Rattle.std.specs.Prelude.{◌≡◌, ◌+◌, ◌<◌, ◌≤◌, ◌^◌, ℕ, [], ◌∷◌, ◌++◌, length, IfOk};
ghost use Rattle.head_tree.specs.Climbing.{Hashes, IsBehind, IsGrown};
ghost use Rattle.head_tree.specs.Proving.{tree_proof};

use crate::climb::Climb;
use crate::frontier::Frontier;
use cry_base::{List, Mem};
use std::alloc::Global;

/// A proof as far as the leaves so far tell it. It keeps the roots of the whole subtrees that the older log's leaves make, those of the
/// leaves behind the subtree that `climb` has come to, and the proof.
#[derive(Drop)]
pub struct GrowingProof {
    first: u64,
    leaves: u64,
    before: Frontier,
    climb: Climb,
    after: Frontier,
}

impl GrowingProof {
    /// For one who has the head over a log's first `batches` batches. It takes all the memory that the proof needs.
    pub fn new(alloc: Global, batches: u32) -> Mem<GrowingProof>
        ensures { IfOk result (λ proof. IsGrown proof (batches + 1) []) }
    {
        let first = u64::from(batches) + 1;
        let climb = Climb::new(alloc, first)?;
        Ok(GrowingProof {
            first,
            leaves: 0,
            before: Frontier::new(),
            climb,
            after: Frontier::new(),
        })
    }

    /// Adds the hash of the next leaf. It hashes one node on average, and 32 at most, and takes no memory.
    pub fn push(&mut self, leaf: [u8; 32])
        requires few { self.old.leaves < 2 ^ 32 }
        requires known { (first : ℕ) × ((leaves : Hashes) × IsGrown self.old first leaves) }
        ensures { (first : ℕ) (leaves : Hashes) → IsGrown self.old first leaves → IsGrown self.new first (leaves ++ leaf ∷ []) }
    {
        self.leaves += 1;
        if self.leaves > self.first {
            push_behind(&mut self.climb, &self.before, &mut self.after, leaf);
            return;
        }
        self.before.push(leaf);
        if self.leaves == self.first {
            self.climb.begin(&self.before);
        }
    }

    /// The proof, where no leaf is to come. It hashes 32 nodes at most, and takes no memory.
    pub fn proof(self, alloc: Global) -> List<[u8; 32]>
        requires { (first : ℕ) × ((leaves : Hashes) × IsGrown self first leaves × (first ≤ length leaves)) }
        ensures { (first : ℕ) (leaves : Hashes) → IsGrown self first leaves → first ≤ length leaves
            → result.items ≡ tree_proof first leaves }
    {
        if self.leaves == self.first {
            return List::new(alloc);
        }
        let GrowingProof {
            before,
            mut climb,
            after,
            ..
        } = self;
        climb.rise(after.root());
        climb.finish(&before);
        climb.into_proof()
    }
}

/// One leaf more behind the older log's. Where it makes the subtree's sibling whole, this climbs past it.
fn push_behind(climb: &mut Climb, peaks: &Frontier, after: &mut Frontier, leaf: [u8; 32])
    requires { (first : ℕ) × ((leaves : Hashes) × IsBehind climb.old peaks.now.roots after.old first leaves × (length leaves < 2 ^ 32)) }
    ensures { (first : ℕ) (leaves : Hashes) → IsBehind climb.old peaks.now.roots after.old first leaves → length leaves < 2 ^ 32
        → IsBehind climb.new peaks.now.roots after.new first (leaves ++ leaf ∷ []) }
{
    after.push(leaf);
    if after.leaves() < climb.size() {
        return;
    }
    climb.rise(after.root());
    climb.pass_lefts(peaks);
    *after = Frontier::new();
}
