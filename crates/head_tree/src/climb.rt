//! A proof on its way up the tree.
ghost use Rattle.std.specs.Prelude.{◌≡◌, ◌+◌, ◌%◌, ◌^◌, ◌<◌, ◌≤◌, ℕ, IfOk};
ghost use Rattle.head_tree.specs.Climbing.{Begins, CanClimb, CanFinish, Climbs, Hashes, Rises, StartsAt, left_of};
ghost use Rattle.head_tree.specs.Growing.{Grown};
ghost use Rattle.head_tree.specs.Proving.{tree_proof};

use crate::frontier::{Frontier, LEVELS};
use cry_base::{List, Mem};
use std::alloc::Global;

/// A hash for each level, and the one that a proof begins with.
const MOST: usize = LEVELS + 1;

/// The part of a proof that lies in one subtree: of those of its size it has the last of the older log's leaves.
#[derive(Drop)]
pub(crate) struct Climb {
    level: usize,
    size: u64,
    before: u64,
    proof: List<[u8; 32]>,
}

impl Climb {
    /// In the largest subtree that ends with the older log's leaves. It takes the memory for the whole proof.
    pub(crate) fn new(alloc: Global, first: u64) -> Mem<Climb>
        requires some { 0 < first }
        requires most { first ≤ 2 ^ 32 }
        ensures { IfOk result (λ climb. StartsAt climb first) }
    {
        let mut proof = List::new(alloc);
        proof.reserve(MOST)?;
        let mut level = 0;
        let mut size = 1;
        let mut count = first;
        while count % 2 == 0 {
            level += 1;
            size *= 2;
            count /= 2;
        }
        let before = count - 1;
        Ok(Climb {
            level,
            size,
            before,
            proof,
        })
    }

    /// How many leaves the subtree has.
    pub(crate) fn size(&self) -> u64
        ensures { result ≡ self.now.size }
    {
        self.size
    }

    /// Puts down the subtree's own root, unless it begins the log: then it is the older log's root, which the reader has.
    pub(crate) fn begin(&mut self, peaks: &Frontier)
        requires starts { StartsAt self.old peaks.now.leaves }
        requires most { peaks.now.leaves ≤ 2 ^ 32 }
        requires known { (leaves : Hashes) × Grown peaks.now leaves }
        ensures { (leaves : Hashes) → Grown peaks.now leaves → Begins self.old self.new peaks.now.roots leaves }
    {
        if self.before > 0 {
            self.proof.put(peaks.peak(self.level));
        }
    }

    /// One level up, past the sibling of the subtree, where there is one.
    pub(crate) fn rise(&mut self, sibling: Option<[u8; 32]>)
        requires size { self.old.size ≤ 2 ^ 32 }
        requires level { self.old.level ≤ 32 }
        requires room { 33 ≤ self.old.proof.spare + self.old.level }
        ensures { Rises self.old self.new sibling }
    {
        self.level += 1;
        self.size *= 2;
        self.before /= 2;
        if let Some(hash) = sibling {
            self.proof.put(hash);
        }
    }

    /// Up to the next subtree that stands to the left of its sibling.
    pub(crate) fn pass_lefts(&mut self, peaks: &Frontier)
        requires { (first : ℕ) × ((leaves : Hashes) × CanClimb self.old peaks.now.roots first leaves) }
        ensures { (first : ℕ) (leaves : Hashes) → CanClimb self.old peaks.now.roots first leaves
            → Climbs self.old self.new peaks.now.roots first leaves }
    {
        while self.before % 2 == 1 {
            self.rise(Some(peaks.peak(self.level)));
        }
    }

    /// Up to the tree, where no leaf stands behind the subtree.
    pub(crate) fn finish(&mut self, peaks: &Frontier)
        requires { (first : ℕ) × ((leaves : Hashes) × CanFinish self.old peaks.now.roots first leaves) }
        ensures { (first : ℕ) (leaves : Hashes) → CanFinish self.old peaks.now.roots first leaves
            → self.new.proof.items ≡ tree_proof first leaves }
    {
        while self.before > 0 {
            self.rise(self.left(peaks));
        }
    }

    /// The root of the sibling, where it stands to the left.
    fn left(&self, peaks: &Frontier) -> Option<[u8; 32]>
        requires { self.now.before % 2 ≡ 1 → self.now.level < 33 }
        ensures { result ≡ left_of self.now peaks.now.roots }
    {
        if self.before % 2 == 1 {
            Some(peaks.peak(self.level))
        } else {
            None
        }
    }

    /// The proof.
    pub(crate) fn into_proof(self) -> List<[u8; 32]>
        ensures { result.items ≡ self.proof.items }
    {
        let Climb { proof, .. } = self;
        proof
    }
}
