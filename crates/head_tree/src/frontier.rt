//! The root over leaves that come one by one, of which none is kept.
ghost use Rattle.std.specs.Prelude.{◌≡◌, ◌+◌, ◌<◌, ◌^◌, ℕ, List, [], ◌∷◌, ◌++◌, slice_index_or, None};
ghost use Rattle.head_tree.specs.Growing as spec;
ghost use Rattle.head_tree.specs.Growing.{Grown, IsRootOf};

use crate::hashing::node_hash;

/// As many as the bits of 2^32, the most leaves that a head can name.
pub(crate) const LEVELS: usize = 33;

/// The roots of the whole subtrees that the leaves so far make: at place i that of 2^i leaves, where their number has that bit. It takes
/// no memory, however many they are.
#[derive(Drop)]
pub struct Frontier {
    leaves: u64,
    roots: [[u8; 32]; LEVELS],
}

impl Frontier {
    /// No leaf was added.
    pub fn new() -> Frontier
        ensures { Grown result [] }
    {
        let roots = [[0; 32]; LEVELS];
        Frontier { leaves: 0, roots }
    }

    /// How many leaves were added.
    pub fn leaves(&self) -> u64
        ensures { result ≡ self.now.leaves }
    {
        self.leaves
    }

    /// Adds the hash of the next leaf. It hashes one node on average, and 32 at most.
    pub fn push(&mut self, leaf: [u8; 32])
        requires { self.old.leaves < 2 ^ 32 }
        ensures { (leaves : List (List ℕ)) → Grown self.old leaves → Grown self.new (leaves ++ leaf ∷ []) }
    {
        carry(&mut self.roots, self.leaves, leaf);
        self.leaves += 1;
    }

    /// The root over the leaves, and `None` before the first.
    pub fn root(&self) -> Option<[u8; 32]>
        ensures { (leaves : List (List ℕ)) → Grown self.now leaves → IsRootOf result leaves }
    {
        root_over(&self.roots, self.leaves)
    }

    /// The root of the last whole subtree of 2^level leaves, where the leaves' number has that bit.
    pub(crate) fn peak(&self, level: usize) -> [u8; 32]
        requires { level < 33 }
        ensures { result ≡ slice_index_or self.now.roots level [] }
    {
        self.roots[level]
    }
}

/// Joins a subtree's root to each of those that are as large, and puts what they make in the first free place.
fn carry(roots: &mut [[u8; 32]], leaves: u64, root: [u8; 32])
    ensures { roots.new ≡ spec.carried roots.old leaves root }
{
    let mut left = leaves;
    let mut joined = root;
    for place in roots.iter_mut() {
        if left % 2 == 0 {
            *place = joined;
            return;
        }
        joined = node_hash(place, &joined);
        left /= 2;
    }
}

/// The roots that count, joined from the smallest on.
fn root_over(roots: &[[u8; 32]], leaves: u64) -> Option<[u8; 32]>
    ensures { result ≡ spec.root_over roots.now leaves None }
{
    let mut left = leaves;
    let mut right = None;
    for root in roots {
        right = joined(root, left % 2 == 1, right);
        left /= 2;
    }
    right
}

/// A root with what stands to its right, where it counts.
#[tactic(auto, unfolding(crate::specs::Growing::joined, crate::specs::Growing::beside))]
fn joined(root: &[u8; 32], counts: bool, right: Option<[u8; 32]>) -> Option<[u8; 32]>
    ensures { result ≡ spec.joined root.now counts right }
{
    if !counts {
        return right;
    }
    match right {
        None => Some(*root),
        Some(right) => Some(node_hash(root, &right)),
    }
}
