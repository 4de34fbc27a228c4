//! What the leaves of a log tell of its heads, as they come one by one.
ghost use Rattle.std.specs.Prelude.{◌≡◌, ◌+◌, ◌<◌, ℕ, List, [], ◌∷◌, ◌++◌, length};
ghost use Rattle.head_tree.specs.Growing.{Grown};
ghost use Rattle.head_tree.specs.Hashing as spec;
ghost use Rattle.head_tree.specs.Heads.{IsHead};
ghost use Rattle.log_heads.specs.Reading.{AreHeads, AreSoFar};

use crate::reading::Heads;
use head_tree::{Frontier, Head, leaf_hash};

/// The heads behind so many batches.
#[derive(Drop)]
pub(crate) struct HeadsSoFar {
    frontier: Frontier,
    batches: u32,
    wanted: u32,
    first: Option<Head>,
}

impl HeadsSoFar {
    /// Before the first batch. The head over the first `wanted` batches is to be told too.
    pub(crate) fn new(wanted: u32, front: &[u8]) -> HeadsSoFar
        ensures so_far { AreSoFar result (spec.leaf_hash front.now ∷ []) }
        ensures wanted { result.wanted ≡ wanted }
        ensures batches { result.batches ≡ 0 }
    {
        let mut frontier = Frontier::new();
        frontier.push(leaf_hash(front));
        let first = if wanted == 0 {
            Some(head_over(&frontier, 0))
        } else {
            None
        };
        HeadsSoFar {
            frontier,
            batches: 0,
            wanted,
            first,
        }
    }

    /// One batch more, of this leaf.
    pub(crate) fn push(&mut self, leaf: &[u8])
        requires few { self.old.batches < 4294967295 }
        requires known { (hashes : List (List ℕ)) × AreSoFar self.old hashes }
        ensures so_far { (hashes : List (List ℕ)) → AreSoFar self.old hashes → AreSoFar self.new (hashes ++ spec.leaf_hash leaf.now ∷ []) }
        ensures wanted { self.new.wanted ≡ self.old.wanted }
        ensures batches { self.new.batches ≡ self.old.batches + 1 }
    {
        self.frontier.push(leaf_hash(leaf));
        self.batches += 1;
        if self.batches == self.wanted {
            self.first = Some(head_over(&self.frontier, self.batches));
        }
    }

    /// The heads, where the log has no batch more.
    pub(crate) fn heads(&self) -> Heads
        requires known { (hashes : List (List ℕ)) × AreSoFar self.now hashes }
        ensures { (hashes : List (List ℕ)) → AreSoFar self.now hashes → AreHeads result self.now.wanted hashes }
    {
        Heads {
            all: head_over(&self.frontier, self.batches),
            first: self.first,
        }
    }
}

/// The head over the leaves so far, of which there is one more than there are batches.
fn head_over(frontier: &Frontier, batches: u32) -> Head
    requires known { (hashes : List (List ℕ)) × Grown frontier.now hashes × (length hashes ≡ batches + 1) }
    ensures { (hashes : List (List ℕ)) → Grown frontier.now hashes → length hashes ≡ batches + 1 → IsHead result batches hashes }
{
    let Some(root) = frontier.root() else {
        unreachable!()
    };
    Head { batches, root }
}
