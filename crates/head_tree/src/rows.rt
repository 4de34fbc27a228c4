//! Worked rows of the tree, each computed by the checker from the definitions.
ghost use Rattle.std.specs.Prelude.{◌≡◌, ℕ, List, [], ◌∷◌, codes};
ghost use Rattle.head_tree.specs.Hashing.{node_hash, tree_hash};
ghost use Rattle.head_tree.specs.Proving.{tree_proof};
ghost use Rattle.head_tree.specs.WorkedRows.{root_digits};

/// The tree over seven leaves and the proofs for its first 3, 4 and 6, as RFC 6962, section 2.1.3 draws them.
#[tactic(auto, unfolding(crate::specs::WorkedRows::tree_shape))]
pub fn seven_leaves()
    ensures root { (a b c d e f g : List ℕ) → tree_hash (a ∷ b ∷ c ∷ d ∷ e ∷ f ∷ g ∷ [])
        ≡ node_hash (node_hash (node_hash a b) (node_hash c d)) (node_hash (node_hash e f) g) }
    ensures from_three { (a b c d e f g : List ℕ) → tree_proof 3 (a ∷ b ∷ c ∷ d ∷ e ∷ f ∷ g ∷ [])
        ≡ c ∷ d ∷ node_hash a b ∷ node_hash (node_hash e f) g ∷ [] }
    ensures from_four { (a b c d e f g : List ℕ) → tree_proof 4 (a ∷ b ∷ c ∷ d ∷ e ∷ f ∷ g ∷ [])
        ≡ node_hash (node_hash e f) g ∷ [] }
    ensures from_six { (a b c d e f g : List ℕ) → tree_proof 6 (a ∷ b ∷ c ∷ d ∷ e ∷ f ∷ g ∷ [])
        ≡ node_hash e f ∷ g ∷ node_hash (node_hash a b) (node_hash c d) ∷ [] }
{}

/// The roots over the first one, two and three of the leaves that Certificate Transparency's implementations are tested with: no byte,
/// the byte 0 and the byte 0x10.
#[tactic(auto, unfolding(crate::specs::WorkedRows::tree_bytes))]
pub fn published_roots()
    ensures one { root_digits ([] ∷ []) ≡ codes "6e340b9cffb37a989ca544e6bb780a2c78901d3fb33738768511a30617afa01d" }
    ensures two { root_digits ([] ∷ (0 ∷ []) ∷ []) ≡ codes "fac54203e7cc696cf0dfcb42c92a1d9dbaf70ad9e621f4bd8d98662f00e3c125" }
    ensures three { root_digits ([] ∷ (0 ∷ []) ∷ (16 ∷ []) ∷ [])
        ≡ codes "aeb6bcfe274b70a14fb067a5e5578264db0fa9b51af5e0ba159158f329e06e77" }
{}
