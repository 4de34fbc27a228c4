//! The tree, its proofs and their check are those of RFC 6962, section 2.1: each by the largest power of two below the number of
//! leaves.
ghost use Rattle.std.specs.Prelude.{◌≡◌, ℕ, ◌+◌, ◌-◌, ◌<◌, ◌≤◌, ◌⊎◌, Bool, true, false, List, [], ◌∷◌};
ghost use Rattle.std.specs.Prelude.{◌++◌, length, map, take, drop, None, option_map};
ghost use Rattle.head_tree.specs.Hashing.{IsSplit, leaf_hash, node_hash, texts_of, tree_hash};
ghost use Rattle.head_tree.specs.Heads.{Collision, IsHead, IsHeadOf};
ghost use Rattle.head_tree.specs.declared.head.Head.{Head};
ghost use Rattle.head_tree.specs.Proving.{own_root, part_proof};
ghost use Rattle.head_tree.specs.Checking.{proof_check, settled, with_left, with_right};

/// The root over one leaf is its hash. Over more it is the node of the roots over the first k and over the others.
pub fn root_is_split()
    ensures one { (hash : List ℕ) → tree_hash (hash ∷ []) ≡ hash }
    ensures more { (k : ℕ) (leaves : List (List ℕ)) → IsSplit k (length leaves)
        → tree_hash leaves ≡ node_hash (tree_hash (take k leaves)) (tree_hash (drop k leaves)) }
{}

/// The proof for all leaves is their root, or nothing. For fewer it is the proof within the first k or within the others, and then the
/// root over the rest.
pub fn proof_is_split()
    ensures all { (leaves : List (List ℕ)) (whole : Bool)
        → part_proof (length leaves) leaves whole ≡ own_root whole (tree_hash leaves) }
    ensures left { (k m : ℕ) (leaves : List (List ℕ)) (whole : Bool) → IsSplit k (length leaves) → m ≤ k
        → part_proof m leaves whole ≡ part_proof m (take k leaves) whole ++ tree_hash (drop k leaves) ∷ [] }
    ensures right { (k m : ℕ) (leaves : List (List ℕ)) (whole : Bool) → IsSplit k (length leaves) → k < m → m < length leaves
        → part_proof m leaves whole ≡ part_proof (m - k) (drop k leaves) false ++ tree_hash (take k leaves) ∷ [] }
{}

/// Where both numbers are one, the old root is both or the proof's only hash is. Where the new one is more, the last hash stands beside
/// what the others lead to.
pub fn check_is_split()
    ensures same { (root : List ℕ) (n : ℕ) (proof : List (List ℕ)) (whole : Bool)
        → proof_check root n n proof whole ≡ settled root proof whole }
    ensures lacking { (root : List ℕ) (m n : ℕ) (whole : Bool) → m < n → proof_check root m n [] whole ≡ None }
    ensures left { (root hash : List ℕ) (k m n : ℕ) (proof : List (List ℕ)) (whole : Bool) → IsSplit k n → m ≤ k
        → proof_check root m n (proof ++ hash ∷ []) whole ≡ option_map (with_right hash) (proof_check root m k proof whole) }
    ensures right { (root hash : List ℕ) (k m n : ℕ) (proof : List (List ℕ)) (whole : Bool) → IsSplit k n → k < m → m < n
        → proof_check root m n (proof ++ hash ∷ []) whole
        ≡ option_map (with_left hash) (proof_check root (m - k) (n - k) proof false) }
{}

/// Two logs of as many leaves with one root are one, or two different texts among those hashed for them have one SHA-256 value.
pub fn same_root_same_leaves()
    ensures { (one other : List (List ℕ)) → 0 < length one → length one ≡ length other
        → tree_hash (map leaf_hash one) ≡ tree_hash (map leaf_hash other) → (one ≡ other) ⊎ Collision (texts_of one ++ texts_of other) }
{}

/// The head over a log's first batches is the head of the log that ends with them.
pub fn heads_are_of_first_leaves()
    ensures { (head : Head) (batches : ℕ) (leaves : List (List ℕ)) → batches < length leaves → IsHead head batches (map leaf_hash leaves)
        → IsHeadOf head (take (batches + 1) leaves) }
{}
