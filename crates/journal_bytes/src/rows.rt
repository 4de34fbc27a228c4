//! Worked rows of the bytes of journals.
ghost use Rattle.std.specs.Prelude.{◌≡◌, ◌+◌, ℕ, List, [], ◌∷◌, length, map};
ghost use Rattle.public_fold.specs.WorkedSteps.{granting};
ghost use Rattle.journal_bytes.specs.Bytes.{batches_of, image_of};

/// A folder, a file, a holder and a grant: the store's length, and that of each batch with the gate before it.
pub fn grant_has_its_bytes()
    ensures image { (owner : List ℕ) → length owner ≡ 32 → length (image_of owner granting) + 1 ≡ 2558 }
    ensures batches { (owner : List ℕ) → length owner ≡ 32 →
        map (λ b. 110 + length b.payload) (batches_of owner granting) ≡ 110 ∷ 667 ∷ 110 ∷ 872 ∷ 287 ∷ 245 ∷ 225 ∷ [] }
    ensures numbers { (owner : List ℕ) → map (λ b. b.number) (batches_of owner granting) ≡ 1 ∷ 2 ∷ 3 ∷ 4 ∷ 5 ∷ 6 ∷ 7 ∷ [] }
    ensures epochs { (owner : List ℕ) → map (λ b. b.epoch) (batches_of owner granting) ≡ 1 ∷ 1 ∷ 2 ∷ 2 ∷ 2 ∷ 2 ∷ 2 ∷ [] }
{}
