//! Worked row: why a head is needed, computed by the checker from the definitions.
ghost use Rattle.std.specs.Prelude.{◌≡◌, [], ◌∷◌};
ghost use Rattle.held_laws.specs.WorkedCopies.{numbers_of};

/// Two runs over one copy of a store, where the second was handed what the first had been handed: two contents are sealed under one key and
/// one number.
#[tactic(auto, unfolding(crate::specs::WorkedCopies::copies))]
pub fn older_copies_spend_numbers_again()
    ensures first { numbers_of (1 ∷ []) ≡ 8589934592 ∷ 8589934593 ∷ 8589934594 ∷ [] }
    ensures again { numbers_of (2 ∷ []) ≡ 8589934592 ∷ 8589934593 ∷ 8589934594 ∷ [] }
{}
