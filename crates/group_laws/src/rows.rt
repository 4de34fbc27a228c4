//! Worked replacements, each computed by the checker from the definitions.
ghost use Rattle.std.specs.Prelude.{◌≡◌, [], ◌∷◌, codes};
ghost use Rattle.cry_base.specs.Requests.Request.{AddHolder, Grant, Revoke};
ghost use Rattle.group_book.specs.Replacing.{ascending, stands_for};
ghost use Rattle.group_laws.specs.WorkedReplacements.{shared_store};

/// Grants go by number, whenever they were given: folders first, and then files. All of them are given before one is taken back.
#[tactic(auto, unfolding(crate::specs::WorkedReplacements::replacements))]
pub fn grants_go_by_number()
    ensures all { stands_for shared_store 1 ≡ AddHolder
        ∷ Grant 4 (codes "/a") ∷ Grant 4 (codes "/a/b") ∷ Grant 4 (codes "/a/x")
        ∷ Revoke 1 (codes "/a") ∷ Revoke 1 (codes "/a/b") ∷ Revoke 1 (codes "/a/x") ∷ [] }
    ensures one { stands_for shared_store 2 ≡ AddHolder ∷ Grant 4 (codes "/a") ∷ Revoke 2 (codes "/a") ∷ [] }
{}

/// A holder without grants is replaced by a new holder alone; a number that nobody has by one revocation, which is refused.
#[tactic(auto, unfolding(crate::specs::WorkedReplacements::replacements))]
pub fn nothing_to_hand_on()
    ensures no_grant { stands_for shared_store 3 ≡ AddHolder ∷ [] }
    ensures nobody { stands_for shared_store 4 ≡ Revoke 4 (codes "/") ∷ [] }
{}

/// A number that comes twice stands once.
#[tactic(auto, unfolding(crate::specs::WorkedReplacements::replacements))]
pub fn numbers_stand_once()
    ensures { ascending (7 ∷ 2 ∷ 9 ∷ 2 ∷ 7 ∷ []) ≡ 2 ∷ 7 ∷ 9 ∷ [] }
{}
